//! Packets by their names.

use case_words::{bytes_of, debugged, shown};
use dso_base::NoMemory;
use dso_wire::decode_record;
use std::alloc::Global;

/// A client's byte, and the bytes of a record.
#[derive(Drop)]
pub struct Packet {
    name: String,
    pub client: u8,
    pub record: Vec<u8>,
}

/// All that were named.
#[derive(Drop)]
pub struct Packets {
    packets: Vec<Packet>,
}

impl Packets {
    /// None yet.
    pub fn new(alloc: Global) -> Packets {
        Packets {
            packets: Vec::new(alloc),
        }
    }

    /// Keeps a packet under this name, and tells how many bytes it has, or why its record is none.
    pub fn add(&mut self, alloc: Global, name: &str, digits: &str) -> Result<String, NoMemory> {
        let bytes = bytes_of(alloc, digits)?;
        let Some((client, record)) = bytes.split_first() else {
            return shown(alloc, "none");
        };
        if let Err(fault) = decode_record(alloc, record) {
            return debugged(alloc, fault);
        }
        let packet = Packet {
            name: String::from_str(alloc, name)?,
            client: *client,
            record: Vec::from_slice(alloc, record)?,
        };
        self.packets.push(packet)?;
        let text = format!(in alloc; "{} bytes", bytes.len())?;
        Ok(text)
    }

    /// The packet of this name, None where there is none.
    pub fn get(&self, name: &str) -> Option<&Packet> {
        self.packets
            .iter()
            .find(|packet| packet.name.as_str() == name)
    }
}
