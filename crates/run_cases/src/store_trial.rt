//! What a call of the program over a store is tried on.

use crate::surroundings::Surroundings;
use crate::trial::{ROOM, number_of, words_of};
use case_words::bytes_of;
use dso_base::NoMemory;
use dso_io::{MemFiles, MemSink};
use dso_keep::MemDisk;
use std::alloc::Global;

/// What a call is tried on. The configuration is the file `c`, the program the file `p`. A call of number 0 is none.
#[derive(Clone, Copy)]
pub struct StoreTrial<'a> {
    /// The command line, with the program's name first and a space between two words.
    line: &'a str,
    config: &'a str,
    pub program: &'a str,
    /// The bytes of the store's file, two digits each.
    store: &'a str,
    /// The call from which on the disk fails, and how many calls and bytes written it allows.
    stop: u64,
    most_calls: u32,
    most_bytes: u32,
    failing_call: u64,
    failing_put: u64,
    /// How many bytes the sink takes at a time.
    piece: usize,
}

impl<'a> StoreTrial<'a> {
    /// `sim` with a store over an empty configuration and this program, with an empty file and nothing that fails.
    pub fn of_program(program: &'a str) -> StoreTrial<'a> {
        StoreTrial {
            line: "dsorun sim c p --store s",
            config: "",
            program,
            store: "",
            stop: 0,
            most_calls: 4096,
            most_bytes: 65536,
            failing_call: 0,
            failing_put: 0,
            piece: ROOM,
        }
    }

    /// The trial with what a line sets.
    pub fn set(self, word: &str, rest: &'a str) -> StoreTrial<'a> {
        match word {
            "program" => StoreTrial::of_program(rest),
            "config" => StoreTrial {
                config: rest,
                ..self
            },
            "line" => StoreTrial { line: rest, ..self },
            "store" => StoreTrial {
                store: rest,
                ..self
            },
            "failing_call" => StoreTrial {
                failing_call: number_of(rest),
                ..self
            },
            "failing_put" => StoreTrial {
                failing_put: number_of(rest),
                ..self
            },
            "piece" => StoreTrial {
                piece: number_of(rest) as usize,
                ..self
            },
            _ => self.with_disk(word, rest),
        }
    }

    /// The trial with what a line sets of its disk.
    fn with_disk(self, word: &str, rest: &str) -> StoreTrial<'a> {
        match word {
            "stop" => StoreTrial {
                stop: number_of(rest),
                ..self
            },
            "most_calls" => StoreTrial {
                most_calls: small_of(rest),
                ..self
            },
            "most_bytes" => StoreTrial {
                most_bytes: small_of(rest),
                ..self
            },
            _ => self,
        }
    }

    /// The trial with a disk that stops at a call.
    pub fn stopped(self, stop: u64) -> StoreTrial<'a> {
        StoreTrial { stop, ..self }
    }

    /// The trial that shows its store.
    pub fn showing(self) -> StoreTrial<'a> {
        StoreTrial {
            line: "dsorun show c p s",
            ..self
        }
    }

    /// The trial of a command line alone: the configuration is no TOML, and the disk allows no call.
    pub fn of_words(self, line: &'a str) -> StoreTrial<'a> {
        StoreTrial {
            line,
            config: "=",
            most_calls: 0,
            ..self
        }
    }

    /// Makes the call.
    pub fn answer(&self, alloc: Global) -> Result<Surroundings, NoMemory> {
        let bytes = bytes_of(alloc, self.store)?;
        self.answer_over(alloc, self.disk(alloc, bytes.as_slice())?)
    }

    /// What `show` prints of a file with these bytes.
    pub fn shown(&self, alloc: Global, bytes: &[u8]) -> Result<String, NoMemory> {
        let showing = StoreTrial::of_program(self.program)
            .set("config", self.config)
            .showing();
        let disk = showing.disk(alloc, bytes)?;
        showing.answer_over(alloc, disk)?.printed(alloc)
    }

    /// Makes the call over this disk.
    fn answer_over(&self, alloc: Global, disk: MemDisk) -> Result<Surroundings, NoMemory> {
        let out = MemSink::new(alloc, self.piece.max(1), ROOM, &[self.failing_put])?;
        let mut surroundings = Surroundings::new(self.files(alloc)?, out, disk);
        let words = words_of(alloc, self.line)?;
        surroundings.call(alloc, words.as_slice());
        Ok(surroundings)
    }

    /// The files.
    fn files(&self, alloc: Global) -> Result<MemFiles, NoMemory> {
        let mut files = MemFiles::new(alloc, &[self.failing_call])?;
        let config = self.config.replace(alloc, "\\n", "\n")?;
        files.add(alloc, "c", config.as_bytes())?;
        files.add(alloc, "p", self.program.as_bytes())?;
        Ok(files)
    }

    /// The disk, whose file has these bytes.
    fn disk(&self, alloc: Global, bytes: &[u8]) -> Result<MemDisk, NoMemory> {
        let few = bytes.len().min(1 << 20);
        let stop = if self.stop == 0 {
            None
        } else {
            Some(self.stop)
        };
        MemDisk::new(alloc, &bytes[..few], stop, self.most_calls, self.most_bytes)
    }

    /// The bytes of the store's file before the call, as text.
    pub fn store(&self) -> &'a str {
        self.store
    }
}

/// The small number of a text, 0 where it is none.
fn small_of(text: &str) -> u32 {
    text.parse().unwrap_or(0)
}
