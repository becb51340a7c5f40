//! What is told of the bytes that a client sent.

use dso_base::Up;
use dso_server::Taken;
use dso_wire::WireFault;

/// What is told of the bytes that a client sent (`specs/Admissions.antt`).
#[derive(Debug, Drop)]
pub enum Admitted {
    /// The message was given up, with its sender's clock, and this became of it at the server.
    Took(Taken, Up, u64),
    /// The message of this number was given up before: nothing changed.
    Again(u64),
    /// A message is missing before this number, or the client has seen what was never sent: its client is lost.
    Gap(u64),
    /// The frame is of this epoch, and the connection isn't: nothing changed.
    OldConnection(u32),
    /// The connection begins anew behind this number.
    Rejoined(u64),
    /// The bytes are no frame: their client is lost. The fault is never a refused allocation.
    BadBytes(WireFault),
}
