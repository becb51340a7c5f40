//! A message that came up.
use dso_base::Up;

/// A message that the server takes of a client, with the clock of the entry that sent it.
#[derive(Drop)]
pub struct IncomingMessage {
    pub client: u8,
    pub message: Up,
    pub clock: u64,
}
