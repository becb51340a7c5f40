//! What the server hears of a client about a lock.

use dso_base::Level;

/// A request, a return, or the client's loss.
#[derive(Clone, Copy, Debug, PartialEq, Eq)]
pub enum News {
    Request(Level),
    Return,
    Loss,
}

/// News, and the client whose they are.
#[derive(Clone, Copy)]
pub(crate) struct ClientNews {
    pub(crate) client: u8,
    pub(crate) news: News,
}
