//! A client of the cluster with its connection.
use crate::Link;
use dso_base::Both;
use dso_client::Client;
use dso_server::Triggers;

/// A client, both ends of its connection with what is in flight, the clock of its last entry, and its triggers.
#[derive(Drop)]
pub struct ClientNode {
    pub(crate) client: Client,
    pub(crate) link: Link<Both>,
    pub(crate) clock: u64,
    pub(crate) triggers: Triggers,
}
