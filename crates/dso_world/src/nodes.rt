//! The nodes of the cluster.
use crate::client_node::ClientNode;
use dso_server::Server;

/// The clients, by rising number; the server, and the clock of its last entry.
#[derive(Drop)]
pub struct Nodes {
    pub(crate) client_nodes: Vec<ClientNode>,
    pub(crate) server: Server,
    pub(crate) clock: u64,
}
