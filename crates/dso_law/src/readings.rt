//! How a lock stands with a client, and whose an entry is, by `specs/Entries.antt`.
ghost use Rattle.std.specs.Prelude.{◌≡◌};
ghost use Rattle.dso_base.specs.declared.journal.Node.TheVariants.{Client};
ghost use Rattle.dso_law.specs.Entries.{is_node};

use dso_base::{Level, Node};

/// How a lock stands with a client: its lease, and whether one is asked for.
#[derive(Clone, Copy, Debug, PartialEq, Eq)]
pub struct LockStanding {
    pub lease: Option<Level>,
    pub is_asked: bool,
}

/// Whether the node is the client.
pub(crate) fn is_client(node: Node, client: u8) -> bool
    ensures { result ≡ is_node (Client client) node }
{
    match node {
        Node::Server => false,
        Node::Client(number) => client == number,
    }
}
