//! A collection of what no thread can come to any longer, by the nodes (`specs/Collections.antt`).
ghost use Rattle.std.specs.Prelude.{ℕ, suc, ◌≡◌, ◌<◌, List, IfOk, OnErr, OnOk};
ghost use Rattle.dso_base.specs.declared.journal.Entry.{Entry};
ghost use Rattle.dso_class.specs.declared.program.Program.{Program};
ghost use Rattle.dso_client.specs.CodeRuns.{RunsSomeCode};
ghost use Rattle.dso_world.specs.Collections.{AddsClient, AreSomeNodes, ArePathsOf, IsLawfulOf, SweepsNodes};
ghost use Rattle.dso_world.specs.NodesStand.{ClientNodeStands, NodesStand};

use crate::client_node::ClientNode;
use crate::message_names::add_both_parts;
use crate::nodes::Nodes;
use dso_base::NoMemory;
use std::alloc::Global;

/// What paths begin at, and the edges that they go along besides those of the server's bodies.
#[derive(Drop)]
pub(crate) struct Paths {
    pub(crate) starts: Vec<u64>,
    pub(crate) edges: Vec<(u64, u64)>,
}

impl Paths {
    /// Those of a cluster: object 0, what each client that isn't lost names, what is in flight between it and the server,
    /// and what its copies name. It costs the logarithm of what the clients hold, for each of it.
    fn of(alloc: Global, nodes: &Nodes) -> Result<Paths, NoMemory>
        requires { AreSomeNodes nodes.now }
        ensures { IfOk result (λ paths. (program : Program) (es : List Entry) → IsLawfulOf program es
            → NodesStand program nodes.now es → ArePathsOf program program.clients es paths) }
    {
        let mut paths = Paths {
            starts: Vec::new(alloc),
            edges: Vec::new(alloc),
        };
        paths.starts.push(0)?;
        let count = nodes.client_nodes.len() as u8;
        for place in 0..count {
            paths.add_place(alloc, nodes, place)?;
        }
        Ok(paths)
    }

    /// Adds what the client at this place names, if it isn't lost.
    fn add_place(&mut self, alloc: Global, nodes: &Nodes, place: u8) -> Result<(), NoMemory>
        requires fits { place < 255 }
        requires stand { AreSomeNodes nodes.now }
        ensures { OnOk result ((program : Program) (es : List Entry) → IsLawfulOf program es
            → NodesStand program nodes.now es → ArePathsOf program place es self.old → ArePathsOf program (suc place) es self.new) }
    {
        let number = place + 1;
        match nodes.client_nodes.get(place as usize) {
            Some(client_node) if !nodes.server.is_lost(number) => self.add_client(
                alloc,
                client_node,
            ),
            Some(_) => Ok(()),
            None => Ok(()),
        }
    }

    /// Adds what the client names, and what its copies name.
    fn add_client(&mut self, alloc: Global, client_node: &ClientNode) -> Result<(), NoMemory>
        requires { RunsSomeCode client_node.now.client }
        ensures { OnOk result ((program : Program) (c : ℕ) (es : List Entry) → IsLawfulOf program es
            → ClientNodeStands program c client_node.now es → AddsClient program c es self.old self.new) }
    {
        let named = client_node.client.named(alloc)?;
        self.starts.extend_from_slice(named.as_slice())?;
        let (first, second) = client_node.link.left_up();
        add_both_parts(first, second, &mut self.starts)?;
        let (first, second) = client_node.link.left_down();
        add_both_parts(first, second, &mut self.starts)?;
        let edges = client_node.client.edges(alloc)?;
        self.edges.extend_from_slice(edges.as_slice())?;
        Ok(())
    }
}

/// Sweeps the server's graph, and tells how many objects that were.
///
/// It answers `NoMemory` where an allocation was refused, with nothing swept.
pub(crate) fn sweep(alloc: Global, nodes: &mut Nodes) -> Result<u64, NoMemory>
    requires { AreSomeNodes nodes.old }
    ensures swept { IfOk result (λ count. (program : Program) (es : List Entry) → IsLawfulOf program es
        → NodesStand program nodes.old es → SweepsNodes program count nodes.old nodes.new es) }
    ensures unswept { OnErr result (nodes.new ≡ nodes.old) }
{
    let paths = Paths::of(alloc, nodes)?;
    let swept = nodes
        .server
        .collect(alloc, paths.starts.as_slice(), paths.edges.as_slice())?;
    Ok(swept.len() as u64)
}
