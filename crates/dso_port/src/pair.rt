//! Both ends of a client's connection, with both rings.
ghost use Rattle.std.specs.Prelude.{IfOk};
ghost use Rattle.dso_session.specs.declared.session.Role.TheVariants as role;
ghost use Rattle.dso_port.specs.Ports.{AreTogether, IsNew};

use crate::carried::FramesOf;
use crate::port::Port;
use dso_base::{Down, NoMemory, Up};
use dso_session::Session;
use rtrb::RingBuffer;
use std::alloc::Global;

/// How many frames a ring has room for.
pub const PLACES: usize = 64;

/// The client's end and the server's end of a connection, with a ring up and a ring down between them: nothing was
/// sent. It answers `NoMemory` where an allocation was refused.
pub fn both_ends(alloc: Global) -> Result<(Port<Up, Down>, Port<Down, Up>), NoMemory>
    ensures client { IfOk result (λ made. IsNew role.Client made.0) }
    ensures server { IfOk result (λ made. IsNew role.Server made.1) }
    ensures together { IfOk result (λ made. AreTogether made.0 made.1) }
{
    let (up, from_client) = RingBuffer::with_protocol::<Global, FramesOf<Up>>(alloc, PLACES)?;
    let (down, from_server) = RingBuffer::with_protocol::<Global, FramesOf<Down>>(alloc, PLACES)?;
    let client = Port::of(Session::client(alloc), up, from_server);
    let server = Port::of(Session::server(alloc), down, from_client);
    Ok((client, server))
}
