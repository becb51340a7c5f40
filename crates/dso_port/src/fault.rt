//! Why an end of a connection goes on no more.

use dso_base::NoMemory;
use thiserror::Error;

/// Why an end of a connection goes on no more. Nothing is said of its session then.
#[derive(Clone, Copy, Debug, PartialEq, Eq, Error)]
pub enum PortFault {
    /// An allocation was refused.
    #[error("out of memory")]
    NoMemory(NoMemory),
    /// A frame came before which a message is missing, or whose end has seen what was never sent.
    #[error("a message is missing before a frame")]
    Gap,
    /// A frame is due that has no bytes: a list in it is too long, or a thread's number.
    #[error("a frame has no bytes")]
    NoBytes,
}

impl From<NoMemory> for PortFault {
    ghost use Rattle.std.specs.Prelude.{◌≡◌};
    ghost use Rattle.dso_port.specs.declared.fault.PortFault.TheVariants as fault;

    ghost from_gives = { λ refused e. e ≡ fault.NoMemory refused };

    fn from(refused: NoMemory) -> PortFault {
        PortFault::NoMemory(refused)
    }
}
