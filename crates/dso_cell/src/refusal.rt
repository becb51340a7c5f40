//! What a cell answers that is spent, or that its lock doesn't give back.
use dso_base::NoMemory;
use dso_port::PortFault;
use std::alloc::AllocError;

/// What a cell answers that was spent, or that isn't the one that is asked for, though no allocation was refused.
pub(crate) fn of_spent() -> NoMemory {
    NoMemory::from(AllocError)
}

/// What a cell answers from now on that this spent.
pub(crate) fn refusal_of(fault: PortFault) -> NoMemory {
    match fault {
        PortFault::NoMemory(refused) => refused,
        PortFault::Gap | PortFault::NoBytes => of_spent(),
    }
}
