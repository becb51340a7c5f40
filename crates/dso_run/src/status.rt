//! How a call ended, with its exit number: `specs/Status.antt`.
ghost use Rattle.std.specs.Prelude.{◌≡◌};
ghost use Rattle.dso_run.specs.Status.{exit_number_of, status_of};

use dso_base::Journal;
use dso_class::NameFault;
use dso_config::ConfigFault;
use dso_lint::{Place, Why};
use dso_syntax::SyntaxFault;
use thiserror::Error;

/// Why a program is refused.
#[derive(Clone, Copy, Debug, PartialEq, Eq, Error)]
pub enum ProgramFault {
    /// It isn't of the grammar.
    #[error("the program's text breaks the grammar: {0}")]
    Syntax(SyntaxFault),
    /// Its names break a rule.
    #[error("a name of the program breaks a rule: {0}")]
    Name(NameFault),
}

/// How a call of the program ended.
#[derive(Clone, Copy, Debug, PartialEq, Eq)]
pub enum Status {
    /// Every thread of a client that wasn't lost ended, none of them by a fault, and no message is in flight.
    Finished,
    /// The same, but some thread of a client that wasn't lost ended by a fault.
    FinishedFault,
    /// The words are none that the program takes.
    Usage,
    /// The configuration is refused.
    BadConfig(ConfigFault),
    /// The program is refused.
    BadProgram(ProgramFault),
    /// A file could not be read.
    ReadFault,
    /// What was to be written could not be written whole.
    WriteFault,
    /// The run isn't finished, and no step is possible.
    Stuck,
    /// The run isn't finished, and its journal weighs as much as it may.
    Budget,
    /// An allocation was refused.
    NoMemory,
    /// The disk of a store failed.
    StoreFault,
    /// The file that is named for a run's store has more than one byte.
    StoreInUse,
    /// What is to be shown is no store: an open gate at this place, counted from 0, is followed by no record that fits.
    BadStore(u64),
    /// A store was shown.
    Shown,
    /// `lint`: both rules of the lock checker hold everywhere in the program.
    LintYes,
    /// `lint`: this is the first place of the program that fails a rule, and this the rule.
    LintNo(Place, Why),
}

impl Status {
    /// The number that the process ends with.
    pub fn exit_number(self) -> u8
        ensures { result ≡ exit_number_of self }
    {
        match self {
            Status::Finished => 0,
            Status::Usage => 1,
            Status::BadConfig(_) => 2,
            Status::BadProgram(_) => 3,
            Status::ReadFault => 4,
            Status::WriteFault => 5,
            Status::Stuck => 6,
            Status::Budget => 7,
            Status::NoMemory => 8,
            Status::FinishedFault => 9,
            Status::StoreFault => 10,
            Status::StoreInUse => 11,
            Status::BadStore(_) => 12,
            Status::Shown => 0,
            Status::LintYes => 0,
            Status::LintNo(_, _) => 13,
        }
    }
}

/// What a call of the program leaves: how it ended, and the journal of its run.
#[derive(Debug, Drop)]
pub struct Done {
    pub status: Status,
    pub journal: Journal,
}

/// Why nothing is run, or no more.
#[derive(Clone, Copy, Debug, PartialEq, Eq)]
pub(crate) enum Refusal {
    Words,
    Reading,
    Config(ConfigFault),
    Program(ProgramFault),
    Store,
    InUse,
    BadStore(u64),
}

impl Refusal {
    /// The status of the refusal.
    pub(crate) fn status(self) -> Status
        ensures { result ≡ status_of self }
    {
        match self {
            Refusal::Words => Status::Usage,
            Refusal::Reading => Status::ReadFault,
            Refusal::Config(fault) => Status::BadConfig(fault),
            Refusal::Program(fault) => Status::BadProgram(fault),
            Refusal::Store => Status::StoreFault,
            Refusal::InUse => Status::StoreInUse,
            Refusal::BadStore(place) => Status::BadStore(place),
        }
    }
}
