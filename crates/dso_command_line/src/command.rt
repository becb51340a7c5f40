//! What the words ask for (`specs/Words.antt`).
ghost use Rattle.std.specs.Prelude.{◌≡◌};
ghost use Rattle.dso_command_line.specs.Given.{told};
ghost use Rattle.dso_command_line.specs.Said.{said};
ghost use Rattle.dso_command_line.specs.Words.{collect_of, journal_of, seed_of, steps_of, store_of};

use crate::numbers::BUDGET;

/// What the words ask for.
#[derive(Clone, Copy, Debug)]
pub enum Command<'a> {
    /// One run of a program over a configuration, on one thread.
    Sim {
        config: &'a str,
        program: &'a str,
        /// The seed of the schedule; round robin where there is none.
        seed: Option<u64>,
        /// How much the journal of its run may weigh before the run is cut off, 1 to 4,000,000.
        steps: u64,
        /// The file that the journal is written to, if any.
        journal: Option<&'a str>,
        /// The file in which the graph is kept, if any.
        store: Option<&'a str>,
        /// After how many entries each garbage is collected, 1 to 1,000,000; never where it isn't said.
        collect: Option<u64>,
    },
    /// The same, with a thread of the host for each worker.
    Run {
        config: &'a str,
        program: &'a str,
        steps: u64,
        journal: Option<&'a str>,
    },
    /// A load that is made for this number, 1 to 1000.
    Big {
        number: u32,
    },
    /// The graph that a file keeps, for a program over a configuration.
    Show {
        config: &'a str,
        program: &'a str,
        /// The file that keeps it.
        store: &'a str,
    },
    /// Whether a program keeps to its locks, by its text.
    Lint {
        config: &'a str,
        program: &'a str,
    },
}

impl<'a> Command<'a> {
    /// The seed that it gives its run, if it gives one; only `sim` can.
    pub fn seed(&self) -> Option<u64>
        ensures { result ≡ seed_of (said self.now) }
    {
        match self {
            Command::Sim { seed, .. } => *seed,
            _ => None,
        }
    }

    /// How much the journal of its run may weigh before it is cut off: a load's as much as any run's may; 0 where it asks for
    /// no run.
    pub fn steps(&self) -> u64
        ensures { result ≡ steps_of (said self.now) }
    {
        match self {
            Command::Sim { steps, .. } | Command::Run { steps, .. } => *steps,
            Command::Big { .. } => BUDGET,
            Command::Show { .. } | Command::Lint { .. } => 0,
        }
    }

    /// The file for its run's journal, if it names one.
    pub fn journal(&self) -> Option<&'a str>
        ensures { told result ≡ journal_of (said self.now) }
    {
        match self {
            Command::Sim { journal, .. } | Command::Run { journal, .. } => *journal,
            Command::Big { .. } | Command::Show { .. } | Command::Lint { .. } => None,
        }
    }

    /// The file for its run's store, if it names one; only `sim` can.
    pub fn store(&self) -> Option<&'a str>
        ensures { told result ≡ store_of (said self.now) }
    {
        match self {
            Command::Sim { store, .. } => *store,
            _ => None,
        }
    }

    /// After how many entries of its journal each its run collects garbage, if it does; only `sim` can.
    pub fn collect(&self) -> Option<u64>
        ensures { result ≡ collect_of (said self.now) }
    {
        match self {
            Command::Sim { collect, .. } => *collect,
            _ => None,
        }
    }
}
