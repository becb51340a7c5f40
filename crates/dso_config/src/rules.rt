//! The rules of each section, as its reader has them (`specs/Entries.antt`).

ghost use Rattle.std.specs.Prelude.{◌≡◌, IfOk, IfErr};
ghost use Rattle.toml.specs.View.{table_view};
ghost use Rattle.dso_config.specs.Entries.{Rules, root_rules, autolock_rules, named_rules, guard_rules, loss_rules, break_rules};
ghost use Rattle.dso_config.specs.Keys.{IsSaid, IsTold};

use crate::{AutoEntry, ConfigFault, GuardEntry, NamedEntry, RootEntry, Section, Spot, forms};
use dso_base::Trigger;
use std::alloc::Global;
use toml::Table;

/// What a section's entries are.
pub trait SectionRules {
    /// What an entry says.
    type Entry: Drop;

    /// The rules of the section.
    ghost rules: { Self → Rules Self.Entry };

    /// Which section it is.
    fn section(&self) -> Section
        ensures { result ≡ (rules self.now).section };

    /// The entry that a table says which has no key but the section's, or what is wrong with the table, at this spot.
    fn read(&self, alloc: Global, table: &Table, spot: Spot) -> Result<Self::Entry, ConfigFault>
        ensures ok { IfOk result (IsSaid ((rules self.now).entry (table_view table.now))
            ((rules self.now).fault spot (table_view table.now))) }
        ensures err { IfErr result (IsTold ((rules self.now).fault spot (table_view table.now))) };

    /// Whether an entry says again what an earlier one said.
    fn repeats(&self, entry: &Self::Entry, earlier: &Self::Entry) -> bool
        ensures { result ≡ (rules self.now).repeats entry.now earlier.now };
}

/// `[[root]]`
pub struct Roots;

/// `[[autolock]]`
pub struct Autolocks;

/// `[[named_lock]]`
pub struct NamedLocks;

/// `[[guard]]`
pub struct Guards;

/// `[[lose]]` of a cluster of so many clients
#[derive(Clone, Copy)]
pub struct Losses {
    pub clients: u8,
}

/// `[[break]]` of a cluster of so many clients
#[derive(Clone, Copy)]
pub struct Breaks {
    pub clients: u8,
}

impl SectionRules for Roots {
    type Entry = RootEntry;

    ghost rules = { λ _. root_rules };

    fn section(&self) -> Section {
        Section::Root
    }

    fn read(&self, alloc: Global, table: &Table, spot: Spot) -> Result<RootEntry, ConfigFault> {
        forms::root_at(alloc, table, spot)
    }

    fn repeats(&self, entry: &RootEntry, earlier: &RootEntry) -> bool {
        entry.class.as_slice() == earlier.class.as_slice()
            && entry.field.as_slice() == earlier.field.as_slice()
    }
}

impl SectionRules for Autolocks {
    type Entry = AutoEntry;

    ghost rules = { λ _. autolock_rules };

    fn section(&self) -> Section {
        Section::Autolock
    }

    fn read(&self, alloc: Global, table: &Table, spot: Spot) -> Result<AutoEntry, ConfigFault> {
        forms::locking(alloc, table, spot)
    }

    fn repeats(&self, _entry: &AutoEntry, _earlier: &AutoEntry) -> bool {
        false
    }
}

impl SectionRules for NamedLocks {
    type Entry = NamedEntry;

    ghost rules = { λ _. named_rules };

    fn section(&self) -> Section {
        Section::NamedLock
    }

    fn read(&self, alloc: Global, table: &Table, spot: Spot) -> Result<NamedEntry, ConfigFault> {
        let name = forms::name_at(alloc, table, "name", ConfigFault::BadName(spot), spot)?;
        let AutoEntry { method, grade } = forms::locking(alloc, table, spot)?;
        Ok(NamedEntry {
            name,
            method,
            grade,
        })
    }

    fn repeats(&self, _entry: &NamedEntry, _earlier: &NamedEntry) -> bool {
        false
    }
}

impl SectionRules for Guards {
    type Entry = GuardEntry;

    ghost rules = { λ _. guard_rules };

    fn section(&self) -> Section {
        Section::Guard
    }

    fn read(&self, alloc: Global, table: &Table, spot: Spot) -> Result<GuardEntry, ConfigFault> {
        forms::guard(alloc, table, spot)
    }

    fn repeats(&self, _entry: &GuardEntry, _earlier: &GuardEntry) -> bool {
        false
    }
}

impl SectionRules for Losses {
    type Entry = Trigger;

    ghost rules = { λ losses. loss_rules losses.clients };

    fn section(&self) -> Section {
        Section::Lose
    }

    fn read(&self, _alloc: Global, table: &Table, spot: Spot) -> Result<Trigger, ConfigFault> {
        forms::trigger(table, self.clients, spot)
    }

    fn repeats(&self, entry: &Trigger, earlier: &Trigger) -> bool {
        entry.client == earlier.client
    }
}

impl SectionRules for Breaks {
    type Entry = Trigger;

    ghost rules = { λ breaks. break_rules breaks.clients };

    fn section(&self) -> Section {
        Section::Break
    }

    fn read(&self, _alloc: Global, table: &Table, spot: Spot) -> Result<Trigger, ConfigFault> {
        forms::trigger(table, self.clients, spot)
    }

    fn repeats(&self, entry: &Trigger, earlier: &Trigger) -> bool {
        entry.after == earlier.after && entry.client == earlier.client
    }
}
