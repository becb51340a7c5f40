//! A whole configuration (`specs/Configuration.antt`).

ghost use Rattle.std.specs.Prelude.{◌≤◌, IfOk, IfErr};
ghost use Rattle.toml.specs.Data.{get_member};
ghost use Rattle.toml.specs.View.{table_view};
ghost use Rattle.dso_config.specs.Configuration.{IsConfigurationOf, IsFaultOf, Says, setting, setting_fault, clients_of, clients_fault, resident_of, resident_fault};
ghost use Rattle.dso_config.specs.Configuration.{table_fault};
ghost use Rattle.dso_config.specs.InRange.{IsInRange};
ghost use Rattle.dso_config.specs.Keys.{IsOfText, IsSaid, IsTold};

use crate::rules::{Autolocks, Breaks, Guards, Losses, NamedLocks, Roots};
use crate::section::{section, section_or_empty};
use crate::{Config, ConfigFault, Section, Spot, keys};
use dso_base::NoMemory;
use std::alloc::{AllocError, Global};
use toml::Table;

/// The most bytes of a text.
const MOST_BYTES: usize = 1_048_576;

/// The most clients of a cluster.
const MOST_CLIENTS: u64 = 16;

/// The most objects that a client may be told to keep.
const MOST_RESIDENT: u64 = 1_000_000;

/// The number at a key of the top, its default where the key is absent.
fn setting(table: &Table, key: &str, default: u64, most: u64) -> Result<u64, ConfigFault>
    requires least { 1 ≤ default }
    requires most { default ≤ most }
    ensures ok { IfOk result (IsSaid (setting default most (get_member key.now (table_view table.now)))
        (setting_fault most (get_member key.now (table_view table.now)))) }
    ensures least { IfOk result (λ number. 1 ≤ number) }
    ensures most { IfOk result (λ number. number ≤ most) }
    ensures err { IfErr result (IsTold (setting_fault most (get_member key.now (table_view table.now)))) }
{
    match keys::value_at(table, key) {
        Some(value) => keys::number(value.as_integer(), 1, most, Spot::TOP),
        None => Ok(default),
    }
}

/// How many clients there are.
fn clients(table: &Table) -> Result<u8, ConfigFault>
    ensures ok { IfOk result (IsSaid (clients_of (table_view table.now)) (clients_fault (table_view table.now))) }
    ensures err { IfErr result (IsTold (clients_fault (table_view table.now))) }
{
    Ok(setting(table, "clients", 1, MOST_CLIENTS)? as u8)
}

/// How many objects a client keeps.
fn resident(table: &Table) -> Result<u32, ConfigFault>
    ensures ok { IfOk result (IsSaid (resident_of (table_view table.now)) (resident_fault (table_view table.now))) }
    ensures err { IfErr result (IsTold (resident_fault (table_view table.now))) }
{
    Ok(setting(table, "resident", 4096, MOST_RESIDENT)? as u32)
}

/// The configuration that a table says.
fn configuration(alloc: Global, table: &Table) -> Result<Config, ConfigFault>
    ensures ok { IfOk result (Says (table_view table.now)) }
    ensures err { IfErr result (IsTold (table_fault (table_view table.now))) }
{
    if !keys::has_known_keys(table, Section::Top) {
        return Err(ConfigFault::UnknownKey(Spot::TOP));
    }
    let clients = clients(table)?;
    let resident = resident(table)?;
    let roots = section(alloc, &Roots, table)?;
    let autolocks = section(alloc, &Autolocks, table)?;
    let named = section(alloc, &NamedLocks, table)?;
    let guards = section_or_empty(alloc, &Guards, table)?;
    let losses = section_or_empty(alloc, &Losses { clients }, table)?;
    let breaks = section_or_empty(alloc, &Breaks { clients }, table)?;
    Ok(Config {
        clients,
        resident,
        roots,
        autolocks,
        named,
        guards,
        losses,
        breaks,
    })
}

/// The configuration that a text says, which is read as TOML.
///
/// `NoMemory` is answered where an allocation was refused, and only there. Every other text that says no configuration is
/// refused with its fault: `TooLong` for a text of over 1,048,576 bytes, `NotToml` for one that is no TOML, and else the
/// first fault of its table. The time grows as the length of the text, and in a section of roots, losses or breaks as the
/// square of its entries, of which there are 1024 at most.
pub fn read_config(alloc: Global, text: &[u8]) -> Result<Config, ConfigFault>
    ensures ok { IfOk result (IsConfigurationOf text.now) }
    ensures in_range { IfOk result IsInRange }
    ensures refused { IfErr result (λ wrong. IsOfText wrong → IsFaultOf text.now wrong) }
{
    if text.len() > MOST_BYTES {
        return Err(ConfigFault::TooLong);
    }
    match toml::table_from_slice(alloc, text) {
        Ok(table) => configuration(alloc, &table),
        // toml tells that an allocation was refused, and hands no refusal on.
        Err(refused) if refused.is_memory() => Err(ConfigFault::NoMemory(NoMemory::from(
            AllocError,
        ))),
        Err(_) => Err(ConfigFault::NotToml),
    }
}
