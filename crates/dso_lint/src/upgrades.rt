//! The upgrade rule of a body (`specs/Upgrades.antt`, `specs/Upgrading.antt`).
ghost use Rattle.std.specs.Prelude.{◌≡◌, ◌↔◌, ◌≤◌, List, IfOk, IsTrue, OnOk, length};
ghost use Rattle.dso_machine.specs.declared.code.Code.{Code as Program};
ghost use Rattle.dso_machine.specs.declared.tree.Stmt.{Stmt as Statement};
ghost use Rattle.dso_lint.specs.Listed.{AreListed, IsListed, routines};
ghost use Rattle.dso_lint.specs.Lists.{Lists};
ghost use Rattle.dso_lint.specs.Routines.{Routine};
ghost use Rattle.dso_lint.specs.Tables.{AreMonitors, AreTables};
ghost use Rattle.dso_lint.specs.Trees.{StandsIn};
ghost use Rattle.dso_lint.specs.Upgrades.{MayWriteMonitor, NeverUpgrades};
ghost use Rattle.dso_lint.specs.Upgrading.{UpgradesAt, UpgradesName, UpgradesSite, UpgradesWhole};

use crate::fields::writes;
use crate::leads::calls_marked;
use crate::listed::{Listed, list_block};
use crate::tables::Tables;
use dso_base::NoMemory;
use dso_machine::Stmt;
use std::alloc::Global;

/// Whether from the block a monitor may be taken at Write, by the methods from which one may.
fn may_write(monitors: &[bool], block: &Listed<'_>) -> bool
    ensures { (code : Program) (routine : Routine) → AreMonitors code monitors.now → IsListed block.now routine
        → IsTrue result ↔ MayWriteMonitor code routine.statements }
{
    if block.writes {
        return true;
    }
    calls_marked(block.expressions.as_slice(), monitors)
}

/// Whether the statement itself is a site at Read from which a monitor may be taken at Write.
fn upgrades_at(alloc: Global, monitors: &[bool], a: &Stmt) -> Result<bool, NoMemory>
    ensures { (code : Program) → AreMonitors code monitors.now → IfOk result (λ is. IsTrue is ↔ UpgradesAt code a.now) }
{
    match a {
        Stmt::Sync(_, grade, all) => {
            if writes(*grade) {
                return Ok(false);
            }
            let block = list_block(alloc, all.get().as_slice())?;
            Ok(may_write(monitors, &block))
        }
        _ => Ok(false),
    }
}

/// Whether one of these statements is such a site.
fn has_upgrade(alloc: Global, monitors: &[bool], statements: &[&Stmt]) -> Result<bool, NoMemory>
    ensures { (code : Program) (block : List Statement) → AreMonitors code monitors.now → Lists (λ a. StandsIn a block) statements.now
        → IfOk result (λ is. IsTrue is ↔ ((a : Statement) × StandsIn a block × UpgradesAt code a)) }
{
    for a in statements {
        let upgrades = upgrades_at(alloc, monitors, a)?;
        if upgrades {
            return Ok(true);
        }
    }
    Ok(false)
}

/// Whether the method's own site is at Read and from it a monitor may be taken at Write.
fn upgrades_whole(monitors: &[bool], body: &Listed<'_>) -> bool
    ensures { (code : Program) (routine : Routine) → AreMonitors code monitors.now → IsListed body.now routine
        → IsTrue result ↔ UpgradesWhole code routine }
{
    match body.synced {
        None => false,
        Some(grade) => {
            if writes(grade) {
                return false;
            }
            may_write(monitors, body)
        }
    }
}

/// Whether a monitor that is taken at Read in the body, or by all of it, may be wanted at Write.
fn upgrades_site(alloc: Global, monitors: &[bool], body: &Listed<'_>) -> Result<bool, NoMemory>
    ensures { (code : Program) (routine : Routine) → AreMonitors code monitors.now → IsListed body.now routine
        → IfOk result (λ is. IsTrue is ↔ UpgradesSite code routine) }
{
    let at_site = has_upgrade(alloc, monitors, body.statements.as_slice())?;
    if at_site {
        return Ok(true);
    }
    Ok(upgrades_whole(monitors, body))
}

/// Whether the method's own named lock is taken at Read and from the body may be taken at Write.
fn upgrades_name(
    alloc: Global,
    bodies: &[Listed<'_>],
    methods: usize,
    tables: &mut Tables,
    body: &Listed<'_>,
) -> Result<bool, NoMemory>
    requires { methods ≤ length bodies.now }
    ensures right { (code : Program) → AreListed (routines code) bodies.now → methods ≡ length code.methods → AreTables code tables.old
        → OnOk result (AreTables code tables.new) }
    ensures is { (code : Program) (routine : Routine) → AreListed (routines code) bodies.now → methods ≡ length code.methods → AreTables code tables.old
        → IsListed body.now routine → IfOk result (λ is. IsTrue is ↔ UpgradesName code routine) }
{
    match body.named {
        None => Ok(false),
        Some((lock, grade)) => {
            if writes(grade) {
                return Ok(false);
            }
            let place = tables.table(alloc, bodies, methods, lock)?;
            let leading = tables.names[place].leading.as_slice();
            Ok(calls_marked(body.expressions.as_slice(), leading))
        }
    }
}

/// Whether the upgrade rule holds in the body.
pub(crate) fn never_upgrades(
    alloc: Global,
    bodies: &[Listed<'_>],
    methods: usize,
    tables: &mut Tables,
    body: &Listed<'_>,
) -> Result<bool, NoMemory>
    requires { methods ≤ length bodies.now }
    ensures right { (code : Program) → AreListed (routines code) bodies.now → methods ≡ length code.methods → AreTables code tables.old
        → OnOk result (AreTables code tables.new) }
    ensures is { (code : Program) (routine : Routine) → AreListed (routines code) bodies.now → methods ≡ length code.methods → AreTables code tables.old
        → IsListed body.now routine → IfOk result (λ never. IsTrue never ↔ NeverUpgrades code routine) }
{
    let site = upgrades_site(alloc, tables.monitors.as_slice(), body)?;
    if site {
        return Ok(false);
    }
    let name = upgrades_name(alloc, bodies, methods, tables, body)?;
    Ok(!name)
}
