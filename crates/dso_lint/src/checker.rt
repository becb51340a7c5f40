//! The lock checker (`specs/Verdict.antt`, `specs/Judged.antt`).
ghost use Rattle.std.specs.Prelude.{◌≡◌, ◌<◌, ◌^◌, IfOk, OnOk, length};
ghost use Rattle.dso_class.specs.Sound.{IsSoundProgram};
ghost use Rattle.dso_machine.specs.Sound.{IsSoundCode};
ghost use Rattle.dso_lint.specs.CleanRows.{place_at};
ghost use Rattle.dso_lint.specs.Judged.{AreBodies, IsJudged, choice_by};
ghost use Rattle.dso_lint.specs.Tables.{AreTables};
ghost use Rattle.dso_lint.specs.Verdict.{IsVerdict, Tells};

use crate::access::keeps_access;
use crate::answer::{Lint, Place, Why};
use crate::listed::{Listed, all_listed};
use crate::row::Row;
use crate::rows::clean_rows;
use crate::tables::{Tables, tables_of};
use crate::upgrades::never_upgrades;
use dso_base::NoMemory;
use dso_class::Program;
use dso_machine::Code;
use std::alloc::Global;

/// The bodies of code and the clean variables of each; the first so many are those of methods.
#[derive(Drop)]
pub(crate) struct Bodies<'a> {
    pub(crate) all: Vec<Listed<'a>>,
    pub(crate) rows: Vec<Row>,
    pub(crate) methods: usize,
}

/// The bodies of code and the clean variables of each.
fn bodies_of<'a>(alloc: Global, code: &'a Code) -> Result<Bodies<'a>, NoMemory>
    ensures { IfOk result (AreBodies code.now) }
{
    let methods = code.methods.len();
    let all = all_listed(alloc, code)?;
    let rows = clean_rows(alloc, all.as_slice(), methods)?;
    Ok(Bodies { all, rows, methods })
}

/// Which rule the body of this number fails, if it fails one.
fn failed_rule(
    alloc: Global,
    code: &Code,
    bodies: &Bodies<'_>,
    tables: &mut Tables,
    number: usize,
) -> Result<Option<Why>, NoMemory>
    requires bodies { AreBodies code.now bodies.now }
    requires there { number < length bodies.now.all.items }
    requires tables { AreTables code.now tables.old }
    ensures right { OnOk result (AreTables code.now tables.new) }
    ensures judged { IfOk result (IsJudged code.now (choice_by code.now bodies.now) (place_at (length code.now.methods) number)) }
{
    let all = bodies.all.as_slice();
    let rows = bodies.rows.as_slice();
    let body = &all[number];
    let access = keeps_access(alloc, &code.shape, &rows[number], body)?;
    if !access {
        return Ok(Some(Why::Access));
    }
    let never = never_upgrades(alloc, all, bodies.methods, tables, body)?;
    if !never {
        return Ok(Some(Why::Upgrade));
    }
    Ok(None)
}

/// The place of the body of this number, where the first so many are those of methods.
fn place_of(number: usize, methods: usize) -> Place
    requires { number < 2 ^ 31 }
    ensures { result ≡ place_at methods number }
{
    if number < methods {
        return Place::Method(number as u32 + 1);
    }
    Place::Thread((number - methods) as u32 + 1)
}

/// The first place that fails a rule, and which; or that there is none.
fn first_failure(alloc: Global, code: &Code, bodies: &Bodies<'_>) -> Result<Lint, NoMemory>
    requires code { IsSoundCode code.now }
    requires bodies { AreBodies code.now bodies.now }
    ensures { IfOk result (Tells code.now (choice_by code.now bodies.now)) }
{
    let all = bodies.all.as_slice();
    let mut tables = tables_of(alloc, all, bodies.methods)?;
    for number in 0..all.len() {
        let failed = failed_rule(alloc, code, bodies, &mut tables, number)?;
        match failed {
            Some(why) => return Ok(Lint::No(place_of(number, bodies.methods), why)),
            None => {}
        }
    }
    Ok(Lint::Yes)
}

/// Whether the code takes its locks as its configuration asks, or the first body where it may not.
fn verdict(alloc: Global, code: &Code) -> Result<Lint, NoMemory>
    requires { IsSoundCode code.now }
    ensures { IfOk result (IsVerdict code.now) }
{
    let bodies = bodies_of(alloc, code)?;
    first_failure(alloc, code, &bodies)
}

/// Whether the program takes its locks as its configuration asks, or the first body where it may not: methods before
/// threads, in the order of the text, and at one body access before upgrade.
///
/// A Yes promises that no legal history of the program is refused for want of a lock (`yes_is_guarded` of `dso_lint_law`);
/// a No promises nothing. It reads the code alone and runs nothing. A chain of calls costs the square of its length.
/// `NoMemory` is answered where an allocation was refused, and then nothing is told.
pub fn lint(alloc: Global, program: &Program) -> Result<Lint, NoMemory>
    requires { IsSoundProgram program.now }
    ensures { IfOk result (IsVerdict program.now.code) }
{
    verdict(alloc, &program.code)
}
