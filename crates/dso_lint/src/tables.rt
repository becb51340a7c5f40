//! The methods from which a lock may be taken at Write (`specs/Tables.antt`).
ghost use Rattle.std.specs.Prelude.{◌≡◌, ◌↔◌, ◌+◌, ◌⊎◌, ◌≤◌, IfOk, IsTrue, OnOk, length};
ghost use Rattle.dso_machine.specs.declared.code.Code.{Code as Program};
ghost use Rattle.dso_lint.specs.Callers.{AreCallers};
ghost use Rattle.dso_lint.specs.Listed.{AreListed, IsListed, routines};
ghost use Rattle.dso_lint.specs.Routines.{Routine};
ghost use Rattle.dso_lint.specs.Tables.{AreMonitors, AreTables, AreTakers, BeginsBelow, IsTableOf, TableAt};
ghost use Rattle.dso_lint.specs.Upgrades.{IsWriter, LocksForWrite, TakesForWrite};
ghost use Rattle.dso_lint.specs.Upgrading.{TakesMonitor, TakesName};

use crate::callers::{Called, MAP_METHODS, callers_of};
use crate::fields::writes;
use crate::leads::leading;
use crate::listed::Listed;
use crate::marks::Marks;
use dso_base::{Grade, NoMemory};
use std::alloc::Global;

/// The place of `put` among the methods of a map.
const PUT: usize = 3;

/// The place of `remove` among them.
const REMOVE: usize = 4;

/// The methods from which this named lock may be taken at Write.
#[derive(Drop)]
pub(crate) struct Named {
    pub(crate) lock: u32,
    pub(crate) leading: Vec<bool>,
}

/// Who calls each method, from which methods a monitor may be taken at Write, and from which the named locks that were
/// asked for.
#[derive(Drop)]
pub(crate) struct Tables {
    pub(crate) callers: Vec<Called>,
    pub(crate) monitors: Vec<bool>,
    pub(crate) names: Vec<Named>,
}

/// Whether the method takes its object's monitor at a grade that allows writes.
fn locks_for_write(synced: Option<Grade>) -> bool
    ensures { IsTrue result ↔ LocksForWrite synced }
{
    match synced {
        None => false,
        Some(grade) => writes(grade),
    }
}

/// Whether this named lock is taken at a grade that allows writes.
fn takes_for_write(lock: u32, named: Option<(u32, Grade)>) -> bool
    ensures { IsTrue result ↔ TakesForWrite lock named }
{
    match named {
        None => false,
        Some((other, grade)) => other == lock && writes(grade),
    }
}

/// Whether the body takes a monitor at a grade that allows writes, at a site in it or around all of it.
fn takes_monitor(body: &Listed<'_>) -> bool
    ensures { (routine : Routine) → IsListed body.now routine → IsTrue result ↔ TakesMonitor routine }
{
    if body.writes {
        return true;
    }
    locks_for_write(body.synced)
}

/// Whether the method of a map at this place takes the map's monitor at Write.
fn writes_map(place: usize) -> bool
    ensures { IsTrue result ↔ ((place ≡ 3) ⊎ (place ≡ 4)) }
{
    place == PUT || place == REMOVE
}

/// Whether the method of this number takes a monitor at Write; behind those of the code are a map's.
fn is_writer(bodies: &[Listed<'_>], methods: usize, number: usize) -> bool
    requires { methods ≤ length bodies.now }
    ensures { (code : Program) → AreListed (routines code) bodies.now → methods ≡ length code.methods → IsTrue result ↔ IsWriter code number }
{
    if number < methods {
        return takes_monitor(&bodies[number]);
    }
    writes_map(number - methods)
}

/// Whether the method of this number takes the named lock at Write.
fn takes_name(bodies: &[Listed<'_>], methods: usize, number: usize, lock: u32) -> bool
    requires { methods ≤ length bodies.now }
    ensures { (code : Program) → AreListed (routines code) bodies.now → methods ≡ length code.methods → IsTrue result ↔ TakesName code lock number }
{
    if number >= methods {
        return false;
    }
    takes_for_write(lock, bodies[number].named)
}

/// The methods that take a monitor at Write, marked.
fn writers(alloc: Global, bodies: &[Listed<'_>], methods: usize) -> Result<Marks, NoMemory>
    requires { methods ≤ length bodies.now }
    ensures { (code : Program) → AreListed (routines code) bodies.now → methods ≡ length code.methods
        → IfOk result (BeginsBelow (IsWriter code) (methods + 5) (methods + 5)) }
{
    let size = methods + MAP_METHODS;
    let mut marks = Marks::new(alloc, size)?;
    for number in 0..size {
        marks.add_if(number, is_writer(bodies, methods, number))?;
    }
    Ok(marks)
}

/// The methods from which a monitor may be taken at Write.
fn monitors_of(
    alloc: Global,
    bodies: &[Listed<'_>],
    methods: usize,
    callers: &[Called],
) -> Result<Vec<bool>, NoMemory>
    requires { methods ≤ length bodies.now }
    ensures { (code : Program) → AreListed (routines code) bodies.now → methods ≡ length code.methods
        → AreCallers code (methods + 5) methods callers.now → IfOk result (λ marked. AreMonitors code marked.items) }
{
    let marks = writers(alloc, bodies, methods)?;
    leading(callers, marks)
}

/// The methods that take the named lock at Write, marked.
fn takers(
    alloc: Global,
    bodies: &[Listed<'_>],
    methods: usize,
    lock: u32,
) -> Result<Marks, NoMemory>
    requires { methods ≤ length bodies.now }
    ensures { (code : Program) → AreListed (routines code) bodies.now → methods ≡ length code.methods
        → IfOk result (BeginsBelow (TakesName code lock) (methods + 5) (methods + 5)) }
{
    let size = methods + MAP_METHODS;
    let mut marks = Marks::new(alloc, size)?;
    for number in 0..size {
        marks.add_if(number, takes_name(bodies, methods, number, lock))?;
    }
    Ok(marks)
}

/// The methods from which the named lock may be taken at Write.
fn takers_of(
    alloc: Global,
    bodies: &[Listed<'_>],
    methods: usize,
    callers: &[Called],
    lock: u32,
) -> Result<Vec<bool>, NoMemory>
    requires { methods ≤ length bodies.now }
    ensures { (code : Program) → AreListed (routines code) bodies.now → methods ≡ length code.methods
        → AreCallers code (methods + 5) methods callers.now → IfOk result (λ marked. AreTakers code lock marked.items) }
{
    let marks = takers(alloc, bodies, methods, lock)?;
    leading(callers, marks)
}

/// The tables of the code, of no named lock yet.
pub(crate) fn tables_of(
    alloc: Global,
    bodies: &[Listed<'_>],
    methods: usize,
) -> Result<Tables, NoMemory>
    requires { methods ≤ length bodies.now }
    ensures { (code : Program) → AreListed (routines code) bodies.now → methods ≡ length code.methods → IfOk result (AreTables code) }
{
    let callers = callers_of(alloc, bodies, methods)?;
    let monitors = monitors_of(alloc, bodies, methods, callers.as_slice())?;
    Ok(Tables {
        callers,
        monitors,
        names: Vec::new(alloc),
    })
}

/// Whether the table is that of the lock.
fn is_of(named: &Named, lock: u32) -> bool
    ensures { IsTrue result ↔ (named.now.lock ≡ lock) }
{
    named.lock == lock
}

/// The place of the lock's table, if there is one.
fn find_table(names: &[Named], lock: u32) -> Option<usize>
    ensures { TableAt lock names.now result }
{
    for place in 0..names.len() {
        if is_of(&names[place], lock) {
            return Some(place);
        }
    }
    None
}

impl Tables {
    /// Makes the named lock's table, behind the others. Tells its place.
    fn add_table(
        &mut self,
        alloc: Global,
        bodies: &[Listed<'_>],
        methods: usize,
        lock: u32,
    ) -> Result<usize, NoMemory>
        requires { methods ≤ length bodies.now }
        ensures place { IfOk result (λ place. IsTableOf lock place self.new.names.items) }
        ensures right { (code : Program) → AreListed (routines code) bodies.now → methods ≡ length code.methods → AreTables code self.old
            → OnOk result (AreTables code self.new) }
    {
        let leading = takers_of(alloc, bodies, methods, self.callers.as_slice(), lock)?;
        let place = self.names.len();
        self.names.push(Named { lock, leading })?;
        Ok(place)
    }

    /// The place of the named lock's table, which is made where there is none yet.
    pub(crate) fn table(
        &mut self,
        alloc: Global,
        bodies: &[Listed<'_>],
        methods: usize,
        lock: u32,
    ) -> Result<usize, NoMemory>
        requires { methods ≤ length bodies.now }
        ensures place { IfOk result (λ place. IsTableOf lock place self.new.names.items) }
        ensures right { (code : Program) → AreListed (routines code) bodies.now → methods ≡ length code.methods → AreTables code self.old
            → OnOk result (AreTables code self.new) }
    {
        match find_table(self.names.as_slice(), lock) {
            Some(place) => Ok(place),
            None => self.add_table(alloc, bodies, methods, lock),
        }
    }
}
