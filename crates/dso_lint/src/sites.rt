//! `synchronized` statements that allow writes (`specs/Upgrades.antt`).
ghost use Rattle.std.specs.Prelude.{◌↔◌, IsTrue, List};
ghost use Rattle.dso_machine.specs.declared.tree.Stmt.{Stmt as Statement};
ghost use Rattle.dso_lint.specs.Lists.{Lists};
ghost use Rattle.dso_lint.specs.Trees.{StandsIn};
ghost use Rattle.dso_lint.specs.Upgrades.{HasWriteSite};
ghost use Rattle.dso_lint.specs.Upgrading.{IsWriteSite};

use crate::fields::writes;
use dso_machine::Stmt;

/// Whether the statement itself is `synchronized` at a grade that allows writes.
fn is_write_site(a: &Stmt) -> bool
    ensures { IsTrue result ↔ IsWriteSite a.now }
{
    match a {
        Stmt::Sync(_, grade, _) => writes(*grade),
        _ => false,
    }
}

/// Whether one of these statements is `synchronized` at a grade that allows writes.
pub(crate) fn has_write_site(statements: &[&Stmt]) -> bool
    ensures { (block : List Statement) → Lists (λ a. StandsIn a block) statements.now → IsTrue result ↔ HasWriteSite block }
{
    for a in statements {
        if is_write_site(a) {
            return true;
        }
    }
    false
}
