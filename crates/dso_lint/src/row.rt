//! The clean variables of a body (`specs/Clean.antt`, `specs/Rows.antt`).
ghost use Rattle.std.specs.Prelude.{◌≡◌, true, slice_index_or};
ghost use Rattle.dso_lint.specs.Clean.{is_clean};
ghost use Rattle.dso_lint.specs.Rows.{chosen_by};

use dso_machine::Expr;

/// Which variables of a body are clean, and whether its `this` is. A variable behind these is clean.
#[derive(Drop)]
pub(crate) struct Row {
    pub(crate) variables: Vec<bool>,
    pub(crate) this: bool,
}

impl Row {
    /// Whether the variable is clean.
    pub(crate) fn variable(&self, number: u32) -> bool
        ensures { result ≡ slice_index_or self.now.variables.items number true }
    {
        match self.variables.get(number as usize) {
            Some(clean) => *clean,
            None => true,
        }
    }
}

/// Whether the expression is clean.
pub(crate) fn is_clean(a: &Expr, row: &Row) -> bool
    ensures { result ≡ is_clean (chosen_by row.now) a.now }
{
    match a {
        Expr::Const(_) | Expr::Root(_) | Expr::Unary(_, _) | Expr::Binary(_, _, _) => true,
        Expr::Var(number) => row.variable(*number),
        Expr::This => row.this,
        Expr::Field(object, _) => is_clean(object.get(), row),
        Expr::Elem(array, _) => is_clean(array.get(), row),
        Expr::Call(_, _, _) | Expr::NewObject(_) | Expr::NewArray(_, _) => false,
    }
}
