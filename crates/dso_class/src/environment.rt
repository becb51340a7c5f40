//! What an expression is resolved in.

use crate::place::Place;
use crate::scope::Scope;
use std::alloc::Global;

/// Where memory comes from, what names are resolved by, and the variables that are known.
#[derive(Clone, Copy)]
pub(crate) struct Environment<'x, 'b, 'a> {
    pub(crate) alloc: Global,
    pub(crate) place: &'x Place<'b, 'a>,
    pub(crate) scope: &'x Scope<'a>,
}
