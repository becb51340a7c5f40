//! What the names of statements are resolved by.

use crate::tables::DeclaredNames;
use dso_base::Word;
use dso_config::Config;

/// The configuration, what the text declares, and whose statements they are.
#[derive(Clone, Copy)]
pub(crate) struct Place<'b, 'a> {
    pub(crate) config: &'b Config,
    pub(crate) tables: &'b DeclaredNames<'a>,
    pub(crate) class: &'b Word,
    pub(crate) method: &'b Word,
    pub(crate) in_thread: bool,
}
