//! A program that can run, and the words behind its numbers.
use dso_base::{Items, ThreadId, Trigger, Word};
use dso_config::RootEntry;
use dso_machine::Code;

/// The words behind a program's numbers: its classes, the fields of each, its roots, its text literals. Where the text
/// makes a map the last class is that of maps, `DsoMap`, whose fields have no words.
#[derive(Debug, Drop)]
pub struct Names {
    pub classes: Items<Word>,
    pub fields: Items<Items<Word>>,
    pub roots: Items<RootEntry>,
    pub texts: Items<Word>,
}

/// A program that can run: its code, the words behind its numbers, and what the configuration says of the run.
#[derive(Debug, Drop)]
pub struct Program {
    pub code: Code,
    pub names: Names,
    pub clients: u8,
    pub resident: u32,
    pub threads: Items<ThreadId>,
    pub losses: Items<Trigger>,
    pub breaks: Items<Trigger>,
}
