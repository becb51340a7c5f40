//! Patterns of methods.
use dso_base::Word;

/// Which methods an entry is for: all, those of a class, or the one of this class and name.
#[derive(Debug, Drop)]
pub enum Pattern {
    All,
    Class(Word),
    Method(Word, Word),
}
