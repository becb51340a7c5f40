//! What the lock checker answers (`specs/Verdict.antt`).

/// A body of code: a method's or a thread's, by its number in the order of the text; both count from 1.
#[derive(Clone, Copy, Debug, PartialEq, Eq)]
pub enum Place {
    Method(u32),
    Thread(u32),
}

/// Which rule a place fails: what is accessed isn't guarded, or what is locked at Read may be wanted at Write.
#[derive(Clone, Copy, Debug, PartialEq, Eq)]
pub enum Why {
    Access,
    Upgrade,
}

/// What the lock checker answers of a program: both rules hold everywhere, or the first place that fails, and why.
#[derive(Clone, Copy, Debug, PartialEq, Eq)]
pub enum Lint {
    Yes,
    No(Place, Why),
}
