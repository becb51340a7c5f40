//! How much a program text may have.

/// The most classes of a text.
pub(crate) const MOST_CLASSES: usize = 64;

/// The most fields of a class.
pub(crate) const MOST_FIELDS: usize = 64;

/// The most static fields of all classes together.
pub(crate) const MOST_STATICS: usize = 16;

/// The most methods of a class.
pub(crate) const MOST_METHODS: usize = 64;

/// The most parameters of a method.
pub(crate) const MOST_PARAMETERS: usize = 8;

/// The most variables of a body, its parameters among them.
pub(crate) const MOST_VARIABLES: usize = 64;

/// The most different text literals.
pub(crate) const MOST_TEXTS: usize = 4096;

/// The most threads of one client.
pub(crate) const MOST_THREADS: usize = 16;
