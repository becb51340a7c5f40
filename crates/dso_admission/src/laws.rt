//! The laws of admission (`specs/Laws.antt`). Each is the contract of a function that does nothing.
ghost use Rattle.dso_admission.specs.Laws.{BytesAreTold, FramesAreRead, NoneIsRefused, OneIsCutOff};

/// The bytes of a frame in the grammar decode to it, so that they are never told as bad; bytes that are told so are wrong by
/// the grammar as their fault says; and no refused allocation is told so.
pub fn bytes_are_judged()
    ensures read { FramesAreRead }
    ensures told { BytesAreTold }
    ensures refused { NoneIsRefused }
{}

/// A client that is cut off is lost, and no other one that wasn't.
pub fn one_is_cut_off()
    ensures { OneIsCutOff }
{}
