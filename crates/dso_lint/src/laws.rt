//! The law of the lock checker's answers (`specs/Laws.antt`). It is the contract of a function that does nothing.
ghost use Rattle.dso_lint.specs.Laws.{AnswersOnce};

/// A code has one verdict: its clean variables are one choice, and by it one answer is right.
pub fn lint_answers_once()
    ensures { AnswersOnce }
{}
