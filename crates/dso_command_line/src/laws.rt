//! Laws of what the words ask for (`specs/Words.antt`). Each is the contract of a function that does nothing.
ghost use Rattle.dso_command_line.specs.Words.{WordsAskOnce};

/// Whatever words there are, they ask for one thing at most.
pub fn words_ask_once()
    ensures { WordsAskOnce }
{}
