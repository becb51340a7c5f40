//! The words behind a command, read one after the other (`specs/WordReading.antt`).
ghost use Rattle.std.specs.Prelude.{◌≡◌, map, MatchOption, Some, None};
ghost use Rattle.std.specs.String.{string_bytes};
ghost use Rattle.dso_command_line.specs.WordReading.{at_end, parted, read, with_argument, with_option, with_word};
ghost use Rattle.dso_command_line.specs.Words.{is_hyphened};

use crate::arguments::Arguments;
use crate::option_name::OptionName;

/// Where reading stands: an argument may begin, or the value of an option is due, or only names may come.
#[derive(Drop)]
pub(crate) enum Reading<'a> {
    Open(Arguments<'a>),
    Awaiting(OptionName, Arguments<'a>),
    Ended(Arguments<'a>),
}

impl<'a> Reading<'a> {
    /// What reading comes to with one more word.
    fn with_word(self, word: &'a str) -> Option<Reading<'a>>
        ensures { result ≡ with_word self.entry word.now }
    {
        match self {
            Reading::Open(given) => with_argument(given, word),
            Reading::Awaiting(_, _) if is_hyphened(word) => None,
            Reading::Awaiting(option, given) => {
                Some(Reading::Open(given.with_value(option, word)?))
            }
            Reading::Ended(given) => Some(Reading::Ended(given.with_name(word)?)),
        }
    }

    /// What is given at the end: no value is due then.
    fn at_end(self) -> Option<Arguments<'a>>
        ensures { result ≡ at_end self.entry }
    {
        match self {
            Reading::Open(given) | Reading::Ended(given) => Some(given),
            Reading::Awaiting(_, _) => None,
        }
    }
}

/// What reading comes to with a word where an argument may begin.
fn with_argument<'a>(given: Arguments<'a>, word: &'a str) -> Option<Reading<'a>>
    ensures { result ≡ with_argument given.entry word.now }
{
    if word == "--" {
        return Some(Reading::Ended(given));
    }
    if is_hyphened(word) {
        return with_option(given, word);
    }
    Some(Reading::Open(given.with_name(word)?))
}

/// What reading comes to with the word of an option: its value is in it, or is the next word.
fn with_option<'a>(given: Arguments<'a>, word: &'a str) -> Option<Reading<'a>>
    ensures { result ≡ with_option given.entry word.now (parted word.now) }
{
    match parted(word) {
        Some((name, value)) => {
            let option = OptionName::named(name)?;
            Some(Reading::Open(given.with_value(option, value)?))
        }
        None => Some(Reading::Awaiting(OptionName::named(word)?, given)),
    }
}

/// Whether a word has two or more bytes and begins with a hyphen.
fn is_hyphened(word: &str) -> bool
    ensures { result ≡ is_hyphened word.now }
{
    match word.as_bytes() {
        [first, _, ..] => *first == b'-',
        _ => false,
    }
}

/// A word before and behind its first `=`, None where it has none.
fn parted(word: &str) -> Option<(&str, &str)>
    ensures { MatchOption result (parted word.now ≡ None) (λ parts. parted word.now ≡ Some (parts.0.now, parts.1.now)) }
{
    word.split_once('=')
}

/// What the words behind a command give, None where they are no arguments or have more than three names.
pub(crate) fn read(words: &[String]) -> Option<Arguments<'_>>
    ensures { result ≡ read (map string_bytes words.now) }
{
    let mut reading = Reading::Open(Arguments::nothing());
    for word in words {
        reading = reading.with_word(word.as_str())?;
    }
    reading.at_end()
}
