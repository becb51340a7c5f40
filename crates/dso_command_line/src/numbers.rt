//! The numbers that words say (`specs/Words.antt`).
ghost use Rattle.std.specs.Prelude.{◌≡◌, ◌^◌, ◌≤◌, length, IfSome, MatchOption, true};
ghost use Rattle.std.specs.Str.{all_ascii_digits};
ghost use Rattle.std.specs.Str.Parse.{digits_value};
ghost use Rattle.dso_command_line.specs.Given.{told};
ghost use Rattle.dso_command_line.specs.Words.{collect_said, number_within, seed_said, steps_said};

/// The most that the journal of a run may weigh: a run takes no more steps than that.
pub const BUDGET: u64 = 4_000_000;

/// The steps where no option says them.
const DEFAULT_STEPS: u64 = 1_000_000;

/// The most entries between two collections of garbage.
const MOST_COLLECT: u64 = 1_000_000;

/// The most that `big` takes.
pub(crate) const MOST_LOAD: u64 = 1000;

/// The number that a word says, within bounds: it is 1 to 20 digits.
pub(crate) fn number_within(word: &str, least: u64, most: u64) -> Option<u64>
    ensures number { result ≡ number_within least most word.now }
    ensures within { IfSome result (λ number. number ≤ most) }
{
    if word.len() < 1 || 20 < word.len() || !are_digits(word) {
        return None;
    }
    let number = number_of(word)?;
    if least <= number && number <= most {
        Some(number)
    } else {
        None
    }
}

/// Whether all bytes of a word are digits.
fn are_digits(word: &str) -> bool
    ensures { result ≡ all_ascii_digits word.now }
{
    for b in word.as_bytes() {
        if !b.is_ascii_digit() {
            return false;
        }
    }
    true
}

/// The number of one digit or more, None where it has more than 64 bits.
fn number_of(word: &str) -> Option<u64>
    requires digits { all_ascii_digits word.now ≡ true }
    requires some { 1 ≤ length word.now }
    ensures { MatchOption result (2 ^ 64 ≤ digits_value 10 word.now) (λ number. number ≡ digits_value 10 word.now) }
{
    word.parse().ok()
}

/// The seed that an option says.
pub(crate) fn seed_said(word: Option<&str>) -> Option<Option<u64>>
    ensures { result ≡ seed_said (told word.entry) }
{
    match word {
        Some(word) => Some(Some(number_within(word, 0, u64::MAX)?)),
        None => Some(None),
    }
}

/// The steps that an option says.
pub(crate) fn steps_said(word: Option<&str>) -> Option<u64>
    ensures { result ≡ steps_said (told word.entry) }
{
    match word {
        Some(word) => number_within(word, 1, BUDGET),
        None => Some(DEFAULT_STEPS),
    }
}

/// After how many entries each garbage is collected, as an option says it.
pub(crate) fn collect_said(word: Option<&str>) -> Option<Option<u64>>
    ensures { result ≡ collect_said (told word.entry) }
{
    match word {
        Some(word) => Some(Some(number_within(word, 1, MOST_COLLECT)?)),
        None => Some(None),
    }
}
