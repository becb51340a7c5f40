//! How much there may be of something: what so many parts of a text answer, and one more.

ghost use Rattle.dso_config.specs.InRange.{IsInRange};

use crate::names::answer;
use case_words::{count, first_of};
use dso_base::NoMemory;
use dso_config::Config;
use std::alloc::Global;

/// What so many parts answer: `*` stands for their number in the text.
fn answer_of_parts(
    alloc: Global,
    config: &Config,
    text: &str,
    number: u64,
) -> Result<String, NoMemory>
    requires { IsInRange config.now }
{
    let number = format!(in alloc; "{number}")?;
    let text = text.replace(alloc, "*", number.as_str())?;
    let answer = answer(alloc, config, text.as_str())?;
    Ok(format!(in alloc; "{number}: {answer}")?)
}

/// What as many parts as the row says answer, and one more.
pub(crate) fn answers(alloc: Global, config: &Config, row: &str) -> Result<String, NoMemory>
    requires { IsInRange config.now }
{
    let (most, text) = first_of(row);
    let most = u64::from(count(most).unwrap_or(0));
    let mut answers = answer_of_parts(alloc, config, text, most)?;
    let beyond = answer_of_parts(alloc, config, text, most + 1)?;
    answers.push_str(beyond.as_str())?;
    Ok(answers)
}
