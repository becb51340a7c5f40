//! What the lines so far set, and what each line answers.

ghost use Rattle.dso_config.specs.InRange.{IsInRange};

use crate::exchange::{Answers, Beside, exchanges};
use crate::{edge, names, program, symbols};
use case_words::unescaped;
use dso_base::NoMemory;
use dso_config::{Config, read_config};
use std::alloc::Global;

/// The text of the configuration, the classes in front of a thread's statements, and the text of the case at hand.
#[derive(Drop)]
pub(crate) struct Setting {
    configuration: String,
    classes: String,
    text: String,
}

impl Setting {
    /// Nothing was set yet.
    pub(crate) fn new(alloc: Global) -> Setting {
        Setting {
            configuration: String::new(alloc),
            classes: String::new(alloc),
            text: String::new(alloc),
        }
    }

    /// Takes a line, and answers what is to be printed for it.
    pub(crate) fn take(&mut self, alloc: Global, line: &str) -> Result<String, NoMemory> {
        let (word, rest) = line.split_once(": ").unwrap_or((line, ""));
        match word {
            "" => {}
            "configuration" => self.configuration = String::from_str(alloc, rest)?,
            "classes" => self.classes = String::from_str(alloc, rest)?,
            "text" => self.text = String::from_str(alloc, rest)?,
            "thread" => self.text = thread_of(alloc, self.classes.as_str(), rest)?,
            "case" => return Ok(format!(in alloc; "\n{rest}\n")?),
            _ => return self.asked(alloc, word, rest),
        }
        Ok(String::new(alloc))
    }

    /// What a question answers.
    fn asked(&self, alloc: Global, word: &str, rest: &str) -> Result<String, NoMemory> {
        let text = unescaped(alloc, self.configuration.as_str())?;
        match read_config(alloc, text.as_slice()) {
            Ok(config) => self.answer(alloc, &config, word, rest),
            Err(fault) => Ok(format!(in alloc; "no configuration: {fault}\n")?),
        }
    }

    /// What a question answers under the configuration.
    fn answer(
        &self,
        alloc: Global,
        config: &Config,
        word: &str,
        rest: &str,
    ) -> Result<String, NoMemory>
        requires { IsInRange config.now }
    {
        let text = self.text.as_str();
        match word {
            "names" => names::answer(alloc, config, rest),
            "program" => program::described(alloc, config, rest),
            "symbols" => symbols::symbols(alloc, config, rest),
            "edge" => edge::answers(alloc, config, rest),
            "replies" => exchanges(alloc, config, text, given(rest, Beside::Reply)),
            "holds" => exchanges(alloc, config, text, given(rest, Beside::Held)),
            "words" => program::configuration_words(alloc, config),
            "laws" => names::laws(alloc),
            _ => Ok(format!(in alloc; "no question: {word}\n")?),
        }
    }
}

/// What a row says a thread is answered.
fn given(replies: &str, beside: Beside) -> Answers {
    Answers { replies, beside }
}

/// The text of a thread of these statements behind the classes.
fn thread_of(alloc: Global, classes: &str, statements: &str) -> Result<String, NoMemory> {
    Ok(format!(in alloc; "{classes} thread 1 {{ {statements} }}")?)
}
