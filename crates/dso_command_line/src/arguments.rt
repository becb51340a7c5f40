//! What the words behind a command give (`specs/WordReading.antt`).
ghost use Rattle.std.specs.Prelude.{◌≡◌};
ghost use Rattle.dso_command_line.specs.Given.{told};
ghost use Rattle.dso_command_line.specs.WordReading.{nothing, set_value, with_name, with_value};
ghost use Rattle.dso_command_line.specs.Words.{value_of};

use crate::option_name::OptionName;
use std::marker::Model;

/// What the words behind a command have given so far: names, and the values of options.
#[derive(Drop)]
pub(crate) struct Arguments<'a> {
    pub(crate) first: Option<&'a str>,
    pub(crate) second: Option<&'a str>,
    pub(crate) third: Option<&'a str>,
    pub(crate) seed: Option<&'a str>,
    pub(crate) steps: Option<&'a str>,
    pub(crate) journal: Option<&'a str>,
    pub(crate) store: Option<&'a str>,
    pub(crate) collect: Option<&'a str>,
}

impl<'a> Model for Arguments<'a> {
    ghost use Rattle.dso_command_line.specs.Words as words;
    ghost use Rattle.dso_command_line.specs.Given.{names_of, told};

    ghost Value = { words.Given };

    ghost view = { λ g. record {
      names = names_of (told g.first) (told g.second) (told g.third);
      seed = told g.seed;
      steps = told g.steps;
      journal = told g.journal;
      store = told g.store;
      collect = told g.collect;
    } };
}

impl<'a> Arguments<'a> {
    /// Nothing is given yet.
    pub(crate) fn nothing() -> Arguments<'a>
        ensures { result ≡ nothing }
    {
        Arguments {
            first: None,
            second: None,
            third: None,
            seed: None,
            steps: None,
            journal: None,
            store: None,
            collect: None,
        }
    }

    /// With one more name: none that is empty, and no fourth one.
    pub(crate) fn with_name(self, name: &'a str) -> Option<Arguments<'a>>
        ensures { result ≡ with_name self.entry name.now }
    {
        match (self.first, self.second, self.third) {
            _ if name.is_empty() => None,
            (None, _, _) => Some(Arguments {
                first: Some(name),
                second: None,
                ..self
            }),
            (Some(_), None, _) => Some(Arguments {
                second: Some(name),
                third: None,
                ..self
            }),
            (Some(_), Some(_), None) => Some(Arguments {
                third: Some(name),
                ..self
            }),
            (Some(_), Some(_), Some(_)) => None,
        }
    }

    /// The value of an option, if it is there.
    fn value_of(&self, option: OptionName) -> Option<&'a str>
        ensures { told result ≡ value_of self.now option }
    {
        match option {
            OptionName::Seed => self.seed,
            OptionName::Steps => self.steps,
            OptionName::Journal => self.journal,
            OptionName::Store => self.store,
            OptionName::Collect => self.collect,
        }
    }

    /// With a value for an option.
    fn set_value(self, option: OptionName, value: &'a str) -> Arguments<'a>
        ensures { result ≡ set_value self.entry option value.now }
    {
        let value = Some(value);
        match option {
            OptionName::Seed => Arguments {
                seed: value,
                ..self
            },
            OptionName::Steps => Arguments {
                steps: value,
                ..self
            },
            OptionName::Journal => Arguments {
                journal: value,
                ..self
            },
            OptionName::Store => Arguments {
                store: value,
                ..self
            },
            OptionName::Collect => Arguments {
                collect: value,
                ..self
            },
        }
    }

    /// With a value for an option: none that is empty, and no second one.
    pub(crate) fn with_value(self, option: OptionName, value: &'a str) -> Option<Arguments<'a>>
        ensures { result ≡ with_value self.entry option value.now }
    {
        if value.is_empty() || self.value_of(option).is_some() {
            return None;
        }
        Some(self.set_value(option, value))
    }
}
