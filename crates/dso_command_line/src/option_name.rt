//! The options of the program (`specs/WordReading.antt`).
ghost use Rattle.std.specs.Prelude.{◌≡◌};
ghost use Rattle.dso_command_line.specs.WordReading.{option_named};

/// The options.
#[derive(Clone, Copy, Debug, PartialEq, Eq)]
pub(crate) enum OptionName {
    Seed,
    Steps,
    Journal,
    Store,
    Collect,
}

impl OptionName {
    /// The option that is written so.
    pub(crate) fn named(word: &str) -> Option<OptionName>
        ensures { result ≡ option_named word.now }
    {
        match word {
            "--seed" => Some(OptionName::Seed),
            "--steps" => Some(OptionName::Steps),
            "--journal" => Some(OptionName::Journal),
            "--store" => Some(OptionName::Store),
            "--collect" => Some(OptionName::Collect),
            _ => None,
        }
    }
}
