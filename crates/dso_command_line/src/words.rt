//! The words behind the program's name (`specs/Words.antt`).
ghost use Rattle.std.specs.Prelude.{◌≡◌, ◌∷◌, ◌↔◌, ℕ, codes, map, IsTrue, MatchOption};
ghost use Rattle.std.specs.String.{string_bytes};
ghost use Rattle.dso_command_line.specs.Said.{said};
ghost use Rattle.dso_command_line.specs.Words.{AreLawful, AreUnlawful, HasNoOption, IsAsked, IsBig, IsLint, IsRun, IsShow, IsSim, LintCall, RunCall, ShowCall, SimCall};
ghost use Rattle.dso_command_line.specs.Words as spec;

use crate::arguments::Arguments;
use crate::command::Command;
use crate::numbers::{MOST_LOAD, collect_said, number_within, seed_said, steps_said};
use crate::word_reading::read;

/// What the words ask for, None exactly where they are none that the program takes.
pub fn command_of(words: &[String]) -> Option<Command<'_>>
    ensures { MatchOption result (AreUnlawful (map string_bytes words.now)) (λ command. AreLawful (map string_bytes words.now) (said command)) }
{
    match words {
        [first, rest @ ..] => command_behind(first.as_str(), rest),
        [] => None,
    }
}

/// What a first word and those behind it ask for.
fn command_behind<'a>(first: &str, rest: &'a [String]) -> Option<Command<'a>>
    ensures { MatchOption result (AreUnlawful (first.now ∷ map string_bytes rest.now)) (λ command. AreLawful (first.now ∷ map string_bytes rest.now) (said command)) }
{
    let given = read(rest)?;
    asked(first, &given)
}

impl<'a> Arguments<'a> {
    /// What `sim` asks for with this.
    fn sim(&self) -> Option<Command<'a>>
        ensures { MatchOption result ((call : SimCall) → IsSim (codes "sim") self.now call → ⊥) (λ command. IsAsked (codes "sim") self.now (said command)) }
    {
        let (Some(config), Some(program), None) = (self.first, self.second, self.third) else {
            return None;
        };
        Some(Command::Sim {
            config,
            program,
            seed: seed_said(self.seed)?,
            steps: steps_said(self.steps)?,
            journal: self.journal,
            store: self.store,
            collect: collect_said(self.collect)?,
        })
    }

    /// What `run` asks for with this.
    fn run(&self) -> Option<Command<'a>>
        ensures { MatchOption result ((call : RunCall) → IsRun (codes "run") self.now call → ⊥) (λ command. IsAsked (codes "run") self.now (said command)) }
    {
        if self.seed.is_some() || self.store.is_some() || self.collect.is_some() {
            return None;
        }
        let (Some(config), Some(program), None) = (self.first, self.second, self.third) else {
            return None;
        };
        Some(Command::Run {
            config,
            program,
            steps: steps_said(self.steps)?,
            journal: self.journal,
        })
    }

    /// What `big` asks for with this.
    fn big(&self) -> Option<Command<'a>>
        ensures { MatchOption result ((number : ℕ) → IsBig (codes "big") self.now number → ⊥) (λ command. IsAsked (codes "big") self.now (said command)) }
    {
        if !self.has_no_option() {
            return None;
        }
        let (Some(name), None) = (self.first, self.second) else {
            return None;
        };
        Some(Command::Big {
            number: number_within(name, 1, MOST_LOAD)? as u32,
        })
    }

    /// What `show` asks for with this.
    fn show(&self) -> Option<Command<'a>>
        ensures { MatchOption result ((call : ShowCall) → IsShow (codes "show") self.now call → ⊥) (λ command. IsAsked (codes "show") self.now (said command)) }
    {
        if !self.has_no_option() {
            return None;
        }
        let (Some(config), Some(program), Some(store)) = (self.first, self.second, self.third)
        else {
            return None;
        };
        Some(Command::Show {
            config,
            program,
            store,
        })
    }

    /// What `lint` asks for with this.
    fn lint(&self) -> Option<Command<'a>>
        ensures { MatchOption result ((call : LintCall) → IsLint (codes "lint") self.now call → ⊥) (λ command. IsAsked (codes "lint") self.now (said command)) }
    {
        if !self.has_no_option() {
            return None;
        }
        let (Some(config), Some(program), None) = (self.first, self.second, self.third) else {
            return None;
        };
        Some(Command::Lint { config, program })
    }

    /// Whether no option is given.
    fn has_no_option(&self) -> bool
        ensures { IsTrue result ↔ HasNoOption self.now }
    {
        self.seed.is_none()
            && self.steps.is_none()
            && self.journal.is_none()
            && self.store.is_none()
            && self.collect.is_none()
    }
}

/// What a command asks for with what is given.
fn asked<'a>(command: &str, given: &Arguments<'a>) -> Option<Command<'a>>
    ensures { MatchOption result ((other : spec.Command) → IsAsked command.now given.now other → ⊥) (λ found. IsAsked command.now given.now (said found)) }
{
    match command {
        "sim" => given.sim(),
        "run" => given.run(),
        "big" => given.big(),
        "show" => given.show(),
        "lint" => given.lint(),
        _ => None,
    }
}
