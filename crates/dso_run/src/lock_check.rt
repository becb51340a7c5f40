//! The lock checker's answer on a program, and its line (`specs/Status.antt`).
ghost use Rattle.std.specs.Prelude.{◌≡◌, ◌≤◌, ◌++◌, ℕ, List, length, codes};
ghost use Rattle.std.specs.Fmt.{decimal};
ghost use Rattle.dso_class.specs.Sound.{IsSoundProgram};
ghost use Rattle.dso_io.specs.Environment.{Told};
ghost use Rattle.dso_run.specs.Headline.{left_by};
ghost use Rattle.dso_run.specs.Status.{ended, lint_line, place_text, status_of_lint, why_text};
ghost use Rattle.dso_run.specs.Stores.{CallDisk, IsUntouched};
ghost use Rattle.dso_run.specs.Writing.{MeansFor, Wrote};
ghost use Rattle.dso_command_line.specs.Said.{said};
ghost use Rattle.dso_command_line.specs.Words.{LintCall};
ghost use Rattle.dso_command_line.specs.Words as asked;

use crate::answers::{nothing_ran, out_of_memory, write_or_fail};
use crate::asked::Asked;
use crate::refusal_lines::Line;
use crate::{Done, Status};
use dso_io::Sink;
use dso_lint::{Lint, Place, Why, lint};
use itoa::Buffer;

impl<'a> Asked<'a> {
    /// Writes what the lock checker answers of the program. It does nothing to any file.
    pub(crate) fn check_locks<K: Sink>(&self, out: &mut K) -> Done
        requires sound { IsSoundProgram self.now.program.now }
        requires asked { (call : LintCall) × (said self.now.command ≡ asked.Lint call) }
        ensures answer { (files : (List ℕ → Told) × ℕ) (disk : CallDisk) → IsUntouched disk
            → MeansFor (said self.now.command) self.now.program.now files.0
            (left_by (λ f. f.0) (λ f. f.1) K.taken K.faults files files out.old out.new disk result.journal.entries) result.status }
    {
        match lint(self.alloc, self.program) {
            Ok(answer) => nothing_ran(self.alloc, tell(answer, out)),
            Err(refused) => out_of_memory(self.alloc, refused),
        }
    }
}

/// Writes the line of an answer. It takes no memory.
fn tell<K: Sink>(answer: Lint, out: &mut K) -> Status
    ensures { Wrote (K.taken out.old) (K.taken out.new) (K.faults out.old) (K.faults out.new) (lint_line answer) (status_of_lint answer) result }
{
    let line = line_of(answer);
    write_or_fail(line.as_str().as_bytes(), status_of(answer), out)
}

/// The status of an answer.
fn status_of(answer: Lint) -> Status
    ensures { result ≡ status_of_lint answer }
{
    match answer {
        Lint::Yes => Status::LintYes,
        Lint::No(place, why) => Status::LintNo(place, why),
    }
}

/// The line of an answer. It takes no memory.
fn line_of(answer: Lint) -> Line
    ensures { result.bytes ≡ lint_line answer }
{
    match answer {
        Lint::Yes => {
            let mut line = Line::new();
            line.push_str("lint yes\n");
            line
        }
        Lint::No(Place::Method(number), why) => no_line("method ", number, why),
        Lint::No(Place::Thread(number), why) => no_line("thread ", number, why),
    }
}

/// The line of the place that fails a rule.
fn no_line(kind: &str, number: u32, why: Why) -> Line
    requires { length kind.now ≤ 7 }
    ensures { result.bytes ≡ ended (codes "lint no " ++ ((kind.now ++ decimal number) ++ (codes " " ++ why_text why))) }
{
    let mut digits = Buffer::new();
    let mut line = Line::new();
    line.push_str("lint no ");
    line.push_str(kind);
    line.push_str(digits.format(number));
    line.push_str(" ");
    line.push_str(match why {
        Why::Access => "access",
        Why::Upgrade => "upgrade",
    });
    line.push_str("\n");
    line
}
