//! Rows of the lock checker: what it answers of a program.
//!
//! Each line is a name, `: `, the text of a configuration, ` @@ ` and the text of a program. In the texts `~` stands
//! before the two hexadecimal digits of a byte.
use case_programs::Case;
use dso_base::NoMemory;
use dso_lint::{Lint, Place, Why, lint};
use std::alloc::Global;
use std::io;

/// The word for a rule.
fn word(why: Why) -> &'static str {
    match why {
        Why::Access => "access",
        Why::Upgrade => "upgrade",
    }
}

/// An answer in words.
fn told(alloc: Global, answer: Lint) -> Result<String, NoMemory> {
    match answer {
        Lint::Yes => Ok(format!(in alloc; "lint yes")?),
        Lint::No(Place::Method(number), why) => {
            Ok(format!(in alloc; "lint no method {number} {}", word(why))?)
        }
        Lint::No(Place::Thread(number), why) => {
            Ok(format!(in alloc; "lint no thread {number} {}", word(why))?)
        }
    }
}

/// What is answered of the texts of a row.
fn answer(alloc: Global, texts: &str) -> Result<String, NoMemory> {
    let (config, program) = texts.split_once(" @@ ").unwrap_or(("", texts));
    let case = Case { config, program };
    match case.program(alloc)? {
        None => Ok(format!(in alloc; "refused")?),
        Some(program) => told(alloc, lint(alloc, &program)?),
    }
}

/// Prints what is answered of each row.
pub fn show(rt: &HostRuntime, text: &str) -> io::Result<()> {
    for line in text.lines() {
        let (name, texts) = line.split_once(": ").unwrap_or(("", ""));
        match answer(rt.alloc(), texts) {
            Ok(answer) => println!(rt; "{name}: {answer}")?,
            Err(_) => return Err(io::Error::from(io::ErrorKind::OutOfMemory)),
        }
    }
    Ok(())
}
