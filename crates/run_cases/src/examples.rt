//! The programs of the gallery, each run over the files of its folder.
use crate::trial::{Answer, Call, ROOM, System, Trial, show_answer, words_of};
use dso_base::NoMemory;
use dso_io::{MemSink, StdFiles};
use dso_report::journal_text;
use dso_run::NoGate;
use std::{fs, io};

/// Runs the program of a folder, and prints how it ended; what its sink took, too, where that isn't the report that
/// lies in the folder.
pub fn show_example<R: System>(rt: &R, name: &str) -> io::Result<()> {
    match example_answer(rt, "sim", name, "") {
        Ok(answer) => show_compared(rt, name, name, &answer),
        Err(_) => println!(rt; "{name}: no memory"),
    }
}

/// Does so with the run in threads.
pub fn show_threaded<R: System>(rt: &R, name: &str) -> io::Result<()> {
    let label = format!(in rt.alloc(); "{name} in threads")?;
    match example_answer(rt, "run", name, "") {
        Ok(answer) => show_compared(rt, label.as_str(), name, &answer),
        Err(_) => println!(rt; "{label}: no memory"),
    }
}

/// Asks the lock checker about the program of a folder, and prints what it answers.
pub fn show_linted<R: System>(rt: &R, name: &str) -> io::Result<()> {
    let label = format!(in rt.alloc(); "the locks of {name}")?;
    match example_answer(rt, "lint", name, "") {
        Ok(answer) => show_answer(rt, label.as_str(), &answer),
        Err(_) => println!(rt; "{label}: no memory"),
    }
}

/// Runs it with a file for the journal, and prints whether that holds what lies in the folder, or all that it holds.
pub fn show_traced<R: System>(rt: &R, name: &str) -> io::Result<()> {
    match example_answer(rt, "sim", name, " --journal written") {
        Ok(answer) => {
            show_compared(rt, name, name, &answer)?;
            show_written(rt, name)
        }
        Err(_) => println!(rt; "{name}: no memory"),
    }
}

/// After how many entries each garbage is collected, in turn.
const INTERVALS: [u64; 3] = [1, 7, 50];

/// Two calls over a folder, without collections and with them, and whether they left the same journal.
#[derive(Drop)]
struct Collected {
    plain: Answer,
    answer: Answer,
    has_same_journal: bool,
}

impl Collected {
    /// What the sink took of the call with collections behind what it took of the one without. None where the status or
    /// the journal differs, or what comes before.
    fn line(&self) -> Option<&[u8]> {
        let line = self
            .answer
            .taken
            .as_slice()
            .strip_prefix(self.plain.taken.as_slice())?;
        let is_silent = self.has_same_journal && self.answer.done.status == self.plain.done.status;
        is_silent.then_some(line)
    }
}

/// Runs the program of a folder with collections, and prints whether what its sink took is what it takes without them and
/// the line of the collections, and whether the journal is the same.
pub fn show_collected<R: System>(rt: &R, name: &str) -> io::Result<()> {
    for interval in INTERVALS {
        let label = format!(in rt.alloc(); "{name}, collected after {interval}")?;
        let options = format!(in rt.alloc(); " --collect {interval}")?;
        match calls_collected(rt, name, options.as_str()) {
            Ok(calls) => show_line(rt, label.as_str(), &calls)?,
            Err(_) => println!(rt; "{label}: no memory")?,
        }
    }
    Ok(())
}

/// Calls the program over a folder without these options, and with them.
fn calls_collected<R: System>(rt: &R, name: &str, options: &str) -> Result<Collected, NoMemory> {
    let plain = example_answer(rt, "sim", name, "")?;
    let answer = example_answer(rt, "sim", name, options)?;
    let one = journal_text(rt.alloc(), &plain.done.journal)?;
    let other = journal_text(rt.alloc(), &answer.done.journal)?;
    Ok(Collected {
        plain,
        answer,
        has_same_journal: one.as_slice() == other.as_slice(),
    })
}

/// Prints how a call with collections ended, with the line that tells of them; and all that it came to where anything else
/// differs from the call without.
fn show_line<R: System>(rt: &R, label: &str, calls: &Collected) -> io::Result<()> {
    let status = calls.answer.done.status;
    match calls.line() {
        Some(line) => {
            let line = String::from_utf8_lossy(rt.alloc(), line)?;
            print!(rt;
                "{label}: {status:?}, exit {}, with its report and its journal, {line}",
                status.exit_number()
            )
        }
        None => show_answer(rt, label, &calls.answer),
    }
}

/// Calls the program with this command over the folder's configuration and its program, with these options.
fn example_answer<R: System>(
    rt: &R,
    command: &str,
    name: &str,
    options: &str,
) -> Result<Answer, NoMemory> {
    let line = format!(in rt.alloc();
        "dsorun {command} {name}/config.toml {name}/program.dso{options}"
    )?;
    let trial = Trial::of_program("").set("line", line.as_str());
    let words = words_of(rt.alloc(), trial.line)?;
    called(rt, words.as_slice())
}

/// Calls the program with these words over the files of the system.
fn called<R: System>(rt: &R, words: &[String]) -> Result<Answer, NoMemory> {
    let mut files = StdFiles::new(rt.alloc(), rt);
    let out = MemSink::new(rt.alloc(), ROOM, ROOM, &[])?;
    let call = Call {
        rt,
        words,
        gate: &NoGate,
    };
    call.answer(&mut files, out)
}

/// Prints the call's status behind a label where its sink took the report that lies in the folder, and else all that it
/// came to.
fn show_compared<R: System>(rt: &R, label: &str, folder: &str, answer: &Answer) -> io::Result<()> {
    if is_stored(rt, folder, answer.taken.as_slice())? {
        let status = answer.done.status;
        println!(rt;
            "{label}: {status:?}, exit {}, with its report",
            status.exit_number()
        )
    } else {
        show_answer(rt, label, answer)
    }
}

/// Whether these bytes are the report that lies in the folder.
fn is_stored<R: System>(rt: &R, name: &str, bytes: &[u8]) -> io::Result<bool> {
    let file = format!(in rt.alloc(); "{name}/report.txt")?;
    let report = fs::read(rt, file.as_str())?;
    Ok(report.as_slice() == bytes)
}

/// Prints whether the journal that was written is the one that lies in the folder, or all of it where it isn't.
fn show_written<R: System>(rt: &R, name: &str) -> io::Result<()> {
    let file = format!(in rt.alloc(); "{name}/journal.txt")?;
    let journal = fs::read(rt, file.as_str())?;
    let written = fs::read(rt, "written")?;
    if written.as_slice() == journal.as_slice() {
        println!(rt; "{name}: with its journal")
    } else {
        rt.write_all(written.as_slice())
    }
}
