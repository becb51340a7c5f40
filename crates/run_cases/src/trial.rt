//! A call of the program over files and a sink in memory.
use dso_base::NoMemory;
use dso_host::Gate;
use dso_io::{Files, MemFiles, MemSink};
use dso_keep::MemDisk;
use dso_run::laws::words_ask_once;
use dso_run::{Done, NoGate, Status, dso_main};
use std::alloc::{AllocError, Global};
use std::io;
use std::rt::Runtime;
use std::sync::Wait;
use std::thread::Threads;

/// How many bytes the sink has room for.
pub const ROOM: usize = 4096;

/// How many spaces stand in a file's place at most.
const MOST_SPACES: usize = 1 << 21;

/// What a call is tried on. The configuration is the file `c`, the program the file `p`. A call of number 0 is none.
#[derive(Clone, Copy)]
pub struct Trial<'a> {
    /// The command line, with the program's name first and a space between two words.
    pub line: &'a str,
    pub config: &'a str,
    pub program: &'a str,
    /// What is replaced in the program, and by what.
    old: &'a str,
    new: &'a str,
    /// How many spaces stand in the program's place, where that isn't 0.
    spaces: usize,
    /// How many stand in the configuration's place.
    config_spaces: usize,
    failing_call: u64,
    failing_put: u64,
    /// How many bytes the sink takes at a time.
    piece: usize,
}

/// What the cases take of the system: memory, files, its output, and threads.
pub trait System: Runtime + AllocGlobal + Threads + Wait + Sync {}

impl<R: Runtime + AllocGlobal + Threads + Wait + Sync> System for R {}

/// What a call leaves, and what its sink took.
#[derive(Drop)]
pub struct Answer {
    pub done: Done,
    pub taken: Vec<u8>,
}

/// A call of the program: its words, and the gate that its workers pass.
#[derive(Drop)]
pub struct Call<'a, R, G> {
    pub rt: &'a R,
    pub words: &'a [String],
    pub gate: &'a G,
}

impl<'a, R: System, G: Gate> Call<'a, R, G> {
    /// Makes the call over these files and this sink. The disk allows no call.
    pub fn answer<F: Files>(&self, files: &mut F, mut out: MemSink) -> Result<Answer, NoMemory> {
        let alloc = self.rt.alloc();
        let mut disk = MemDisk::new(alloc, &[], None, 0, 0)?;
        let done = dso_main(
            self.rt, alloc, self.words, files, &mut out, self.gate, &mut disk,
        );
        let taken = Vec::from_slice(alloc, out.taken())?;
        Ok(Answer { done, taken })
    }
}

impl<'a> Trial<'a> {
    /// `sim` over an empty configuration and this program, with nothing that fails.
    pub fn of_program(program: &'a str) -> Trial<'a> {
        Trial {
            line: "dsorun sim c p",
            config: "",
            program,
            old: "",
            new: "",
            spaces: 0,
            config_spaces: 0,
            failing_call: 0,
            failing_put: 0,
            piece: ROOM,
        }
    }

    /// The trial with what a line sets.
    pub fn set(self, word: &str, rest: &'a str) -> Trial<'a> {
        match word {
            "program" => Trial::of_program(rest),
            "change" => self.changed(rest),
            "line" => Trial { line: rest, ..self },
            "config" => Trial {
                config: rest,
                ..self
            },
            "spaces" => Trial {
                spaces: number_of(rest) as usize,
                ..self
            },
            "config_spaces" => Trial {
                config_spaces: number_of(rest) as usize,
                ..self
            },
            "failing_call" => Trial {
                failing_call: number_of(rest),
                ..self
            },
            "failing_put" => Trial {
                failing_put: number_of(rest),
                ..self
            },
            "piece" => Trial {
                piece: number_of(rest) as usize,
                ..self
            },
            _ => self,
        }
    }

    /// The trial where one text of the program is replaced by another: `OLD -> NEW`.
    fn changed(self, rest: &'a str) -> Trial<'a> {
        match rest.split_once(" -> ") {
            Some((old, new)) => Trial { old, new, ..self },
            None => self,
        }
    }

    /// The program's text.
    fn text(&self, alloc: Global) -> Result<String, AllocError> {
        if self.spaces > 0 {
            return " ".repeat(alloc, self.spaces.min(MOST_SPACES));
        }
        if self.old.is_empty() {
            return unescaped(alloc, self.program);
        }
        let text = self.program.replace(alloc, self.old, self.new)?;
        unescaped(alloc, text.as_str())
    }

    /// The configuration's text.
    fn config_text(&self, alloc: Global) -> Result<String, AllocError> {
        if self.config_spaces > 0 {
            return " ".repeat(alloc, self.config_spaces.min(MOST_SPACES));
        }
        unescaped(alloc, self.config)
    }

    /// Adds the file of the configuration.
    fn add_config(&self, alloc: Global, files: &mut MemFiles) -> Result<(), NoMemory> {
        let text = self.config_text(alloc)?;
        files.add(alloc, "c", text.as_bytes())?;
        Ok(())
    }

    /// Adds the file of the program.
    fn add_program(&self, alloc: Global, files: &mut MemFiles) -> Result<(), NoMemory> {
        let text = self.text(alloc)?;
        files.add(alloc, "p", text.as_bytes())?;
        Ok(())
    }

    /// The files.
    fn files(&self, alloc: Global) -> Result<MemFiles, NoMemory> {
        let mut files = MemFiles::new(alloc, &[self.failing_call])?;
        self.add_config(alloc, &mut files)?;
        self.add_program(alloc, &mut files)?;
        Ok(files)
    }

    /// Calls the program, whose workers pass this gate, and leaves the files.
    fn answer_and_files<R: System, G: Gate>(
        &self,
        rt: &R,
        gate: &G,
    ) -> Result<(Answer, MemFiles), NoMemory> {
        let words = words_of(rt.alloc(), self.line)?;
        let mut files = self.files(rt.alloc())?;
        let out = MemSink::new(rt.alloc(), self.piece.max(1), ROOM, &[self.failing_put])?;
        let call = Call {
            rt,
            words: words.as_slice(),
            gate,
        };
        let answer = call.answer(&mut files, out)?;
        Ok((answer, files))
    }

    /// Calls the program, whose workers pass this gate.
    pub fn answer_by<R: System, G: Gate>(&self, rt: &R, gate: &G) -> Result<Answer, NoMemory> {
        let (answer, _) = self.answer_and_files(rt, gate)?;
        Ok(answer)
    }

    /// Calls the program.
    pub fn answer<R: System>(&self, rt: &R) -> Result<Answer, NoMemory> {
        self.answer_by(rt, &NoGate)
    }
}

/// The words of a command line behind the program's name.
pub fn words_of(alloc: Global, line: &str) -> Result<Vec<String>, AllocError> {
    let mut words = Vec::new(alloc);
    for word in line.split(' ').skip(1) {
        words.push(String::from_str(alloc, word)?)?;
    }
    Ok(words)
}

/// The number of a text, 0 where it is none.
pub fn number_of(text: &str) -> u64 {
    text.parse().unwrap_or(0)
}

/// The text with the bytes that `\n`, `\t`, `\r` and `\1` stand for.
fn unescaped(alloc: Global, text: &str) -> Result<String, AllocError> {
    let text = text.replace(alloc, "\\n", "\n")?;
    let text = text.replace(alloc, "\\t", "\t")?;
    let text = text.replace(alloc, "\\r", "\r")?;
    text.replace(alloc, "\\1", "\x01")
}

/// Tries the call, and prints its name, how it ended and what its sink took.
pub fn show_trial<R: System>(rt: &R, name: &str, trial: &Trial<'_>) -> io::Result<()> {
    match trial.answer(rt) {
        Ok(answer) => show_answer(rt, name, &answer),
        Err(_) => println!(rt; "{name}: no memory"),
    }
}

/// Tries these words over a configuration that is no TOML, and prints what becomes of them: the configuration's fault
/// where the words are taken and name the two files, or what is wrong with the words or the names; of a load how its
/// run ended.
pub fn show_words<R: System>(rt: &R, line: &str) -> io::Result<()> {
    words_ask_once();
    let trial = Trial {
        line,
        config: "=",
        ..Trial::of_program("")
    };
    match trial.answer(rt) {
        Ok(answer) => println!(rt; "{line}: {:?}", answer.done.status),
        Err(_) => println!(rt; "{line}: no memory"),
    }
}

/// Tries the call as `show_trial`, and prints the journal that it leaves, an entry a line.
pub fn show_journal<R: System>(rt: &R, name: &str, trial: &Trial<'_>) -> io::Result<()> {
    match trial.answer(rt) {
        Ok(answer) => {
            show_answer(rt, name, &answer)?;
            show_entries(rt, &answer.done)
        }
        Err(_) => println!(rt; "{name}: no memory"),
    }
}

/// Tries the call as `show_trial`, and prints what a file holds then: `FILE NAME`.
pub fn show_file<R: System>(rt: &R, rest: &str, trial: &Trial<'_>) -> io::Result<()> {
    let (file, name) = rest.split_once(' ').unwrap_or((rest, ""));
    match trial.answer_and_files(rt, &NoGate) {
        Ok((answer, files)) => {
            show_answer(rt, name, &answer)?;
            show_content(rt, file, &files)
        }
        Err(_) => println!(rt; "{name}: no memory"),
    }
}

/// Prints what a file holds.
fn show_content<R: System>(rt: &R, file: &str, files: &MemFiles) -> io::Result<()> {
    match files.content(file) {
        Some(bytes) => {
            println!(rt; "{file} holds")?;
            rt.write_all(bytes)?;
            println!(rt; "")
        }
        None => println!(rt; "there is no file {file}\n"),
    }
}

/// Tries the call as `show_trial`, and prints in a sentence why nothing was run.
pub fn show_reason<R: System>(rt: &R, name: &str, trial: &Trial<'_>) -> io::Result<()> {
    match trial.answer(rt) {
        Ok(answer) => match answer.done.status {
            Status::BadConfig(fault) => println!(rt; "{name}: {fault}"),
            Status::BadProgram(fault) => println!(rt; "{name}: {fault}"),
            status => println!(rt; "{name}: {status:?}"),
        },
        Err(_) => println!(rt; "{name}: no memory"),
    }
}

/// Prints how a call ended, and what its sink took.
pub fn show_answer<R: System>(rt: &R, name: &str, answer: &Answer) -> io::Result<()> {
    let status = answer.done.status;
    println!(rt; "{name}: {status:?}, exit {}", status.exit_number())?;
    rt.write_all(answer.taken.as_slice())?;
    println!(rt; "")
}

/// Prints the entries of a journal.
fn show_entries<R: System>(rt: &R, done: &Done) -> io::Result<()> {
    for entry in done.journal.entries.as_slice() {
        println!(rt; "{entry:?}")?;
    }
    Ok(())
}
