//! The rows of the input, `SENTENCE: ACTION NUMBERS`, each with what its action comes to.
use crate::slow::{Pace, SlowPrint};
use crate::system::{Outcome, System};
use case_words::{count, first_of};
use dso_io::{Failed, Sink, StdSink};
use std::io;

/// So fast that nothing is held up.
const FAST: Pace = Pace {
    piece: usize::MAX,
    left: usize::MAX,
};

/// A file that takes no byte.
const FULL: &str = "/dev/full";

/// The numbers of a row, 0 where there is none.
#[derive(Clone, Copy)]
struct Numbers {
    first: usize,
    second: usize,
    third: usize,
}

/// Prints the row's sentence with what its action comes to.
pub fn show(rt: &HostRuntime, system: &System, row: &str) -> io::Result<()> {
    let Some((sentence, asked)) = row.split_once(": ") else {
        return println!(rt; "no row: {row}");
    };
    let (action, rest) = first_of(asked);
    let numbers = Numbers::of(rest);
    match action {
        "read" | "pieces" | "torn" | "write" | "replace" | "write_pieces" | "write_torn" => {
            let outcome = of_file(rt, system, action, numbers)?;
            println!(rt; "{sentence}: {outcome}")
        }
        "put" => show_put(rt, sentence, Some(numbers.second), numbers.first),
        "put_failing" => show_put(rt, sentence, None, numbers.first),
        "print" => print_text(rt, sentence, rest),
        _ => {
            let outcome = of_name(rt, system, action)?;
            println!(rt; "{sentence}: {outcome}")
        }
    }
}

impl Numbers {
    /// The numbers of a text, with a space between two.
    fn of(text: &str) -> Numbers {
        let (first, rest) = first_of(text);
        let (second, third) = first_of(rest);
        Numbers {
            first: amount(first),
            second: amount(second),
            third: amount(third),
        }
    }
}

/// The number of a word, 0 where it is none.
fn amount(word: &str) -> usize {
    count(word).unwrap_or(0) as usize
}

/// What comes of an action on the one file that is made for it.
fn of_file(
    rt: &HostRuntime,
    system: &System,
    action: &str,
    numbers: Numbers,
) -> io::Result<Outcome> {
    let Numbers {
        first,
        second,
        third,
    } = numbers;
    let slow = Pace {
        piece: second.max(1),
        ..FAST
    };
    match action {
        "read" => system.read(rt, first, second, FAST),
        "pieces" => system.read(rt, first, usize::MAX, slow),
        "torn" => system.read(
            rt,
            first,
            second,
            Pace {
                left: third,
                ..FAST
            },
        ),
        "write" => system.write(rt, 0, first, FAST),
        "replace" => system.write(rt, first, second, FAST),
        "write_pieces" => system.write(rt, 0, first, slow),
        _ => system.write(
            rt,
            0,
            first,
            Pace {
                left: second,
                ..FAST
            },
        ),
    }
}

/// What comes of an action on a name, after which the folder is to have as many entries as before.
fn of_name(rt: &HostRuntime, system: &System, action: &str) -> io::Result<Outcome> {
    let before = system.entries(rt)?;
    let outcome = answer_of_name(rt, system, action);
    if system.entries(rt)? != before {
        return Ok(Outcome::Disturbed);
    }
    Ok(outcome)
}

/// What an action on a name answers.
fn answer_of_name(rt: &HostRuntime, system: &System, action: &str) -> Outcome {
    match action {
        "read_missing" => System::read_name(rt, system.missing()),
        "read_nowhere" => System::read_name(rt, system.nowhere()),
        "read_folder" => System::read_name(rt, system.folder()),
        "write_nowhere" => System::write_name(rt, system.nowhere()),
        "write_folder" => System::write_name(rt, system.folder()),
        _ => System::write_name(rt, FULL),
    }
}

/// Puts so many bytes to a sink of the system that takes so many at a time, and prints what it answers.
fn show_put(rt: &HostRuntime, sentence: &str, piece: Option<usize>, size: usize) -> io::Result<()> {
    let bytes = [7; 16];
    let (front, _) = bytes.split_at(size.min(16));
    let mut sink = StdSink::new(SlowPrint { piece });
    match sink.put(front) {
        Ok(count) => println!(rt; "{sentence}: {count} taken"),
        Err(fault) => println!(rt; "{sentence}: {fault}"),
    }
}

/// Prints a text by a sink of the system.
fn print_text(rt: &HostRuntime, sentence: &str, text: &str) -> io::Result<()> {
    println!(rt; "{sentence}")?;
    let mut sink = StdSink::new(rt);
    match sink.put(text.as_bytes()) {
        Ok(count) => println!(rt; " and {count} taken"),
        Err(Failed) => println!(rt; "nothing taken"),
    }
}
