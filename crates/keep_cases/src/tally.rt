//! Answers that come often.

use dso_base::NoMemory;
use std::alloc::Global;

/// An answer with a number.
#[derive(Drop)]
struct Line {
    answer: String,
    number: u64,
}

/// Different answers in the order in which they came.
#[derive(Drop)]
pub struct Tally {
    lines: Vec<Line>,
}

impl Tally {
    /// None yet.
    pub fn new(alloc: Global) -> Tally {
        Tally {
            lines: Vec::new(alloc),
        }
    }

    /// Counts an answer.
    pub fn count(&mut self, answer: String) -> Result<(), NoMemory> {
        for line in &mut self.lines {
            if line.answer == answer {
                line.number = line.number.saturating_add(1);
                return Ok(());
            }
        }
        self.lines.push(Line { answer, number: 1 })?;
        Ok(())
    }

    /// Notes an answer with this number where it isn't the last one.
    pub fn note(&mut self, answer: String, number: u64) -> Result<(), NoMemory> {
        if let Some(line) = self.lines.last() {
            if line.answer == answer {
                return Ok(());
            }
        }
        self.lines.push(Line { answer, number })?;
        Ok(())
    }

    /// Each with its number before it.
    pub fn text(&self, alloc: Global) -> Result<String, NoMemory> {
        let mut text = String::new(alloc);
        for line in &self.lines {
            let comma = if text.is_empty() { "" } else { ", " };
            text = format!(in alloc; "{text}{comma}{}: {}", line.number, line.answer)?;
        }
        Ok(text)
    }
}
