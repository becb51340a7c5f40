//! Which triggers of a client are due: `1 due 4 0 lost lose 1@5 2@3 break 1@3 1@6`, of client 1, of which 4 messages were
//! taken, whose connection never broke, and which was lost; with the triggers of the configuration, each of a client at
//! a number of its messages.

use case_words::{count, first_of, number, shown, small};
use dso_base::{NoMemory, Trigger};
use dso_server::Triggers;
use std::alloc::Global;

/// The text before the word and the one behind it, nothing where it isn't there.
fn parts<'a>(text: &'a str, word: &str) -> (&'a str, &'a str) {
    match text.split_once(word) {
        Some(both) => both,
        None => (text, ""),
    }
}

/// The trigger of the word.
fn trigger(word: &str) -> Option<Trigger> {
    let (client, after) = word.split_once("@")?;
    Some(Trigger {
        client: small(client)?,
        after: number(after)?,
    })
}

/// The triggers of the words.
fn trigger_list(alloc: Global, text: &str) -> Result<Vec<Trigger>, NoMemory> {
    let mut triggers = Vec::new(alloc);
    for word in text.split(' ') {
        if let Some(trigger) = trigger(word) {
            triggers.push(trigger)?;
        }
    }
    Ok(triggers)
}

/// Those of the client, among the losses and breaks that the texts name.
fn triggers(alloc: Global, client: u8, losses: &str, breaks: &str) -> Result<Triggers, NoMemory> {
    let losses = trigger_list(alloc, losses)?;
    let breaks = trigger_list(alloc, breaks)?;
    Triggers::new(alloc, client, &losses, &breaks)
}

/// What is due, by how many messages were taken, how often the connection broke and whether the client was lost.
fn due(triggers: &Triggers, text: &str) -> Option<&'static str> {
    let (taken, rest) = first_of(text);
    let (broke, rest) = first_of(rest);
    let taken = number(taken)?;
    let broke = count(broke)?;
    let is_lost = rest == "lost";
    let is_loss_due = triggers.is_loss_due(taken, is_lost);
    let is_break_due = triggers.is_break_due(taken, is_lost, is_loss_due, broke);
    match (is_loss_due, is_break_due) {
        (false, false) => Some("nothing"),
        (false, true) => Some("a break"),
        (true, false) => Some("the loss"),
        (true, true) => Some("both"),
    }
}

/// The answer to the words behind `due`.
pub fn due_of(alloc: Global, client: u8, text: &str) -> Result<String, NoMemory> {
    let (rest, breaks) = parts(text, " break ");
    let (counts, losses) = parts(rest, " lose ");
    let triggers = triggers(alloc, client, losses, breaks)?;
    match due(&triggers, counts) {
        Some(answer) => shown(alloc, answer),
        None => shown(alloc, "no such counts"),
    }
}
