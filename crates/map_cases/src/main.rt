//! Rows of calls of a map, with what each asks and gives.
//!
//! A row of the input is a sentence, `: `, and a command; it is printed as the sentence, `: `, and the answer. Any other
//! line is printed as it stands, and the map is empty from there on.
//!
//! | Command | What it does |
//! |---|---|
//! | `put 3 r7` | the whole call on the map's fields: each Get as `9?`, each Put as `9=Bool(true)`, and what it gives |
//! | `last 4 put 3 r7` | the same with the number of its requests and the last four of them alone |
//! | `keys 256 0` | so many keys from 0 on are put; how many calls gave true |
//! | `begin put 3 r7` | a call that is answered by hand: what it asks, and its result |
//! | `answer val true` | the reply to what it asks, if it accepts that; then what it asks and its result |
//! | `call` | whose call is under way, and which |
//! | `thread put 3 r7` | what a thread asks that prints what this call on a new map gives, whose fields are the map's |
//! | `holds put 3 r7` | the same, with the objects that the thread holds at each request |
//! | `ends 4 put 3 r7` | the number of those requests, and the last four alone |
//! | `null put 3 r7` | what the thread asks where it calls null |
//!
//! A reference stands there for a new object, which is 7, and a text for the only one of the thread's code.
#![tactic(auto)]

mod calls;
mod fields;
mod map;
mod program;
mod threads;

use case_words::row_answer;
use map::Map;
use std::io;

fn main(rt: HostRuntime) -> io::Result<()> {
    let mut map = Map::new(rt.alloc())?;
    for line in rt.lines(rt.alloc()) {
        let line = line?;
        let Some((name, command)) = line.split_once(": ") else {
            map = Map::new(rt.alloc())?;
            println!(rt; "{line}")?;
            continue;
        };
        let answer = map.told(rt.alloc(), command);
        let row = row_answer(rt.alloc(), name, answer)?;
        println!(rt; "{row}")?;
    }
    Ok(())
}
