//! The generated load in rows. Each line of the input is a row: `SENTENCE: load N` asks for the two texts of a number,
//! `SENTENCE: line N TOTAL` for the line of its run. The output has each sentence, and on the lines below it what is
//! due.
#![tactic(auto)]

mod row;

use std::io;

fn main(rt: HostRuntime) -> io::Result<()> {
    for line in rt.lines(rt.alloc()) {
        let answer = row::answered(rt.alloc(), line?.as_str())?;
        print!(rt; "{answer}")?;
    }
    Ok(())
}
