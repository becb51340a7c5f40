//! The files and the sink of the system, and those in memory, by what they do.
//!
//! Each line of the input is a row, `SENTENCE: ACTION NUMBERS`, told by `row.rt`. The files of the system are tried in
//! a folder of their own, which is made in the folder for temporary files and removed at the end.
#![tactic(auto)]

mod memory;
mod row;
mod slow;
mod system;

use std::{env, fs, io};
use system::System;

fn main(rt: HostRuntime) -> io::Result<()> {
    let temporary = env::temp_dir(&rt)?;
    let system = System::new(&rt, temporary.as_path())?;
    for line in rt.lines(rt.alloc()) {
        row::show(&rt, &system, line?.as_str())?;
    }
    memory::show_files(&rt)?;
    fs::remove_dir_all(&rt, system.folder())
}
