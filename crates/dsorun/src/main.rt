//! `dsorun`: the words, the files and the disk of the process, handed to the top call.
#![tactic(auto)]

use dso_io::{StdFiles, StdSink};
use dso_keep::StdDisk;
use dso_run::{NoGate, dso_exit};
use std::process::ExitCode;
use std::{env, io};

fn main(rt: HostRuntime) -> ExitCode {
    let words = words(&rt);
    let mut files = StdFiles::new(rt.alloc(), &rt);
    let mut out = StdSink::new(&rt);
    let mut disk = StdDisk::new(&rt);
    dso_exit(
        &rt,
        rt.alloc(),
        words,
        &mut files,
        &mut out,
        &NoGate,
        &mut disk,
    )
}

/// The words behind the program's name.
fn words(rt: &HostRuntime) -> io::Result<Vec<String>> {
    let words = env::args(rt)?.skip(1).collect(rt.alloc())?;
    Ok(words)
}
