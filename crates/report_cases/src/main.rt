//! Cases of reports. Each case of the input is a line `# ` with a sentence, the text of a program, and a line `> ` with
//! what is done: its threads act and clients are lost, on one heap. The output has each sentence with the report that
//! is written then.
#![tactic(auto)]

mod cases;
mod legal_run;
mod next_request;
mod replies;
mod script;

use cases::Cases;
use std::io;

fn main(rt: HostRuntime) -> io::Result<()> {
    let alloc = rt.alloc();
    let mut cases = Cases::new(alloc);
    for line in rt.lines(alloc) {
        let answer = cases.take(alloc, line?.as_str())?;
        print!(rt; "{answer}")?;
    }
    Ok(())
}
