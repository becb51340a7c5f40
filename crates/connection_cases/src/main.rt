//! Rows of a connection: of its two ends and of the logs of nodes (`sessions`), behind the line `== frames as bytes` of
//! frames and records as bytes (`frames`), and behind the line `== ends with their rings` of both ends with their rings
//! (`ports`).
#![tactic(auto)]

mod answers;
mod frames;
mod logs;
mod port_calls;
mod port_ends;
mod ports;
mod said;
mod session_ends;
mod sessions;
mod words;

use std::io;

fn main(rt: HostRuntime) -> io::Result<()> {
    let text = io::read_to_string(rt.alloc(), rt.reader())?;
    let text = text.as_str();
    let (of_sessions, behind) = text
        .split_once("== frames as bytes\n")
        .unwrap_or((text, ""));
    let (of_frames, of_ports) = behind
        .split_once("== ends with their rings\n")
        .unwrap_or((behind, ""));
    sessions::show(&rt, of_sessions)?;
    frames::show(&rt, of_frames)?;
    ports::show(&rt, of_ports)
}
