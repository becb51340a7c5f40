//! Rows of a cluster: of all of it in one program (`worlds`), behind the line `== one client` of one client that is driven
//! by hand (`clients`), and behind the line `== cells` of cells whose turns are made by hand (`cells`).
#![tactic(auto)]

mod acts;
mod causes;
mod cells;
mod clients;
mod cluster;
mod commands;
mod draws;
mod driven;
mod entries;
mod messages;
mod parts;
mod queries;
mod rounds;
mod rows;
mod runs;
mod shown;
mod stepping;
mod turns;
mod walks;
mod worlds;

use std::io;

fn main(rt: HostRuntime) -> io::Result<()> {
    let text = io::read_to_string(rt.alloc(), rt.reader())?;
    let text = text.as_str();
    let (of_worlds, behind) = text.split_once("== one client\n").unwrap_or((text, ""));
    let (of_clients, of_cells) = behind.split_once("== cells\n").unwrap_or((behind, ""));
    worlds::show(&rt, of_worlds)?;
    clients::show(&rt, of_clients)?;
    cells::show(&rt, of_cells)
}
