// Shows the ledger at work, a line for each call, in the order of document 01: openings, grants, refusals, ledgers that are not well formed,
// the twelve examples, the largest table, and the table of moves.
#![tactic(auto)]

mod ask;
mod broken;
mod grant;
mod large;
mod letter;
mod lines;
mod opening;
mod refuse;
mod table;

use std::io;

fn main(rt: HostRuntime) -> io::Result<()> {
    opening::all(&rt)?;
    grant::all(&rt)?;
    refuse::all(&rt)?;
    broken::all(&rt)?;
    letter::all(&rt)?;
    large::all(&rt)?;
    table::all(&rt)
}
