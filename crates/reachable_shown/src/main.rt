// Shows which ledgers are real: for each of some small ledgers its numbers, the history that it has, each request with the code that the public
// call gives, and the numbers that come out.
#![tactic(auto)]

mod cases;
mod history;
mod lines;
mod replay;

use std::io;

fn main(rt: HostRuntime) -> io::Result<()> {
    cases::all(&rt)
}
