// Shows reports and pushes at work, a line for each call: every code and the order of each list of tests, what is granted, empty nodes, a
// report that survives a split, a tree of seven nodes joined, and ledgers whose reports are not well formed.
#![tactic(auto)]

mod ask;
mod codes;
mod formed;
mod grant;
mod lines;
mod tree;

use std::io;

fn main(rt: HostRuntime) -> io::Result<()> {
    codes::all(&rt)?;
    grant::all(&rt)?;
    tree::all(&rt)?;
    formed::all(&rt)
}
