// Shows when it matters who rang first: the calls of two rooms in every merged order, and the three exceptions in both orders.
#![tactic(auto)]

mod differ;
mod lists;
mod merge;

use std::io;

fn main(rt: HostRuntime) -> io::Result<()> {
    lists::all(&rt)?;
    differ::all(&rt)
}
