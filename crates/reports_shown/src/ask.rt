// Ledgers to ask, and the lines that show what is asked of them.
use crate::lines::{Asked, report_in};
use rules::{Answered, Ledger, Node, Request};
use shown::Tests;
use shown::tables::{node, opened, with_node};
use std::io;

// 0..until of two teams, untouched.
pub(crate) fn new(until: i32, nodes: i32) -> Ledger {
    opened(0, until, 2, nodes)
}

// 0..5 at a progress of team 1, of which nothing is reported.
pub(crate) fn root(progress: i32) -> Node {
    node(0, 5, progress, 1, 0)
}

pub(crate) fn rooted(x: Node) -> Ledger {
    with_node(new(5, 7), 1, x)
}

// Makes a request and prints it with its code, and the node that it names afterwards.
pub(crate) fn show(rt: &impl Print, l: Ledger, r: Request) -> io::Result<Ledger> {
    let Answered { ledger, answer } = ledger::request(l, r);
    println!(rt;
        "{}: code {}, then {}",
        Asked(r),
        answer.code,
        report_in(&ledger, r.node)
    )?;
    Ok(ledger)
}

// Shows requests that are made one after another.
pub(crate) fn show_all(rt: &impl Print, l: Ledger, requests: &[Request]) -> io::Result<Ledger> {
    requests.iter().try_fold(l, |l, r| show(rt, l, *r))
}

// Shows a request of a ledger that has only a root, with the tests that hold for it.
pub(crate) fn tested(rt: &impl Print, tests: Tests, l: Ledger, r: Request) -> io::Result<()> {
    print!(rt; "{tests}: ")?;
    show(rt, l, r)?;
    Ok(())
}
