// The lines that show what is asked of a ledger.
use crate::lines::{Asked, Count, node_in};
use rules::{Answered, Ledger, Request};
use shown::{Shown, Tests};
use std::io;

// Makes a request and prints it with the node that it names, the answer, that node afterwards, the used count and the unclaimed count.
pub(crate) fn show(rt: &impl Print, l: Ledger, r: Request) -> io::Result<Ledger> {
    let Answered { ledger, answer } = ledger::request(l, r);
    println!(rt;
        "{} on {}: answer {}, then {}, used {}, count {}",
        Asked(r),
        node_in(&l, r.node),
        Shown(answer),
        node_in(&ledger, r.node),
        ledger.used,
        Count(&ledger)
    )?;
    Ok(ledger)
}

// Shows requests that are made one after another.
pub(crate) fn show_all(rt: &impl Print, l: Ledger, requests: &[Request]) -> io::Result<Ledger> {
    requests.iter().try_fold(l, |l, r| show(rt, l, *r))
}

// Shows a request with the tests that hold for it.
pub(crate) fn tested(rt: &impl Print, tests: Tests, l: Ledger, r: Request) -> io::Result<Ledger> {
    print!(rt; "{tests}: ")?;
    show(rt, l, r)
}

// Shows refused requests, each with the tests that hold for it.
pub(crate) fn test_all(rt: &impl Print, l: Ledger, cases: &[(Tests, Request)]) -> io::Result<()> {
    for (tests, r) in cases {
        tested(rt, *tests, l, *r)?;
    }
    Ok(())
}
