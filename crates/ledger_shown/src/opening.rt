// Openings, at and past every limit.
use crate::lines::{Count, node_in};
use rules::Opening;
use shown::Shown;
use std::io;

// Prints the five numbers, the code, the ledger's own numbers, its root, whether it is well formed, and its unclaimed count.
fn show(rt: &impl Print, numbers: (i32, i32, i32, i32, i32)) -> io::Result<()> {
    let (start, until, teams, cap, nodes) = numbers;
    let opened = ledger::open(Opening {
        start,
        until,
        teams,
        cap,
        nodes,
    });
    println!(rt;
        "open {start} {until} {teams} {cap} {nodes}: code {}, ledger {}, {}, well formed {}, count {}",
        opened.code,
        Shown(&opened.ledger),
        node_in(&opened.ledger, 1),
        Shown(forms::well_formed(opened.ledger)),
        Count(&opened.ledger)
    )
}

fn within(rt: &impl Print) -> io::Result<()> {
    for numbers in [
        (0, 5, 2, 4, 7),
        (0, 0, 1, 1, 1),
        (0, 1, 1, 1, 1),
        (1, 1, 1, 1, 1),
        (0, i32::MAX, 32, 4096, 1023),
        (i32::MAX - 1, i32::MAX, 32, 4096, 1023),
        (i32::MAX, i32::MAX, 32, 4096, 1023),
    ] {
        show(rt, numbers)?;
    }
    Ok(())
}

// One number past its limit.
fn past(rt: &impl Print) -> io::Result<()> {
    for numbers in [
        (-1, 5, 2, 4, 7),
        (6, 5, 2, 4, 7),
        (0, -1, 2, 4, 7),
        (-1, -1, 2, 4, 7),
        (0, 5, 0, 4, 7),
        (0, 5, 33, 4, 7),
        (0, 5, 2, 0, 7),
        (0, 5, 2, 4097, 7),
        (0, 5, 2, 4, 0),
        (0, 5, 2, 4, 1024),
    ] {
        show(rt, numbers)?;
    }
    Ok(())
}

// The ends of what a number can be, in each place.
fn ends(rt: &impl Print) -> io::Result<()> {
    for numbers in [
        (0, 0, 0, 0, 0),
        (i32::MIN, 5, 2, 4, 7),
        (0, i32::MIN, 2, 4, 7),
        (0, 5, i32::MIN, 4, 7),
        (0, 5, 2, i32::MIN, 7),
        (0, 5, 2, 4, i32::MIN),
        (i32::MAX, 5, 2, 4, 7),
        (0, 5, i32::MAX, 4, 7),
        (0, 5, 2, i32::MAX, 7),
        (0, 5, 2, 4, i32::MAX),
    ] {
        show(rt, numbers)?;
    }
    Ok(())
}

pub(crate) fn all(rt: &impl Print) -> io::Result<()> {
    within(rt)?;
    past(rt)?;
    ends(rt)
}
