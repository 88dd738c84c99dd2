// Shows the listing of small ledgers: the document's schedule after each of its steps, and a few more.
#![tactic(auto)]

use crate::lesson::{Lesson, Run};
use sheet_order::{Piece, Pieces};
use shown::SCHEDULE;
use shown::asks::{advance, expand, mark, own};
use shown::tables::opened;
use std::io;

mod lesson;
mod show;

// The document's schedule, and a step of no team, which is refused.
fn schedule(rt: &impl Print) -> io::Result<()> {
    println!(rt; "open 0 5 2 4 7")?;
    let mut run = Run::with_teams(Lesson::begin(rt, opened(0, 5, 2, 7))?);
    for team in SCHEDULE.into_iter().chain([0]) {
        run = run.step(rt, team)?;
    }
    Ok(())
}

// Team 1 is slow: team 2 steals the rest of its node, and team 3 the rest of what team 1 then works on.
fn two_deep(rt: &impl Print) -> io::Result<()> {
    println!(rt; "open 0 10 3 4 7 two splits deep")?;
    let requests = [
        own(1, 1),
        advance(1, 1, 0, 2),
        mark(2, 1, 2),
        expand(2, 1),
        own(2, 3),
        advance(2, 3, 6, 1),
        own(1, 2),
        advance(1, 2, 2, 1),
        mark(3, 2, 3),
        expand(1, 2),
        own(3, 5),
        advance(3, 5, 4, 4),
        advance(2, 3, 7, 2),
        own(1, 4),
        advance(1, 4, 3, 1),
        advance(2, 3, 9, 1),
    ];
    Lesson::begin(rt, opened(0, 10, 3, 7))?.ask_all(rt, &requests)
}

// Old readings: each request that is refused leaves the listing as it was.
fn refusals(rt: &impl Print) -> io::Result<()> {
    println!(rt; "open 0 6 2 4 7 old readings")?;
    let requests = [
        advance(1, 1, 0, 1),
        own(1, 1),
        own(2, 1),
        advance(1, 1, 0, 2),
        advance(1, 1, 0, 2),
        mark(2, 1, 0),
        mark(2, 1, 2),
        advance(1, 1, 2, 4),
        expand(1, 1),
        expand(2, 1),
    ];
    Lesson::begin(rt, opened(0, 6, 2, 7))?.ask_all(rt, &requests)
}

// Team 1 was granted sheet 0 of node 1 so many times over: such a history never comes about, and its listing is no longer each sheet once.
fn same_grant(rt: &impl Print, count: usize) -> io::Result<()> {
    let one = Piece {
        team: 1,
        node: 1,
        from: 0,
        to: 1,
    };
    let granted = Pieces {
        count,
        items: [one; Pieces::MOST],
    };
    show::listing(rt, opened(0, 2, 1, 1), Some(granted))
}

// A row has room for 32 pieces, of which what is unclaimed is one here; a ledger that is not well formed has no listing.
fn limits(rt: &impl Print) -> io::Result<()> {
    println!(rt; "the same grant twice")?;
    same_grant(rt, 2)?;
    for count in 31..=33 {
        println!(rt; "the same grant {count} times")?;
        same_grant(rt, count)?;
    }
    println!(rt; "a refused opening")?;
    show::listing(rt, opened(5, 0, 2, 7), Some(Pieces::none()))
}

fn main(rt: HostRuntime) -> io::Result<()> {
    let rt = &rt;
    show::legend(rt)?;
    schedule(rt)?;
    println!(rt; "open 3 6 1 4 1 a new ledger")?;
    Lesson::begin(rt, opened(3, 6, 1, 1))?;
    println!(rt; "open 0 0 2 4 7 no sheets")?;
    Lesson::begin(rt, opened(0, 0, 2, 7))?.ask_all(rt, &[own(1, 1)])?;
    two_deep(rt)?;
    refusals(rt)?;
    limits(rt)
}
