// Each line of the step rules, place by place: the record before the step and the cap, what it asked and got, and the record after it.
use crate::ledgers::{claimed, expanded, last_split, opened, owned, stolen};
use crate::show::{Asked, Record};
use rules::Ledger;
use std::io;
use steps::{Place, Program, Side, Stepped, Team};

// A record with a position of 2, side left and size 4, so that what a move keeps can be seen.
pub(crate) fn at(place: Place, node: u32) -> Team {
    Team {
        place,
        node,
        position: 2,
        size: 4,
        ..Team::fresh(Program::Scan)
    }
}

fn facing(place: Place, node: u32, side: Side) -> Team {
    Team {
        side,
        ..at(place, node)
    }
}

fn sized(place: Place, size: u32) -> Team {
    Team {
        place,
        side: Side::Right,
        size,
        ..Team::fresh(Program::Scan)
    }
}

fn tried(rt: &impl Print, l: Ledger, number: i32, cap: i32, t: Team) -> io::Result<()> {
    let Stepped {
        team,
        kind,
        node,
        answer,
        ..
    } = teams::step(l, number, cap, t);
    let asked = Asked {
        team: number,
        kind,
        node,
        answer,
    };
    println!(rt; " {} cap {cap}: {asked} | {}", Record(t), Record(team))
}

// Steps of these teams on these ledgers, at most 4 sheets a batch.
pub(crate) fn each(rt: &impl Print, name: &str, cases: &[(Ledger, i32, Team)]) -> io::Result<()> {
    println!(rt; "{name}")?;
    for (l, number, t) in cases {
        tried(rt, *l, *number, 4, *t)?;
    }
    Ok(())
}

// Code 4, AVAILABLE, OWNED by another with two or more and with one left, OWNED by the team itself, COMPLETED, STOLEN, EXPANDED.
fn seek(rt: &impl Print) -> io::Result<()> {
    let cases = [
        (opened(7), 1, at(Place::Seek, 2)),
        (opened(7), 1, at(Place::Seek, 1)),
        (claimed(7, 6), 2, at(Place::Seek, 1)),
        (claimed(7, 7), 2, at(Place::Seek, 1)),
        (owned(7), 1, at(Place::Seek, 1)),
        (claimed(7, 8), 2, at(Place::Seek, 1)),
        (stolen(), 2, at(Place::Seek, 1)),
        (expanded(), 2, at(Place::Seek, 1)),
    ];
    each(rt, "seek", &cases)
}

// Granted, and refused: the node has an owner, or it is the empty part of a last sheet.
fn take(rt: &impl Print) -> io::Result<()> {
    let cases = [
        (opened(7), 1, at(Place::Take, 1)),
        (owned(7), 2, at(Place::Take, 1)),
        (last_split(), 1, at(Place::Take, 2)),
    ];
    each(rt, "take", &cases)
}

// OWNED by this team, STOLEN, EXPANDED, OWNED by another, COMPLETED, AVAILABLE, no node.
fn work(rt: &impl Print) -> io::Result<()> {
    let cases = [
        (claimed(7, 3), 1, at(Place::Work, 1)),
        (stolen(), 1, at(Place::Work, 1)),
        (expanded(), 1, at(Place::Work, 1)),
        (owned(7), 2, at(Place::Work, 1)),
        (claimed(7, 8), 1, at(Place::Work, 1)),
        (opened(7), 1, at(Place::Work, 1)),
        (opened(7), 1, at(Place::Work, 2)),
    ];
    each(rt, "work", &cases)
}

// Granted with the size doubled, at the cap and past its half; code 9; another position; another owner.
fn claim(rt: &impl Print) -> io::Result<()> {
    let cases = [
        (owned(7), 1, sized(Place::Claim, 1)),
        (owned(7), 1, sized(Place::Claim, 2)),
        (owned(7), 1, sized(Place::Claim, 3)),
        (owned(7), 1, sized(Place::Claim, 4)),
        (stolen(), 1, at(Place::Claim, 1)),
        (claimed(7, 3), 1, at(Place::Claim, 1)),
        (owned(7), 2, sized(Place::Claim, 1)),
    ];
    each(rt, "claim", &cases)
}

// Granted, code 14, another position.
fn mark(rt: &impl Print) -> io::Result<()> {
    let cases = [
        (claimed(7, 2), 2, at(Place::Mark, 1)),
        (claimed(2, 2), 2, at(Place::Mark, 1)),
        (claimed(7, 3), 2, at(Place::Mark, 1)),
    ];
    each(rt, "mark", &cases)
}

// Granted on either side; code 16 on either side, which tells where the children are too; code 15.
fn split(rt: &impl Print) -> io::Result<()> {
    let cases = [
        (stolen(), 1, facing(Place::Split, 1, Side::Left)),
        (stolen(), 2, facing(Place::Split, 1, Side::Right)),
        (expanded(), 1, facing(Place::Split, 1, Side::Left)),
        (expanded(), 2, facing(Place::Split, 1, Side::Right)),
        (owned(7), 2, facing(Place::Split, 1, Side::Right)),
    ];
    each(rt, "split", &cases)
}

// It asks nothing.
fn stopped(rt: &impl Print) -> io::Result<()> {
    each(rt, "stopped", &[(opened(7), 1, at(Place::Stopped, 9))])
}

// The largest node, which no table has; the largest size at the largest cap, which 2 x size would pass; the least cap.
fn limits(rt: &impl Print) -> io::Result<()> {
    println!(rt; "limits")?;
    for (l, number, cap, t) in [
        (opened(7), 1, 4096, at(Place::Seek, 1024)),
        (owned(7), 1, 4096, sized(Place::Claim, 4096)),
        (owned(7), 1, 4096, sized(Place::Claim, 2048)),
        (owned(7), 1, 4096, sized(Place::Claim, 2049)),
        (owned(7), 1, 1, sized(Place::Claim, 1)),
        (opened(7), 2, 4, at(Place::Stopped, 1024)),
    ] {
        tried(rt, l, number, cap, t)?;
    }
    Ok(())
}

// 1 before 3 before 19; 3 by numbers on either side; 19 by the cap, the node and the size, for a stopped record too.
fn refused(rt: &impl Print) -> io::Result<()> {
    println!(rt; "refused")?;
    tried(rt, opened(0), 0, 0, at(Place::Seek, 0))?;
    for (number, cap, t) in [
        (0, 0, at(Place::Seek, 0)),
        (-1, 4, at(Place::Seek, 1)),
        (3, 4, at(Place::Seek, 1)),
        (1, 0, at(Place::Seek, 1)),
        (1, -1, at(Place::Seek, 1)),
        (1, 4097, at(Place::Seek, 1)),
        (1, 4, at(Place::Seek, 0)),
        (1, 4, at(Place::Seek, 1025)),
        (1, 4, sized(Place::Seek, 0)),
        (1, 4, sized(Place::Seek, 5)),
        (1, 3, at(Place::Stopped, 1)),
    ] {
        tried(rt, opened(7), number, cap, t)?;
    }
    Ok(())
}

pub(crate) fn all(rt: &impl Print) -> io::Result<()> {
    seek(rt)?;
    take(rt)?;
    work(rt)?;
    claim(rt)?;
    mark(rt)?;
    split(rt)?;
    stopped(rt)?;
    limits(rt)?;
    refused(rt)
}
