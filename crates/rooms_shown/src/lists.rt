// Two rooms' lists of three calls each, in all twenty merged orders: what is heard and the ledger at the end are those of the first order.
use crate::merge::{BOTH, Calls, Codes, Heard, Order};
use rules::{Ledger, Request};
use shown::Shown;
use shown::asks::{advance, expand, look, mark, own, report};
use shown::tables::{after, halved, owned};
use std::io;

// Room 1 makes its three calls and then room 2.
const ROOM_1_FIRST: Order = Order(0b000111);

// What was heard in an order, beside what is heard in the first one.
fn show(rt: &impl Print, order: Order, heard: &Heard, first: &Heard) -> io::Result<()> {
    println!(rt;
        "rooms{order}: codes{}, same answers {}, same ledger {}",
        Codes(&heard.answers),
        Shown(heard.answers == first.answers),
        Shown(heard.ledger == first.ledger)
    )
}

fn every(rt: &impl Print, l: Ledger, calls: &Calls) -> io::Result<()> {
    let first = calls.merged(l, ROOM_1_FIRST);
    for order in (0..1 << BOTH).map(Order).filter(|order| order.is_whole()) {
        show(rt, order, &calls.merged(l, order), &first)?;
    }
    Ok(())
}

// Both rooms take a node, claim and mark; there is room for both marks.
fn marked(rt: &impl Print) -> io::Result<()> {
    println!(rt; "take, claim and have it marked, room for both marks")?;
    let calls = Calls {
        one: [own(1, 2), advance(1, 2, 3, 1), mark(2, 2, 4)],
        other: [own(2, 3), advance(2, 3, 5, 2), mark(1, 3, 7)],
    };
    every(rt, halved(9), &calls)
}

// One room marks and splits, and reports the node; the other claims to the end, reports and looks.
fn split(rt: &impl Print) -> io::Result<()> {
    println!(rt; "mark, split and report; claim, report and look")?;
    let calls = Calls {
        one: [mark(2, 2, 3), expand(2, 2), report(1, 2, 0, 0, 0)],
        other: [advance(2, 3, 5, 4), report(2, 3, 2, 9, 1), look(1, 3)],
    };
    every(rt, owned(5), &calls)
}

// A request of a kind that does not exist, with anything in its other fields.
fn unknown(kind: i32, team: i32, node: i32) -> Request {
    Request::new(kind, team, node, i32::MIN, i32::MAX, -1, i32::MIN, i32::MAX)
}

// Refused calls, with kinds that do not exist, and the answer 16 of a second split.
fn refused(rt: &impl Print) -> io::Result<()> {
    println!(rt; "split twice, and a kind that does not exist; refused calls")?;
    let calls = Calls {
        one: [expand(2, 2), expand(1, 2), unknown(-1, 1, 2)],
        other: [own(1, 3), advance(2, 3, 6, 1), unknown(i32::MAX, 2, 3)],
    };
    every(rt, after(owned(7), &[mark(2, 2, 3)]), &calls)
}

pub(crate) fn all(rt: &impl Print) -> io::Result<()> {
    marked(rt)?;
    split(rt)?;
    refused(rt)
}
