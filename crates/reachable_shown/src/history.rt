// A history of a ledger, written after the definition in reachable/specs: the pairs by their parents, the nodes without children, the marks of the
// STOLEN ones, the reports, and the pushes from the last node to the first. An unused slot is all 0, and nothing is asked of it.
use crate::replay::Replay;
use numbers::to_signed;
use rules::{Ledger, Node, Opening, Request};
use shown::asks::{advance, expand, mark, own, push, report};
use std::io;

// Any team may split and push.
const ANY: i32 = 1;

// The number of the node in a slot.
fn number_of(slot: usize) -> i32 {
    to_signed(slot.min(Opening::NODES) as u32 + 1)
}

// The owner takes the node, and claims its sheets up to the position.
fn work<P: Print>(to: &mut Replay<'_, P>, n: i32, x: Node) -> io::Result<()> {
    if nodes::is_unowned(x) {
        return Ok(());
    }
    let owner = to_signed(x.owner);
    let end = nodes::position_of(x);
    to.ask(own(owner, n))?;
    for p in (x.start..end).step_by(Request::AMOUNT as usize) {
        let size = end.saturating_sub(p).min(Request::AMOUNT);
        to.ask(advance(owner, n, to_signed(p), to_signed(size)))?;
    }
    Ok(())
}

fn steal<P: Print>(to: &mut Replay<'_, P>, n: i32, x: Node) -> io::Result<()> {
    let thief = if x.owner == 1 { 2 } else { 1 };
    to.ask(mark(thief, n, to_signed(nodes::position_of(x))))
}

// The pairs in the order of their numbers: each parent is worked on, stolen and split.
fn pairs<P: Print>(l: &Ledger, to: &mut Replay<'_, P>) -> io::Result<()> {
    for child in (2..l.used).step_by(2) {
        if let Some(slot) = l.nodes.iter().position(|x| x.left == child) {
            let n = number_of(slot);
            let x = l.nodes[slot];
            work(to, n, x)?;
            steal(to, n, x)?;
            to.ask(expand(ANY, n))?;
        }
    }
    Ok(())
}

fn leaves<P: Print>(l: &Ledger, to: &mut Replay<'_, P>) -> io::Result<()> {
    for (slot, x) in l.nodes.iter().enumerate() {
        if nodes::is_childless(*x) {
            work(to, number_of(slot), *x)?;
        }
    }
    Ok(())
}

fn thefts<P: Print>(l: &Ledger, to: &mut Replay<'_, P>) -> io::Result<()> {
    for (slot, x) in l.nodes.iter().enumerate() {
        if nodes::is_marked(*x) && nodes::is_childless(*x) {
            steal(to, number_of(slot), *x)?;
        }
    }
    Ok(())
}

fn reports<P: Print>(l: &Ledger, to: &mut Replay<'_, P>) -> io::Result<()> {
    for (slot, x) in l.nodes.iter().enumerate() {
        if x.stage != Node::UNREPORTED && x.start != x.until {
            let count = to_signed(x.own.count);
            let first = to_signed(x.own.first);
            let last = to_signed(x.own.last);
            to.ask(report(to_signed(x.owner), number_of(slot), count, first, last))?;
        }
    }
    Ok(())
}

fn pushes<P: Print>(l: &Ledger, to: &mut Replay<'_, P>) -> io::Result<()> {
    for (slot, x) in l.nodes.iter().enumerate().rev() {
        if nodes::is_pushed(*x) && x.start != x.until {
            to.ask(push(ANY, number_of(slot)))?;
        }
    }
    Ok(())
}

pub(crate) fn play<P: Print>(l: &Ledger, to: &mut Replay<'_, P>) -> io::Result<()> {
    pairs(l, to)?;
    leaves(l, to)?;
    thefts(l, to)?;
    reports(l, to)?;
    pushes(l, to)
}

// A ledger has no cap: that of the least run stands in.
pub(crate) fn opening(l: &Ledger) -> Opening {
    Opening {
        start: to_signed(l.start),
        until: to_signed(l.until),
        teams: to_signed(l.teams),
        cap: 1,
        nodes: to_signed(l.room),
    }
}
