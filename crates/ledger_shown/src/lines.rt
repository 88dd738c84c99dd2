// The parts of a line: a request, a node, and a ledger's unclaimed count.
use rules::{Ledger, Node, Request};
use shown::Shown;
use shown::tables::node_of;
use std::fmt;

// What a request without a report brings.
#[derive(Clone, Copy)]
pub(crate) struct Asked(pub(crate) Request);

impl fmt::Display for Asked {
    fn fmt<W: fmt::Write>(&self, f: &mut fmt::Formatter<W>) -> fmt::Result {
        let Request {
            kind,
            team,
            node,
            position,
            amount,
            ..
        } = self.0;
        write!(f, "request {kind} {team} {node} {position} {amount}")
    }
}

// A node without its report.
#[derive(Clone, Copy)]
pub(crate) struct Plain(pub(crate) Node);

impl fmt::Display for Plain {
    fn fmt<W: fmt::Write>(&self, f: &mut fmt::Formatter<W>) -> fmt::Result {
        let Node {
            start,
            until,
            progress,
            owner,
            left,
            ..
        } = self.0;
        write!(f, "node {start} {until} {progress} {owner} {left}")
    }
}

// The node of a ledger that has this number, if a slot has it.
pub(crate) fn node_in(l: &Ledger, n: i32) -> Shown<Option<Plain>> {
    Shown(node_of(l, n).map(Plain))
}

// The code of a ledger's unclaimed count, and that count; 0 where it is refused.
#[derive(Clone, Copy)]
pub(crate) struct Count<'a>(pub(crate) &'a Ledger);

impl fmt::Display for Count<'_> {
    fn fmt<W: fmt::Write>(&self, f: &mut fmt::Formatter<W>) -> fmt::Result {
        match ledger::count(*self.0) {
            Ok(n) => write!(f, "0 {n}"),
            Err(refusal) => write!(f, "{} 0", refusal.code()),
        }
    }
}
