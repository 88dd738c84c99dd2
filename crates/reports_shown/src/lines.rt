// The parts of a line: a request, and how far a node's report has come.
use rules::{Ledger, Node, Request};
use shown::Shown;
use shown::tables::node_of;
use std::fmt;

// What a request with a report brings.
#[derive(Clone, Copy)]
pub(crate) struct Asked(pub(crate) Request);

impl fmt::Display for Asked {
    fn fmt<W: fmt::Write>(&self, f: &mut fmt::Formatter<W>) -> fmt::Result {
        let Request {
            kind,
            team,
            node,
            count,
            first,
            last,
            ..
        } = self.0;
        write!(f, "request {kind} {team} {node} {count} {first} {last}")
    }
}

// The state and the report of a node.
#[derive(Clone, Copy)]
pub(crate) struct Report(Node);

impl fmt::Display for Report {
    fn fmt<W: fmt::Write>(&self, f: &mut fmt::Formatter<W>) -> fmt::Result {
        let x = self.0;
        write!(
            f,
            "state {} stage {} own {} joined {}",
            nodes::state_of(x).number(),
            x.stage,
            Shown(x.own),
            Shown(x.joined)
        )
    }
}

// That of the node of a ledger that has this number, if a slot has it.
pub(crate) fn report_in(l: &Ledger, n: i32) -> Shown<Option<Report>> {
    Shown(node_of(l, n).map(Report))
}
