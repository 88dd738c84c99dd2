// The parts of a line: a request by the name of its kind, with what that kind reads, and a node by its number.
use rules::{Kind, Node, Request};
use shown::Shown;
use std::fmt;

#[derive(Clone, Copy)]
pub(crate) struct Asked(pub(crate) Request);

fn name(kind: Kind) -> &'static str {
    match kind {
        Kind::Own => "own",
        Kind::Advance => "advance",
        Kind::Mark => "mark",
        Kind::Expand => "expand",
        Kind::Look => "look",
        Kind::Report => "report",
        Kind::Push => "push",
    }
}

impl fmt::Display for Asked {
    fn fmt<W: fmt::Write>(&self, f: &mut fmt::Formatter<W>) -> fmt::Result {
        let r = self.0;
        let Ok(kind) = Kind::try_from(r.kind) else {
            return f.write_str("no kind");
        };
        write!(f, "{} team {}, node {}", name(kind), r.team, r.node)?;
        match kind {
            Kind::Advance => write!(f, ", position {}, amount {}", r.position, r.amount),
            Kind::Mark => write!(f, ", position {}", r.position),
            Kind::Report => write!(f, ", finds {} {} {}", r.count, r.first, r.last),
            _ => Ok(()),
        }
    }
}

// All numbers of the node in a slot: range, progress, owner and left child, both results, and the stage.
#[derive(Clone, Copy)]
pub(crate) struct Numbered(pub(crate) usize, pub(crate) Node);

impl fmt::Display for Numbered {
    fn fmt<W: fmt::Write>(&self, f: &mut fmt::Formatter<W>) -> fmt::Result {
        let Numbered(slot, x) = *self;
        let Node {
            start,
            until,
            progress,
            owner,
            left,
            stage,
            ..
        } = x;
        let n = slot.saturating_add(1);
        write!(f, "node {n}: {start} {until} {progress} {owner} {left}")?;
        write!(
            f,
            " own {} joined {} stage {stage}",
            Shown(x.own),
            Shown(x.joined)
        )
    }
}
