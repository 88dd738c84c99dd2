// The table of moves, and what one node decides by itself.
use crate::lines::Plain;
use nodes::moves::states_after;
use rules::{Change, Kind, Node, Outcome, View};
use shown::Shown;
use shown::asks::expand;
use shown::tables::node;
use std::{fmt, io};

// The states to which own, advance, mark, expand and look may lead from each state, as the sum of 2 to the power of each.
fn rows(rt: &impl Print) -> io::Result<()> {
    for state in 1..=5 {
        println!(rt;
            "moves from {state}: {} {} {} {} {}",
            states_after(state, Kind::Own.number()),
            states_after(state, Kind::Advance.number()),
            states_after(state, Kind::Mark.number()),
            states_after(state, Kind::Expand.number()),
            states_after(state, Kind::Look.number())
        )?;
    }
    Ok(())
}

// What is no state or no kind has no move.
fn outside(rt: &impl Print) -> io::Result<()> {
    print!(rt; "no state, no kind:")?;
    for (state, kind) in [(0, 1), (6, 1), (1, 0), (1, 6), (u32::MAX, u32::MAX)] {
        print!(rt; " {}", states_after(state, kind))?;
    }
    println!(rt)
}

// What a change makes of a node.
#[derive(Clone, Copy)]
struct Made(Node, Change);

impl fmt::Display for Made {
    fn fmt<W: fmt::Write>(&self, f: &mut fmt::Formatter<W>) -> fmt::Result {
        let Made(x, change) = *self;
        let stored = match change {
            Change::Keep => return f.write_str("keep"),
            Change::Push => return f.write_str("push"),
            Change::Split(pair) => return write!(f, "split {}", Pair(x, pair)),
            Change::Own(team) => nodes::owned_by(x, team),
            Change::Advance(p) => nodes::advanced_to(x, p),
            Change::Mark(p) => nodes::marked_at(x, p),
            Change::Report(finds) => nodes::reported_by(x, finds),
        };
        write!(f, "store {}", Plain(stored))
    }
}

// A node split into a pair of this number, that number, and the pair.
#[derive(Clone, Copy)]
struct Pair(Node, u32);

impl fmt::Display for Pair {
    fn fmt<W: fmt::Write>(&self, f: &mut fmt::Formatter<W>) -> fmt::Result {
        let Pair(x, pair) = *self;
        let parent = Plain(nodes::parted_at(x, pair));
        let left = Plain(nodes::left_part(x));
        let right = Plain(nodes::right_part(x));
        write!(f, "{parent} {pair} {left} {right}")
    }
}

// Expand, asked of one node in a table of so many nodes, three of them used, with one STOLEN node.
fn show_expand(rt: &impl Print, room: u32, node: Node) -> io::Result<()> {
    let none = nodes::blank_node();
    let view = View {
        teams: 2,
        room,
        used: 3,
        stolen: 1,
        pair: 4,
        node,
        left: none,
        right: none,
    };
    let Outcome { answer, change } = requests::decide(view, expand(2, 1));
    println!(rt;
        "expand with nodes {room}, used 3, {}: answer {}, {}",
        Plain(node),
        Shown(answer),
        Made(node, change)
    )
}

// One node is asked by itself here, in tables too small as well: expand does not ask for room, since a well-formed ledger keeps two slots for
// each STOLEN node. 15 comes before 16.
fn expands(rt: &impl Print) -> io::Result<()> {
    for (room, progress, left) in [
        (3, -4, 0),
        (4, -4, 0),
        (5, -4, 0),
        (4, -4, 2),
        (4, 3, 0),
        (4, 3, 2),
    ] {
        show_expand(rt, room, node(0, 8, progress, 1, left))?;
    }
    Ok(())
}

pub(crate) fn all(rt: &impl Print) -> io::Result<()> {
    rows(rt)?;
    outside(rt)?;
    expands(rt)
}
