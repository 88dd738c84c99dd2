// The ledgers that are shown: a new one, those of the worked examples in reachable/specs, a tree of seven nodes, an empty one, and three that no
// requests make.
use crate::replay;
use rules::{Finds, Ledger, Node, Opening};
use shown::tables::{NONE, finds, node, opened, reported};
use std::io;

const PREPARED: u32 = Node::PREPARED;

const PUSHED: u32 = Node::PUSHED;

// From start to until, of so many teams, with room for so many nodes, of which these are used.
fn bound(start: i32, until: i32, teams: i32, room: i32, used: &[Node]) -> Ledger {
    let mut l = opened(start, until, teams, room);
    let count = used.len().min(Opening::NODES);
    l.nodes[..count].copy_from_slice(&used[..count]);
    l.used = count as u32;
    l
}

// At its end, reported and pushed: it has no children, so both results are the same.
fn finished(start: u32, until: u32, owner: u32, f: Finds) -> Node {
    let x = node(start, until, numbers::to_signed(until), owner, 0);
    reported(x, f, f, PUSHED)
}

// 0..8 split at 3: team 1 owns the left part, and the right part is STOLEN from team 2.
fn stolen_right() -> Ledger {
    let used = [
        node(0, 8, -4, 1, 2),
        node(3, 5, 3, 1, 0),
        node(5, 8, -6, 2, 0),
    ];
    bound(0, 8, 2, 5, &used)
}

fn three_batches() -> Ledger {
    let root = finished(0, 9000, 1, finds(5, 17, 8999));
    bound(0, 9000, 1, 1, &[root])
}

// The left part is STOLEN and prepared, the right part is prepared, and nothing is reported of the root.
fn waiting() -> Ledger {
    let used = [
        node(0, 8, -4, 3, 2),
        reported(node(3, 5, -5, 2, 0), finds(1, 4, 4), NONE, PREPARED),
        reported(node(5, 8, 8, 1, 0), NONE, NONE, PREPARED),
    ];
    bound(0, 8, 3, 6, &used)
}

// The last sheet of 0..3 was stolen: the left part is empty, and nobody asks anything of it.
fn last_sheet() -> Ledger {
    let root = node(0, 3, -3, 1, 2);
    let used = [
        reported(root, finds(2, 7, 8), finds(3, 7, 9), PUSHED),
        nodes::fresh_node(2, 2),
        finished(2, 3, 2, finds(1, 9, 9)),
    ];
    bound(0, 3, 2, 3, &used)
}

// 0..16, every node reported and pushed. Node 3 was split first, so its pair is 4, and that of node 2 is 6.
fn seven() -> Ledger {
    let root = node(0, 16, -5, 1, 2);
    let left = node(4, 10, -7, 1, 6);
    let right = node(10, 16, -13, 2, 4);
    let used = [
        reported(root, finds(2, 5, 3), finds(15, 5, 4), PUSHED),
        reported(left, NONE, finds(5, 7, 2), PUSHED),
        reported(right, finds(3, 1, 8), finds(8, 1, 4), PUSHED),
        finished(12, 14, 1, NONE),
        finished(14, 16, 2, finds(5, 6, 4)),
        finished(6, 8, 2, finds(1, 7, 7)),
        finished(8, 10, 3, finds(4, 9, 2)),
    ];
    bound(0, 16, 3, 7, &used)
}

// An empty root of 5..5 with these results at this stage.
fn empty(own: Finds, joined: Finds, stage: u32) -> Ledger {
    bound(
        5,
        5,
        2,
        3,
        &[reported(nodes::fresh_node(5, 5), own, joined, stage)],
    )
}

fn real(rt: &impl Print) -> io::Result<()> {
    for (name, l) in [
        ("new", opened(0, 5, 2, 7)),
        ("right part stolen", stolen_right()),
        ("three batches", three_batches()),
        ("reports that wait", waiting()),
        ("last sheet stolen, all pushed", last_sheet()),
        ("seven nodes, all pushed", seven()),
    ] {
        replay::show(rt, name, &l)?;
    }
    Ok(())
}

// With the rule for empty nodes only the first of these is well formed; without it all four would be.
fn unreal(rt: &impl Print) -> io::Result<()> {
    let some = finds(4, 1, 2);
    for (name, own, joined, stage) in [
        ("empty", NONE, NONE, PUSHED),
        ("empty and not pushed", NONE, NONE, Node::UNREPORTED),
        ("empty and prepared", some, NONE, PREPARED),
        ("empty and pushed with finds", some, some, PUSHED),
    ] {
        replay::show(rt, name, &empty(own, joined, stage))?;
    }
    Ok(())
}

pub(crate) fn all(rt: &impl Print) -> io::Result<()> {
    real(rt)?;
    unreal(rt)
}
