// A tree of seven nodes, of which each reports and is pushed. By hand, with a node's own result, then its left child's, then its right one's:
//
//   node   own      children's joined    joined
//      4   1 7 7                         1 7 7
//      5   4 9 2                         4 9 2
//      2   0 0 0    1 7 7, 4 9 2         5 7 2
//      6   0 0 0                         0 0 0
//      7   5 6 4                         5 6 4
//      3   3 1 8    0 0 0, 5 6 4         8 1 4
//      1   2 5 3    5 7 2, 8 1 4        15 5 4
//
// The root's labels are those of its own first find, and of the last find of node 7.
use crate::ask::{new, show_all};
use rules::{Ledger, Request};
use shown::Shown;
use shown::asks::{advance, expand, mark, own, push, report};
use shown::tables::finds;
use std::io;

// A team owns a node and claims so many of its sheets from a position.
fn worked(team: i32, node: i32, position: i32, sheets: i32) -> [Request; 2] {
    [own(team, node), advance(team, node, position, sheets)]
}

// The other team steals the rest of it from a position, and splits it.
fn parted(thief: i32, node: i32, position: i32) -> [Request; 2] {
    [mark(thief, node, position), expand(thief, node)]
}

// 0..16: node 1 is split at 4 in 4..10 and 10..16, node 2 at 6 in 6..8 and 8..10, node 3 at 12 in 12..14 and 14..16.
fn grown(rt: &impl Print) -> io::Result<Ledger> {
    let pairs = [
        worked(1, 1, 0, 4),
        parted(2, 1, 4),
        worked(1, 2, 4, 2),
        parted(2, 2, 6),
        worked(2, 3, 10, 2),
        parted(1, 3, 12),
        worked(1, 4, 6, 2),
        worked(2, 5, 8, 2),
        worked(1, 6, 12, 2),
        worked(2, 7, 14, 2),
    ];
    pairs
        .iter()
        .try_fold(new(16, 7), |l, pair| show_all(rt, l, pair))
}

// Reports in any order, each by its node's owner.
fn reported(rt: &impl Print, l: Ledger) -> io::Result<Ledger> {
    let reports = [
        report(2, 7, 5, 6, 4),
        report(1, 1, 2, 5, 3),
        report(1, 4, 1, 7, 7),
        report(2, 5, 4, 9, 2),
        report(1, 2, 0, 0, 0),
        report(2, 3, 3, 1, 8),
        report(1, 6, 0, 0, 0),
    ];
    show_all(rt, l, &reports)
}

// A parent waits for both children.
fn pushed(rt: &impl Print, l: Ledger) -> io::Result<Ledger> {
    let pushes = [
        push(1, 1),
        push(2, 5),
        push(2, 2),
        push(2, 4),
        push(2, 2),
        push(1, 1),
        push(1, 7),
        push(1, 6),
        push(1, 3),
        push(2, 1),
    ];
    show_all(rt, l, &pushes)
}

pub(crate) fn all(rt: &impl Print) -> io::Result<()> {
    let l = pushed(rt, reported(rt, grown(rt)?)?)?;
    print!(rt; "joined as by hand:")?;
    for (x, by_hand) in [
        (l.nodes[1], finds(5, 7, 2)),
        (l.nodes[2], finds(8, 1, 4)),
        (l.nodes[0], finds(15, 5, 4)),
    ] {
        print!(rt; " {}", Shown(x.joined == by_hand))?;
    }
    println!(rt)
}
