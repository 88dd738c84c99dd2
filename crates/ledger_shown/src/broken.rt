// Ledgers that are not well formed. The rules are numbered from 1 to 13 in the order of document 01; where the others allow it, only that one
// is broken. Rule 0 marks a well-formed ledger, to compare with.
use crate::ask::test_all;
use crate::lines::{Count, node_in};
use rules::Refusal::{
    Amount, HasOwner, IsOwner, NoSuchKind, NoSuchNode, NoSuchTeam, NotFormed, NotStolen,
};
use rules::{Ledger, Node, Request};
use shown::Shown;
use shown::Tests::Two;
use shown::asks::{advance, expand, look, mark, own};
use shown::tables::{node, opened, owned, rooted, with_node};
use std::io;

// Prints the number of the rule that is broken, 0 for none, the ledger's numbers and a node of it, whether it is well formed, what a look
// answers, and the count.
fn show(rt: &impl Print, rule: u32, l: Ledger, n: i32) -> io::Result<()> {
    println!(rt;
        "rule {rule}: ledger {}, {}: well formed {}, answer {}, count {}",
        Shown(&l),
        node_in(&l, n),
        Shown(forms::well_formed(l)),
        Shown(ledger::request(l, look(1, 1)).answer),
        Count(&l)
    )
}

// Shows a ledger with another node n.
fn show_with(rt: &impl Print, rule: u32, l: Ledger, n: i32, x: Node) -> io::Result<()> {
    show(rt, rule, with_node(l, n, x), n)
}

// 1: "opening limits hold". 2: "the used count is odd, from 1 to nodes".
fn numbered(rt: &impl Print) -> io::Result<()> {
    for (rule, start, until, teams, room, used) in [
        (1, 6, 5, 2, 7, 1),
        (1, 0, 2147483648, 2, 7, 1),
        (1, 0, u32::MAX, 2, 7, 1),
        (1, u32::MAX, u32::MAX, 2, 7, 1),
        (1, 0, 5, 0, 7, 1),
        (1, 0, 5, 33, 7, 1),
        (1, 0, 5, u32::MAX, 7, 1),
        (1, 0, 5, 2, 0, 1),
        (1, 0, 5, 2, 1024, 1),
        (1, 0, 5, 2, u32::MAX, 1),
        (2, 0, 0, 2, 7, 0),
        (2, 0, 5, 2, 7, 2),
        (2, 0, 5, 2, 1, 3),
        (2, 0, 5, 2, 1023, 1025),
        (2, 0, 5, 2, 1023, u32::MAX),
    ] {
        let blank = opened(0, 0, 1, 1);
        let l = Ledger {
            start,
            until,
            teams,
            room,
            used,
            ..blank
        };
        show_with(rt, rule, l, 1, nodes::fresh_node(start, until))?;
    }
    Ok(())
}

// 2..5 of two teams, with another root. 3: "the root has the ledger's range". 4: "each progress lies in start..until, or is negative with
// position from start to until - 1". 5: "owners are 0..teams". 6: "an unowned node has progress = start".
fn roots(rt: &impl Print) -> io::Result<()> {
    for (rule, start, until, progress, owner) in [
        (3, 3, 5, 3, 0),
        (3, 2, 4, 2, 0),
        (4, 2, 5, 6, 1),
        (4, 2, 5, 1, 1),
        (4, 2, 5, -2, 1),
        (0, 2, 5, -4, 1),
        (0, 2, 5, -5, 1),
        (4, 2, 5, -6, 1),
        (4, 2, 5, i32::MAX, 1),
        (4, 2, 5, i32::MIN, 1),
        (5, 2, 5, 2, 3),
        (5, 2, 5, 2, u32::MAX),
        (6, 2, 5, 3, 0),
        (6, 2, 5, 5, 0),
        (6, 2, 5, -3, 0),
    ] {
        let root = node(start, until, progress, owner, 0);
        show_with(rt, rule, opened(2, 5, 2, 7), 1, root)?;
    }
    Ok(())
}

// 7: "an empty node has no owner". 11: "used + 2 x (STOLEN nodes) <= nodes". 12: "with one team nothing is negative". And 4 again, at the
// ends of the widest range.
fn lone(rt: &impl Print) -> io::Result<()> {
    show(rt, 7, rooted(0, 7, 0, 1), 1)?;
    show(rt, 11, rooted(5, 2, -1, 1), 1)?;
    show_with(rt, 12, opened(0, 5, 1, 7), 1, node(0, 5, -1, 1, 0))?;
    show(rt, 4, rooted(i32::MAX, 7, i32::MIN, 1), 1)?;
    show(rt, 0, rooted(i32::MAX, 7, -i32::MAX, 1), 1)?;
    let one = with_node(owned(5), 2, node(3, 5, -4, 1, 0));
    show(rt, 0, one, 2)?;
    show_with(rt, 11, one, 3, node(5, 8, -6, 2, 0))
}

// 0..8 split at 3, with another node n. 8: "children exist only under negative progress, and have the ranges given by expand". 9: "left is
// even, greater than its parent's number and below the used count". 10: "each even number below the used count is left child of exactly one
// node".
fn families(rt: &impl Print) -> io::Result<()> {
    for (rule, n, x) in [
        (0, 1, node(0, 8, -4, 1, 2)),
        (8, 1, node(0, 8, 3, 1, 2)),
        (8, 2, node(0, 5, 3, 1, 0)),
        (8, 2, node(4, 5, 4, 1, 0)),
        (8, 2, node(3, 4, 3, 1, 0)),
        (8, 3, node(6, 8, 6, 2, 0)),
        (8, 3, node(5, 7, 5, 2, 0)),
        (9, 1, node(0, 8, -4, 1, 3)),
        (9, 2, node(3, 5, -4, 1, 2)),
        (9, 3, node(5, 8, -6, 2, 1)),
        (9, 3, node(5, 8, -6, 2, 4)),
        (9, 3, node(5, 8, -6, 2, u32::MAX)),
        (10, 1, node(0, 8, -4, 1, 0)),
        (10, 3, node(5, 8, -6, 2, 2)),
    ] {
        show_with(rt, rule, owned(7), n, x)?;
    }
    Ok(())
}

// 9 by itself: the children of 1 are 4 and 5, and those of 5 are 2 and 3.
fn crossed(rt: &impl Print) -> io::Result<()> {
    let mut l = owned(7);
    l.used = 5;
    l.nodes[0] = node(0, 8, -4, 1, 4);
    l.nodes[3] = node(3, 5, 3, 1, 0);
    l.nodes[4] = node(5, 8, -6, 2, 2);
    l.nodes[1] = node(5, 6, 5, 0, 0);
    l.nodes[2] = node(6, 8, 6, 0, 0);
    show(rt, 9, l, 5)
}

// 13: "unused slots are all 0", those past the table room too.
fn unused(rt: &impl Print) -> io::Result<()> {
    for (n, x) in [
        (4, node(1, 0, 0, 0, 0)),
        (4, node(0, 1, 0, 0, 0)),
        (4, node(0, 0, 1, 0, 0)),
        (4, node(0, 0, -1, 0, 0)),
        (4, node(0, 0, 0, 1, 0)),
        (4, node(0, 0, 0, 0, 1)),
        (8, node(0, 1, 0, 0, 0)),
        (1023, node(0, 0, i32::MIN, 0, 0)),
    ] {
        let slot = Node {
            stage: Node::UNREPORTED,
            ..x
        };
        show_with(rt, 13, owned(7), n, slot)?;
    }
    Ok(())
}

// 1 comes before every other code.
fn first(rt: &impl Print) -> io::Result<()> {
    let cases = [
        (
            Two(NotFormed, NoSuchKind),
            Request {
                kind: 0,
                ..look(1, 1)
            },
        ),
        (Two(NotFormed, NoSuchTeam), look(0, 1)),
        (Two(NotFormed, NoSuchNode), look(1, 0)),
        (Two(NotFormed, HasOwner), own(2, 1)),
        (Two(NotFormed, Amount), advance(1, 1, 6, 0)),
        (Two(NotFormed, IsOwner), mark(1, 1, 6)),
        (Two(NotFormed, NotStolen), expand(1, 1)),
    ];
    test_all(rt, rooted(5, 7, 6, 1), &cases)
}

pub(crate) fn all(rt: &impl Print) -> io::Result<()> {
    numbered(rt)?;
    roots(rt)?;
    lone(rt)?;
    families(rt)?;
    crossed(rt)?;
    unused(rt)?;
    first(rt)
}
