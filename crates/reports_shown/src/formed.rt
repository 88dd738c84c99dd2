// The rules of a node's report, each broken by itself. Rule 0 marks a well-formed ledger, to compare with.
use crate::ask::{new, root, rooted};
use crate::lines::report_in;
use rules::{Finds, Ledger, Node};
use shown::Shown;
use shown::tables::{NONE, finds, node, reported, with_node};
use std::io;

const UNREPORTED: u32 = Node::UNREPORTED;

const PREPARED: u32 = Node::PREPARED;

const PUSHED: u32 = Node::PUSHED;

// Prints the rule, a node of the ledger, and whether the ledger is well formed.
fn show(rt: &impl Print, rule: u32, l: Ledger, n: i32) -> io::Result<()> {
    println!(rt;
        "rule {rule}: {}, well formed {}",
        report_in(&l, n),
        Shown(forms::well_formed(l))
    )
}

// 14: "none, both results 0". 15: "prepared, an ended node, own result passing 33, joined 0".
fn unpushed(rt: &impl Print) -> io::Result<()> {
    let some = finds(3, 9, 1);
    let most = finds(u32::MAX, u32::MAX, u32::MAX);
    for (rule, progress, own, joined, stage) in [
        (0, 2, NONE, NONE, UNREPORTED),
        (14, 2, finds(0, 0, 1), NONE, UNREPORTED),
        (14, 5, some, NONE, UNREPORTED),
        (14, 5, NONE, finds(1, 0, 0), UNREPORTED),
        (0, 5, some, NONE, PREPARED),
        (0, -3, some, NONE, PREPARED),
        (15, 2, some, NONE, PREPARED),
        (15, 5, finds(1000001, 0, 0), NONE, PREPARED),
        (15, 5, finds(0, 1, 0), NONE, PREPARED),
        (15, 5, most, NONE, PREPARED),
        (15, 5, some, some, PREPARED),
    ] {
        let x = reported(root(progress), own, joined, stage);
        show(rt, rule, rooted(x), 1)?;
    }
    Ok(())
}

// 16: "pushed, own passing 33, joined the join, and 36 not given". 18: there is no stage past pushed.
fn lone(rt: &impl Print) -> io::Result<()> {
    let some = finds(3, 9, 1);
    for (rule, progress, own, joined, stage) in [
        (0, 5, some, some, PUSHED),
        (16, 5, some, NONE, PUSHED),
        (16, 5, some, finds(3, 1, 9), PUSHED),
        (16, 5, finds(0, 1, 0), NONE, PUSHED),
        (16, -3, some, some, PUSHED),
        (16, 2, NONE, NONE, PUSHED),
        (18, 5, some, some, PUSHED + 1),
        (18, 5, some, some, u32::MAX),
    ] {
        let x = reported(root(progress), own, joined, stage);
        show(rt, rule, rooted(x), 1)?;
    }
    Ok(())
}

// 17: "Empty nodes are made and stay pushed with both results 0".
fn empties(rt: &impl Print) -> io::Result<()> {
    for (rule, f, stage) in [
        (0, NONE, PUSHED),
        (17, NONE, UNREPORTED),
        (17, NONE, PREPARED),
        (17, finds(1, 2, 3), PUSHED),
    ] {
        let x = reported(nodes::fresh_node(0, 0), f, f, stage);
        show(rt, rule, with_node(new(0, 7), 1, x), 1)?;
    }
    Ok(())
}

// 0..5 split at 2, pushed with this joined result over children that are at their ends with these.
fn family(joined: Finds, left: Finds, right: Finds) -> Ledger {
    let x = nodes::parted_at(root(-3), 2);
    let mut l = rooted(reported(x, finds(2, 7, 8), joined, PUSHED));
    l.used = 3;
    l.nodes[1] = reported(node(2, 3, 3, 2, 0), left, left, PUSHED);
    l.nodes[2] = reported(node(3, 5, 5, 2, 0), right, right, PUSHED);
    l
}

// 16 of a parent. The sum of three counts of any size is taken whole: none of these joins wraps to a right one.
fn families(rt: &impl Print) -> io::Result<()> {
    let one = finds(1, 3, 4);
    let most = finds(u32::MAX, 5, 6);
    for (rule, joined, left, right) in [
        (0, finds(3, 7, 4), NONE, one),
        (0, finds(3, 7, 4), one, NONE),
        (16, finds(2, 7, 8), NONE, one),
        (16, finds(3, 3, 8), one, NONE),
        (16, finds(1, 7, 6), NONE, most),
        (16, finds(0, 7, 6), most, most),
    ] {
        show(rt, rule, family(joined, left, right), 1)?;
    }
    Ok(())
}

// 13 again: an unused slot is all 0, its report too.
fn unused(rt: &impl Print) -> io::Result<()> {
    let some = finds(0, 0, 1);
    for (n, own, joined, stage) in [
        (2, some, NONE, UNREPORTED),
        (2, NONE, some, UNREPORTED),
        (2, NONE, NONE, PUSHED),
        (1023, some, some, PREPARED),
    ] {
        let x = reported(nodes::blank_node(), own, joined, stage);
        show(rt, 13, with_node(new(5, 7), n, x), n)?;
    }
    Ok(())
}

pub(crate) fn all(rt: &impl Print) -> io::Result<()> {
    unpushed(rt)?;
    lone(rt)?;
    empties(rt)?;
    families(rt)?;
    unused(rt)
}
