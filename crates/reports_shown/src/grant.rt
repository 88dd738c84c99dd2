// What is granted: a report on a STOLEN node, which survives the split; empty nodes, which are pushed by themselves; and fields that a kind
// does not read.
use crate::ask::{new, root, rooted, show_all};
use rules::Request;
use shown::asks::{advance, expand, mark, own, push, report};
use std::io;

// Team 1 reports what it did before team 2 stole the rest. The split keeps the report, and only the push needs the children.
fn survives(rt: &impl Print) -> io::Result<()> {
    let requests = [
        mark(2, 1, 2),
        report(1, 1, 2, 7, 8),
        push(1, 1),
        expand(2, 1),
        push(1, 1),
        report(1, 1, 0, 0, 0),
    ];
    show_all(rt, rooted(root(2)), &requests)?;
    Ok(())
}

// An EXPANDED node reports too.
fn late(rt: &impl Print) -> io::Result<()> {
    let requests = [mark(2, 1, 2), expand(2, 1), report(1, 1, 2, 7, 8)];
    show_all(rt, rooted(root(2)), &requests)?;
    Ok(())
}

// An empty root is pushed when it is opened: nobody owns it, so nobody reports.
fn empty_root(rt: &impl Print) -> io::Result<()> {
    show_all(rt, new(0, 7), &[push(1, 1), report(1, 1, 0, 0, 0)])?;
    Ok(())
}

// The last sheet of a node, stolen: its left part is empty and made pushed, so the parent waits for the right one alone.
fn empty_part(rt: &impl Print) -> io::Result<()> {
    let requests = [
        mark(2, 1, 4),
        expand(2, 1),
        push(2, 2),
        report(1, 1, 1, 5, 5),
        push(1, 1),
        own(2, 3),
        advance(2, 3, 4, 1),
        report(2, 3, 2, 6, 4),
        push(1, 3),
        push(2, 1),
    ];
    show_all(rt, rooted(root(4)), &requests)?;
    Ok(())
}

// The request with anything in the fields that neither a claim nor a report reads.
fn littered(r: Request, count: i32) -> Request {
    Request {
        position: i32::MIN,
        amount: i32::MAX,
        count,
        first: i32::MIN,
        last: i32::MAX,
        ..r
    }
}

// A report and a push read no position and no amount, and the other kinds and a push read no result.
fn unread(rt: &impl Print) -> io::Result<()> {
    let requests = [
        littered(own(1, 1), i32::MIN),
        advance(1, 1, 0, 1),
        littered(report(1, 1, 0, 0, 0), 0),
        report(1, 1, 0, 0, 0),
        littered(push(1, 1), i32::MIN),
    ];
    show_all(rt, new(1, 3), &requests)?;
    Ok(())
}

pub(crate) fn all(rt: &impl Print) -> io::Result<()> {
    survives(rt)?;
    late(rt)?;
    empty_root(rt)?;
    empty_part(rt)?;
    unread(rt)
}
