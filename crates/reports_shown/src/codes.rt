// Each code of a report and of a push by itself, and each two of a list that can hold at once.
use crate::ask::{root, rooted, tested};
use rules::Refusal::{
    NoReport, NoSuchKind, NoSuchNode, NoSuchTeam, NotEnded, NotFormed, NotOwner, NotReady, Pushed,
    Reported, Result,
};
use rules::{Finds, Kind, Ledger, Node, Request};
use shown::Tests::{Granted, One, Two};
use shown::asks::{look, push, report};
use shown::tables::{finds, node};
use std::io;

// 0..5 to its end, and STOLEN at 2; prepared with three finds, and pushed.
fn done() -> Node {
    root(5)
}

fn stolen() -> Node {
    root(-3)
}

fn prepared(x: Node) -> Node {
    nodes::reported_by(x, finds(3, 9, 1))
}

fn pushed() -> Node {
    alone(prepared(done()))
}

// A node without children, pushed.
fn alone(x: Node) -> Node {
    nodes::pushed_by(x, x, x)
}

// 33, at each of its limits.
fn amounts(rt: &impl Print) -> io::Result<()> {
    let over = Finds::MOST as i32 + 1;
    let most = Finds::MOST as i32;
    for (tests, count, first, last) in [
        (Granted, 0, 0, 0),
        (Granted, most, most, most),
        (Granted, 1, 9, 2),
        (One(Result), over, 0, 0),
        (One(Result), 1, over, 0),
        (One(Result), 1, 0, over),
        (One(Result), -1, 0, 0),
        (One(Result), 1, -1, 0),
        (One(Result), 1, 0, -1),
        (One(Result), 0, 1, 0),
        (One(Result), 0, 0, 1),
        (One(Result), i32::MIN, 0, 0),
        (One(Result), i32::MAX, i32::MIN, i32::MAX),
    ] {
        tested(rt, tests, rooted(done()), report(1, 1, count, first, last))?;
    }
    Ok(())
}

// The order 8, 31, 32, 33. A node that is reported has ended, so 31 and 32 never hold at once.
fn reports(rt: &impl Print) -> io::Result<()> {
    let fresh = nodes::fresh_node(0, 5);
    for (tests, x, r) in [
        (One(NotOwner), done(), report(2, 1, 0, 0, 0)),
        (Two(NotOwner, NotEnded), fresh, report(1, 1, 0, 0, 0)),
        (Two(NotOwner, NotEnded), root(2), report(2, 1, 0, 0, 0)),
        (
            Two(NotOwner, Reported),
            prepared(done()),
            report(2, 1, 0, 0, 0),
        ),
        (Two(NotOwner, Result), done(), report(2, 1, -1, 0, 0)),
        (One(NotEnded), root(0), report(1, 1, 0, 0, 0)),
        (One(NotEnded), root(4), report(1, 1, 0, 0, 0)),
        (Two(NotEnded, Result), root(2), report(1, 1, 0, 1, 0)),
        (One(Reported), prepared(done()), report(1, 1, 3, 9, 1)),
        (One(Reported), prepared(stolen()), report(1, 1, 0, 0, 0)),
        (One(Reported), pushed(), report(1, 1, 0, 0, 0)),
        (
            Two(Reported, Result),
            prepared(done()),
            report(1, 1, -1, 0, 0),
        ),
    ] {
        tested(rt, tests, rooted(x), r)?;
    }
    Ok(())
}

// The order 34, 35, 36. A node that is pushed has no report to push, so 35 holds with every 34; and it was ready, so 36 does not.
fn pushes(rt: &impl Print) -> io::Result<()> {
    for (tests, x, team) in [
        (Two(Pushed, NoReport), pushed(), 2),
        (One(NoReport), done(), 1),
        (Two(NoReport, NotReady), stolen(), 1),
        (Two(NoReport, NotReady), root(2), 1),
        (Two(NoReport, NotReady), nodes::fresh_node(0, 5), 2),
        (One(NotReady), prepared(stolen()), 1),
        (Granted, prepared(done()), 2),
    ] {
        tested(rt, tests, rooted(x), push(team, 1))?;
    }
    Ok(())
}

// 0..5 split at 2, with its children 2..3 and 3..5 at their ends and at these stages.
fn split(left: Node, right: Node) -> Ledger {
    let mut l = rooted(nodes::parted_at(prepared(stolen()), 2));
    l.used = 3;
    l.nodes[1] = left;
    l.nodes[2] = right;
    l
}

// 36 of a parent: neither child, the left alone, the right alone, and both.
fn waits(rt: &impl Print) -> io::Result<()> {
    let left = nodes::reported_by(node(2, 3, 3, 2, 0), finds(1, 3, 2));
    let right = nodes::reported_by(node(3, 5, 5, 2, 0), finds(1, 5, 3));
    for (tests, left, right) in [
        (One(NotReady), left, right),
        (One(NotReady), alone(left), right),
        (One(NotReady), left, alone(right)),
        (Granted, alone(left), alone(right)),
    ] {
        tested(rt, tests, split(left, right), push(1, 1))?;
    }
    Ok(())
}

// What every request tests comes first: 1, 2, 3, 4.
fn common(rt: &impl Print) -> io::Result<()> {
    let past = i32::from(Kind::Push) + 1;
    for (tests, x, r) in [
        (Two(NotFormed, NotOwner), root(6), report(2, 1, 0, 0, 0)),
        (Two(NotFormed, NoReport), root(6), push(1, 1)),
        (
            One(NoSuchKind),
            done(),
            Request {
                kind: past,
                ..look(1, 1)
            },
        ),
        (Two(NoSuchTeam, NotOwner), done(), report(3, 1, 0, 0, 0)),
        (Two(NoSuchTeam, NoReport), done(), push(0, 1)),
        (One(NoSuchNode), done(), report(1, 2, 0, 0, 0)),
        (One(NoSuchNode), done(), push(1, 0)),
    ] {
        tested(rt, tests, rooted(x), r)?;
    }
    Ok(())
}

pub(crate) fn all(rt: &impl Print) -> io::Result<()> {
    amounts(rt)?;
    reports(rt)?;
    pushes(rt)?;
    waits(rt)?;
    common(rt)
}
