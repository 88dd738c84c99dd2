// Refusals: each code from 2 on by itself, and each pair of tests that can hold at once.
use crate::ask::{show, test_all, tested};
use rules::Refusal::{
    AlreadySplit, Amount, Completed, HasOwner, IsOwner, NoOwner, NoRoom, NoSuchKind, NoSuchNode,
    NoSuchTeam, NotOwner, NotStolen, OldPosition, Stolen,
};
use rules::Request;
use shown::Tests::{One, Two};
use shown::asks::{advance, expand, look, mark, own};
use shown::tables::{after, opened, owned, rooted};
use std::io;

// A request of a kind that need not exist.
fn any(kind: i32, team: i32, node: i32) -> Request {
    Request {
        kind,
        ..look(team, node)
    }
}

// The tests of every request, on an untouched root 0..5 of two teams.
fn common(rt: &impl Print) -> io::Result<()> {
    let cases = [
        (One(NoSuchKind), any(0, 1, 1)),
        (One(NoSuchKind), any(8, 1, 1)),
        (One(NoSuchKind), any(i32::MIN, 1, 1)),
        (One(NoSuchKind), any(i32::MAX, 1, 1)),
        (One(NoSuchTeam), look(0, 1)),
        (One(NoSuchTeam), look(3, 1)),
        (One(NoSuchTeam), look(i32::MIN, 1)),
        (One(NoSuchTeam), look(i32::MAX, 1)),
        (One(NoSuchNode), look(1, 0)),
        (One(NoSuchNode), look(1, 2)),
        (One(NoSuchNode), look(1, -1)),
        (One(NoSuchNode), look(1, i32::MIN)),
        (One(NoSuchNode), look(1, i32::MAX)),
        (Two(NoSuchKind, NoSuchTeam), any(0, 0, 1)),
        (Two(NoSuchKind, NoSuchNode), any(0, 1, 0)),
        (Two(NoSuchTeam, NoSuchNode), look(0, 0)),
        (Two(NoSuchTeam, NotStolen), expand(3, 1)),
        (Two(NoSuchNode, Amount), advance(1, 2, 0, 0)),
        (Two(Amount, NotOwner), advance(1, 1, 0, 0)),
        (One(NoOwner), mark(2, 1, 0)),
        (One(NotStolen), expand(1, 1)),
    ];
    test_all(rt, opened(0, 5, 2, 7), &cases)?;
    test_all(rt, opened(0, 5, 32, 7), &[(One(NoSuchTeam), own(33, 1))])
}

// Own, on 0..5 at a progress of team 1.
fn owns(rt: &impl Print) -> io::Result<()> {
    for (tests, progress, team) in [
        (One(HasOwner), 0, 2),
        (One(HasOwner), 0, 1),
        (One(HasOwner), -1, 2),
        (Two(HasOwner, Completed), 5, 2),
    ] {
        tested(rt, tests, rooted(5, 7, progress, 1), own(team, 1))?;
    }
    test_all(rt, opened(5, 5, 2, 7), &[(One(Completed), own(2, 1))])
}

// Advance, on 0..5 at a progress of team 1.
fn advances(rt: &impl Print) -> io::Result<()> {
    for (tests, progress, r) in [
        (One(Amount), 2, advance(1, 1, 2, 0)),
        (One(Amount), 2, advance(1, 1, 2, 4097)),
        (One(Amount), 2, advance(1, 1, 2, -1)),
        (One(Amount), 2, advance(1, 1, 2, i32::MIN)),
        (One(Amount), 2, advance(1, 1, 2, i32::MAX)),
        (One(NotOwner), 2, advance(2, 1, 2, 1)),
        (One(Stolen), -3, advance(1, 1, -3, 1)),
        (One(Completed), 5, advance(1, 1, 5, 1)),
        (One(OldPosition), 2, advance(1, 1, 1, 1)),
        (One(OldPosition), 2, advance(1, 1, 3, 1)),
        (One(OldPosition), 2, advance(1, 1, -3, 1)),
        (One(OldPosition), 0, advance(1, 1, -1, 1)),
        (One(OldPosition), 2, advance(1, 1, i32::MIN, 1)),
        (One(OldPosition), 2, advance(1, 1, i32::MAX, 1)),
        (Two(Amount, NotOwner), 2, advance(2, 1, 2, 0)),
        (Two(Amount, Stolen), -3, advance(1, 1, -3, 0)),
        (Two(Amount, Completed), 5, advance(1, 1, 5, 0)),
        (Two(Amount, OldPosition), 2, advance(1, 1, 3, 0)),
        (Two(NotOwner, Stolen), -3, advance(2, 1, -3, 1)),
        (Two(NotOwner, Completed), 5, advance(2, 1, 5, 1)),
        (Two(NotOwner, OldPosition), 2, advance(2, 1, 3, 1)),
        (Two(Stolen, OldPosition), -3, advance(1, 1, 2, 1)),
        (Two(Completed, OldPosition), 5, advance(1, 1, 4, 1)),
    ] {
        tested(rt, tests, rooted(5, 7, progress, 1), r)?;
    }
    test_all(
        rt,
        opened(0, 5, 2, 7),
        &[(One(NotOwner), advance(1, 1, 0, 1))],
    )
}

// Mark, on 0..5 at a progress of team 1, in a table of so many nodes.
fn marks(rt: &impl Print) -> io::Result<()> {
    for (tests, nodes, progress, r) in [
        (One(IsOwner), 7, 2, mark(1, 1, 2)),
        (One(Stolen), 7, -3, mark(2, 1, -3)),
        (One(Completed), 7, 5, mark(2, 1, 5)),
        (One(OldPosition), 7, 2, mark(2, 1, 1)),
        (One(OldPosition), 7, 2, mark(2, 1, 3)),
        (One(OldPosition), 7, 0, mark(2, 1, -1)),
        (One(OldPosition), 7, 2, mark(2, 1, i32::MIN)),
        (One(OldPosition), 7, 2, mark(2, 1, i32::MAX)),
        (One(NoRoom), 1, 2, mark(2, 1, 2)),
        (One(NoRoom), 2, 2, mark(2, 1, 2)),
        (One(NoRoom), 2, 4, mark(2, 1, 4)),
    ] {
        tested(rt, tests, rooted(5, nodes, progress, 1), r)?;
    }
    show(rt, rooted(5, 3, 2, 1), mark(2, 1, 2))?;
    Ok(())
}

// Two tests at once, on the same, and on roots that nobody owns.
fn mark_order(rt: &impl Print) -> io::Result<()> {
    for (tests, l, r) in [
        (Two(IsOwner, Stolen), rooted(5, 7, -3, 1), mark(1, 1, -3)),
        (Two(IsOwner, Completed), rooted(5, 7, 5, 1), mark(1, 1, 5)),
        (Two(IsOwner, OldPosition), rooted(5, 7, 2, 1), mark(1, 1, 3)),
        (Two(IsOwner, NoRoom), rooted(5, 2, 2, 1), mark(1, 1, 2)),
        (Two(Stolen, OldPosition), rooted(5, 7, -3, 1), mark(2, 1, 3)),
        (Two(Stolen, NoRoom), rooted(5, 3, -3, 1), mark(2, 1, -3)),
        (
            Two(Completed, OldPosition),
            rooted(5, 7, 5, 1),
            mark(2, 1, 4),
        ),
        (Two(Completed, NoRoom), rooted(5, 2, 5, 1), mark(2, 1, 5)),
        (Two(OldPosition, NoRoom), rooted(5, 2, 2, 1), mark(2, 1, 3)),
        (Two(NoOwner, Completed), opened(5, 5, 2, 7), mark(2, 1, 5)),
        (Two(NoOwner, OldPosition), opened(0, 5, 2, 7), mark(2, 1, 1)),
        (Two(NoOwner, NoRoom), opened(0, 5, 2, 2), mark(2, 1, 0)),
    ] {
        tested(rt, tests, l, r)?;
    }
    Ok(())
}

// With one team nothing is marked: its only team is the owner.
fn alone(rt: &impl Print) -> io::Result<()> {
    let cases = [
        (One(IsOwner), mark(1, 1, 0)),
        (One(NoSuchTeam), mark(2, 1, 0)),
        (One(NotStolen), expand(1, 1)),
    ];
    test_all(rt, after(opened(0, 5, 1, 7), &[own(1, 1)]), &cases)
}

// A STOLEN node counts for the two slots that its split will take.
fn slots(rt: &impl Print) -> io::Result<()> {
    let stolen = show(rt, owned(5), mark(1, 3, 5))?;
    tested(rt, One(NoRoom), stolen, mark(2, 2, 3))?;
    let split = show(rt, stolen, expand(1, 3))?;
    let cases = [
        (One(NoRoom), mark(2, 2, 3)),
        (One(NotStolen), expand(1, 2)),
        (One(AlreadySplit), expand(1, 3)),
        (Two(Stolen, NoRoom), mark(2, 1, -4)),
    ];
    test_all(rt, split, &cases)
}

fn expands(rt: &impl Print) -> io::Result<()> {
    for progress in [2, 5] {
        tested(rt, One(NotStolen), rooted(5, 7, progress, 1), expand(1, 1))?;
    }
    let cases = [
        (One(AlreadySplit), expand(2, 1)),
        (One(Stolen), advance(1, 1, -4, 1)),
        (One(HasOwner), own(2, 1)),
        (Two(IsOwner, Stolen), mark(1, 1, -4)),
    ];
    test_all(rt, owned(7), &cases)
}

pub(crate) fn all(rt: &impl Print) -> io::Result<()> {
    common(rt)?;
    owns(rt)?;
    advances(rt)?;
    marks(rt)?;
    mark_order(rt)?;
    alone(rt)?;
    slots(rt)?;
    expands(rt)
}
