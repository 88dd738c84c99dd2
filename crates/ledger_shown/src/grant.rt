// Granted requests: each kind, look in each of the five states, and the ends of a range.
use crate::ask::{show, show_all, tested};
use rules::{Refusal, Request};
use shown::Tests;
use shown::asks::{advance, expand, look, mark, own};
use shown::tables::{opened, rooted};
use std::io;

// One ledger through every state of its root, and of its children.
fn states(rt: &impl Print) -> io::Result<()> {
    let requests = [
        look(1, 1),
        own(1, 1),
        look(2, 1),
        advance(1, 1, 0, 2),
        advance(1, 1, 2, 1),
        mark(2, 1, 3),
        look(1, 1),
        expand(2, 1),
        look(1, 1),
        look(1, 2),
        look(1, 3),
        own(1, 2),
        own(2, 3),
        advance(1, 2, 3, 4096),
        look(2, 2),
        advance(2, 3, 5, 2),
        advance(2, 3, 7, 1),
        look(2, 3),
    ];
    show_all(rt, opened(0, 8, 2, 7), &requests)?;
    Ok(())
}

// The last sheet of a silent laptop: the mark is granted, the left node is empty, COMPLETED and nobody's, and the right one has the sheet.
fn last_sheet(rt: &impl Print) -> io::Result<()> {
    let requests = [mark(2, 1, 4), expand(2, 1), look(2, 2)];
    let mut l = show_all(rt, rooted(5, 7, 4, 1), &requests)?;
    l = tested(rt, Tests::One(Refusal::Completed), l, own(2, 2))?;
    show_all(rt, l, &[own(2, 3), advance(2, 3, 4, 1)])?;
    Ok(())
}

// Fields that a kind does not read may hold anything.
fn unread(rt: &impl Print) -> io::Result<()> {
    let low = i32::MIN;
    let high = i32::MAX;
    let requests = [
        Request {
            position: low,
            amount: low,
            ..own(1, 1)
        },
        Request {
            amount: low,
            ..mark(2, 1, 0)
        },
        Request {
            position: low,
            amount: high,
            ..expand(1, 1)
        },
        Request {
            position: high,
            amount: low,
            ..look(1, 1)
        },
    ];
    show_all(rt, opened(0, 2, 2, 3), &requests)?;
    Ok(())
}

// At 0, at until - 1 and at until - 2; a range of one sheet and an empty one; and team 32.
fn ends(rt: &impl Print) -> io::Result<()> {
    for (progress, r) in [
        (0, advance(1, 1, 0, 1)),
        (2147479551, advance(1, 1, 2147479551, 4096)),
        (2147483646, advance(1, 1, 2147483646, 4096)),
        (0, mark(2, 1, 0)),
        (2147483645, mark(2, 1, 2147483645)),
        (2147483646, mark(2, 1, 2147483646)),
        (-1, expand(2, 1)),
        (-2147483646, expand(2, 1)),
        (-2147483647, expand(2, 1)),
        (-2147483646, look(2, 1)),
    ] {
        show(rt, rooted(i32::MAX, 7, progress, 1), r)?;
    }
    show(rt, opened(2147483646, 2147483647, 1, 1), own(1, 1))?;
    show(rt, opened(2147483647, 2147483647, 1, 1), look(1, 1))?;
    show(rt, opened(0, 5, 32, 7), own(32, 1))?;
    Ok(())
}

pub(crate) fn all(rt: &impl Print) -> io::Result<()> {
    states(rt)?;
    last_sheet(rt)?;
    unread(rt)?;
    ends(rt)
}
