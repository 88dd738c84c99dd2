// Program 2, line by line: what a search remembers, where it goes after the last node, and what a refusal makes it forget. A record may
// remember anything at all.
use crate::cases::{at, each};
use crate::ledgers::{claimed, expanded, opened, owned, stolen};
use std::io;
use steps::{Memory, Place, Program, Team};

fn with(place: Place, node: u32, memory: Memory) -> Team {
    Team {
        program: Program::Greatest,
        memory,
        ..at(place, node)
    }
}

fn free(node: u32, rest: u32) -> Memory {
    Memory::Free { node, rest }
}

fn held(node: u32, rest: u32, position: u32) -> Memory {
    Memory::Held {
        node,
        rest,
        position,
    }
}

fn seek(node: u32, memory: Memory) -> Team {
    with(Place::Seek, node, memory)
}

// AVAILABLE, OWNED by another, by the team itself, COMPLETED, EXPANDED. Then less than what is seen, as much, and more: on equal rests what was
// seen first stays. A STOLEN node is split at once. After the last node the team goes to what it remembers, as it was seen.
fn remembers(rt: &impl Print) -> io::Result<()> {
    let cases = [
        (opened(7), 1, seek(1, Memory::Nothing)),
        (claimed(7, 6), 2, seek(1, Memory::Nothing)),
        (owned(7), 1, seek(1, Memory::Nothing)),
        (claimed(7, 8), 2, seek(1, Memory::Nothing)),
        (expanded(), 2, seek(1, Memory::Nothing)),
        (expanded(), 2, seek(3, free(2, 2))),
        (expanded(), 2, seek(3, free(2, 3))),
        (expanded(), 2, seek(3, held(2, 4, 0))),
        (claimed(7, 6), 2, seek(1, free(9, 1))),
        (claimed(7, 6), 2, seek(1, free(9, 2))),
        (stolen(), 2, seek(1, free(9, 1))),
        (opened(7), 1, seek(2, Memory::Nothing)),
        (opened(7), 1, seek(2, free(1, 8))),
        (claimed(7, 6), 2, seek(2, held(1, 5, 3))),
    ];
    each(rt, "greatest: seek", &cases)
}

// The own and the mark that follow: granted, and refused by 5, 10 and 14.
fn forgets(rt: &impl Print) -> io::Result<()> {
    let cases = [
        (opened(7), 1, with(Place::Take, 1, free(1, 8))),
        (owned(7), 2, with(Place::Take, 1, free(1, 8))),
        (claimed(7, 2), 2, with(Place::Mark, 1, held(1, 6, 2))),
        (claimed(7, 3), 2, with(Place::Mark, 1, held(1, 6, 2))),
        (claimed(2, 2), 2, with(Place::Mark, 1, held(1, 6, 2))),
    ];
    each(rt, "greatest: take and mark", &cases)
}

// Nodes that are none, and numbers past every limit.
fn anything(rt: &impl Print) -> io::Result<()> {
    let cases = [
        (opened(7), 1, seek(2, free(0, 0))),
        (opened(7), 1, seek(2, free(u32::MAX, u32::MAX))),
        (opened(7), 1, seek(2, held(u32::MAX, u32::MAX, u32::MAX))),
        (opened(7), 1, seek(1, held(0, u32::MAX, 7))),
        (opened(7), 1, seek(1024, free(7, 1))),
        (opened(7), 1, seek(1025, free(1, 8))),
    ];
    each(rt, "greatest: anything remembered", &cases)
}

pub(crate) fn all(rt: &impl Print) -> io::Result<()> {
    remembers(rt)?;
    forgets(rt)?;
    anything(rt)
}
