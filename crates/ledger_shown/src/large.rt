// The largest table: the widest range of 32 teams, split node after node until all 1,023 nodes are in use.
use crate::ask::show_all;
use rules::{Answered, Ledger};
use shown::asks::{advance, expand, look, mark, own};
use shown::tables::{after, opened};
use std::io;

// Team 1 owns the node, team 32 marks it where it begins, and splits it.
fn parted(l: Ledger, n: i32) -> Ledger {
    let Answered { ledger, answer } = ledger::request(l, own(1, n));
    let start = numbers::to_signed(answer.from);
    after(ledger, &[mark(32, n, start), expand(32, n)])
}

pub(crate) fn all(rt: &impl Print) -> io::Result<()> {
    let l = (1..=511).fold(opened(0, i32::MAX, 32, 1023), parted);
    let requests = [
        look(32, 1),
        look(1, 511),
        look(1, 512),
        look(1, 1023),
        look(1, 1024),
        own(31, 1023),
        mark(32, 1023, 2143289343),
        advance(31, 1023, 2143289343, 4096),
        expand(1, 511),
        expand(1, 1023),
    ];
    show_all(rt, l, &requests)?;
    Ok(())
}
