// Ledgers of two teams to step on. The root has 0..8; team 1 takes it, and team 2 steals from it.
use rules::Ledger;
use shown::asks::{advance, expand, mark, own};
use shown::tables;
use shown::tables::after;

pub(crate) fn opened(nodes: i32) -> Ledger {
    tables::opened(0, 8, 2, nodes)
}

// Team 1 owns the root.
pub(crate) fn owned(nodes: i32) -> Ledger {
    after(opened(nodes), &[own(1, 1)])
}

// And has claimed this many of its sheets.
pub(crate) fn claimed(nodes: i32, sheets: i32) -> Ledger {
    after(owned(nodes), &[advance(1, 1, 0, sheets)])
}

// Team 2 has marked it at 2.
pub(crate) fn stolen() -> Ledger {
    after(claimed(7, 2), &[mark(2, 1, 2)])
}

// Team 2 has marked it at its last sheet, and split it in 7..7 and 7..8.
pub(crate) fn last_split() -> Ledger {
    after(claimed(7, 7), &[mark(2, 1, 7), expand(2, 1)])
}

// The one marked at 2 is split in 2..5 and 5..8.
pub(crate) fn expanded() -> Ledger {
    after(stolen(), &[expand(2, 1)])
}
