// The twelve examples of document 01, by their letters.
use crate::ask::{show, show_all};
use shown::asks::{advance, expand, look, mark, own};
use shown::tables::{after, opened, owned, rooted};
use std::io;

// Those that stand on a ledger of their own.
fn by_one(rt: &impl Print) -> io::Result<()> {
    let wide = |progress| rooted(i32::MAX, 7, progress, 1);
    for (letter, l, r) in [
        ("a", opened(0, 0, 2, 7), own(1, 1)),
        ("b", wide(0), advance(1, 1, 0, 4096)),
        ("c", wide(2147483645), advance(1, 1, 2147483645, 4096)),
        ("e", wide(2147483645), mark(2, 1, 2147483645)),
        ("f", wide(2147483646), mark(2, 1, 2147483646)),
        ("h", rooted(5, 2, 0, 1), mark(2, 1, 0)),
        ("i", after(owned(5), &[mark(1, 3, 5)]), mark(2, 2, 3)),
        ("k", rooted(5, 7, 0, 1), advance(2, 1, 0, 0)),
    ] {
        print!(rt; "{letter}: ")?;
        show(rt, l, r)?;
    }
    Ok(())
}

// (j) and (l) are asked of the ledger that (d) leaves.
fn marked(rt: &impl Print) -> io::Result<()> {
    let mut l = rooted(2, 7, 0, 1);
    for (letter, r) in [
        ("d", mark(2, 1, 0)),
        ("j", advance(1, 1, 0, 1)),
        ("l", mark(1, 1, 0)),
    ] {
        print!(rt; "{letter}: ")?;
        l = show(rt, l, r)?;
    }
    Ok(())
}

// (g), and then a look at the two children.
fn halves(rt: &impl Print) -> io::Result<()> {
    print!(rt; "g: ")?;
    show_all(
        rt,
        rooted(8, 7, -4, 1),
        &[expand(2, 1), look(1, 2), look(1, 3)],
    )?;
    Ok(())
}

pub(crate) fn all(rt: &impl Print) -> io::Result<()> {
    by_one(rt)?;
    marked(rt)?;
    halves(rt)
}
