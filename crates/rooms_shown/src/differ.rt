// The three exceptions, each in both orders.
use rules::{Ledger, Request};
use shown::Shown;
use shown::asks::{advance, expand, mark, push, report};
use shown::tables::{after, owned};
use std::io;

// The calls of two rooms, the first one first.
fn in_order(rt: &impl Print, l: Ledger, calls: [(&str, Request); 2]) -> io::Result<Ledger> {
    let [(first, r), (then, s)] = calls;
    let one = ledger::request(l, r);
    let two = ledger::request(one.ledger, s);
    println!(rt;
        "{first} hears {}, then {then} hears {}",
        Shown(one.answer),
        Shown(two.answer)
    )?;
    Ok(two.ledger)
}

fn both_orders(rt: &impl Print, l: Ledger, one: Request, other: Request) -> io::Result<()> {
    let a = in_order(rt, l, [("room 1", one), ("room 2", other)])?;
    let b = in_order(rt, l, [("room 2", other), ("room 1", one)])?;
    println!(rt; "same ledger {}", Shown(a == b))
}

// Both children are STOLEN: who comes first gets the pair 4.
fn expands(rt: &impl Print) -> io::Result<()> {
    println!(rt; "two expands")?;
    let l = after(owned(7), &[mark(2, 2, 3), mark(1, 3, 5)]);
    both_orders(rt, l, expand(2, 2), expand(1, 3))
}

// Both children are OWNED, and there is room for one pair, with one slot more, and for two.
fn marks(rt: &impl Print) -> io::Result<()> {
    for nodes in 5..=7 {
        println!(rt; "two marks, nodes {nodes}")?;
        both_orders(rt, owned(nodes), mark(2, 2, 3), mark(1, 3, 5))?;
    }
    Ok(())
}

// Both children are at their ends and reported, and so is their parent; the right one is pushed. Room 1 pushes the parent, room 2 the left child.
fn pushes(rt: &impl Print) -> io::Result<()> {
    println!(rt; "a push of a parent and of its child")?;
    let requests = [
        advance(1, 2, 3, 2),
        advance(2, 3, 5, 3),
        report(1, 1, 2, 6, 4),
        report(1, 2, 0, 0, 0),
        report(2, 3, 3, 1, 9),
        push(1, 3),
    ];
    both_orders(rt, after(owned(5), &requests), push(2, 1), push(1, 2))
}

pub(crate) fn all(rt: &impl Print) -> io::Result<()> {
    expands(rt)?;
    marks(rt)?;
    pushes(rt)
}
