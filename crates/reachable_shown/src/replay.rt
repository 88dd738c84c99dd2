// A history played through the public calls, and what comes out beside the ledger that it is of.
use crate::history;
use crate::lines::{Asked, Numbered};
use rules::{Answered, Ledger, Request};
use shown::Shown;
use std::io;

// A ledger on which requests are made, a line for each.
#[derive(Drop)]
pub(crate) struct Replay<'a, P: Print> {
    rt: &'a P,
    ledger: Ledger,
}

impl<P: Print> Replay<'_, P> {
    // Makes a request, and prints it with its code.
    pub(crate) fn ask(&mut self, r: Request) -> io::Result<()> {
        let Answered { ledger, answer } = ledger::request(self.ledger, r);
        self.ledger = ledger;
        println!(self.rt; "  {}: code {}", Asked(r), answer.code)
    }
}

// The nodes in use.
fn node_lines(rt: &impl Print, l: &Ledger) -> io::Result<()> {
    for (slot, x) in l.nodes.iter().enumerate().take(l.used as usize) {
        println!(rt; "  {}", Numbered(slot, *x))?;
    }
    Ok(())
}

// The nodes in use of the ledger that came out, each beside the one that was asked for.
fn beside(rt: &impl Print, m: &Ledger, l: &Ledger) -> io::Result<()> {
    let pairs = m.nodes.iter().zip(&l.nodes);
    for (slot, (x, y)) in pairs.enumerate().take(m.used as usize) {
        println!(rt; "  {}: same {}", Numbered(slot, *x), Shown(x == y))?;
    }
    Ok(())
}

pub(crate) fn show(rt: &impl Print, name: &str, l: &Ledger) -> io::Result<()> {
    println!(rt;
        "{name}: {}, well formed {}",
        Shown(l),
        Shown(forms::well_formed(*l))
    )?;
    node_lines(rt, l)?;
    let opened = ledger::open(history::opening(l));
    println!(rt; "  opening: code {}", opened.code)?;
    let mut replay = Replay {
        rt,
        ledger: opened.ledger,
    };
    history::play(l, &mut replay)?;
    let m = &replay.ledger;
    println!(rt; "  comes out: {}", Shown(m))?;
    beside(rt, m, l)?;
    println!(rt; "  the same ledger in every number: {}", Shown(l == m))
}
