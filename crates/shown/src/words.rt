// How each thing is printed: its numbers in the order in which its type names them, and a truth by a word.
use rules::{Answer, Finds, Ledger, Refusal};
use std::fmt;

// A thing as the programs print it.
#[derive(Clone, Copy, Debug)]
pub struct Shown<T>(pub T);

impl fmt::Display for Shown<bool> {
    fn fmt<W: fmt::Write>(&self, f: &mut fmt::Formatter<W>) -> fmt::Result {
        f.write_str(if self.0 { "yes" } else { "no" })
    }
}

impl fmt::Display for Shown<Answer> {
    fn fmt<W: fmt::Write>(&self, f: &mut fmt::Formatter<W>) -> fmt::Result {
        let Answer {
            code,
            state,
            from,
            to,
            owner,
            left,
        } = self.0;
        write!(f, "{code} {state} {from} {to} {owner} {left}")
    }
}

impl fmt::Display for Shown<Finds> {
    fn fmt<W: fmt::Write>(&self, f: &mut fmt::Formatter<W>) -> fmt::Result {
        let Finds { count, first, last } = self.0;
        write!(f, "{count} {first} {last}")
    }
}

// A node, which may not be there.
impl<T: fmt::Display> fmt::Display for Shown<Option<T>> {
    fn fmt<W: fmt::Write>(&self, f: &mut fmt::Formatter<W>) -> fmt::Result {
        match &self.0 {
            Some(x) => x.fmt(f),
            None => f.write_str("no node"),
        }
    }
}

// A ledger's own numbers, without its nodes.
impl fmt::Display for Shown<&Ledger> {
    fn fmt<W: fmt::Write>(&self, f: &mut fmt::Formatter<W>) -> fmt::Result {
        let l = self.0;
        write!(
            f,
            "{} {} {} {} {}",
            l.start, l.until, l.teams, l.room, l.used
        )
    }
}

// The tests of document 01's table that hold for a call, of which the first gives its code: none, one, or two.
#[derive(Clone, Copy, Debug)]
pub enum Tests {
    Granted,
    One(Refusal),
    Two(Refusal, Refusal),
}

impl fmt::Display for Tests {
    fn fmt<W: fmt::Write>(&self, f: &mut fmt::Formatter<W>) -> fmt::Result {
        match self {
            Tests::Granted => f.write_str("tests 0"),
            Tests::One(first) => write!(f, "tests {}", first.code()),
            Tests::Two(first, then) => write!(f, "tests {} {}", first.code(), then.code()),
        }
    }
}
