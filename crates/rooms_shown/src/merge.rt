// The calls of two rooms, three each, made in a merged order.
ghost use Rattle.std.specs.Prelude.{◌<◌};

use rules::{Answer, Ledger, Request};
use std::fmt;

// How many calls a room has, and both have.
const EACH: usize = 3;

pub(crate) const BOTH: usize = 2 * EACH;

// The calls of room 1, and those of room 2.
#[derive(Clone, Copy)]
pub(crate) struct Calls {
    pub(crate) one: [Request; EACH],
    pub(crate) other: [Request; EACH],
}

// The answers that room 1 heard, and then room 2, and the ledger after the calls.
#[derive(Clone, Copy)]
pub(crate) struct Heard {
    pub(crate) ledger: Ledger,
    pub(crate) answers: [Answer; BOTH],
}

// Six binary digits, the last one first: where there is a 1 room 1 calls.
#[derive(Clone, Copy)]
pub(crate) struct Order(pub(crate) u32);

impl Order {
    fn is_one(self, turn: u32) -> bool
        requires { turn < 32 }
    {
        self.0 >> turn & 1 == 1
    }

    // Whether each room makes all its calls.
    pub(crate) fn is_whole(self) -> bool {
        self.0.count_ones() == EACH as u32
    }
}

// Which room calls, six times.
impl fmt::Display for Order {
    fn fmt<W: fmt::Write>(&self, f: &mut fmt::Formatter<W>) -> fmt::Result {
        for turn in 0..BOTH as u32 {
            write!(f, " {}", if self.is_one(turn) { 1 } else { 2 })?;
        }
        Ok(())
    }
}

// The codes of these answers.
#[derive(Clone, Copy)]
pub(crate) struct Codes<'a>(pub(crate) &'a [Answer]);

impl fmt::Display for Codes<'_> {
    fn fmt<W: fmt::Write>(&self, f: &mut fmt::Formatter<W>) -> fmt::Result {
        for a in self.0 {
            write!(f, " {}", a.code)?;
        }
        Ok(())
    }
}

impl Calls {
    // Makes the calls in this order.
    pub(crate) fn merged(&self, mut ledger: Ledger, order: Order) -> Heard {
        let mut answers = [requests::no_answer(); BOTH];
        let (one, other) = answers.split_at_mut(EACH);
        let mut one = self.one.iter().zip(one);
        let mut other = self.other.iter().zip(other);
        for turn in 0..BOTH as u32 {
            let next = if order.is_one(turn) {
                one.next()
            } else {
                other.next()
            };
            if let Some((r, heard)) = next {
                let done = ledger::request(ledger, *r);
                ledger = done.ledger;
                *heard = done.answer;
            }
        }
        Heard { ledger, answers }
    }
}
