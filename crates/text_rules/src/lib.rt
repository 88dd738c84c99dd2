// The schedule's text: the types of its tokens and its readers' answers, and their limits. Document 01's rules over them are the
// definitions of specs/; what is claimed of the readers are theorems of this crate.
#![tactic(auto)]

ghost use Rattle.std.specs.Prelude.{IsTrue};
ghost use Rattle.text_rules.specs.Judgement.{may_name};

use rules::{Opening, Refusal};

// What stands at a place of the text: its end, a line's end, a number or a byte that has no place in a text.
#[derive(Clone, Copy, Debug, PartialEq, Eq)]
pub enum Kind {
    End,
    LineEnd,
    Number(u32),
    Wrong,
}

// What stands at a place of the text, with the place after it.
#[derive(Clone, Copy, Debug, PartialEq, Eq)]
pub struct Token {
    pub kind: Kind,
    pub end: usize,
}

// Why a text is refused, with document 01's LINE.
#[derive(Clone, Copy, Debug, PartialEq, Eq)]
pub struct Refused {
    pub refusal: Refusal,
    pub line: u32,
}

// The numbers of the header. Five numbers name no program.
#[derive(Clone, Copy, Debug, PartialEq, Eq)]
pub struct Header {
    pub opening: Opening,
    pub program: Option<u32>,
    ghost named: { IsTrue (may_name program) },
}

// The header, with the count of the schedule's numbers.
#[derive(Clone, Copy, Debug, PartialEq, Eq)]
pub struct Schedule {
    pub header: Header,
    pub count: usize,
}

impl Token {
    // The most digits of a number.
    pub const DIGITS: usize = 10;
    // The largest number.
    pub const LARGEST: u32 = 2147483647;
    // What a number that is refused is read as: it is too large by itself.
    pub const REFUSED: u32 = 2147483648;
}

impl Schedule {
    // No text has more numbers behind its header.
    pub const ROOM: usize = 32768;
}

impl Header {
    // The most bytes of a text.
    pub const BYTES: usize = 65535;
    // The fewest numbers of a header: those of an opening.
    pub const LEAST: usize = 5;
    // The most numbers of a header: the program's is the last.
    pub const MOST: usize = 6;
    // The last program's number.
    pub const PROGRAMS: u32 = 2;
}
