// The ledger's types and their limits. Document 01's rules over them are the definitions of specs/; its demands are theorems of this crate.
#![tactic(auto)]

ghost use Rattle.std.specs.Prelude.{◌≡◌, pos};
ghost use Rattle.rules.specs.Asks.{request, plain};
ghost use Rattle.rules.specs.Kinds.{number_of};
ghost use Rattle.rules.specs.Limits.{opens};

mod kind;
mod refusal;
mod state;

pub use kind::{Kind, UnknownKind};
pub use refusal::Refusal;
pub use state::{State, UnknownState};

// The five numbers that an opening takes. `cap`, the largest step, belongs to the run; `nodes` is the table room.
#[derive(Clone, Copy, Debug, PartialEq, Eq)]
pub struct Opening {
    pub start: i32,
    pub until: i32,
    pub teams: i32,
    pub cap: i32,
    pub nodes: i32,
}

// A result: a count of finds, with the labels of the first and of the last.
#[derive(Clone, Copy, Debug, Default, PartialEq, Eq)]
pub struct Finds {
    pub count: u32,
    pub first: u32,
    pub last: u32,
}

// A node: its range start..until, its progress, its owner (0 is nobody) and its left child (0 is none); its own result, that joined with its
// children's, and how far its report has come. A ledger that is handed in may hold any numbers, and the rules judge each (`owners are 0..teams`, `left is even`,
// stages up to 2), so owner, left child and stage are numbers.
#[derive(Clone, Copy, Debug, Default, PartialEq, Eq)]
pub struct Node {
    pub start: u32,
    pub until: u32,
    pub progress: i32,
    pub owner: u32,
    pub left: u32,
    pub own: Finds,
    pub joined: Finds,
    pub stage: u32,
}

// Node n stands in slot n - 1 of the table.
#[derive(Clone, Copy, Debug, PartialEq, Eq)]
pub struct Ledger {
    pub start: u32,
    pub until: u32,
    pub teams: u32,
    pub room: u32,
    pub used: u32,
    pub nodes: [Node; Opening::NODES],
}

// An opened ledger, or the code of a refusal with a ledger that is all 0: no Result, since document 01 promises that ledger too.
#[derive(Clone, Copy, Debug, PartialEq, Eq)]
pub struct Opened {
    pub code: u32,
    pub ledger: Ledger,
}

// A request may bring any number for its kind, so it is read off by `Kind::try_from`.
#[derive(Clone, Copy, Debug, Default, PartialEq, Eq)]
pub struct Request {
    pub kind: i32,
    pub team: i32,
    pub node: i32,
    pub position: i32,
    pub amount: i32,
    pub count: i32,
    pub first: i32,
    pub last: i32,
}

// The six numbers that document 01 gives an answer, and C reads. A refusal has only its code, but for 16, which has numbers too.
#[derive(Clone, Copy, Debug, Default, PartialEq, Eq)]
pub struct Answer {
    pub code: u32,
    pub state: u32,
    pub from: u32,
    pub to: u32,
    pub owner: u32,
    pub left: u32,
}

// A request's answer, with the ledger after it.
#[derive(Clone, Copy, Debug, PartialEq, Eq)]
pub struct Answered {
    pub ledger: Ledger,
    pub answer: Answer,
}

// All that a request sees of a well-formed ledger: a few numbers, the number that a new pair would get, its node and that node's children.
#[derive(Clone, Copy, Debug, PartialEq, Eq)]
pub struct View {
    pub teams: u32,
    pub room: u32,
    pub used: u32,
    pub stolen: u32,
    pub pair: u32,
    pub node: Node,
    pub left: Node,
    pub right: Node,
}

// What a request does to its node, and no more: nothing; the owner becomes a team; the progress becomes a position, or the mark of one; the
// node gets a pair of children, or its own result; or its joined one, which is made where it is stored.
#[derive(Clone, Copy, Debug, PartialEq, Eq)]
pub enum Change {
    Keep,
    Own(u32),
    Advance(u32),
    Mark(u32),
    Split(u32),
    Report(Finds),
    Push,
}

#[derive(Clone, Copy, Debug, PartialEq, Eq)]
pub struct Outcome {
    pub answer: Answer,
    pub change: Change,
}

impl Opening {
    // The largest end of a range.
    pub const UNTIL: u32 = i32::MAX as u32;

    pub const TEAMS: u32 = 32;
    // The largest step of a run.
    pub const CAP: u32 = 4096;
    // The largest table room, and so the number of slots.
    pub const NODES: usize = 1023;

    // Whether the numbers are within an opening's limits.
    #[tactic(auto, unfolding(crate::specs::Limits::opens))]
    pub fn is_good(self) -> bool
        ensures { result ≡ opens self }
    {
        numbers::in_range(self.start, 0, numbers::natural(self.until))
            && numbers::in_range(self.until, 0, Opening::UNTIL)
            && numbers::in_range(self.teams, 1, Opening::TEAMS)
            && numbers::in_range(self.cap, 1, Opening::CAP)
            && numbers::in_range(self.nodes, 1, Opening::NODES as u32)
    }
}

impl Node {
    // The stages of a node's report: none, prepared, pushed.
    pub const UNREPORTED: u32 = 0;

    pub const PREPARED: u32 = 1;

    pub const PUSHED: u32 = 2;
}

impl Finds {
    // The largest count of a report, and the largest label.
    pub const MOST: u32 = 1_000_000;
}

impl Request {
    // The largest amount of one advance.
    pub const AMOUNT: u32 = 4096;

    // The one maker of requests.
    pub fn new(
        kind: i32,
        team: i32,
        node: i32,
        position: i32,
        amount: i32,
        count: i32,
        first: i32,
        last: i32,
    ) -> Request
        ensures { result ≡ request kind team node position amount count first last }
    {
        Request {
            kind,
            team,
            node,
            position,
            amount,
            count,
            first,
            last,
        }
    }
    // A request that reports nothing. Fields that its kind does not read are 0.
    pub fn plain(kind: Kind, team: i32, node: i32, position: i32, amount: i32) -> Request
        ensures { result ≡ plain (pos (number_of kind)) team node position amount }
    {
        Request::new(i32::from(kind), team, node, position, amount, 0, 0, 0)
    }
}
