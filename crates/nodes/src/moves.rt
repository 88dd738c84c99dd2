// The table of moves: five states by five requests.
ghost use Rattle.std.specs.Prelude.{◌≡◌};
ghost use Rattle.nodes.specs.MoveTable.{states_after};

use rules::{Kind, State};

// The table's states and its kinds of requests are 1 to these.
const STATES: u32 = State::Expanded as u32;

const KINDS: u32 = Kind::Look as u32;

// A state in a set of them.
const OWNED: u32 = 1 << State::Owned as u32;

const COMPLETED: u32 = 1 << State::Completed as u32;

const STOLEN: u32 = 1 << State::Stolen as u32;

const EXPANDED: u32 = 1 << State::Expanded as u32;

// A row for each state and in it an entry for each request: the states to which the request may lead. 0 is "no move".
const MOVES: [[u32; 5]; 5] = [
    [OWNED, 0, 0, 0, 0],
    [0, OWNED | COMPLETED, STOLEN, 0, 0],
    [0, 0, 0, 0, 0],
    [0, 0, 0, EXPANDED, 0],
    [0, 0, 0, 0, 0],
];

// The states to which a request of a kind may take a node in a state, as the sum of 2 to the power of each; 0 for what is no state or no kind.
#[tactic(auto, unfolding(rules::specs::Moves::leads, rules::specs::Moves::entry_in, rules::specs::Moves::as_number, crate::specs::MoveTable::states_after))]
pub fn states_after(state: u32, kind: u32) -> u32
    ensures { result ≡ states_after state kind }
{
    if (1..=STATES).contains(&state) && (1..=KINDS).contains(&kind) {
        MOVES[(state - 1) as usize][(kind - 1) as usize]
    } else {
        0
    }
}
