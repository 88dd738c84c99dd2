// Program 2: a search looks at each node, remembers the one with the greatest rest, and goes to it after the last.
ghost use Rattle.std.specs.Prelude.{◌≡◌};
ghost use Rattle.steps.specs.Places.{rest_in, sighted, greater, chosen, look_on, greatest_sight, greatest_seek, greatest_mark};

use crate::codes;
use crate::records::Hearer;
use rules::State;
use steps::{Memory, Side, Team};

// What is left of the node that is remembered.
fn rest_in(m: Memory) -> u32
    ensures { result ≡ rest_in m }
{
    match m {
        Memory::Nothing => 0,
        Memory::Free { rest, .. } | Memory::Held { rest, .. } => rest,
    }
}

// The search goes up, so on equal rests the lower number stays.
fn greater_of(old: Memory, new: Memory) -> Memory
    ensures { result ≡ greater old new }
{
    if rest_in(old) < rest_in(new) {
        new
    } else {
        old
    }
}

// What is remembered is taken or marked as it was seen, however long ago.
#[tactic(auto, unfolding(steps::specs::Places::chosen))]
fn choose(t: Team) -> Team
    ensures { result ≡ chosen t t.memory }
{
    match t.memory {
        Memory::Nothing => t.stop(),
        Memory::Free { node, .. } => t.take(node),
        Memory::Held { node, position, .. } => t.mark(node, position),
    }
}

impl Hearer {
    // What there is to remember of the node that is seen.
    fn sighted(self) -> Memory
        ensures { result ≡ sighted self.number self.team self.answer }
    {
        let node = self.team.node;
        let a = self.answer;
        let rest = a.to.saturating_sub(a.from);
        match State::try_from(a.state) {
            Ok(State::Available) => Memory::Free { node, rest },
            Ok(State::Owned) if a.owner != self.number => Memory::Held {
                node,
                rest,
                position: a.from,
            },
            _ => Memory::Nothing,
        }
    }

    fn look_on(self) -> Team
        ensures { result ≡ look_on self.number self.team self.answer }
    {
        let t = self.team;
        t.seek(t.node + 1)
            .remembering(greater_of(t.memory, self.sighted()))
    }

    fn greatest_sight(self) -> Team
        ensures { result ≡ greatest_sight self.number self.team self.answer }
    {
        match State::try_from(self.answer.state) {
            Ok(State::Stolen) => self.team.split(self.team.node, Side::Right),
            _ => self.look_on(),
        }
    }

    #[tactic(auto, unfolding(steps::specs::Places::greatest_seek))]
    pub(crate) fn greatest_seek(self) -> Team
        ensures { result ≡ greatest_seek self.number self.team self.answer }
    {
        match self.answer.code {
            codes::NO_SUCH_NODE => choose(self.team),
            _ => self.greatest_sight(),
        }
    }

    // Any refusal starts a new search.
    #[tactic(auto, unfolding(steps::specs::Places::greatest_mark))]
    pub(crate) fn greatest_mark(self) -> Team
        ensures { result ≡ greatest_mark self.team self.answer }
    {
        match self.answer.code {
            codes::GRANTED => self.team.split(self.team.node, Side::Right),
            _ => self.again(),
        }
    }
}
