// The seven places: what a team asks at each, and where the answer sends it. Where the answers to a look and to a mark send it is its
// program: the scan's stands here, the other's in `greatest`.
#![tactic(auto)]

ghost use Rattle.std.specs.Prelude.{◌≡◌, pos};
ghost use Rattle.numbers.specs.Progress.{signed};
ghost use Rattle.rules.specs.Asks.{plain};
ghost use Rattle.rules.specs.Kinds.{number_of};
ghost use Rattle.steps.specs.Places.{grown_size, sight_moves, seek_moves, take_moves, work_moves, claim_moves, mark_moves, split_moves, search_of};
ghost use Rattle.places.specs.Clipped.{clipped_asks, clipped_moves};

mod codes;
mod greatest;
mod records;

use records::Hearer;
use rules::{Answer, Kind, Request, State};
use steps::{Place, Program, Side, Team};

// A number past the largest signed one becomes the largest, and no team asks for such a one.
fn request_of(kind: Kind, number: u32, node: u32, position: i32, amount: u32) -> Request
    ensures { result ≡ plain (pos (number_of kind)) (signed number) (signed node) position (signed amount) }
{
    let team = numbers::to_signed(number);
    let node = numbers::to_signed(node);
    Request::plain(kind, team, node, position, numbers::to_signed(amount))
}

// The request that a team makes at its place. One that has stopped makes none, which is a request of kind 0.
#[tactic(auto, unfolding(crate::specs::Clipped::clipped_asks))]
pub fn asks_of(number: u32, t: Team) -> Request
    ensures { result ≡ clipped_asks number t }
{
    match t.place {
        Place::Seek => request_of(Kind::Look, number, t.node, 0, 0),
        Place::Take => request_of(Kind::Own, number, t.node, 0, 0),
        Place::Work => request_of(Kind::Look, number, t.node, 0, 0),
        Place::Claim => request_of(Kind::Advance, number, t.node, t.position, t.size),
        Place::Mark => request_of(Kind::Mark, number, t.node, t.position, 0),
        Place::Split => request_of(Kind::Expand, number, t.node, 0, 0),
        Place::Stopped => Request::default(),
    }
}

impl Hearer {
    // A node that another team owns is marked, and the team's own is passed.
    fn sight_moves(self) -> Team
        ensures { result ≡ sight_moves self.number self.team self.answer }
    {
        let t = self.team;
        let a = self.answer;
        match State::try_from(a.state) {
            Ok(State::Available) => t.take(t.node),
            Ok(State::Owned) if a.owner != self.number => t.mark(t.node, a.from),
            Ok(State::Stolen) => t.split(t.node, Side::Right),
            _ => t.seek(t.node + 1),
        }
    }

    #[tactic(auto, unfolding(steps::specs::Places::seek_moves))]
    fn seek_moves(self) -> Team
        ensures { result ≡ seek_moves self.number self.team self.answer }
    {
        match self.answer.code {
            codes::NO_SUCH_NODE => self.team.stop(),
            _ => self.sight_moves(),
        }
    }

    #[tactic(auto, unfolding(steps::specs::Places::take_moves))]
    fn take_moves(self) -> Team
        ensures { result ≡ take_moves self.team self.answer }
    {
        match self.answer.code {
            codes::GRANTED => self.team.sized(1).work(self.team.node),
            _ => self.again(),
        }
    }

    // A node that is owned is claimed by its owner alone.
    #[tactic(auto, unfolding(steps::specs::Places::work_moves))]
    fn work_moves(self) -> Team
        ensures { result ≡ work_moves self.number self.team self.answer }
    {
        let t = self.team;
        let a = self.answer;
        match State::try_from(a.state) {
            Ok(State::Owned) if a.owner == self.number => t.claim(t.node, a.from),
            Ok(State::Stolen) => t.split(t.node, Side::Left),
            Ok(State::Expanded) => self.take_child(Side::Left),
            _ => self.again(),
        }
    }

    // The lesser of 2 × size and cap. A size that is too large to be doubled is more than any cap.
    fn grown_size(self) -> u32
        ensures { result ≡ grown_size self.cap self.team }
    {
        self.team.size.saturating_mul(2).min(self.cap)
    }

    #[tactic(auto, unfolding(steps::specs::Places::claim_moves))]
    fn claim_moves(self) -> Team
        ensures { result ≡ claim_moves self.cap self.team self.answer }
    {
        let t = self.team;
        match self.answer.code {
            codes::GRANTED => t.sized(self.grown_size()).work(t.node),
            codes::STOLEN => t.split(t.node, Side::Left),
            _ => t.work(t.node),
        }
    }

    #[tactic(auto, unfolding(steps::specs::Places::mark_moves))]
    fn mark_moves(self) -> Team
        ensures { result ≡ mark_moves self.team self.answer }
    {
        let t = self.team;
        match self.answer.code {
            codes::GRANTED => t.split(t.node, Side::Right),
            codes::NO_ROOM => t.seek(t.node + 1),
            _ => t.seek(t.node),
        }
    }

    // ---- by the record's program

    #[tactic(auto, unfolding(steps::specs::Places::search_by, steps::specs::Places::seek_moves, steps::specs::Places::greatest_seek))]
    fn search_seek(self) -> Team
        ensures { result ≡ (search_of self.team).seeking self.number self.team self.answer }
    {
        match self.team.program {
            Program::Scan => self.seek_moves(),
            Program::Greatest => self.greatest_seek(),
        }
    }

    #[tactic(auto, unfolding(steps::specs::Places::search_by, steps::specs::Places::mark_moves, steps::specs::Places::greatest_mark))]
    fn search_mark(self) -> Team
        ensures { result ≡ (search_of self.team).marking self.team self.answer }
    {
        match self.team.program {
            Program::Scan => self.mark_moves(),
            Program::Greatest => self.greatest_mark(),
        }
    }

    // A team that comes second to a split is told where the children are, as the first is.
    #[tactic(auto, unfolding(steps::specs::Places::split_moves))]
    fn split_moves(self) -> Team
        ensures { result ≡ split_moves self.team self.answer }
    {
        match self.answer.code {
            codes::GRANTED | codes::ALREADY_SPLIT => self.take_child(self.team.side),
            _ => self.again(),
        }
    }
}

// Where an answer sends a team from its place.
#[tactic(auto, unfolding(crate::specs::Clipped::clipped_moves))]
pub fn moves_of(number: u32, cap: u32, t: Team, a: Answer) -> Team
    ensures { result ≡ clipped_moves number cap t a }
{
    let hearer = Hearer::clipped(number, cap, t, a);
    match t.place {
        Place::Seek => hearer.search_seek(),
        Place::Take => hearer.take_moves(),
        Place::Work => hearer.work_moves(),
        Place::Claim => hearer.claim_moves(),
        Place::Mark => hearer.search_mark(),
        Place::Split => hearer.split_moves(),
        Place::Stopped => hearer.team,
    }
}
