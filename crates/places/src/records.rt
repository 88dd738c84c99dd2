// What all moves read, and what several of them share: the start of a new search, and the child that a team takes.
ghost use Rattle.std.specs.Prelude.{◌≡◌, ◌≤◌};
ghost use Rattle.steps.specs.Records.{max_node, take, child_on};
ghost use Rattle.steps.specs.Places.{again};
ghost use Rattle.places.specs.Clipped.{clipped_team, clipped_answer};

use rules::Answer;
use steps::{Memory, Side, Team};

// A team that hears an answer, with its number and the cap of its run. The record's node and the answer's left child are within the
// limits, so that the node after either is a number.
#[derive(Clone, Copy)]
pub(crate) struct Hearer {
    pub(crate) number: u32,
    pub(crate) cap: u32,
    pub(crate) team: Team,
    pub(crate) answer: Answer,
    ghost node_high: { team.node ≤ max_node },
    ghost left_high: { answer.left ≤ max_node },
}

impl Hearer {
    // A record may come with any node, and an answer with any left child. One past the largest becomes the largest.
    pub(crate) fn clipped(number: u32, cap: u32, team: Team, answer: Answer) -> Hearer
        ensures { (result.number ≡ number) × (result.cap ≡ cap) × (result.team ≡ clipped_team team) × (result.answer ≡ clipped_answer answer) }
    {
        Hearer {
            number,
            cap,
            team: Team {
                node: team.node.min(Team::NODE),
                ..team
            },
            answer: Answer {
                left: answer.left.min(Team::NODE),
                ..answer
            },
        }
    }

    pub(crate) fn again(self) -> Team
        ensures { result ≡ again self.team }
    {
        self.team.seek(1).remembering(Memory::Nothing)
    }

    pub(crate) fn take_child(self, side: Side) -> Team
        ensures { result ≡ take self.team (child_on side self.answer.left) }
    {
        let left = self.answer.left;
        match side {
            Side::Left => self.team.take(left),
            Side::Right => self.team.take(left + 1),
        }
    }
}
