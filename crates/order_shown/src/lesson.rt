// A lesson: a ledger with what was granted from it so far. Each step or request is printed, with the listing after it.
use crate::show;
use crate::show::Asked;
use numbers::natural;
use rules::{Answered, Kind, Ledger, Request};
use sheet_order::{Piece, Pieces};
use std::io;
use steps::{Program, Round, Team};

#[derive(Clone, Copy)]
pub(crate) struct Lesson {
    ledger: Ledger,
    granted: Option<Pieces>,
}

impl Lesson {
    pub(crate) fn begin(rt: &impl Print, ledger: Ledger) -> io::Result<Lesson> {
        let granted = Some(Pieces::none());
        show::listing(rt, ledger, granted)?;
        Ok(Lesson { ledger, granted })
    }

    // The lesson goes on with this ledger, after what was asked: an advance that was granted is a batch.
    fn on(self, rt: &impl Print, ledger: Ledger, asked: Asked) -> io::Result<Lesson> {
        let Asked {
            team,
            kind,
            node,
            answer,
        } = asked;
        let granted = if kind == Kind::Advance.number() && answer.code == 0 {
            let batch = Piece {
                team,
                node,
                from: answer.from,
                to: answer.to,
            };
            self.granted.and_then(|row| row.with(batch))
        } else {
            self.granted
        };
        println!(rt; "{asked}")?;
        show::listing(rt, ledger, granted)?;
        Ok(Lesson { ledger, granted })
    }

    // A request of anybody.
    fn ask(self, rt: &impl Print, r: Request) -> io::Result<Lesson> {
        let Answered { ledger, answer } = ledger::request(self.ledger, r);
        let asked = Asked {
            team: natural(r.team),
            kind: natural(r.kind),
            node: natural(r.node),
            answer,
        };
        self.on(rt, ledger, asked)
    }

    // Requests one after another.
    pub(crate) fn ask_all(self, rt: &impl Print, requests: &[Request]) -> io::Result<()> {
        requests
            .iter()
            .try_fold(self, |lesson, r| lesson.ask(rt, *r))?;
        Ok(())
    }
}

// A lesson whose teams follow the team program, each by its record.
#[derive(Clone, Copy)]
pub(crate) struct Run {
    lesson: Lesson,
    records: [Team; Team::RECORDS],
}

impl Run {
    pub(crate) fn with_teams(lesson: Lesson) -> Run {
        Run {
            lesson,
            records: [Team::fresh(Program::Scan); Team::RECORDS],
        }
    }

    // One step of a team, at most 4 sheets a batch.
    pub(crate) fn step(self, rt: &impl Print, team: i32) -> io::Result<Run> {
        let done = rounds::step_in(self.lesson.ledger, team, 4, self.records);
        let Round {
            ledger,
            kind,
            node,
            answer,
        } = done.round;
        let asked = Asked {
            team: natural(team),
            kind,
            node,
            answer,
        };
        Ok(Run {
            lesson: self.lesson.on(rt, ledger, asked)?,
            records: done.records,
        })
    }
}
