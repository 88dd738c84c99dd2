// The parts of a line: a record, which by program 2 ends in what it remembers, and a step's request with its answer.
use rules::Answer;
use shown::Shown;
use std::fmt;
use steps::{Memory, Place, Program, Side, Team};

fn place(place: Place) -> &'static str {
    match place {
        Place::Seek => "seek",
        Place::Take => "take",
        Place::Work => "work",
        Place::Claim => "claim",
        Place::Mark => "mark",
        Place::Split => "split",
        Place::Stopped => "stopped",
    }
}

fn side(side: Side) -> &'static str {
    match side {
        Side::Left => "left",
        Side::Right => "right",
    }
}

// Place, node, position, side and size, and what the record remembers.
#[derive(Clone, Copy)]
pub(crate) struct Record(pub(crate) Team);

impl fmt::Display for Record {
    fn fmt<W: fmt::Write>(&self, f: &mut fmt::Formatter<W>) -> fmt::Result {
        let t = self.0;
        let place = place(t.place);
        let side = side(t.side);
        write!(f, "{place} {} {} {side} {}", t.node, t.position, t.size)?;
        match (t.program, t.memory) {
            (Program::Scan, _) => Ok(()),
            (Program::Greatest, Memory::Nothing) => f.write_str(" remembers nothing"),
            (Program::Greatest, Memory::Free { node, rest }) => {
                write!(f, " remembers free {node} {rest}")
            }
            (
                Program::Greatest,
                Memory::Held {
                    node,
                    rest,
                    position,
                },
            ) => { write!(f, " remembers held {node} {rest} {position}") }
        }
    }
}

// The kind and node of the request that a team's step makes, and the six numbers of its answer.
#[derive(Clone, Copy)]
pub(crate) struct Asked {
    pub(crate) team: i32,
    pub(crate) kind: u32,
    pub(crate) node: u32,
    pub(crate) answer: Answer,
}

impl fmt::Display for Asked {
    fn fmt<W: fmt::Write>(&self, f: &mut fmt::Formatter<W>) -> fmt::Result {
        let Asked {
            team,
            kind,
            node,
            answer,
        } = *self;
        write!(f, "team {team} asks {kind} {node} gets {}", Shown(answer))
    }
}
