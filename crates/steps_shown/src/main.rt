// Shows teams at work: the document's schedule step by step, each line of the step rules by program 1 and by program 2, records at their
// limits, and refused steps.
#![tactic(auto)]

use crate::show::{Asked, Record};
use shown::SCHEDULE;
use shown::tables::opened;
use std::io;
use steps::{Program, Round, Team};

mod cases;
mod greatest;
mod ledgers;
mod show;

// A step's request and answer, and both records after it. The last step is of no team, and is refused.
fn schedule(rt: &impl Print) -> io::Result<()> {
    println!(rt; "0 5 2 4 7")?;
    let mut l = opened(0, 5, 2, 7);
    let mut records = [Team::fresh(Program::Scan); Team::RECORDS];
    for team in SCHEDULE.into_iter().chain([0]) {
        let done = rounds::step_in(l, team, 4, records);
        let Round {
            ledger,
            kind,
            node,
            answer,
        } = done.round;
        l = ledger;
        records = done.records;
        let asked = Asked {
            team,
            kind,
            node,
            answer,
        };
        println!(rt; "{asked} | {} | {}", Record(records[0]), Record(records[1]))?;
    }
    println!(rt; "{} left", ledger::count(l).unwrap_or(0))
}

fn main(rt: HostRuntime) -> io::Result<()> {
    schedule(&rt)?;
    cases::all(&rt)?;
    greatest::all(&rt)
}
