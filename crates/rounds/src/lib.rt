// A step over the table of team records that the caller lends.
#![tactic(auto)]

ghost use Rattle.std.specs.Prelude.{◌≡◌, ◌<◌, IfOk, cond, not};
ghost use Rattle.rules.specs.Refused.{code_of, code_in};
ghost use Rattle.rules.specs.Tests.{first};
ghost use Rattle.rules.specs.WellFormed.{well_formed};
ghost use Rattle.rounds.specs.Lent.{slot_in, slot_or, slot_tests, refused_by, lent_round, lent_records, table_step};

use rules::{Ledger, Refusal};
use steps::{Round, Team};

// What a step answers, and all records after it.
#[derive(Clone, Copy, Debug, PartialEq, Eq)]
pub struct Table {
    pub round: Round,
    pub records: [Team; Team::RECORDS],
}

// Where a team's record stands among n lent ones: nowhere, if the team is none or the records are too few.
#[tactic(auto, unfolding(crate::specs::Lent::slot_in))]
fn slot(l: &Ledger, number: i32, n: usize) -> Result<usize, Refusal>
    ensures value { (slot_or n result ≡ slot_in l.now number n) × (code_in result ≡ first (slot_tests l.now number n) 0) }
    ensures there { IfOk result (λ at. at < n) }
{
    if !numbers::in_range(number, 1, l.teams) {
        return Err(Refusal::NoSuchTeam);
    }
    if n < l.teams as usize {
        return Err(Refusal::FewRecords);
    }
    Ok(numbers::natural(number) as usize - 1)
}

// 1, the ledger's test, comes before what the slot's tests found.
fn refused_round(l: Ledger, later: Refusal) -> Round
    ensures { result ≡ refused_by (cond (not (well_formed l)) 1 (code_of later)) l }
{
    let refusal = if forms::well_formed(l) {
        later
    } else {
        Refusal::NotFormed
    };
    Round {
        ledger: l,
        kind: 0,
        node: 0,
        answer: requests::refused_by(refusal),
    }
}

// One step of a team, in a run with this cap: of the lent records only the stepping team's changes, and none where the step is refused,
// by 1, 3, 18 or 19 in this order.
#[tactic(auto, using(numbers::proofs::Signed::held), unfolding(crate::specs::Lent::slot_in, crate::specs::Lent::lent_round, crate::specs::Lent::lent_records, steps::specs::Step::records_after, steps::specs::Step::lent_step, steps::specs::Step::step_unless, steps::specs::Step::lent_code, steps::specs::Step::solo_step, steps::specs::Step::solo_code))]
pub fn step_lent(l: Ledger, number: i32, cap: i32, records: &mut [Team]) -> Round
    ensures { (result ≡ lent_round l number cap records.old) × (records.new ≡ lent_records l number cap records.old) }
{
    match slot(&l, number, records.len()) {
        Err(refusal) => refused_round(l, refusal),
        Ok(at) => {
            let done = teams::step(l, number, cap, records[at]);
            records[at] = done.team;
            Round {
                ledger: done.ledger,
                kind: done.kind,
                node: done.node,
                answer: done.answer,
            }
        }
    }
}

// The same over a table by value, which it lends: whoever calls this needs to know nothing of lending.
#[tactic(auto, unfolding(crate::specs::Lent::table_step))]
pub fn step_in(l: Ledger, number: i32, cap: i32, mut records: [Team; Team::RECORDS]) -> Table
    ensures { result ≡ table_step l number cap records }
{
    let round = step_lent(l, number, cap, &mut records);
    Table { round, records }
}
