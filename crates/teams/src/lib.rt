// One team's step, with its record by value: exactly as the definitions of `steps` say.
#![tactic(auto)]

ghost use Rattle.std.specs.Prelude.{◌≡◌, cond, not};
ghost use Rattle.rules.specs.Tests.{first};
ghost use Rattle.rules.specs.Refused.{code_in};
ghost use Rattle.rules.specs.WellFormed.{well_formed};
ghost use Rattle.steps.specs.Step.{unfit, later_tests, unmoved, solo_step};
ghost use Rattle.teams.specs.Clipped.{heard, clipped_turn, clipped_step};

use rules::{Answer, Change, Ledger, Opening, Refusal, Request, View};
use steps::{Place, Stepped, Team, Turned};

// 19: what is wrong with a cap or a record.
fn is_unfit(cap: i32, t: Team) -> bool
    ensures { result ≡ unfit cap t }
{
    let capped = numbers::in_range(cap, 1, Opening::CAP);
    let placed = (1..=Team::NODE).contains(&t.node);
    let sized = (1..=numbers::natural(cap)).contains(&t.size);
    !capped || !placed || !sized
}

// 3 and 19: the tests that need no look at the table.
fn fit(teams: u32, number: i32, cap: i32, t: Team) -> Result<(), Refusal>
    ensures { code_in result ≡ first (later_tests teams number cap t) 0 }
{
    if !numbers::in_range(number, 1, teams) {
        return Err(Refusal::NoSuchTeam);
    }
    if is_unfit(cap, t) {
        return Err(Refusal::Unfit);
    }
    Ok(())
}

// A step that asks nothing and changes nothing, and what refuses it, if something does.
fn unmoved(test: Result<(), Refusal>, l: Ledger, t: Team) -> Stepped
    ensures { result ≡ unmoved (code_in test) l t }
{
    let answer = match test {
        Ok(()) => requests::no_answer(),
        Err(refusal) => requests::refused_by(refusal),
    };
    Stepped {
        ledger: l,
        team: t,
        kind: 0,
        node: 0,
        answer,
    }
}

// The record after the answer, with what was asked.
#[tactic(auto, using(nodes::proofs::Laws::natural_held), unfolding(crate::specs::Clipped::heard))]
fn hear(number: u32, cap: u32, t: Team, q: Request, a: Answer, c: Change) -> Turned
    ensures { result ≡ heard number cap t q a c }
{
    Turned {
        team: places::moves_of(number, cap, t, a),
        kind: numbers::natural(q.kind),
        node: numbers::natural(q.node),
        answer: a,
        change: c,
    }
}

// A step that makes its request, which tests the ledger: 1 is the code of no other refusal.
#[tactic(auto, unfolding(crate::specs::Clipped::clipped_step))]
fn ask(number: u32, cap: u32, l: Ledger, t: Team) -> Stepped
    ensures { result ≡ clipped_step number cap l t }
{
    let q = places::asks_of(number, t);
    let done = ledger::request(l, q);
    if done.answer.code == Refusal::NotFormed.code() {
        return unmoved(Err(Refusal::NotFormed), l, t);
    }
    let u = hear(number, cap, t, q, done.answer, Change::Keep);
    Stepped {
        ledger: done.ledger,
        team: u.team,
        kind: u.kind,
        node: u.node,
        answer: u.answer,
    }
}

// 1, the ledger's test, comes before what the later tests found.
fn formed_first(l: Ledger, later: Result<(), Refusal>) -> Result<(), Refusal>
    ensures { code_in result ≡ cond (not (well_formed l)) 1 (code_in later) }
{
    if !forms::well_formed(l) {
        return Err(Refusal::NotFormed);
    }
    later
}

// A step of the team with this number and this record, in a run with this cap. It is refused by 1, 3 and 19, in this order; with one
// record by value none can be too few. The ledger is tested once: by the request, or here where none is made.
#[tactic(auto, using(numbers::proofs::Signed::held, forms::proofs::Laws::length_under, crate::proofs::Laws::step_made), unfolding(steps::specs::Step::solo_step, steps::specs::Step::solo_code, steps::specs::Step::step_unless, steps::specs::Step::step_from))]
pub fn step(l: Ledger, number: i32, cap: i32, team: Team) -> Stepped
    ensures { result ≡ solo_step l number cap team }
{
    if let Err(refusal) = fit(l.teams, number, cap, team) {
        return unmoved(formed_first(l, Err(refusal)), l, team);
    }
    if team.place == Place::Stopped {
        return unmoved(formed_first(l, Ok(())), l, team);
    }
    ask(numbers::natural(number), numbers::natural(cap), l, team)
}

// The step without its ledger, by the one node that its request names: for a run that holds the ledger itself, and knows that it is well
// formed and the record within its limits.
#[tactic(auto, unfolding(crate::specs::Clipped::clipped_turn))]
pub fn turn(number: u32, cap: u32, t: Team, v: View) -> Turned
    ensures { result ≡ clipped_turn number cap t v }
{
    if t.place == Place::Stopped {
        return Turned {
            team: t,
            kind: 0,
            node: 0,
            answer: requests::no_answer(),
            change: Change::Keep,
        };
    }
    let q = places::asks_of(number, t);
    let o = requests::decide(v, q);
    hear(number, cap, t, q, o.answer, o.change)
}
