// What a request decides of the one node it names: its answer, and what it does to the node.
#![tactic(auto)]

ghost use Rattle.std.specs.Prelude.{◌≡◌, pos};
ghost use Rattle.rules.specs.Kinds.{number_of};
ghost use Rattle.rules.specs.Refused.{code_of};
ghost use Rattle.rules.specs.Requests.{refused, refusing, ranged, owning, batch_end, advancing, marking, expanding, looking, finds_in, reporting, pushing, granted, decided};

use rules::{Answer, Change, Finds, Kind, Node, Outcome, Refusal, Request, View};

// The answer of a team that asks nothing, and of a request that is granted without more.
pub fn no_answer() -> Answer
    ensures { result ≡ refused 0 }
{
    Answer::default()
}

pub fn refused_by(refusal: Refusal) -> Answer
    ensures { result ≡ refused (code_of refusal) }
{
    Answer {
        code: refusal.code(),
        ..no_answer()
    }
}

// AlreadySplit tells the late splitter where the children are; any other refusal has only its code.
fn refusing_by(v: View, refusal: Refusal) -> Answer
    ensures { result ≡ refusing v (code_of refusal) }
{
    match refusal {
        Refusal::AlreadySplit => Answer {
            from: nodes::middle_of(v.node),
            left: v.node.left,
            ..refused_by(refusal)
        },
        _ => refused_by(refusal),
    }
}

fn range_answer(from: u32, to: u32) -> Answer
    ensures { result ≡ ranged «from» to }
{
    Answer {
        from,
        to,
        ..no_answer()
    }
}

#[tactic(auto, unfolding(rules::specs::Requests::owning))]
fn own_outcome(v: View, r: Request) -> Outcome
    ensures { result ≡ owning v r }
{
    Outcome {
        answer: range_answer(v.node.start, v.node.until),
        change: Change::Own(numbers::natural(r.team)),
    }
}

// Two signed numbers that are not negative never make an unsigned sum wrap.
#[tactic(auto, unfolding(rules::specs::Requests::batch_end))]
fn batch_end(x: Node, r: Request) -> u32
    ensures { result ≡ batch_end x r }
{
    let p = numbers::natural(r.position);
    let k = numbers::natural(r.amount);
    (p + k).min(x.until)
}

#[tactic(auto, unfolding(rules::specs::Requests::advancing))]
fn advance_outcome(v: View, r: Request) -> Outcome
    ensures { result ≡ advancing v r }
{
    let p = numbers::natural(r.position);
    let end = batch_end(v.node, r);
    Outcome {
        answer: range_answer(p, end),
        change: Change::Advance(end),
    }
}

#[tactic(auto, unfolding(rules::specs::Requests::marking))]
fn mark_outcome(v: View, r: Request) -> Outcome
    ensures { result ≡ marking v r }
{
    let p = numbers::natural(r.position);
    Outcome {
        answer: range_answer(p, v.node.until),
        change: Change::Mark(p),
    }
}

#[tactic(auto, unfolding(rules::specs::Requests::expanding))]
fn expand_outcome(v: View) -> Outcome
    ensures { result ≡ expanding v }
{
    Outcome {
        answer: Answer {
            from: nodes::middle_of(v.node),
            left: v.pair,
            ..no_answer()
        },
        change: Change::Split(v.pair),
    }
}

#[tactic(auto, unfolding(rules::specs::Requests::looking))]
fn look_outcome(v: View) -> Outcome
    ensures { result ≡ looking v }
{
    let x = v.node;
    Outcome {
        answer: Answer {
            code: 0,
            state: nodes::state_of(x).number(),
            from: nodes::position_of(x),
            to: x.until,
            owner: x.owner,
            left: x.left,
        },
        change: Change::Keep,
    }
}

fn finds_in(r: Request) -> Finds
    ensures { result ≡ finds_in r }
{
    Finds {
        count: numbers::natural(r.count),
        first: numbers::natural(r.first),
        last: numbers::natural(r.last),
    }
}

#[tactic(auto, unfolding(rules::specs::Requests::reporting))]
fn report_outcome(r: Request) -> Outcome
    ensures { result ≡ reporting r }
{
    Outcome {
        answer: no_answer(),
        change: Change::Report(finds_in(r)),
    }
}

#[tactic(auto, unfolding(rules::specs::Requests::pushing))]
fn push_outcome() -> Outcome
    ensures { result ≡ pushing }
{
    Outcome {
        answer: no_answer(),
        change: Change::Push,
    }
}

#[tactic(auto, unfolding(rules::specs::Requests::granted))]
fn granted_by(kind: Kind, v: View, r: Request) -> Outcome
    requires { r.kind ≡ pos (number_of kind) }
    ensures { result ≡ granted v r }
{
    match kind {
        Kind::Own => own_outcome(v, r),
        Kind::Advance => advance_outcome(v, r),
        Kind::Mark => mark_outcome(v, r),
        Kind::Expand => expand_outcome(v),
        Kind::Look => look_outcome(v),
        Kind::Report => report_outcome(r),
        Kind::Push => push_outcome(),
    }
}

// What a request answers and does, by the one node it names.
#[tactic(auto, unfolding(rules::specs::Requests::decided))]
pub fn decide(v: View, r: Request) -> Outcome
    ensures { result ≡ decided v r }
{
    match refusals::judge(v, r) {
        Ok(kind) => granted_by(kind, v, r),
        Err(refusal) => Outcome {
            answer: refusing_by(v, refusal),
            change: Change::Keep,
        },
    }
}
