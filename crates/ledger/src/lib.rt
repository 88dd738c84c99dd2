// The ledger: opening, the requests and the unclaimed count, each exactly as the definitions of `rules` say.
#![tactic(auto)]

ghost use Rattle.std.specs.Prelude.{◌≡◌};
ghost use Rattle.rules.specs.Opening.{opening};
ghost use Rattle.rules.specs.Requests.{requested};
ghost use Rattle.rules.specs.Count.{counted, told};

use forms::Table;
use rules::{Answered, Ledger, Opened, Opening, Refusal, Request};

mod opens;
pub mod table;

// Opens a ledger, or refuses with an all-zero ledger.
#[tactic(auto, unfolding(rules::specs::Opening::opening))]
pub fn open(o: Opening) -> Opened
    ensures { result ≡ opening o }
{
    if !o.is_good() {
        return Opened {
            code: Refusal::Opening.code(),
            ledger: opens::closed_ledger(),
        };
    }
    Opened {
        code: 0,
        ledger: opens::opened_by(o),
    }
}

// One request: its answer, and the ledger after it. A refusal changes nothing.
#[tactic(auto, using(rules::proofs::Record::rules), unfolding(rules::specs::Requests::answered, rules::specs::Requests::requested))]
pub fn request(mut l: Ledger, r: Request) -> Answered
    ensures { result ≡ requested l r }
{
    if !forms::well_formed(l) {
        return Answered {
            ledger: l,
            answer: requests::refused_by(Refusal::NotFormed),
        };
    }
    let n = numbers::natural(r.node);
    let o = requests::decide(table::view_of(&l, n), r);
    table::change(&mut l, n, o.change);
    Answered {
        ledger: l,
        answer: o.answer,
    }
}

// The unclaimed count, of a well-formed ledger.
#[tactic(auto, using(forms::proofs::Reading::unclaimed_used), unfolding(rules::specs::Count::counted))]
pub fn count(l: Ledger) -> Result<u64, Refusal>
    ensures { told result ≡ counted l }
{
    if !forms::well_formed(l) {
        return Err(Refusal::NotFormed);
    }
    Ok(l.unclaimed())
}
