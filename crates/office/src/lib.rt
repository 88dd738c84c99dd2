// The ledger on bytes, as a program in C has it: three calls, each exactly as the definitions of specs/ say, on every input. What a request decides
// is `requests::decide`, over the view that is read off the bytes. No call keeps anything of its own.
#![tactic(auto)]

ghost use Rattle.std.specs.Prelude.{◌≡◌, pos, length};
ghost use Rattle.rules.specs.Asks.{request};
ghost use Rattle.office_forms.specs.Codes.{formed_code};
ghost use Rattle.office.specs.Calls.{telling, code_of, area_after, answer_after, count_of, opening_of, open_code, open_area};

use rules::{Opening, Refusal, Request};

mod opens;

// Opens a ledger in the area. Refused by 20 or 37, the area stays.
pub fn yol_open(ledger: &mut [u8], start: i32, until: i32, teams: i32, cap: i32, nodes: i32) -> i32
    ensures code { result ≡ pos (open_code ledger.old (opening_of start until teams cap nodes)) }
    ensures area { ledger.new ≡ open_area ledger.old (opening_of start until teams cap nodes) }
{
    let o = Opening {
        start,
        until,
        teams,
        cap,
        nodes,
    };
    if !o.is_good() {
        return Refusal::Opening.code() as i32;
    }
    if ledger.len() < layout::HEAD + layout::NODE * numbers::natural(nodes) as usize {
        return Refusal::Short.code() as i32;
    }
    opens::put_new(ledger, o);
    0
}

// Whether the answer of a request with this code is written: one that is granted, and one on a node that is split already.
fn tells(code: u32) -> bool
    ensures { result ≡ telling code }
{
    code == 0 || code == Refusal::AlreadySplit.code()
}

// One request: returns its code, changes the area as it was granted, and at 0 and 16 writes the answer.
pub fn yol_request(
    ledger: &mut [u8],
    answer: &mut [u8],
    kind: i32,
    team: i32,
    node: i32,
    position: i32,
    amount: i32,
    count: i32,
    first: i32,
    last: i32,
) -> i32
    ensures code { result ≡ pos (code_of ledger.old (length answer.old) (request kind team node position amount count first last)) }
    ensures area { ledger.new ≡ area_after ledger.old (length answer.old) (request kind team node position amount count first last) }
    ensures out { answer.new ≡ answer_after ledger.old answer.old (request kind team node position amount count first last) }
{
    if answer.len() < layout::ANSWER {
        return Refusal::Short.code() as i32;
    }
    let formed = match office_forms::judge(ledger) {
        Ok(formed) => formed,
        Err(e) => return e.code() as i32,
    };
    let r = Request::new(kind, team, node, position, amount, count, first, last);
    let o = office_views::outcome_of(&formed, r);
    office_stores::apply(ledger, numbers::natural(node), o.change);
    if tells(o.answer.code) {
        office_views::put_answer(answer, o.answer);
    }
    numbers::to_signed(o.answer.code)
}

// The unclaimed count, or the code of its refusal with a minus.
pub fn yol_unclaimed(ledger: &[u8]) -> i32
    ensures { result ≡ count_of ledger.now }
{
    match office_forms::judge(ledger) {
        Ok(formed) => office_views::unclaimed_in(&formed.area) as i32,
        Err(e) => -(e.code() as i32),
    }
}
