// The three calls of `office` under their names in C, for include/yolstrady.h. Each promises what its function promises, word for word.
#![tactic(auto)]

ghost use Rattle.std.specs.Prelude.{◌≡◌, pos, length};
ghost use Rattle.rules.specs.Asks.{request};
ghost use Rattle.office.specs.Calls.{code_of, area_after, answer_after, count_of, opening_of, open_code, open_area};

// Opens a ledger in the area. Refused by 20 or 37, the area stays.
#[unsafe(no_mangle)]
pub extern "C" fn yol_open(
    ledger: &mut [u8],
    start: i32,
    until: i32,
    teams: i32,
    cap: i32,
    nodes: i32,
) -> i32
    ensures code { result ≡ pos (open_code ledger.old (opening_of start until teams cap nodes)) }
    ensures area { ledger.new ≡ open_area ledger.old (opening_of start until teams cap nodes) }
{
    office::yol_open(ledger, start, until, teams, cap, nodes)
}

// One request: returns its code, changes the area as it was granted, and at 0 and 16 writes the answer.
#[unsafe(no_mangle)]
pub extern "C" fn yol_request(
    ledger: &mut [u8],
    answer: &mut [u8],
    kind: i32,
    team: i32,
    node: i32,
    position: i32,
    amount: i32,
    count: i32,
    first: i32,
    last: i32,
) -> i32
    ensures code { result ≡ pos (code_of ledger.old (length answer.old) (request kind team node position amount count first last)) }
    ensures area { ledger.new ≡ area_after ledger.old (length answer.old) (request kind team node position amount count first last) }
    ensures out { answer.new ≡ answer_after ledger.old answer.old (request kind team node position amount count first last) }
{
    office::yol_request(
        ledger, answer, kind, team, node, position, amount, count, first, last,
    )
}

// The unclaimed count, or the code of its refusal with a minus.
#[unsafe(no_mangle)]
pub extern "C" fn yol_unclaimed(ledger: &[u8]) -> i32
    ensures { result ≡ count_of ledger.now }
{
    office::yol_unclaimed(ledger)
}
