// What a request sees of the ledger that an area stands for, what it answers, and the unclaimed count.
#![tactic(auto)]

ghost use Rattle.std.specs.Prelude.{◌≡◌, ◌≤◌, length};
ghost use Rattle.rules.specs.Count.{unclaimed};
ghost use Rattle.rules.specs.Requests.{decided, view, node_in};
ghost use Rattle.layout.specs.Sizes.{answer_size};
ghost use Rattle.layout.specs.Numbers.{written};
ghost use Rattle.layout.specs.Areas.{decoded};
ghost use Rattle.office_forms.specs.Codes.{formed_code};
ghost use Rattle.office_views.specs.Answers.{answer_bytes};

use forms::Table;
use office_forms::{Area, Formed};
use rules::{Answer, Outcome, Request, View};

// What a request sees of node n.
#[tactic(auto, unfolding(rules::specs::Requests::view, rules::specs::Table::next_pair))]
fn view_in(formed: &Formed<'_>, n: u32) -> View
    ensures { result ≡ view (decoded formed.now.area.bytes.now) n }
{
    let area = formed.area;
    area.view(formed.stolen, area.head.used + 1, n)
}

#[tactic(auto, using(nodes::proofs::Laws::natural_held))]
pub fn outcome_of(formed: &Formed<'_>, r: Request) -> Outcome
    ensures { result ≡ decided (view (decoded formed.now.area.bytes.now) (node_in r)) r }
{
    let v = view_in(formed, numbers::natural(r.node));
    requests::decide(v, r)
}

#[tactic(auto, unfolding(crate::specs::Answers::answer_bytes))]
pub fn put_answer(out: &mut [u8], a: Answer)
    requires { answer_size ≤ length out.old }
    ensures { out.new ≡ written out.old 0 (answer_bytes a) }
{
    let numbers = [a.code, a.state, a.from, a.to, a.owner, a.left];
    layout::put_numbers(out, 0, &numbers);
}

// The unclaimed count, which the nodes in use make: unused slots add nothing.
#[tactic(auto, using(crate::proofs::Laws::unclaimed_here))]
pub fn unclaimed_in(area: &Area<'_>) -> u64
    requires { formed_code area.now.bytes.now ≡ 0 }
    ensures { result ≡ unclaimed (decoded area.now.bytes.now) }
{
    area.unclaimed()
}
