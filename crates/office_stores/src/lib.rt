// Writes what a change moves, and nothing else.
#![tactic(auto)]

ghost use Rattle.std.specs.Prelude.{◌≡◌};
ghost use Rattle.rules.specs.Requests.{changed};
ghost use Rattle.layout.specs.Areas.{decoded, over};
ghost use Rattle.office_forms.specs.Codes.{formed_code};
ghost use Rattle.office_stores.specs.Changes.{Inside, push_gives};

use forms::Table;
use layout::{Field, Found};
use office_forms::Area;
use rules::{Change, Finds, Node};

// The joined result that a push gives node n. The node and its children are read again: a push is rare.
fn joined_in(area: &Area<'_>, n: u32) -> Finds
    ensures { result ≡ push_gives (decoded area.now.bytes.now) n }
{
    let x = area.node(n);
    let (left, right) = area.children(x);
    nodes::pushed_by(x, left, right).joined
}

// The node in a slot gets its left child's number; the two slots after those in use become the children.
fn split(bytes: &mut [u8], n: u32, pair: u32)
    requires { (formed_code bytes.old ≡ 0) × Inside (decoded bytes.old) n (Change.Split pair) }
    ensures { bytes.new ≡ over bytes.old (changed (decoded bytes.old) n (Change.Split pair)) }
{
    let slot = (n - 1) as usize;
    let x = layout::slot_in(bytes, slot);
    layout::put_field(bytes, slot, Field::Left, pair);
    layout::put_slot(bytes, (pair - 1) as usize, nodes::left_part(x));
    layout::put_slot(bytes, pair as usize, nodes::right_part(x));
    layout::put_number(bytes, layout::USED, pair + 1);
}

// A change of node n. What it stores stands in the ledger's own room, so nothing is tested here.
#[tactic(auto, using(crate::proofs::Laws::kept_area, crate::proofs::Laws::owned_area))]
pub fn apply(bytes: &mut [u8], n: u32, c: Change)
    requires { (formed_code bytes.old ≡ 0) × Inside (decoded bytes.old) n c }
    ensures { bytes.new ≡ over bytes.old (changed (decoded bytes.old) n c) }
{
    let slot = n.saturating_sub(1) as usize;
    match c {
        Change::Keep => {}
        Change::Own(team) => layout::put_field(bytes, slot, Field::Owner, team),
        Change::Advance(p) => layout::put_progress(bytes, slot, numbers::to_signed(p)),
        Change::Mark(p) => {
            layout::put_progress(bytes, slot, numbers::mark_of(numbers::to_signed(p)))
        }
        Change::Split(pair) => split(bytes, n, pair),
        Change::Report(f) => layout::put_result(bytes, slot, Found::Own, f, Node::PREPARED),
        Change::Push => {
            let f = joined_in(&Area::of(bytes), n);
            layout::put_result(bytes, slot, Found::Joined, f, Node::PUSHED);
        }
    }
}
