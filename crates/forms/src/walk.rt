// Well formed, over any table of nodes: one walk over the nodes in use, and one over the unused slots. The rules of a node are those of
// `nodes::formed`. A ledger's numbers are tested first, so that no other test scans further than they allow.
ghost use Rattle.std.specs.Prelude.{◌≡◌, ℕ, ◌+◌, ◌/◌, ◌%◌, ◌≤◌, ◌<◌, min, true};
ghost use Rattle.rules.specs.Limits.{max_nodes};
ghost use Rattle.rules.specs.Nodes.{blank};
ghost use Rattle.rules.specs.Table.{at};
ghost use Rattle.rules.specs.WellFormed.{up_to, numbers_rule, root_range, unused_rule};
ghost use Rattle.forms.specs.Walk.{family_rule, even_once, formed_stolen};

use crate::Table;
use rules::{Node, Opening};

// A place for each even number up to the last node's, by its half, and one for 0.
const HALVES: usize = Opening::NODES / 2 + 1;

// Where a left child's number is counted: an even one of the table at its half, any other with 0.
fn half_slot(left: u32) -> usize
    ensures { (result ≤ max_nodes / 2) × (left ≤ max_nodes → left % 2 ≡ 0 → result ≡ left / 2) × (max_nodes < left → result ≡ 0) × (left % 2 ≡ 1 → result ≡ 0) }
{
    if left <= Opening::NODES as u32 && left % 2 == 0 {
        left as usize / 2
    } else {
        0
    }
}

// One more, where two stands for every count past one.
fn once_more(had: u8) -> u8
    ensures { result ≡ min (had + 1) 2 }
{
    had.saturating_add(1).min(2)
}

fn pairs_ok(seen: &[u8; HALVES], used: u32) -> bool
    requires { (used % 2 ≡ 1) × (used ≤ max_nodes) }
    ensures { result ≡ up_to (even_once seen.now) used }
{
    let half = used as usize / 2;
    seen[1..=half].iter().all(|n| *n == 1)
}

fn root_ok<T: Table>(t: &T) -> bool
    ensures { result ≡ root_range (T.ledger t.now) }
{
    t.head().has_root(t.slot(0))
}

// The rules of node n that look at its children. They are read only where their numbers are in use: elsewhere no rule sees them.
#[tactic(auto, using(crate::proofs::Whole::no_family, crate::proofs::Whole::far_family))]
fn family_ok<T: Table>(t: &T, used: u32, n: u32, x: Node) -> bool
    ensures { result ≡ family_rule (T.ledger t.now) used n x }
{
    if x.left == 0 {
        return nodes::formed::stage_ok(x, x, x);
    }
    if used <= x.left {
        return false;
    }
    let (a, b) = t.children(x);
    // With `&&`, which branches between them, a call on a full ledger takes a tenth longer.
    nodes::formed::child_ok(n, used, x, a, b) & nodes::formed::stage_ok(x, a, b)
}

// The slots after those in use, up to the table's own last one. They are scanned to the end, without a branch: a scan that ends at a fault
// takes nearly twice as long on every table that has none.
fn blanks_ok<T: Table>(t: &T) -> bool
    ensures value { result ≡ up_to (unused_rule (T.ledger t.now)) max_nodes }
    ensures past { (n : ℕ) → max_nodes < n → at (T.ledger t.now) n ≡ blank }
{
    let mut ok = true;
    for i in t.head().used..t.slots() {
        ok &= nodes::formed::blank_ok(t.slot(i));
    }
    ok
}

// How many of the nodes are STOLEN, where the table passes.
#[tactic(auto, using(rules::proofs::States::at_most_one, crate::proofs::Whole::no_root, crate::proofs::Whole::no_blanks))]
fn walk<T: Table>(t: &T) -> Option<u32>
    requires { numbers_rule (T.ledger t.now) ≡ true }
    ensures { result ≡ formed_stolen (T.ledger t.now) }
{
    let head = t.head();
    if !root_ok(t) || !blanks_ok(t) {
        return None;
    }
    let mut seen = [0u8; HALVES];
    let mut stolen: u32 = 0;
    for i in 0..head.used {
        let x = t.slot(i);
        if !nodes::formed::alone_ok(head.teams, x) || !family_ok(t, head.used, i + 1, x) {
            return None;
        }
        stolen += nodes::stolen_one(x);
        let half = half_slot(x.left);
        seen[half] = once_more(seen[half]);
    }
    if head.has_room(stolen) && pairs_ok(&seen, head.used) {
        Some(stolen)
    } else {
        None
    }
}

// How many of the nodes are STOLEN in a table that stands for a well-formed ledger; of any other, none.
#[tactic(auto, using(crate::proofs::Whole::bad_numbers))]
pub fn stolen_if_formed<T: Table>(t: &T) -> Option<u32>
    ensures { result ≡ formed_stolen (T.ledger t.now) }
{
    if !t.head().is_good() {
        return None;
    }
    walk(t)
}
