// The rules of well formed on one node, on a node with its children and on an unused slot. Each is total: a node may hold any numbers.
ghost use Rattle.std.specs.Prelude.{◌≡◌};
ghost use Rattle.rules.specs.WellFormed.{alone_rule, ranges_rule, child_rule, pushed_rule, stage_rule, is_blank};

use crate::{
    is_childless, is_ended, is_marked, is_pushed, is_unowned, is_unready, middle_of, part_of,
    position_of,
};
use rules::Node;

#[tactic(auto, unfolding(rules::specs::WellFormed::alone_rule))]
pub fn alone_ok(teams: u32, x: Node) -> bool
    ensures { result ≡ alone_rule teams x }
{
    let p = position_of(x);
    let marked = is_marked(x);
    let unowned = is_unowned(x);
    x.start <= p
        && p <= x.until
        && (!marked || p < x.until)
        && x.owner <= teams
        && (!unowned || numbers::is_number(x.progress, x.start))
        && (x.start != x.until || unowned)
        && (teams != 1 || !marked)
}

fn ranges_ok(x: Node, a: Node, b: Node) -> bool
    ensures { result ≡ ranges_rule x a b }
{
    let m = middle_of(x);
    a.start == position_of(x) && a.until == m && b.start == m && b.until == x.until
}

#[tactic(auto, unfolding(rules::specs::WellFormed::child_rule))]
pub fn child_ok(n: u32, used: u32, x: Node, a: Node, b: Node) -> bool
    ensures { result ≡ child_rule n used x a b }
{
    is_childless(x)
        || (is_marked(x) && x.left % 2 == 0 && n < x.left && x.left < used && ranges_ok(x, a, b))
}

#[tactic(auto, using(crate::proofs::Makers::joined_in_parts))]
fn pushed_ok(x: Node, a: Node, b: Node) -> bool
    ensures { result ≡ pushed_rule x a b }
{
    !is_pushed(x)
        || (finds::passes(x.own)
            && finds::is_joined(x.joined, x.own, part_of(x, a), part_of(x, b))
            && !is_unready(x, a, b))
}

// The rules of a node's report.
#[tactic(auto, unfolding(rules::specs::WellFormed::stage_rule))]
pub fn stage_ok(x: Node, a: Node, b: Node) -> bool
    ensures { result ≡ stage_rule x a b }
{
    let own = finds::is_none(x.own);
    let joined = finds::is_none(x.joined);
    x.stage <= Node::PUSHED
        && (x.stage != Node::UNREPORTED || (own && joined))
        && (x.stage != Node::PREPARED || (is_ended(x) && finds::passes(x.own) && joined))
        && pushed_ok(x, a, b)
        && (x.start != x.until || (is_pushed(x) && own && joined))
}

// The fields are joined by `&`, since the derived equality branches after each, and a scan of unused slots would take nearly twice as long.
pub fn blank_ok(x: Node) -> bool
    ensures { result ≡ is_blank x }
{
    let still = numbers::is_number(x.progress, 0);
    let alone = (x.start == 0) & (x.until == 0) & still & (x.owner == 0) & (x.left == 0);
    let own = finds::is_none(x.own);
    let joined = finds::is_none(x.joined);
    alone & own & joined & (x.stage == 0)
}
