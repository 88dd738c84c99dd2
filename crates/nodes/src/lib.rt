// One node: what it is, and each way to make one.
#![tactic(auto)]

ghost use Rattle.std.specs.Prelude.{◌≡◌};
ghost use Rattle.rules.specs.Nodes.{blank, owned, parted, reported, position_of, left_over, marked, unowned, childless, middle, left_part};
ghost use Rattle.rules.specs.States.{completed, state_of, stolen_of, ended, is_pushed, unready};
ghost use Rattle.rules.specs.StateCases.{number_of};
ghost use Rattle.rules.specs.Count.{rest_of};
ghost use Rattle.nodes.specs.Makers.{held_fresh, held_advanced, held_marked, held_right, part_of, held_pushed};

use rules::{Finds, Node, State};

pub mod formed;
pub mod moves;

pub fn is_completed(x: Node) -> bool
    ensures { result ≡ completed x }
{
    numbers::is_number(x.progress, x.until)
}

pub fn is_marked(x: Node) -> bool
    ensures { result ≡ marked x }
{
    numbers::is_negative(x.progress)
}

pub fn is_childless(x: Node) -> bool
    ensures { result ≡ childless x }
{
    x.left == 0
}

pub fn is_unowned(x: Node) -> bool
    ensures { result ≡ unowned x }
{
    x.owner == 0
}

pub fn position_of(x: Node) -> u32
    ensures { result ≡ position_of x }
{
    numbers::position_of(x.progress)
}

pub fn left_over(x: Node) -> u32
    ensures { result ≡ left_over x }
{
    x.until.saturating_sub(position_of(x))
}

// The middle is reached from the position by half of the rest, which never passes the range's end; a sum of both ends could.
#[tactic(auto, unfolding(rules::specs::Nodes::middle))]
pub fn middle_of(x: Node) -> u32
    ensures { result ≡ middle x }
{
    position_of(x) + left_over(x) / 2
}

#[tactic(auto, unfolding(rules::specs::States::state_of))]
pub fn state_of(x: Node) -> State
    ensures { number_of result ≡ state_of x }
{
    if is_completed(x) {
        State::Completed
    } else if is_marked(x) && !is_childless(x) {
        State::Expanded
    } else if is_marked(x) {
        State::Stolen
    } else if is_unowned(x) {
        State::Available
    } else {
        State::Owned
    }
}

// 1 for a STOLEN node, 0 for any other.
#[tactic(auto, unfolding(rules::specs::States::stolen_of))]
pub fn stolen_one(x: Node) -> u32
    ensures { result ≡ stolen_of x }
{
    u32::from(state_of(x) == State::Stolen)
}

// What the node adds to the unclaimed count.
#[tactic(auto, unfolding(rules::specs::Count::rest_of))]
pub fn rest_of(x: Node) -> u32
    ensures { result ≡ rest_of x }
{
    if is_childless(x) { left_over(x) } else { 0 }
}

// Whether the node's work has ended: COMPLETED, STOLEN or EXPANDED.
#[tactic(auto, unfolding(rules::specs::States::ended))]
pub fn is_ended(x: Node) -> bool
    ensures { result ≡ ended x }
{
    is_completed(x) || is_marked(x)
}

pub fn is_pushed(x: Node) -> bool
    ensures { result ≡ is_pushed x }
{
    x.stage == Node::PUSHED
}

// Whether the node, with the children a and b, cannot be pushed yet.
#[tactic(auto, unfolding(rules::specs::States::unready))]
pub fn is_unready(x: Node, a: Node, b: Node) -> bool
    ensures { result ≡ unready x a b }
{
    !is_completed(x) && (is_childless(x) || !(is_pushed(a) && is_pushed(b)))
}

// What a child adds to the joined result of the node: nothing where the node has no children.
#[tactic(auto, unfolding(crate::specs::Makers::part_of))]
fn part_of(x: Node, child: Node) -> Finds
    ensures { result ≡ part_of x child }
{
    if is_childless(x) {
        finds::none()
    } else {
        child.joined
    }
}

pub fn blank_node() -> Node
    ensures { result ≡ blank }
{
    Node::default()
}

// A start past the limits is no progress, and is never asked for: the largest progress stands in for it. An empty node is made pushed.
pub fn fresh_node(a: u32, b: u32) -> Node
    ensures { result ≡ held_fresh a b }
{
    Node {
        start: a,
        until: b,
        progress: numbers::to_signed(a),
        stage: if a == b {
            Node::PUSHED
        } else {
            Node::UNREPORTED
        },
        ..blank_node()
    }
}

pub fn owned_by(x: Node, team: u32) -> Node
    ensures { result ≡ owned x team }
{
    Node { owner: team, ..x }
}

// The node, advanced to a position. As with a start, none past the limits is asked for.
pub fn advanced_to(x: Node, p: u32) -> Node
    ensures { result ≡ held_advanced x p }
{
    Node {
        progress: numbers::to_signed(p),
        ..x
    }
}

// The node, marked at a position.
pub fn marked_at(x: Node, p: u32) -> Node
    ensures { result ≡ held_marked x p }
{
    Node {
        progress: numbers::mark_of(numbers::to_signed(p)),
        ..x
    }
}

pub fn parted_at(x: Node, left: u32) -> Node
    ensures { result ≡ parted x left }
{
    Node { left, ..x }
}

#[tactic(auto, unfolding(rules::specs::Nodes::left_part))]
pub fn left_part(x: Node) -> Node
    ensures { result ≡ left_part x }
{
    fresh_node(position_of(x), middle_of(x))
}

#[tactic(auto, unfolding(crate::specs::Makers::held_right))]
pub fn right_part(x: Node) -> Node
    ensures { result ≡ held_right x }
{
    fresh_node(middle_of(x), x.until)
}

// The node, prepared with its own result.
pub fn reported_by(x: Node, f: Finds) -> Node
    ensures { result ≡ reported x f }
{
    Node {
        own: f,
        stage: Node::PREPARED,
        ..x
    }
}

// The node, pushed with its own result and those of its children a and b joined.
#[tactic(auto, unfolding(crate::specs::Makers::held_pushed))]
pub fn pushed_by(x: Node, a: Node, b: Node) -> Node
    ensures { result ≡ held_pushed x a b }
{
    Node {
        joined: finds::join_held(x.own, part_of(x, a), part_of(x, b)),
        stage: Node::PUSHED,
        ..x
    }
}
