// The table of nodes. A table that stands somewhere else, as in a run, is read by `slot_for`, `node_for` and `view_by`; the others borrow a
// ledger: the view of a request, and the change that a granted request or a step makes.
ghost use Rattle.std.specs.Prelude.{◌≡◌, ◌+◌, ◌-◌, ◌≤◌, set};
ghost use Rattle.rules.specs.Limits.{max_nodes};
ghost use Rattle.rules.specs.Nodes.{parted, left_part};
ghost use Rattle.rules.specs.Table.{at, put, grown};
ghost use Rattle.rules.specs.Requests.{view, changed};
ghost use Rattle.nodes.specs.Makers.{held_right, held_pushed};
ghost use Rattle.ledger.specs.Slots.{IsSlot, Stores};
ghost use Rattle.ledger.specs.Table.{slot_for, node_for, view_by};

use forms::Table;
use rules::{Change, Ledger, Node, Opening, View};

// The slots of the table, as a number of nodes, and the last of them.
const SLOTS: u32 = Opening::NODES as u32;

const LAST: u32 = SLOTS - 1;

// A slot of the table, whatever the number.
pub fn slot_for(n: u32) -> usize
    ensures { result ≡ slot_for n }
{
    n.saturating_sub(1).min(LAST) as usize
}

// Node n, where x stands in that slot.
pub fn node_for(n: u32, x: Node) -> Node
    ensures { result ≡ node_for n x }
{
    if n <= SLOTS { x } else { nodes::blank_node() }
}

// The view of a node without its children.
pub fn view_by(teams: u32, room: u32, used: u32, stolen: u32, pair: u32, x: Node) -> View
    ensures { result ≡ view_by teams room used stolen pair x }
{
    View {
        teams,
        room,
        used,
        stolen,
        pair,
        node: x,
        left: nodes::blank_node(),
        right: nodes::blank_node(),
    }
}

#[tactic(auto, unfolding(rules::specs::Requests::view, rules::specs::Table::next_pair, rules::specs::Table::stolen_in))]
pub(crate) fn view_of(l: &Ledger, n: u32) -> View
    requires { l.now.used ≤ max_nodes }
    ensures { result ≡ view l.now n }
{
    l.view(forms::stolen_in(&l.nodes), l.used + 1, n)
}

// Node n becomes x. A number past the table has no slot, and nothing changes.
fn store(nodes: &mut [Node; Opening::NODES], n: u32, x: Node)
    ensures { nodes.new ≡ set nodes.old (n - 1) x }
{
    let slot = n.saturating_sub(1) as usize;
    if slot < Opening::NODES {
        nodes[slot] = x;
    }
}

#[tactic(auto, unfolding(rules::specs::Table::put, rules::specs::Table::grown))]
fn split(l: &mut Ledger, n: u32, pair: u32)
    requires { IsSlot (pair + 1) }
    ensures { l.new ≡ grown (put (put (put l.old n (parted (at l.old n) pair)) pair (left_part (at l.old n))) (pair + 1) (held_right (at l.old n))) pair }
{
    let x = l.node(n);
    store(&mut l.nodes, n, nodes::parted_at(x, pair));
    store(&mut l.nodes, pair, nodes::left_part(x));
    store(&mut l.nodes, pair + 1, nodes::right_part(x));
    l.used = l.used.max(pair + 1);
}

#[tactic(auto, unfolding(rules::specs::Table::put))]
fn push(l: &mut Ledger, n: u32)
    ensures { l.new ≡ put l.old n (held_pushed (at l.old n) (at l.old (at l.old n).left) (at l.old ((at l.old n).left + 1))) }
{
    let x = l.node(n);
    let (left, right) = l.children(x);
    store(&mut l.nodes, n, nodes::pushed_by(x, left, right));
}

// What a granted request, or a step, does to node n. A node that changes is in its slot.
#[tactic(auto, using(nodes::proofs::Makers::right_within, nodes::proofs::Makers::pushed_within), unfolding(rules::specs::Requests::changed, rules::specs::Table::put, rules::specs::Table::at))]
pub fn change(l: &mut Ledger, n: u32, c: Change)
    requires { Stores l.old n c }
    ensures { l.new ≡ changed l.old n c }
{
    let slot = n.saturating_sub(1) as usize;
    match c {
        Change::Keep => {}
        Change::Own(team) => l.nodes[slot] = nodes::owned_by(l.nodes[slot], team),
        Change::Advance(p) => l.nodes[slot] = nodes::advanced_to(l.nodes[slot], p),
        Change::Mark(p) => l.nodes[slot] = nodes::marked_at(l.nodes[slot], p),
        Change::Split(pair) => split(l, n, pair),
        Change::Report(f) => l.nodes[slot] = nodes::reported_by(l.nodes[slot], f),
        Change::Push => push(l, n),
    }
}
