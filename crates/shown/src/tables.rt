// Ledgers and nodes made of numbers, whatever the rules say of them, and a node read by the number that a request brings.
ghost use Rattle.std.specs.Prelude.{◌≡◌};
ghost use Rattle.numbers.specs.Fields.{nat_of};
ghost use Rattle.rules.specs.Table.{put};
ghost use Rattle.shown.specs.Tables.{opened, after, node_with, with_results, finds, node_of, rooted, halved, owned};

use crate::asks::{expand, own};
use rules::{Finds, Ledger, Node, Opening, Request};

// A ledger with an untouched root. The cap belongs to the run, and the least stands in for it. Past the limits it is all 0.
pub fn opened(start: i32, until: i32, teams: i32, nodes: i32) -> Ledger
    ensures { result ≡ opened start until teams nodes }
{
    ledger::open(Opening {
        start,
        until,
        teams,
        cap: 1,
        nodes,
    })
    .ledger
}

// The ledger after these requests, in their order.
pub fn after(l: Ledger, requests: &[Request]) -> Ledger
    ensures { result ≡ after l requests.now }
{
    requests
        .iter()
        .fold(l, |l, r| ledger::request(l, *r).ledger)
}

// A node of which nothing is reported; an empty one is pushed.
pub fn node(start: u32, until: u32, progress: i32, owner: u32, left: u32) -> Node
    ensures { result ≡ node_with start until progress owner left }
{
    Node {
        progress,
        owner,
        left,
        ..nodes::fresh_node(start, until)
    }
}

// The node with these results at this stage.
pub fn reported(x: Node, own: Finds, joined: Finds, stage: u32) -> Node
    ensures { result ≡ with_results x own joined stage }
{
    Node {
        own,
        joined,
        stage,
        ..x
    }
}

// The result of a node in which nothing was found.
pub const NONE: Finds = Finds {
    count: 0,
    first: 0,
    last: 0,
};

pub fn finds(count: u32, first: u32, last: u32) -> Finds
    ensures { result ≡ finds count first last }
{
    Finds { count, first, last }
}

// The ledger with another node n. A number below 1 stands for the root, and one past the table changes nothing.
#[tactic(auto, unfolding(rules::specs::Table::put))]
pub fn with_node(mut l: Ledger, n: i32, x: Node) -> Ledger
    ensures { result ≡ put l (nat_of n) x }
{
    let slot = numbers::natural(n).saturating_sub(1) as usize;
    if slot < l.nodes.len() {
        l.nodes[slot] = x;
    }
    l
}

#[tactic(auto, unfolding(rules::specs::Table::at))]
pub fn node_of(l: &Ledger, n: i32) -> Option<Node>
    ensures { result ≡ node_of l.now n }
{
    let has_slot = numbers::in_range(n, 1, Opening::NODES as u32);
    has_slot.then_some(forms::node_at(l, numbers::natural(n) as usize))
}

// A ledger of two teams that has only its root, from 0, at a progress of an owner.
pub fn rooted(until: i32, nodes: i32, progress: i32, owner: u32) -> Ledger
    ensures { result ≡ rooted until nodes progress owner }
{
    let root = node(0, numbers::natural(until), progress, owner, 0);
    with_node(opened(0, until, 2, nodes), 1, root)
}

// 0..8 of team 1, split at 3: nobody owns its children, of which node 2 has 3..5 and node 3 has 5..8.
pub fn halved(nodes: i32) -> Ledger
    ensures { result ≡ halved nodes }
{
    after(rooted(8, nodes, -4, 1), &[expand(2, 1)])
}

// The same, where team 1 owns node 2 and team 2 node 3.
pub fn owned(nodes: i32) -> Ledger
    ensures { result ≡ owned nodes }
{
    after(halved(nodes), &[own(1, 2), own(2, 3)])
}
