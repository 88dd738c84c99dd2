// A ledger's numbers, its table of nodes, and well formed. Each test is total: a ledger handed in may hold any numbers.
#![tactic(auto)]

ghost use Rattle.std.specs.Prelude.{◌≡◌};
ghost use Rattle.rules.specs.States.{stolen_of};
ghost use Rattle.rules.specs.Table.{at, sum_by};
ghost use Rattle.rules.specs.WellFormed.{well_formed};

use rules::{Ledger, Node, Opening};

mod head;
mod table;
mod walk;

pub use head::Head;
pub use table::Table;
pub use walk::stolen_if_formed;

// Node n, which stands in slot n - 1. A number past the table has an unused node.
#[tactic(auto, unfolding(rules::specs::Table::at))]
pub fn node_at(l: &Ledger, n: usize) -> Node
    ensures { result ≡ at l.now n }
{
    l.nodes
        .get(n.saturating_sub(1))
        .copied()
        .unwrap_or(nodes::blank_node())
}

// How many of the nodes are STOLEN.
pub fn stolen_in(nodes: &[Node; Opening::NODES]) -> u32
    ensures { result ≡ sum_by stolen_of nodes.now }
{
    nodes.iter().map(|x| nodes::stolen_one(*x)).sum()
}

// Whether a ledger, of any numbers at all, is well formed.
pub fn well_formed(l: Ledger) -> bool
    ensures { result ≡ well_formed l }
{
    stolen_if_formed(&l).is_some()
}
