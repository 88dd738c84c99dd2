// A table of nodes, wherever it stands: as a value, or as the bytes of an area. What is read of it is that of the ledger that it stands for.
ghost use Rattle.std.specs.Prelude.{◌≡◌, ℕ, ◌+◌, ◌≤◌, ◌<◌, length};
ghost use Rattle.rules.specs.declared.Ledger.{Ledger};
ghost use Rattle.rules.specs.Limits.{max_nodes};
ghost use Rattle.rules.specs.Nodes.{blank};
ghost use Rattle.rules.specs.Table.{at, sum_by};
ghost use Rattle.rules.specs.Count.{rest_of};
ghost use Rattle.forms.specs.Head.{head_of};
ghost use Rattle.forms.specs.Table.{children_of, view_by, used_nodes};

use crate::{Head, node_at};
use rules::{Ledger, Node, Opening, View};

pub trait Table {
    // The ledger that the table stands for, and how many slots are the table's own.
    ghost ledger: { Self → Ledger };

    ghost own_slots: { Self → ℕ };

    fn head(&self) -> Head
        ensures { result ≡ head_of (ledger self.now) };

    // The node in a slot; past the table's own slots there are unused ones alone.
    fn slot(&self, i: u32) -> Node
        ensures { result ≡ at (ledger self.now) (i + 1) };

    // How many slots are the table's own.
    fn slots(&self) -> u32
        ensures value { result ≡ own_slots self.now }
        ensures small { result ≤ max_nodes }
        ensures past { (n : ℕ) → result < n → at (ledger self.now) n ≡ blank };

    // Node n. Node 0 is read where node 1 stands, as in the rules.
    #[tactic(auto, using(crate::proofs::Reading::node_at))]
    final fn node(&self, n: u32) -> Node
        ensures { result ≡ at (ledger self.now) n }
    {
        self.slot(n.saturating_sub(1))
    }

    // The children of a node: the second stands in the slot that has the first one's number.
    final fn children(&self, x: Node) -> (Node, Node)
        ensures { result ≡ children_of (ledger self.now) x }
    {
        (self.node(x.left), self.slot(x.left))
    }

    // What a request sees of node n, where so many nodes are STOLEN and a new pair would get this number.
    final fn view(&self, stolen: u32, pair: u32, n: u32) -> View
        ensures { result ≡ view_by (ledger self.now) stolen pair n }
    {
        let head = self.head();
        let x = self.node(n);
        let (left, right) = self.children(x);
        View {
            teams: head.teams,
            room: head.room,
            used: head.used,
            stolen,
            pair,
            node: x,
            left,
            right,
        }
    }

    // What nobody has claimed of the nodes in use that have no children.
    final fn unclaimed(&self) -> u64
        ensures { result ≡ sum_by rest_of (used_nodes (ledger self.now)) }
    {
        let mut sum: u64 = 0;
        for i in 0..self.head().used {
            sum += u64::from(nodes::rest_of(self.slot(i)));
        }
        sum
    }
}

// The slots of a ledger's table.
fn slots_of(nodes: &[Node; Opening::NODES]) -> u32
    ensures size { result ≡ max_nodes }
    ensures whole { result ≡ length nodes.now }
{
    Opening::NODES as u32
}

impl Table for Ledger {
    ghost ledger = { λ l. l };

    ghost own_slots = { λ l. max_nodes };

    fn head(&self) -> Head {
        Head {
            start: self.start,
            until: self.until,
            teams: self.teams,
            room: self.room,
            used: self.used,
        }
    }

    fn slot(&self, i: u32) -> Node {
        node_at(self, i as usize + 1)
    }

    #[tactic(auto, using(crate::proofs::Whole::past_table))]
    fn slots(&self) -> u32 {
        slots_of(&self.nodes)
    }
}
