// The ledger of an opening, and the all-zero ledger of a refused one.
ghost use Rattle.std.specs.Prelude.{◌≡◌, true, replicate};
ghost use Rattle.rules.specs.Limits.{max_nodes, opens};
ghost use Rattle.rules.specs.Nodes.{blank};
ghost use Rattle.rules.specs.Opening.{ledger_of, closed};

use rules::{Ledger, Node, Opening};

fn blank_table() -> [Node; Opening::NODES]
    ensures { result ≡ replicate max_nodes blank }
{
    [nodes::blank_node(); Opening::NODES]
}

pub(crate) fn closed_ledger() -> Ledger
    ensures { result ≡ closed }
{
    Ledger {
        start: 0,
        until: 0,
        teams: 0,
        room: 0,
        used: 0,
        nodes: blank_table(),
    }
}

pub(crate) fn opened_by(o: Opening) -> Ledger
    requires { opens o ≡ true }
    ensures { result ≡ ledger_of o }
{
    let start = numbers::natural(o.start);
    let until = numbers::natural(o.until);
    let teams = numbers::natural(o.teams);
    let room = numbers::natural(o.nodes);
    let mut nodes = blank_table();
    nodes[0] = nodes::fresh_node(start, until);
    Ledger {
        start,
        until,
        teams,
        room,
        used: 1,
        nodes,
    }
}
