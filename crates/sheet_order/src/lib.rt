// The listing of a ledger's root, computed for small examples: who has which sheets, in the order in which the rules list them.
#![tactic(auto)]

ghost use Rattle.std.specs.Prelude.{◌≡◌, ◌≤◌, IfSome, replicate};
ghost use Rattle.laws.specs.Listed.{listed};
ghost use Rattle.sheet_order.specs.Row.{most, no_piece, empty, with_piece, with_all, told, kept};
ghost use Rattle.sheet_order.specs.Order.{Readable, history, sheets_of, from_node, granted_to, pieces, in_order, answered};

use rules::Ledger;

// The most nodes of a ledger that is small enough: each call of `with_node` inside another holds a row of its own.
const NODES: u32 = 31;

// The sheets from..to of a node, granted to a team; unclaimed ones where the team is 0.
#[derive(Clone, Copy, Debug, PartialEq, Eq)]
pub struct Piece {
    pub team: u32,
    pub node: u32,
    pub from: u32,
    pub to: u32,
}

// A row of pieces: the first `count` of the items.
#[derive(Clone, Copy)]
pub struct Pieces {
    pub count: usize,
    pub items: [Piece; Pieces::MOST],
}

impl Pieces {
    // The most pieces of a row.
    pub const MOST: usize = 32;

    pub fn none() -> Pieces
        ensures { result ≡ empty }
    {
        let no_piece = Piece {
            team: 0,
            node: 0,
            from: 0,
            to: 0,
        };
        Pieces {
            count: 0,
            items: [no_piece; Pieces::MOST],
        }
    }

    // The row with a piece more at its end, where it has room.
    #[tactic(auto, unfolding(crate::specs::Row::with_piece))]
    pub fn with(mut self, p: Piece) -> Option<Pieces>
        ensures { result ≡ kept (with_piece self p) }
    {
        if self.count >= Pieces::MOST {
            return None;
        }
        self.items[self.count] = p;
        self.count += 1;
        Some(self)
    }
}

// What was granted from node n, in the order in which it was granted, at the row's end.
fn with_granted(mut row: Pieces, granted: &Pieces, n: u32) -> Option<Pieces>
    requires { (row.count ≤ most) × (granted.now.count ≤ most) }
    ensures { result ≡ kept (with_all row (from_node (granted_to granted.now.items granted.now.count) n)) }
{
    for p in &granted.items[..granted.count] {
        if p.node == n {
            row = row.with(*p)?;
        }
    }
    Some(row)
}

// The pieces of node n, at the row's end: what was granted, then the children's pieces from left to right, or else what is unclaimed.
fn with_node(row: Pieces, depth: u32, l: &Ledger, granted: &Pieces, n: u32) -> Option<Pieces>
    requires room { row.count ≤ most }
    requires readable { Readable l.now granted.now n }
    ensures { result ≡ kept (with_all row (pieces depth l.now (granted_to granted.now.items granted.now.count) n)) }
{
    if depth == 0 {
        return Some(row);
    }
    let x = forms::node_at(l, n as usize);
    let own = with_granted(row, granted, n)?;
    if nodes::is_childless(x) {
        return own.with(Piece {
            team: 0,
            node: n,
            from: nodes::position_of(x),
            to: x.until,
        });
    }
    let then = with_node(own, depth - 1, l, granted, x.left)?;
    with_node(then, depth - 1, l, granted, x.left + 1)
}

// The root's listing, where `granted` is what was granted so far, oldest first. There is none where the ledger is not well formed or has over
// 31 nodes, and where over 32 pieces were granted or make the listing.
pub fn in_order(l: Ledger, granted: Pieces) -> Option<Pieces>
    ensures value { result ≡ answered (in_order l granted) }
    ensures listing { IfSome result (λ r. sheets_of (told r) ≡ listed l.used l (history granted) 1) }
{
    if !forms::well_formed(l) || l.used > NODES || granted.count > Pieces::MOST {
        return None;
    }
    with_node(Pieces::none(), l.used, &l, &granted, 1)
}
