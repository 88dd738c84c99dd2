// Numbers, results and nodes in an area of bytes: read one at a time, and written one at a time.
#![tactic(auto)]

ghost use Rattle.std.specs.Prelude.{◌≡◌, ◌+◌, ◌*◌, ◌≤◌, length};
ghost use Rattle.layout.specs.Sizes.{area_size, slot_place, progress_place, stage_place};
ghost use Rattle.layout.specs.Numbers.{number_at, four, fours, bits_of, written};
ghost use Rattle.layout.specs.Areas.{finds_at, slot_at, node_bytes, result_fields};
ghost use Rattle.layout.specs.Places.{place_of, result_place};

use rules::{Finds, Node};

mod places;

pub use places::{Field, Found};

// Bytes of the ledger's five numbers, of a node and of an answer.
pub const HEAD: usize = 20;

pub const NODE: usize = 48;

pub const ANSWER: usize = 24;
// Where the ledger's numbers stand.
pub const TEAMS: usize = 8;

pub const ROOM: usize = 12;

pub const USED: usize = 16;

// The number in the four bytes from a place on, the least byte first. The compiler makes one load of it.
#[tactic(auto, using(crate::proofs::Words::from_four))]
pub fn number_at(bytes: &[u8], at: usize) -> u32
    requires { at + 4 ≤ length bytes.now }
    ensures { result ≡ number_at bytes.now at }
{
    u32::from_le_bytes([bytes[at], bytes[at + 1], bytes[at + 2], bytes[at + 3]])
}

// Writes a number into the four bytes from a place on.
pub fn put_number(bytes: &mut [u8], at: usize, n: u32)
    requires { at + 4 ≤ length bytes.old }
    ensures { bytes.new ≡ written bytes.old at (four n) }
{
    bytes[at..at + 4].copy_from_slice(&n.to_le_bytes());
}

// Writes numbers one after the other from a place on.
pub fn put_numbers(bytes: &mut [u8], at: usize, ns: &[u32])
    requires { at + 4 * length ns.now ≤ length bytes.old }
    ensures { bytes.new ≡ written bytes.old at (fours ns.now) }
{
    for (i, n) in ns.iter().enumerate() {
        put_number(bytes, at + 4 * i, *n);
    }
}

fn field_in(bytes: &[u8], i: usize, f: Field) -> u32
    requires { area_size (i + 1) ≤ length bytes.now }
    ensures { result ≡ number_at bytes.now (slot_place i + place_of f) }
{
    number_at(bytes, HEAD + NODE * i + f.place())
}

// Writes one number of the node in a slot.
pub fn put_field(bytes: &mut [u8], i: usize, f: Field, n: u32)
    requires { area_size (i + 1) ≤ length bytes.old }
    ensures { bytes.new ≡ written bytes.old (slot_place i + place_of f) (four n) }
{
    put_number(bytes, HEAD + NODE * i + f.place(), n);
}

// Writes how far the node in a slot has come.
#[tactic(auto, using(crate::proofs::Words::bits_held))]
pub fn put_progress(bytes: &mut [u8], i: usize, progress: i32)
    requires { area_size (i + 1) ≤ length bytes.old }
    ensures { bytes.new ≡ written bytes.old (slot_place i + progress_place) (four (bits_of progress)) }
{
    put_field(bytes, i, Field::Progress, progress.cast_unsigned());
}

#[tactic(auto, unfolding(crate::specs::Areas::finds_at))]
fn finds_in(bytes: &[u8], i: usize, f: Found) -> Finds
    requires { area_size (i + 1) ≤ length bytes.now }
    ensures { result ≡ finds_at bytes.now (slot_place i + result_place f) }
{
    let at = HEAD + NODE * i + f.place();
    Finds {
        count: number_at(bytes, at),
        first: number_at(bytes, at + 4),
        last: number_at(bytes, at + 8),
    }
}

// Writes one result of the node in a slot, and the stage that the node has with it.
pub fn put_result(bytes: &mut [u8], i: usize, f: Found, x: Finds, stage: u32)
    requires { area_size (i + 1) ≤ length bytes.old }
    ensures { bytes.new ≡ written (written bytes.old (slot_place i + result_place f) (fours (result_fields x))) (slot_place i + stage_place) (four stage) }
{
    let at = HEAD + NODE * i + f.place();
    put_numbers(bytes, at, &[x.count, x.first, x.last]);
    put_field(bytes, i, Field::Stage, stage);
}

// The node in a slot of the area.
pub fn slot_in(bytes: &[u8], i: usize) -> Node
    requires { area_size (i + 1) ≤ length bytes.now }
    ensures { result ≡ slot_at bytes.now i }
{
    Node {
        start: field_in(bytes, i, Field::Start),
        until: field_in(bytes, i, Field::Until),
        progress: field_in(bytes, i, Field::Progress).cast_signed(),
        owner: field_in(bytes, i, Field::Owner),
        left: field_in(bytes, i, Field::Left),
        own: finds_in(bytes, i, Found::Own),
        joined: finds_in(bytes, i, Found::Joined),
        stage: field_in(bytes, i, Field::Stage),
    }
}

// Writes a whole node into a slot of the area.
#[tactic(auto, using(crate::proofs::Words::bits_held), unfolding(crate::specs::Areas::node_bytes, crate::specs::Areas::node_fields))]
pub fn put_slot(bytes: &mut [u8], i: usize, x: Node)
    requires { area_size (i + 1) ≤ length bytes.old }
    ensures { bytes.new ≡ written bytes.old (slot_place i) (node_bytes x) }
{
    let Node { own, joined, .. } = x;
    let numbers = [
        x.start,
        x.until,
        x.progress.cast_unsigned(),
        x.owner,
        x.left,
        own.count,
        own.first,
        own.last,
        joined.count,
        joined.first,
        joined.last,
        x.stage,
    ];
    put_numbers(bytes, HEAD + NODE * i, &numbers);
}
