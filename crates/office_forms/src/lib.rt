// 37 and well formed over the bytes of an area, in place: one node is read at a time, and no slot past the area's own room. The area is a
// table of nodes, so the rules are those that `forms` tests over any table.
#![tactic(auto)]

ghost use Rattle.std.specs.Prelude.{◌≡◌, IfOk};
ghost use Rattle.layout.specs.Areas.{too_short};
ghost use Rattle.office_forms.specs.Codes.{judged_of};
ghost use Rattle.office_forms.specs.Told.{told};

use rules::{Opening, Refusal};

mod area;

pub use area::{Area, Formed};

// Whether the area is shorter than 20 bytes, or than its own nodes number says.
#[tactic(auto, unfolding(layout::specs::Areas::too_short))]
fn too_short(bytes: &[u8]) -> bool
    ensures { result ≡ too_short bytes.now }
{
    if bytes.len() < layout::HEAD {
        return true;
    }
    let own = layout::number_at(bytes, layout::ROOM);
    (1..=Opening::NODES as u32).contains(&own)
        && bytes.len() < layout::HEAD + layout::NODE * own as usize
}

// What the tests say of an area: 37, or 1, or that it is well formed, with the count of STOLEN nodes, which the tests have met anyhow.
#[tactic(auto, using(crate::proofs::Codes::head_inside, crate::proofs::Codes::judged_37, crate::proofs::Codes::judged_1, crate::proofs::Codes::bad_numbers))]
pub fn judge(bytes: &[u8]) -> Result<Formed<'_>, Refusal>
    ensures value { told result ≡ judged_of bytes.now }
    ensures area { IfOk result (λ f. f.area.bytes.now ≡ bytes.now) }
{
    if too_short(bytes) {
        return Err(Refusal::Short);
    }
    let head = area::head_in(bytes);
    if !head.is_good() {
        return Err(Refusal::NotFormed);
    }
    let area = Area { bytes, head };
    let Some(stolen) = forms::stolen_if_formed(&area) else {
        return Err(Refusal::NotFormed);
    };
    Ok(Formed { area, stolen })
}
