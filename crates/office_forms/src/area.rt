// An area with its ledger's numbers, and the nodes in its slots.
ghost use Rattle.std.specs.Prelude.{◌≡◌, ◌≤◌, length};
ghost use Rattle.rules.specs.Table.{stolen_in};
ghost use Rattle.forms.specs.Head.{head_of};
ghost use Rattle.layout.specs.Sizes.{head_size};
ghost use Rattle.layout.specs.Areas.{decoded};
ghost use Rattle.office_forms.specs.Codes.{formed_code};
ghost use Rattle.office_forms.specs.Measured.{Measured};

use forms::{Head, Table};
use rules::Node;

// An area that is long enough for its own nodes, with its ledger's numbers, read once.
#[derive(Clone, Copy)]
pub struct Area<'a> {
    pub bytes: &'a [u8],
    pub head: Head,
    ghost measured: { Measured bytes.now head },
}

// An area that stands for a well-formed ledger, with its count of STOLEN nodes.
#[derive(Clone, Copy)]
pub struct Formed<'a> {
    pub area: Area<'a>,
    pub stolen: u32,
    ghost formed: { formed_code area.bytes.now ≡ 0 },
    ghost counted: { stolen ≡ stolen_in (decoded area.bytes.now) },
}

#[tactic(auto, unfolding(layout::specs::Areas::decoded))]
pub(crate) fn head_in(bytes: &[u8]) -> Head
    requires { head_size ≤ length bytes.now }
    ensures { result ≡ head_of (decoded bytes.now) }
{
    Head {
        start: layout::number_at(bytes, 0),
        until: layout::number_at(bytes, 4),
        teams: layout::number_at(bytes, layout::TEAMS),
        room: layout::number_at(bytes, layout::ROOM),
        used: layout::number_at(bytes, layout::USED),
    }
}

impl<'a> Area<'a> {
    // The area of a well-formed ledger.
    pub fn of(bytes: &'a [u8]) -> Area<'a>
        requires { formed_code bytes.now ≡ 0 }
        ensures { result.bytes.now ≡ bytes.now }
    {
        Area {
            bytes,
            head: head_in(bytes),
        }
    }
}

impl<'a> Table for Area<'a> {
    ghost ledger = { λ a. decoded a.bytes.now };

    ghost own_slots = { λ a. a.head.room };

    #[tactic(auto, using(crate::proofs::Table::head_is))]
    fn head(&self) -> Head {
        self.head
    }

    #[tactic(auto, using(crate::proofs::Table::slot_node, crate::proofs::Table::past_node))]
    fn slot(&self, i: u32) -> Node {
        if i < self.head.room {
            layout::slot_in(self.bytes, i as usize)
        } else {
            nodes::blank_node()
        }
    }

    #[tactic(auto, using(crate::proofs::Table::past_room))]
    fn slots(&self) -> u32 {
        self.head.room
    }
}
