// Writes a new ledger over an area that is long enough for it.
ghost use Rattle.std.specs.Prelude.{◌≡◌, ◌++◌, ◌≤◌, true, length, drop};
ghost use Rattle.numbers.specs.Fields.{nat_of};
ghost use Rattle.rules.specs.Limits.{opens};
ghost use Rattle.rules.specs.Opening.{ledger_of};
ghost use Rattle.layout.specs.Sizes.{area_size};
ghost use Rattle.layout.specs.Areas.{encoded};

use rules::Opening;

pub(crate) fn put_new(bytes: &mut [u8], o: Opening)
    requires { (opens o ≡ true) × (area_size (nat_of o.nodes) ≤ length bytes.old) }
    ensures { bytes.new ≡ encoded (ledger_of o) ++ drop (area_size (nat_of o.nodes)) bytes.old }
{
    let start = numbers::natural(o.start);
    let until = numbers::natural(o.until);
    let teams = numbers::natural(o.teams);
    let room = numbers::natural(o.nodes);
    layout::put_numbers(bytes, 0, &[start, until, teams, room, 1]);
    layout::put_slot(bytes, 0, nodes::fresh_node(start, until));
    let end = layout::HEAD + layout::NODE * room as usize;
    bytes[layout::HEAD + layout::NODE..end].fill(0);
}
