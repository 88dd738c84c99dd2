// The five numbers of a ledger, without its nodes.
ghost use Rattle.std.specs.Prelude.{◌≡◌, ◌+◌, ◌*◌, ◌&&◌, eqb, leb};
ghost use Rattle.rules.specs.WellFormed.{numbers_rule};
ghost use Rattle.forms.specs.Head.{headed};

use rules::{Node, Opening};

#[derive(Clone, Copy, Debug, PartialEq, Eq)]
pub struct Head {
    pub start: u32,
    pub until: u32,
    pub teams: u32,
    pub room: u32,
    pub used: u32,
}

impl Head {
    // Whether a ledger may have these numbers.
    pub fn is_good(self) -> bool
        ensures { result ≡ numbers_rule (headed self) }
    {
        let range = (self.start..=Opening::UNTIL).contains(&self.until);
        let teams = (1..=Opening::TEAMS).contains(&self.teams);
        let room = (1..=Opening::NODES as u32).contains(&self.room);
        range & teams & room & (self.used % 2 == 1) & (self.used <= self.room)
    }

    // Whether this node has the ledger's range, as its root does.
    pub fn has_root(self, x: Node) -> bool
        ensures { result ≡ (eqb x.start self.start && eqb x.until self.until) }
    {
        x.start == self.start && x.until == self.until
    }

    // Whether each of so many STOLEN nodes still finds room for its children.
    pub fn has_room(self, stolen: u32) -> bool
        ensures { result ≡ leb (self.used + 2 * stolen) self.room }
    {
        u64::from(self.used) + 2 * u64::from(stolen) <= u64::from(self.room)
    }
}
