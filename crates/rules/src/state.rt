// The states of a node. An answer gives the state as a number, 0 where it gives none, so it is read off by `try_from`.
ghost use Rattle.std.specs.Prelude.{◌≡◌};
ghost use Rattle.rules.specs.StateCases.{Reads, number_of};

#[derive(Clone, Copy, Debug, PartialEq, Eq)]
pub enum State {
    Available = 1,
    Owned = 2,
    Completed = 3,
    Stolen = 4,
    Expanded = 5,
}

// A number that is no state's.
#[derive(Clone, Copy, Debug, PartialEq, Eq)]
pub struct UnknownState(pub u32);

impl TryFrom<u32> for State {
    type Error = UnknownState;

    ghost try_from_gives = { Reads };

    fn try_from(number: u32) -> Result<Self, UnknownState> {
        match number {
            1 => Ok(State::Available),
            2 => Ok(State::Owned),
            3 => Ok(State::Completed),
            4 => Ok(State::Stolen),
            5 => Ok(State::Expanded),
            _ => Err(UnknownState(number)),
        }
    }
}

impl State {
    // The number of the state in an answer.
    pub fn number(self) -> u32
        ensures { result ≡ number_of self }
    {
        self as u32
    }
}
