// The kinds of requests. A request may bring any number, so its kind is read off by `try_from`.
ghost use Rattle.std.specs.Prelude.{◌≡◌, pos};
ghost use Rattle.rules.specs.Kinds.{Reads, number_of};

#[derive(Clone, Copy, Debug, PartialEq, Eq)]
pub enum Kind {
    Own = 1,
    Advance = 2,
    Mark = 3,
    Expand = 4,
    Look = 5,
    Report = 6,
    Push = 7,
}

// A number that is no kind's.
#[derive(Clone, Copy, Debug, PartialEq, Eq)]
pub struct UnknownKind(pub i32);

impl TryFrom<i32> for Kind {
    type Error = UnknownKind;

    ghost try_from_gives = { Reads };

    fn try_from(number: i32) -> Result<Self, UnknownKind> {
        match number {
            1 => Ok(Kind::Own),
            2 => Ok(Kind::Advance),
            3 => Ok(Kind::Mark),
            4 => Ok(Kind::Expand),
            5 => Ok(Kind::Look),
            6 => Ok(Kind::Report),
            7 => Ok(Kind::Push),
            _ => Err(UnknownKind(number)),
        }
    }
}

// The number that a request brings for the kind.
impl From<Kind> for i32 {
    ghost from_gives = { λ kind number. number ≡ pos (number_of kind) };

    fn from(kind: Kind) -> i32 {
        kind as i32
    }
}

impl Kind {
    // The same number without a sign, as a step tells it of its request.
    pub fn number(self) -> u32
        ensures { result ≡ number_of self }
    {
        self as u32
    }
}
