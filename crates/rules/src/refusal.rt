// Why a call is refused: each case is one line of document 01's table.
ghost use Rattle.std.specs.Prelude.{◌≡◌};
ghost use Rattle.rules.specs.Refused.{code_of};

#[derive(Clone, Copy, Debug, PartialEq, Eq)]
pub enum Refusal {
    // The ledger is not well formed.
    NotFormed = 1,
    NoSuchKind = 2,
    NoSuchTeam = 3,
    NoSuchNode = 4,
    HasOwner = 5,
    Completed = 6,
    // The amount is outside its limits.
    Amount = 7,
    NotOwner = 8,
    Stolen = 9,
    OldPosition = 10,
    NoOwner = 11,
    IsOwner = 12,
    // 13 and 17 are withdrawn: no test gives one of them, and no other refusal gets its number.
    LastSheet = 13,
    // No room for two more nodes.
    NoRoom = 14,
    NotStolen = 15,
    AlreadySplit = 16,
    NoSlots = 17,
    FewRecords = 18,
    // The cap is outside its limits, or the stepping team's record.
    Unfit = 19,
    // A number of the opening is outside its limits.
    Opening = 20,
    // The text is over 65,535 bytes.
    TooLong = 21,
    WrongByte = 22,
    LargeNumber = 23,
    // The first line with a number has too few or too many, or there is none.
    HeaderCount = 24,
    // A number to write is negative.
    Negative = 25,
    // A number of the schedule is no team's.
    Stranger = 26,
    ShortSchedule = 27,
    ShortLine = 28,
    NotEnded = 31,
    Reported = 32,
    Result = 33,
    Pushed = 34,
    NoReport = 35,
    NotReady = 36,
    // An area is too short.
    Short = 37,
}

impl Refusal {
    // The number of the refusal in document 01's table.
    pub fn code(self) -> u32
        ensures { result ≡ code_of self }
    {
        self as u32
    }
}
