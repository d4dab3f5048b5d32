// Why a call refuses. Each case has the number of the table in specs/Refusal.antt; 13, an output that is too short, belongs to writers
// alone and names the length that is needed.
ghost use Rattle.std.specs.Prelude.{◌≡◌};
ghost use Rattle.misc.specs.Refusal.{number, error_number, error_needed, Refused};

#[derive(Clone, Copy, Debug, PartialEq, Eq)]
pub enum Refusal {
    Ended = 1,
    TooLarge = 2,
    Negative = 3,
    WrongVersion = 4,
    UnknownField = 5,
    BadTag = 6,
    NoTag = 7,
    WrongType = 8,
    SmallPayload = 9,
    BadLead = 10,
    TooLong = 11,
    NotWritable = 12,
    NotASet = 14,
    BadGno = 15,
    Full = 16,
    Crowded = 17,
    BadFile = 18,
    AbsentId = 21,
    Diverged = 22,
}

// The number of an output that is shorter than the answer, as C is told it.
pub const NO_ROOM: u8 = 13;

// Why nothing was written: a refusal, or an output that is too short, with the length that is needed.
#[derive(Clone, Copy, Debug, PartialEq, Eq)]
pub enum WriteError {
    Refused(Refusal),
    NoRoom(usize),
}

impl Refusal {
    // Its number in the table.
    pub fn number(self) -> u8
        ensures { result ≡ number self }
    {
        self as u8
    }
}

impl WriteError {
    // Its number in the table.
    pub fn number(self) -> u8
        ensures { result ≡ error_number self }
    {
        match self {
            WriteError::Refused(refusal) => refusal.number(),
            WriteError::NoRoom(_) => NO_ROOM,
        }
    }

    // The length that is needed, 0 where that isn't what is wrong.
    pub fn needed(self) -> usize
        ensures { result ≡ error_needed self }
    {
        match self {
            WriteError::Refused(_) => 0,
            WriteError::NoRoom(needed) => needed,
        }
    }
}

impl From<Refusal> for WriteError {
    ghost from_gives = { λ refusal error. error ≡ Refused refusal };

    fn from(refusal: Refusal) -> WriteError {
        WriteError::Refused(refusal)
    }
}
