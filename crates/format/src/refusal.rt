// Why a call refuses: document 01's refusals and those that document 02 adds, in checking order. The numbers are those that C sees.
ghost use Rattle.std.specs.Prelude.{◌≡◌};
ghost use Rattle.rules.specs.Refusal.{number_of};
ghost use Rattle.format.specs.Refusals.{refusal_of};

// The cases, by the rules' names.
#[derive(Clone, Copy, PartialEq, Eq)]
pub enum Refusal {
    WrongLength = 1,
    BrokenRule = 2,
    NoCard = 3,
    CardExists = 4,
    PastLimit = 5,
    BelowSize = 6,
    BadTime = 7,
    NoCardPlace = 8,
    NoChecksum = 9,
    NotBacked = 10,
    NonzeroPastEnd = 11,
    ChecksumDiffers = 12,
    NoSpace = 13,
    CountDisagrees = 14,
    NoGroupPlace = 15,
    NoExtentPlace = 16,
    BadReads = 17,
    BadBatch = 18,
    BadRange = 19,
}

impl Refusal {
    // The number that a refused call answers.
    pub fn number(self) -> u32
        ensures { result ≡ number_of (refusal_of self) }
    {
        self as u32
    }
}
