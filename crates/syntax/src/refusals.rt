// Why something is refused, and why a run of what was not accepted stops: the numbers of LANGUAGE 5.3 to 5.6.
ghost use Rattle.std.specs.Prelude.{◌≡◌};
ghost use Rattle.syntax.specs.Refusals.{number_of};

#[derive(Clone, Copy, Debug, PartialEq, Eq)]
pub enum Reason {
    // By the caller (LANGUAGE 5.3).
    ScriptTooLong = 1,
    RowsLength = 2,
    StoreLength = 3,
    ReadingsLength = 4,
    OutputShort = 5,
    SetOutside = 74,
    // By the carrier of the bytes or rows (LANGUAGE 5.4).
    Mark = 10,
    Version = 11,
    Ended = 12,
    UnknownKind = 13,
    Operand = 14,
    TooDeep = 15,
    TooManyTerms = 16,
    TooManyBoxes = 17,
    NoBlock = 18,
    LeftOver = 19,
    // By the ownership rules (LANGUAGE 5.5).
    NumberTaken = 30,
    NotInScope = 31,
    ChainTooShort = 32,
    MovedAway = 33,
    ReadingBarred = 34,
    WritingBarred = 35,
    SharedPassed = 36,
    NotCopied = 37,
    BorrowPassed = 38,
    OtherLinks = 39,
    LivesTooShort = 40,
    NoValue = 41,
    TooManyLinks = 42,
    AnswerNoNumber = 43,
    // Faults: by running what was not accepted (LANGUAGE 5.6).
    NotThere = 60,
    WrongKind = 61,
    OpenAlready = 62,
    BackAlready = 63,
}

impl Reason {
    // The number that the language gives it.
    pub fn number(self) -> u32
        ensures { result ≡ number_of self }
    {
        self as u32
    }
}

// A refusal, or a fault, with its place (LANGUAGE 5.2): an offset, a row or a term.
#[derive(Clone, Copy, Debug, PartialEq, Eq)]
pub struct Refusal {
    pub reason: Reason,
    pub place: usize,
}
