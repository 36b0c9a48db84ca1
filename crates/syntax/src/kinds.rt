// The versions (LANGUAGE 2.1), and the kinds of terms (2.3), as they stand in kind bytes and in term rows, and what the
// layers above ask of a kind too.
ghost use Rattle.std.specs.Prelude.{◌≡◌, ℕ, ◌≤◌};
ghost use Rattle.syntax.specs.Kinds.{knows, wraps_of};
ghost use Rattle.syntax.specs.Parts.{known_in};
ghost use Rattle.syntax.specs.KindNumbers.{number_in, KindRead, KindIn};

// The kinds of terms (LANGUAGE 2.3), each with its kind byte.
#[derive(Clone, Copy, Debug, PartialEq, Eq)]
pub enum Kind {
    Number = 1,
    Reading = 2,
    Copy = 3,
    Move = 4,
    Shared = 5,
    Exclusive = 6,
    Box = 7,
    Let = 8,
    Assign = 9,
    Below = 10,
    Block = 11,
    Choice = 12,
    Sum = 13,
}

// A number that is no kind's.
#[derive(Clone, Copy, Debug, PartialEq, Eq)]
pub struct UnknownKind;

impl Kind {
    // Its kind byte, which is also its number in a term row (LANGUAGE 2.9).
    pub fn number(self) -> u32
        ensures { result ≡ number_in self }
    {
        self as u32
    }

    // The kind with this number, if the version has it (LANGUAGE 2.3); any other is refused with 13 (5.4).
    pub fn in_version(version: usize, number: u32) -> Option<Kind>
        ensures { KindIn version number result }
    {
        if !known(version, number) {
            return None;
        }
        let Ok(kind) = Kind::try_from(number) else {
            unreachable!();
        };
        Some(kind)
    }
}

impl TryFrom<u32> for Kind {
    type Error = UnknownKind;

    ghost try_from_gives = { KindRead };

    fn try_from(number: u32) -> Result<Self, UnknownKind> {
        match number {
            1 => Ok(Kind::Number),
            2 => Ok(Kind::Reading),
            3 => Ok(Kind::Copy),
            4 => Ok(Kind::Move),
            5 => Ok(Kind::Shared),
            6 => Ok(Kind::Exclusive),
            7 => Ok(Kind::Box),
            8 => Ok(Kind::Let),
            9 => Ok(Kind::Assign),
            10 => Ok(Kind::Below),
            11 => Ok(Kind::Block),
            12 => Ok(Kind::Choice),
            13 => Ok(Kind::Sum),
            _ => Err(UnknownKind),
        }
    }
}

// The newest version there is (LANGUAGE 2.1).
pub const NEWEST: u32 = 2;

// The version that added the choice and the sum (LANGUAGE 2.3).
pub const CHOICE_AND_SUM_SINCE: usize = 2;

// A version that a reader knows whose newest known version is `newest` (LANGUAGE 6.2); any other is refused with 11 (5.4).
pub fn knows_version(newest: u32, version: u32) -> bool
    ensures { result ≡ knows newest version }
{
    1 <= version && version <= newest && version <= NEWEST
}

// The newest version that a reader knows which is told any number (LANGUAGE 6.2): it knows none that there is not.
pub fn newest_known(newest: u32) -> usize
    ensures { (result ≤ 2) × ((v : ℕ) → knows result v ≡ knows newest v) }
{
    newest.min(NEWEST) as usize
}

// A kind of this version (LANGUAGE 2.3); any other is refused with 13 (5.4). The last one is the same for a whole script,
// so that a term costs two comparisons.
pub fn known(version: usize, kind: u32) -> bool
    ensures { result ≡ known_in version kind }
{
    let last = if version < CHOICE_AND_SUM_SINCE {
        Kind::Block as u32
    } else {
        Kind::Sum as u32
    };
    Kind::Number as u32 <= kind && kind <= last
}

// Box, let and assign have one inner term (LANGUAGE 2.3), which is in the next row.
pub fn wraps(kind: u32) -> bool
    ensures { result ≡ wraps_of kind }
{
    let Ok(kind) = Kind::try_from(kind) else {
        return false;
    };
    matches!(kind, Kind::Box | Kind::Let | Kind::Assign)
}
