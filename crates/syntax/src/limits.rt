// The limits of scripts (LANGUAGE 2.4, 2.8), the lengths of lent memory (2.9, 4.1), and a set in one number.
ghost use Rattle.std.specs.Prelude.{◌≡◌, true, ◌<◌};
ghost use Rattle.syntax.specs.Limits.{in_ranges, row_numbers, store_numbers, unpacked, version_of};

// The set that the caller hands in: the most terms, variables, boxes and levels of a script (LANGUAGE 2.8).
#[repr(C)]
#[derive(Clone, Copy)]
pub struct Limits {
    pub terms: u32,
    pub variables: u32,
    pub boxes: u32,
    pub levels: u32,
}

// The language's own set (LANGUAGE 2.8).
pub const BASE: Limits = Limits {
    terms: 512,
    variables: 64,
    boxes: 64,
    levels: 16,
};

// The most that each limit may be (LANGUAGE 2.8).
pub const MOST_TERMS: u32 = 4096;

pub const MOST_VARIABLES: u32 = 128;

pub const MOST_BOXES: u32 = 128;

pub const MOST_LEVELS: u32 = 32;

// The most bytes of a script, whatever the set (LANGUAGE 2.8).
pub const BYTES: usize = 32768;

pub const READINGS: u32 = 8;
// One more than the follows of a place can be.
pub const FOLLOWS: u32 = 9;
// One more than the terms of a block can be.
pub const BLOCK: u32 = 256;

// A set in one number (`packed`), and a version (`with_version`): the variables are its remainder by
// VARIABLES_MODULUS; boxes, levels, terms and version are its quotients by the units, those of boxes, levels and terms
// taken by their moduli.
pub const VARIABLES_MODULUS: usize = 256;

pub const BOXES_UNIT: usize = 256;

pub const BOXES_MODULUS: usize = 256;

pub const LEVELS_UNIT: usize = 65536;

pub const LEVELS_MODULUS: usize = 64;

pub const TERMS_UNIT: usize = 4194304;

pub const TERMS_MODULUS: usize = 8192;

pub const VERSION_UNIT: usize = 34359738368;

// Where a version is refused in a script's bytes, whichever of the two differs (LANGUAGE 5.4).
pub const VERSION_PLACE: usize = 3;

// Each limit of the set is in its range (LANGUAGE 2.8); otherwise 74.
pub fn in_ranges(set: Limits) -> bool
    ensures { result ≡ in_ranges set }
{
    1 <= set.terms
        && set.terms <= MOST_TERMS
        && 1 <= set.variables
        && set.variables <= MOST_VARIABLES
        && set.boxes <= MOST_BOXES
        && 1 <= set.levels
        && set.levels <= MOST_LEVELS
}

// The length of the term rows (LANGUAGE 2.9): five numbers for each term. No set makes the product wrap.
pub fn row_numbers(set: Limits) -> usize
    ensures { result ≡ row_numbers set }
{
    5 * set.terms as usize
}

// The length of the store (LANGUAGE 4.1): three numbers for each variable and each cell.
pub fn store_numbers(set: Limits) -> usize
    ensures { result ≡ store_numbers set }
{
    3 * (set.variables as usize + set.boxes as usize)
}

// A set in its ranges (LANGUAGE 2.8) in one number, for whoever has to keep it in a word. It is below VERSION_UNIT, so that
// it has no version. No function here takes a set in this form: kept for the theorems `Ranges.packs` and `packs_below`.
pub fn packed(set: Limits) -> usize
    requires { in_ranges set ≡ true }
    ensures { (unpacked result ≡ set) × (result < 34359738368) }
{
    let terms = set.terms as usize * TERMS_UNIT;
    let levels = set.levels as usize * LEVELS_UNIT;
    let boxes = set.boxes as usize * BOXES_UNIT;
    terms + levels + boxes + set.variables as usize
}

// The same number with a version (LANGUAGE 2.1): kept for the theorem `Ranges.versions`.
pub fn with_version(sizes: usize, version: usize) -> usize
    requires { version < 8192 }
    ensures { (unpacked result ≡ unpacked sizes) × (version_of result ≡ version) }
{
    version * VERSION_UNIT + sizes % VERSION_UNIT
}
