// A set of variable numbers: the roots of the places that a borrow end stands for (LANGUAGE 3.3), or variables. Number x
// is bit x of the first word, or bit x - 64 of the second; no set of limits has more than 128 variables (2.8).
ghost use Rattle.std.specs.Iterator.{YieldsFirst, item_count};
ghost use Rattle.std.specs.Prelude.{◌≡◌, true, false, ℕ, ◌<◌, ◌≤◌, eqb};
ghost use Rattle.syntax.specs.Result.{pick};
ghost use Rattle.variables.specs.Masks.{has, is_empty, members};

#[derive(Clone, Copy, PartialEq, Eq, Default)]
pub struct Roots {
    pub low: u64,
    pub high: u64,
}

// The numbers that one word has room for.
const WORD: usize = 64;

impl Roots {
    // Takes the lowest number out, for a walk over a set that may grow in between. A word and one less have all the bits
    // in common that the word has, but its lowest one.
    pub fn take_lowest(&mut self) -> Option<usize>
        ensures { YieldsFirst members self.old result self.new }
    {
        if self.low != 0 {
            let x = self.low.trailing_zeros() as usize;
            self.low &= self.low - 1;
            return Some(x);
        }
        if self.high != 0 {
            let x = self.high.trailing_zeros() as usize;
            self.high &= self.high - 1;
            return Some(WORD + x);
        }
        None
    }
}

// The numbers of a set, lowest first.
#[derive(Drop)]
pub struct Members {
    left: Roots,
}

impl Iterator for Members {
    type Item = usize;

    ghost next_gives = { YieldsFirst (λ m. members m.left) };

    ghost remaining = { item_count (λ m. members m.left) };

    fn next(&mut self) -> Option<usize> {
        self.left.take_lowest()
    }
}

impl IntoIterator for Roots {
    type Item = usize;

    type IntoIter = Members;

    ghost into_iter_gives = { λ s m. m.left ≡ s };

    fn into_iter(self) -> Members {
        Members { left: self }
    }
}

pub fn no_roots() -> Roots
    ensures { (x : ℕ) → has result x ≡ false }
{
    Roots { low: 0, high: 0 }
}

pub fn is_empty(s: Roots) -> bool
    ensures { result ≡ is_empty s }
{
    s.low == 0 && s.high == 0
}

pub fn only(x: usize) -> Roots
    requires { x < 128 }
    ensures { (y : ℕ) → has result y ≡ eqb x y }
{
    if x < WORD {
        Roots {
            low: 1u64 << x,
            high: 0,
        }
    } else {
        Roots {
            low: 0,
            high: 1u64 << (x - WORD),
        }
    }
}

pub fn is_member(s: Roots, x: usize) -> bool
    ensures { result ≡ has s x }
{
    if x < WORD {
        return (s.low >> x) % 2 == 1;
    }
    if x < 2 * WORD {
        return (s.high >> (x - WORD)) % 2 == 1;
    }
    false
}

// What is in either.
pub fn unite(a: Roots, b: Roots) -> Roots
    ensures { (x : ℕ) → has result x ≡ pick (has a x) true (has b x) }
{
    Roots {
        low: a.low | b.low,
        high: a.high | b.high,
    }
}

// What is in both.
pub fn common(a: Roots, b: Roots) -> Roots
    ensures { (x : ℕ) → has result x ≡ pick (has a x) (has b x) false }
{
    Roots {
        low: a.low & b.low,
        high: a.high & b.high,
    }
}

// What is in a and not in b: the bits of either that b does not have.
pub fn less(a: Roots, b: Roots) -> Roots
    ensures { (x : ℕ) → has result x ≡ pick (has b x) false (has a x) }
{
    Roots {
        low: (a.low | b.low) ^ b.low,
        high: (a.high | b.high) ^ b.high,
    }
}

// The lowest number of a set that has one.
pub fn lowest(s: Roots) -> usize
    requires { is_empty s ≡ false }
    ensures { (has s result ≡ true) × (result < 128) × ((x : ℕ) → has s x ≡ true → result ≤ x) }
{
    if s.low != 0 {
        s.low.trailing_zeros() as usize
    } else {
        WORD + s.high.trailing_zeros() as usize
    }
}

// The set without one number that it has.
pub fn without(s: Roots, x: usize) -> Roots
    requires { x < 128 }
    ensures { (y : ℕ) → has result y ≡ pick (eqb x y) false (has s y) }
{
    less(s, only(x))
}
