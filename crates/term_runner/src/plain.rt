// The terms without an inner term: one function for each run rule (LANGUAGE 4.9 to 4.12, 4.16).
ghost use Rattle.std.specs.Prelude.{◌≡◌, ◌+◌, ◌*◌, ◌≤◌, ◌<◌, length};
ghost use Rattle.syntax.specs.KindNumbers.{number_in};
ghost use Rattle.syntax.specs.RowParts.{field_at};
ghost use Rattle.dynamics.specs.Readings.{bits_of};
ghost use Rattle.store.specs.Words.{Tidy};
ghost use Rattle.term_runner.specs.LeafParts.{Copied, Moved, Borrowed, Numbered, Paired, pair_of, LeafReady, LeafRan};

use signed::signed::{bits_of, raised, sum_bits};
use store::locate::{Place, locate, read_row};
use store::store::{Row, Value, put_row};
use syntax::fields::{field_at, index_at};
use syntax::kinds::Kind;
use syntax::limits::Limits;
use syntax::refusals::Reason;

// The place in fields k and k + 1 of row i (LANGUAGE 2.9).
pub fn place_at(rows: &[u32], i: usize, k: usize) -> Place
    requires { (5 * i + 5 ≤ length rows.now) × (k < 4) }
    ensures { (result.root ≡ field_at rows.now i k) × (result.follows ≡ field_at rows.now i (k + 1)) }
{
    Place {
        root: index_at(rows, i, k),
        follows: index_at(rows, i, k + 1),
    }
}

// Reading (LANGUAGE 4.9): the lent reading n as its 32 bits.
fn reading_bits(readings: &[i32], n: usize) -> u32
    requires { n < length readings.now }
    ensures { result ≡ bits_of readings.now n }
{
    let x = readings[n];
    bits_of(x)
}

// Copy (LANGUAGE 4.10): locate, read; the row stays.
fn run_copy(limits: &Limits, store: &[u32], place: Place) -> Result<Value, Reason>
    requires { Tidy limits.now store.now × (place.root < limits.now.variables) }
    ensures { Copied limits.now store.now place.root place.follows result }
{
    let row = locate(limits, store, place)?;
    read_row(limits, store, row)
}

// Move (LANGUAGE 4.11): locate, read; the row becomes empty.
fn run_move(limits: &Limits, store: &mut [u32], place: Place) -> Result<Value, Reason>
    requires { Tidy limits.now store.old × (place.root < limits.now.variables) }
    ensures { Moved limits.now store.old place.root place.follows store.new result }
{
    let row = locate(limits, store, place)?;
    let value = read_row(limits, store, row)?;
    put_row(limits, store, row, Row::Open(Value::Empty));
    Ok(value)
}

// Borrow, of either kind (LANGUAGE 4.12): a reference to the located row.
fn run_borrow(limits: &Limits, store: &[u32], place: Place) -> Result<Value, Reason>
    requires { Tidy limits.now store.now × (place.root < limits.now.variables) }
    ensures { Borrowed limits.now store.now place.root place.follows result }
{
    let row = locate(limits, store, place)?;
    Ok(Value::Reference(row as u32))
}

// A place of a below, a sum or a choice (LANGUAGE 4.16, 4.23): locate, read; a number must be there (61).
pub fn run_number(limits: &Limits, store: &[u32], place: Place) -> Result<u32, Reason>
    requires { Tidy limits.now store.now × (place.root < limits.now.variables) }
    ensures { Numbered limits.now store.now place.root place.follows result }
{
    match run_copy(limits, store, place)? {
        Value::Number(bits) => Ok(bits),
        _ => Err(Reason::WrongKind),
    }
}

// What the kinds with two places make of the numbers at them (LANGUAGE 4.16): their sum held to the range; or 1 if the
// first is less, otherwise 0.
fn paired(kind: Kind, a: u32, b: u32) -> u32
    ensures { result ≡ pair_of (number_in kind) a b }
{
    match kind {
        Kind::Sum => sum_bits(a, b),
        _ => (raised(a) < raised(b)) as u32,
    }
}

// A term with two places (LANGUAGE 4.16): the number at the first, then that at the second, and what its kind makes of
// both.
fn run_pair(
    limits: &Limits,
    store: &[u32],
    kind: Kind,
    place: Place,
    other: Place,
) -> Result<Value, Reason>
    requires { Tidy limits.now store.now × (place.root < limits.now.variables) × (other.root < limits.now.variables) }
    ensures { Paired limits.now (pair_of (number_in kind)) store.now place.root place.follows other.root other.follows result }
{
    let first = run_number(limits, store, place)?;
    let second = run_number(limits, store, other)?;
    Ok(Value::Number(paired(kind, first, second)))
}

// The term at row i, if it has no inner term, by the rule of its kind (LANGUAGE 4.9 to 4.12, 4.16).
pub fn run_leaf(
    limits: &Limits,
    rows: &[u32],
    i: usize,
    readings: &[i32],
    store: &mut [u32],
) -> Result<Value, Reason>
    requires { LeafReady limits.now rows.now i readings.now store.old }
    ensures { LeafRan limits.now rows.now i readings.now store.old store.new result }
{
    let Ok(kind) = Kind::try_from(field_at(rows, i, 0)) else {
        unreachable!();
    };
    match kind {
        Kind::Number => Ok(Value::Number(field_at(rows, i, 1))),
        Kind::Reading => Ok(Value::Number(reading_bits(readings, index_at(rows, i, 1)))),
        Kind::Copy => run_copy(limits, store, place_at(rows, i, 1)),
        Kind::Move => run_move(limits, store, place_at(rows, i, 1)),
        Kind::Shared | Kind::Exclusive => run_borrow(limits, store, place_at(rows, i, 1)),
        Kind::Below | Kind::Sum => {
            run_pair(
                limits,
                store,
                kind,
                place_at(rows, i, 1),
                place_at(rows, i, 3),
            )
        }
        Kind::Box | Kind::Let | Kind::Assign | Kind::Block | Kind::Choice => unreachable!(),
    }
}
