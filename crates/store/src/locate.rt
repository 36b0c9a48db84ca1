// Locating a place (LANGUAGE 4.6), and reading the row that it leads to (4.7).
ghost use Rattle.std.specs.Prelude.{◌<◌};
ghost use Rattle.syntax.specs.Limits.{store_rows};
ghost use Rattle.store.specs.Words.{Tidy};
ghost use Rattle.store.specs.StoreParts.{Followed, Located, Filled};

use crate::store::{Row, Value, load};
use syntax::limits::Limits;
use syntax::refusals::Reason;

// A place (LANGUAGE 2.5): a variable, and the follows from it.
#[derive(Clone, Copy)]
pub struct Place {
    pub root: usize,
    pub follows: usize,
}

// One follow (LANGUAGE 4.6): the row that an owner or a reference leads to; 60 at a row without value, 61 at a number.
fn follow(limits: &Limits, store: &[u32], row: usize) -> Result<usize, Reason>
    requires { Tidy limits.now store.now × (row < store_rows limits.now) }
    ensures { Followed limits.now store.now row result }
{
    match load(limits, store, row).value() {
        Value::Owner(cell) => Ok(limits.variables as usize + cell as usize),
        Value::Reference(next) => Ok(next as usize),
        Value::Empty => Err(Reason::NotThere),
        Value::Number(_) => Err(Reason::WrongKind),
    }
}

// Locating (LANGUAGE 4.6): from the variable's own row, by each follow, to a row that must be open (60).
pub fn locate(limits: &Limits, store: &[u32], place: Place) -> Result<usize, Reason>
    requires { Tidy limits.now store.now × (place.root < limits.now.variables) }
    ensures { Located limits.now store.now place.root place.follows result }
{
    let mut row = place.root;
    for _ in 0..place.follows {
        row = follow(limits, store, row)?;
    }
    match load(limits, store, row) {
        Row::Open(_) => Ok(row),
        _ => Err(Reason::NotThere),
    }
}

// Reading a row (LANGUAGE 4.7): it must be filled (60).
pub fn read_row(limits: &Limits, store: &[u32], row: usize) -> Result<Value, Reason>
    requires { Tidy limits.now store.now × (row < store_rows limits.now) }
    ensures { Filled limits.now store.now row result }
{
    match load(limits, store, row).value() {
        Value::Empty => Err(Reason::NotThere),
        value => Ok(value),
    }
}
