// Dropping a value (LANGUAGE 4.8), and closing variables (4.18).
ghost use Rattle.std.specs.Prelude.{◌<◌, ◌≤◌, length, get_or};
ghost use Rattle.store.specs.Words.{Tidy, Sound};
ghost use Rattle.store.specs.declared.store.Value.TheVariants.{Owner};
ghost use Rattle.store.specs.StoreParts.{Dropped, ClosedOne, ClosedAll, Listed};

use crate::store::{Row, Value, load, put_row};
use syntax::limits::Limits;
use syntax::refusals::Reason;

// Giving back a cell (LANGUAGE 4.8), which must be open (63), then dropping what it held; so along the cells, of which
// each time one fewer is not given back.
fn give_back(limits: &Limits, store: &mut [u32], cell: u32) -> Result<(), Reason>
    requires { Tidy limits.now store.old × (cell < limits.now.boxes) }
    ensures { Dropped limits.now store.old (Owner cell) store.new result }
{
    let row = limits.variables as usize + cell as usize;
    let Row::Open(held) = load(limits, store, row) else {
        return Err(Reason::BackAlready);
    };
    put_row(limits, store, row, Row::GivenBack);
    match held {
        Value::Owner(next) => give_back(limits, store, next),
        _ => Ok(()),
    }
}

// Dropping (LANGUAGE 4.8): an owner gives its cell back, and any other value stays as it is. A call is made for an owner
// alone, since this function calls itself nowhere and becomes part of its callers.
pub fn drop_value(limits: &Limits, store: &mut [u32], value: Value) -> Result<(), Reason>
    requires { Tidy limits.now store.old × Sound limits.now value }
    ensures { Dropped limits.now store.old value store.new result }
{
    match value {
        Value::Owner(cell) => give_back(limits, store, cell),
        _ => Ok(()),
    }
}

// Closing one variable (LANGUAGE 4.18): its row is set to 0, 0, 0, then its value dropped.
fn close_variable(limits: &Limits, store: &mut [u32], variable: u8) -> Result<(), Reason>
    requires { Tidy limits.now store.old × (variable < limits.now.variables) }
    ensures { ClosedOne limits.now store.old variable store.new result }
{
    let row = variable as usize;
    let value = load(limits, store, row).value();
    put_row(limits, store, row, Row::Closed);
    drop_value(limits, store, value)
}

// Closing (LANGUAGE 4.18), the last opened first: those of `opened` from `end` down to `begin`.
pub fn close_variables(
    limits: &Limits,
    store: &mut [u32],
    opened: &[u8],
    begin: usize,
    end: usize,
) -> Result<(), Reason>
    requires { Tidy limits.now store.old × (begin ≤ end) × (end ≤ length opened.now) × Listed limits.now opened.now end }
    ensures { ClosedAll limits.now store.old opened.now begin end store.new result }
{
    for k in (begin..end).rev() {
        close_variable(limits, store, opened[k])?;
    }
    Ok(())
}
