// What follows an inner term: one function for each run rule (LANGUAGE 4.13 to 4.15, 4.17). A fault has its term (4.5); that of
// the inner term is the answer, and nothing else changes.
ghost use Rattle.std.specs.Prelude.{◌≡◌, ◌<◌, Err, IfOk, MatchResult};
ghost use Rattle.syntax.specs.Limits.{store_rows};
ghost use Rattle.store.specs.Words.{Tidy, Sound};
ghost use Rattle.term_runner.specs.Parts.{Wrote, PlaceAssigned, InnerReady, BoxReady, Boxed, LetReady, Declared, Assigned, EndReady, BlockClosed};

use store::drops::{close_variables, drop_value};
use store::locate::{Place, locate};
use store::store::{Row, Value, load, put_row};
use syntax::limits::Limits;
use syntax::refusals::{Reason, Refusal};

// Where a run stands after a term: the term's value; the cells taken (LANGUAGE 4.13), the variables opened (4.18), and
// the row of the next term.
#[derive(Clone, Copy)]
pub struct Standing {
    pub value: Value,
    pub taken: usize,
    pub opened: usize,
    pub next: usize,
}

// Box (LANGUAGE 4.13), after the inner term: the next cell opens with its value.
pub fn run_box(
    limits: &Limits,
    store: &mut [u32],
    inner: Result<Standing, Refusal>,
) -> Result<Standing, Refusal>
    requires { IfOk inner (λ s. BoxReady limits.now store.old s) }
    ensures { MatchResult inner (λ s. Boxed limits.now store.old s store.new result) (λ e. (result ≡ Err e) × (store.new ≡ store.old)) }
{
    let inner = inner?;
    let row = limits.variables as usize + inner.taken;
    put_row(limits, store, row, Row::Open(inner.value));
    Ok(Standing {
        value: Value::Owner(inner.taken as u32),
        taken: inner.taken + 1,
        opened: inner.opened,
        next: inner.next,
    })
}

// Let (LANGUAGE 4.14), after the inner term: its row opens, 62 if it is open already.
pub fn run_let(
    limits: &Limits,
    store: &mut [u32],
    opened: &mut [u8],
    i: usize,
    x: u32,
    inner: Result<Standing, Refusal>,
) -> Result<Standing, Refusal>
    requires { IfOk inner (λ s. LetReady limits.now store.old opened.old x s) }
    ensures { MatchResult inner (λ s. Declared limits.now store.old opened.old i x s store.new opened.new result) (λ e. (result ≡ Err e) × (store.new ≡ store.old) × (opened.new ≡ opened.old)) }
{
    let inner = inner?;
    let row = x as usize;
    if let Row::Open(_) = load(limits, store, row) {
        return Err(Refusal {
            reason: Reason::OpenAlready,
            place: i,
        });
    }
    put_row(limits, store, row, Row::Open(inner.value));
    let at = inner.opened;
    opened[at] = x as u8;
    Ok(Standing {
        value: Value::Empty,
        taken: inner.taken,
        opened: inner.opened + 1,
        next: inner.next,
    })
}

// The last step of an assign (LANGUAGE 4.15): writes if the row is still open.
fn write_open(limits: &Limits, store: &mut [u32], row: usize, value: Value)
    requires { Tidy limits.now store.old × (row < store_rows limits.now) × Sound limits.now value }
    ensures { Wrote limits.now store.old row value store.new }
{
    if let Row::Open(_) = load(limits, store, row) {
        put_row(limits, store, row, Row::Open(value));
    }
}

// The place of an assign (LANGUAGE 4.15): locates, drops the old value, which the row keeps meanwhile, then writes.
fn assign_place(
    limits: &Limits,
    store: &mut [u32],
    place: Place,
    value: Value,
) -> Result<(), Reason>
    requires { Tidy limits.now store.old × (place.root < limits.now.variables) × Sound limits.now value }
    ensures { PlaceAssigned limits.now store.old place.root place.follows value store.new result }
{
    let row = locate(limits, store, place)?;
    let old = load(limits, store, row).value();
    drop_value(limits, store, old)?;
    write_open(limits, store, row, value);
    Ok(())
}

// Assign (LANGUAGE 4.15), after the right side.
pub fn run_assign(
    limits: &Limits,
    store: &mut [u32],
    i: usize,
    place: Place,
    inner: Result<Standing, Refusal>,
) -> Result<Standing, Refusal>
    requires { IfOk inner (λ s. InnerReady limits.now store.old s × (place.root < limits.now.variables)) }
    ensures { MatchResult inner (λ s. Assigned limits.now store.old i place.root place.follows s store.new result) (λ e. (result ≡ Err e) × (store.new ≡ store.old)) }
{
    let inner = inner?;
    match assign_place(limits, store, place, inner.value) {
        Ok(()) => Ok(Standing {
            value: Value::Empty,
            ..inner
        }),
        Err(reason) => Err(Refusal { reason, place: i }),
    }
}

// The end of a block (LANGUAGE 4.17): it closes its variables, those opened from `begin` on (4.18).
pub fn close_block(
    limits: &Limits,
    store: &mut [u32],
    opened: &[u8],
    i: usize,
    begin: usize,
    inner: Result<Standing, Refusal>,
) -> Result<Standing, Refusal>
    requires { IfOk inner (λ s. EndReady limits.now store.old opened.now begin s) }
    ensures { MatchResult inner (λ s. BlockClosed limits.now store.old opened.now i begin s store.new result) (λ e. (result ≡ Err e) × (store.new ≡ store.old)) }
{
    let inner = inner?;
    match close_variables(limits, store, opened, begin, inner.opened) {
        Ok(()) => Ok(Standing {
            opened: begin,
            ..inner
        }),
        Err(reason) => Err(Refusal { reason, place: i }),
    }
}
