// Terms, choices and blocks, which call each other (LANGUAGE 4.9 to 4.17, 4.23). The store and the variables opened are
// lent down.
ghost use Rattle.std.specs.Prelude.{◌≡◌, false, ◌<◌};
ghost use Rattle.syntax.specs.Kinds.{wraps_of};
ghost use Rattle.syntax.specs.RowParts.{field_at};
ghost use Rattle.term_runner.specs.LeafParts.{LeafReady};
ghost use Rattle.term_runner.specs.Parts.{PlainRan, AfterReady, AfterRan, TermReady, TermRan, BlockReady, BlockRan};

use store::drops::drop_value;
use store::store::Value;
use syntax::fields::{field_at, index_at};
use syntax::kinds::{Kind, wraps};
use syntax::limits::Limits;
use syntax::refusals::Refusal;
use term_runner::around::{Standing, close_block, run_assign, run_box, run_let};
use term_runner::plain::{place_at, run_leaf, run_number};
use term_runner::skip::{chosen, past_choice};

// What a run is lent and only reads: the limits (LANGUAGE 2.8), the term rows and the readings.
#[derive(Clone, Copy)]
pub struct Script<'a> {
    pub limits: Limits,
    pub rows: &'a [u32],
    pub readings: &'a [i32],
}

// The term at row i, if it has no inner term (LANGUAGE 4.9 to 4.12, 4.16): it opens no variable and takes no cell.
fn run_plain(
    script: &Script,
    i: usize,
    store: &mut [u32],
    count: usize,
    taken: usize,
) -> Result<Standing, Refusal>
    requires { LeafReady script.now.limits script.now.rows.now i script.now.readings.now store.old × (i < script.now.limits.terms) }
    ensures { PlainRan script.now.limits script.now.rows.now i script.now.readings.now store.old count taken store.new result }
{
    match run_leaf(&script.limits, script.rows, i, script.readings, store) {
        Ok(value) => Ok(Standing {
            value,
            taken,
            opened: count,
            next: i + 1,
        }),
        Err(reason) => Err(Refusal { reason, place: i }),
    }
}

// What follows the inner term of a box, let or assign (LANGUAGE 4.13 to 4.15), which is at row i.
fn run_after(
    script: &Script,
    i: usize,
    store: &mut [u32],
    opened: &mut [u8],
    inner: Standing,
) -> Result<Standing, Refusal>
    requires { AfterReady script.now.limits script.now.rows.now i store.old opened.old inner }
    ensures { AfterRan script.now.limits script.now.rows.now i store.old opened.old inner store.new opened.new result }
{
    let Ok(kind) = Kind::try_from(field_at(script.rows, i, 0)) else {
        unreachable!();
    };
    match kind {
        Kind::Box => run_box(&script.limits, store, Ok(inner)),
        Kind::Let => run_let(
            &script.limits,
            store,
            opened,
            i,
            field_at(script.rows, i, 1),
            Ok(inner),
        ),
        Kind::Assign => run_assign(
            &script.limits,
            store,
            i,
            place_at(script.rows, i, 1),
            Ok(inner),
        ),
        _ => unreachable!(),
    }
}

// The choice at row i (LANGUAGE 4.23): the number at its place, then one of its two blocks (4.17); the other is passed
// over. It does not run the block as a term, so that `run_inmost` is called in one place, and compiled into it.
#[cycle(terms)]
fn run_choice(
    script: &Script,
    i: usize,
    levels: usize,
    store: &mut [u32],
    opened: &mut [u8],
    count: usize,
    taken: usize,
) -> Result<Standing, Refusal>
    requires { TermReady script.now.limits script.now.rows.now i levels script.now.readings.now store.old opened.old count taken × (field_at script.now.rows.now i 0 ≡ 12) }
    ensures { TermRan script.now.limits script.now.rows.now i levels script.now.readings.now store.old opened.old count taken store.new opened.new result }
{
    let number = match run_number(&script.limits, store, place_at(script.rows, i, 1)) {
        Ok(number) => number,
        Err(reason) => return Err(Refusal { reason, place: i }),
    };
    let block = chosen(script.rows, i, number);
    let inner = run_block(script, block, levels - 1 - 1, store, opened, count, taken);
    let ran = close_block(&script.limits, store, opened, block, count, inner);
    past_choice(script.rows, number, ran)
}

// The term at row i, which has no inner term, or is a choice, or a block: its terms, then its end (LANGUAGE 4.17).
#[cycle(terms)]
fn run_inmost(
    script: &Script,
    i: usize,
    levels: usize,
    store: &mut [u32],
    opened: &mut [u8],
    count: usize,
    taken: usize,
) -> Result<Standing, Refusal>
    requires { TermReady script.now.limits script.now.rows.now i levels script.now.readings.now store.old opened.old count taken × (wraps_of (field_at script.now.rows.now i 0) ≡ false) }
    ensures { TermRan script.now.limits script.now.rows.now i levels script.now.readings.now store.old opened.old count taken store.new opened.new result }
{
    let Ok(kind) = Kind::try_from(field_at(script.rows, i, 0)) else {
        unreachable!();
    };
    match kind {
        Kind::Block => {
            let inner = run_block(script, i, levels - 1, store, opened, count, taken);
            close_block(&script.limits, store, opened, i, count, inner)
        }
        Kind::Choice => run_choice(script, i, levels, store, opened, count, taken),
        _ => run_plain(script, i, store, count, taken),
    }
}

// The term at row i, nested at most as deep as levels says, after `count` variables opened and so many cells taken:
// the innermost term first, then what follows it, outwards (LANGUAGE 4.13 to 4.15). So calls nest for blocks and choices
// only. The way inwards ends at the first term that is around none, so the first loop has no range.
#[cycle(terms)]
fn run_term(
    script: &Script,
    i: usize,
    levels: usize,
    store: &mut [u32],
    opened: &mut [u8],
    count: usize,
    taken: usize,
) -> Result<Standing, Refusal>
    requires { TermReady script.now.limits script.now.rows.now i levels script.now.readings.now store.old opened.old count taken }
    ensures { TermRan script.now.limits script.now.rows.now i levels script.now.readings.now store.old opened.old count taken store.new opened.new result }
{
    let mut around = 0;
    while wraps(field_at(script.rows, i + around, 0)) {
        around += 1;
    }
    let inmost = i + around;
    let deeper = levels - around;
    let mut ran = run_inmost(script, inmost, deeper, store, opened, count, taken)?;
    for k in (0..around).rev() {
        ran = run_after(script, i + k, store, opened, ran)?;
    }
    Ok(ran)
}

// The terms of the block at row `block` (LANGUAGE 4.17), from the next row on: each value but the last is dropped after
// its term.
#[cycle(terms)]
pub fn run_block(
    script: &Script,
    block: usize,
    levels: usize,
    store: &mut [u32],
    opened: &mut [u8],
    count: usize,
    taken: usize,
) -> Result<Standing, Refusal>
    requires { BlockReady script.now.limits script.now.rows.now block levels script.now.readings.now store.old opened.old count taken }
    ensures { BlockRan script.now.limits script.now.rows.now block levels script.now.readings.now store.old opened.old count taken store.new opened.new result }
{
    let terms = index_at(script.rows, block, 1);
    let mut at = Standing {
        value: Value::Empty,
        taken,
        opened: count,
        next: block + 1,
    };
    for _ in 0..terms {
        if let Err(reason) = drop_value(&script.limits, store, at.value) {
            return Err(Refusal {
                reason,
                place: block,
            });
        }
        at = run_term(script, at.next, levels, store, opened, at.opened, at.taken)?;
    }
    Ok(at)
}
