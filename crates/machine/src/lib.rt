// The store machine (LANGUAGE 4): running a script that is given as term rows.
#![tactic(auto)]

ghost use Rattle.std.specs.Prelude.{◌≡◌, ◌≤◌, length};
ghost use Rattle.syntax.specs.Refusals.{told};
ghost use Rattle.machine.specs.Outcomes.{told_ran, told_unchecked};
ghost use Rattle.dynamics.specs.Answers.{unchecked_of};
ghost use Rattle.machine.specs.ScriptParts.{fit_of, RunReady};

use block_runner::terms::{Script, run_block};
use signed::signed::number_of;
use store::store::{Value, clear};
use syntax::limits;
use syntax::limits::Limits;
use syntax::refusals::{Reason, Refusal};
use term_runner::around::close_block;

// The lengths of a list of the variables opened, which has a number for each term: for a set of at most so many terms,
// and for any set (LANGUAGE 2.8).
const SHORT: usize = 512;

const LONG: usize = limits::MOST_TERMS as usize;

// The answer (LANGUAGE 4.20), and the cells taken (4.22).
#[derive(Clone, Copy)]
pub struct Ran {
    pub answer: i32,
    pub cells: usize,
}

// Why there is no answer: a refusal and its place; or a fault and its term (LANGUAGE 5.2).
#[derive(Clone, Copy)]
pub enum Stopped {
    Refused(Refusal),
    Faulted(Refusal),
}

// The run (LANGUAGE 4.4) and its answer (4.20), or its fault, of rows that the reader accepts under the limits (2.8), with
// memory of the right lengths. `opened` has room for a variable of each term.
fn run_script(
    limits: &Limits,
    rows: &[u32],
    readings: &[i32],
    store: &mut [u32],
    opened: &mut [u8],
) -> Result<Ran, Refusal>
    requires { RunReady limits.now rows.now readings.now store.old × (limits.now.terms ≤ length opened.old) }
    ensures { (told_ran result, store.new) ≡ unchecked_of limits.now rows.now readings.now store.old }
{
    clear(store);
    let deeper = limits.levels as usize - 1;
    let script = Script {
        limits: *limits,
        rows,
        readings,
    };
    let inner = run_block(&script, 0, deeper, store, opened, 0, 0);
    let ran = close_block(limits, store, opened, 0, 0, inner)?;
    match ran.value {
        Value::Number(bits) => Ok(Ran {
            answer: number_of(bits),
            cells: ran.taken,
        }),
        _ => Err(Refusal {
            reason: Reason::WrongKind,
            place: 0,
        }),
    }
}

// The same, with a list of the variables opened that has a number for each of N terms.
fn run_with<const N: usize>(
    limits: &Limits,
    rows: &[u32],
    readings: &[i32],
    store: &mut [u32],
) -> Result<Ran, Stopped>
    requires { RunReady limits.now rows.now readings.now store.old × (limits.now.terms ≤ N) × (N ≤ 4096) }
    ensures { (told_unchecked result, store.new) ≡ unchecked_of limits.now rows.now readings.now store.old }
{
    let mut opened: [u8; N] = [0; N];
    match run_script(limits, rows, readings, store, &mut opened) {
        Ok(ran) => Ok(ran),
        Err(fault) => Err(Stopped::Faulted(fault)),
    }
}

// The same, for rows that were judged already. A set of few terms has a short list of the variables opened, so that its
// runs do not clear a long one.
pub fn run_judged(
    set: Limits,
    rows: &[u32],
    readings: &[i32],
    store: &mut [u32],
) -> Result<Ran, Stopped>
    requires { RunReady set rows.now readings.now store.old }
    ensures { (told_unchecked result, store.new) ≡ unchecked_of set rows.now readings.now store.old }
{
    if set.terms as usize <= SHORT {
        return run_with::<SHORT>(&set, rows, readings, store);
    }
    run_with::<LONG>(&set, rows, readings, store)
}

// The caller's refusal (LANGUAGE 5.3), for the lengths of rows, store and readings: 74 for the set, then the lowest (5.8).
pub fn fit(set: Limits, rows: usize, store: usize, readings: usize) -> Result<(), Refusal>
    ensures { told (λ u. u) result ≡ fit_of set rows store readings }
{
    let reason = if !limits::in_ranges(set) {
        Reason::SetOutside
    } else if rows != limits::row_numbers(set) {
        Reason::RowsLength
    } else if store != limits::store_numbers(set) {
        Reason::StoreLength
    } else if readings != limits::READINGS as usize {
        Reason::ReadingsLength
    } else {
        return Ok(());
    };
    Err(Refusal { reason, place: 0 })
}

// Run unchecked (LANGUAGE 6.7): the script of the term rows, accepted by the check or not, with the readings, under the
// set (2.8). A refusal leaves the store unchanged; a fault leaves it as the run rules had it (4.21). It is for lessons
// and tests that show what a script does that the check refuses; the run that checks first is `room::run`.
pub fn run_unchecked(
    set: Limits,
    rows: &[u32],
    readings: &[i32],
    store: &mut [u32],
) -> Result<Ran, Stopped>
    ensures { (told_unchecked result, store.new) ≡ unchecked_of set rows.now readings.now store.old }
{
    if let Err(refusal) = fit(set, rows.len(), store.len(), readings.len()) {
        return Err(Stopped::Refused(refusal));
    }
    match reader::judge_rows(set, rows) {
        Ok(_) => run_judged(set, rows, readings, store),
        Err(refusal) => Err(Stopped::Refused(refusal)),
    }
}
