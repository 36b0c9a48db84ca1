// Runs scripts that the check accepts, from term rows (LANGUAGE 6.6) or from bytes (6.8). What the check accepts runs
// without a fault, so no answer is one.
#![tactic(auto)]

ghost use Rattle.std.specs.Prelude.{◌≡◌, Ok};
ghost use Rattle.syntax.specs.Refusals.{told};
ghost use Rattle.room.specs.Running.{told_run, run_of, SafeRun};
ghost use Rattle.room.specs.Calling.{told_call, call_fits, call_of, SafeCall};
ghost use Rattle.room.specs.Parts.{RunAccepted};

pub use machine::Ran;
use syntax::limits::Limits;
use syntax::refusals::{Reason, Refusal};
use syntax::{kinds, limits};

// The terms of the script, the answer and the cells taken (LANGUAGE 6.8).
#[derive(Clone, Copy, Debug, PartialEq, Eq)]
pub struct Called {
    pub terms: usize,
    pub answer: i32,
    pub cells: usize,
}

// The run of rows that the check accepts: they are not judged again. It comes to neither a refusal nor a fault
// (LANGUAGE 7.4).
fn run_accepted(set: Limits, rows: &[u32], readings: &[i32], store: &mut [u32]) -> Ran
    requires { RunAccepted set rows.now readings.now store.old }
    ensures { (told_run (Ok result), store.new) ≡ run_of set rows.now readings.now store.old }
{
    let Ok(ran) = machine::run_judged(set, rows, readings, store) else {
        unreachable!();
    };
    ran
}

// Run (LANGUAGE 6.6): the script of the term rows with the readings, under the set (2.8), if the check accepts it.
// Every refusal (74, 2 to 4, 12 to 19, 30 to 43) leaves the store unchanged, and no fault is met.
pub fn run(set: Limits, rows: &[u32], readings: &[i32], store: &mut [u32]) -> Result<Ran, Refusal>
    ensures answered { (told_run result, store.new) ≡ run_of set rows.now readings.now store.old }
    ensures safe { SafeRun set rows.now readings.now (told_run result) store.old store.new }
{
    machine::fit(set, rows.len(), store.len(), readings.len())?;
    ownership::check(set, rows)?;
    Ok(run_accepted(set, rows, readings, store))
}

// The caller's refusals of a call: 74 for the set, then the lowest (LANGUAGE 5.8).
fn fit(
    set: Limits,
    script: &[u8],
    readings: &[i32],
    rows: &[u32],
    store: &[u32],
) -> Result<(), Refusal>
    ensures { told (λ u. u) result ≡ call_fits set script.now readings.now rows.now store.now }
{
    if !limits::in_ranges(set) {
        return Err(Refusal {
            reason: Reason::SetOutside,
            place: 0,
        });
    }
    if limits::BYTES < script.len() {
        return Err(Refusal {
            reason: Reason::ScriptTooLong,
            place: 0,
        });
    }
    machine::fit(set, rows.len(), store.len(), readings.len())
}

// A call (LANGUAGE 6.8): read, then run. The caller's refusals (74, 1 to 4) change nothing; those of the bytes (10 to
// 19) leave all rows 0; those of the ownership rules (30 to 43) leave the rows of the script. In all of these the store
// is unchanged. Reading has judged the rows, so the check does not judge them again.
pub fn call(
    set: Limits,
    script: &[u8],
    readings: &[i32],
    rows: &mut [u32],
    store: &mut [u32],
) -> Result<Called, Refusal>
    ensures answered { (told_call result, (rows.new, store.new)) ≡ call_of set script.now readings.now rows.old store.old }
    ensures safe { SafeCall set script.now readings.now rows.old (told_call result) store.old store.new }
{
    fit(set, script, readings, rows, store)?;
    let read = reader::read(set, kinds::NEWEST, script, rows)?;
    ownership::check_judged(set, rows, read.terms)?;
    let ran = run_accepted(set, rows, readings, store);
    Ok(Called {
        terms: read.terms,
        answer: ran.answer,
        cells: ran.cells,
    })
}
