// The C interface: the set of limits (LANGUAGE 2.8) by value, numbers and slices. `bindings/` has the header, and a
// safe Rust wrapper.
#![tactic(auto)]

ghost use Rattle.std.specs.Prelude.{◌≡◌};
ghost use Rattle.syntax.specs.Answers.{read_of, judged_of, length_of, written_of};
ghost use Rattle.ownership.specs.Answers.{check_of};
ghost use Rattle.dynamics.specs.Answers.{unchecked_of};
ghost use Rattle.room.specs.Running.{run_of};
ghost use Rattle.room.specs.Calling.{call_of};
ghost use Rattle.c_answers.specs.Answers.{script_in, terms_in, bytes_in, ran_in, unchecked_in, called_in, in_c, SafeRunInC, SafeCallInC};

use c_answers::answers::{Bytes, Call, Run, RunUnchecked, Script, Terms};
use syntax::limits::Limits;

#[unsafe(no_mangle)]
pub extern "C" fn roomscript_read(
    limits: Limits,
    newest: u32,
    script: &[u8],
    rows: &mut [u32],
) -> Script
    ensures { (result, rows.new) ≡ in_c script_in (read_of limits newest script.now rows.old) }
{
    Script::from(reader::read(limits, newest, script, rows))
}

#[unsafe(no_mangle)]
pub extern "C" fn roomscript_judge_rows(limits: Limits, rows: &[u32]) -> Terms
    ensures { result ≡ terms_in (judged_of limits rows.now) }
{
    Terms::from(reader::judge_rows(limits, rows))
}

#[unsafe(no_mangle)]
pub extern "C" fn roomscript_length(limits: Limits, version: u32, rows: &[u32]) -> Bytes
    ensures { result ≡ bytes_in (length_of limits version rows.now) }
{
    Bytes::from(reader::length(limits, version, rows))
}

#[unsafe(no_mangle)]
pub extern "C" fn roomscript_write(
    limits: Limits,
    version: u32,
    rows: &[u32],
    output: &mut [u8],
) -> Bytes
    ensures { (result, output.new) ≡ in_c bytes_in (written_of limits version rows.now output.old) }
{
    Bytes::from(reader::write(limits, version, rows, output))
}

#[unsafe(no_mangle)]
pub extern "C" fn roomscript_check(limits: Limits, rows: &[u32]) -> Terms
    ensures { result ≡ terms_in (check_of limits rows.now) }
{
    Terms::from(ownership::check(limits, rows))
}

#[unsafe(no_mangle)]
pub extern "C" fn roomscript_run(
    limits: Limits,
    rows: &[u32],
    readings: &[i32],
    store: &mut [u32],
) -> Run
    ensures answered { (result, store.new) ≡ in_c ran_in (run_of limits rows.now readings.now store.old) }
    ensures safe { SafeRunInC limits rows.now readings.now result store.old store.new }
{
    Run::from(room::run(limits, rows, readings, store))
}

// For lessons and tests about what the check prevents; everything else calls `roomscript_run` (LANGUAGE 6.7).
#[unsafe(no_mangle)]
pub extern "C" fn roomscript_run_unchecked(
    limits: Limits,
    rows: &[u32],
    readings: &[i32],
    store: &mut [u32],
) -> RunUnchecked
    ensures { (result, store.new) ≡ in_c unchecked_in (unchecked_of limits rows.now readings.now store.old) }
{
    RunUnchecked::from(machine::run_unchecked(limits, rows, readings, store))
}

#[unsafe(no_mangle)]
pub extern "C" fn roomscript_call(
    limits: Limits,
    script: &[u8],
    readings: &[i32],
    rows: &mut [u32],
    store: &mut [u32],
) -> Call
    ensures answered { (result, (rows.new, store.new)) ≡ in_c called_in (call_of limits script.now readings.now rows.old store.old) }
    ensures safe { SafeCallInC limits script.now readings.now rows.old result store.old store.new }
{
    Call::from(room::call(limits, script, readings, rows, store))
}
