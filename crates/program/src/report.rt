// The program's report (LANGUAGE 6.9, 6.10): the line of a call, for an input of eight readings and a script.
ghost use Rattle.std.specs.Prelude.{◌≡◌, ◌≤◌, length};
ghost use Rattle.room.specs.Calling.{reading_at};
ghost use Rattle.program.specs.Line.{readings_of, report_of, base_report_of};

use crate::line::Text;
use room::call;
use syntax::limits;
use syntax::limits::Limits;

// The bytes of the eight readings before the script.
pub const READINGS: usize = 32;

// The bytes of a buffer that holds every line (`line.rt`).
pub const LINE: usize = 80;

// The lengths of term rows and store for the language's set (LANGUAGE 2.8, 2.9, 4.1).
pub const ROWS: usize = 5 * limits::BASE.terms as usize;

pub const STORE: usize = 3 * (limits::BASE.variables as usize + limits::BASE.boxes as usize);

// A reading of the input (LANGUAGE 6.10): the four bytes from `at` on, high byte first; 0 where there are not as many.
fn reading_at(input: &[u8], at: usize) -> i32
    ensures { result ≡ reading_at input.now at }
{
    if input.len().saturating_sub(3) <= at {
        return 0;
    }
    i32::from_be_bytes([input[at], input[at + 1], input[at + 2], input[at + 3]])
}

// The eight readings at the front of the input (LANGUAGE 6.10).
fn readings_of(input: &[u8]) -> [i32; 8]
    ensures { result ≡ readings_of input.now }
{
    let mut readings = [0; 8];
    for i in 0..8 {
        readings[i] = reading_at(input, 4 * i);
    }
    readings
}

// The program's work (LANGUAGE 6.9): the line for an input of eight readings and a script goes to the front of `line`,
// and the answer is its length. (No heap: who calls lends the bytes.)
pub fn report(
    set: Limits,
    input: &[u8],
    rows: &mut [u32],
    store: &mut [u32],
    line: &mut [u8; LINE],
) -> usize
    ensures answered { (result, (rows.new, (store.new, line.new))) ≡ report_of set input.now rows.old store.old line.old }
    ensures within { result ≤ length line.new }
{
    let mut text = Text::new();
    if input.len() < READINGS {
        text.push(b"readings short\n");
        return text.put(line);
    }
    let readings = readings_of(input);
    let answer = call(set, &input[READINGS..], &readings, rows, store);
    text.push_answer(answer);
    text.put(line)
}

// The program's work (LANGUAGE 6.9) under the language's own set (2.8), with rows and store of its own.
pub fn report_base(input: &[u8], line: &mut [u8; LINE]) -> usize
    ensures answered { (result, line.new) ≡ base_report_of input.now line.old }
    ensures within { result ≤ length line.new }
{
    let mut rows = [0u32; ROWS];
    let mut store = [0u32; STORE];
    report(limits::BASE, input, &mut rows, &mut store, line)
}
