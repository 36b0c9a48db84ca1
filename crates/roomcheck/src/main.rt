// The program (LANGUAGE 6.10 to 6.12). Reads eight readings and a script from standard input, and prints the line that
// `program::report::report_base` makes of them. Where reading fails there is no line: what was read may not be the whole input.
#![tactic(auto)]

ghost use Rattle.std.specs.Prelude.{◌≤◌, length, IfOk};

use std::io;
use std::io::{ErrorKind, Read, Write};
use syntax::limits;

// The readings, and one byte more than a script may have: what follows changes nothing.
const CAPACITY: usize = program::report::READINGS + limits::BYTES + 1;

// How much of the buffer is filled when the input ends or the buffer is full. A read that a signal interrupted is tried
// again. Every loop has to end, so the reads are counted; so many of them are out of reach.
fn read_input<R: Read>(input: &mut R, buffer: &mut [u8]) -> io::Result<usize>
    ensures { IfOk result (λ n. n ≤ length buffer.new) }
{
    let mut done = 0;
    for _ in 0..u64::MAX {
        if done == buffer.len() {
            return Ok(done);
        }
        match input.read(&mut buffer[done..]) {
            Ok(0) => return Ok(done),
            Ok(more) => done += more,
            Err(e) => {
                if e.kind() != ErrorKind::Interrupted {
                    return Err(e);
                }
            }
        }
    }
    if done == buffer.len() {
        return Ok(done);
    }
    Err(io::Error::from(ErrorKind::Interrupted))
}

// What cannot be told on standard error either is not told.
fn complain(rt: &HostRuntime, text: &[u8]) {
    let mut errors = rt.stderr();
    let _told = errors.write_all(text).is_ok();
}

fn main(rt: HostRuntime) {
    let mut input = [0u8; CAPACITY];
    let mut from = rt.stdin();
    let Ok(n) = read_input(&mut from, &mut input) else {
        complain(&rt, b"roomcheck: error while reading standard input\n");
        return;
    };
    let mut line = [0u8; program::report::LINE];
    let length = program::report::report_base(&input[..n], &mut line);
    let mut to = rt.stdout();
    if to.write_all(&line[..length]).is_err() {
        complain(&rt, b"roomcheck: error while writing standard output\n");
    }
}
