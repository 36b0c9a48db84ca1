// Terms, blocks and choices in a script's bytes. Each term is read from the part of the script that begins at its kind
// byte (LANGUAGE 2.2); how far the script is read stands in the progress, which each reader moves on.
ghost use Rattle.std.specs.Prelude.{true, false, ◌<◌};
ghost use Rattle.syntax.specs.Layout.{lay, lays, in_rows};
ghost use Rattle.syntax.specs.ByteParts.{Ready, got_read, Reading, read_term, read_block, read_branches};

use crate::operands::{put_row, read_operands};
use syntax::kinds::Kind;
use syntax::limits::Limits;
use syntax::opening::{no_block_byte, opening};
use syntax::progress::Progress;
use syntax::refusals::{Reason, Refusal};

// A term (LANGUAGE 2.2): what stands at its kind byte (5.10), its operands (5.11), its inner terms one level deeper
// (2.7). tail begins at the kind byte. Box, let and assign go round the loop, so that only a block and a choice cost a
// call.
#[cycle(terms)]
fn read_term(
    limits: &Limits,
    version: usize,
    tail: &[u8],
    levels: usize,
    progress: &mut Progress,
    rows: &mut [u32],
) -> Result<(), Refusal>
    requires { Ready limits.now tail.now progress.old.at progress.old.boxes rows.old }
    ensures { Reading (lay in_rows) (read_term limits.now version levels false tail.now progress.old.at progress.old.terms progress.old.boxes) progress.old.terms rows.old rows.new (got_read result progress.new) }
{
    let start = progress.at;
    let mut left = levels;
    loop {
        let here = &tail[progress.at - start..];
        let kind = opening(limits, version, here, left, progress)?;
        let operands = read_operands(limits, here, progress.at, kind)?;
        put_row(rows, progress.terms, kind, &operands.fields);
        progress.pass(kind, operands.end);
        left -= 1;
        let inner = &here[operands.end..];
        match kind {
            Kind::Box | Kind::Let | Kind::Assign => {}
            Kind::Block => {
                let count = operands.fields[0] as usize;
                return read_block(limits, version, inner, count, left, progress, rows);
            }
            Kind::Choice => return read_branches(limits, version, inner, left, progress, rows),
            _ => return Ok(()),
        }
    }
}

// A block's terms (LANGUAGE 2.3): count of them one after the other, one at least.
#[cycle(terms)]
pub fn read_block(
    limits: &Limits,
    version: usize,
    tail: &[u8],
    count: usize,
    levels: usize,
    progress: &mut Progress,
    rows: &mut [u32],
) -> Result<(), Refusal>
    requires { Ready limits.now tail.now progress.old.at progress.old.boxes rows.old × (0 < count) }
    ensures { Reading (lays in_rows) (read_block limits.now version levels count tail.now progress.old.at progress.old.terms progress.old.boxes) progress.old.terms rows.old rows.new (got_read result progress.new) }
{
    let start = progress.at;
    for _ in 0..count {
        let here = &tail[progress.at - start..];
        read_term(limits, version, here, levels, progress, rows)?;
    }
    Ok(())
}

// A term that must be a block, one of a choice (LANGUAGE 2.3): 18 where it is another (5.10). It is read as a block of one
// term is: with one caller only, the term reader becomes part of the block reader.
#[cycle(terms)]
fn read_due_block(
    limits: &Limits,
    version: usize,
    tail: &[u8],
    levels: usize,
    progress: &mut Progress,
    rows: &mut [u32],
) -> Result<(), Refusal>
    requires { Ready limits.now tail.now progress.old.at progress.old.boxes rows.old }
    ensures { Reading (lay in_rows) (read_term limits.now version levels true tail.now progress.old.at progress.old.terms progress.old.boxes) progress.old.terms rows.old rows.new (got_read result progress.new) }
{
    if no_block_byte(version, tail) {
        return Err(progress.refused(Reason::NoBlock));
    }
    read_block(limits, version, tail, 1, levels, progress, rows)
}

// The two blocks of a choice (LANGUAGE 2.3), the second straight after the first.
#[cycle(terms)]
fn read_branches(
    limits: &Limits,
    version: usize,
    tail: &[u8],
    levels: usize,
    progress: &mut Progress,
    rows: &mut [u32],
) -> Result<(), Refusal>
    requires { Ready limits.now tail.now progress.old.at progress.old.boxes rows.old }
    ensures { Reading (lays in_rows) (read_branches limits.now version levels tail.now progress.old.at progress.old.terms progress.old.boxes) progress.old.terms rows.old rows.new (got_read result progress.new) }
{
    let start = progress.at;
    read_due_block(limits, version, tail, levels, progress, rows)?;
    let second = &tail[progress.at - start..];
    read_due_block(limits, version, second, levels, progress, rows)
}
