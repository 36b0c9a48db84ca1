// Terms, blocks and choices in term rows (LANGUAGE 5.12), and what stands after them (5.13): what check, machine and
// writer rely on.
ghost use Rattle.std.specs.Prelude.{◌≡◌, true, false, ◌∷◌, [], ◌+◌, ◌*◌, ◌<◌, ◌≤◌, length, take, drop};
ghost use Rattle.syntax.specs.KindNumbers.{as_kind};
ghost use Rattle.syntax.specs.Kinds.{until, fields};
ghost use Rattle.syntax.specs.Limits.{row_numbers};
ghost use Rattle.syntax.specs.Parts.{place_fields};
ghost use Rattle.syntax.specs.Refusals.{told};
ghost use Rattle.syntax.specs.RowParts.{field_at, fields_fit, no_block, row_number, RowJudged, RowsReady, term_rows, block_rows, branch_rows, span_of, bits_of, first_used};

use syntax::fields::{field_at, index_at};
use syntax::kinds::{Kind, known};
use syntax::limits::{self, Limits};
use syntax::refusals::{Reason, Refusal};

// What has been judged so far: all rows before the next one, with so many boxes among them. It is lent down, so that what
// the judges return stays small. The set, the version and the rows are parameters beside it: with rows in the field of a
// struct the proof did not close, since nothing says there that they are numbers of 32 bits.
#[derive(Clone, Copy, Debug, PartialEq, Eq)]
pub struct Progress {
    pub next: usize,
    pub boxes: usize,
}

// A place in its ranges (LANGUAGE 2.4, 2.5).
fn place_fits(variables: u32, root: u32, follows: u32) -> bool
    ensures { result ≡ fields_fit (place_fields variables) (root ∷ follows ∷ []) }
{
    root < variables && follows < limits::FOLLOWS
}

// Fields that the kind does not use are 0 (LANGUAGE 2.10).
fn all_zero(fields: &[u32]) -> bool
    ensures { result ≡ fields_fit [] fields.now }
{
    fields.iter().all(|field| *field == 0)
}

// One operand, from low to below high (LANGUAGE 2.4).
fn one_fits(low: u32, high: u32, operand: u32) -> bool
    ensures { result ≡ fields_fit (until low high ∷ []) (operand ∷ []) }
{
    low <= operand && operand < high
}

// 14 is not met (LANGUAGE 5.4): the operands of a kind are in their ranges (2.4), and the fields after them 0 (2.10).
fn fields_fit(limits: &Limits, kind: Kind, a: u32, b: u32, c: u32, d: u32) -> bool
    ensures { result ≡ fields_fit (fields limits.now (as_kind kind)) (a ∷ b ∷ c ∷ d ∷ []) }
{
    let variables = limits.variables;
    match kind {
        Kind::Number => all_zero(&[b, c, d]),
        Kind::Reading => one_fits(0, limits::READINGS, a) && all_zero(&[b, c, d]),
        Kind::Box => all_zero(&[a, b, c, d]),
        Kind::Let => one_fits(0, variables, a) && all_zero(&[b, c, d]),
        Kind::Below | Kind::Sum => place_fits(variables, a, b) && place_fits(variables, c, d),
        Kind::Block => one_fits(1, limits::BLOCK, a) && all_zero(&[b, c, d]),
        Kind::Copy | Kind::Move | Kind::Shared | Kind::Exclusive | Kind::Assign | Kind::Choice =>
            place_fits(variables, a, b) && all_zero(&[c, d]),
    }
}

// 18 (LANGUAGE 5.12): row i is a term's, and not a block's. It is asked only where a block must stand. Nothing but 12 and 13
// comes before it, so it is asked before the row is judged as any other.
pub fn no_block(version: usize, rows: &[u32], i: usize) -> bool
    requires { i < 8192 }
    ensures { result ≡ no_block version rows.now i }
{
    let at = 5 * i;
    if rows.len() <= at {
        return false;
    }
    let kind = rows[at];
    known(version, kind) && kind != Kind::Block.number()
}

// The kind of row i, or why it is refused, in the order 12, 13, 15, 17, 14 (LANGUAGE 5.12). 16 cannot be met, since the rows
// hold no more terms than the set has.
#[tactic(auto, unfolding(syntax::specs::Limits::row_numbers))]
fn judge_row(
    limits: &Limits,
    version: usize,
    rows: &[u32],
    levels: usize,
    progress: &Progress,
) -> Result<Kind, Reason>
    requires { (length rows.now ≡ row_numbers limits.now) × (progress.now.next < 8192) }
    ensures { RowJudged (row_number limits.now version levels false rows.now progress.now.next progress.now.boxes) (field_at rows.now progress.now.next 0) result }
{
    let i = progress.next;
    if limits.terms as usize <= i {
        return Err(Reason::Ended);
    }
    let number = field_at(rows, i, 0);
    if number == 0 {
        return Err(Reason::Ended);
    }
    let Some(kind) = Kind::in_version(version, number) else {
        return Err(Reason::UnknownKind);
    };
    if levels == 0 {
        return Err(Reason::TooDeep);
    }
    if matches!(kind, Kind::Box) && limits.boxes as usize <= progress.boxes {
        return Err(Reason::TooManyBoxes);
    }
    let a = field_at(rows, i, 1);
    let b = field_at(rows, i, 2);
    let c = field_at(rows, i, 3);
    let d = field_at(rows, i, 4);
    if !fields_fit(limits, kind, a, b, c, d) {
        return Err(Reason::Operand);
    }
    Ok(kind)
}

// The term at the next row (LANGUAGE 2.2), nested at most as deep as levels says. Box, let and assign are judged as their
// inner term is, one row on and one level deeper (2.7): in a loop, so that the judge of a term is compiled into that of a
// block.
#[cycle(terms)]
fn judge_term(
    limits: &Limits,
    version: usize,
    rows: &[u32],
    levels: usize,
    progress: &mut Progress,
) -> Result<(), Refusal>
    requires { RowsReady limits.now rows.now progress.old.next progress.old.boxes }
    ensures { told (λ _. (progress.new.next, progress.new.boxes)) result ≡ span_of (term_rows limits.now version levels false rows.now progress.old.next progress.old.boxes) }
{
    let mut left = levels;
    loop {
        let row = progress.next;
        let kind = match judge_row(limits, version, rows, left, progress) {
            Ok(kind) => kind,
            Err(reason) => return Err(Refusal { reason, place: row }),
        };
        progress.next += 1;
        left -= 1;
        match kind {
            Kind::Box => progress.boxes += 1,
            Kind::Let | Kind::Assign => {}
            Kind::Block => {
                let count = index_at(rows, row, 1);
                return judge_block(limits, version, rows, count, left, progress);
            }
            Kind::Choice => return judge_branches(limits, version, rows, left, progress),
            _ => return Ok(()),
        }
    }
}

// A block's terms (LANGUAGE 2.3): count of them one after the other from the next row on, one at least.
#[cycle(terms)]
pub fn judge_block(
    limits: &Limits,
    version: usize,
    rows: &[u32],
    count: usize,
    levels: usize,
    progress: &mut Progress,
) -> Result<(), Refusal>
    requires { RowsReady limits.now rows.now progress.old.next progress.old.boxes × (0 < count) }
    ensures { told (λ _. (progress.new.next, progress.new.boxes)) result ≡ span_of (block_rows limits.now version levels count rows.now progress.old.next progress.old.boxes) }
{
    for _term in 0..count {
        judge_term(limits, version, rows, levels, progress)?;
    }
    Ok(())
}

// A term that must be a block, one of a choice (LANGUAGE 2.3): 18 where it is another (5.12). It is judged as a block of one
// term is: the judge of a term is then called in one place, and compiled into it.
#[cycle(terms)]
fn judge_due_block(
    limits: &Limits,
    version: usize,
    rows: &[u32],
    levels: usize,
    progress: &mut Progress,
) -> Result<(), Refusal>
    requires { RowsReady limits.now rows.now progress.old.next progress.old.boxes }
    ensures { told (λ _. (progress.new.next, progress.new.boxes)) result ≡ span_of (term_rows limits.now version levels true rows.now progress.old.next progress.old.boxes) }
{
    if no_block(version, rows, progress.next) {
        return Err(Refusal {
            reason: Reason::NoBlock,
            place: progress.next,
        });
    }
    judge_block(limits, version, rows, 1, levels, progress)
}

// The two blocks of a choice (LANGUAGE 2.3), the second straight after the first.
#[cycle(terms)]
fn judge_branches(
    limits: &Limits,
    version: usize,
    rows: &[u32],
    levels: usize,
    progress: &mut Progress,
) -> Result<(), Refusal>
    requires { RowsReady limits.now rows.now progress.old.next progress.old.boxes }
    ensures { told (λ _. (progress.new.next, progress.new.boxes)) result ≡ span_of (branch_rows limits.now version levels rows.now progress.old.next progress.old.boxes) }
{
    judge_due_block(limits, version, rows, levels, progress)?;
    judge_due_block(limits, version, rows, levels, progress)
}

// The numbers that are looked at together.
const TOGETHER: usize = 32;

// The bits that any of the numbers has. Nothing leaves the loop early, so that it becomes vector code; where their count is
// known, without a loop.
#[inline]
fn bits_of(numbers: &[u32]) -> u32
    ensures { result ≡ bits_of 0 numbers.now }
{
    numbers.iter().fold(0, |bits, number| bits | *number)
}

// The same as `first_used`, one number after the other.
fn first_from(rows: &[u32], from: usize) -> usize
    requires { from ≤ length rows.now }
    ensures { result ≡ first_used from (drop from rows.now) }
{
    match rows[from..].iter().position(|number| *number != 0) {
        Some(passed) => from + passed,
        None => rows.len(),
    }
}

// 19 (LANGUAGE 5.13): where the first number from `from` on that is not 0 stands; the length where there is none. In a
// small script most rows are unused, so 32 numbers at a time are passed over: the time of a loop of a few instructions
// depends on where it is linked (DECISIONS C51). The fewer than 32 at the end are looked at together too. The loop steps an
// index by 32, since the answer is an index: over `chunks_exact` it would be counted beside the chunks, and what they leave
// be asked for besides.
pub fn first_used(rows: &[u32], from: usize) -> usize
    requires { from ≤ length rows.now }
    ensures { result ≡ first_used from (drop from rows.now) }
{
    let mut i = from;
    while TOGETHER <= rows.len() - i {
        if bits_of(&rows[i..i + TOGETHER]) != 0 {
            return first_from(rows, i);
        }
        i += TOGETHER;
    }
    if bits_of(&rows[i..]) == 0 {
        return rows.len();
    }
    first_from(rows, i)
}
