// The block of a choice that does not run (LANGUAGE 4.23): its rows are passed over.
ghost use Rattle.std.specs.Prelude.{◌+◌, ◌*◌, ◌≤◌, ◌≡◌, length, Err, IfOk, MatchResult};
ghost use Rattle.term_runner.specs.Skip.{inside_at, Passable, Passed, Chosen, PastReady, Past};

use crate::around::Standing;
use syntax::fields::{field_at, index_at};
use syntax::kinds::Kind;
use syntax::refusals::Refusal;

// How many terms stand inside the term at row i, those inside them not counted (LANGUAGE 2.3).
fn inside(rows: &[u32], i: usize) -> usize
    requires { 5 * i + 5 ≤ length rows.now }
    ensures { result ≡ inside_at rows.now i }
{
    let Ok(kind) = Kind::try_from(field_at(rows, i, 0)) else {
        return 0;
    };
    match kind {
        Kind::Box | Kind::Let | Kind::Assign => 1,
        Kind::Block => index_at(rows, i, 1),
        Kind::Choice => 2,
        _ => 0,
    }
}

// The row after the term at row i. A row is looked at once: a term passed leaves those inside it to be passed. How many
// rows there are is not known before, so the loop counts the terms that are left.
fn after_term(rows: &[u32], i: usize) -> usize
    requires { Passable rows.now i }
    ensures { Passed rows.now i result }
{
    let mut left = 1;
    let mut at = i;
    while 0 < left {
        let more = inside(rows, at);
        left = left - 1 + more;
        at += 1;
    }
    at
}

// The row of the block that runs of the choice at row i (LANGUAGE 4.23): the next one, or the one after the first block
// where the number at the place is 0.
pub fn chosen(rows: &[u32], i: usize, number: u32) -> usize
    requires { Passable rows.now (i + 1) }
    ensures { Chosen rows.now i number result }
{
    let first = i + 1;
    if number != 0 {
        return first;
    }
    after_term(rows, first)
}

// After the block that ran: where it was the first one, the second is passed over.
pub fn past_choice(
    rows: &[u32],
    number: u32,
    ran: Result<Standing, Refusal>,
) -> Result<Standing, Refusal>
    requires { IfOk ran (λ s. PastReady rows.now number s) }
    ensures { MatchResult ran (λ s. MatchResult result (λ r. Past rows.now number s r) (λ _. ⊥)) (λ e. result ≡ Err e) }
{
    let ran = ran?;
    if number == 0 {
        return Ok(ran);
    }
    let end = after_term(rows, ran.next);
    Ok(Standing { next: end, ..ran })
}
