// What judging a term says (LANGUAGE 3.1), and what is judged of one term apart from the terms in it: a term with no
// inner term, and a box, let or assign before and after its inner term.
ghost use Rattle.std.specs.Prelude.{◌≡◌, true, List, ℕ, ◌<◌, ◌≤◌, ◌+◌, ◌-◌, length};
ghost use Rattle.std.proofs.Math.Option.{some};
ghost use Rattle.syntax.specs.Kinds.{newest, kind_of};
ghost use Rattle.syntax.specs.KindNumbers.{as_kind};
ghost use Rattle.syntax.specs.RowParts.{field_at};
ghost use Rattle.syntax.specs.RowTrees.{place_at};
ghost use Rattle.statics.specs.Uses.{Unfinished, names};
ghost use Rattle.statics.specs.Rules.{judge_assign};
ghost use Rattle.variables.specs.declared.table.Row.{Row};
ghost use Rattle.variables.specs.Masks.{has};
ghost use Rattle.variables.specs.Table.{TableFor, environment_of, as_place};
ghost use Rattle.variables.specs.Verdicts.{NeatTable, as_value, answered};
ghost use Rattle.bars.specs.Leading.{LaterIs};
ghost use Rattle.rules.specs.RuleAnswers.{begun};
ghost use Rattle.uses.specs.RowUses.{names_of, named_around, named_with, later_of};
ghost use Rattle.uses.specs.RowPlaces.{Wraps, AllWrap, AllAround};
ghost use Rattle.term_judge.specs.JudgeRows.{judge_leaf, at_row, ended, begin_at, AfterReady, after_at};

use assigns::assign::{judge_write, judge_written};
use rules::rules::{
    begin_let, judge_below, judge_box, judge_copy, judge_exclusive, judge_let, judge_move,
    judge_shared,
};
use syntax::fields::{field_at, index_at, index_of};
use syntax::kinds::Kind;
use syntax::refusals::Refusal;
use uses::row::place_at;
use uses::script::{Around, Script};
use uses::uses::{read_barred, write_barred};
use variables::table::{Place, Row};
use variables::verdicts::{ValueType, Verdict, number_value};

// What judging a term gives: the row after it, and the type of its value, if it has one (LANGUAGE 3.4).
#[derive(Clone, Copy)]
pub struct Judged {
    pub next: usize,
    pub value: Option<ValueType>,
}

// What judging the term at row i answers, of which the rule tells the verdict; the row after it is `next`. A refusal is at
// the term (LANGUAGE 3.17).
pub fn judged_term(i: usize, next: usize, verdict: Verdict) -> Result<Judged, Refusal>
    ensures { (env : List Row) → ended env result ≡ at_row next (answered env i verdict) }
{
    match verdict {
        Ok(value) => Ok(Judged { next, value }),
        Err(reason) => Err(Refusal { reason, place: i }),
    }
}

// The term of this kind at row `around.end`, where it has no inner term: the rule of the kind (LANGUAGE 3.18 to 3.22, 3.27).
fn judge_kind(
    script: &Script,
    around: &Around,
    env: &mut [Row],
    kind: Kind,
    first: Place,
    second: Place,
) -> Verdict
    requires { NeatTable env.old script.now.variables × (length script.now.uses.now ≡ script.now.variables) × AllAround script.now around.now × ((x : ℕ) → names (names_of (some (as_kind kind)) first.root second.root) x ≡ true → x < script.now.variables) }
    ensures { ((ns : Unfinished) → LaterIs script.now.variables script.now.uses.now around.now.end (named_around script.now around.now) ns → answered env.new around.now.end result ≡ judge_leaf script.now.variables (some (as_kind kind)) around.now.end (as_place first) (as_place second) ns (environment_of env.old)) × TableFor env.new script.now.variables }
{
    let variables = script.variables;
    let root = index_of(first.root);
    match kind {
        Kind::Copy => {
            let barred = read_barred(script, around, around.end, env, root);
            judge_copy(env, variables, first, barred)
        }
        Kind::Move => {
            let barred = write_barred(script, around, around.end, env, root);
            judge_move(env, variables, first, barred)
        }
        Kind::Shared => {
            let barred = read_barred(script, around, around.end, env, root);
            judge_shared(env, variables, first, barred)
        }
        Kind::Exclusive => {
            let barred = write_barred(script, around, around.end, env, root);
            judge_exclusive(env, variables, first, barred)
        }
        Kind::Below | Kind::Sum => {
            let barred = read_barred(script, around, around.end, env, root);
            let other = index_of(second.root);
            let other_barred = read_barred(script, around, around.end, env, other);
            judge_below(env, variables, first, barred, second, other_barred)
        }
        // A number and a reading; the others have inner terms.
        _ => number_value(),
    }
}

// The same by the number of the kind, which may be any: what is no kind is judged as a number.
pub fn judge_leaf(
    script: &Script,
    around: &Around,
    env: &mut [Row],
    kind: u32,
    first: Place,
    second: Place,
) -> Verdict
    requires { NeatTable env.old script.now.variables × (length script.now.uses.now ≡ script.now.variables) × AllAround script.now around.now × ((x : ℕ) → names (names_of (kind_of newest kind) first.root second.root) x ≡ true → x < script.now.variables) }
    ensures { ((ns : Unfinished) → LaterIs script.now.variables script.now.uses.now around.now.end (named_around script.now around.now) ns → answered env.new around.now.end result ≡ judge_leaf script.now.variables (kind_of newest kind) around.now.end (as_place first) (as_place second) ns (environment_of env.old)) × TableFor env.new script.now.variables }
{
    match Kind::try_from(kind) {
        Ok(kind) => judge_kind(script, around, env, kind, first, second),
        Err(_) => number_value(),
    }
}

// What comes before the inner term of a box, let or assign, which is in the next row: a let takes its number
// (LANGUAGE 3.24).
pub fn judge_before(script: &Script, i: usize, env: &mut [Row]) -> Result<(), Refusal>
    requires { Wraps script.now.variables script.now.rows.now i × TableFor env.old script.now.variables }
    ensures { (begun (environment_of env.new) result ≡ begin_at script.now.rows.now i (environment_of env.old)) × TableFor env.new script.now.variables }
{
    let Ok(kind) = Kind::try_from(field_at(script.rows, i, 0)) else {
        unreachable!();
    };
    if kind != Kind::Let {
        return Ok(());
    }
    let x = index_at(script.rows, i, 1);
    begin_let(env, script.variables, i, x)
}

// The rest of the rule of the assign at row `around.end` (LANGUAGE 3.25), after its right side, which ends before row
// `next`.
fn judge_assign(
    script: &Script,
    around: &Around,
    next: usize,
    env: &mut [Row],
    inner: Option<ValueType>,
) -> Verdict
    requires { NeatTable env.old script.now.variables × (length script.now.uses.now ≡ script.now.variables) × (around.now.start ≤ around.now.end) × AllWrap script.now.variables script.now.rows.now around.now.start (around.now.end + 1 - around.now.start) × (field_at script.now.rows.now around.now.end 1 < script.now.variables) }
    ensures { ((ns : Unfinished) → LaterIs script.now.variables script.now.uses.now next (named_with script.now.rows.now around.now.start (around.now.end + 1 - around.now.start) (has around.now.named)) ns → answered env.new around.now.end result ≡ judge_assign script.now.variables ns (environment_of env.old) around.now.end (place_at script.now.rows.now around.now.end 1) (as_value env.old inner)) × TableFor env.new script.now.variables }
{
    let place = place_at(script.rows, around.end, 1);
    judge_write(env, script.variables, place, inner)?;
    let root = index_of(place.root);
    // The assign has not finished either (LANGUAGE 3.34).
    let unfinished = Around {
        end: around.end + 1,
        ..*around
    };
    let barred = write_barred(script, &unfinished, next, env, root);
    judge_written(barred)
}

// What follows the inner term of the box, let or assign at row `around.end`: the rest of the rule (LANGUAGE 3.23 to 3.25).
// An inner term's refusal is the script's (3.17).
pub fn judge_after(
    script: &Script,
    around: &Around,
    env: &mut [Row],
    level: u64,
    inner: Result<Judged, Refusal>,
) -> Result<Judged, Refusal>
    requires { (around.now.start ≤ around.now.end) × AllWrap script.now.variables script.now.rows.now around.now.start (around.now.end + 1 - around.now.start) × TableFor env.old script.now.variables × (length script.now.uses.now ≡ script.now.variables) × AfterReady script.now.variables level script.now.rows.now around.now.end env.old inner }
    ensures { (ended env.new result ≡ after_at script.now.variables level script.now.rows.now around.now.end (later_of script.now around.now) (ended env.old inner)) × TableFor env.new script.now.variables }
{
    let inner = inner?;
    let i = around.end;
    let Ok(kind) = Kind::try_from(field_at(script.rows, i, 0)) else {
        unreachable!();
    };
    let verdict = match kind {
        Kind::Box => judge_box(inner.value),
        Kind::Let => {
            let x = index_at(script.rows, i, 1);
            judge_let(env, script.variables, level, x, inner.value)
        }
        // An assign, the third of the kinds that stand around one inner term.
        _ => judge_assign(script, around, inner.next, env, inner.value),
    };
    judged_term(i, inner.next, verdict)
}
