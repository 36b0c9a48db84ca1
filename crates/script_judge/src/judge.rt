// Judging terms and blocks over term rows, in the order of a run (LANGUAGE 3.1). The table of the variables is lent
// down; after a refusal it is not looked at again. With it go the script with the last uses of its variables, and the set
// of what the terms around the block name (3.33): these have not finished.
ghost use Rattle.std.specs.Prelude.{◌≡◌, false, ℕ, suc, ◌<◌, ◌≤◌, length, get_or};
ghost use Rattle.std.proofs.Math.Option.{none};
ghost use Rattle.syntax.specs.Kinds.{wraps_of};
ghost use Rattle.syntax.specs.RowParts.{field_at};
ghost use Rattle.syntax.specs.RowTrees.{IsTree, IsRest, tree_at};
ghost use Rattle.statics.specs.Judge.{nothing_taken};
ghost use Rattle.variables.specs.Masks.{has};
ghost use Rattle.variables.specs.Table.{TableFor, environment_of, note_at};
ghost use Rattle.rules.specs.RuleAnswers.{as_requirement};
ghost use Rattle.uses.specs.RowUses.{NamesBelow, later_at, later_of};
ghost use Rattle.term_judge.specs.JudgeRows.{ended, judge_at, Ready, rest_at, branches_at, EndsAt, script_at};
ghost use Rattle.uses.specs.RowPlaces.{AllAround};

use choices::choice::{KeptState, exchange, join, judge_either, keep, numbers_taken};
use paths::environment::in_scope;
use rules::rules::{judge_answer, judge_block_end, judge_number};
use syntax::fields::{field_at, index_at, index_of};
use syntax::kinds::{Kind, wraps};
use syntax::refusals::Refusal;
use term_judge::terms::{Judged, judge_after, judge_before, judge_leaf, judged_term};
use uses::row::place_at;
use uses::script::{Around, Script};
use uses::uses::{find_uses, read_barred};
use variables::roots::{Roots, no_roots, only, unite};
use variables::table::Row;

// How many numbers' state a choice keeps in the smaller of two places, and in the larger, for the most variables that a
// set may have (LANGUAGE 2.8).
const FEW: usize = 16;

const MANY: usize = 128;

// The block at row `around.end`: its terms, then its end (LANGUAGE 3.28). `level` is that of the block around it; what is
// in scope before the block stays so after it.
#[cycle(terms)]
fn judge_block(
    script: &Script,
    around: &Around,
    levels: usize,
    env: &mut [Row],
    level: u64,
) -> Result<Judged, Refusal>
    requires { IsTree (tree_at script.now.variables levels script.now.rows.now around.now.end) × (field_at script.now.rows.now around.now.end 0 ≡ 11) × Ready script.now.variables level levels script.now.rows.now env.old script.now.uses.now × (around.now.start ≤ around.now.end) × AllAround script.now around.now }
    ensures { (ended env.new result ≡ judge_at script.now.variables (tree_at script.now.variables levels script.now.rows.now around.now.end) level (later_of script.now around.now) (environment_of env.old)) × TableFor env.new script.now.variables }
{
    let i = around.end;
    let count = index_at(script.rows, i, 1);
    let before = in_scope(env, script.variables);
    let inside = around.all_named(script);
    let inner = judge_terms(script, i + 1, count, levels - 1, env, level + 1, inside)?;
    let verdict = judge_block_end(env, script.variables, level, before, inner.value);
    judged_term(i, inner.next, verdict)
}

// The two blocks of the choice at row i, one after the other, and what is known after either (LANGUAGE 3.31). The state of
// the first count numbers, all that are taken, is kept meanwhile. Each block is judged as one term, so that the function
// for blocks has one caller, and the compiler makes it part of that.
#[cycle(terms)]
fn judge_branches(
    script: &Script,
    i: usize,
    levels: usize,
    env: &mut [Row],
    level: u64,
    named: Roots,
    kept: &mut [KeptState],
    count: usize,
) -> Result<Judged, Refusal>
    requires { IsTree (tree_at script.now.variables levels script.now.rows.now i) × (field_at script.now.rows.now i 0 ≡ 12) × Ready script.now.variables level levels script.now.rows.now env.old script.now.uses.now × (count ≡ note_at env.old (suc script.now.variables)) × (count ≤ length kept.old) }
    ensures { (ended env.new result ≡ branches_at script.now.variables levels script.now.rows.now i level (later_at script.now.variables script.now.uses.now (has named)) (environment_of env.old)) × TableFor env.new script.now.variables }
{
    let variables = script.variables;
    keep(env, variables, kept, count);
    let first = judge_terms(script, i + 1, 1, levels - 1, env, level, named)?;
    exchange(env, variables, kept, count);
    let second = judge_terms(script, first.next, 1, levels - 1, env, level, named)?;
    join(env, variables, kept, count);
    judged_term(i, second.next, judge_either(first.value, second.value))
}

// The same with room for as many numbers as FEW. This one and the next stay two: in a cycle of calls a function with a
// const parameter, beside others without, gets no proof.
#[cycle(terms)]
fn judge_few_kept(
    script: &Script,
    i: usize,
    levels: usize,
    env: &mut [Row],
    level: u64,
    named: Roots,
    count: usize,
) -> Result<Judged, Refusal>
    requires { IsTree (tree_at script.now.variables levels script.now.rows.now i) × (field_at script.now.rows.now i 0 ≡ 12) × Ready script.now.variables level levels script.now.rows.now env.old script.now.uses.now × (count ≡ note_at env.old (suc script.now.variables)) × (count ≤ 16) }
    ensures { (ended env.new result ≡ branches_at script.now.variables levels script.now.rows.now i level (later_at script.now.variables script.now.uses.now (has named)) (environment_of env.old)) × TableFor env.new script.now.variables }
{
    let mut kept = [KeptState::default(); FEW];
    judge_branches(script, i, levels, env, level, named, &mut kept, count)
}

// The same with room for all numbers of the largest set (LANGUAGE 2.8).
#[cycle(terms)]
fn judge_many_kept(
    script: &Script,
    i: usize,
    levels: usize,
    env: &mut [Row],
    level: u64,
    named: Roots,
    count: usize,
) -> Result<Judged, Refusal>
    requires { IsTree (tree_at script.now.variables levels script.now.rows.now i) × (field_at script.now.rows.now i 0 ≡ 12) × Ready script.now.variables level levels script.now.rows.now env.old script.now.uses.now × (count ≡ note_at env.old (suc script.now.variables)) }
    ensures { (ended env.new result ≡ branches_at script.now.variables levels script.now.rows.now i level (later_at script.now.variables script.now.uses.now (has named)) (environment_of env.old)) × TableFor env.new script.now.variables }
{
    let mut kept = [KeptState::default(); MANY];
    judge_branches(script, i, levels, env, level, named, &mut kept, count)
}

// The choice at row `around.end`, whose place is a number before its blocks are judged (LANGUAGE 3.31).
#[cycle(terms)]
fn judge_choice(
    script: &Script,
    around: &Around,
    levels: usize,
    env: &mut [Row],
    level: u64,
) -> Result<Judged, Refusal>
    requires { IsTree (tree_at script.now.variables levels script.now.rows.now around.now.end) × (field_at script.now.rows.now around.now.end 0 ≡ 12) × Ready script.now.variables level levels script.now.rows.now env.old script.now.uses.now × (around.now.start ≤ around.now.end) × AllAround script.now around.now }
    ensures { (ended env.new result ≡ judge_at script.now.variables (tree_at script.now.variables levels script.now.rows.now around.now.end) level (later_of script.now around.now) (environment_of env.old)) × TableFor env.new script.now.variables }
{
    let i = around.end;
    let place = place_at(script.rows, i, 1);
    let root = index_of(place.root);
    let barred = read_barred(script, around, i, env, root);
    if let Err(reason) = judge_number(env, script.variables, place, barred) {
        return Err(Refusal { reason, place: i });
    }
    let inside = unite(around.all_named(script), only(root));
    let count = numbers_taken(env, script.variables);
    if count <= FEW {
        judge_few_kept(script, i, levels, env, level, inside, count)
    } else {
        judge_many_kept(script, i, levels, env, level, inside, count)
    }
}

// The term at row `around.end`, which has no one inner term: a block, a choice, or a term with no inner term.
#[cycle(terms)]
fn judge_inmost(
    script: &Script,
    around: &Around,
    levels: usize,
    env: &mut [Row],
    level: u64,
) -> Result<Judged, Refusal>
    requires { IsTree (tree_at script.now.variables levels script.now.rows.now around.now.end) × (wraps_of (field_at script.now.rows.now around.now.end 0) ≡ false) × Ready script.now.variables level levels script.now.rows.now env.old script.now.uses.now × (around.now.start ≤ around.now.end) × AllAround script.now around.now }
    ensures { (ended env.new result ≡ judge_at script.now.variables (tree_at script.now.variables levels script.now.rows.now around.now.end) level (later_of script.now around.now) (environment_of env.old)) × TableFor env.new script.now.variables }
{
    let i = around.end;
    let Ok(kind) = Kind::try_from(field_at(script.rows, i, 0)) else {
        unreachable!();
    };
    match kind {
        Kind::Block => judge_block(script, around, levels, env, level),
        Kind::Choice => judge_choice(script, around, levels, env, level),
        _ => {
            let first = place_at(script.rows, i, 1);
            let second = place_at(script.rows, i, 3);
            let verdict = judge_leaf(script, around, env, kind.number(), first, second);
            judged_term(i, i + 1, verdict)
        }
    }
}

// The term at row i, with the levels that are left, inner terms where its rule says so (LANGUAGE 3.1). `level` is that
// of the innermost block around it (3.7). Terms that stand around one inner term are judged by two loops, inwards and
// outwards, so that only blocks cost calls; the first finds out how many there are.
#[cycle(terms)]
fn judge_term(
    script: &Script,
    i: usize,
    levels: usize,
    env: &mut [Row],
    level: u64,
    named: Roots,
) -> Result<Judged, Refusal>
    requires { IsTree (tree_at script.now.variables levels script.now.rows.now i) × Ready script.now.variables level levels script.now.rows.now env.old script.now.uses.now }
    ensures { (ended env.new result ≡ judge_at script.now.variables (tree_at script.now.variables levels script.now.rows.now i) level (later_at script.now.variables script.now.uses.now (has named)) (environment_of env.old)) × TableFor env.new script.now.variables }
{
    let mut count: usize = 0;
    while wraps(field_at(script.rows, i + count, 0)) {
        judge_before(script, i + count, env)?;
        count += 1;
    }
    let around = Around {
        start: i,
        end: i + count,
        named,
    };
    let mut judged = judge_inmost(script, &around, levels - count, env, level);
    for k in (0..count).rev() {
        let around = Around {
            start: i,
            end: i + k,
            named,
        };
        judged = judge_after(script, &around, env, level, judged);
    }
    judged
}

// A block's terms in order (LANGUAGE 3.28), count of them from row i on: the value of the last (3.4).
#[cycle(terms)]
fn judge_terms(
    script: &Script,
    i: usize,
    count: usize,
    levels: usize,
    env: &mut [Row],
    level: u64,
    named: Roots,
) -> Result<Judged, Refusal>
    requires { IsRest (tree_at script.now.variables levels script.now.rows.now) count i × Ready script.now.variables level levels script.now.rows.now env.old script.now.uses.now }
    ensures { (ended env.new result ≡ rest_at script.now.variables (tree_at script.now.variables levels script.now.rows.now) level (later_at script.now.variables script.now.uses.now (has named)) count i none (environment_of env.old)) × TableFor env.new script.now.variables }
{
    let mut judged = Judged {
        next: i,
        value: None,
    };
    for _ in 0..count {
        judged = judge_term(script, judged.next, levels, env, level, named)?;
    }
    Ok(judged)
}

// The script (LANGUAGE 3.29) of so many terms, with no number taken before it (3.1). First the last uses of its variables
// are found, whose table is all 0 before.
pub fn judge_script(
    rows: &[u32],
    terms: usize,
    levels: usize,
    env: &mut [Row],
    variables: usize,
    uses: &mut [u32],
) -> Result<(), Refusal>
    requires { EndsAt (tree_at variables levels rows.now 0) terms × NamesBelow variables rows.now terms × (terms < 4294967295) × (levels < 4294967296) × TableFor env.old variables × (environment_of env.old ≡ nothing_taken variables) × (length uses.old ≡ variables) × ((x : ℕ) → get_or uses.old x 0 ≡ 0) }
    ensures { as_requirement result ≡ script_at variables (tree_at variables levels rows.now 0) }
{
    find_uses(rows, terms, uses);
    let script = Script {
        rows,
        uses,
        variables,
    };
    let judged = judge_terms(&script, 0, 1, levels, env, 0, no_roots())?;
    judge_answer(judged.value)
}
