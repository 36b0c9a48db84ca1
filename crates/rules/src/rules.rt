// The ownership rules (LANGUAGE 3.16, 3.19 to 3.24, 3.27 to 3.29), one function each: its answer is the rule's definition,
// and the table afterwards is that definition's environment. A rule about a term with an inner term is given the inner
// term's value; one that asks whether its root is barred is told the answer, which depends on terms elsewhere in the
// script (3.34).
ghost use Rattle.std.specs.Prelude.{◌≡◌, List, ℕ, ◌<◌};
ghost use Rattle.statics.specs.Environment.{used};
ghost use Rattle.statics.specs.Uses.{Unfinished};
ghost use Rattle.statics.specs.Bars.{read_barred, write_barred};
ghost use Rattle.statics.specs.Rules.{judge_copy, judge_move, judge_shared, judge_exclusive, judge_let, judge_number, judge_below, judge_block_end};
ghost use Rattle.statics.specs.Neat.{NeatValue};
ghost use Rattle.variables.specs.declared.table.Row.{Row};
ghost use Rattle.variables.specs.Table.{TableFor, environment_of, Around, as_place};
ghost use Rattle.variables.specs.Verdicts.{NeatTable, RootsIn, as_value, answered, Boxes};
ghost use Rattle.rules.specs.RuleAnswers.{WholeBorrow, LentAt, LocatedIs, NamedIs, ReadableIs, WholeIs, NumberIs, as_requirement, begun, begin_let, judge_answer};

use notes::notes::{declare, move_away, take_number};
use paths::environment::{is_free, leave_blocks, lives_at, recorded_roots};
use paths::follow::{Ends, borrows_at, search, value_whole};
use syntax::fields::index_of;
use syntax::refusals::{Reason, Refusal};
use variables::chains::{
    Link, is_copied, is_number, last_shared, leading_boxes, links_from, no_shared,
};
use variables::roots::{Roots, no_roots, only};
use variables::table::{Place, Row, Status, VariableState, borrow_end_of, nothing_moved};
use variables::verdicts::{ValueType, Verdict, longer_value, number_value, value_of};

// Where a place leads beyond a borrow link (LANGUAGE 3.13): the links of its root, those of them after the follows, and
// the variables to whose own links the place may lead.
#[derive(Clone, Copy)]
pub struct Beyond {
    pub links: u32,
    pub rest: u32,
    pub to: Roots,
}

// The place leads to an own link of its root, with these links after the follows; or beyond a borrow link.
#[derive(Clone, Copy)]
pub enum Located {
    Own(u32),
    At(Beyond),
}

// The root of the place is in scope (31), the chain long enough (32; LANGUAGE 3.16). Where the value must be whole, that
// says that nothing is moved away on the path, so that the place need not be followed.
fn judge_named(env: &[Row], variables: usize, place: Place) -> Result<u32, Reason>
    requires { TableFor env.now variables }
    ensures { (i : ℕ) → NamedIs variables (environment_of env.now) i (as_place place) result }
{
    let root = index_of(place.root);
    if variables <= root {
        return Err(Reason::NotInScope);
    }
    if env[root].status != Status::Live {
        return Err(Reason::NotInScope);
    }
    let Some(rest) = links_from(env[root].links, index_of(place.follows)) else {
        return Err(Reason::ChainTooShort);
    };
    Ok(rest)
}

// Judging a place (LANGUAGE 3.16): the root is in scope (31), the chain long enough (32), and of each place met while
// following it the own path is not moved away (33).
pub fn judge_place(env: &[Row], variables: usize, place: Place) -> Result<Located, Reason>
    requires { NeatTable env.now variables }
    ensures { (i : ℕ) → LocatedIs variables (environment_of env.now) i (as_place place) result }
{
    let rest = judge_named(env, variables, place)?;
    let root = index_of(place.root);
    let ends = search(env, variables, root, index_of(place.follows))?;
    match ends {
        Ends::Own => Ok(Located::Own(rest)),
        Ends::At(to) => Ok(Located::At(Beyond {
            links: env[root].links,
            rest,
            to,
        })),
    }
}

// The place of a copy, a shared borrow, a below, a sum and a choice (LANGUAGE 3.19, 3.21, 3.27, 3.31): named, its value
// whole (33), reading not barred (34).
fn judge_readable(env: &[Row], variables: usize, place: Place, barred: bool) -> Result<u32, Reason>
    requires { NeatTable env.now variables }
    ensures { ((i : ℕ) (ns : Unfinished) → (barred ≡ read_barred variables ns (environment_of env.now) (as_place place).root) → ReadableIs variables ns (environment_of env.now) i (as_place place) result) × WholeIs variables (environment_of env.now) (as_place place) result }
{
    let rest = judge_named(env, variables, place)?;
    let root = index_of(place.root);
    if !value_whole(env, variables, root) {
        return Err(Reason::MovedAway);
    }
    if barred {
        return Err(Reason::ReadingBarred);
    }
    Ok(rest)
}

// The roots that are borrowed where the place with so many follows may lead (LANGUAGE 3.19, 3.21). The value of its root
// is whole, so that nothing on the way is moved away.
fn lent_at(env: &[Row], variables: usize, root: usize, follows: usize) -> Roots
    requires { NeatTable env.now variables × WholeBorrow env.now variables root follows }
    ensures { (i : ℕ) → LentAt variables env.now i root follows result }
{
    let Ok(ends) = search(env, variables, root, follows) else {
        unreachable!();
    };
    match ends {
        Ends::Own => env[root].roots,
        Ends::At(to) => borrows_at(env, variables, to),
    }
}

// Copy (LANGUAGE 3.19): the place is readable, then a number or a shared link (37). The copy borrows what is borrowed
// where the place may lead; a number borrows nothing, so that only a borrow is followed.
pub fn judge_copy(env: &[Row], variables: usize, place: Place, barred: bool) -> Verdict
    requires { NeatTable env.now variables }
    ensures { (i : ℕ) (ns : Unfinished) → (barred ≡ read_barred variables ns (environment_of env.now) (as_place place).root) → answered env.now i result ≡ judge_copy variables ns (environment_of env.now) i (as_place place) }
{
    let rest = judge_readable(env, variables, place, barred)?;
    if !is_copied(rest) {
        return Err(Reason::NotCopied);
    }
    if is_number(rest) {
        return number_value();
    }
    let root = index_of(place.root);
    let roots = lent_at(env, variables, root, index_of(place.follows));
    value_of(rest, roots)
}

// Move (LANGUAGE 3.20): 31 and 32 of the place, no borrow link passed (38), the value whole (33), writing not barred
// (35). Then the links from the place on are moved away.
pub fn judge_move(env: &mut [Row], variables: usize, place: Place, barred: bool) -> Verdict
    requires { NeatTable env.old variables }
    ensures { ((i : ℕ) (ns : Unfinished) → (barred ≡ write_barred variables ns (environment_of env.old) (as_place place).root) → answered env.new i result ≡ judge_move variables ns (environment_of env.old) i (as_place place)) × TableFor env.new variables }
{
    let root = index_of(place.root);
    let rest = judge_named(env, variables, place)?;
    if leading_boxes(env[root].links) < index_of(place.follows) {
        return Err(Reason::BorrowPassed);
    }
    if !value_whole(env, variables, root) {
        return Err(Reason::MovedAway);
    }
    if barred {
        return Err(Reason::WritingBarred);
    }
    let roots = env[root].roots;
    move_away(env, variables, root, place.follows as u64);
    value_of(rest, roots)
}

// Shared borrow (LANGUAGE 3.21): the place is readable, then a shared link more makes at most 8 (42). With shared links
// passed it borrows what the last of them does.
pub fn judge_shared(env: &[Row], variables: usize, place: Place, barred: bool) -> Verdict
    requires { NeatTable env.now variables }
    ensures { (i : ℕ) (ns : Unfinished) → (barred ≡ read_barred variables ns (environment_of env.now) (as_place place).root) → answered env.now i result ≡ judge_shared variables ns (environment_of env.now) i (as_place place) }
{
    let rest = judge_readable(env, variables, place, barred)?;
    let root = index_of(place.root);
    let passed = last_shared(env[root].links, index_of(place.follows));
    match passed {
        None => longer_value(Link::Shared, rest, only(root)),
        Some(follows) => longer_value(Link::Shared, rest, lent_at(env, variables, root, follows)),
    }
}

// Exclusive borrow (LANGUAGE 3.22): the place, its value whole (33), no shared link passed (36), writing not barred
// (35), at most 8 links (42).
pub fn judge_exclusive(env: &[Row], variables: usize, place: Place, barred: bool) -> Verdict
    requires { NeatTable env.now variables }
    ensures { (i : ℕ) (ns : Unfinished) → (barred ≡ write_barred variables ns (environment_of env.now) (as_place place).root) → answered env.now i result ≡ judge_exclusive variables ns (environment_of env.now) i (as_place place) }
{
    let root = index_of(place.root);
    let rest = judge_named(env, variables, place)?;
    if !value_whole(env, variables, root) {
        return Err(Reason::MovedAway);
    }
    if !no_shared(env[root].links, index_of(place.follows)) {
        return Err(Reason::SharedPassed);
    }
    if barred {
        return Err(Reason::WritingBarred);
    }
    longer_value(Link::Exclusive, rest, only(root))
}

// Box (LANGUAGE 3.23), after the inner term: it has a value (41), and a box link more makes at most 8 (42).
pub fn judge_box(inner: Option<ValueType>) -> Verdict
    ensures { Boxes inner result }
{
    let Some(of) = inner else {
        return Err(Reason::NoValue);
    };
    longer_value(Link::Box, of.links, of.roots)
}

// The beginning of a let (LANGUAGE 3.24): its number is free (30), and taken from here on, not yet in scope.
pub fn begin_let(env: &mut [Row], variables: usize, term: usize, x: usize) -> Result<(), Refusal>
    requires { TableFor env.old variables × (x < variables) }
    ensures { (begun (environment_of env.new) result ≡ begin_let (environment_of env.old) term x) × TableFor env.new variables }
{
    if !is_free(env, variables, x) {
        return Err(Refusal {
            reason: Reason::NumberTaken,
            place: term,
        });
    }
    take_number(env, variables, x);
    Ok(())
}

// Let (LANGUAGE 3.24), after the inner term: it has a value (41), and x, which `begin_let` took, is in scope.
pub fn judge_let(
    env: &mut [Row],
    variables: usize,
    level: u64,
    x: usize,
    inner: Option<ValueType>,
) -> Verdict
    requires { NeatTable env.old variables × (x < variables) × (environment_of env.old x ≡ used) × NeatValue (environment_of env.old) level (as_value env.old inner) }
    ensures { ((i : ℕ) → answered env.new i result ≡ judge_let variables level (environment_of env.old) i x (as_value env.old inner)) × TableFor env.new variables }
{
    let Some(of) = inner else {
        return Err(Reason::NoValue);
    };
    let state = VariableState {
        links: of.links,
        moved_from: nothing_moved(of.links),
        borrow_end: borrow_end_of(of.links, of.roots),
        level,
    };
    declare(env, variables, x, state);
    Ok(None)
}

// A place of a below, a sum or a choice (LANGUAGE 3.27, 3.31): readable, then a number (39).
pub fn judge_number(env: &[Row], variables: usize, place: Place, barred: bool) -> Result<(), Reason>
    requires { NeatTable env.now variables }
    ensures { (i : ℕ) (ns : Unfinished) → (barred ≡ read_barred variables ns (environment_of env.now) (as_place place).root) → NumberIs (judge_number variables ns (environment_of env.now) i (as_place place)) i result }
{
    let rest = judge_readable(env, variables, place, barred)?;
    if !is_number(rest) {
        return Err(Reason::OtherLinks);
    }
    Ok(())
}

// Below and sum (LANGUAGE 3.27): the first place, then the second.
pub fn judge_below(
    env: &[Row],
    variables: usize,
    first: Place,
    first_barred: bool,
    second: Place,
    second_barred: bool,
) -> Verdict
    requires { NeatTable env.now variables }
    ensures { (i : ℕ) (ns : Unfinished) → (first_barred ≡ read_barred variables ns (environment_of env.now) (as_place first).root) → (second_barred ≡ read_barred variables ns (environment_of env.now) (as_place second).root) → answered env.now i result ≡ judge_below variables ns (environment_of env.now) i (as_place first) (as_place second) }
{
    judge_number(env, variables, first, first_barred)?;
    judge_number(env, variables, second, second_barred)?;
    number_value()
}

// The roots that the value records (LANGUAGE 3.3), if there is a value.
fn roots_in(value: Option<ValueType>) -> Roots
    ensures { RootsIn value result }
{
    match value {
        None => no_roots(),
        Some(of) => recorded_roots(of.links, of.roots),
    }
}

// The end of a block (LANGUAGE 3.28): its value borrows no root that lives in it (40), then its variables leave scope.
// level is that of the block around, `before` what was in scope there.
pub fn judge_block_end(
    env: &mut [Row],
    variables: usize,
    level: u64,
    before: Roots,
    last: Option<ValueType>,
) -> Verdict
    requires { TableFor env.old variables × Around env.old before level }
    ensures { ((i : ℕ) → answered env.new i result ≡ judge_block_end variables level (environment_of env.old) i (as_value env.old last)) × TableFor env.new variables }
{
    if !lives_at(env, variables, roots_in(last), level) {
        return Err(Reason::LivesTooShort);
    }
    leave_blocks(env, variables, before);
    Ok(last)
}

// The script (LANGUAGE 3.29): the answer is a number (43 at 0).
pub fn judge_answer(answer: Option<ValueType>) -> Result<(), Refusal>
    ensures { (nv : ℕ) (env : List Row) → as_requirement result ≡ judge_answer nv (as_value env answer) }
{
    let no_number = Refusal {
        reason: Reason::AnswerNoNumber,
        place: 0,
    };
    let Some(of) = answer else {
        return Err(no_number);
    };
    if !is_number(of.links) {
        return Err(no_number);
    }
    Ok(())
}
