// Assign (LANGUAGE 3.25): a write to the one variable that a place leads to, or to one of several; then, with the new
// value in place, whether writing was barred.
ghost use Rattle.std.specs.Prelude.{◌≡◌, true, Some, Ok, ℕ, ◌<◌, leb};
ghost use Rattle.rules.specs.declared.rules.Located.TheVariants as located;
ghost use Rattle.statics.specs.Places.{every};
ghost use Rattle.statics.specs.Environment.{level_of};
ghost use Rattle.statics.specs.Rules.{judge_write};
ghost use Rattle.statics.specs.Roots.{lengths, places_of};
ghost use Rattle.variables.specs.Masks.{has};
ghost use Rattle.variables.specs.Table.{TableFor, environment_of, long_at, WidenedAll, Written, as_place};
ghost use Rattle.variables.specs.Verdicts.{NeatTable, as_value, answered, Writes};
ghost use Rattle.rules.specs.RuleAnswers.{LocatedIs};

use notes::notes::{refill, widen};
use paths::environment::{level_at, lives_at, recorded_roots};
use rules::rules::{Beyond, Located, judge_place};
use syntax::fields::index_of;
use syntax::refusals::Reason;
use variables::chains::no_shared;
use variables::roots::{Roots, is_empty, lowest, without};
use variables::table::{Place, Row};
use variables::verdicts::{ValueType, Verdict};

// The roots live long enough for each variable that may be written (40; LANGUAGE 3.25).
fn live_long_enough(env: &[Row], variables: usize, roots: Roots, to: Roots) -> bool
    requires { TableFor env.now variables × ((y : ℕ) → has to y ≡ true → y < variables) }
    ensures { (m k : ℕ) → result ≡ every (λ q. every (λ p. leb (level_of (environment_of env.now p.root)) (level_of (environment_of env.now q.root))) (places_of 128 (has roots) (long_at env.now) m)) (places_of variables (has to) (lengths (environment_of env.now)) k) }
{
    if is_empty(roots) {
        return true;
    }
    for x in to {
        let level = level_at(env, variables, x);
        if !lives_at(env, variables, roots, level) {
            return false;
        }
    }
    true
}

// One of these variables is written (LANGUAGE 3.25): each may be.
fn widen_all(env: &mut [Row], variables: usize, to: Roots, roots: Roots)
    requires { TableFor env.old variables × ((y : ℕ) → has to y ≡ true → y < variables) }
    ensures { WidenedAll env.old to roots env.new × TableFor env.new variables }
{
    for x in to {
        widen(env, variables, x, roots);
    }
}

// A value that records these roots is written to one of these variables (LANGUAGE 3.25): the only one is whole again;
// several may be written.
fn write_to(env: &mut [Row], variables: usize, to: Roots, roots: Roots)
    requires { TableFor env.old variables × ((y : ℕ) → has to y ≡ true → y < variables) }
    ensures { Written env.old variables to roots env.new × TableFor env.new variables }
{
    if is_empty(to) {
        return;
    }
    let x = lowest(to);
    if is_empty(without(to, x)) {
        refill(env, variables, x, roots);
    } else {
        widen_all(env, variables, to, roots);
    }
}

// Assign to an own link of the root of the place (LANGUAGE 3.25): no shared link is passed, the same links (39), every
// borrowed root lives long enough for the root (40), which is whole again.
fn write_own(env: &mut [Row], variables: usize, place: Place, rest: u32, of: ValueType) -> Verdict
    requires { NeatTable env.old variables × ((i : ℕ) → LocatedIs variables (environment_of env.old) i (as_place place) (Ok (located.Own rest))) }
    ensures { ((i : ℕ) → answered env.new i result ≡ judge_write variables (environment_of env.old) i (as_place place) (as_value env.old (Some of))) × TableFor env.new variables }
{
    if rest != of.links {
        return Err(Reason::OtherLinks);
    }
    let root = index_of(place.root);
    let roots = recorded_roots(rest, of.roots);
    if !lives_at(env, variables, roots, level_at(env, variables, root)) {
        return Err(Reason::LivesTooShort);
    }
    refill(env, variables, root, roots);
    Ok(None)
}

// Assign beyond a borrow link (LANGUAGE 3.25): no shared link passed (36), the same links (39), every borrowed root
// lives long enough for every variable that may be written (40).
fn write_beyond(
    env: &mut [Row],
    variables: usize,
    place: Place,
    beyond: Beyond,
    of: ValueType,
) -> Verdict
    requires { NeatTable env.old variables × ((i : ℕ) → LocatedIs variables (environment_of env.old) i (as_place place) (Ok (located.At beyond))) }
    ensures { ((i : ℕ) → answered env.new i result ≡ judge_write variables (environment_of env.old) i (as_place place) (as_value env.old (Some of))) × TableFor env.new variables }
{
    if !no_shared(beyond.links, index_of(place.follows)) {
        return Err(Reason::SharedPassed);
    }
    if beyond.rest != of.links {
        return Err(Reason::OtherLinks);
    }
    let roots = recorded_roots(beyond.rest, of.roots);
    if !live_long_enough(env, variables, roots, beyond.to) {
        return Err(Reason::LivesTooShort);
    }
    write_to(env, variables, beyond.to, roots);
    Ok(None)
}

// Assign (LANGUAGE 3.25), after the right side: it has a value (41), the path of the place (31, 32, 33); then by where
// the place leads. This leaves the new value in place, and 35 still to be judged.
pub fn judge_write(
    env: &mut [Row],
    variables: usize,
    place: Place,
    inner: Option<ValueType>,
) -> Verdict
    requires { NeatTable env.old variables }
    ensures { ((i : ℕ) → answered env.new i result ≡ judge_write variables (environment_of env.old) i (as_place place) (as_value env.old inner)) × TableFor env.new variables }
{
    let Some(of) = inner else {
        return Err(Reason::NoValue);
    };
    let located = judge_place(env, variables, place)?;
    match located {
        Located::Own(rest) => write_own(env, variables, place, rest, of),
        Located::At(beyond) => write_beyond(env, variables, place, beyond, of),
    }
}

// The end of an assign (LANGUAGE 3.25), with the new value in place: writing the root is not barred (35).
pub fn judge_written(barred: bool) -> Verdict
    ensures { Writes barred result }
{
    if barred {
        return Err(Reason::WritingBarred);
    }
    Ok(None)
}
