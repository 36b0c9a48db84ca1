// The two blocks of a choice (LANGUAGE 3.31). What changes of the variables in scope is kept while the other block is judged:
// from where each is moved away, and the roots that it records, for each number taken before.
ghost use Rattle.std.specs.Prelude.{◌≡◌, ℕ, suc, ◌≤◌, ◌<◌, ◌+◌, ◌*◌, length};
ghost use Rattle.statics.specs.Environment.{Environment};
ghost use Rattle.statics.specs.Choice.{carried, earlier, joined};
ghost use Rattle.statics.specs.Neat.{Neat};
ghost use Rattle.variables.specs.Table.{TableFor, environment_of, note_at, SameLinks};
ghost use Rattle.variables.specs.Verdicts.{NeatTable, Joins};
ghost use Rattle.choices.specs.Kept.{kept_now, joined_with, KeepsAll, Stays, Given, Exchanged};

use notes::notes::store;
use std::mem;
use syntax::refusals::Reason;
use variables::roots::{Roots, is_empty, less, unite};
use variables::table::{Entry, Row, changed_state, end_roots, load};
use variables::verdicts::{ValueType, Verdict, value_of};

// What is kept of a number.
#[derive(Clone, Copy, PartialEq, Eq, Default)]
pub struct KeptState {
    pub moved_from: u64,
    pub roots: Roots,
}

// One above the highest number taken (LANGUAGE 3.6).
pub fn numbers_taken(env: &[Row], variables: usize) -> usize
    requires { TableFor env.now variables }
    ensures { result ≡ note_at env.now (suc variables) }
{
    env[variables + 1].note as usize
}

// What is kept of the state of x.
fn kept_now(env: &[Row], x: usize) -> KeptState
    requires { x < length env.now }
    ensures { result ≡ kept_now env.now x }
{
    KeptState {
        moved_from: env[x].moved_from,
        roots: env[x].roots,
    }
}

// The state of the first count numbers is kept, all that are taken.
pub fn keep(env: &[Row], variables: usize, kept: &mut [KeptState], count: usize)
    requires { NeatTable env.now variables × (count ≡ note_at env.now (suc variables)) × (count ≤ length kept.old) }
    ensures { KeepsAll kept.new count (environment_of env.now) }
{
    for x in 0..count {
        kept[x] = kept_now(env, x);
    }
}

// What is kept of x becomes its state, and the state that it had is kept. Most variables are as they were: nothing is
// written then.
fn exchange_one(env: &mut [Row], variables: usize, x: usize, kept: &mut KeptState)
    requires { TableFor env.old variables × (x < variables) }
    ensures { Exchanged variables env.old kept.old x env.new kept.new }
{
    let now = kept_now(env, x);
    if *kept == now {
        return;
    }
    let Entry::Live(state) = load(env, variables, x) else {
        return;
    };
    let before = mem::replace(kept, now);
    let restored = changed_state(state, before.moved_from, before.roots);
    store(env, variables, x, restored);
}

// After the first block: the state that was kept is the table's again, but for numbers taken since (LANGUAGE 3.31); the
// state after the block is kept instead.
pub fn exchange(env: &mut [Row], variables: usize, kept: &mut [KeptState], count: usize)
    requires { NeatTable env.old variables × (count ≤ variables) × (count ≤ length kept.old) }
    ensures { ((Γ : Environment) (level : ℕ) → Neat variables Γ level → KeepsAll kept.old count Γ → Stays Γ (environment_of env.old) → (environment_of env.new ≡ carried Γ (environment_of env.old)) × KeepsAll kept.new count (environment_of env.old)) × TableFor env.new variables × SameLinks env.old env.new }
{
    for x in 0..count {
        exchange_one(env, variables, x, &mut kept[x]);
    }
}

// The earlier of two links (LANGUAGE 3.31).
#[tactic(auto, using(crate::proofs::RowLaws::earlier_is))]
fn earlier_link(a: u64, b: u64) -> u64
    ensures { result ≡ earlier a b }
{
    a.min(b)
}

// The variable x is moved away from the earlier of the two links, the one kept and its own, and records the roots of
// both (LANGUAGE 3.31). Most often that is its state already: nothing is written then.
fn join_one(env: &mut [Row], variables: usize, x: usize, kept: &KeptState)
    requires { TableFor env.old variables × (x < variables) }
    ensures { Given variables env.old x (joined_with env.old kept.now) env.new }
{
    let now = kept_now(env, x);
    if now.moved_from <= kept.moved_from && is_empty(less(kept.roots, now.roots)) {
        return;
    }
    let Entry::Live(state) = load(env, variables, x) else {
        return;
    };
    let first = earlier_link(kept.moved_from, state.moved_from);
    let both = unite(kept.roots, end_roots(state.borrow_end));
    store(env, variables, x, changed_state(state, first, both));
}

// After the second block: each variable is moved away from the earlier of the two links, and records the roots of both
// (LANGUAGE 3.31).
pub fn join(env: &mut [Row], variables: usize, kept: &[KeptState], count: usize)
    requires { NeatTable env.old variables × (count ≤ variables) × (count ≤ length kept.now) }
    ensures { ((Γ Γ₁ : Environment) (level : ℕ) → Neat variables Γ₁ level → KeepsAll kept.now count Γ₁ → Stays Γ Γ₁ → Stays (carried Γ Γ₁) (environment_of env.old) → environment_of env.new ≡ joined Γ Γ₁ (environment_of env.old)) × TableFor env.new variables × SameLinks env.old env.new }
{
    for x in 0..count {
        join_one(env, variables, x, &kept[x]);
    }
}

// The value of a choice (LANGUAGE 3.31): those of its blocks have equal links, or both are none (39).
pub fn judge_either(first: Option<ValueType>, second: Option<ValueType>) -> Verdict
    ensures { Joins first second result }
{
    match (first, second) {
        (None, None) => Ok(None),
        (Some(one), Some(other)) if one.links == other.links => {
            value_of(one.links, unite(one.roots, other.roots))
        }
        _ => Err(Reason::OtherLinks),
    }
}
