// Storing the state of a variable, and what the table notes beside the states, so that no rule has to look at all
// variables: of each root, who may hold a borrow of it; and in two rows after those of the variables, whose borrow link
// is exclusive, who is in scope, and how far the numbers are taken. Nothing is taken out of the first two, so that they
// may have more than is so.
ghost use Rattle.std.specs.Prelude.{◌≡◌, true, ℕ, ◌<◌, ◌≤◌, ◌+◌, ◌*◌, length};
ghost use Rattle.statics.specs.Environment.{used, live, is_free, update, moved_away_at, refilled, widened};
ghost use Rattle.variables.specs.Chains.{chain_of};
ghost use Rattle.variables.specs.Table.{TableFor, entry_word, environment_of, links_at, end_in, as_variable, Fits, Stored, HolderNoted, MemberAdded, ExclusiveNoted, Unrecorded, SameLinks, raised};

use variables::roots::{Roots, only, unite};
use variables::table::{
    BorrowEnd, Entry, Row, Status, VariableState, changed_state, end_roots, load, nothing_moved,
};

// Notes that x may hold a borrow of each of the roots (LANGUAGE 3.10).
pub fn note_holder(env: &mut [Row], variables: usize, x: usize, roots: Roots)
    requires { (variables + 2 ≤ length env.old) × (x < 128) }
    ensures { HolderNoted variables env.old x roots env.new }
{
    for root in roots {
        if root < variables {
            env[root].holders = unite(env[root].holders, only(x));
        }
    }
}

// The note of a row is `least` at least, for which numbers are taken (LANGUAGE 3.6).
fn raise_note(env: &mut [Row], row: usize, least: u64)
    requires { row < length env.old }
    ensures { (y j : ℕ) → j < 9 → entry_word env.new y j ≡ raised (entry_word env.old) row least y j }
{
    env[row].note = env[row].note.max(least);
}

// The variable x comes into the set of a row: of what is in scope, or has an exclusive borrow link (LANGUAGE 3.8, 3.11).
fn add_member(env: &mut [Row], row: usize, x: usize)
    requires { (row < length env.old) × (x < 128) }
    ensures { MemberAdded env.old row x env.new }
{
    env[row].roots = unite(env[row].roots, only(x));
}

// Notes that the first borrow link of x is exclusive, if it is (LANGUAGE 3.11).
#[tactic(auto, using(crate::proofs::NoteLaws::exclusive_noted, crate::proofs::NoteLaws::exclusive_not))]
fn note_exclusive(env: &mut [Row], variables: usize, x: usize, end: BorrowEnd)
    requires { (variables + 2 ≤ length env.old) × (x < 128) }
    ensures { ExclusiveNoted variables env.old x end env.new }
{
    if let BorrowEnd::Exclusive(_) = end {
        add_member(env, variables, x);
    }
}

// The state that a let, an assign or a choice gives x (LANGUAGE 3.24, 3.25, 3.31), and x noted as a holder of its roots.
// The status of x, and the note of exclusive borrow links, are left to the caller.
pub fn store(env: &mut [Row], variables: usize, x: usize, state: VariableState)
    requires { (variables + 2 ≤ length env.old) × (x < variables) × (variables ≤ 128) × Fits state }
    ensures { Stored variables env.old x state env.new }
{
    let roots = end_roots(state.borrow_end);
    env[x].links = state.links;
    env[x].moved_from = state.moved_from;
    env[x].level = state.level;
    env[x].roots = roots;
    note_holder(env, variables, x, roots);
}

// The end of a let (LANGUAGE 3.24): the number x is in scope from here on, in this state. Nothing records x before.
pub fn declare(env: &mut [Row], variables: usize, x: usize, state: VariableState)
    requires { TableFor env.old variables × (x < variables) × (environment_of env.old x ≡ used) × Fits state × Unrecorded env.old x (as_variable env.old state).borrow }
    ensures { (environment_of env.new ≡ update (environment_of env.old) x (live (as_variable env.old state))) × TableFor env.new variables }
{
    env[x].status = Status::Live;
    store(env, variables, x, state);
    note_exclusive(env, variables, x, state.borrow_end);
    add_member(env, variables + 1, x);
}

// The number x is taken, and not in scope: a let begins (LANGUAGE 3.24).
pub fn take_number(env: &mut [Row], variables: usize, x: usize)
    requires { TableFor env.old variables × (x < variables) × (is_free (environment_of env.old x) ≡ true) }
    ensures { (environment_of env.new ≡ update (environment_of env.old) x used) × TableFor env.new variables × SameLinks env.old env.new }
{
    env[x].status = Status::Used;
    raise_note(env, variables + 1, (x + 1) as u64);
}

// The mark of a move (LANGUAGE 3.20): the links of x from k on are moved away.
pub fn move_away(env: &mut [Row], variables: usize, x: usize, k: u64)
    requires { TableFor env.old variables × (x < variables) }
    ensures { (environment_of env.new ≡ update (environment_of env.old) x (moved_away_at (environment_of env.old x) k)) × TableFor env.new variables × SameLinks env.old env.new }
{
    env[x].moved_from = k;
}

// A value is written to x (LANGUAGE 3.25): whole again, with the new value's borrow end.
pub fn refill(env: &mut [Row], variables: usize, x: usize, roots: Roots)
    requires { TableFor env.old variables × (x < variables) }
    ensures { (environment_of env.new ≡ update (environment_of env.old) x (refilled (environment_of env.old x) (end_in env.old (chain_of (links_at env.old x)) roots))) × TableFor env.new variables × SameLinks env.old env.new }
{
    let Entry::Live(state) = load(env, variables, x) else {
        return;
    };
    let whole = changed_state(state, nothing_moved(state.links), roots);
    store(env, variables, x, whole);
}

// A value may be written to x (LANGUAGE 3.25): its places are added, and what is moved away stays so.
pub fn widen(env: &mut [Row], variables: usize, x: usize, roots: Roots)
    requires { TableFor env.old variables × (x < variables) }
    ensures { (environment_of env.new ≡ update (environment_of env.old) x (widened (environment_of env.old x) (end_in env.old (chain_of (links_at env.old x)) roots))) × TableFor env.new variables × SameLinks env.old env.new }
{
    let Entry::Live(state) = load(env, variables, x) else {
        return;
    };
    let all = unite(end_roots(state.borrow_end), roots);
    let wider = changed_state(state, state.moved_from, all);
    store(env, variables, x, wider);
}
