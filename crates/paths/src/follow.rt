// Where a place leads (LANGUAGE 3.13): to own links of variables, through boxes, and beyond borrow links through the
// borrowed places. With so many links left after it, a place is told by its root, so that what is met is a set of roots.
ghost use Rattle.std.specs.Prelude.{◌≡◌, true, false, Ok, ℕ, ◌≤◌, ◌<◌, ◌+◌, ◌*◌, ◌-◌, length};
ghost use Rattle.paths.specs.declared.follow.Step.TheVariants as step;
ghost use Rattle.statics.specs.Environment.{live};
ghost use Rattle.variables.specs.Chains.{chain_of};
ghost use Rattle.variables.specs.Table.{links_at, environment_of, variable_at};
ghost use Rattle.statics.specs.Follow.{value_whole};
ghost use Rattle.variables.specs.Masks.{has};
ghost use Rattle.paths.specs.Steps.{Passed, Searched, BorrowedAt};
ghost use Rattle.variables.specs.Verdicts.{NeatTable};

use syntax::refusals::Reason;
use variables::chains::{chain_length, leading_boxes};
use variables::roots::{Roots, less, no_roots, only, unite};
use variables::table::{BorrowEnd, Entry, Row, load};

// Where a place leads: to an own link of its root, the common case, for which no set is made; or to own links of these
// variables.
#[derive(Clone, Copy)]
pub enum Ends {
    Own,
    At(Roots),
}

// One variable on the way that passes: following ends at its own link, or goes on from the places it records.
#[derive(Clone, Copy)]
pub enum Step {
    Here,
    Through,
}

// The variable x on the way, with so many follows from it (33; LANGUAGE 3.13, 3.14); all of it must be whole if the end
// of the value is looked for (3.15).
fn step_at(env: &[Row], x: usize, follows: usize, deep: bool) -> Result<Step, Reason>
    requires { (x < length env.now) × (follows ≤ length (chain_of (links_at env.now x))) }
    ensures { Passed deep (variable_at env.now x) follows result }
{
    let boxes = leading_boxes(env[x].links) as u64;
    let moved_from = env[x].moved_from;
    if moved_from <= boxes {
        if deep {
            return Err(Reason::MovedAway);
        }
    }
    let follows = follows as u64;
    if follows <= boxes {
        if follows <= moved_from {
            return Ok(Step::Here);
        }
        return Err(Reason::MovedAway);
    }
    if moved_from <= boxes {
        return Err(Reason::MovedAway);
    }
    Ok(Step::Through)
}

// All that is met beyond the borrow link of the root, with so many links left: each variable once, until one does not
// pass (33).
fn search_beyond(
    env: &[Row],
    variables: usize,
    root: usize,
    remaining: usize,
    deep: bool,
) -> Result<Ends, Reason>
    requires { NeatTable env.now variables × (environment_of env.now root ≡ live (variable_at env.now root)) × (remaining ≤ length (chain_of (links_at env.now root))) × Passed deep (variable_at env.now root) (length (chain_of (links_at env.now root)) - remaining) (Ok step.Through) }
    ensures { Searched variables (environment_of env.now) root remaining deep result }
{
    let first = only(root);
    let mut todo = less(env[root].roots, first);
    let mut met = unite(first, todo);
    let mut ends = no_roots();
    while let Some(x) = todo.take_lowest() {
        let follows = chain_length(env[x].links) - remaining;
        match step_at(env, x, follows, deep)? {
            Step::Here => {
                ends = unite(ends, only(x));
            }
            Step::Through => {
                let more = less(env[x].roots, met);
                met = unite(met, more);
                todo = unite(todo, more);
            }
        }
    }
    Ok(Ends::At(ends))
}

// All that is met from the variable root on, which is in scope, with so many follows from it, if nothing on the way is
// moved away (33). Most often that is the root alone; the links left are counted only where its borrow link is passed.
pub fn search(env: &[Row], variables: usize, root: usize, follows: usize) -> Result<Ends, Reason>
    requires { NeatTable env.now variables × (environment_of env.now root ≡ live (variable_at env.now root)) × (follows ≤ length (chain_of (links_at env.now root))) }
    ensures { Searched variables (environment_of env.now) root (length (chain_of (links_at env.now root)) - follows) false result }
{
    match step_at(env, root, follows, false)? {
        Step::Here => Ok(Ends::Own),
        Step::Through => search_beyond(
            env,
            variables,
            root,
            chain_length(env[root].links) - follows,
            false,
        ),
    }
}

// Whole (LANGUAGE 3.15): nothing of the value of x, which is in scope, is moved away, to the end of its links. Without
// a borrow link that is asked of x alone.
pub fn value_whole(env: &[Row], variables: usize, x: usize) -> bool
    requires { NeatTable env.now variables × (environment_of env.now x ≡ live (variable_at env.now x)) }
    ensures { result ≡ value_whole variables (environment_of env.now) x (variable_at env.now x) }
{
    let Entry::Live(state) = load(env, variables, x) else {
        return false;
    };
    if state.moved_from <= leading_boxes(state.links) as u64 {
        return false;
    }
    if let BorrowEnd::None = state.borrow_end {
        return true;
    }
    search_beyond(env, variables, x, 0, true).is_ok()
}

// The roots that any of these variables records (LANGUAGE 3.19).
pub fn borrows_at(env: &[Row], variables: usize, to: Roots) -> Roots
    requires { (variables ≤ length env.now) × ((y : ℕ) → has to y ≡ true → y < variables) }
    ensures { BorrowedAt env.now to result }
{
    let mut roots = no_roots();
    for x in to {
        roots = unite(roots, env[x].roots);
    }
    roots
}
