// What the rules ask of a variable number (LANGUAGE 3.6 to 3.8), and how a block's variables leave scope (3.28).
ghost use Rattle.std.specs.Prelude.{◌≡◌, List, ℕ, suc, leb};
ghost use Rattle.statics.specs.Places.{every};
ghost use Rattle.statics.specs.Environment.{places, is_free, level_of, leave};
ghost use Rattle.statics.specs.Roots.{places_of};
ghost use Rattle.variables.specs.Chains.{chain_of};
ghost use Rattle.variables.specs.declared.table.Row.{Row};
ghost use Rattle.variables.specs.Masks.{has};
ghost use Rattle.variables.specs.Table.{TableFor, environment_of, long_at, roots_at, places_in, end_in, SameLinks, InScope, Around};

use variables::roots::{Roots, less};
use variables::table::{Row, Status, borrow_end_of, end_roots};

// The number is free (30; LANGUAGE 3.6).
pub fn is_free(env: &[Row], variables: usize, x: usize) -> bool
    requires { TableFor env.now variables }
    ensures { result ≡ is_free (environment_of env.now x) }
{
    variables <= x || env[x].status == Status::Free
}

// How many blocks x lives in (LANGUAGE 3.7); not the level of 2.7.
pub fn level_at(env: &[Row], variables: usize, x: usize) -> u64
    requires { TableFor env.now variables }
    ensures { result ≡ level_of (environment_of env.now x) }
{
    if x < variables && env[x].status == Status::Live {
        return env[x].level;
    }
    0
}

// The roots live in the block of that level or in one around it (40; LANGUAGE 3.25, 3.28).
pub fn lives_at(env: &[Row], variables: usize, roots: Roots, level: u64) -> bool
    requires { TableFor env.now variables }
    ensures { (m : ℕ) → result ≡ every (λ p. leb (level_of (environment_of env.now p.root)) level) (places_of 128 (has roots) (long_at env.now) m) }
{
    for root in roots {
        if level < level_at(env, variables, root) {
            return false;
        }
    }
    true
}

// The roots that something with these links records (LANGUAGE 3.3): none without a borrow link.
pub fn recorded_roots(links: u32, roots: Roots) -> Roots
    ensures { (env : List Row) → places (end_in env (chain_of links) roots) ≡ places_in env (chain_of links) result }
{
    end_roots(borrow_end_of(links, roots))
}

// The variables in scope (LANGUAGE 3.8).
pub fn in_scope(env: &[Row], variables: usize) -> Roots
    requires { TableFor env.now variables }
    ensures { result ≡ roots_at env.now (suc variables) }
{
    env[variables + 1].roots
}

// The end of a block (LANGUAGE 3.28): the variables inside leave scope, all but those that were in scope before.
pub fn leave_blocks(env: &mut [Row], variables: usize, before: Roots)
    requires { TableFor env.old variables × InScope env.old before }
    ensures { ((level : ℕ) → Around env.old before level → environment_of env.new ≡ leave level (environment_of env.old)) × TableFor env.new variables × SameLinks env.old env.new }
{
    let inside = less(in_scope(env, variables), before);
    for x in inside {
        env[x].status = Status::Used;
    }
    env[variables + 1].roots = before;
}
