// What the borrows that are held bar (LANGUAGE 3.10 to 3.12, 3.34): the note of the root tells who may hold one. Where
// somebody may, it is asked whether one in use does: one that an unfinished term names, or that a variable in use holds.
ghost use Rattle.std.specs.Prelude.{◌≡◌, true, false, ℕ, ◌<◌, length};
ghost use Rattle.statics.specs.Uses.{Unfinished};
ghost use Rattle.bars.specs.declared.bars.Borrows.TheVariants as borrows;
ghost use Rattle.statics.specs.Bars.{held_by, held, in_use};
ghost use Rattle.variables.specs.Masks.{has};
ghost use Rattle.variables.specs.Table.{TableFor, environment_of};
ghost use Rattle.bars.specs.Held.{borrows_by, MayHold};
ghost use Rattle.bars.specs.Leading.{named_from, LaterIs, LeadingTo};

use paths::environment::in_scope;
use variables::chains::leading_boxes;
use variables::roots::{Roots, common, is_empty, is_member, less, no_roots, only, unite};
use variables::table::{BorrowEnd, Entry, Row, load};

// Which borrows of a place count: all bar writing it (LANGUAGE 3.12), exclusive ones reading it (3.11).
#[derive(Clone, Copy)]
pub enum Borrows {
    Any,
    Exclusive,
}

// The terms that have not finished (LANGUAGE 3.34): those at row `from` and after it, and terms around them, which name
// the variables `named`. `uses` has for each variable one more than the last row that names it.
#[derive(Clone, Copy)]
pub struct Later<'a> {
    pub uses: &'a [u32],
    pub from: usize,
    pub named: Roots,
}

impl<'a> Later<'a> {
    // A term that has not finished names x (LANGUAGE 3.33).
    fn names(&self, x: usize) -> bool
        requires { x < length self.now.uses.now }
        ensures { result ≡ named_from self.now.uses.now self.now.from (has self.now.named) x }
    {
        self.from < self.uses[x] as usize || is_member(self.named, x)
    }
}

// Holding (LANGUAGE 3.10): the roots of the places of which x holds a borrow that counts.
fn held_by(env: &[Row], variables: usize, x: usize, which: Borrows) -> Roots
    requires { TableFor env.now variables }
    ensures { (root : ℕ) → has result root ≡ held_by (borrows_by which) (environment_of env.now x) root }
{
    let Entry::Live(state) = load(env, variables, x) else {
        return no_roots();
    };
    if state.moved_from <= leading_boxes(state.links) as u64 {
        return no_roots();
    }
    match state.borrow_end {
        BorrowEnd::None => no_roots(),
        BorrowEnd::Shared(roots) => match which {
            Borrows::Any => roots,
            Borrows::Exclusive => no_roots(),
        },
        BorrowEnd::Exclusive(roots) => roots,
    }
}

// Variables that may lead to a root: some that record a place with that root, all that record a place with one of these,
// and so on; and those of them that are named by a term that has not finished.
#[derive(Clone, Copy)]
struct Leading {
    all: Roots,
    named: Roots,
}

// Those of the set that record the root, and all that may lead to these. The notes tell whom to ask, and each is asked
// what it records, since a note may be out of date: it is found if it records the root, or one that is found.
fn leading_to(env: &[Row], variables: usize, later: &Later, root: usize, may: Roots) -> Leading
    requires { TableFor env.now variables × (length later.now.uses.now ≡ variables) × (root < variables) }
    ensures { LeadingTo env.now root may (named_from later.now.uses.now later.now.from (has later.now.named)) result }
{
    let scope = in_scope(env, variables);
    let mut towards = only(root);
    let mut all = no_roots();
    let mut named = no_roots();
    let mut left = common(may, scope);
    while let Some(x) = left.take_lowest() {
        if !is_empty(common(env[x].roots, towards)) {
            let one = only(x);
            if later.names(x) {
                named = unite(named, one);
            }
            all = unite(all, one);
            towards = unite(towards, one);
            left = unite(left, common(less(env[x].holders, all), scope));
        }
    }
    Leading { all, named }
}

// A variable in use (LANGUAGE 3.34) holds a borrow of a place with the root that counts. Most often no variable that may
// lead to the root is named. From those that are, the search goes to what each holds, among those that may lead to the
// root: all that it meets are in use.
pub fn is_held(
    env: &[Row],
    variables: usize,
    later: &Later,
    root: usize,
    which: Borrows,
    may: Roots,
) -> bool
    requires { TableFor env.now variables × (root < variables) × MayHold env.now which root may × (length later.now.uses.now ≡ variables) }
    ensures { (ns : Unfinished) → LaterIs variables later.now.uses.now later.now.from (has later.now.named) ns → result ≡ held (borrows_by which) (in_use variables ns (environment_of env.now)) variables (environment_of env.now) root }
{
    let near = leading_to(env, variables, later, root, may);
    let mut met = near.named;
    let mut left = met;
    while let Some(x) = left.take_lowest() {
        if is_member(held_by(env, variables, x, which), root) {
            return true;
        }
        let holds = held_by(env, variables, x, Borrows::Any);
        let more = common(less(holds, met), near.all);
        met = unite(met, more);
        left = unite(left, more);
    }
    false
}

// Those that may bar reading the root (LANGUAGE 3.11): all that hold an exclusive borrow of it are among them.
pub fn may_bar_reading(env: &[Row], variables: usize, root: usize) -> Roots
    requires { TableFor env.now variables × (root < variables) }
    ensures { MayHold env.now borrows.Exclusive root result }
{
    common(env[root].holders, env[variables].roots)
}

// Those that may bar writing it (LANGUAGE 3.12): all that hold a borrow of it, of either kind, are among them.
pub fn may_bar_writing(env: &[Row], variables: usize, root: usize) -> Roots
    requires { TableFor env.now variables × (root < variables) }
    ensures { MayHold env.now borrows.Any root result }
{
    common(env[root].holders, in_scope(env, variables))
}
