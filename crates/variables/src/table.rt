// The table of the variables, a row to each: the state (LANGUAGE 3.8), and a note (crate `notes`).
ghost use Rattle.std.specs.Prelude.{◌≡◌, suc};
ghost use Rattle.statics.specs.Links.{leading_boxes};
ghost use Rattle.variables.specs.Chains.{chain_of};
ghost use Rattle.variables.specs.Table.{TableFor, borrow_end_of, end_roots, changed_state, entry_at};

use crate::chains::{Link, leading_boxes, split_first};
use crate::roots::Roots;

// A place (LANGUAGE 2.5).
#[derive(Clone, Copy)]
pub struct Place {
    pub root: u32,
    pub follows: u32,
}

// The borrow end: the roots of the places that the first borrow link stands for (LANGUAGE 3.3). There is at most one
// place for each root, and its follows come from the lengths of the chains.
#[derive(Clone, Copy)]
pub enum BorrowEnd {
    None,
    Shared(Roots),
    Exclusive(Roots),
}

// The state of a variable (LANGUAGE 3.8). The links from moved_from on are moved away; where nothing is, moved_from is
// one past the own positions (3.9).
#[derive(Clone, Copy)]
pub struct VariableState {
    pub links: u32,
    pub moved_from: u64,
    pub borrow_end: BorrowEnd,
    pub level: u64,
}

// A number (LANGUAGE 3.6): free; taken, and not in scope; or in scope.
#[derive(Clone, Copy)]
pub enum Entry {
    Free,
    Used,
    Live(VariableState),
}

// What is known of a number (LANGUAGE 3.6): it is free; taken, and not in scope; or in scope.
#[derive(Clone, Copy, PartialEq, Eq, Default)]
pub enum Status {
    #[default]
    Free,
    Used,
    Live,
}

// The row of a number: its state (LANGUAGE 3.8), if it is in scope, with the roots that it records; and the notes (crate
// `notes`): the variables that may hold a borrow of a place with this root, and how far the numbers are taken. In the two
// rows after those of the variables, which are notes alone, the roots are a set of variables.
#[derive(Clone, Copy, Default)]
pub struct Row {
    pub status: Status,
    pub links: u32,
    pub roots: Roots,
    pub holders: Roots,
    pub moved_from: u64,
    pub level: u64,
    pub note: u64,
}

// The borrow end (LANGUAGE 3.3) of something with these links that records these roots.
pub fn borrow_end_of(links: u32, roots: Roots) -> BorrowEnd
    ensures { result ≡ borrow_end_of (chain_of links) roots }
{
    let mut rest = links;
    while let Some((link, after)) = split_first(rest) {
        match link {
            Link::Box => rest = after,
            Link::Shared => return BorrowEnd::Shared(roots),
            Link::Exclusive => return BorrowEnd::Exclusive(roots),
        }
    }
    BorrowEnd::None
}

// The roots of the places that the borrow end stands for (LANGUAGE 3.3).
pub fn end_roots(end: BorrowEnd) -> Roots
    ensures { result ≡ end_roots end }
{
    match end {
        BorrowEnd::None => Roots { low: 0, high: 0 },
        BorrowEnd::Shared(roots) => roots,
        BorrowEnd::Exclusive(roots) => roots,
    }
}

// From where a variable with these links is moved away if nothing of it is: one past its own positions (LANGUAGE 3.8, 3.9).
pub fn nothing_moved(links: u32) -> u64
    ensures { result ≡ suc (leading_boxes (chain_of links)) }
{
    (leading_boxes(links) + 1) as u64
}

// The state with what an assign or a choice changes (LANGUAGE 3.25, 3.31): from where the variable is moved away, and
// the roots that it records. Links and level stay.
pub fn changed_state(state: VariableState, moved_from: u64, roots: Roots) -> VariableState
    ensures { result ≡ changed_state state moved_from roots }
{
    VariableState {
        links: state.links,
        moved_from: moved_from,
        borrow_end: borrow_end_of(state.links, roots),
        level: state.level,
    }
}

// What is known of number x (LANGUAGE 3.6, 3.8). A number that the table does not have is free.
pub fn load(env: &[Row], variables: usize, x: usize) -> Entry
    requires { TableFor env.now variables }
    ensures { result ≡ entry_at env.now x }
{
    if variables <= x {
        return Entry::Free;
    }
    let row = env[x];
    match row.status {
        Status::Free => Entry::Free,
        Status::Used => Entry::Used,
        Status::Live => Entry::Live(VariableState {
            links: row.links,
            moved_from: row.moved_from,
            borrow_end: borrow_end_of(row.links, row.roots),
            level: row.level,
        }),
    }
}
