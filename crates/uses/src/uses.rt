// Last uses (LANGUAGE 3.33), and whether a root is barred at a term (3.11, 3.12). A term that has not finished stands at a
// row from the present one on, or around it: so for each variable the last row that names it is enough, and a set of
// what the terms around name, which is handed down.
ghost use Rattle.std.specs.Prelude.{◌≡◌, ℕ, ◌<◌, length, get_or};
ghost use Rattle.statics.specs.Uses.{Unfinished};
ghost use Rattle.statics.specs.Bars.{held, in_use, read_barred, write_barred};
ghost use Rattle.variables.specs.Table.{TableFor, environment_of};
ghost use Rattle.bars.specs.Held.{borrows_by, MayHold};
ghost use Rattle.bars.specs.Leading.{LaterIs};
ghost use Rattle.uses.specs.RowUses.{NamesBelow, UsesFor, named_around};
ghost use Rattle.uses.specs.RowPlaces.{AllAround};

use crate::script::{Around, Script};
use bars::bars::{Borrows, Later, is_held, may_bar_reading, may_bar_writing};
use syntax::fields::{field_at, index_at};
use syntax::kinds::Kind;
use variables::roots::{Roots, is_empty};
use variables::table::Row;

// For each variable one more than the last row that names it (LANGUAGE 3.33), from all 0 on.
pub fn find_uses(rows: &[u32], terms: usize, uses: &mut [u32])
    requires { NamesBelow (length uses.old) rows.now terms × (terms < 4294967295) × ((x : ℕ) → get_or uses.old x 0 ≡ 0) }
    ensures { UsesFor (length uses.old) rows.now uses.new }
{
    for i in 0..terms {
        // What is no kind names nothing.
        let Ok(kind) = Kind::try_from(field_at(rows, i, 0)) else {
            continue;
        };
        let past = (i + 1) as u32;
        match kind {
            Kind::Number | Kind::Reading | Kind::Box | Kind::Block => {}
            Kind::Copy
            | Kind::Move
            | Kind::Shared
            | Kind::Exclusive
            | Kind::Let
            | Kind::Assign
            | Kind::Choice => {
                let first = index_at(rows, i, 1);
                uses[first] = past;
            }
            Kind::Below | Kind::Sum => {
                let first = index_at(rows, i, 1);
                let second = index_at(rows, i, 3);
                uses[first] = past;
                uses[second] = past;
            }
        }
    }
}

// A variable in use holds a borrow of the root that counts, of those that may hold one. Most often none may, and the two
// below ask that first: so a term costs a call, and what the terms around name is gathered, only where one may.
fn is_barred(
    script: &Script,
    around: &Around,
    from: usize,
    env: &[Row],
    root: usize,
    which: Borrows,
    may: Roots,
) -> bool
    requires { AllAround script.now around.now × TableFor env.now script.now.variables × (length script.now.uses.now ≡ script.now.variables) × (root < script.now.variables) × MayHold env.now which root may }
    ensures { (ns : Unfinished) → LaterIs script.now.variables script.now.uses.now from (named_around script.now around.now) ns → result ≡ held (borrows_by which) (in_use script.now.variables ns (environment_of env.now)) script.now.variables (environment_of env.now) root }
{
    let later = Later {
        uses: script.uses,
        from,
        named: around.all_named(script),
    };
    is_held(env, script.variables, &later, root, which, may)
}

// Reading barred (LANGUAGE 3.11), where the terms from row `from` on have not finished, nor those around.
pub fn read_barred(script: &Script, around: &Around, from: usize, env: &[Row], root: usize) -> bool
    requires { AllAround script.now around.now × TableFor env.now script.now.variables × (length script.now.uses.now ≡ script.now.variables) × (root < script.now.variables) }
    ensures { (ns : Unfinished) → LaterIs script.now.variables script.now.uses.now from (named_around script.now around.now) ns → result ≡ read_barred script.now.variables ns (environment_of env.now) root }
{
    let may = may_bar_reading(env, script.variables, root);
    if is_empty(may) {
        return false;
    }
    is_barred(script, around, from, env, root, Borrows::Exclusive, may)
}

// Writing barred (LANGUAGE 3.12), likewise: the two differ in which borrows count, and in who may hold one.
pub fn write_barred(script: &Script, around: &Around, from: usize, env: &[Row], root: usize) -> bool
    requires { AllAround script.now around.now × TableFor env.now script.now.variables × (length script.now.uses.now ≡ script.now.variables) × (root < script.now.variables) }
    ensures { (ns : Unfinished) → LaterIs script.now.variables script.now.uses.now from (named_around script.now around.now) ns → result ≡ write_barred script.now.variables ns (environment_of env.now) root }
{
    let may = may_bar_writing(env, script.variables, root);
    if is_empty(may) {
        return false;
    }
    is_barred(script, around, from, env, root, Borrows::Any, may)
}
