// What is lent down while a script is judged, and never changes, and the terms that stand around the one that is judged.
ghost use Rattle.std.specs.Prelude.{◌≡◌, ℕ, ◌≤◌};
ghost use Rattle.variables.specs.Masks.{has};
ghost use Rattle.uses.specs.RowUses.{named_around};
ghost use Rattle.uses.specs.RowPlaces.{AllAround};

use syntax::fields::{field_at, index_at};
use syntax::kinds::Kind;
use variables::roots::{Roots, only, unite};

// The script: its term rows (LANGUAGE 2.9), for each variable one more than the last row that names it (3.33), and the
// number of its variables.
#[derive(Clone, Copy)]
pub struct Script<'a> {
    pub rows: &'a [u32],
    pub uses: &'a [u32],
    pub variables: usize,
}

// The terms that stand around the one at row `end`, each around the next: those from row `start` on. They have not
// finished, nor have terms around these, which name the set `named` (LANGUAGE 3.33, 3.34).
#[derive(Clone, Copy)]
pub struct Around {
    pub start: usize,
    pub end: usize,
    pub named: Roots,
}

impl Around {
    // What the terms around name (LANGUAGE 3.33): a let and an assign name a variable, a box none.
    pub fn all_named(&self, script: &Script) -> Roots
        requires { AllAround script.now self.now × (script.now.variables ≤ 128) }
        ensures { (x : ℕ) → has result x ≡ named_around script.now self.now x }
    {
        let mut all = self.named;
        for row in self.start..self.end {
            let Ok(kind) = Kind::try_from(field_at(script.rows, row, 0)) else {
                unreachable!();
            };
            if kind != Kind::Box {
                all = unite(all, only(index_at(script.rows, row, 1)));
            }
        }
        all
    }
}
