// The table of the variables in which a script is judged, all free at first, and that of their last uses, all 0. There are two
// sizes, so that a set of no more variables than the language's (LANGUAGE 2.8) does not pay for clearing the largest
// tables. The parts that are lent are what the set's number of variables takes.
ghost use Rattle.std.specs.Prelude.{◌≡◌, ◌<◌, ◌≤◌, ◌+◌};
ghost use Rattle.syntax.specs.RowTrees.{tree_at};
ghost use Rattle.rules.specs.RuleAnswers.{as_requirement};
ghost use Rattle.uses.specs.RowUses.{NamesBelow};
ghost use Rattle.term_judge.specs.JudgeRows.{EndsAt, script_at};

use crate::judge::judge_script;
use syntax::limits;
use syntax::refusals::Refusal;
use variables::table::Row;

// The rows of notes after those of the variables.
const NOTES: usize = 2;

// The most variables of the smaller tables, and the rows of that of the variables.
const FEW: usize = 64;

const SMALLER: usize = FEW + NOTES;

// The most variables that a set may have (LANGUAGE 2.8), and the rows of the larger.
const MANY: usize = limits::MOST_VARIABLES as usize;

const LARGER: usize = MANY + NOTES;

// The script (LANGUAGE 3.29) with a table of so many rows for the variables, and one of so many last uses.
fn judge_within<const ROWS: usize, const USES: usize>(
    rows: &[u32],
    levels: usize,
    variables: usize,
    terms: usize,
) -> Result<(), Refusal>
    requires { EndsAt (tree_at variables levels rows.now 0) terms × NamesBelow variables rows.now terms × (terms < 4294967295) × (levels < 4294967296) × (variables + 2 ≤ ROWS) × (ROWS ≤ 130) × (variables ≤ USES) × (USES ≤ 128) }
    ensures { as_requirement result ≡ script_at variables (tree_at variables levels rows.now 0) }
{
    let mut env = [Row::default(); ROWS];
    let mut uses = [0u32; USES];
    judge_script(
        rows,
        terms,
        levels,
        &mut env[..variables + NOTES],
        variables,
        &mut uses[..variables],
    )
}

// The script (LANGUAGE 3.29), with no number taken before it (3.1).
pub fn judge_alone(
    rows: &[u32],
    levels: usize,
    variables: usize,
    terms: usize,
) -> Result<(), Refusal>
    requires { EndsAt (tree_at variables levels rows.now 0) terms × NamesBelow variables rows.now terms × (terms < 4294967295) × (variables ≤ 128) × (levels < 4294967296) }
    ensures { as_requirement result ≡ script_at variables (tree_at variables levels rows.now 0) }
{
    if variables <= FEW {
        judge_within::<SMALLER, FEW>(rows, levels, variables, terms)
    } else {
        judge_within::<LARGER, MANY>(rows, levels, variables, terms)
    }
}
