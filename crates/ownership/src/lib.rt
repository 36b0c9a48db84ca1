// The ownership check (LANGUAGE 3) of a script that is given as term rows, within the limits of a set (2.8). It answers the
// number of terms, or the refusal with its place (5.2): the row (12 to 19) or the term (30 to 43).
#![tactic(auto)]

ghost use Rattle.std.specs.Prelude.{◌≡◌};
ghost use Rattle.syntax.specs.Result.{ok};
ghost use Rattle.syntax.specs.Refusals.{told};
ghost use Rattle.syntax.specs.Answers.{judged_of};
ghost use Rattle.ownership.specs.Answers.{check_of};

use reader::judge_rows;
use script_judge::tables::judge_alone;
use syntax::limits::Limits;
use syntax::refusals::Refusal;

// Check (LANGUAGE 6.5), without 74, 2 and 12 to 19: of rows that were judged already, within the set and as so many
// terms.
pub fn check_judged(set: Limits, rows: &[u32], terms: usize) -> Result<usize, Refusal>
    requires { judged_of set rows.now ≡ ok terms }
    ensures { told (λ n. n) result ≡ check_of set rows.now }
{
    let levels = set.levels as usize;
    let variables = set.variables as usize;
    judge_alone(rows, levels, variables, terms).and(Ok(terms))
}

// Check (LANGUAGE 6.5): 74, 2 and 12 to 19 by the reader, then 30 to 43 by the ownership rules (5.7).
pub fn check(set: Limits, rows: &[u32]) -> Result<usize, Refusal>
    ensures { told (λ n. n) result ≡ check_of set rows.now }
{
    let terms = judge_rows(set, rows)?;
    check_judged(set, rows, terms)
}
