// The script form (LANGUAGE 2, 5) as definitions, and theorems about them. The code here is what bytes and term rows share:
// limits, refusals, versions and kinds, and the numbers of a row.
#![tactic(auto)]

pub mod refusals; // refusals.rt: why something is refused
pub mod limits; // limits.rt: limits, and the lengths of lent memory
pub mod kinds; // kinds.rt: the versions, and the kinds of terms
pub mod fields; // fields.rt: the numbers of a row
pub mod progress; // progress.rt: how far a script's bytes are read
pub mod opening; // opening.rt: what stands at a kind byte
