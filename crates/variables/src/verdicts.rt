// What judging a term answers: the type of its value, if it has one (LANGUAGE 3.3, 3.4), or the refusal (3.17).
ghost use Rattle.std.specs.Prelude.{◌≡◌, ◌∷◌};
ghost use Rattle.statics.specs.Rules.{number_ty};
ghost use Rattle.variables.specs.Chains.{as_link, chain_of};
ghost use Rattle.variables.specs.Table.{end_in};
ghost use Rattle.variables.specs.Verdicts.{type_of, Answers, value_of, at_most8};

use crate::chains::{Link, one_more_fits, with_first};
use crate::roots::{Roots, no_roots};
use syntax::refusals::Reason;

// The roots are those of the places that the first borrow link stands for; without one they say nothing.
#[derive(Clone, Copy)]
pub struct ValueType {
    pub links: u32,
    pub roots: Roots,
}

// The value of an accepted term: a let and an assign have none (LANGUAGE 3.4). The term that is refused is not told:
// whoever asks knows it.
pub type Verdict = Result<Option<ValueType>, Reason>;

// The verdict of a term with a value of this type (LANGUAGE 3.3).
pub fn value_of(links: u32, roots: Roots) -> Verdict
    ensures { Answers result (value_of (λ env. type_of (chain_of links) (end_in env (chain_of links) roots))) }
{
    Ok(Some(ValueType { links, roots }))
}

// The value of a number, a reading (LANGUAGE 3.18), a below and a sum (3.27).
pub fn number_value() -> Verdict
    ensures { Answers result (value_of (λ env. number_ty)) }
{
    value_of(0, no_roots())
}

// A value with one more link in front, if that makes at most 8 (42; LANGUAGE 3.21 to 3.23).
pub fn longer_value(link: Link, links: u32, roots: Roots) -> Verdict
    ensures { Answers result (at_most8 (λ env. type_of (as_link link ∷ chain_of links) (end_in env (as_link link ∷ chain_of links) roots))) }
{
    if !one_more_fits(links) {
        return Err(Reason::TooManyLinks);
    }
    value_of(with_first(link, links), roots)
}
