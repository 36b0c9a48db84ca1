// What stands at a kind byte (LANGUAGE 5.10).
ghost use Rattle.std.specs.Prelude.{◌≡◌, false, ◌≤◌, slice_index};
ghost use Rattle.syntax.specs.Result.{ok};
ghost use Rattle.syntax.specs.Refusals.{told};
ghost use Rattle.syntax.specs.KindNumbers.{number_in};
ghost use Rattle.syntax.specs.ByteParts.{opening_number, no_block_byte, on_number};

use crate::kinds::Kind;
use crate::limits::Limits;
use crate::progress::Progress;
use crate::refusals::{Reason, Refusal};

// 18 (LANGUAGE 5.10): the kind byte is a known kind's, and not a block's. It is asked only where a block must stand. Nothing
// but 12 and 13 comes before it, so it is asked before the term is read as any other.
pub fn no_block_byte(version: usize, tail: &[u8]) -> bool
    ensures { result ≡ no_block_byte version tail.now }
{
    let Some(byte) = tail.first() else {
        return false;
    };
    let Some(kind) = Kind::in_version(version, u32::from(*byte)) else {
        return false;
    };
    kind != Kind::Block
}

// The kind of the kind byte, or its refusal, in the order 12, 13, 16, 15, 17 (LANGUAGE 5.10).
pub fn opening(
    limits: &Limits,
    version: usize,
    tail: &[u8],
    levels: usize,
    progress: &Progress,
) -> Result<Kind, Refusal>
    ensures { told number_in result ≡ on_number (opening_number limits.now version levels false tail.now progress.now.terms progress.now.boxes) progress.now.at (ok (slice_index tail.now 0)) }
{
    let Some(byte) = tail.first() else {
        return Err(progress.refused(Reason::Ended));
    };
    let Some(kind) = Kind::in_version(version, u32::from(*byte)) else {
        return Err(progress.refused(Reason::UnknownKind));
    };
    if limits.terms as usize <= progress.terms {
        return Err(progress.refused(Reason::TooManyTerms));
    }
    if levels == 0 {
        return Err(progress.refused(Reason::TooDeep));
    }
    if kind == Kind::Box && limits.boxes as usize <= progress.boxes {
        return Err(progress.refused(Reason::TooManyBoxes));
    }
    Ok(kind)
}
