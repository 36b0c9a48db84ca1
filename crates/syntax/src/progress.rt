// How far a script's bytes are read.
ghost use Rattle.std.specs.Prelude.{◌≡◌, ◌+◌, ◌≤◌};
ghost use Rattle.syntax.specs.KindNumbers.{number_in};
ghost use Rattle.syntax.specs.ByteParts.{passed};

use crate::kinds::Kind;
use crate::refusals::{Reason, Refusal};

// The next offset (LANGUAGE 5.2), and the terms and boxes met, for their limits (2.8).
#[derive(Clone, Copy, Debug, PartialEq, Eq)]
pub struct Progress {
    pub at: usize,
    pub terms: usize,
    pub boxes: usize,
}

impl Progress {
    // Before the first term, whose kind byte stands at this offset.
    pub fn new(at: usize) -> Self
        ensures { result ≡ record { at = at; terms = 0; boxes = 0 } }
    {
        Progress {
            at,
            terms: 0,
            boxes: 0,
        }
    }

    // Past the kind byte and the operands of a term of this kind, which take so many bytes.
    pub fn pass(&mut self, kind: Kind, bytes: usize)
        requires at { self.old.at + bytes ≤ 65536 }
        requires terms { self.old.terms ≤ 65536 }
        requires boxes { self.old.boxes ≤ 65536 }
        ensures { self.new ≡ passed self.old (number_in kind) bytes }
    {
        self.at += bytes;
        self.terms += 1;
        if kind == Kind::Box {
            self.boxes += 1;
        }
    }

    // The refusal of what stands at the next offset.
    pub fn refused(&self, reason: Reason) -> Refusal
        ensures { result ≡ record { reason = reason; place = self.now.at } }
    {
        Refusal {
            reason,
            place: self.at,
        }
    }
}
