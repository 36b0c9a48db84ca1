// A reader of a script in its named form: the lent bytes and the next offset. Its methods are few and thin: each leaves
// its work to a function on slice and number, and moves on past what that has read. After a refusal the reader stays.
ghost use Rattle.std.specs.Prelude.{◌≡◌, ℕ, ◌+◌, [], ◌∷◌, leb};
ghost use Rattle.syntax.specs.Result.{ok};
ghost use Rattle.syntax.specs.Refusals.{told};
ghost use Rattle.syntax.specs.ByteParts.{Fine};
ghost use Rattle.script_reader.specs.Lent.{begun, advanced, Inside, RowsFor, marked, version_got, progress_got, script_got, end_got, LeadRead, TermRead, OutermostRead, end_judged};

use crate::script::Script;
use syntax::kinds::{NEWEST, knows_version};
use syntax::limits;
use syntax::limits::Limits;
use syntax::opening::no_block_byte;
use syntax::progress::Progress;
use syntax::refusals::{Reason, Refusal};
use term_reader::terms::read_block;

// The mark (LANGUAGE 2.1).
const MARK: [u8; 3] = *b"RCS";

// The bytes of mark and version.
const LEAD: usize = 5;

// The lent bytes of a script, and the next offset.
#[derive(Clone, Copy)]
pub struct Reader<'a> {
    script: &'a [u8],
    at: usize,
}

// ---- on slice and number

// The mark from offset `at` on (LANGUAGE 2.1), each byte judged by itself (5.9): 12 where there is none, 10 where it
// differs.
fn judge_mark(script: &[u8], at: usize) -> Result<(), Refusal>
    requires { Inside script.now at }
    ensures { told (λ u. at + 3) result ≡ marked (0x52 ∷ 0x43 ∷ 0x53 ∷ []) script.now at (ok (at + 3)) }
{
    for (j, byte) in MARK.iter().enumerate() {
        let place = at + j;
        let Some(found) = script.get(place) else {
            return Err(Refusal {
                reason: Reason::Ended,
                place,
            });
        };
        if found != byte {
            return Err(Refusal {
                reason: Reason::Mark,
                place,
            });
        }
    }
    Ok(())
}

// Mark and version from offset `at` on (LANGUAGE 2.1, 5.9): the version, two bytes with the high one first (1.4), or the
// refusal. Any version that there is will do here.
fn judge_lead(script: &[u8], at: usize) -> Result<u32, Refusal>
    requires { Inside script.now at }
    ensures { LeadRead script.now at (version_got (at + 5) result) }
{
    judge_mark(script, at)?;
    let after_mark = &script[at + 3..];
    let [high, low, ..] = after_mark else {
        return Err(Refusal {
            reason: Reason::Ended,
            place: script.len(),
        });
    };
    let version = u32::from(u16::from_be_bytes([*high, *low]));
    if !knows_version(NEWEST, version) {
        return Err(Refusal {
            reason: Reason::Version,
            place: at + 3,
        });
    }
    Ok(version)
}

// The outermost term (LANGUAGE 2.1), with the kinds of this version (2.3), which is 11 where it is newer than the newest
// that is known (5.4, 6.2). It is read from the part of the script that begins at its kind byte (2.2), as a block of one
// term is. 18 is asked here, so that the readers are entered by the block reader: the compiler then makes the term reader
// part of it.
fn read_outermost_term(
    limits: &Limits,
    newest: usize,
    version: usize,
    script: &[u8],
    at: usize,
    rows: &mut [u32],
) -> Result<Progress, Refusal>
    requires { Inside script.now at × RowsFor limits.now rows.old }
    ensures { TermRead (leb version newest) limits.now version script.now at rows.old rows.new (progress_got version result) }
{
    if newest < version {
        return Err(Refusal {
            reason: Reason::Version,
            place: limits::VERSION_PLACE,
        });
    }
    let tail = &script[at..];
    if no_block_byte(version, tail) {
        return Err(Refusal {
            reason: Reason::NoBlock,
            place: at,
        });
    }
    let mut progress = Progress::new(at);
    let levels = limits.levels as usize;
    read_block(limits, version, tail, 1, levels, &mut progress, rows)?;
    Ok(progress)
}

// What is left after the outermost term (LANGUAGE 5.9): 19 at the first byte left.
fn judge_end(script: &[u8], at: usize) -> Result<(), Refusal>
    ensures { (terms version : ℕ) → end_got (Fine at terms version) result ≡ end_judged (Fine at terms version) script.now at }
{
    if at < script.len() {
        return Err(Refusal {
            reason: Reason::LeftOver,
            place: at,
        });
    }
    Ok(())
}

// ---- on a reader

impl<'a> Reader<'a> {
    // A reader at the first byte.
    pub fn new(script: &'a [u8]) -> Self
        ensures { result ≡ begun script.entry }
    {
        Reader { script, at: 0 }
    }

    // Mark and version (LANGUAGE 2.1), from the next offset on: the version.
    pub fn read_lead(&mut self) -> Result<u32, Refusal>
        requires { Inside self.old.script.now self.old.at }
        ensures read { LeadRead self.old.script.now self.old.at (version_got self.new.at result) }
        ensures moved { self.new ≡ advanced self.old (version_got self.new.at result) }
    {
        let version = judge_lead(self.script, self.at)?;
        self.at += LEAD;
        Ok(version)
    }

    // The outermost term (LANGUAGE 2.1), from the next offset on, with the kinds of the version that was read before it: the
    // version and the number of terms. A refusal before it is answered again.
    pub fn read_outermost(
        &mut self,
        limits: &Limits,
        newest: usize,
        lead: Result<u32, Refusal>,
        rows: &mut [u32],
    ) -> Result<Script, Refusal>
        requires { Inside self.old.script.now self.old.at × RowsFor limits.now rows.old }
        ensures read { OutermostRead limits.now newest (version_got self.old.at lead) self.old.script.now self.old.at rows.old rows.new (script_got self.new.at result) }
        ensures moved { self.new ≡ advanced self.old (script_got self.new.at result) }
    {
        let version = lead?;
        let (script, at) = (self.script, self.at);
        let progress = read_outermost_term(limits, newest, version as usize, script, at, rows)?;
        self.at = progress.at;
        Ok(Script {
            version,
            terms: progress.terms,
        })
    }

    // The end (LANGUAGE 2.1): no byte stands at the next offset, or 19. A refusal before it is answered again.
    pub fn read_end(&self, got: Result<Script, Refusal>) -> Result<Script, Refusal>
        ensures { script_got self.now.at result ≡ end_judged (script_got self.now.at got) self.now.script.now self.now.at }
    {
        let script = got?;
        judge_end(self.script, self.at)?;
        Ok(script)
    }
}
