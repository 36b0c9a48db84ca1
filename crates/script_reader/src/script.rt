// A whole script (LANGUAGE 2.1): mark and version, one block, and nothing after it. One reader goes from the mark to
// the end.
ghost use Rattle.std.specs.Prelude.{◌≡◌, ◌++◌, ◌-◌, ◌≤◌, length, take};
ghost use Rattle.syntax.specs.Layout.{zeros};
ghost use Rattle.syntax.specs.ByteParts.{ScriptRead};
ghost use Rattle.script_reader.specs.Lent.{RowsFor, script_got};

use crate::reader::Reader;
use syntax::limits::Limits;
use syntax::refusals::Refusal;

// What reading tells of a script (LANGUAGE 6.2): its version and the number of its terms.
#[derive(Clone, Copy, Debug, PartialEq, Eq)]
pub struct Script {
    pub version: u32,
    pub terms: usize,
}

// Reads mark, version and outermost term in this order (LANGUAGE 5.9): one reader, moved past each. `newest` is the newest
// version that it knows (6.2).
pub fn read_script(
    limits: &Limits,
    newest: usize,
    script: &[u8],
    rows: &mut [u32],
) -> Result<Script, Refusal>
    requires { (length script.now ≤ 32768) × RowsFor limits.now rows.old }
    ensures { ScriptRead limits.now newest script.now rows.old rows.new (script_got (length script.now) result) }
{
    let mut reader = Reader::new(script);
    let lead = reader.read_lead();
    let outermost = reader.read_outermost(limits, newest, lead, rows);
    reader.read_end(outermost)
}

// 0 in every field from `from` on: the unused rows (LANGUAGE 2.10), and all of them after a refusal (5.4).
pub fn clear_from(rows: &mut [u32], from: usize)
    requires { from ≤ length rows.old }
    ensures { rows.new ≡ take from rows.old ++ zeros (length rows.old - from) }
{
    rows[from..].fill(0);
}
