// The bytes of a script that is given as term rows (LANGUAGE 6.4). Bytes and rows list the terms in one order (2.9), so
// each row gives its own bytes, straight after those of the row before it. The rows come judged: a kind that is none is
// taken as one with a place, so that nothing here can refuse.
ghost use Rattle.std.specs.Prelude.{◌≡◌, ◌∷◌, [], ℕ, ◌+◌, ◌*◌, ◌%◌, ◌<◌, ◌≤◌, length, get_or};
ghost use Rattle.std.proofs.lemmas.List.Edits.{sets};
ghost use Rattle.writer.specs.OutputParts.{row_bytes, bytes_at, script_from};

use syntax::kinds::Kind;

// The number of bytes that a row with this kind byte gives (LANGUAGE 2.3), whatever its fields hold.
fn row_length(kind_byte: u32) -> usize
    ensures { ((a b c d : ℕ) → length (row_bytes kind_byte a b c d) ≡ result) × (result ≤ 5) }
{
    let Ok(kind) = Kind::try_from(kind_byte) else {
        return 3;
    };
    match kind {
        Kind::Number | Kind::Below | Kind::Sum => 5,
        Kind::Reading | Kind::Let | Kind::Block => 2,
        Kind::Box => 1,
        _ => 3,
    }
}

// The number of bytes of the whole script (LANGUAGE 6.4), mark and version included (2.1).
pub fn script_bytes(rows: &[u32], terms: usize) -> usize
    requires { terms * 5 ≤ length rows.now }
    ensures { (v : ℕ) → result ≡ length (script_from v terms rows.now) }
{
    let mut bytes: usize = 5;
    for i in 0..terms {
        bytes += row_length(rows[i * 5]);
    }
    bytes
}

// The lowest 8 bits of a field: the byte that it is written as.
fn byte_at(rows: &[u32], field: usize) -> u8
    requires { field < length rows.now }
    ensures { result ≡ get_or rows.now field 0 % 256 }
{
    (rows[field] % 256) as u8
}

// The bytes, written from offset `at` on; the offset after them. The calls give arrays, so that their length is known once
// this is compiled into them.
#[inline]
fn put(output: &mut [u8], at: usize, bytes: &[u8]) -> usize
    requires { at + length bytes.now ≤ length output.old }
    ensures { (result ≡ at + length bytes.now) × (output.new ≡ sets output.old at bytes.now) }
{
    let end = at + bytes.len();
    output[at..end].copy_from_slice(bytes);
    end
}

// The bytes of row i (LANGUAGE 2.3), from offset `at` on; the offset after them.
fn put_row_bytes(rows: &[u32], i: usize, output: &mut [u8], at: usize) -> usize
    requires { (i * 5 + 5 ≤ length rows.now) × (at + length (bytes_at rows.now i) ≤ length output.old) }
    ensures { (result ≡ at + length (bytes_at rows.now i)) × (output.new ≡ sets output.old at (bytes_at rows.now i)) }
{
    let row = i * 5;
    let kind_byte = byte_at(rows, row);
    let with_place = [kind_byte, byte_at(rows, row + 1), byte_at(rows, row + 2)];
    let Ok(kind) = Kind::try_from(rows[row]) else {
        return put(output, at, &with_place);
    };
    match kind {
        Kind::Number => {
            let [a, b, c, d] = rows[row + 1].to_be_bytes();
            put(output, at, &[kind_byte, a, b, c, d])
        }
        Kind::Reading | Kind::Let | Kind::Block => {
            put(output, at, &[kind_byte, byte_at(rows, row + 1)])
        }
        Kind::Box => put(output, at, &[kind_byte]),
        Kind::Below | Kind::Sum => {
            let [_, root, follows] = with_place;
            let right_root = byte_at(rows, row + 3);
            let right_follows = byte_at(rows, row + 4);
            put(
                output,
                at,
                &[kind_byte, root, follows, right_root, right_follows],
            )
        }
        _ => put(output, at, &with_place),
    }
}

// The script at the front of the output (LANGUAGE 2.1, 6.4): the mark `RCS`, the version, and each row's bytes.
pub fn put_script(version: u32, rows: &[u32], terms: usize, output: &mut [u8])
    requires { (terms * 5 ≤ length rows.now) × (length (script_from version terms rows.now) ≤ length output.old) }
    ensures { output.new ≡ sets output.old 0 (script_from version terms rows.now) }
{
    let [_, _, high, low] = version.to_be_bytes();
    let mut at = put(output, 0, &[b'R', b'C', b'S', high, low]);
    for row in 0..terms {
        at = put_row_bytes(rows, row, output, at);
    }
}
