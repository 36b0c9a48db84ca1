// The fields of a term row (LANGUAGE 2.9).
ghost use Rattle.std.specs.Prelude.{◌≡◌, ◌+◌, ◌*◌, ◌<◌, ◌≤◌, length};
ghost use Rattle.syntax.specs.RowParts.{field_at};

// Field k of row i (LANGUAGE 2.9): the kind is field 0.
pub fn field_at(rows: &[u32], i: usize, k: usize) -> u32
    requires { (5 * i + 5 ≤ length rows.now) × (k < 5) }
    ensures { result ≡ field_at rows.now i k }
{
    let at = 5 * i + k;
    rows[at]
}

// An operand (LANGUAGE 2.4) as an index or a count.
pub fn index_of(number: u32) -> usize
    ensures { result ≡ number }
{
    number as usize
}

// Field k of row i (LANGUAGE 2.9), as an index or a count.
pub fn index_at(rows: &[u32], i: usize, k: usize) -> usize
    requires { (5 * i + 5 ≤ length rows.now) × (k < 5) }
    ensures { result ≡ field_at rows.now i k }
{
    index_of(field_at(rows, i, k))
}
