// The places in a term row (LANGUAGE 2.3).
ghost use Rattle.std.specs.Prelude.{◌≡◌, ◌<◌, ◌≤◌, ◌+◌, ◌*◌, length};
ghost use Rattle.uses.specs.RowPlaces.{row_place};

use syntax::fields::field_at;
use variables::table::Place;

// The place (LANGUAGE 2.5) in fields k and k + 1 of row i.
pub fn place_at(rows: &[u32], i: usize, k: usize) -> Place
    requires { (5 * i + 5 ≤ length rows.now) × (k < 4) }
    ensures { result ≡ row_place rows.now i k }
{
    Place {
        root: field_at(rows, i, k),
        follows: field_at(rows, i, k + 1),
    }
}
