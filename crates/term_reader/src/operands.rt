// The operands after a kind byte, judged byte by byte (LANGUAGE 5.11), and the row that they fill (2.9).
ghost use Rattle.std.specs.Prelude.{◌≡◌, ◌∷◌, ◌+◌, ◌*◌, ◌≤◌, length, slice_index};
ghost use Rattle.std.proofs.lemmas.List.Edits.{sets};
ghost use Rattle.syntax.specs.Result.{ok};
ghost use Rattle.syntax.specs.Refusals.{told};
ghost use Rattle.syntax.specs.KindNumbers.{number_in};
ghost use Rattle.syntax.specs.Parts.{fields_of, place_fields};
ghost use Rattle.syntax.specs.ByteParts.{field_number, on_number, word_field, one_field, two_place_fields};
ghost use Rattle.term_reader.specs.OperandParts.{OperandsRead, PlaceRead};

use syntax::kinds::Kind;
use syntax::limits;
use syntax::limits::Limits;
use syntax::refusals::{Reason, Refusal};

// Where a term's operands end, counted from its kind byte, and the fields of its row after the kind (LANGUAGE 2.9).
#[derive(Clone, Copy)]
pub struct Operands {
    pub end: usize,
    pub fields: [u32; 4],
}

// The row of term n (LANGUAGE 2.9).
pub fn put_row(rows: &mut [u32], n: usize, kind: Kind, fields: &[u32; 4])
    requires { n * 5 + 5 ≤ length rows.old }
    ensures { rows.new ≡ sets rows.old (n * 5) (number_in kind ∷ fields.now) }
{
    let at = n * 5;
    let [a, b, c, d] = *fields;
    rows[at] = kind.number();
    rows[at + 1] = a;
    rows[at + 2] = b;
    rows[at + 3] = c;
    rows[at + 4] = d;
}

// One operand byte (LANGUAGE 5.11): the one at j, from low to below high; else 12 if there is none, or 14.
fn read_byte(tail: &[u8], at: usize, j: usize, low: u32, high: u32) -> Result<u32, Refusal>
    requires { (at + length tail.now ≤ 32768) × (j ≤ 4) }
    ensures { told (λ v. v) result ≡ on_number (field_number tail.now j low high) (at + j) (ok (slice_index tail.now j)) }
{
    let place = at + j;
    let Some(byte) = tail.get(j) else {
        return Err(Refusal {
            reason: Reason::Ended,
            place,
        });
    };
    let value = u32::from(*byte);
    if value < low || high <= value {
        return Err(Refusal {
            reason: Reason::Operand,
            place,
        });
    }
    Ok(value)
}

// A place (LANGUAGE 2.5), its root and its follows: the bytes at j and j + 1.
fn read_root_and_follows(
    variables: u32,
    tail: &[u8],
    at: usize,
    j: usize,
) -> Result<(u32, u32), Refusal>
    requires { (at + length tail.now ≤ 32768) × (j ≤ 3) }
    ensures { PlaceRead variables tail.now at j result }
{
    let root = read_byte(tail, at, j, 0, variables)?;
    let follows = read_byte(tail, at, j + 1, 0, limits::FOLLOWS)?;
    Ok((root, follows))
}

// The operand of a number (LANGUAGE 2.3): four bytes after the kind byte, any (2.4), the high one first (1.4).
fn read_word(tail: &[u8], at: usize) -> Result<Operands, Refusal>
    requires { at + length tail.now ≤ 32768 }
    ensures { OperandsRead word_field tail.now at result }
{
    let [_, a, b, c, d, ..] = tail else {
        return Err(Refusal {
            reason: Reason::Ended,
            place: at + tail.len(),
        });
    };
    Ok(Operands {
        end: 5,
        fields: [u32::from_be_bytes([*a, *b, *c, *d]), 0, 0, 0],
    })
}

// The operand of a reading, a let and a block (LANGUAGE 2.3): one byte from low to below high (2.4).
fn read_one(tail: &[u8], at: usize, low: u32, high: u32) -> Result<Operands, Refusal>
    requires { at + length tail.now ≤ 32768 }
    ensures { OperandsRead (one_field low high) tail.now at result }
{
    let value = read_byte(tail, at, 1, low, high)?;
    Ok(Operands {
        end: 2,
        fields: [value, 0, 0, 0],
    })
}

// The operands of a copy, a move, a borrow, an assign and a choice (LANGUAGE 2.3): one place.
fn read_place(variables: u32, tail: &[u8], at: usize) -> Result<Operands, Refusal>
    requires { at + length tail.now ≤ 32768 }
    ensures { OperandsRead (place_fields variables) tail.now at result }
{
    let (root, follows) = read_root_and_follows(variables, tail, at, 1)?;
    Ok(Operands {
        end: 3,
        fields: [root, follows, 0, 0],
    })
}

// The operands of a below and a sum (LANGUAGE 2.3): two places.
fn read_two_places(variables: u32, tail: &[u8], at: usize) -> Result<Operands, Refusal>
    requires { at + length tail.now ≤ 32768 }
    ensures { OperandsRead (two_place_fields variables) tail.now at result }
{
    let (root, follows) = read_root_and_follows(variables, tail, at, 1)?;
    let (other_root, other_follows) = read_root_and_follows(variables, tail, at, 3)?;
    Ok(Operands {
        end: 5,
        fields: [root, follows, other_root, other_follows],
    })
}

// The operands of a kind (LANGUAGE 2.3).
pub fn read_operands(
    limits: &Limits,
    tail: &[u8],
    at: usize,
    kind: Kind,
) -> Result<Operands, Refusal>
    requires { at + length tail.now ≤ 32768 }
    ensures { OperandsRead (fields_of limits.now (number_in kind)) tail.now at result }
{
    let variables = limits.variables;
    match kind {
        Kind::Number => read_word(tail, at),
        Kind::Reading => read_one(tail, at, 0, limits::READINGS),
        Kind::Let => read_one(tail, at, 0, variables),
        Kind::Block => read_one(tail, at, 1, limits::BLOCK),
        Kind::Box => Ok(Operands {
            end: 1,
            fields: [0; 4],
        }),
        Kind::Below | Kind::Sum => read_two_places(variables, tail, at),
        Kind::Copy | Kind::Move | Kind::Shared | Kind::Exclusive | Kind::Assign | Kind::Choice => {
            read_place(variables, tail, at)
        }
    }
}
