// The rows of the lent store (LANGUAGE 4.1): state, value kind and payload of each.
ghost use Rattle.std.specs.Prelude.{◌≡◌, ◌<◌, length};
ghost use Rattle.syntax.specs.Limits.{Limits, store_rows};
ghost use Rattle.syntax.specs.Layout.{zeros};
ghost use Rattle.store.specs.Words.{Tidy, SoundRow, value_of, row_from, as_value, as_row, value_held, value_words, row_words, Loaded, Written};

use crate::numbers;
use syntax::limits::Limits;

// What a row holds (LANGUAGE 4.3): an owner its cell, a reference the row that it leads to.
#[derive(Clone, Copy)]
pub enum Value {
    Empty,
    Number(u32),
    Owner(u32),
    Reference(u32),
}

// A row (LANGUAGE 4.2): only an open one holds a value.
#[derive(Clone, Copy)]
pub enum Row {
    Closed,
    GivenBack,
    Open(Value),
}

impl Value {
    // The value of a row's kind and payload (LANGUAGE 4.3).
    fn from_words(kind: u32, payload: u32) -> Value
        ensures { (set : Limits) → as_value set result ≡ value_of set kind payload }
    {
        match kind {
            numbers::NUMBER => Value::Number(payload),
            numbers::OWNER => Value::Owner(payload),
            numbers::REFERENCE => Value::Reference(payload),
            _ => Value::Empty,
        }
    }

    // Its kind and payload (LANGUAGE 4.3).
    fn words(self) -> (u32, u32)
        ensures { result ≡ value_words self }
    {
        match self {
            Value::Empty => (numbers::EMPTY, 0),
            Value::Number(bits) => (numbers::NUMBER, bits),
            Value::Owner(cell) => (numbers::OWNER, cell),
            Value::Reference(row) => (numbers::REFERENCE, row),
        }
    }
}

impl Row {
    // The row of three numbers (LANGUAGE 4.2, 4.3).
    fn from_words(state: u32, kind: u32, payload: u32) -> Row
        ensures { (set : Limits) → as_row set result ≡ row_from set state kind payload }
    {
        match state {
            numbers::OPEN => Row::Open(Value::from_words(kind, payload)),
            numbers::GIVEN_BACK => Row::GivenBack,
            _ => Row::Closed,
        }
    }

    // Its three numbers (LANGUAGE 4.2, 4.3).
    fn words(self) -> (u32, u32, u32)
        ensures { result ≡ row_words self }
    {
        match self {
            Row::Closed => (numbers::CLOSED, numbers::EMPTY, 0),
            Row::GivenBack => (numbers::GIVEN_BACK, numbers::EMPTY, 0),
            Row::Open(value) => {
                let (kind, payload) = value.words();
                (numbers::OPEN, kind, payload)
            }
        }
    }

    // The value that it holds (LANGUAGE 4.2): none if it is not open.
    pub fn value(self) -> Value
        ensures { result ≡ value_held self }
    {
        match self {
            Row::Open(value) => value,
            _ => Value::Empty,
        }
    }
}

// A row of the store (LANGUAGE 4.1).
pub fn load(limits: &Limits, store: &[u32], row: usize) -> Row
    requires { Tidy limits.now store.now × (row < store_rows limits.now) }
    ensures { Loaded limits.now store.now row result }
{
    let at = 3 * row;
    Row::from_words(store[at], store[at + 1], store[at + 2])
}

// Sets a row of the store (LANGUAGE 4.1). The contract alone uses the limits (2.8), here and in `load`.
pub fn put_row(limits: &Limits, store: &mut [u32], row: usize, content: Row)
    requires { Tidy limits.now store.old × (row < store_rows limits.now) × SoundRow limits.now content }
    ensures { Written limits.now store.old row content store.new }
{
    let at = 3 * row;
    let (state, kind, payload) = content.words();
    store[at] = state;
    store[at + 1] = kind;
    store[at + 2] = payload;
}

// The beginning of a run (LANGUAGE 4.4): all numbers become 0.
pub fn clear(store: &mut [u32])
    ensures { store.new ≡ zeros (length store.old) }
{
    store.fill(0);
}
