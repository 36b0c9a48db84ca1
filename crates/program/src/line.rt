// The line of an answer (LANGUAGE 6.11), put together from its front on. `write!` is not used: the library says what it
// wrote where it went well, and not that it goes well where there is room, and every input has a line here.
ghost use Rattle.std.specs.Prelude.{◌≡◌, ◌+◌, ◌≤◌, length};
ghost use Rattle.room.specs.Calling.{called, refused, told_call};
ghost use Rattle.program.specs.Line.{decimal, signed, line_of, in_front};
ghost use Rattle.program.specs.Texts.{text_in, Appended};

use crate::report::LINE;
use room::Called;
use syntax::refusals::Refusal;

// The bytes so far: there is no heap, so an array and the length that is in use. There is room for every line that the
// numbers' types allow.
#[derive(Drop)]
pub struct Text {
    bytes: [u8; LINE],
    length: usize,
}

impl Text {
    pub fn new() -> Text
        ensures { result.length ≡ 0 }
    {
        Text {
            bytes: [0; LINE],
            length: 0,
        }
    }

    pub fn push(&mut self, text: &[u8])
        requires { self.old.length + length text.now ≤ 80 }
        ensures { Appended self.old text.now self.new }
    {
        let end = self.length + text.len();
        self.bytes[self.length..end].copy_from_slice(text);
        self.length = end;
    }

    fn push_decimal(&mut self, n: usize)
        requires { self.old.length + length (decimal n) ≤ 80 }
        ensures { Appended self.old (decimal n) self.new }
    {
        if n < 10 {
            self.push(&[b'0' + n as u8]);
            return;
        }
        self.push_decimal(n / 10);
        self.push(&[b'0' + (n % 10) as u8]);
    }

    fn push_signed(&mut self, n: i32)
        requires { self.old.length + length (signed n) ≤ 80 }
        ensures { Appended self.old (signed n) self.new }
    {
        if n < 0 {
            self.push(b"-");
        }
        self.push_decimal(n.unsigned_abs() as usize);
    }

    #[tactic(auto, using(crate::proofs::LineLaws::lengths))]
    fn push_accepted(&mut self, call: Called)
        requires { self.old.length ≡ 0 }
        ensures put { Appended self.old (line_of (called call.terms call.answer call.cells)) self.new }
        ensures within { self.new.length ≤ 80 }
    {
        self.push(b"accepted ");
        self.push_decimal(call.terms);
        self.push(b" call ");
        self.push_signed(call.answer);
        self.push(b" cells ");
        self.push_decimal(call.cells);
        self.push(b"\n");
    }

    #[tactic(auto, using(crate::proofs::LineLaws::lengths))]
    fn push_refused(&mut self, number: u32, place: usize)
        requires { self.old.length ≡ 0 }
        ensures put { Appended self.old (line_of (refused number place)) self.new }
        ensures within { self.new.length ≤ 80 }
    {
        self.push(b"refused ");
        self.push_decimal(number as usize);
        self.push(b" at ");
        self.push_decimal(place);
        self.push(b"\n");
    }

    // The whole line of a call's answer.
    pub fn push_answer(&mut self, answer: Result<Called, Refusal>)
        requires { self.old.length ≡ 0 }
        ensures put { Appended self.old (line_of (told_call answer)) self.new }
        ensures within { self.new.length ≤ 80 }
    {
        match answer {
            Ok(call) => self.push_accepted(call),
            Err(refusal) => self.push_refused(refusal.reason.number(), refusal.place),
        }
    }

    // At the front of a buffer, whose bytes behind it stay; the answer is the length.
    pub fn put(&self, line: &mut [u8; LINE]) -> usize
        requires { self.now.length ≤ 80 }
        ensures length { result ≡ self.now.length }
        ensures put { line.new ≡ in_front (text_in self.now) line.old }
    {
        line[..self.length].copy_from_slice(&self.bytes[..self.length]);
        self.length
    }
}
