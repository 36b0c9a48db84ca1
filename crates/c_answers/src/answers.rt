// Answers in C's form: each case of the library's answers in the fields of a struct. The C interface has numbers, a flag
// and values beside each other, so these structs keep them.
//
// Every struct begins with number and place. Where number is 0 there is an answer: place is 0, and the fields after it
// tell it. Else number is that of a refusal (LANGUAGE 5.3 to 5.5) or of a fault (5.6), place is its place (5.2), and the
// fields after it are 0, but for fault. In the header Script, Terms and Bytes are roomscript_script, _terms and _bytes;
// Run, RunUnchecked and Call are _ran, _ran_unchecked and _called.
ghost use Rattle.std.specs.Prelude.{◌≡◌};
ghost use Rattle.syntax.specs.Refusals.{told};
ghost use Rattle.reader.specs.Outcomes.{told_read};
ghost use Rattle.machine.specs.Outcomes.{told_unchecked};
ghost use Rattle.room.specs.Running.{told_run};
ghost use Rattle.room.specs.Calling.{told_call};
ghost use Rattle.c_answers.specs.Answers.{script_in, terms_in, bytes_in, ran_in, unchecked_in, called_in};

use machine::{Ran, Stopped};
use room::Called;
use syntax::refusals::Refusal;

#[repr(C)]
#[derive(Clone, Copy, Default)]
pub struct Script {
    pub number: u32,
    pub place: u64,
    pub version: u32,
    pub terms: u64,
}

impl From<Result<reader::Script, Refusal>> for Script {
    ghost from_gives = { λ read script. script ≡ script_in (told_read read) };

    #[tactic(auto, unfolding(crate::specs::Answers::script_in))]
    fn from(read: Result<reader::Script, Refusal>) -> Script {
        match read {
            Ok(script) => Script {
                version: script.version,
                terms: script.terms as u64,
                ..Script::default()
            },
            Err(refusal) => Script {
                number: refusal.reason.number(),
                place: refusal.place as u64,
                ..Script::default()
            },
        }
    }
}

#[repr(C)]
#[derive(Clone, Copy, Default)]
pub struct Terms {
    pub number: u32,
    pub place: u64,
    pub terms: u64,
}

// Of rows that are judged (LANGUAGE 6.3) or checked (6.5).
impl From<Result<usize, Refusal>> for Terms {
    ghost from_gives = { λ judged terms. terms ≡ terms_in (told (λ n. n) judged) };

    #[tactic(auto, unfolding(crate::specs::Answers::terms_in))]
    fn from(judged: Result<usize, Refusal>) -> Terms {
        match judged {
            Ok(terms) => Terms {
                terms: terms as u64,
                ..Terms::default()
            },
            Err(refusal) => Terms {
                number: refusal.reason.number(),
                place: refusal.place as u64,
                ..Terms::default()
            },
        }
    }
}

#[repr(C)]
#[derive(Clone, Copy, Default)]
pub struct Bytes {
    pub number: u32,
    pub place: u64,
    pub bytes: u64,
}

impl From<Result<usize, Refusal>> for Bytes {
    ghost from_gives = { λ written bytes. bytes ≡ bytes_in (told (λ n. n) written) };

    #[tactic(auto, unfolding(crate::specs::Answers::bytes_in))]
    fn from(written: Result<usize, Refusal>) -> Bytes {
        match written {
            Ok(bytes) => Bytes {
                bytes: bytes as u64,
                ..Bytes::default()
            },
            Err(refusal) => Bytes {
                number: refusal.reason.number(),
                place: refusal.place as u64,
                ..Bytes::default()
            },
        }
    }
}

// number is never that of a fault (LANGUAGE 7.4).
#[repr(C)]
#[derive(Clone, Copy, Default)]
pub struct Run {
    pub number: u32,
    pub place: u64,
    pub answer: i32,
    pub cells: u64,
}

impl From<Result<Ran, Refusal>> for Run {
    ghost from_gives = { λ checked run. run ≡ ran_in (told_run checked) };

    #[tactic(auto, using(std::proofs::lemmas::Int::ints), unfolding(crate::specs::Answers::ran_in, room::specs::Running::told_run))]
    fn from(checked: Result<Ran, Refusal>) -> Run {
        match checked {
            Ok(ran) => Run {
                answer: ran.answer,
                cells: ran.cells as u64,
                ..Run::default()
            },
            Err(refusal) => Run {
                number: refusal.reason.number(),
                place: refusal.place as u64,
                ..Run::default()
            },
        }
    }
}

// fault is 1 where number and place are those of a fault: the run began, and the store is as it left it. Else it is 0.
#[repr(C)]
#[derive(Clone, Copy, Default)]
pub struct RunUnchecked {
    pub number: u32,
    pub place: u64,
    pub fault: u32,
    pub answer: i32,
    pub cells: u64,
}

impl From<Result<Ran, Stopped>> for RunUnchecked {
    ghost from_gives = { λ unchecked run. run ≡ unchecked_in (told_unchecked unchecked) };

    #[tactic(auto, using(std::proofs::lemmas::Int::ints), unfolding(crate::specs::Answers::unchecked_in, machine::specs::Outcomes::told_unchecked))]
    fn from(unchecked: Result<Ran, Stopped>) -> RunUnchecked {
        match unchecked {
            Ok(ran) => RunUnchecked {
                answer: ran.answer,
                cells: ran.cells as u64,
                ..RunUnchecked::default()
            },
            Err(Stopped::Refused(refusal)) => RunUnchecked {
                number: refusal.reason.number(),
                place: refusal.place as u64,
                ..RunUnchecked::default()
            },
            Err(Stopped::Faulted(fault)) => RunUnchecked {
                number: fault.reason.number(),
                place: fault.place as u64,
                fault: 1,
                ..RunUnchecked::default()
            },
        }
    }
}

// number is never that of a fault (LANGUAGE 7.4).
#[repr(C)]
#[derive(Clone, Copy, Default)]
pub struct Call {
    pub number: u32,
    pub place: u64,
    pub terms: u64,
    pub answer: i32,
    pub cells: u64,
}

impl From<Result<Called, Refusal>> for Call {
    ghost from_gives = { λ called call. call ≡ called_in (told_call called) };

    #[tactic(auto, using(std::proofs::lemmas::Int::ints), unfolding(crate::specs::Answers::called_in, room::specs::Calling::told_call))]
    fn from(called: Result<Called, Refusal>) -> Call {
        match called {
            Ok(ended) => Call {
                terms: ended.terms as u64,
                answer: ended.answer,
                cells: ended.cells as u64,
                ..Call::default()
            },
            Err(refusal) => Call {
                number: refusal.reason.number(),
                place: refusal.place as u64,
                ..Call::default()
            },
        }
    }
}
