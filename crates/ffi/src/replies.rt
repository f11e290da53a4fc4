// Answers as replies.
ghost use Rattle.std.specs.Prelude.{◌≡◌};
ghost use Rattle.ffi.specs.Numbers.{cause_number, ending_number, want_number, stop_number};
ghost use Rattle.ffi.specs.Replies.{counted_reply, refused_reply, misformed_reply, assemble_reply, list_reply, start_reply, run_reply, tally_reply};

use crate::call::Reply;
use assembler::assembler::AssembleRefusal;
use assembler::lister::ListRefusal;
use processor::ending::{Ending, Want};
use station::answer::{Answer, RunRefusal, StartRefusal, Stop, TallyRefusal};
use text::fault::{Cause, Fault};

// An accepted call with this count.
pub(crate) fn counted(count: usize) -> Reply
    ensures { result ≡ counted_reply count }
{
    Reply {
        refusal: 0,
        count,
        reason: 0,
        line: 0,
        field: 0,
    }
}

// A refused call.
pub(crate) fn refused(number: u8) -> Reply
    ensures { result ≡ refused_reply number }
{
    Reply {
        refusal: u32::from(number),
        count: 0,
        reason: 0,
        line: 0,
        field: 0,
    }
}

// These four stay functions: neither the enums nor `u32` are of this crate, so that it can't give a `From` for them.

fn cause_number(cause: Cause) -> u32
    ensures { result ≡ cause_number cause }
{
    match cause {
        Cause::Spelling => 1,
        Cause::Digits => 2,
        Cause::Size => 3,
        Cause::Missing => 4,
        Cause::Extra => 5,
        Cause::End => 6,
    }
}

fn ending_number(ending: Ending) -> u32
    ensures { result ≡ ending_number ending }
{
    match ending {
        Ending::Fetch => 1,
        Ending::Code => 2,
        Ending::Zero => 3,
        Ending::Align => 4,
        Ending::Range => 5,
        Ending::Sector => 6,
        Ending::Halt => 7,
    }
}

fn want_number(want: Want) -> u32
    ensures { result ≡ want_number want }
{
    match want {
        Want::Input => 8,
        Want::Paper => 9,
        Want::Keep => 10,
    }
}

fn stop_number(stop: Stop) -> u32
    ensures { result ≡ stop_number stop }
{
    match stop {
        Stop::Spent => 0,
        Stop::Wants(want) => want_number(want),
        Stop::Ended(ending) => ending_number(ending),
    }
}

fn misformed(number: u8, fault: Fault) -> Reply
    ensures { result ≡ misformed_reply number fault }
{
    Reply {
        refusal: u32::from(number),
        count: 0,
        reason: cause_number(fault.cause),
        line: fault.line,
        field: fault.field,
    }
}

impl From<Result<usize, AssembleRefusal>> for Reply {
    ghost from_gives = { λ answer reply. reply ≡ assemble_reply answer };

    fn from(answer: Result<usize, AssembleRefusal>) -> Reply {
        match answer {
            Ok(count) => counted(count),
            Err(refusal) => match refusal {
                AssembleRefusal::Form(fault) => misformed(refusal.number(), fault),
                _ => refused(refusal.number()),
            },
        }
    }
}

impl From<Result<usize, ListRefusal>> for Reply {
    ghost from_gives = { λ answer reply. reply ≡ list_reply answer };

    fn from(answer: Result<usize, ListRefusal>) -> Reply {
        match answer {
            Ok(count) => counted(count),
            Err(refusal) => refused(refusal.number()),
        }
    }
}

impl From<Result<(), StartRefusal>> for Reply {
    ghost from_gives = { λ answer reply. reply ≡ start_reply answer };

    fn from(answer: Result<(), StartRefusal>) -> Reply {
        match answer {
            Ok(()) => counted(0),
            Err(refusal) => refused(refusal.number()),
        }
    }
}

impl From<Result<Answer, RunRefusal>> for Reply {
    ghost from_gives = { λ answer reply. reply ≡ run_reply answer };

    fn from(answer: Result<Answer, RunRefusal>) -> Reply {
        match answer {
            Ok(ran) => Reply {
                refusal: 0,
                count: ran.count as usize,
                reason: stop_number(ran.stop),
                line: 0,
                field: 0,
            },
            Err(refusal) => refused(refusal.number()),
        }
    }
}

impl From<Result<u32, TallyRefusal>> for Reply {
    ghost from_gives = { λ answer reply. reply ≡ tally_reply answer };

    fn from(answer: Result<u32, TallyRefusal>) -> Reply {
        match answer {
            Ok(points) => counted(points as usize),
            Err(refusal) => match refusal {
                TallyRefusal::Form(fault) => misformed(refusal.number(), fault),
                _ => refused(refusal.number()),
            },
        }
    }
}
