//! What a pass remembers of its latest turn.
ghost use Rattle.std.specs.Prelude.{◌≡◌};
ghost use Rattle.server_core.specs.Counted.{rise};
ghost use Rattle.server_core.specs.Served.{answer_of_attach, answer_of_arrive, answer_of_dispatch, answer_of_perform, answer_of_take, answer_of_leave, answer_of_gone, answer_of_retune};
ghost use Rattle.server_lock.specs.Traces.{short_answer, is_counted_trace, rise_of_trace};

use lone_export::Arrived;
use nbd_commands::Rates;
use nbd_wire::RequestHead;
use reply_box::Taken;
use server_core::{
    ArriveRefusal, Chosen, NotArrived, NotAttached, NotRetuned, SessionId, SessionRefusal,
};
use std::alloc::Allocator;
use tag_clock::{Moment, Phase};

/// An event of the server, a request told by its head.
#[derive(Clone, Copy, Debug, PartialEq, Eq)]
pub enum EventTrace {
    Attach {
        export: u32,
    },
    Arrive {
        export: u32,
        session: u64,
        moment: Moment,
        head: RequestHead,
    },
    Dispatch {
        moment: Moment,
    },
    Perform {
        export: u32,
        number: u64,
    },
    Take {
        export: u32,
        session: u64,
    },
    Leave {
        export: u32,
        session: u64,
    },
    Gone {
        export: u32,
        session: u64,
    },
    Retune {
        export: u32,
        rates: Rates,
    },
}

/// What an event answered, a reply told by its error and cookie.
#[derive(Clone, Copy, Debug, PartialEq, Eq)]
pub enum AnswerTrace {
    Session(u64),
    Accepted {
        number: u64,
        limit_tag: i128,
    },
    Answered(u32),
    Picked {
        export: u32,
        number: u64,
        phase: Phase,
    },
    Nothing,
    Performed {
        memory: bool,
    },
    Reply {
        error: u32,
        cookie: u64,
    },
    Empty,
    End,
    Left,
    Dropped,
    NoExport,
    NotOpen,
    Worn,
    Full,
    Hold,
    NotOut,
    Retuned,
    Waiting,
    NoMemory,
}

/// One turn: its event, and what it answered.
#[derive(Clone, Copy, Debug, PartialEq, Eq)]
pub struct Trace {
    pub event: EventTrace,
    pub answer: AnswerTrace,
}

impl AnswerTrace {
    /// Whether a step with this answer changed something of its export, and so is counted.
    pub fn is_counted(self) -> bool
        ensures { result ≡ is_counted_trace self }
    {
        match self {
            AnswerTrace::Session(_)
            | AnswerTrace::Accepted { .. }
            | AnswerTrace::Answered(_)
            | AnswerTrace::Picked { .. }
            | AnswerTrace::Performed { .. }
            | AnswerTrace::Reply { .. }
            | AnswerTrace::Left
            | AnswerTrace::Dropped
            | AnswerTrace::Retuned => true,
            AnswerTrace::Nothing
            | AnswerTrace::Empty
            | AnswerTrace::End
            | AnswerTrace::NoExport
            | AnswerTrace::NotOpen
            | AnswerTrace::Worn
            | AnswerTrace::Full
            | AnswerTrace::Hold
            | AnswerTrace::NotOut
            | AnswerTrace::Waiting
            | AnswerTrace::NoMemory => false,
        }
    }
}

pub(crate) fn trace_of_attach<A: Allocator>(answer: &Result<SessionId, NotAttached>) -> AnswerTrace
    ensures trace { result ≡ short_answer {A = A} (answer_of_attach answer.now) }
    ensures rise { rise_of_trace result ≡ rise {A = A} (answer_of_attach answer.now) }
{
    match answer {
        Ok(session) => AnswerTrace::Session(session.number),
        Err(NotAttached::NoExport) => AnswerTrace::NoExport,
        Err(NotAttached::Worn) => AnswerTrace::Worn,
        Err(NotAttached::Full) => AnswerTrace::Full,
        Err(NotAttached::NoMemory) => AnswerTrace::NoMemory,
    }
}

pub(crate) fn trace_of_arrive<A: Allocator>(answer: &Result<Arrived, NotArrived<A>>) -> AnswerTrace
    ensures trace { result ≡ short_answer (answer_of_arrive answer.now) }
    ensures rise { rise_of_trace result ≡ rise (answer_of_arrive answer.now) }
{
    match answer {
        Ok(Arrived::Accepted { number, limit_tag }) => AnswerTrace::Accepted {
            number: *number,
            limit_tag: *limit_tag,
        },
        Ok(Arrived::Answered(error)) => AnswerTrace::Answered(*error),
        Err(refused) => match refused.refusal {
            ArriveRefusal::NoExport => AnswerTrace::NoExport,
            ArriveRefusal::NotOpen => AnswerTrace::NotOpen,
            ArriveRefusal::Worn => AnswerTrace::Worn,
            ArriveRefusal::Hold => AnswerTrace::Hold,
            ArriveRefusal::NoMemory => AnswerTrace::NoMemory,
        },
    }
}

pub(crate) fn trace_of_dispatch<A: Allocator>(answer: &Option<Chosen>) -> AnswerTrace
    ensures trace { result ≡ short_answer {A = A} (answer_of_dispatch answer.now) }
    ensures rise { rise_of_trace result ≡ rise {A = A} (answer_of_dispatch answer.now) }
{
    match answer {
        Some(chosen) => AnswerTrace::Picked {
            export: chosen.ticket.export(),
            number: chosen.ticket.number(),
            phase: chosen.phase,
        },
        None => AnswerTrace::Nothing,
    }
}

pub(crate) fn trace_of_perform<A: Allocator>(answer: Option<bool>) -> AnswerTrace
    ensures trace { result ≡ short_answer {A = A} (answer_of_perform answer) }
    ensures rise { rise_of_trace result ≡ rise {A = A} (answer_of_perform answer) }
{
    match answer {
        Some(memory) => AnswerTrace::Performed { memory },
        None => AnswerTrace::NotOut,
    }
}

pub(crate) fn trace_of_take<A: Allocator>(answer: &Result<Taken<A>, SessionRefusal>) -> AnswerTrace
    ensures trace { result ≡ short_answer (answer_of_take answer.now) }
    ensures rise { rise_of_trace result ≡ rise (answer_of_take answer.now) }
{
    match answer {
        Ok(Taken::Reply(reply)) => AnswerTrace::Reply {
            error: reply.error(),
            cookie: reply.cookie(),
        },
        Ok(Taken::Empty) => AnswerTrace::Empty,
        Ok(Taken::End) => AnswerTrace::End,
        Err(SessionRefusal::NoExport) => AnswerTrace::NoExport,
        Err(SessionRefusal::NotOpen) => AnswerTrace::NotOpen,
    }
}

pub(crate) fn trace_of_leave<A: Allocator>(answer: &Result<(), SessionRefusal>) -> AnswerTrace
    ensures trace { result ≡ short_answer {A = A} (answer_of_leave answer.now) }
    ensures rise { rise_of_trace result ≡ rise {A = A} (answer_of_leave answer.now) }
{
    match answer {
        Ok(()) => AnswerTrace::Left,
        Err(SessionRefusal::NoExport) => AnswerTrace::NoExport,
        Err(SessionRefusal::NotOpen) => AnswerTrace::NotOpen,
    }
}

pub(crate) fn trace_of_gone<A: Allocator>(answer: &Result<(), SessionRefusal>) -> AnswerTrace
    ensures trace { result ≡ short_answer {A = A} (answer_of_gone answer.now) }
    ensures rise { rise_of_trace result ≡ rise {A = A} (answer_of_gone answer.now) }
{
    match answer {
        Ok(()) => AnswerTrace::Dropped,
        Err(SessionRefusal::NoExport) => AnswerTrace::NoExport,
        Err(SessionRefusal::NotOpen) => AnswerTrace::NotOpen,
    }
}

pub(crate) fn trace_of_retune<A: Allocator>(answer: &Result<(), NotRetuned>) -> AnswerTrace
    ensures trace { result ≡ short_answer {A = A} (answer_of_retune answer.now) }
    ensures rise { rise_of_trace result ≡ rise {A = A} (answer_of_retune answer.now) }
{
    match answer {
        Ok(()) => AnswerTrace::Retuned,
        Err(NotRetuned::NoExport) => AnswerTrace::NoExport,
        Err(NotRetuned::Worn) => AnswerTrace::Worn,
        Err(NotRetuned::Waiting) => AnswerTrace::Waiting,
        Err(NotRetuned::NoMemory) => AnswerTrace::NoMemory,
    }
}
