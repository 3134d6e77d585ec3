//! A script through the lock: each of its events is the turn of its kind, by the wrapper, with one pass.

use super::lines::{event_of, text_of};
use super::scripts::{asks, told_of};
use super::*;
use server_core::{ArriveRefusal, NotArrived, NotRetuned, Ticket};

fn of_attach(said: Result<SessionId, NotAttached>) -> Answer<Global> {
    match said {
        Ok(session) => Answer::Session(session.number),
        Err(NotAttached::NoExport) => Answer::NoExport,
        Err(NotAttached::Worn) => Answer::Worn,
        Err(NotAttached::Full) => Answer::Full,
        Err(NotAttached::NoMemory) => Answer::NoMemory,
    }
}

fn of_arrive(said: Result<Arrived, NotArrived<Global>>) -> Answer<Global> {
    match said {
        Ok(Arrived::Accepted { number, limit_tag }) => Answer::Accepted { number, limit_tag },
        Ok(Arrived::Answered(error)) => Answer::Answered(error),
        Err(refused) => match refused.refusal {
            ArriveRefusal::NoExport => Answer::NoExport,
            ArriveRefusal::NotOpen => Answer::NotOpen,
            ArriveRefusal::Worn => Answer::Worn,
            ArriveRefusal::Hold => Answer::Hold,
            ArriveRefusal::NoMemory => Answer::NoMemory,
        },
    }
}

fn of_dispatch(said: Option<Chosen>) -> Answer<Global> {
    match said {
        Some(chosen) => Answer::Picked {
            export: chosen.ticket.export(),
            number: chosen.ticket.number(),
            phase: chosen.phase,
        },
        None => Answer::Nothing,
    }
}

fn of_perform(said: Option<bool>) -> Answer<Global> {
    match said {
        Some(memory) => Answer::Performed { memory },
        None => Answer::NotOut,
    }
}

fn of_refusal(refusal: SessionRefusal) -> Answer<Global> {
    match refusal {
        SessionRefusal::NoExport => Answer::NoExport,
        SessionRefusal::NotOpen => Answer::NotOpen,
    }
}

fn of_take(said: Result<Taken<Global>, SessionRefusal>) -> Answer<Global> {
    match said {
        Ok(Taken::Reply(reply)) => Answer::Reply(reply),
        Ok(Taken::Empty) => Answer::Empty,
        Ok(Taken::End) => Answer::End,
        Err(refusal) => of_refusal(refusal),
    }
}

fn of_leave(said: Result<(), SessionRefusal>) -> Answer<Global> {
    match said {
        Ok(()) => Answer::Left,
        Err(refusal) => of_refusal(refusal),
    }
}

fn of_gone(said: Result<(), SessionRefusal>) -> Answer<Global> {
    match said {
        Ok(()) => Answer::Dropped,
        Err(refusal) => of_refusal(refusal),
    }
}

fn of_retune(said: Result<(), NotRetuned>) -> Answer<Global> {
    match said {
        Ok(()) => Answer::Retuned,
        Err(NotRetuned::NoExport) => Answer::NoExport,
        Err(NotRetuned::Worn) => Answer::Worn,
        Err(NotRetuned::Waiting) => Answer::Waiting,
        Err(NotRetuned::NoMemory) => Answer::NoMemory,
    }
}

// An event as a pass remembers it.
fn event_trace(event: &Event<Global>) -> EventTrace {
    match event {
        Event::Attach { export } => EventTrace::Attach { export: *export },
        Event::Arrive {
            export,
            session,
            moment,
            request,
        } => EventTrace::Arrive {
            export: *export,
            session: *session,
            moment: *moment,
            head: request.head(),
        },
        Event::Dispatch { moment } => EventTrace::Dispatch { moment: *moment },
        Event::Perform { export, number } => EventTrace::Perform {
            export: *export,
            number: *number,
        },
        Event::Take { export, session } => EventTrace::Take {
            export: *export,
            session: *session,
        },
        Event::Leave { export, session } => EventTrace::Leave {
            export: *export,
            session: *session,
        },
        Event::Gone { export, session } => EventTrace::Gone {
            export: *export,
            session: *session,
        },
        Event::Retune { export, rates } => EventTrace::Retune {
            export: *export,
            rates: *rates,
        },
    }
}

// An answer as a pass remembers it.
fn answer_trace(answer: &Answer<Global>) -> AnswerTrace {
    match answer {
        Answer::Session(number) => AnswerTrace::Session(*number),
        Answer::Accepted { number, limit_tag } => AnswerTrace::Accepted {
            number: *number,
            limit_tag: *limit_tag,
        },
        Answer::Answered(error) => AnswerTrace::Answered(*error),
        Answer::Picked {
            export,
            number,
            phase,
        } => AnswerTrace::Picked {
            export: *export,
            number: *number,
            phase: *phase,
        },
        Answer::Nothing => AnswerTrace::Nothing,
        Answer::Performed { memory } => AnswerTrace::Performed { memory: *memory },
        Answer::Reply(reply) => AnswerTrace::Reply {
            error: reply.error(),
            cookie: reply.cookie(),
        },
        Answer::Empty => AnswerTrace::Empty,
        Answer::End => AnswerTrace::End,
        Answer::Left => AnswerTrace::Left,
        Answer::Dropped => AnswerTrace::Dropped,
        Answer::NoExport => AnswerTrace::NoExport,
        Answer::NotOpen => AnswerTrace::NotOpen,
        Answer::Worn => AnswerTrace::Worn,
        Answer::Full => AnswerTrace::Full,
        Answer::Hold => AnswerTrace::Hold,
        Answer::NotOut => AnswerTrace::NotOut,
        Answer::Retuned => AnswerTrace::Retuned,
        Answer::Waiting => AnswerTrace::Waiting,
        Answer::NoMemory => AnswerTrace::NoMemory,
    }
}

// The ticket of a request that was chosen, though it may be performed since then.
fn ticket_of(tickets: &[Ticket], export: u32, number: u64) -> Option<Ticket> {
    for ticket in tickets {
        if ticket.export() == export && ticket.number() == number {
            return Some(*ticket);
        }
    }
    None
}

// What a dispatch answers. The ticket of its choice is kept.
fn chosen_by<L: Ledger, R: Wait>(
    rt: &R,
    shared: &Tried<L>,
    pass: &mut Pass<L>,
    tickets: &mut Vec<Ticket>,
    moment: Moment,
) -> Option<Answer<Global>> {
    let said = shared.turn_dispatch(rt, pass, moment);
    if let Some(chosen) = &said {
        if tickets.push(chosen.ticket).is_err() {
            return None;
        }
    }
    Some(of_dispatch(said))
}

// What the turn of an event's kind answers. None where no ticket names what is to be performed.
fn turned<L: Ledger, R: Wait>(
    rt: &R,
    shared: &Tried<L>,
    pass: &mut Pass<L>,
    tickets: &mut Vec<Ticket>,
    event: Event<Global>,
) -> Option<Answer<Global>> {
    match event {
        Event::Attach { export } => Some(of_attach(shared.turn_attach(rt, pass, export))),
        Event::Arrive {
            export,
            session: number,
            moment,
            request,
        } => {
            let session = SessionId { export, number };
            let said = shared.turn_arrive(rt, pass, session, moment, request);
            Some(of_arrive(said))
        }
        Event::Dispatch { moment } => chosen_by(rt, shared, pass, tickets, moment),
        Event::Perform { export, number } => match ticket_of(tickets, export, number) {
            Some(ticket) => Some(of_perform(shared.turn_perform(rt, pass, ticket))),
            None => None,
        },
        Event::Take {
            export,
            session: number,
        } => Some(of_take(shared.turn_take(rt, pass, SessionId { export, number }))),
        Event::Leave {
            export,
            session: number,
        } => Some(of_leave(shared.turn_leave(rt, pass, SessionId { export, number }))),
        Event::Gone {
            export,
            session: number,
        } => Some(of_gone(shared.turn_gone(rt, pass, SessionId { export, number }))),
        Event::Retune { export, rates } => {
            Some(of_retune(shared.turn_retune(rt, pass, export, rates)))
        }
    }
}

// Whether the turn behind so many turns is the pass's last, with this event and answer.
fn is_noted<L: Ledger>(
    pass: &Pass<L>,
    turns: u64,
    event: EventTrace,
    answer: &Answer<Global>,
) -> bool {
    let answer = answer_trace(answer);
    pass.turns().checked_sub(turns) == Some(1) && pass.last() == Some(Trace { event, answer })
}

// What an event's turn answers, where the pass remembers it so.
fn noted<L: Ledger, R: Wait>(
    rt: &R,
    shared: &Tried<L>,
    pass: &mut Pass<L>,
    tickets: &mut Vec<Ticket>,
    event: Event<Global>,
) -> Option<Answer<Global>> {
    let (turns, trace) = (pass.turns(), event_trace(&event));
    match turned(rt, shared, pass, tickets, event) {
        Some(answer) if is_noted(pass, turns, trace, &answer) => Some(answer),
        _ => None,
    }
}

// What is answered to a line.
fn told_under_lock<L: Ledger, R: Wait>(
    rt: &R,
    alloc: Global,
    shared: &Tried<L>,
    pass: &mut Pass<L>,
    tickets: &mut Vec<Ticket>,
    line: &str,
) -> Option<String<Global>> {
    if asks(line) {
        return told_of(alloc, shared.hold(rt).server(), line);
    }
    let Some(event) = event_of(alloc, line) else {
        return None;
    };
    match noted(rt, shared, pass, tickets, event) {
        Some(answer) => text_of(alloc, &answer),
        None => None,
    }
}

// Whether a turn is answered as it says.
fn answers<L: Ledger, R: Wait>(
    rt: &R,
    alloc: Global,
    shared: &Tried<L>,
    pass: &mut Pass<L>,
    tickets: &mut Vec<Ticket>,
    turn: &str,
) -> bool {
    let Some((line, expected)) = turn.split_once(": ") else {
        return false;
    };
    match told_under_lock(rt, alloc, shared, pass, tickets, line) {
        Some(told) => told.as_str() == expected,
        None => false,
    }
}

// Whether each turn is answered as it says.
pub fn answers_each<L: Ledger, R: Wait>(
    rt: &R,
    alloc: Global,
    shared: &Tried<L>,
    pass: &mut Pass<L>,
    turns: &str,
) -> bool {
    let mut tickets = Vec::new(alloc);
    for turn in turns.split("; ") {
        if !answers(rt, alloc, shared, pass, &mut tickets, turn) {
            return false;
        }
    }
    true
}
