//! What the calls answer, as answers of steps, and these as text.

use super::*;
use export_queue::Picked;
use nbd_wire::Reply;
use reply_box::NotOpen;

// None where no memory was there.
fn step_answer_of_attach<A: Allocator>(answer: Result<u64, NotAttached>) -> Option<StepAnswer<A>> {
    match answer {
        Ok(number) => Some(StepAnswer::Session(number)),
        Err(NotAttached::Refused(AttachRefusal::Worn)) => Some(StepAnswer::Worn),
        Err(NotAttached::Refused(AttachRefusal::Full)) => Some(StepAnswer::Full),
        Err(NotAttached::NoMemory) => None,
    }
}

fn step_answer_of_arrive<A: Allocator>(answer: Result<Arrived, NotArrived<A>>) -> StepAnswer<A> {
    match answer {
        Ok(Arrived::Accepted { number, limit_tag }) => StepAnswer::Accepted { number, limit_tag },
        Ok(Arrived::Answered(error)) => StepAnswer::Answered(error),
        Err(back) => match back.refusal {
            ArriveRefusal::NotOpen => StepAnswer::NotOpen,
            ArriveRefusal::Worn => StepAnswer::Worn,
            ArriveRefusal::Hold => StepAnswer::Hold,
        },
    }
}

fn step_answer_of_pick<A: Allocator>(answer: Option<Picked>) -> StepAnswer<A> {
    match answer {
        Some(picked) => StepAnswer::Picked(picked.number),
        None => StepAnswer::Nothing,
    }
}

fn step_answer_of_take<A: Allocator>(answer: Result<Taken<A>, NotOpen>) -> StepAnswer<A> {
    match answer {
        Ok(Taken::Reply(reply)) => StepAnswer::Reply(reply),
        Ok(Taken::Empty) => StepAnswer::Empty,
        Ok(Taken::End) => StepAnswer::End,
        Err(NotOpen) => StepAnswer::NotOpen,
    }
}

// Nothing where as many are in service as may be.
fn picked<A: Allocator + Copy>(lone: &mut Lone<Flat<A>>) -> Option<StepAnswer<A>> {
    if lone.may_pick() {
        Some(step_answer_of_pick(lone.pick()))
    } else {
        None
    }
}

// None where the slot and the number aren't of one request.
fn performed<A: Allocator + Copy>(lone: &mut Lone<Flat<A>>, number: u64) -> Option<StepAnswer<A>> {
    let Some(slot) = lone.slot_of(number) else {
        return Some(StepAnswer::NotOut);
    };
    match lone.perform(slot, number) {
        Some(memory) => Some(StepAnswer::Performed { memory }),
        None => None,
    }
}

// The step by its own call. None where memory was refused, or for a pick as many are in service as may be.
pub(super) fn made<A: Allocator + Copy>(
    lone: &mut Lone<Flat<A>>,
    step: Step<A>,
) -> Option<StepAnswer<A>> {
    match step {
        Step::Attach => step_answer_of_attach(lone.attach()),
        Step::Arrive {
            session,
            moment,
            request,
        } => Some(step_answer_of_arrive(lone.arrive(session, moment, request))),
        Step::Pick => picked(lone),
        Step::Perform { number, memory: _ } => performed(lone, number),
        Step::Take { session } => Some(step_answer_of_take(lone.take(session))),
        Step::Leave { session } => Some(match lone.leave(session) {
            Ok(()) => StepAnswer::Left,
            Err(NotOpen) => StepAnswer::NotOpen,
        }),
        Step::Gone { session } => Some(match lone.gone(session) {
            Ok(()) => StepAnswer::Dropped,
            Err(NotOpen) => StepAnswer::NotOpen,
        }),
        Step::Retune { rates } => Some(match lone.retune(rates) {
            Ok(()) => StepAnswer::Retuned,
            Err(RetuneRefusal::Worn) => StepAnswer::Worn,
            Err(RetuneRefusal::Waiting) => StepAnswer::Waiting,
        }),
    }
}

// The step by a replay.
pub(super) fn remade<A: Allocator + Copy>(
    lone: &mut Lone<Flat<A>>,
    step: &Step<A>,
) -> Option<StepAnswer<A>> {
    if lone.may_replay(step) {
        lone.replay(step).ok()
    } else {
        None
    }
}

// Whether this is what is written of an answer.
pub(super) fn is_told<A: Allocator>(alloc: Global, answer: &StepAnswer<A>, wanted: &str) -> bool {
    match answer {
        StepAnswer::Session(number) => is_numbered(alloc, "session", *number, wanted),
        StepAnswer::Accepted { number, limit_tag } => {
            is_accepted(alloc, *number, *limit_tag, wanted)
        }
        StepAnswer::Answered(error) => is_numbered(alloc, "answered", *error as u64, wanted),
        StepAnswer::Picked(number) => is_numbered(alloc, "request", *number, wanted),
        StepAnswer::Reply(reply) => is_replied(alloc, reply, wanted),
        StepAnswer::Performed { memory } => {
            let word = if *memory {
                "performed true"
            } else {
                "performed false"
            };
            word == wanted
        }
        plain => word(plain) == wanted,
    }
}

// What is written of an answer that tells no number.
fn word<A: Allocator>(answer: &StepAnswer<A>) -> &'static str {
    match answer {
        StepAnswer::Nothing => "none",
        StepAnswer::Empty => "empty",
        StepAnswer::End => "end",
        StepAnswer::Left => "left",
        StepAnswer::Dropped => "gone",
        StepAnswer::NotOpen => "not open",
        StepAnswer::Worn => "worn",
        StepAnswer::Full => "full",
        StepAnswer::Hold => "hold",
        StepAnswer::NotOut => "not out",
        StepAnswer::Retuned => "retuned",
        StepAnswer::Waiting => "waiting",
        _ => "a number",
    }
}

fn is_numbered(alloc: Global, word: &str, number: u64, wanted: &str) -> bool {
    let Ok(text) = format!(in alloc; "{word} {number}") else {
        return false;
    };
    text.as_str() == wanted
}

fn is_accepted(alloc: Global, number: u64, limit_tag: i128, wanted: &str) -> bool {
    let Ok(text) = format!(in alloc; "accepted {number} {limit_tag}") else {
        return false;
    };
    text.as_str() == wanted
}

fn is_replied<A: Allocator>(alloc: Global, reply: &Reply<A>, wanted: &str) -> bool {
    let mut content = Vec::new(alloc);
    if reply.content().append(&mut content).is_err() {
        return false;
    }
    let Ok(text) = format!(in alloc; "reply {} {} {content:?}", reply.cookie(), reply.error())
    else {
        return false;
    };
    text.as_str() == wanted
}
