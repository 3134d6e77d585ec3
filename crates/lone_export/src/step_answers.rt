//! What the calls answer, as answers of steps.
ghost use Rattle.std.specs.Prelude.{◌≡◌};
ghost use Rattle.lone_export.specs.Lone.{step_answer_of_attach, step_answer_of_arrive, step_answer_of_pick, step_answer_of_take, step_answer_of_leave, step_answer_of_gone, step_answer_of_retune};

use crate::refusal::{
    ArriveRefusal, Arrived, AttachRefusal, NotArrived, NotAttached, RetuneRefusal,
};
use crate::step::StepAnswer;
use export_queue::Picked;
use reply_box::{NotOpen, Taken};
use std::alloc::Allocator;

// None where no memory was there.
pub(crate) fn step_answer_of_attach<A: Allocator>(
    answer: Result<u64, NotAttached>,
) -> Option<StepAnswer<A>>
    ensures { result ≡ step_answer_of_attach answer }
{
    match answer {
        Ok(number) => Some(StepAnswer::Session(number)),
        Err(NotAttached::Refused(AttachRefusal::Worn)) => Some(StepAnswer::Worn),
        Err(NotAttached::Refused(AttachRefusal::Full)) => Some(StepAnswer::Full),
        Err(NotAttached::NoMemory) => None,
    }
}

pub(crate) fn step_answer_of_arrive<A: Allocator>(
    answer: Result<Arrived, NotArrived<A>>,
) -> StepAnswer<A>
    ensures { result ≡ step_answer_of_arrive answer }
{
    match answer {
        Ok(Arrived::Accepted { number, limit_tag }) => StepAnswer::Accepted { number, limit_tag },
        Ok(Arrived::Answered(error)) => StepAnswer::Answered(error),
        Err(back) => match back.refusal {
            ArriveRefusal::NotOpen => StepAnswer::NotOpen,
            ArriveRefusal::Worn => StepAnswer::Worn,
            ArriveRefusal::Hold => StepAnswer::Hold,
        },
    }
}

pub(crate) fn step_answer_of_pick<A: Allocator>(answer: Option<Picked>) -> StepAnswer<A>
    ensures { result ≡ step_answer_of_pick answer }
{
    match answer {
        Some(picked) => StepAnswer::Picked(picked.number),
        None => StepAnswer::Nothing,
    }
}

pub(crate) fn step_answer_of_take<A: Allocator>(answer: Result<Taken<A>, NotOpen>) -> StepAnswer<A>
    ensures { result ≡ step_answer_of_take answer }
{
    match answer {
        Ok(Taken::Reply(reply)) => StepAnswer::Reply(reply),
        Ok(Taken::Empty) => StepAnswer::Empty,
        Ok(Taken::End) => StepAnswer::End,
        Err(NotOpen) => StepAnswer::NotOpen,
    }
}

pub(crate) fn step_answer_of_leave<A: Allocator>(answer: Result<(), NotOpen>) -> StepAnswer<A>
    ensures { result ≡ step_answer_of_leave answer }
{
    match answer {
        Ok(()) => StepAnswer::Left,
        Err(NotOpen) => StepAnswer::NotOpen,
    }
}

pub(crate) fn step_answer_of_gone<A: Allocator>(answer: Result<(), NotOpen>) -> StepAnswer<A>
    ensures { result ≡ step_answer_of_gone answer }
{
    match answer {
        Ok(()) => StepAnswer::Dropped,
        Err(NotOpen) => StepAnswer::NotOpen,
    }
}

pub(crate) fn step_answer_of_retune<A: Allocator>(
    answer: Result<(), RetuneRefusal>,
) -> StepAnswer<A>
    ensures { result ≡ step_answer_of_retune answer }
{
    match answer {
        Ok(()) => StepAnswer::Retuned,
        Err(RetuneRefusal::Worn) => StepAnswer::Worn,
        Err(RetuneRefusal::Waiting) => StepAnswer::Waiting,
    }
}
