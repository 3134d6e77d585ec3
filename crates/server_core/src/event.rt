//! A server by its events.
ghost use Rattle.std.specs.Prelude.{◌≡◌};
ghost use Rattle.server_table.specs.declared.event.Event.TheVariants as event;
ghost use Rattle.server_core.specs.Made.{Makes};
ghost use Rattle.server_core.specs.Served.{answer_of_attach, answer_of_retune, answer_of_arrive, answer_of_dispatch, answer_of_take, answer_of_leave, answer_of_gone, answer_of_refusal};

use crate::refusal::{ArriveRefusal, NotArrived, NotAttached, NotRetuned, SessionRefusal};
use crate::server::Server;
use crate::session::SessionId;
use crate::ticket::Chosen;
use eligibility::Eligibility;
use export_store::Image;
use lone_export::Arrived;
use reply_box::Taken;
use server_table::{Answer, Event};
use std::alloc::Allocator;

fn attach_answer<A: Allocator>(said: Result<SessionId, NotAttached>) -> Answer<A>
    ensures { result ≡ answer_of_attach said }
{
    match said {
        Ok(session) => Answer::Session(session.number),
        Err(NotAttached::NoExport) => Answer::NoExport,
        Err(NotAttached::Worn) => Answer::Worn,
        Err(NotAttached::Full) => Answer::Full,
        Err(NotAttached::NoMemory) => Answer::NoMemory,
    }
}

fn arrive_answer<A: Allocator>(said: Result<Arrived, NotArrived<A>>) -> Answer<A>
    ensures { result ≡ answer_of_arrive said }
{
    match said {
        Ok(Arrived::Accepted { number, limit_tag }) => Answer::Accepted { number, limit_tag },
        Ok(Arrived::Answered(error)) => Answer::Answered(error),
        Err(refused) => match refused.refusal {
            ArriveRefusal::NoExport => Answer::NoExport,
            ArriveRefusal::NotOpen => Answer::NotOpen,
            ArriveRefusal::Worn => Answer::Worn,
            ArriveRefusal::Hold => Answer::Hold,
            ArriveRefusal::NoMemory => Answer::NoMemory,
        },
    }
}

fn dispatch_answer<A: Allocator>(said: Option<Chosen>) -> Answer<A>
    ensures { result ≡ answer_of_dispatch said }
{
    match said {
        Some(chosen) => Answer::Picked {
            export: chosen.ticket.export(),
            number: chosen.ticket.number(),
            phase: chosen.phase,
        },
        None => Answer::Nothing,
    }
}

fn refusal_answer<A: Allocator>(refusal: SessionRefusal) -> Answer<A>
    ensures { result ≡ answer_of_refusal refusal }
{
    match refusal {
        SessionRefusal::NoExport => Answer::NoExport,
        SessionRefusal::NotOpen => Answer::NotOpen,
    }
}

fn take_answer<A: Allocator>(said: Result<Taken<A>, SessionRefusal>) -> Answer<A>
    ensures { result ≡ answer_of_take said }
{
    match said {
        Ok(Taken::Reply(reply)) => Answer::Reply(reply),
        Ok(Taken::Empty) => Answer::Empty,
        Ok(Taken::End) => Answer::End,
        Err(refusal) => refusal_answer(refusal),
    }
}

fn leave_answer<A: Allocator>(said: Result<(), SessionRefusal>) -> Answer<A>
    ensures { result ≡ answer_of_leave said }
{
    match said {
        Ok(()) => Answer::Left,
        Err(refusal) => refusal_answer(refusal),
    }
}

fn gone_answer<A: Allocator>(said: Result<(), SessionRefusal>) -> Answer<A>
    ensures { result ≡ answer_of_gone said }
{
    match said {
        Ok(()) => Answer::Dropped,
        Err(refusal) => refusal_answer(refusal),
    }
}

fn retune_answer<A: Allocator>(said: Result<(), NotRetuned>) -> Answer<A>
    ensures { result ≡ answer_of_retune said }
{
    match said {
        Ok(()) => Answer::Retuned,
        Err(NotRetuned::NoExport) => Answer::NoExport,
        Err(NotRetuned::Worn) => Answer::Worn,
        Err(NotRetuned::Waiting) => Answer::Waiting,
        Err(NotRetuned::NoMemory) => Answer::NoMemory,
    }
}

impl<I: Image, E: Eligibility<Alloc = I::Alloc>> Server<I, E> {
    /// One event, and its answer. A request to be performed is named by its number.
    pub fn event(&mut self, what: Event<I::Alloc>) -> Answer<I::Alloc>
        ensures { Makes {A = I.Alloc} self.old what self.new result }
    {
        match what {
            Event::Attach { export } => attach_answer(self.attach(export)),
            Event::Arrive {
                export,
                session: number,
                moment,
                request,
            } => arrive_answer(self.arrive(SessionId { export, number }, moment, request)),
            Event::Dispatch { moment } => dispatch_answer(self.dispatch(moment)),
            Event::Perform { export, number } => self.perform_number(export, number),
            Event::Take { export, session } => {
                let number = session;
                take_answer(self.take_reply(SessionId { export, number }))
            }
            Event::Leave { export, session } => {
                let number = session;
                leave_answer(self.leave(SessionId { export, number }))
            }
            Event::Gone { export, session } => {
                let number = session;
                gone_answer(self.gone(SessionId { export, number }))
            }
            Event::Retune { export, rates } => retune_answer(self.retune(export, rates)),
        }
    }

    /// The request that is in service under this number is done.
    fn perform_number(&mut self, export: u32, number: u64) -> Answer<I::Alloc>
        ensures { Makes {A = I.Alloc} self.old (event.Perform export number) self.new result }
    {
        let Some(ticket) = self.find(export, number) else {
            return Answer::NotOut;
        };
        match self.perform(ticket) {
            Some(memory) => Answer::Performed { memory },
            None => Answer::NotOut,
        }
    }
}
