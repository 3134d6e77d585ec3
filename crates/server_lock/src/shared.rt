//! A booked server that threads share.
ghost use Rattle.std.specs.Prelude.{◌≡◌, ◌≤◌, IfOk, IfErr, IfSome, vec_len};
ghost use Rattle.std.specs.Sync.Mutex.{mutex_guard_value};
ghost use Rattle.server_table.specs.declared.event.Event.TheVariants as event;
ghost use Rattle.server_core.specs.Counted.{counted_steps, IsSound};
ghost use Rattle.server_core.specs.Served.{answer_of_attach, answer_of_arrive, answer_of_dispatch, answer_of_perform, answer_of_take, answer_of_leave, answer_of_gone, answer_of_retune};
ghost use Rattle.server_lock.specs.Scores.{noted, opened, without, chosen_by};

use crate::turns;
use crate::turns::{Booked, Pass};
use eligibility::Eligibility;
use export_store::Image;
use lone_export::Arrived;
use nbd_base::NoMemory;
use nbd_commands::Rates;
use nbd_wire::Request;
use reply_box::Taken;
use server_core::{
    Chosen, NotArrived, NotAttached, NotRetuned, Server, SessionId, SessionRefusal, Ticket,
};
use std::hint::spin_loop;
use std::sync::atomic::{AtomicBool, Ordering};
use std::sync::ledger::{Blank, Ledger};
use std::sync::{Mutex, MutexGuard, Wait};
use std::thread::yield_now;
use tag_clock::Moment;

/// How often a taken lock is asked for, while other threads run, before its caller sleeps.
const TRIES: usize = 64;

/// How often it is looked at in a row before other threads run.
const LOOKS: usize = 32;

/// A booked server under a lock, and a stop flag beside it, of which nothing is claimed.
///
/// `hold` takes the lock for as many turns as its caller likes; each call that makes a turn takes it for that one alone. Who
/// comes first is not promised, nor that a call returns.
#[derive(Drop)]
pub struct Shared<L: Ledger, I: Image, E: Eligibility<Alloc = I::Alloc>> {
    booked: Mutex<Booked<L, I, E>>,
    stopping: AtomicBool,
}

impl<L: Ledger, I: Image, E: Eligibility<Alloc = I::Alloc>> Shared<L, I, E> {
    /// A shared server, and `n` passes: one for each part of the blank ledger. The first has the steps counted so far as
    /// its share. Where memory is refused, the server and the blank come back.
    pub fn new(
        alloc: I::Alloc,
        server: Server<I, E>,
        blank: Blank,
        n: u64,
    ) -> Result<(Shared<L, I, E>, Vec<Pass<L>, I::Alloc>), (NoMemory, Server<I, E>, Blank)>
        requires some { 1 ≤ n }
        requires name { blank.name ≡ L.name }
        requires parts { blank.parts ≡ L.parts }
        requires passes { n ≡ blank.parts }
        ensures count { IfOk result (λ r. vec_len r.1 ≡ n) }
        ensures passes { IfOk result (λ r. r.1.items ≡ opened (counted_steps server) n) }
        ensures refused { IfErr result (λ e. (e.1 ≡ server) × (e.2 ≡ blank)) }
    {
        match Booked::open(alloc, server, blank, n) {
            Ok((booked, passes)) => Ok((
                Shared {
                    booked: Mutex::new(booked),
                    stopping: AtomicBool::new(false),
                },
                passes,
            )),
            Err(refused) => Err(refused),
        }
    }

    /// The server, which nobody else has until the guard is dropped. All that may be changed by it is what the turns change.
    ///
    /// Hold it for no longer than turns take: neither read nor write, nor wait for anything else, in between.
    pub fn hold<R: Wait>(&self, rt: &R) -> MutexGuard<'_, Booked<L, I, E>>
        ensures { IsSound (mutex_guard_value result) }
    {
        let held = self.take(rt);
        held.kept();
        held
    }

    /// The server, where nobody has it now: what `hold` gives, without waiting.
    pub fn try_hold(&self) -> Option<MutexGuard<'_, Booked<L, I, E>>>
        ensures { IfSome result (λ held. IsSound (mutex_guard_value held)) }
    {
        let Some(held) = self.booked.try_lock() else {
            return None;
        };
        held.kept();
        Some(held)
    }

    // The lock. A hand-over from sleeper to sleeper takes longer than most holds do, so whoever finds it taken looks again
    // for a while, and lets others run in between.
    fn take<R: Wait>(&self, rt: &R) -> MutexGuard<'_, Booked<L, I, E>> {
        for _ in 0..TRIES {
            if let Some(held) = self.look() {
                return held;
            }
            yield_now();
        }
        self.booked.lock(rt)
    }

    // The lock, where it is free at one of some looks. Most holds are shorter than it takes to let another thread run.
    fn look(&self) -> Option<MutexGuard<'_, Booked<L, I, E>>> {
        for _ in 0..LOOKS {
            if let Some(held) = self.booked.try_lock() {
                return Some(held);
            }
            spin_loop();
        }
        None
    }

    /// Opens a session of an export.
    pub fn turn_attach<R: Wait>(
        &self,
        rt: &R,
        pass: &mut Pass<L>,
        export: u32,
    ) -> Result<SessionId, NotAttached>
        ensures pass { pass.new
            ≡ noted {A = I.Alloc} pass.old (event.Attach export) (answer_of_attach result) }
        ensures export { IfOk result (λ session. session.export ≡ export) }
    {
        turns::turn_attach(&mut *self.hold(rt), pass, export)
    }

    /// A request of a session arrives at a moment. One that is refused is handed back.
    pub fn turn_arrive<R: Wait>(
        &self,
        rt: &R,
        pass: &mut Pass<L>,
        session: SessionId,
        moment: Moment,
        request: Request<I::Alloc>,
    ) -> Result<Arrived, NotArrived<I::Alloc>>
        ensures pass { pass.new ≡ noted {A = I.Alloc} pass.old
            (event.Arrive session.export session.number moment request) (answer_of_arrive result) }
        ensures back { IfErr result (λ e. e.request ≡ request) }
    {
        turns::turn_arrive(&mut *self.hold(rt), pass, session, moment, request)
    }

    /// Chooses the request that is served next, where one may be. The pass holds its ticket.
    pub fn turn_dispatch<R: Wait>(
        &self,
        rt: &R,
        pass: &mut Pass<L>,
        moment: Moment,
    ) -> Option<Chosen>
        ensures { pass.new ≡ chosen_by
            (noted {A = I.Alloc} pass.old (event.Dispatch moment) (answer_of_dispatch result)) result }
    {
        turns::turn_dispatch(&mut *self.hold(rt), pass, moment)
    }

    /// The request in service is done: whether memory was there for it, or None where the ticket is stale. Where the ticket
    /// is that of the pass's latest choice, the pass holds it no more.
    pub fn turn_perform<R: Wait>(&self, rt: &R, pass: &mut Pass<L>, ticket: Ticket) -> Option<bool>
        ensures { pass.new ≡ without (noted {A = I.Alloc} pass.old
            (event.Perform ticket.export ticket.number) (answer_of_perform result)) ticket }
    {
        turns::turn_perform(&mut *self.hold(rt), pass, ticket)
    }

    /// The oldest reply of a session that isn't gone is taken.
    pub fn turn_take<R: Wait>(
        &self,
        rt: &R,
        pass: &mut Pass<L>,
        session: SessionId,
    ) -> Result<Taken<I::Alloc>, SessionRefusal>
        ensures { pass.new ≡ noted {A = I.Alloc} pass.old (event.Take session.export session.number)
            (answer_of_take result) }
    {
        turns::turn_take(&mut *self.hold(rt), pass, session)
    }

    /// Nothing more arrives on a session that is open.
    pub fn turn_leave<R: Wait>(
        &self,
        rt: &R,
        pass: &mut Pass<L>,
        session: SessionId,
    ) -> Result<(), SessionRefusal>
        ensures { pass.new ≡ noted {A = I.Alloc} pass.old
            (event.Leave session.export session.number) (answer_of_leave result) }
    {
        turns::turn_leave(&mut *self.hold(rt), pass, session)
    }

    /// A session that isn't gone is dropped with its replies; its requests are still served.
    pub fn turn_gone<R: Wait>(
        &self,
        rt: &R,
        pass: &mut Pass<L>,
        session: SessionId,
    ) -> Result<(), SessionRefusal>
        ensures { pass.new ≡ noted {A = I.Alloc} pass.old (event.Gone session.export session.number)
            (answer_of_gone result) }
    {
        turns::turn_gone(&mut *self.hold(rt), pass, session)
    }

    /// The rates of an export are others from now on.
    pub fn turn_retune<R: Wait>(
        &self,
        rt: &R,
        pass: &mut Pass<L>,
        export: u32,
        rates: Rates,
    ) -> Result<(), NotRetuned>
        ensures { pass.new
            ≡ noted {A = I.Alloc} pass.old (event.Retune export rates) (answer_of_retune result) }
    {
        turns::turn_retune(&mut *self.hold(rt), pass, export, rates)
    }

    /// How many requests wait, of all exports together, while no turn is made.
    pub fn waiting<R: Wait>(&self, rt: &R) -> usize {
        self.hold(rt).server().waiting()
    }

    /// The least moment at which a dispatch chooses a request, while no turn is made: `Server::next_due`.
    pub fn next_due<R: Wait>(&self, rt: &R) -> Option<Moment> {
        self.hold(rt).server().next_due()
    }

    /// Tells the workers to end once nothing waits. It wakes nobody.
    pub fn stop(&self) {
        self.stopping.store(true, Ordering::SeqCst);
    }

    /// Whether `stop` was called.
    pub fn stopping(&self) -> bool {
        self.stopping.load(Ordering::SeqCst)
    }

    /// The one booked server, once nobody shares it any more.
    pub fn end(self) -> Booked<L, I, E>
        ensures { IsSound result }
    {
        let Shared {
            booked,
            stopping: _,
        } = self;
        let booked = booked.into_inner();
        booked.kept();
        booked
    }
}
