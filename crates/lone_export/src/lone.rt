//! One export alone: its image, its requests, its sessions and its limit tags.
ghost use Rattle.std.specs.Prelude.{◌≡◌, ◌≢◌, ◌<◌, [], length, false, Ok, IsTrue, IsErrOf, IfOk, IfErr, IfSome, IfNone, OnSome, Some, IsSome};
ghost use Rattle.std.specs.Bool.{OnTrue, OnFalse};
ghost use Rattle.nbd_wire.specs.Grammar.{IsRequest};
ghost use Rattle.nbd_commands.specs.Verdict.{verdict_at};
ghost use Rattle.nbd_commands.specs.Meaning.{image_after, data_of, may_want_memory};
ghost use Rattle.nbd_commands.specs.Terms.{terms_of};
ghost use Rattle.nbd_commands.specs.Exports.{IsWithin};
ghost use Rattle.export_queue.specs.Queue.{item_held};
ghost use Rattle.reply_box.specs.Box.{IsOwed, after_put};
ghost use Rattle.lone_export.specs.Parts.{Settles, reply_to};
ghost use Rattle.lone_export.specs.declared.row.Row.{Row};
ghost use Rattle.lone_export.specs.Lone.{opening_of, Does, DoesOr, step_answer_of_pick, step_answer_of_leave, step_answer_of_gone, step_answer_of_take, step_answer_of_attach, step_answer_of_arrive, step_answer_of_retune, slots_picked, slots_without, slot_at, MayAttach, IsAdmission};

mod reading;
mod replaying;
mod rounds;
mod skipping;

use crate::refusal::{Admission, Arrived, NotArrived, NotAttached, RetuneRefusal};
use crate::row::Row;
use crate::step::{Step, StepAnswer};
use export_queue::{ExportQueue, Picked};
use export_store::{Image, Swept};
use nbd_base::NoMemory;
use nbd_commands::{Done, ExportConfig, ExportInfo, Rates, apply_owned};
use nbd_wire::protocol::{ENOMEM, WRITE};
use nbd_wire::{Reply, Request, RequestHead};
use reply_box::{NotOpen, ReplyBox, Taken};
use std::alloc::Allocator;
use std::marker::Model;
use tag_clock::{LimitClock, Moment, Tuning};

/// An export and all of its requests and sessions.
///
/// Nothing here knows of another export, of weights, or of when a request is dispatched.
#[derive(Drop)]
pub struct Lone<I: Image> {
    info: ExportInfo,
    // The rates at the start, and those in force.
    tuning: Tuning,
    rates: Tuning,
    image: I,
    queue: ExportQueue<Row<I::Alloc>, I::Alloc>,
    clock: LimitClock,
    sessions: ReplyBox<I::Alloc>,
    count: u64,
    // How many of the counted steps are attaches, arrivals and retunes.
    asked: u64,
}

impl<I: Image> Model for Lone<I> {
    ghost use Rattle.lone_export.specs.Lone.{Whole};
    ghost use Rattle.lone_export.specs.Parts.{whole_of, IsLone};

    ghost Value = { Whole };

    ghost view = { λ l.
        whole_of (record {
          info = l.info;
          tuning = l.tuning;
          rates = l.rates;
          image = I.bytes l.image;
          queue = l.queue;
          clock = l.clock;
          sessions = l.sessions;
          count = l.count;
          asked = l.asked;
        }) };

    ghost invariant = { λ l.
        IsLone (record {
          info = l.info;
          tuning = l.tuning;
          rates = l.rates;
          image = I.bytes l.image;
          queue = l.queue;
          clock = l.clock;
          sessions = l.sessions;
          count = l.count;
          asked = l.asked;
        }) };
}

impl<I: Image> Lone<I> {
    /// The first request that waits is in service now, in the slot that is answered.
    pub fn pick(&mut self) -> Option<Picked>
        requires { length self.old.state.out < self.old.inflight }
        ensures step { Does {A = I.Alloc} self.old self.new Step.Pick (step_answer_of_pick result) }
        ensures slots { self.new.slots ≡ slots_picked self.old.slots result }
    {
        let Some(picked) = self.queue.pick() else {
            return None;
        };
        self.count += 1;
        Some(picked)
    }

    /// Nothing more arrives on the session.
    pub fn leave(&mut self, session: u64) -> Result<(), NotOpen>
        ensures step { Does {A = I.Alloc} self.old self.new (Step.Leave session)
            (step_answer_of_leave result) }
        ensures slots { self.new.slots ≡ self.old.slots }
    {
        if let Err(refused) = self.sessions.leave(session) {
            return Err(refused);
        }
        self.count += 1;
        Ok(())
    }

    /// The session is dropped with its replies; its requests are still served.
    pub fn gone(&mut self, session: u64) -> Result<(), NotOpen>
        ensures step { Does {A = I.Alloc} self.old self.new (Step.Gone session)
            (step_answer_of_gone result) }
        ensures slots { self.new.slots ≡ self.old.slots }
    {
        if let Err(refused) = self.sessions.gone(session) {
            return Err(refused);
        }
        self.count += 1;
        Ok(())
    }

    /// The oldest reply of the session is taken.
    pub fn take(&mut self, session: u64) -> Result<Taken<I::Alloc>, NotOpen>
        ensures step { Does {A = I.Alloc} self.old self.new (Step.Take session)
            (step_answer_of_take result) }
        ensures slots { self.new.slots ≡ self.old.slots }
    {
        match self.sessions.take(session) {
            Ok(Taken::Reply(reply)) => {
                self.count += 1;
                Ok(Taken::Reply(reply))
            }
            Ok(Taken::Empty) => Ok(Taken::Empty),
            Ok(Taken::End) => Ok(Taken::End),
            Err(refused) => Err(refused),
        }
    }

    /// Opens a session and gives its number.
    pub fn attach(&mut self) -> Result<u64, NotAttached>
        ensures step { DoesOr {A = I.Alloc} self.old self.new Step.Attach
            (step_answer_of_attach result) }
        ensures no_memory { IsErrOf result NotAttached.NoMemory → MayAttach self.old (Ok tt) }
        ensures slots { self.new.slots ≡ self.old.slots }
    {
        if let Err(refusal) = self.may_attach() {
            return Err(NotAttached::Refused(refusal));
        }
        let Ok(number) = self.sessions.attach() else {
            return Err(NotAttached::NoMemory);
        };
        self.count += 1;
        self.asked += 1;
        Ok(number)
    }

    /// A request of a session arrives at a moment. One that is refused is handed back.
    ///
    /// It takes no memory.
    pub fn arrive(
        &mut self,
        session: u64,
        moment: Moment,
        request: Request<I::Alloc>,
    ) -> Result<Arrived, NotArrived<I::Alloc>>
        ensures step { Does {A = I.Alloc} self.old self.new (Step.Arrive session moment request)
            (step_answer_of_arrive result) }
        ensures back { IfErr result (λ e. e.request ≡ request) }
        ensures slots { self.new.slots ≡ self.old.slots }
    {
        match self.admission(session, &request) {
            Ok(admission) => Ok(self.admit(session, moment, request, admission)),
            Err(refusal) => Err(NotArrived { refusal, request }),
        }
    }

    /// A request of a session arrives at a moment, of which `admission` told what becomes of it: the verdict isn't asked again.
    ///
    /// It takes no memory.
    pub fn admit(
        &mut self,
        session: u64,
        moment: Moment,
        request: Request<I::Alloc>,
        admission: Admission,
    ) -> Arrived
        requires { IsAdmission I.Alloc self.old session request (Ok admission) }
        ensures step { Does {A = I.Alloc} self.old self.new (Step.Arrive session moment request)
            (step_answer_of_arrive (Ok result)) }
        ensures slots { self.new.slots ≡ self.old.slots }
    {
        let _ = self.sessions.admit(session);
        self.count += 1;
        self.asked += 1;
        if let Admission::Answered(error) = admission {
            let cookie = request.head().cookie;
            self.sessions.put(session, Reply::bare(error, cookie));
            return Arrived::Answered(error);
        }
        let Ok(number) = self.queue.push(Row { session, request }) else {
            unreachable!();
        };
        // A moment is below 2^62.
        let _ = moment.nanoseconds();
        let limit_tag = self.clock.admit(moment);
        Arrived::Accepted { number, limit_tag }
    }

    /// The request that is in service in `slot` under `number` is done, and its reply goes to its session. The answer
    /// tells whether memory was there for it.
    ///
    /// None where the slot doesn't hold that number, also where the number is in service in another slot.
    pub fn perform(&mut self, slot: usize, number: u64) -> Option<bool>
        ensures some { IfSome result (λ memory. (slot_at self.old number ≡ Some slot)
            × Does {A = I.Alloc} self.old self.new (Step.Perform number memory)
            (StepAnswer.Performed memory)) }
        ensures none { IfNone result ((slot_at self.old number ≢ Some slot)
            × (self.new ≡ self.old)) }
        ensures slots { OnSome result (self.new.slots
            ≡ slots_without self.old.state.out self.old.slots number) }
    {
        let Some(row) = self.queue.finish(slot, number) else {
            return None;
        };
        let memory = answer(&mut self.image, &mut self.sessions, row);
        self.count += 1;
        Some(memory)
    }

    /// The rates are others from now on. The last limit tag stays, and the next one is an interval of the new limit after it.
    ///
    /// It takes no memory.
    pub fn retune(&mut self, rates: Rates) -> Result<(), RetuneRefusal>
        ensures step { Does {A = I.Alloc} self.old self.new (Step.Retune rates)
            (step_answer_of_retune result) }
        ensures slots { self.new.slots ≡ self.old.slots }
    {
        if let Err(refusal) = self.may_retune() {
            return Err(refusal);
        }
        let tuning = rates.tuning();
        self.rates = tuning;
        self.clock.retune(tuning.l_interval());
        self.count += 1;
        self.asked += 1;
        Ok(())
    }

    /// Offers pages of another image to the request that is performed next, where it is a WRITE (`Image::offer`).
    pub fn offer(&mut self, head: RequestHead, other: &I)
        ensures { self.new ≡ self.old }
    {
        if head.kind == WRITE {
            self.image
                .offer(head.offset as usize, head.length as usize, other);
        }
    }

    /// Exchanges the list of what writes and zeros have replaced since the last call for one that is lent (`Image::sweep`).
    pub fn sweep(&mut self, swept: &mut Swept<I::Alloc>)
        ensures { self.new ≡ self.old }
    {
        self.image.sweep(swept);
    }

    /// An export in its opening state, which takes its memory from `alloc`.
    pub fn new(
        alloc: I::Alloc,
        config: &ExportConfig<I::Alloc>,
        inflight: usize,
    ) -> Result<Self, NoMemory>
        requires { IsWithin 4096 inflight }
        ensures { IfOk result (λ lone. lone ≡ opening_of (terms_of config.now) inflight) }
    {
        let Some(tuning) = Tuning::new(config.reservation(), config.limit(), config.weight()) else {
            unreachable!();
        };
        let image = I::zeros(alloc, config.size() as usize)?;
        let queue = ExportQueue::new(alloc, config.depth(), inflight)?;
        Ok(Lone {
            info: config.info(),
            tuning,
            rates: tuning,
            image,
            queue,
            clock: LimitClock::new(tuning.l_interval()),
            sessions: ReplyBox::new(alloc, config.window()),
            count: 0,
            asked: 0,
        })
    }
}

/// Performs a request that is in service no longer, and its reply goes to its session. The answer tells whether memory was there
/// for it.
fn answer<I: Image>(image: &mut I, sessions: &mut ReplyBox<I::Alloc>, row: Row<I::Alloc>) -> bool
    requires served { verdict_at (length (I.bytes image.old)) false row.request ≡ 0 }
    requires owed { IsOwed sessions.old row.session }
    ensures request { IsRequest row.request }
    ensures done { OnTrue result (I.bytes image.new ≡ image_after (I.bytes image.old) row.request) }
    ensures no_memory { OnFalse result ((I.bytes image.new ≡ I.bytes image.old)
        × IsTrue (may_want_memory row.request)) }
    ensures replied { sessions.new ≡ after_put sessions.old row.session
        (reply_to result row.request.head.cookie (data_of (I.bytes image.old) row.request)) }
{
    let Row { session, request } = row;
    let cookie = request.head().cookie;
    match apply_owned(image, request) {
        Ok(content) => {
            sessions.put(session, Reply::done(cookie, content));
            true
        }
        Err(_) => {
            sessions.put(session, Reply::bare(ENOMEM, cookie));
            false
        }
    }
}

/// The request that is in service in `slot` under `number` was performed: it is in service no longer, and its reply goes to
/// its session.
fn settle<A: Allocator + Copy>(
    queue: &mut ExportQueue<Row<A>, A>,
    sessions: &mut ReplyBox<A>,
    slot: usize,
    number: u64,
    done: Done<A>,
)
    requires held { IsSome (item_held queue.old slot number) }
    requires owed { (row : Row A) → item_held queue.old slot number ≡ Some row
        → IsOwed sessions.old row.session }
    ensures { Settles queue.old sessions.old slot number done.memory done.content queue.new
        sessions.new }
{
    let Some(row) = queue.finish(slot, number) else {
        unreachable!();
    };
    let reply = reply_to(done, row.request.head().cookie);
    sessions.put(row.session, reply);
}

/// The reply to a request that was performed.
fn reply_to<A: Allocator>(done: Done<A>, cookie: u64) -> Reply<A>
    ensures { result ≡ reply_to done.memory cookie done.content }
{
    if done.memory {
        Reply::done(cookie, done.content)
    } else {
        Reply::bare(ENOMEM, cookie)
    }
}
