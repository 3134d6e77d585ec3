//! The cell of one export.
ghost use Rattle.std.specs.Prelude.{◌≡◌, ◌≢◌, ◌<◌, ◌≤◌, length, Ok, IsErrOf, IfOk, IfErr, IfSome, IfNone, OnOk, OnSome, Some};
ghost use Rattle.nbd_commands.specs.Terms.{terms_of};
ghost use Rattle.nbd_commands.specs.Exports.{IsWithin};
ghost use Rattle.lone_export.specs.Lone.{Does, DoesOr, step_answer_of_pick, step_answer_of_leave, step_answer_of_gone, step_answer_of_take, step_answer_of_attach, slots_picked, slots_without, slot_at, step_answer_of_arrive as arrived_said_alone, MayAttach, MayArrive, MayRetune};
ghost use Rattle.lone_export.specs.declared.step.StepAnswer.TheVariants.{Performed};
ghost use Rattle.step_log.specs.Steps.{payload_in};
ghost use Rattle.export_cell.specs.Journal.{IsJournal, JournalMove, IsReserved, IsTurnedAway, IsWithinBytes, advanced, surplus, noted, opening_cell, step_answer_of_arrive, step_answer_of_retuned};
ghost use Rattle.step_log.specs.Log.{steps_of};
ghost use Rattle.export_cell.specs.declared.refusal.ArriveFault.{ArriveFault};

mod trimming;

use crate::base::Base;
use crate::outdated::Outdated;
use crate::place::Place;
use crate::refusal::{ArriveFault, NotArrived, NotRetuned};
use crate::work::{ALLOWANCE, allowance_of};
use export_queue::Picked;
use export_store::Image;
use lone_export::{Arrived, Lone, NotAttached, Step};
use nbd_base::NoMemory;
use nbd_commands::{ExportConfig, Rates};
use nbd_wire::Request;
use reply_box::{NotOpen, Taken};
use std::marker::Model;
use step_log::Log;
use tag_clock::Moment;

/// An export as it is, the same export as it was at the start of its kept history, and the log of the steps between.
#[derive(Drop)]
pub struct ExportCell<I: Image> {
    live: Lone<I>,
    base: Base<I>,
    // It always has room for the steps that can still come of what is there.
    log: Log<I::Alloc>,
    // The bytes of payload in the log.
    payload: usize,
}

impl<I: Image> Model for ExportCell<I> {
    ghost use Rattle.lone_export.specs.declared.step.StepAnswer.TheVariants.{Performed};
    ghost use Rattle.export_cell.specs.Based.{whole_of};
    ghost use Rattle.export_cell.specs.Journal.{Cell, cell_of, IsCell};
    ghost use Rattle.step_log.specs.Log.{steps_of, room_of};

    ghost Value = { Cell };

    ghost view = { λ c.
        cell_of c.live (whole_of c.base) (steps_of c.log) (room_of c.log) };

    ghost invariant = { λ c.
        IsCell c.live (whole_of c.base) (steps_of c.log) c.payload (room_of c.log) };
}

impl<I: Image> ExportCell<I> {
    /// An export in its opening state, with an empty log. `inflight` requests of it may be in service at once.
    pub fn new(
        alloc: I::Alloc,
        config: &ExportConfig<I::Alloc>,
        inflight: usize,
    ) -> Result<Self, NoMemory>
        requires { IsWithin 4096 inflight }
        ensures { IfOk result (λ cell. cell ≡ opening_cell (terms_of config.now) inflight) }
    {
        let live = Lone::new(alloc, config, inflight)?;
        let base = Base::new(alloc, config, inflight)?;
        let log = Log::new(alloc)?;
        Ok(ExportCell {
            live,
            base,
            log,
            payload: 0,
        })
    }

    /// How many steps were counted.
    pub fn steps(&self) -> u64
        ensures { result ≡ self.now.live.state.count }
    {
        self.live.steps()
    }

    /// The export as it is.
    pub fn live(&self) -> &Lone<I>
        ensures { result.now ≡ self.now.live }
    {
        &self.live
    }

    /// The export as it was before the first step of the log.
    pub fn base(&self) -> &Base<I>
        ensures state { result.now.state ≡ self.now.journal.base }
        ensures terms { result.now.terms ≡ self.now.live.terms }
    {
        &self.base
    }

    /// The steps from the base to the export as it is, oldest first.
    pub fn entries(&self) -> &Log<I::Alloc>
        ensures { steps_of result.now ≡ self.now.journal.log }
    {
        &self.log
    }

    /// How many there are: fewer than 4,096 before an attach, an arrival or a retune goes on, and those that come of it.
    pub fn kept(&self) -> u64
        ensures { result ≡ length self.now.journal.log }
    {
        self.steps() - self.base.steps()
    }

    /// The bytes of payload in them: 64 MiB at most.
    pub fn payload_bytes(&self) -> u64
        ensures { result ≡ payload_in self.now.journal.log }
    {
        self.payload as u64
    }

    /// Does nothing: its contract says what is true of every cell.
    ///
    /// The export as it is is its base after the steps of the log, and these have 64 MiB of payload at most.
    pub fn laws(&self)
        ensures journal { IsJournal self.now.live self.now.journal }
        ensures payload { IsWithinBytes self.now.journal.log }
    {
        let _ = &self.payload;
    }

    /// Exchanges the lists of what writes and zeros have replaced since the last call for those that are lent (`Image::sweep`).
    pub fn sweep(&mut self, outdated: &mut Outdated<I::Alloc>)
        ensures { self.new ≡ self.old }
    {
        self.live.sweep(&mut outdated.live);
        self.base.sweep(&mut outdated.base);
    }

    /// Makes the oldest of the steps that are queued for the base, until they came to so much work or one found no memory. Work is
    /// counted in pages (`work_of`), and one for each step; the last of the steps may be more than was left. Where `most` is the
    /// greatest number all are made.
    pub fn catch_up(&mut self, most: usize)
        ensures { self.new ≡ self.old }
    {
        let _ = self.work_off(most);
    }

    /// Opens a session and gives its number. The oldest steps of the log go into the base, as many as have to.
    pub fn attach(&mut self) -> Result<u64, NotAttached>
        ensures step { DoesOr {A = I.Alloc} self.old.live self.new.live Step.Attach
            (step_answer_of_attach result) }
        ensures journal { JournalMove {A = I.Alloc} self.old.live.terms Step.Attach
            (step_answer_of_attach result) self.old.journal self.new.journal }
        ensures no_memory { IsErrOf result NotAttached.NoMemory → MayAttach self.old.live (Ok tt) }
        ensures slots { self.new.live.slots ≡ self.old.live.slots }
    {
        if let Err(refusal) = self.live.may_attach() {
            return Err(NotAttached::Refused(refusal));
        }
        if let Err(_) = self.make_room(0, ALLOWANCE) {
            return Err(NotAttached::NoMemory);
        }
        match self.live.attach() {
            Ok(number) => {
                self.log.push(Step::Attach);
                Ok(number)
            }
            Err(refused) => Err(refused),
        }
    }

    /// The rates are others from now on. The oldest steps of the log go into the base, as many as have to.
    pub fn retune(&mut self, rates: Rates) -> Result<(), NotRetuned>
        ensures step { DoesOr {A = I.Alloc} self.old.live self.new.live (Step.Retune rates)
            (step_answer_of_retuned result) }
        ensures journal { JournalMove {A = I.Alloc} self.old.live.terms (Step.Retune rates)
            (step_answer_of_retuned result) self.old.journal self.new.journal }
        ensures no_memory { IsErrOf result NotRetuned.NoMemory → MayRetune self.old.live (Ok tt) }
        ensures slots { self.new.live.slots ≡ self.old.live.slots }
    {
        if let Err(refusal) = self.live.may_retune() {
            return Err(NotRetuned::Refused(refusal));
        }
        let Ok(()) = self.make_room(0, ALLOWANCE) else {
            return Err(NotRetuned::NoMemory);
        };
        let Ok(()) = self.live.retune(rates) else {
            unreachable!();
        };
        self.log.push(Step::Retune { rates });
        Ok(())
    }

    /// A request of a session arrives at a moment: what `reserve` and `enter` do. One that is refused, or for which no
    /// memory is there, is handed back.
    pub fn arrive(
        &mut self,
        session: u64,
        moment: Moment,
        request: Request<I::Alloc>,
    ) -> Result<Arrived, NotArrived<I::Alloc>>
        ensures step { DoesOr {A = I.Alloc} self.old.live self.new.live
            (Step.Arrive session moment request) (step_answer_of_arrive result) }
        ensures journal { JournalMove {A = I.Alloc} self.old.live.terms (Step.Arrive session moment
            request) (step_answer_of_arrive result) self.old.journal self.new.journal }
        ensures no_memory { IfErr result (λ e. e.fault ≡ ArriveFault.NoMemory
            → MayArrive self.old.live session (Ok tt)) }
        ensures back { IfErr result (λ e. e.request ≡ request) }
        ensures slots { self.new.live.slots ≡ self.old.live.slots }
    {
        match self.reserve(session, &request) {
            Ok(place) => Ok(self.enter(session, moment, request, place)),
            Err(fault) => Err(NotArrived { fault, request }),
        }
    }

    /// Asks what becomes of a request of a session. Where it isn't refused, room is made in the log for it and for all the
    /// steps that it can bring. The oldest steps go into the base, as many as have to; without memory some of these.
    pub fn reserve(
        &mut self,
        session: u64,
        request: &Request<I::Alloc>,
    ) -> Result<Place<I::Alloc>, ArriveFault>
        ensures live { self.new.live ≡ self.old.live }
        ensures reserved { IfOk result (λ place. IsReserved self.new session request.now place) }
        ensures journal { OnOk result (self.new.journal ≡ advanced self.old.live.terms
            (surplus (length request.now.payload) self.old.journal.log) self.old.journal) }
        ensures fault { IfErr result (λ fault.
            IsTurnedAway self.old self.new session request.now fault) }
    {
        let admission = match self.live.admission(session, request) {
            Ok(admission) => admission,
            Err(refusal) => return Err(ArriveFault::Refused(refusal)),
        };
        if let Err(_) = self.make_room(request.payload().len(), allowance_of(request.head())) {
            return Err(ArriveFault::NoMemory);
        }
        let Ok(kept) = request.clone() else {
            return Err(ArriveFault::NoMemory);
        };
        Ok(Place { admission, kept })
    }

    /// The request arrives whose place `reserve` gave, where the export is as it was then. It takes no memory.
    pub fn enter(
        &mut self,
        session: u64,
        moment: Moment,
        request: Request<I::Alloc>,
        place: Place<I::Alloc>,
    ) -> Arrived
        requires { IsReserved self.old session request place }
        ensures step { Does {A = I.Alloc} self.old.live self.new.live
            (Step.Arrive session moment request) (arrived_said_alone (Ok result)) }
        ensures journal { self.new.journal
            ≡ noted (Step.Arrive session moment request) self.old.journal }
        ensures slots { self.new.live.slots ≡ self.old.live.slots }
    {
        let Place { admission, kept } = place;
        let bytes = request.payload().len();
        let arrived = self.live.admit(session, moment, request, admission);
        self.log.push(Step::Arrive {
            session,
            moment,
            request: kept,
        });
        self.payload += bytes;
        arrived
    }

    /// The first request that waits is in service now, in the slot that is answered. It takes no memory.
    pub fn pick(&mut self) -> Option<Picked>
        requires { length self.old.live.state.out < self.old.live.inflight }
        ensures step { Does {A = I.Alloc} self.old.live self.new.live Step.Pick
            (step_answer_of_pick result) }
        ensures journal { JournalMove {A = I.Alloc} self.old.live.terms Step.Pick
            (Some (step_answer_of_pick result)) self.old.journal self.new.journal }
        ensures slots { self.new.live.slots ≡ slots_picked self.old.live.slots result }
    {
        let Some(picked) = self.live.pick() else {
            return None;
        };
        self.log.push(Step::Pick);
        Some(picked)
    }

    /// The request that is in service in `slot` under `number` is done, and its reply goes to its session. The answer
    /// tells whether memory was there for it.
    ///
    /// None where the slot doesn't hold that number, also where the number is in service in another slot.
    pub fn perform(&mut self, slot: usize, number: u64) -> Option<bool>
        ensures some { IfSome result (λ memory. (slot_at self.old.live number ≡ Some slot)
            × Does {A = I.Alloc} self.old.live self.new.live (Step.Perform number memory)
            (Performed memory)) }
        ensures journal { IfSome result (λ memory.
            JournalMove {A = I.Alloc} self.old.live.terms (Step.Perform number memory) (Some (Performed memory)) self.old.journal self.new.journal) }
        ensures none { IfNone result ((slot_at self.old.live number ≢ Some slot)
            × (self.new ≡ self.old)) }
        ensures slots { OnSome result (self.new.live.slots
            ≡ slots_without self.old.live.state.out self.old.live.slots number) }
    {
        let Some(memory) = self.live.perform(slot, number) else {
            return None;
        };
        self.log.push(Step::Perform { number, memory });
        Some(memory)
    }

    /// The oldest reply of the session is taken. It takes no memory.
    pub fn take(&mut self, session: u64) -> Result<Taken<I::Alloc>, NotOpen>
        ensures step { Does {A = I.Alloc} self.old.live self.new.live (Step.Take session)
            (step_answer_of_take result) }
        ensures journal { JournalMove {A = I.Alloc} self.old.live.terms (Step.Take session)
            (Some (step_answer_of_take result)) self.old.journal self.new.journal }
        ensures slots { self.new.live.slots ≡ self.old.live.slots }
    {
        match self.live.take(session) {
            Ok(Taken::Reply(reply)) => {
                self.log.push(Step::Take { session });
                Ok(Taken::Reply(reply))
            }
            Ok(Taken::Empty) => Ok(Taken::Empty),
            Ok(Taken::End) => Ok(Taken::End),
            Err(refused) => Err(refused),
        }
    }

    /// Nothing more arrives on the session. It takes no memory.
    pub fn leave(&mut self, session: u64) -> Result<(), NotOpen>
        ensures step { Does {A = I.Alloc} self.old.live self.new.live (Step.Leave session)
            (step_answer_of_leave result) }
        ensures journal { JournalMove {A = I.Alloc} self.old.live.terms (Step.Leave session)
            (Some (step_answer_of_leave result)) self.old.journal self.new.journal }
        ensures slots { self.new.live.slots ≡ self.old.live.slots }
    {
        if let Err(refused) = self.live.leave(session) {
            return Err(refused);
        }
        self.log.push(Step::Leave { session });
        Ok(())
    }

    /// The session is dropped with its replies; its requests are still served. It takes no memory.
    pub fn gone(&mut self, session: u64) -> Result<(), NotOpen>
        ensures step { Does {A = I.Alloc} self.old.live self.new.live (Step.Gone session)
            (step_answer_of_gone result) }
        ensures journal { JournalMove {A = I.Alloc} self.old.live.terms (Step.Gone session)
            (Some (step_answer_of_gone result)) self.old.journal self.new.journal }
        ensures slots { self.new.live.slots ≡ self.old.live.slots }
    {
        if let Err(refused) = self.live.gone(session) {
            return Err(refused);
        }
        self.log.push(Step::Gone { session });
        Ok(())
    }
}
