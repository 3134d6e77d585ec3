//! One export of a server: the export with its journal, and beside it the tags of its requests.
ghost use Rattle.std.specs.Prelude.{◌≡◌, ◌≢◌, ◌<◌, ◌++◌, length, map, option_map, slice_get, IfErr, IsSome, ◌==◌, not, filter, find, is_some, IfOk, IfSome, IfNone, OnOk, Ok, Some};
ghost use Rattle.std.specs.Vec.{vec_capacity};
ghost use Rattle.nbd_commands.specs.Terms.{terms_of};
ghost use Rattle.nbd_commands.specs.Exports.{IsWithin};
ghost use Rattle.lone_export.specs.Lone.{step_answer_of_leave, step_answer_of_gone, step_answer_of_take, step_answer_of_attach};
ghost use Rattle.lone_export.specs.declared.step.StepAnswer.TheVariants.{Performed};
ghost use Rattle.export_cell.specs.Journal.{JournalMove, IsJournal, advanced, surplus, noted, step_answer_of_retuned};
ghost use Rattle.server_table.specs.Parts.{alone_of};

use crate::tagging::{give_credit, put_behind, shift_all};
use export_cell::{ArriveFault, ExportCell, NotRetuned, Outdated, Place};
use export_queue::Picked;
use export_store::Image;
use lone_export::{Arrived, NotAttached, Step, StepAnswer};
use nbd_base::NoMemory;
use nbd_commands::{ExportConfig, Rates};
use nbd_wire::Request;
use reply_box::{NotOpen, Taken};
use std::alloc::Allocator;
use std::collections::VecDeque;
use std::marker::Model;
use tag_clock::{Moment, Phase, ShareClock, Tags, Tuning};

/// The tags of a request in service.
#[derive(Clone, Copy, Debug, PartialEq, Eq, Drop)]
pub(crate) struct Sent {
    pub(crate) number: u64,
    pub(crate) tags: Tags,
}

/// An export, with the tags of its requests in the order of their numbers.
#[derive(Drop)]
pub(crate) struct Member<I: Image> {
    cell: ExportCell<I>,
    shares: ShareClock,
    waiting: VecDeque<Tags, I::Alloc>,
    out: Vec<Sent, I::Alloc>,
}

impl<I: Image> Model for Member<I> {
    ghost use Rattle.std.specs.Vec.{vec_capacity};
    ghost use Rattle.std.specs.VecDeque.{deque_capacity};
    ghost use Rattle.server_core.specs.Members.{Standing, standing_of, IsMember};

    ghost Value = { Standing };

    ghost view = { λ m.
        standing_of (record {
          whole = m.cell.live;
          journal = m.cell.journal;
          room = m.cell.room;
          share = m.shares;
          waiting = m.waiting.items;
          waiting_room = deque_capacity m.waiting;
          out = m.out.items;
          out_room = vec_capacity m.out;
        }) };

    ghost invariant = { λ m.
        IsMember (record {
          whole = m.cell.live;
          journal = m.cell.journal;
          room = m.cell.room;
          share = m.shares;
          waiting = m.waiting.items;
          waiting_room = deque_capacity m.waiting;
          out = m.out.items;
          out_room = vec_capacity m.out;
        }) };
}

impl<I: Image> Member<I> {
    ghost use Rattle.server_core.specs.Members.{opening_standing, slot_in, IsSeated, with_log, logged_as, Went, WentOr, Retunes, IsReservedAt, IsTurnedAwayAt, WantsMemory, Performs, Picks, Arrives, shifted_standing, told_tags};
    ghost use Rattle.server_table.specs.Ways.{part_shifted};
    ghost use Rattle.server_table.specs.Order.{IsNumbered, head_tags};
    ghost use Rattle.server_table.specs.Picks.{part_picked};
    ghost use Rattle.server_core.specs.Kept.{AreShort, TagsInRange};
    ghost use Rattle.server_core.specs.Journals.{ComesOfJournal};

    /// An export in its opening state. All the room that its requests will want is taken here.
    pub(crate) fn new(
        alloc: I::Alloc,
        config: &ExportConfig<I::Alloc>,
        inflight: usize,
    ) -> Result<Self, NoMemory>
        requires { IsWithin 4096 inflight }
        ensures { IfOk result (λ member. (member ≡ opening_standing inflight (terms_of config.now))
            × AreShort (terms_of config.now).rates) }
    {
        let Some(tuning) = Tuning::new(config.reservation(), config.limit(), config.weight()) else {
            unreachable!();
        };
        let cell = ExportCell::new(alloc, config, inflight)?;
        let waiting = VecDeque::with_capacity(alloc, config.depth())?;
        let out = Vec::with_capacity(alloc, inflight)?;
        Ok(Member {
            cell,
            shares: ShareClock::new(tuning.r_interval(), tuning.p_interval()),
            waiting,
            out,
        })
    }

    /// Nothing more arrives on the session.
    pub(crate) fn leave(&mut self, session: u64) -> Result<(), NotOpen>
        ensures went { Went {A = I.Alloc} self.old self.new (Step.Leave session)
            (step_answer_of_leave result) }
        ensures journal { JournalMove {A = I.Alloc} self.old.part.terms (Step.Leave session)
            (Some (step_answer_of_leave result)) self.old.journal self.new.journal }
    {
        self.cell.leave(session)
    }

    /// The session is dropped with its replies.
    pub(crate) fn gone(&mut self, session: u64) -> Result<(), NotOpen>
        ensures went { Went {A = I.Alloc} self.old self.new (Step.Gone session)
            (step_answer_of_gone result) }
        ensures journal { JournalMove {A = I.Alloc} self.old.part.terms (Step.Gone session)
            (Some (step_answer_of_gone result)) self.old.journal self.new.journal }
    {
        self.cell.gone(session)
    }

    /// The oldest reply of the session is taken.
    pub(crate) fn take(&mut self, session: u64) -> Result<Taken<I::Alloc>, NotOpen>
        ensures went { Went {A = I.Alloc} self.old self.new (Step.Take session)
            (step_answer_of_take result) }
        ensures journal { JournalMove {A = I.Alloc} self.old.part.terms (Step.Take session)
            (Some (step_answer_of_take result)) self.old.journal self.new.journal }
    {
        self.cell.take(session)
    }

    /// Opens a session and gives its number.
    pub(crate) fn attach(&mut self) -> Result<u64, NotAttached>
        ensures step { WentOr {A = I.Alloc} self.old self.new Step.Attach
            (step_answer_of_attach result) }
        ensures memory { WantsMemory self.old result }
        ensures journal { JournalMove {A = I.Alloc} self.old.part.terms Step.Attach
            (step_answer_of_attach result) self.old.journal self.new.journal }
    {
        self.cell.attach()
    }

    /// The rates are others from now on.
    pub(crate) fn retune(&mut self, rates: Rates) -> Result<(), NotRetuned>
        ensures retunes { Retunes self.old self.new rates result }
        ensures short { AreShort self.old.part.rates → AreShort self.new.part.rates }
        ensures journal { JournalMove {A = I.Alloc} self.old.part.terms (Step.Retune rates)
            (step_answer_of_retuned result) self.old.journal self.new.journal }
    {
        if let Err(refused) = self.cell.retune(rates) {
            return Err(refused);
        }
        let tuning = rates.tuning();
        // Asked for what its contract tells: a second at most.
        let _ = tuning.l_interval();
        self.shares.retune(tuning.r_interval(), tuning.p_interval());
        Ok(())
    }

    /// The export with its journal.
    pub(crate) fn cell(&self) -> &ExportCell<I>
        ensures terms { result.now.live.terms ≡ self.now.part.terms }
        ensures inflight { result.now.live.inflight ≡ self.now.inflight }
        ensures live { result.now.live.state ≡ alone_of self.now.part }
        ensures journal { result.now.journal ≡ self.now.journal }
        ensures kept { IsJournal result.now.live result.now.journal }
    {
        self.cell.laws();
        &self.cell
    }

    /// Exchanges the pages that writes have put others in place of for empty lists.
    pub(crate) fn sweep(&mut self, outdated: &mut Outdated<I::Alloc>)
        ensures { self.new ≡ self.old }
    {
        self.cell.sweep(outdated);
    }

    /// Makes some of the steps that are queued for its base (`ExportCell::catch_up`).
    pub(crate) fn catch_up(&mut self, most: usize)
        ensures { self.new ≡ self.old }
    {
        self.cell.catch_up(most);
    }

    /// Does nothing: its contract says what is true of every member.
    pub(crate) fn kept(&self)
        ensures journal { ComesOfJournal self.now }
        ensures seated { IsSeated self.now }
    {
        self.cell.laws();
        self.cell.live().laws();
    }

    /// The slot in which the request of this number is in service.
    pub(crate) fn slot_of(&self, number: u64) -> Option<usize>
        ensures slot { result ≡ slot_in self.now.seats number }
        ensures out { is_some result
            ≡ is_some (find (λ entry. entry.number == number) self.now.part.out) }
    {
        self.cell.live().slot_of(number)
    }

    /// How many steps were counted.
    pub(crate) fn steps(&self) -> u64
        ensures { result ≡ self.now.part.count }
    {
        self.cell.steps()
    }

    /// How many requests wait.
    pub(crate) fn waiting(&self) -> usize
        ensures { result ≡ length self.now.part.waiting }
    {
        self.cell.live().waiting()
    }

    /// The tags of the request that waits at this place, from 0 for the first, with its number.
    fn tags_at(&self, place: usize) -> Option<(u64, Tags)>
        ensures { result ≡ option_map told_tags (slice_get self.now.part.waiting place) }
    {
        let Some(tags) = tags_in(&self.waiting, place) else {
            return None;
        };
        let Some(number) = self.cell.live().number_at(place) else {
            return None;
        };
        Some((number, tags))
    }

    /// The tags of the requests that wait, each with its number.
    pub(crate) fn tags(&self, alloc: I::Alloc) -> Result<Vec<(u64, Tags), I::Alloc>, NoMemory>
        ensures { IfOk result (λ told. told.items ≡ map told_tags self.now.part.waiting) }
    {
        let count = self.waiting();
        let mut told = Vec::with_capacity(alloc, count)?;
        for place in 0..count {
            let Some(one) = self.tags_at(place) else {
                unreachable!();
            };
            told.push(one)?;
        }
        Ok(told)
    }

    /// Asks what becomes of a request of a session, and makes room for it (`ExportCell::reserve`).
    pub(crate) fn reserve(
        &mut self,
        session: u64,
        request: &Request<I::Alloc>,
    ) -> Result<Place<I::Alloc>, ArriveFault>
        ensures standing { self.new ≡ logged_as self.new self.old }
        ensures reserved { IfOk result (λ place. IsReservedAt self.new session request.now place) }
        ensures journal { OnOk result (self.new.journal ≡ advanced self.old.part.terms
            (surplus (length request.now.payload) self.old.journal.log) self.old.journal) }
        ensures fault { IfErr result (λ fault.
            IsTurnedAwayAt self.old self.new session request.now fault) }
    {
        self.cell.reserve(session, request)
    }

    /// The request whose place `reserve` gave arrives at a moment.
    pub(crate) fn arrive(
        &mut self,
        session: u64,
        moment: Moment,
        request: Request<I::Alloc>,
        place: Place<I::Alloc>,
    ) -> Arrived
        requires in_range { TagsInRange self.old.part }
        requires short { AreShort self.old.part.rates }
        requires reserved { IsReservedAt self.old session request place }
        ensures arrives { Arrives I.Alloc self.old self.new session moment request result }
        ensures journal { self.new.journal
            ≡ noted (Step.Arrive session moment request) self.old.journal }
    {
        // Asked for what its contract tells: a moment is below 2^62.
        let _ = moment.nanoseconds();
        match self.cell.enter(session, moment, request, place) {
            Arrived::Accepted { number, limit_tag } => {
                let (r, p) = self.shares.admit(moment);
                put_behind(&mut self.waiting, Tags { r, l: limit_tag, p });
                Arrived::Accepted { number, limit_tag }
            }
            Arrived::Answered(error) => Arrived::Answered(error),
        }
    }

    /// The P tags fall where a request waits.
    pub(crate) fn shift(&mut self, delta: i128)
        requires { TagsInRange (part_shifted delta self.old.part) }
        ensures { self.new ≡ shifted_standing delta self.old }
    {
        if self.waiting.is_empty() {
            return;
        }
        shift_all(&mut self.waiting, delta);
        self.shares.shift(delta);
    }

    /// The tags of the first request that waits.
    pub(crate) fn first(&self) -> Option<Tags>
        ensures { result ≡ head_tags self.now.part.waiting }
    {
        tags_in(&self.waiting, 0)
    }

    /// The first request that waits is in service now, chosen by this phase.
    pub(crate) fn pick(&mut self, phase: Phase) -> Option<Picked>
        requires waiting { 0 < length self.old.part.waiting }
        requires room { length self.old.part.out < self.old.inflight }
        requires numbered { IsNumbered (self.old.part.out ++ self.old.part.waiting) }
        requires in_range { TagsInRange (part_picked phase self.old.part) }
        ensures picked { IfSome result (λ picked.
            Picks self.old self.new phase (record { number = picked.number; slot = picked.slot })) }
        ensures journal { IfSome result (λ picked. JournalMove {A = I.Alloc} self.old.part.terms
            Step.Pick (Some (StepAnswer.Picked picked.number)) self.old.journal self.new.journal) }
        ensures some { IsSome result }
    {
        let Some(tags) = self.waiting.pop_front() else {
            return None;
        };
        let Some(picked) = self.cell.pick() else {
            return None;
        };
        self.out.push_reserved(Sent {
            number: picked.number,
            tags,
        });
        give_credit(&mut self.waiting, &mut self.shares, phase);
        Some(picked)
    }

    /// The request that is in service in `slot` under `number` is done, and its reply goes to its session. The answer
    /// tells whether memory was there for it; None where the slot doesn't hold that number.
    pub(crate) fn perform(&mut self, slot: usize, number: u64) -> Option<bool>
        ensures some { IfSome result (λ memory. (slot_in self.old.seats number ≡ Some slot)
            × Performs I.Alloc self.old self.new number memory) }
        ensures journal { IfSome result (λ memory.
            JournalMove {A = I.Alloc} self.old.part.terms (Step.Perform number memory) (Some (Performed memory)) self.old.journal self.new.journal) }
        ensures none { IfNone result ((slot_in self.old.seats number ≢ Some slot)
            × (self.new ≡ self.old)) }
    {
        let Some(memory) = self.cell.perform(slot, number) else {
            return None;
        };
        forget(&mut self.out, number);
        Some(memory)
    }
}

fn tags_in<A: Allocator>(waiting: &VecDeque<Tags, A>, place: usize) -> Option<Tags>
    ensures { result ≡ slice_get waiting.now.items place }
{
    match waiting.get(place) {
        Some(tags) => Some(*tags),
        None => None,
    }
}

/// The request of this number is in service no longer.
fn forget<A: Allocator>(out: &mut Vec<Sent, A>, number: u64)
    ensures out { out.new.items ≡ filter (λ one. not (one.number == number)) out.old.items }
    ensures room { vec_capacity out.new ≡ vec_capacity out.old }
{
    out.retain(|one| one.number != number);
}
