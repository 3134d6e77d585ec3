//! What is read of an export, and what its steps are refused for.
ghost use Rattle.std.specs.Prelude.{◌≡◌, ◌<◌, ◌^◌, nat_le, length, ◌↔◌, IsTrue, option_map, slice_get};
ghost use Rattle.lone_export.specs.Calls.{to_come};
ghost use Rattle.lone_export.specs.Lone.{slot_at, head_at, MayAttach, MayArrive, MayRetune, Admits, IsAdmission, IsInBounds};

use crate::lone::Lone;
use crate::refusal::{Admission, ArriveRefusal, AttachRefusal, RetuneRefusal};
use export_store::Image;
use nbd_commands::verdict;
use nbd_wire::protocol::EIO;
use nbd_wire::{Request, RequestHead};
use reply_box::AdmitFault;

/// The most steps that are counted by attaches, arrivals and retunes: 2^56.
const MOST_STEPS: u64 = 1 << 56;

impl<I: Image> Lone<I> {
    /// How many steps were counted.
    pub fn steps(&self) -> u64
        ensures { result ≡ self.now.state.count }
    {
        self.count
    }

    /// How many requests wait.
    pub fn waiting(&self) -> usize
        ensures { result ≡ length self.now.state.waiting }
    {
        self.queue.waiting()
    }

    /// The number of the request that waits at this place, from 0 for the first.
    pub fn number_at(&self, place: usize) -> Option<u64>
        ensures { result ≡ option_map (λ job. job.number) (slice_get self.now.state.waiting place) }
    {
        self.queue.number_at(place)
    }

    /// Whether fewer requests are in service than may be at once, so that one may be picked.
    pub fn may_pick(&self) -> bool
        ensures { IsTrue result ↔ (length self.now.state.out < self.now.inflight) }
    {
        self.queue.may_pick()
    }

    /// The slot in which the request of this number is in service.
    pub fn slot_of(&self, number: u64) -> Option<usize>
        ensures { result ≡ slot_at self.now number }
    {
        self.queue.slot_of(number)
    }

    /// The head of the request that is in service under this number.
    pub fn head_of(&self, number: u64) -> Option<RequestHead>
        ensures { result ≡ head_at self.now.state number }
    {
        let Some(slot) = self.queue.slot_of(number) else {
            return None;
        };
        let Some(row) = self.queue.held(slot, number) else {
            unreachable!();
        };
        Some(row.request.head())
    }

    /// How many counted steps can still come of what is here, without another attach, arrival or retune: a request that waits
    /// is picked and performed and its reply is taken, and each session leaves and is gone.
    pub fn to_come(&self) -> u64
        ensures { result ≡ to_come self.now.state }
    {
        let waiting = self.queue.waiting() as u64;
        let out = self.queue.in_service() as u64;
        3 * waiting + 2 * out + self.sessions.steps_to_come()
    }

    /// The bytes that are served.
    pub fn image(&self) -> &I
        ensures { I.bytes result.now ≡ self.now.state.image }
    {
        &self.image
    }

    /// What `attach` is refused for, want of memory apart.
    pub fn may_attach(&self) -> Result<(), AttachRefusal>
        ensures { MayAttach self.now result }
    {
        if self.is_worn() {
            return Err(AttachRefusal::Worn);
        }
        if self.sessions.is_full() {
            return Err(AttachRefusal::Full);
        }
        Ok(())
    }

    /// What `arrive` is refused for.
    pub fn may_arrive(&self, session: u64) -> Result<(), ArriveRefusal>
        ensures { MayArrive self.now session result }
    {
        if !self.sessions.is_open(session) {
            return Err(ArriveRefusal::NotOpen);
        }
        if self.is_worn() {
            return Err(ArriveRefusal::Worn);
        }
        match self.sessions.may_admit(session) {
            Ok(()) => Ok(()),
            Err(AdmitFault::Hold) => Err(ArriveRefusal::Hold),
            Err(AdmitFault::NotOpen) => unreachable!(),
        }
    }

    /// What `retune` is refused for.
    pub fn may_retune(&self) -> Result<(), RetuneRefusal>
        ensures { MayRetune self.now result }
    {
        if self.is_worn() {
            return Err(RetuneRefusal::Worn);
        }
        if self.waiting() != 0 {
            return Err(RetuneRefusal::Waiting);
        }
        Ok(())
    }

    // Whether as many steps were counted as attaches, arrivals and retunes may count.
    fn is_worn(&self) -> bool
        ensures { result ≡ nat_le (2 ^ 56) self.now.state.count }
    {
        MOST_STEPS <= self.count
    }

    /// Whether a request of the session would wait, if it arrived.
    pub fn admits(&self, session: u64, request: &Request<I::Alloc>) -> bool
        ensures { IsTrue result ↔ Admits self.now.terms self.now.state session request.now }
    {
        match self.admission(session, request) {
            Ok(Admission::Waits) => true,
            Ok(Admission::Answered(_)) => false,
            Err(_) => false,
        }
    }

    /// What becomes of a request of the session, if it arrives while the export is as it is now.
    pub fn admission(
        &self,
        session: u64,
        request: &Request<I::Alloc>,
    ) -> Result<Admission, ArriveRefusal>
        ensures { IsAdmission I.Alloc self.now session request.now result }
    {
        if let Err(refusal) = self.may_arrive(session) {
            return Err(refusal);
        }
        let error = verdict(&self.info, request);
        if error != 0 {
            return Ok(Admission::Answered(error));
        }
        if self.queue.is_full() {
            return Ok(Admission::Answered(EIO));
        }
        Ok(Admission::Waits)
    }

    /// Does nothing: its contract says what is true of every export.
    ///
    /// Each request in service has a slot of its own; no more wait and no more are in service than may; no session has
    /// more outstanding than its window, and 64 at most are not gone.
    pub fn laws(&self)
        ensures { IsInBounds self.now }
    {
        self.queue.laws();
        self.sessions.laws();
    }
}
