//! The export as it was before the first step of its log.
ghost use Rattle.std.specs.Prelude.{◌≡◌, ◌<◌, ◌≤◌, ◌==◌, true, length, is_some, IfOk, IfErr, IfSome, IfNone, OnOk, OnErr, OnSome};
ghost use Rattle.nbd_commands.specs.Terms.{terms_of};
ghost use Rattle.nbd_commands.specs.Exports.{IsWithin};
ghost use Rattle.step_log.specs.Steps.{kept_step};
ghost use Rattle.export_cell.specs.Journal.{IsLogged};
ghost use Rattle.export_cell.specs.Past.{serving};
ghost use Rattle.export_cell.specs.Based.{Follows, FollowsAll, IsCaughtUp, IsShort, has_place, opening_based, shorter, whole_of};

mod remaking;
mod replica;

use export_store::{Image, Swept};
use lone_export::Step;
use nbd_base::NoMemory;
use nbd_commands::ExportConfig;
use replica::Replica;
use std::collections::VecDeque;
use std::marker::Model;
use step_log::{payload_of, widen};

/// No more steps are queued.
const QUEUED: usize = 8192;

/// The most bytes of payload in a queue: 64 MiB and the longest request.
const QUEUED_PAYLOAD: usize = 100_663_296;

/// An export as it was some steps ago.
///
/// Its latest steps may be queued: they aren't made yet, but it is as it is once they are. So a hold of the server makes a few of
/// them, where many went into it at once.
#[derive(Drop)]
pub struct Base<I: Image> {
    replica: Replica<I>,
    // The steps that aren't made yet, oldest first.
    queue: VecDeque<Step<I::Alloc>, I::Alloc>,
    // The bytes of payload in the queue.
    payload: usize,
}

impl<I: Image> Model for Base<I> {
    ghost use Rattle.step_log.specs.Steps.{kept_log};
    ghost use Rattle.export_cell.specs.Based.{Based, based, IsBased};

    ghost Value = { Based };

    ghost view = { λ b. based b.replica (kept_log b.queue.items) };

    ghost invariant = { λ b. IsBased b.replica (kept_log b.queue.items) b.payload };
}

impl<I: Image> Base<I> {
    /// An export in its opening state.
    pub(crate) fn new(
        alloc: I::Alloc,
        config: &ExportConfig<I::Alloc>,
        inflight: usize,
    ) -> Result<Self, NoMemory>
        requires { IsWithin 4096 inflight }
        ensures { IfOk result (λ base. base ≡ opening_based (terms_of config.now) inflight) }
    {
        let replica = Replica::new(alloc, config, inflight)?;
        Ok(Base {
            replica,
            queue: VecDeque::new(alloc),
            payload: 0,
        })
    }

    /// How many steps were counted.
    pub fn steps(&self) -> u64
        ensures { result ≡ self.now.state.count }
    {
        self.replica.steps() + self.queue.len() as u64
    }

    /// How many of its steps are queued: 8,192 at most, with 96 MiB of payload.
    pub fn queued(&self) -> usize
        ensures number { result ≡ length self.now.queue }
        ensures short { IsShort self.now.queue }
    {
        let _ = &self.payload;
        self.queue.len()
    }

    /// The bytes as they were. None where steps are queued: they aren't there yet.
    pub fn image(&self) -> Option<&I>
        ensures bytes { IfSome result (λ image. I.bytes image.now ≡ self.now.state.image) }
        ensures there { is_some result ≡ (length self.now.queue == 0) }
    {
        if !self.queue.is_empty() {
            return None;
        }
        Some(self.replica.image())
    }

    /// Exchanges the list of what writes and zeros have replaced for one that is lent (`Image::sweep`).
    pub(crate) fn sweep(&mut self, swept: &mut Swept<I::Alloc>)
        ensures { self.new ≡ self.old }
    {
        self.replica.sweep(swept);
    }

    /// Makes the oldest steps that are queued, until they came to so much work or one found no memory. Tells how much is left to
    /// be done.
    pub(crate) fn catch_up(&mut self, most: usize, live: &I) -> usize
        ensures { IsCaughtUp most self.old self.new }
    {
        let mut left = most;
        while left > 0 && self.queued() > 0 {
            let Ok(work) = self.make_oldest(live) else {
                return left;
            };
            left = left.saturating_sub(work);
        }
        left
    }

    /// One step more, which is made as it was made before: at once where none is queued and there is work left to be done, and
    /// else it is queued behind the others. Tells how much work is left to be done then. Where memory is refused the step comes
    /// back.
    pub(crate) fn add(
        &mut self,
        step: Step<I::Alloc>,
        left: usize,
        live: &I,
    ) -> Result<usize, Step<I::Alloc>>
        requires { IsLogged self.old.terms self.old.inflight self.old.state (kept_step step) }
        ensures ok { IfOk result (λ more. Follows self.old self.new (kept_step step)) }
        ensures err { IfErr result (λ back. (back ≡ step)
            × (whole_of self.new ≡ whole_of self.old)) }
    {
        if left > 0 && self.queued() == 0 {
            return self.make(step, left, live);
        }
        self.put_off(step, live)
    }

    /// What follows the arrival of a request, which was the step before: it is picked, performed with memory, and its reply is taken.
    /// All three steps are made at once, where none is queued and there is work left to be done. Tells how much is left then. None
    /// where they aren't made so: then nothing is done.
    pub(crate) fn add_serving(
        &mut self,
        number: u64,
        session: u64,
        left: usize,
        live: &I,
    ) -> Option<usize>
        ensures made { OnSome result (FollowsAll self.old self.new (serving number session)) }
        ensures stays { IfNone result (self.new ≡ self.old) }
    {
        if left == 0 || self.queued() != 0 {
            return None;
        }
        match self.replica.make_at_once(number, session, live) {
            Some(work) => Some(left.saturating_sub(work)),
            None => None,
        }
    }

    // Makes a step where none is queued.
    fn make(&mut self, step: Step<I::Alloc>, left: usize, live: &I) -> Result<usize, Step<I::Alloc>>
        requires first { length self.old.queue ≡ 0 }
        requires logged { IsLogged self.old.terms self.old.inflight self.old.state
            (kept_step step) }
        ensures ok { IfOk result (λ more. Follows self.old self.new (kept_step step)) }
        ensures err { IfErr result (λ back. (back ≡ step) × (self.new ≡ self.old)) }
    {
        let work = self.replica.work_of(&step);
        if let Err(back) = self.replica.replay(step, live) {
            return Err(back);
        }
        Ok(left.saturating_sub(work))
    }

    // Queues a step behind the others; where they leave no place for it, the oldest are made. No work is left to be done then.
    fn put_off(&mut self, step: Step<I::Alloc>, live: &I) -> Result<usize, Step<I::Alloc>>
        requires { IsLogged self.old.terms self.old.inflight self.old.state (kept_step step) }
        ensures ok { IfOk result (λ more. Follows self.old self.new (kept_step step)) }
        ensures err { IfErr result (λ back. (back ≡ step)
            × (whole_of self.new ≡ whole_of self.old)) }
    {
        let bytes = payload_of(&step);
        if let Err(_) = self.make_place(bytes, live) {
            return Err(step);
        }
        if let Err(_) = widen(&mut self.queue, 1) {
            return Err(step);
        }
        self.queue.push_back_reserved(step);
        self.payload += bytes;
        Ok(0)
    }

    // Makes the oldest steps that are queued, until one with so many bytes of payload has its place behind the others.
    fn make_place(&mut self, bytes: usize, live: &I) -> Result<(), NoMemory>
        requires { bytes ≤ 33554432 }
        ensures same { whole_of self.new ≡ whole_of self.old }
        ensures place { OnOk result (has_place bytes self.new.queue ≡ true) }
    {
        while !self.has_place(bytes) {
            if let Err(error) = self.make_oldest(live) {
                return Err(error);
            }
        }
        Ok(())
    }

    // Whether a step with so many bytes of payload has its place behind those that are queued.
    fn has_place(&self, bytes: usize) -> bool
        requires { bytes ≤ 33554432 }
        ensures { result ≡ has_place bytes self.now.queue }
    {
        self.payload + bytes <= QUEUED_PAYLOAD && self.queue.len() < QUEUED
    }

    // The oldest step that is queued is made. Tells how much work that was.
    fn make_oldest(&mut self, live: &I) -> Result<usize, NoMemory>
        requires { 0 < length self.old.queue }
        ensures ok { IfOk result (λ work. (self.new ≡ shorter 1 self.old) × (1 ≤ work)) }
        ensures err { OnErr result (self.new ≡ self.old) }
    {
        let Some(step) = self.queue.pop_front() else {
            unreachable!();
        };
        let work = self.replica.work_of(&step);
        let bytes = payload_of(&step);
        if let Err(step) = self.replica.replay(step, live) {
            self.queue.push_front_reserved(step);
            return Err(NoMemory);
        }
        self.payload -= bytes;
        Ok(work)
    }
}
