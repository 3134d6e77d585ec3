//! How the log is kept short, and how it gets its room.
ghost use Rattle.std.specs.Prelude.{◌≡◌, ◌+◌, ◌<◌, ◌≤◌, length, false, IfOk, IfNone, OnOk, OnErr, OnSome};
ghost use Rattle.lone_export.specs.Calls.{to_come};
ghost use Rattle.export_cell.specs.Journal.{advanced, fits, surplus, HasAdvanced, HasRoom, IsAdvanced, IsTrimmed, IsTrimming};

use crate::cell::ExportCell;
use export_store::Image;
use lone_export::Lone;
use nbd_base::NoMemory;
use step_log::{Rest, payload_of};

/// Before an attach, an arrival or a retune the log has fewer steps.
const ENTRIES: u64 = 4096;

/// The most bytes of payload in a log: 64 MiB.
const PAYLOAD: usize = 67_108_864;

/// The most steps that an attach or an arrival brings, itself among them.
const BROUGHT: usize = 4;

/// How many steps can still come of what is there, with those of an attach or an arrival.
fn steps_brought<I: Image>(live: &Lone<I>) -> usize
    ensures { result ≡ to_come live.now.state + 4 }
{
    live.laws();
    live.to_come() as usize + BROUGHT
}

impl<I: Image> ExportCell<I> {
    // Room for a step that brings so many bytes of payload, and for all the steps that it can bring. So much of the base's work is done.
    pub(super) fn make_room(&mut self, bytes: usize, most: usize) -> Result<(), NoMemory>
        requires { bytes ≤ 33554432 }
        ensures live { self.new.live ≡ self.old.live }
        ensures journal { OnOk result (self.new.journal ≡ advanced self.old.live.terms
            (surplus bytes self.old.journal.log) self.old.journal) }
        ensures room { OnOk result (HasRoom bytes self.new) }
        ensures err { OnErr result (IsAdvanced self.old.live.terms
            (surplus bytes self.old.journal.log) self.old.journal self.new.journal) }
    {
        let left = self.work_off(most);
        if let Err(error) = self.trim(bytes, left) {
            return Err(error);
        }
        let more = steps_brought(&self.live);
        if let Err(error) = self.log.widen(more) {
            return Err(error);
        }
        Ok(())
    }

    // Some of the steps that are queued are made. Tells how much work is left to be done.
    pub(super) fn work_off(&mut self, most: usize) -> usize
        ensures { self.new ≡ self.old }
    {
        self.base.catch_up(most, self.live.image())
    }

    // The oldest steps go into the base, as many as have to, and so much work at most is done at once.
    fn trim(&mut self, bytes: usize, most: usize) -> Result<(), NoMemory>
        requires { bytes ≤ 33554432 }
        ensures ok { OnOk result (IsTrimmed bytes self.old self.new) }
        ensures err { OnErr result (IsTrimming bytes self.old self.new) }
    {
        let mut left = most;
        while !self.is_fit(bytes) {
            match self.advance(bytes, left) {
                Ok(more) => left = more,
                Err(error) => return Err(error),
            }
        }
        Ok(())
    }

    // Whether a step that brings so many bytes of payload needs no trimming.
    fn is_fit(&self, bytes: usize) -> bool
        requires { bytes ≤ 33554432 }
        ensures { result ≡ fits bytes self.now.journal.log }
    {
        self.kept() < ENTRIES && self.payload + bytes <= PAYLOAD
    }

    // Some of the oldest steps go into the base, all of which have to. Tells how much work is left to be done then.
    fn advance(&mut self, bytes: usize, left: usize) -> Result<usize, NoMemory>
        requires few { bytes ≤ 33554432 }
        requires full { fits bytes self.old.journal.log ≡ false }
        ensures ok { IfOk result (λ more. IsTrimming bytes self.old self.new) }
        ensures shorter { OnOk result (length self.new.journal.log < length self.old.journal.log) }
        ensures err { OnErr result (self.new ≡ self.old) }
    {
        if self.kept() >= ENTRIES + 2 {
            if let Some(more) = self.advance_three(left) {
                return Ok(more);
            }
        }
        self.advance_one(left)
    }

    // What follows the arrival that went into the base last goes there at once, where its request is served behind it.
    fn advance_three(&mut self, left: usize) -> Option<usize>
        ensures some { OnSome result (HasAdvanced 3 self.old self.new
            × (length self.new.journal.log + 3 ≡ length self.old.journal.log)) }
        ensures none { IfNone result (self.new ≡ self.old) }
    {
        let Rest::Serving { number, session } = self.log.rest() else {
            return None;
        };
        let Some(more) = self
            .base
            .add_serving(number, session, left, self.live.image())
        else {
            return None;
        };
        self.log.set_rest(Rest::Nothing);
        Some(more)
    }

    // The oldest step goes into the base. Tells how much work is left to be done then.
    fn advance_one(&mut self, left: usize) -> Result<usize, NoMemory>
        requires { 0 < length self.old.journal.log }
        ensures ok { IfOk result (λ more. HasAdvanced 1 self.old self.new) }
        ensures shorter { OnOk result
            (length self.new.journal.log + 1 ≡ length self.old.journal.log) }
        ensures err { OnErr result (self.new ≡ self.old) }
    {
        if let Some((step, rest)) = self.log.rest().split() {
            let Ok(more) = self.base.add(step, left, self.live.image()) else {
                return Err(NoMemory);
            };
            self.log.set_rest(rest);
            return Ok(more);
        }
        let Some(step) = self.log.pop() else {
            unreachable!();
        };
        let bytes = payload_of(&step);
        match self.base.add(step, left, self.live.image()) {
            Ok(more) => {
                self.payload -= bytes;
                Ok(more)
            }
            Err(step) => {
                self.log.put_back(step);
                Err(NoMemory)
            }
        }
    }
}
