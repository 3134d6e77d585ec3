//! An export on which steps are made that another one made before.
ghost use Rattle.std.specs.Prelude.{◌≡◌, ◌≤◌, ◌+◌, ◌^◌, IfOk, IfErr, IfNone, OnOk, OnSome};
ghost use Rattle.nbd_commands.specs.Terms.{terms_of};
ghost use Rattle.nbd_commands.specs.Exports.{IsWithin};
ghost use Rattle.lone_export.specs.Lone.{opening_of, DoesAll, MayReplay};
ghost use Rattle.export_cell.specs.Past.{serving, Goes};

use super::remaking::{made_at_once, made_in_place, remade};
use crate::deferred::Deferred;
use crate::work::work_of;
use export_store::{Image, Swept};
use lone_export::{Lone, Step};
use nbd_base::NoMemory;
use nbd_commands::ExportConfig;
use nbd_wire::RequestHead;
use std::marker::Model;
use std::mem;

/// How many steps follow the arrival of a request.
const STEPS_SERVING: usize = 3;

/// An export on which steps are made again.
///
/// Its latest steps may be deferred: those of a request that comes to an export without any other are made at once, with its
/// Perform, or where it is a READ with the step that takes its reply, which nobody looks at: so no data are read.
#[derive(Drop)]
pub(super) struct Replica<I: Image> {
    lone: Lone<I>,
    deferred: Deferred<I::Alloc>,
}

impl<I: Image> Model for Replica<I> {
    ghost use Rattle.lone_export.specs.Lone.{Whole};
    ghost use Rattle.export_cell.specs.Past.{past_of, IsPast};

    ghost Value = { Whole };

    ghost view = { λ b. past_of b.lone b.deferred };

    ghost invariant = { λ b. IsPast b.lone b.deferred };
}

impl<I: Image> Replica<I> {
    /// An export in its opening state.
    pub(super) fn new(
        alloc: I::Alloc,
        config: &ExportConfig<I::Alloc>,
        inflight: usize,
    ) -> Result<Self, NoMemory>
        requires { IsWithin 4096 inflight }
        ensures { IfOk result (λ replica. replica ≡ opening_of (terms_of config.now) inflight) }
    {
        let lone = Lone::new(alloc, config, inflight)?;
        Ok(Replica {
            lone,
            deferred: Deferred::Nothing,
        })
    }

    /// How many steps were counted.
    pub(super) fn steps(&self) -> u64
        ensures count { result ≡ self.now.state.count }
        ensures few { result ≤ 2 ^ 58 + 3 }
    {
        self.lone.laws();
        match &self.deferred {
            Deferred::Nothing => self.lone.steps(),
            Deferred::Arrived(_) => self.lone.steps() + 1,
            Deferred::Picked(_) => self.lone.steps() + 2,
            Deferred::Read(_) => self.lone.steps() + 3,
            Deferred::Performed(_) => self.lone.steps() + 1,
        }
    }

    /// The bytes as they were.
    pub(super) fn image(&self) -> &I
        ensures { I.bytes result.now ≡ self.now.state.image }
    {
        self.lone.image()
    }

    /// Exchanges the list of what writes and zeros have replaced for one that is lent (`Image::sweep`).
    pub(super) fn sweep(&mut self, swept: &mut Swept<I::Alloc>)
        ensures { self.new ≡ self.old }
    {
        self.lone.sweep(swept);
    }

    /// How much work it is to make a step: one, and what the request is that it performs.
    pub(super) fn work_of(&self, step: &Step<I::Alloc>) -> usize
        ensures { 1 ≤ result }
    {
        match self.performed_by(step) {
            Some(head) => work_of(head) + 1,
            None => 1,
        }
    }

    // The head of the request that a step performs with memory.
    fn performed_by(&self, step: &Step<I::Alloc>) -> Option<RequestHead> {
        match step {
            Step::Perform {
                number,
                memory: true,
            } => self.head_of(*number),
            _ => None,
        }
    }

    // The head of the request that is in service under this number.
    fn head_of(&self, number: u64) -> Option<RequestHead> {
        match &self.deferred {
            Deferred::Picked(arrival) if number == self.lone.next_number() => {
                Some(arrival.request.head())
            }
            _ => self.lone.head_of(number),
        }
    }

    // Offers the pages of another image to the request that a step performs.
    fn offer(&mut self, step: &Step<I::Alloc>, other: &I)
        ensures { self.new ≡ self.old }
    {
        if let Some(head) = self.performed_by(step) {
            self.lone.offer(head, other);
        }
    }

    /// Makes a step, as it was made before. It may take pages of another image that are the same. Where memory is refused it comes
    /// back.
    pub(super) fn replay(&mut self, step: Step<I::Alloc>, other: &I) -> Result<(), Step<I::Alloc>>
        requires { MayReplay self.old step }
        ensures ok { OnOk result (Goes {A = I.Alloc} self.old self.new step) }
        ensures err { IfErr result (λ back. (back ≡ step) × (self.new ≡ self.old)) }
    {
        self.offer(&step, other);
        self.make(step)
    }

    /// Makes what follows the arrival of a request that is deferred: it is picked, performed with memory, and its reply is taken. It
    /// may take pages of another image that are the same. Tells how much work that was. None where no such request is deferred, or
    /// memory is refused: then nothing is done.
    pub(super) fn make_at_once(&mut self, number: u64, session: u64, other: &I) -> Option<usize>
        ensures made { OnSome result (DoesAll {A = I.Alloc} self.old self.new
            (serving number session)) }
        ensures stays { IfNone result (self.new ≡ self.old) }
    {
        let Some(head) = self.arrived() else {
            return None;
        };
        self.lone.offer(head, other);
        if !made_at_once(&mut self.lone, &mut self.deferred, number, session) {
            return None;
        }
        Some(work_of(head).saturating_add(STEPS_SERVING))
    }

    // The head of the request whose arrival is deferred.
    fn arrived(&self) -> Option<RequestHead> {
        match &self.deferred {
            Deferred::Arrived(arrival) => Some(arrival.request.head()),
            _ => None,
        }
    }

    // Makes a step, likewise.
    fn make(&mut self, step: Step<I::Alloc>) -> Result<(), Step<I::Alloc>>
        requires { MayReplay self.old step }
        ensures ok { OnOk result (Goes {A = I.Alloc} self.old self.new step) }
        ensures err { IfErr result (λ back. (back ≡ step) × (self.new ≡ self.old)) }
    {
        if made_in_place(&mut self.lone, &mut self.deferred, &step) {
            return Ok(());
        }
        let deferred = mem::replace(&mut self.deferred, Deferred::Nothing);
        match remade(&mut self.lone, deferred, step) {
            Ok(deferred) => {
                self.deferred = deferred;
                Ok(())
            }
            Err(back) => {
                self.deferred = back.deferred;
                Err(back.step)
            }
        }
    }
}
