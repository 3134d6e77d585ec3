//! What a reader's holds took out of the images, for the thread that reads ahead to let go.
ghost use Rattle.std.specs.Prelude.{◌≡◌, Some, None, IfOk};
ghost use Rattle.std.specs.Bool.{OnTrue, OnFalse};
ghost use Rattle.payload.specs.Swept.{nothing};

use export_cell::Outdated;
use nbd_base::NoMemory;
use nbd_policy::OUTDATED_PAGES;
use payload::Spares;
use std::alloc::Global;
use std::marker::Model;
use std::mem;
use std::sync::{Mutex, Wait};

/// What a hold took out of the images, or room for that.
#[derive(Drop)]
struct Discard {
    outdated: Outdated<Global>,
    // Whether it is to be let go.
    is_full: bool,
    // Memory of pages that were let go, for as many as a hold of 1 MiB mostly takes out.
    spares: Spares<Global>,
}

impl Model for Discard {
    ghost use Rattle.std.specs.Prelude.{◌≡◌, Option, Some, None, false, if◌then◌else◌};
    ghost use Rattle.std.specs.declared.alloc.Global.{Global};
    ghost use Rattle.payload.specs.Swept.{nothing};
    ghost use Rattle.export_cell.specs.declared.outdated.Outdated.{Outdated};

    // What is to be let go, where there is something.
    ghost Value = { Option (Outdated Global) };

    ghost view = { λ discard. if discard.is_full then Some discard.outdated else None };

    ghost invariant = { λ discard. discard.is_full ≡ false
        → (discard.outdated.live ≡ nothing) × (discard.outdated.base ≡ nothing) };
}

impl Discard {
    /// Room, and nothing in it.
    fn with_room(alloc: Global) -> Result<Discard, NoMemory>
        ensures { IfOk result (λ discard. discard ≡ None) }
    {
        Ok(Discard {
            outdated: Outdated::with_room(alloc, OUTDATED_PAGES)?,
            is_full: false,
            spares: Spares::with_places(alloc, OUTDATED_PAGES)?,
        })
    }

    /// Takes what a hold took out, gives room with nothing in it in its place, and passes on the memory of pages that were let go. False
    /// where what was taken before isn't let go yet: then nothing is done.
    fn exchange(&mut self, outdated: &mut Outdated<Global>, spares: &mut Spares<Global>) -> bool
        ensures room { OnTrue result (self.old ≡ None) }
        ensures taken { OnTrue result (self.new ≡ Some outdated.old) }
        ensures live { OnTrue result (outdated.new.live ≡ nothing) }
        ensures base { OnTrue result (outdated.new.base ≡ nothing) }
        ensures same { OnFalse result (self.new ≡ self.old) }
        ensures kept { OnFalse result (outdated.new ≡ outdated.old) }
        ensures none { OnFalse result (spares.new ≡ spares.old) }
    {
        if self.is_full {
            return false;
        }
        self.spares.level(spares, 0);
        mem::swap(outdated, &mut self.outdated);
        self.is_full = true;
        true
    }

    /// Lets go what was taken.
    fn let_go(&mut self)
        ensures { self.new ≡ None }
    {
        if self.is_full {
            self.outdated.recycle(&mut self.spares);
            self.is_full = false;
        }
    }
}

/// What the holds of a session's reader took out of the images, for the thread that reads ahead to let go meanwhile.
#[derive(Drop)]
pub struct Discards {
    // None where the other thread doesn't.
    place: Mutex<Option<Discard>>,
}

impl Discards {
    /// The other thread lets go nothing.
    pub fn new() -> Discards {
        Discards {
            place: Mutex::new(None),
        }
    }

    /// Leaves what a hold took out to the other thread, and takes memory of pages that it has let go. False where it lets go nothing, or
    /// isn't done with what was left before.
    pub fn leave(&self, outdated: &mut Outdated<Global>, spares: &mut Spares<Global>) -> bool {
        let Some(mut place) = self.place.try_lock() else {
            return false;
        };
        match &mut *place {
            Some(discard) => discard.exchange(outdated, spares),
            None => false,
        }
    }

    /// Lets go what was left, unless the other thread is about to.
    pub fn let_go(&self) {
        let Some(mut place) = self.place.try_lock() else {
            return;
        };
        if let Some(discard) = &mut *place {
            discard.let_go();
        }
    }

    /// The same in the other thread, which lets go what is left from now on, where there is memory for that.
    pub fn work<R: Wait>(&self, rt: &R, alloc: Global) {
        let mut place = self.place.lock(rt);
        if let Some(discard) = &mut *place {
            discard.let_go();
            return;
        }
        *place = Discard::with_room(alloc).ok();
    }

    /// The other thread lets go nothing any more. What was left is let go.
    pub fn close<R: Wait>(&self, rt: &R) {
        let left = self.place.lock(rt).take();
        drop(left);
    }
}
