//! The form of a plain list, which a choice searches whole.
ghost use Rattle.std.specs.Prelude.{◌≡◌, List, length, ◌<◌, ◌^◌, map, slice_set, Option, Some, None};
ghost use Rattle.nbd_base.specs.Range.{InRange};
ghost use Rattle.tag_clock.specs.Tags.{AreInRange};
ghost use Rattle.nbd_base.specs.Least.{least, keyed, the_sooner};
ghost use Rattle.eligibility.specs.Choice.{choice, all_shifted, AllInRange, candidates, due_r, due_p, slot_key, slot_shifted, IsSlotInRange};
ghost use Rattle.eligibility.specs.NextDue.{IsNextDue, IsNeverDue};

use crate::Eligibility;
use crate::slots::{idle_slots, shift_all};
use crate::soonest::{least_tag, not_before};
use nbd_base::NoMemory;
use std::alloc::Allocator;
use tag_clock::{Moment, Phase, Tags};

/// The tags by export. A choice, a shift and what is due next look at each export.
#[derive(Drop)]
pub struct Listed<A: Allocator + Copy> {
    slots: Vec<Option<Tags>, A>,
    ghost few: { length slots.items < 2 ^ 32 },
}

impl<A: Allocator + Copy> Eligibility for Listed<A> {
    type Alloc = A;

    ghost contents = { λ s. s.slots.items };

    ghost asked = { λ s. 0 };

    fn new(alloc: A, n: u32) -> Result<Self, NoMemory> {
        let slots = idle_slots(alloc, n as usize)?;
        Ok(Listed { slots })
    }

    fn enter(&mut self, export: u32, tags: Tags) {
        self.slots[export as usize] = Some(tags);
    }

    fn leave(&mut self, export: u32) {
        self.slots[export as usize] = None;
    }

    fn rekey(&mut self, export: u32, next: Tags) {
        self.slots[export as usize] = Some(next);
    }

    fn shift(&mut self, delta: i128) {
        shift_all(&mut self.slots, delta);
    }

    fn choose(&mut self, now: Moment) -> Option<(u32, Phase)> {
        let now = now.tag();
        if let Some((_, export)) = least_reservation(&self.slots, now) {
            return Some((export, Phase::Reservation));
        }
        match least_weight(&self.slots, now) {
            Some((_, export)) => Some((export, Phase::Weight)),
            None => None,
        }
    }

    fn next_due(&self, now: Moment) -> Option<i128> {
        not_before(now.tag(), least_tag(&self.slots))
    }
}

/// The least R tag that is due, and its export.
#[tactic(auto, using(crate::proofs::Least::least_more))]
fn least_reservation(slots: &[Option<Tags>], now: i128) -> Option<(i128, u32)>
    requires { length slots.now < 2 ^ 32 }
    ensures { result ≡ least (candidates (due_r now) 0 slots.now) }
{
    let mut best = None;
    for (i, slot) in slots.iter().enumerate() {
        best = sooner(best, reservation_due(slot, now), i as u32);
    }
    best
}

/// The least P tag of those within their limits, and its export.
#[tactic(auto, using(crate::proofs::Least::least_more))]
fn least_weight(slots: &[Option<Tags>], now: i128) -> Option<(i128, u32)>
    requires { length slots.now < 2 ^ 32 }
    ensures { result ≡ least (candidates (due_p now) 0 slots.now) }
{
    let mut best = None;
    for (i, slot) in slots.iter().enumerate() {
        best = sooner(best, weight_due(slot, now), i as u32);
    }
    best
}

/// The R tag, where it is due.
fn reservation_due(slot: &Option<Tags>, now: i128) -> Option<i128>
    ensures { result ≡ slot_key (due_r now) slot.now }
{
    let tags = slot.as_ref()?;
    let r = tags.r?;
    if r <= now { Some(r) } else { None }
}

/// The P tag, where the L tag is due.
fn weight_due(slot: &Option<Tags>, now: i128) -> Option<i128>
    ensures { result ≡ slot_key (due_p now) slot.now }
{
    let tags = slot.as_ref()?;
    if tags.l <= now { Some(tags.p) } else { None }
}

/// The better of the best export so far and another, the first at equal tags.
fn sooner(best: Option<(i128, u32)>, key: Option<i128>, export: u32) -> Option<(i128, u32)>
    ensures { result ≡ the_sooner best (keyed key export) }
{
    match (best, key) {
        (Some((least, _)), Some(key)) if key < least => Some((key, export)),
        (None, Some(key)) => Some((key, export)),
        _ => best,
    }
}
