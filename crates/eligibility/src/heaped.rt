//! The form of three heaps: by R tag, of the throttled exports by L tag, and of the ready ones by P tag.
ghost use Rattle.std.specs.Prelude.{◌≡◌, ◌≤◌, ◌<◌, ◌^◌, ℕ, ℤ, pos, List, length, map, slice_set, slice_index_or, replicate, Option, Some, None, IfOk};
ghost use Rattle.tag_clock.specs.declared.Tags.{Tags};
ghost use Rattle.nbd_base.specs.Range.{InRange, IsOptionInRange};
ghost use Rattle.tag_clock.specs.Tags.{AreInRange};
ghost use Rattle.nbd_base.specs.Least.{least};
ghost use Rattle.index_heap.specs.Keys.{keys_less, least_key};
ghost use Rattle.eligibility.specs.Choice.{choice, all_shifted, AllInRange, IsSlotInRange};
ghost use Rattle.eligibility.specs.Indexed.{slot_p, IsHeld, IsSplit, AllLate, IsIndexed, chosen_of};
ghost use Rattle.eligibility.specs.NextDue.{IsNextDue, IsNeverDue, key_alone};

use crate::Eligibility;
use crate::slots::{idle_slots, shift_all};
use crate::soonest::{l_of, lesser_of, not_before, r_of};
use index_heap::IndexHeap;
use nbd_base::NoMemory;
use std::alloc::Allocator;
use std::marker::Model;
use tag_clock::{Moment, Phase, Tags};

/// The tags by export, and three heaps over them.
///
/// A choice takes O(log n) for each export whose L tag has become due since the last choice, and else O(1), as what is due
/// next does; a shift takes O(n), n the number of exports.
#[derive(Drop)]
pub struct Heaped<A: Allocator + Copy> {
    slots: Vec<Option<Tags>, A>,
    /// By R tag, the active exports that have one.
    reserved: IndexHeap<A>,
    /// By L tag, the active exports whose L tag was not yet seen to be due.
    throttled: IndexHeap<A>,
    /// By P tag, the other active exports.
    ready: IndexHeap<A>,
    /// The greatest moment that was asked for.
    asked: Moment,
}

impl<A: Allocator + Copy> Model for Heaped<A> {
    ghost use Rattle.std.specs.Prelude.{List, Option, ℕ};
    ghost use Rattle.tag_clock.specs.declared.Tags.{Tags};
    ghost use Rattle.eligibility.specs.Indexed.{IsIndexed};

    ghost Value = { List (Option Tags) × ℕ };

    ghost view = { λ h. (h.slots.items, h.asked) };

    ghost invariant = { λ h. IsIndexed h.asked h.slots.items h.reserved h.throttled h.ready };
}

/// The P tag, where the export is active.
fn p_of(slot: Option<Tags>) -> Option<i128>
    ensures { result ≡ slot_p slot }
{
    match slot {
        Some(tags) => Some(tags.p),
        None => None,
    }
}

/// The least key of a heap.
fn key_of(least: Option<(u32, i128)>) -> Option<i128>
    ensures { result ≡ key_alone least }
{
    match least {
        Some((_, key)) => Some(key),
        None => None,
    }
}

/// Moves what is due from the throttled to the ready.
fn release<A: Allocator + Copy>(
    slots: &[Option<Tags>],
    throttled: &mut IndexHeap<A>,
    ready: &mut IndexHeap<A>,
    now: i128,
)
    requires split { IsSplit now slots.now throttled.old ready.old }
    requires in_range { AllInRange slots.now }
    ensures split { IsSplit now slots.now throttled.new ready.new }
    ensures late { AllLate now throttled.new }
{
    while let Some((export, limit)) = throttled.least() {
        if limit > now {
            return;
        }
        throttled.put(export, None);
        ready.put(export, p_of(slots[export as usize]));
    }
}

/// The choice from the least R tag and the least P tag of the ready.
fn chosen(
    reserved: Option<(u32, i128)>,
    ready: Option<(u32, i128)>,
    now: i128,
) -> Option<(u32, Phase)>
    ensures { result ≡ chosen_of now reserved ready }
{
    match (reserved, ready) {
        (Some((export, r)), _) if r <= now => Some((export, Phase::Reservation)),
        (_, Some((export, _))) => Some((export, Phase::Weight)),
        _ => None,
    }
}

impl<A: Allocator + Copy> Heaped<A> {
    /// Gives an export the tags of another first request, throttled at first, or none.
    fn place(&mut self, export: u32, slot: Option<Tags>)
        requires export { export < length self.old.0 }
        requires in_range { IsSlotInRange slot }
        ensures { self.new ≡ (slice_set self.old.0 export slot, self.old.1) }
    {
        self.reserved.put(export, r_of(slot));
        self.throttled.put(export, l_of(slot));
        self.ready.put(export, None);
        self.slots[export as usize] = slot;
    }
}

impl<A: Allocator + Copy> Eligibility for Heaped<A> {
    type Alloc = A;

    ghost contents = { λ s. s.0 };

    ghost asked = { λ s. s.1 };

    fn new(alloc: A, n: u32) -> Result<Self, NoMemory> {
        let slots = idle_slots(alloc, n as usize)?;
        let reserved = IndexHeap::new(alloc, n)?;
        let throttled = IndexHeap::new(alloc, n)?;
        let ready = IndexHeap::new(alloc, n)?;
        Ok(Heaped {
            slots,
            reserved,
            throttled,
            ready,
            asked: Moment::zero(),
        })
    }

    fn enter(&mut self, export: u32, tags: Tags) {
        self.place(export, Some(tags));
    }

    fn leave(&mut self, export: u32) {
        self.place(export, None);
    }

    fn rekey(&mut self, export: u32, next: Tags) {
        self.place(export, Some(next));
    }

    fn shift(&mut self, delta: i128) {
        shift_all(&mut self.slots, delta);
        self.ready.shift(delta);
    }

    fn choose(&mut self, now: Moment) -> Option<(u32, Phase)> {
        self.asked = now;
        release(
            self.slots.as_slice(),
            &mut self.throttled,
            &mut self.ready,
            now.tag(),
        );
        chosen(self.reserved.least(), self.ready.least(), now.tag())
    }

    fn next_due(&self, now: Moment) -> Option<i128> {
        if self.ready.least().is_some() {
            return Some(now.tag());
        }
        let reservation = key_of(self.reserved.least());
        let limit = key_of(self.throttled.least());
        not_before(now.tag(), lesser_of(reservation, limit))
    }
}
