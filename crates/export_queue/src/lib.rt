//! The requests of one export: those that wait, in a ring, and those that are out, in a slab.
//!
//! A queue numbers its items 0, 1, 2, .. in the order in which they come. An item waits, then is out in a slot,
//! then is finished. A slot is used again once its item is finished; a number never is. So a slot and a number
//! together name an item, and a slot that is held under another number names none.
//!
//! After [`ExportQueue::new`] nothing takes memory: the ring and the slab have all their room from then on.
#![tactic(auto)]

ghost use Rattle.std.specs.Prelude.{◌≡◌, ◌+◌, ◌-◌, ◌<◌, ◌^◌, ◌↔◌, length, Some, IsOk, IsTrue, IfOk, IfErr, IfSome, IfNone, OnOk, OnSome, [], ◌∷◌, ◌++◌, option_copied, option_map, slice_get};
ghost use Rattle.std.specs.FinMap as fin;
ghost use Rattle.circular_buffer.specs.Buffer.{buffer};
ghost use Rattle.export_queue.specs.Queue.{empty_queue, after_push, after_pick, after_finish, after_skip, first_number, number_of, item_of, item_held, slot_in, IsFree, IsFresh, IsInOrder};

use circular_buffer::HeapCircularBuffer;
use nbd_base::NoMemory;
use slab::Slab;
use std::alloc::Allocator;
use std::marker::Model;

/// An item with its number.
#[derive(Drop)]
struct Numbered<T> {
    number: u64,
    item: T,
}

/// The item that [`ExportQueue::pick`] chose.
///
/// It has both the number, which names the item in what is answered and logged, and the slot, by which it is found
/// at once.
#[derive(Clone, Copy, Debug, PartialEq, Eq)]
pub struct Picked {
    pub number: u64,
    pub slot: usize,
}

/// The items of one export, each with its number: those that wait in order, and those that are out by number.
#[derive(Drop)]
pub struct ExportQueue<T, A: Allocator + Copy> {
    ring: HeapCircularBuffer<T, A>,
    out: Slab<Numbered<T>, A>,
    // How many items were picked, which is the number of the first waiting item.
    picked: u64,
    inflight: usize,
}

impl<T, A: Allocator + Copy> Model for ExportQueue<T, A> {
    ghost use Rattle.std.specs.Prelude.{length};
    ghost use Rattle.export_queue.specs.Queue.{Queue, queue_code, view_of, IsQueue};

    ghost Value = { Queue T };

    ghost coded = { queue_code T.code };

    ghost view = { λ q. view_of q.ring q.out q.picked q.inflight };

    ghost invariant = { λ q. IsQueue q.picked (length q.ring.items) q.out q.inflight };
}

// Puts an item behind the others that wait, or hands it back where there is no room. The first takes the place of the one that was picked
// last: a ring whose items come and go one at a time stays in one place of its memory, and so in the processor's cache.
fn put_behind<T, A: Allocator + Copy>(ring: &mut HeapCircularBuffer<T, A>, item: T) -> Result<(), T>
    ensures variant { IsOk result ↔ (length ring.old.items < ring.old.capacity) }
    ensures ok { OnOk result (ring.new ≡ buffer (ring.old.items ++ item ∷ []) ring.old.capacity) }
    ensures err { IfErr result (λ back. (back ≡ item) × (ring.new ≡ ring.old)) }
{
    if ring.is_empty() {
        ring.try_push_front(item)
    } else {
        ring.try_push_back(item)
    }
}

impl<T: Drop, A: Allocator + Copy> ExportQueue<T, A> {
    /// An empty queue in which `depth` items may wait and `inflight` be out at once.
    pub fn new(alloc: A, depth: usize, inflight: usize) -> Result<Self, NoMemory>
        ensures { IfOk result (λ queue. queue ≡ empty_queue depth inflight) }
    {
        let ring = HeapCircularBuffer::with_capacity(alloc, depth)?;
        let out = Slab::with_capacity(alloc, inflight)?;
        Ok(ExportQueue {
            ring,
            out,
            picked: 0,
            inflight,
        })
    }

    /// How many items wait.
    pub fn waiting(&self) -> usize
        ensures { result ≡ length self.now.waiting }
    {
        self.ring.len()
    }

    /// Whether as many items wait as may, so that `push` hands its item back.
    pub fn is_full(&self) -> bool
        ensures { IsTrue result ↔ (length self.now.waiting ≡ self.now.depth) }
    {
        self.ring.is_full()
    }

    /// How many items are out.
    pub fn in_service(&self) -> usize
        ensures { result ≡ fin.len self.now.out }
    {
        self.out.len()
    }

    /// Whether fewer items are out than may be, so that one may be picked.
    pub fn may_pick(&self) -> bool
        ensures { IsTrue result ↔ (fin.len self.now.out < self.now.inflight) }
    {
        self.in_service() < self.inflight
    }

    /// The number that the next item gets. The first waiting item's is less by as many as wait.
    pub fn next_number(&self) -> u64
        ensures { result ≡ self.now.next }
    {
        self.picked + self.ring.len() as u64
    }

    /// The waiting item at this place, from 0 for the first.
    pub fn waiting_at(&self, place: usize) -> Option<&T>
        ensures { option_copied result ≡ item_of (slice_get self.now.waiting place) }
    {
        self.ring.get(place)
    }

    /// The number of the waiting item at this place, from 0 for the first.
    pub fn number_at(&self, place: usize) -> Option<u64>
        ensures { result ≡ option_map (λ row. row.0) (slice_get self.now.waiting place) }
    {
        if place >= self.ring.len() {
            return None;
        }
        Some(self.picked + place as u64)
    }

    /// Puts an item behind the others that wait, and gives its number. A full queue hands the item back. The condition is
    /// that fewer than 2^63 items were pushed before.
    pub fn push(&mut self, item: T) -> Result<u64, T>
        requires { self.old.next < 2 ^ 63 }
        ensures variant { IsOk result ↔ (length self.old.waiting < self.old.depth) }
        ensures ok { IfOk result (λ number. (number ≡ self.old.next)
            × (self.new ≡ after_push self.old item)) }
        ensures full { IfErr result (λ back. (back ≡ item) × (self.new ≡ self.old)
            × (length self.old.waiting ≡ self.old.depth)) }
    {
        let number = self.picked + self.ring.len() as u64;
        if let Err(item) = put_behind(&mut self.ring, item) {
            return Err(item);
        }
        Ok(number)
    }

    /// Takes the first waiting item out, into a slot in which no other is out. None where nothing waits.
    pub fn pick(&mut self) -> Option<Picked>
        requires { fin.len self.old.out < self.old.inflight }
        ensures number { number_of result ≡ first_number self.old.waiting }
        ensures some { IfSome result (λ p. IsFree self.old p.slot
            × (self.new ≡ after_pick self.old p.slot)) }
        ensures none { IfNone result (self.new ≡ self.old) }
        ensures fresh { IsFresh self.old }
    {
        let Some(item) = self.ring.pop_front() else {
            return None;
        };
        let number = self.picked;
        self.picked = number + 1;
        let slot = self.out.insert_reserved(Numbered { number, item });
        Some(Picked { number, slot })
    }

    /// Uses up the next number, where nothing waits: what `push`, `pick` and `finish` of one item come to.
    ///
    /// The condition is that fewer than 2^63 items were pushed before.
    pub fn skip(&mut self)
        requires none { self.old.waiting ≡ [] }
        requires few { self.old.next < 2 ^ 63 }
        ensures { self.new ≡ after_skip self.old }
    {
        let _ = self.ring.len();
        self.picked += 1;
    }

    /// The item that is out in `slot` under `number`; None where the slot doesn't hold that number.
    pub fn held(&self, slot: usize, number: u64) -> Option<&T>
        ensures { option_copied result ≡ item_held self.now slot number }
    {
        let Some(row) = self.out.get(slot) else {
            return None;
        };
        if row.number == number {
            Some(&row.item)
        } else {
            None
        }
    }

    /// The slot in which the item of this number is out.
    pub fn slot_of(&self, number: u64) -> Option<usize>
        ensures { result ≡ slot_in (fin.get self.now.out number) }
    {
        for (slot, entry) in self.out.iter() {
            if entry.number == number {
                return Some(slot);
            }
        }
        None
    }

    /// Ends the item that is out in `slot` under `number`, and gives it back.
    ///
    /// None where the slot doesn't hold that number, also where the number is out in another slot.
    pub fn finish(&mut self, slot: usize, number: u64) -> Option<T>
        ensures item { result ≡ item_held self.old slot number }
        ensures some { OnSome result (self.new ≡ after_finish self.old number) }
        ensures none { IfNone result (self.new ≡ self.old) }
    {
        let Some(_item) = self.held(slot, number) else {
            return None;
        };
        let row = self.out.remove(slot);
        Some(row.item)
    }

    /// Does nothing: its contract says what is true of every queue.
    ///
    /// The waiting items have the numbers just below the next one, in order; those that are out have lower numbers
    /// and each a slot of its own; no more wait and no more are out than may.
    pub fn laws(&self)
        ensures { IsInOrder self.now }
    {
        let _ = self.ring.len();
    }
}
