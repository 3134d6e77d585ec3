//! The heap with its keys.
ghost use Rattle.std.specs.Prelude.{◌≡◌, ◌+◌, ◌<◌, ◌^◌, ℕ, ℤ, Option, Some, None, List, length, replicate, IfOk, slice_get, slice_set};
ghost use Rattle.nbd_base.specs.Range.{InRange, IsOptionInRange};
ghost use Rattle.index_heap.specs.Keys.{keys_less, AllKeysInRange, IsAbsent, IsPresent, least_key};
ghost use Rattle.index_heap.specs.Heap.{IsHeap};

use crate::fold::{folded, kept, no_keys, unfolded};
use crate::sift::{ids_below, settle};
use nbd_base::NoMemory;
use std::alloc::Allocator;
use std::marker::Model;

/// Keys by id, and the least of them.
///
/// A change of a key takes O(log n), `least` O(1), and `shift` O(1) but for a rare fold of the offset into all keys. Every
/// id stands in the heap at all times, one without a key behind all that have one.
#[derive(Drop)]
pub struct IndexHeap<A: Allocator + Copy> {
    /// By id, each key with the offset added.
    keys: Vec<Option<i128>, A>,
    /// The ids in the order of a binary heap, those without a key too.
    order: Vec<usize, A>,
    /// By id, where it stands in the order.
    places: Vec<usize, A>,
    offset: i128,
}

impl<A: Allocator + Copy> Model for IndexHeap<A> {
    ghost use Rattle.std.specs.Prelude.{List, Option, ℤ};
    ghost use Rattle.index_heap.specs.Keys.{keys_less};
    ghost use Rattle.index_heap.specs.Heap.{IsIndexHeap};

    ghost Value = { List (Option ℤ) };

    ghost view = { λ heap. keys_less heap.offset heap.keys.items };

    ghost invariant = { λ heap.
        IsIndexHeap heap.offset heap.keys.items heap.order.items heap.places.items };
}

impl<A: Allocator + Copy> IndexHeap<A> {
    /// The ids below `n`, none of which has a key.
    pub fn new(alloc: A, n: u32) -> Result<Self, NoMemory>
        ensures { IfOk result (λ made. made ≡ replicate n None) }
    {
        let keys = no_keys(alloc, n as usize)?;
        let order = ids_below(alloc, n as usize)?;
        let places = ids_below(alloc, n as usize)?;
        Ok(IndexHeap {
            keys,
            order,
            places,
            offset: 0,
        })
    }

    /// Gives the id a key in place of what it has, or takes its key away.
    pub fn put(&mut self, id: u32, key: Option<i128>)
        requires id { id < length self.old }
        requires in_range { IsOptionInRange key }
        ensures { self.new ≡ slice_set self.old id key }
    {
        self.keys[id as usize] = kept(key, self.offset);
        settle(
            &mut self.order,
            &mut self.places,
            self.keys.as_slice(),
            id as usize,
        );
    }

    /// Gives an id a key.
    pub fn insert(&mut self, id: u32, key: i128)
        requires absent { IsAbsent self.old id }
        requires in_range { InRange key }
        ensures { self.new ≡ slice_set self.old id (Some key) }
    {
        self.put(id, Some(key));
    }

    /// Takes an id's key away.
    pub fn remove(&mut self, id: u32)
        requires present { IsPresent self.old id }
        ensures { self.new ≡ slice_set self.old id None }
    {
        self.put(id, None);
    }

    /// Gives an id another key.
    pub fn rekey(&mut self, id: u32, to: i128)
        requires present { IsPresent self.old id }
        requires in_range { InRange to }
        ensures { self.new ≡ slice_set self.old id (Some to) }
    {
        self.put(id, Some(to));
    }

    /// The least key and its id, the lowest of the ids that have it.
    pub fn least(&self) -> Option<(u32, i128)>
        ensures { result ≡ least_key self.now }
    {
        if self.order.is_empty() {
            return None;
        }
        let first = self.order[0];
        match unfolded(self.keys[first], self.offset) {
            Some(key) => Some((first as u32, key)),
            None => None,
        }
    }

    /// Subtracts `delta` from every key.
    pub fn shift(&mut self, delta: i128)
        requires delta { InRange delta }
        requires in_range { AllKeysInRange (keys_less delta self.old) }
        ensures { self.new ≡ keys_less delta self.old }
    {
        self.offset = folded(&mut self.keys, self.offset + delta);
    }
}
