//! Memory of pages that nobody shows any more.
ghost use Rattle.std.specs.Prelude.{◌≡◌, ◌≤◌, [], length, IfOk};

use crate::page::{PAGE, Page};
use bytes::BytesMut;
use nbd_base::NoMemory;
use std::alloc::Allocator;
use std::marker::Model;

/// Memory of pages that nobody shows any more, for pages to come.
#[derive(Drop)]
pub struct Spares<A: Allocator + Copy> {
    alloc: A,
    // Nobody else has one of them.
    pages: Vec<Page<A>, A>,
}

impl<A: Allocator + Copy> Model for Spares<A> {
    ghost use Rattle.std.specs.Prelude.{ℕ, length};

    ghost Value = { ℕ };

    ghost view = { λ spares. length spares.pages.items };
}

impl<A: Allocator + Copy> Spares<A> {
    ghost use Rattle.std.specs.Prelude.{◌-◌, ◌+◌, ◌⊎◌};
    ghost use Rattle.std.specs.Bool.{OnTrue, OnFalse};

    /// None, and places for none. It takes no memory.
    pub fn new(alloc: A) -> Spares<A>
        ensures { result ≡ 0 }
    {
        Spares {
            alloc,
            pages: Vec::new(alloc),
        }
    }

    /// None, and places for so many.
    pub fn with_places(alloc: A, most: usize) -> Result<Spares<A>, NoMemory>
        ensures { IfOk result (λ spares. spares ≡ 0) }
    {
        let pages = Vec::with_capacity(alloc, most)?;
        Ok(Spares { alloc, pages })
    }

    /// How many there are.
    pub fn len(&self) -> usize
        ensures { result ≡ self.now }
    {
        self.pages.len()
    }

    /// Where memory comes from once there are none.
    pub fn alloc(&self) -> A {
        self.alloc
    }

    /// Memory for a page, empty: that of a spare one, or new where there is none.
    pub fn take(&mut self) -> Result<BytesMut<A>, NoMemory>
        ensures empty { IfOk result (λ block. block.items ≡ []) }
        ensures room { IfOk result (λ block. 4096 ≤ block.spare) }
        ensures one { self.new ≡ self.old - 1 }
    {
        if let Some(page) = self.pages.pop() {
            if let Some(mut block) = page.into_bytes().reclaim() {
                block.clear();
                return Ok(block);
            }
        }
        let block = BytesMut::with_capacity(self.alloc, PAGE)?;
        Ok(block)
    }

    /// Bytes of a page, in memory of a spare one, or in new where there is none.
    pub(crate) fn take_holding(&mut self, bytes: &[u8]) -> Result<BytesMut<A>, NoMemory>
        requires { length bytes.now ≡ 4096 }
        ensures { IfOk result (λ block. block.items ≡ bytes.now) }
    {
        let mut block = self.take()?;
        block.extend_reserved(bytes);
        Ok(block)
    }

    /// Keeps the memory of a page, where nobody else shows it and there is a place. Else the page is let go.
    pub fn keep(&mut self, page: Page<A>)
        ensures { (self.new ≡ self.old + 1) ⊎ (self.new ≡ self.old) }
    {
        if self.len() == self.pages.capacity() {
            return;
        }
        if page.is_alone() {
            self.pages.push_reserved(page);
        }
    }

    /// Keeps the memory of pages, as `keep` does that of each.
    pub fn keep_all(&mut self, pages: Vec<Page<A>, A>)
        ensures { self.old ≤ self.new }
    {
        for page in pages {
            self.keep(page);
        }
    }

    // Passes one on, where there is one and others have a place for it.
    fn pass_one(&mut self, others: &mut Spares<A>) -> bool
        ensures passed { OnTrue result
            ((self.new + 1 ≡ self.old) × (others.new ≡ others.old + 1)) }
        ensures none { OnFalse result ((self.new ≡ self.old) × (others.new ≡ others.old)) }
    {
        if others.len() == others.pages.capacity() {
            return false;
        }
        let Some(page) = self.pages.pop() else {
            return false;
        };
        others.pages.push_reserved(page);
        true
    }

    // Passes on what is beyond so many, as far as others have places.
    fn pass(&mut self, others: &mut Spares<A>, left: usize)
        ensures none_lost { self.new + others.new ≡ self.old + others.old }
        ensures fewer { self.new ≤ self.old }
        ensures left { left ≤ self.old → left ≤ self.new }
        ensures same { self.old ≤ left → self.new ≡ self.old }
    {
        while left < self.len() && self.pass_one(others) {}
    }

    /// Passes on to others what it has beyond so many, or takes from them what it lacks, as far as there are places.
    pub fn level(&mut self, others: &mut Spares<A>, count: usize)
        ensures none_lost { self.new + others.new ≡ self.old + others.old }
        ensures passed { count ≤ self.old → (count ≤ self.new) × (self.new ≤ self.old) }
        ensures taken { self.old ≤ count → (self.old ≤ self.new) × (self.new ≤ count) }
    {
        if count < self.len() {
            self.pass(others, count);
        } else {
            let rest = others.len().saturating_sub(count - self.len());
            others.pass(self, rest);
        }
    }
}
