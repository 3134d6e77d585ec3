ghost use Rattle.std.specs.Prelude.{◌≡◌, ◌⊎◌, ◌++◌, ◌∷◌, [], length, take, IfOk};
ghost use Rattle.payload.specs.Swept.{nothing};

use crate::page::Page;
use crate::spares::Spares;
use nbd_base::NoMemory;
use std::alloc::Allocator;
use std::collections::LinkedList;
use std::marker::Model;
use std::mem;

/// For how many pages an image is lent memory.
const SPARES: usize = 32;

/// For how many pages there is room at most: those of a WRITE of 32 MiB.
const MOST_PAGES: usize = 8_192;

/// At how many pages' counts of owners it looks before it changes the first.
const LOOKED_AT: usize = 16;

/// The pages of a chunk: one alone, or those that lie side by side.
#[derive(Drop)]
pub enum ChunkPages<A: Allocator + Copy> {
    /// One alone.
    One(Page<A>),
    /// Several.
    Many(Vec<Page<A>, A>),
}

/// What an image doesn't need any more: pages, and whole chunks of them.
#[derive(Drop)]
pub struct Swept<A: Allocator + Copy> {
    pages: Vec<Page<A>, A>,
    // A list, so that one more moves none of the others.
    chunks: LinkedList<ChunkPages<A>, A>,
    // What the image is lent for pages that it makes.
    spares: Spares<A>,
}

impl<A: Allocator + Copy> Model for Swept<A> {
    ghost use Rattle.std.specs.Prelude.{ℕ, List};
    ghost use Rattle.payload.specs.declared.swept.ChunkPages.{ChunkPages as Seen};

    ghost Value = { List (List ℕ) × List (Seen A) };

    ghost view = { λ swept. (swept.pages.items, swept.chunks) };
}

impl<A: Allocator + Copy> Swept<A> {
    /// Nothing, and no room for pages. It takes no memory.
    pub fn new(alloc: A) -> Swept<A>
        ensures { result ≡ nothing }
    {
        Swept {
            pages: Vec::new(alloc),
            chunks: LinkedList::new(alloc),
            spares: Spares::new(alloc),
        }
    }

    /// Nothing, and room for so many pages. Whole chunks need none.
    pub fn with_room(alloc: A, pages: usize) -> Result<Swept<A>, NoMemory>
        ensures { IfOk result (λ swept. swept ≡ nothing) }
    {
        let pages = Vec::with_capacity(alloc, pages)?;
        Ok(Swept {
            pages,
            chunks: LinkedList::new(alloc),
            spares: Spares::with_places(alloc, 2 * SPARES)?,
        })
    }

    /// The pages that came alone.
    pub fn pages(&self) -> &[Page<A>]
        ensures { result.now ≡ self.now.0 }
    {
        self.pages.as_slice()
    }

    /// How many whole chunks there are.
    pub fn chunks(&self) -> usize
        ensures { result ≡ length self.now.1 }
    {
        self.chunks.len()
    }

    /// Lets all go. The memory of pages that came alone and that nobody else shows is spare, as far as there are places, and of
    /// that the image is lent some for the pages that it makes. Where the room for pages was full, it is twice as large from now on, if
    /// there is memory.
    pub fn recycle(&mut self, spares: &mut Spares<A>)
        ensures { self.new ≡ nothing }
    {
        let was_full = self.pages.len() == self.pages.capacity();
        let _alone = self.look_at_last();
        while let Some(page) = self.pages.pop() {
            if self.pages.len() % LOOKED_AT == 0 {
                let _alone = self.look_at_last();
            }
            spares.keep(page);
        }
        self.chunks.clear();
        self.spares.level(spares, SPARES);
        if was_full {
            self.widen();
        }
    }

    // There is room for twice as many pages, up to those of the longest WRITE, where no memory is refused.
    fn widen(&mut self)
        ensures { self.new ≡ self.old }
    {
        let twice = self.pages.capacity().saturating_mul(2).min(MOST_PAGES);
        let _ = self.pages.reserve(twice.saturating_sub(self.pages.len()));
    }

    // Looks at the counts of owners of the last pages, which mostly are in no cache: a processor waits for several at once, but for one
    // after another where it changes each. Tells how many pages nobody else has, more or less.
    fn look_at_last(&self) -> usize {
        let mut alone = 0usize;
        for page in self.pages.iter().rev().take(LOOKED_AT) {
            alone = alone.wrapping_add(page.is_alone() as usize);
        }
        alone
    }

    /// Takes out what the image is lent, until `take_back`.
    pub fn lend(&mut self, alloc: A) -> Spares<A>
        ensures { self.new ≡ self.old }
    {
        mem::replace(&mut self.spares, Spares::new(alloc))
    }

    /// Takes back what is left of it.
    pub fn take_back(&mut self, spares: Spares<A>)
        ensures { self.new ≡ self.old }
    {
        self.spares = spares;
    }

    /// A page that isn't needed any more. Where there is no room for it, it is let go.
    pub fn take_page(&mut self, page: Page<A>)
        ensures pages { (self.new.0 ≡ self.old.0 ++ page ∷ []) ⊎ (self.new.0 ≡ self.old.0) }
        ensures chunks { self.new.1 ≡ self.old.1 }
    {
        if self.pages.len() < self.pages.capacity() {
            self.pages.push_reserved(page);
        }
    }

    /// Pages that aren't needed any more, each as `take_page` takes it.
    pub fn take_pages(&mut self, pages: Vec<Page<A>, A>)
        ensures pages { take (length self.old.0) self.new.0 ≡ self.old.0 }
        ensures chunks { self.new.1 ≡ self.old.1 }
    {
        for page in pages {
            self.take_page(page);
        }
    }

    /// A chunk that isn't needed any more. Where memory for its place in the list is refused, it is let go.
    pub fn take_chunk(&mut self, chunk: ChunkPages<A>)
        ensures pages { self.new.0 ≡ self.old.0 }
        ensures chunks { (self.new.1 ≡ self.old.1 ++ chunk ∷ []) ⊎ (self.new.1 ≡ self.old.1) }
    {
        match self.chunks.push_back(chunk) {
            Ok(()) => {}
            Err(refused) => drop(refused),
        }
    }
}
