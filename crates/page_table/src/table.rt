ghost use Rattle.std.specs.Prelude.{◌≡◌, ℕ, ◌+◌, ◌*◌, ◌/◌, ◌<◌, ◌≤◌, ◌^◌, ◌≢◌, ◌%◌, length, None, Some, IfOk, IsOk, IsSome, IfSome, OnOk, OnErr, is_some, true, false, if◌then◌else◌};
ghost use Rattle.number_sets.specs.Bits.{is_set, is_between, count_of};
ghost use Rattle.page_table.specs.Table.{in_table, in_chunks, is_kept, put_from, shown, cleared, chunk_of};
ghost use Rattle.page_table.specs.Holes.{is_noted};

use crate::chunks::{CHUNK, Chunks};
use crate::holes::Holes;
use nbd_base::NoMemory;
use number_sets::bits;
use payload::{PAGE, Page, Spares, Swept};
use std::alloc::Allocator;
use std::marker::Model;

/// Pages by their numbers. Where a range of one can't be made zero in a copy for want of memory, it is noted which bytes are zeros.
#[derive(Drop)]
pub struct Table<A: Allocator + Copy> {
    chunks: Chunks<A>,
    // Of pages that are stored, and with room for each of them.
    holes: Holes<A>,
}

impl<A: Allocator + Copy> Model for Table<A> {
    ghost use Rattle.page_table.specs.Table.{Stored, HaveRoom};

    ghost Value = { Stored };

    ghost view = { λ table. record { chunks = table.chunks; holes = table.holes.rows } };

    ghost invariant = { λ table. HaveRoom table.chunks table.holes };
}

// A byte, or zero where it is one.
fn show_one(holes: &[u64], number: usize, byte: u8) -> u8
    ensures { result ≡ (if is_set holes.now number then 0 else byte) }
{
    if bits::has(holes, number) { 0 } else { byte }
}

// The bytes of a page, with zeros for those that are such.
fn show(holes: &[u64], mut bytes: [u8; 4096]) -> [u8; 4096]
    ensures { result ≡ shown (is_set holes.now) 0 bytes }
{
    for number in 0..PAGE {
        bytes[number] = show_one(holes, number, bytes[number]);
    }
    bytes
}

// A copy of a page, with zeros for the bytes that are such. It isn't made a part of its caller, which would zero its bytes even where
// none are copied.
#[inline(never)]
fn copied<A: Allocator + Copy>(alloc: A, holes: &[u64], page: &Page<A>) -> Result<Page<A>, NoMemory>
    ensures { IfOk result (λ copy. copy ≡ shown (is_set holes.now) 0 page.now) }
{
    let bytes = show(holes, page.copy());
    Page::holding(alloc, bytes)
}

impl<A: Allocator + Copy> Table<A> {
    /// No page is stored.
    pub fn new(alloc: A) -> Table<A>
        ensures { (k : ℕ) → in_table result k ≡ None }
    {
        Table {
            chunks: Chunks::new(alloc),
            holes: Holes::none(alloc),
        }
    }

    /// Whether a page is stored. It looks at what is kept of that page, so whoever asks has it in a cache then.
    pub fn stores(&self, number: usize) -> bool
        ensures { result ≡ is_some (in_table self.now number) }
    {
        match self.chunks.get(number) {
            Some(page) => page.as_slice().len() == PAGE,
            None => false,
        }
    }

    /// Whether a page is stored that nobody else has, more or less: others may let it go meanwhile. It looks at the count of the page's
    /// owners, so whoever asks has that in a cache then.
    pub fn has_alone(&self, number: usize) -> bool {
        let Some(page) = self.chunks.get(number) else {
            return false;
        };
        page.is_alone()
    }

    // The page of a number: the one that is stored, or a copy where some of its bytes were made zero since.
    fn current(&self, alloc: A, number: usize, page: &Page<A>) -> Result<Page<A>, NoMemory>
        requires { in_chunks self.now.chunks number ≡ Some page.now }
        ensures { IfOk result (λ current. Some current ≡ in_table self.now number) }
    {
        match self.holes.of(number) {
            Some(holes) => copied(alloc, holes, page),
            None => {
                let page = page.clone()?;
                Ok(page)
            }
        }
    }

    /// The page of a number, where it is stored: that one, or a copy.
    pub fn page(&self, alloc: A, number: usize) -> Result<Option<Page<A>>, NoMemory>
        ensures { IfOk result (λ page. page ≡ in_table self.now number) }
    {
        let Some(page) = self.chunks.get(number) else {
            return Ok(None);
        };
        let page = self.current(alloc, number, page)?;
        Ok(Some(page))
    }

    // Stores a page of whose number none is.
    fn add(&mut self, alloc: A, number: usize, page: Page<A>) -> Result<(), NoMemory>
        requires none { in_table self.old number ≡ None }
        ensures here { OnOk result (in_table self.new number ≡ Some page) }
        ensures others { (k : ℕ) → k ≢ number → in_table self.new k ≡ in_table self.old k }
        ensures no_memory { OnErr result (in_table self.new number ≡ None) }
    {
        self.holes.add_page(alloc)?;
        if let Err(NoMemory) = self.chunks.add(alloc, number, page) {
            self.holes.remove_pages(1);
            return Err(NoMemory);
        }
        Ok(())
    }

    /// A page is stored from now on. It takes no memory where one was. The one before it is swept out.
    pub fn put(
        &mut self,
        alloc: A,
        number: usize,
        page: Page<A>,
        swept: &mut Swept<A>,
    ) -> Result<(), NoMemory>
        ensures here { OnOk result (in_table self.new number ≡ Some page) }
        ensures others { (k : ℕ) → k ≢ number → in_table self.new k ≡ in_table self.old k }
        ensures stored { is_some (in_table self.old number) ≡ true → IsOk result }
        ensures no_memory { OnErr result ((k : ℕ) → in_table self.new k ≡ in_table self.old k) }
    {
        match self.chunks.exchange(number, page, swept) {
            Ok(()) => {
                self.holes.fill(number);
                Ok(())
            }
            Err(page) => self.add(alloc, number, page),
        }
    }

    /// Puts pages in the place of those of the numbers from one on, which are all stored: what was there is in their places in the row
    /// then.
    pub fn exchange(&mut self, first: usize, pages: &mut [Page<A>])
        requires room { first + length pages.old < 2 ^ 64 }
        requires stored { (k : ℕ) → is_between first (first + length pages.old) k ≡ true
            → is_some (in_table self.old k) ≡ true }
        ensures { (k : ℕ) → in_table self.new k
            ≡ put_from first pages.old (in_table self.old) k }
    {
        let behind = first + pages.len();
        self.chunks.exchange_all(first, pages);
        self.holes.fill_all(first, behind);
    }

    // The page of a number, with a range of it made zero.
    fn cleared(
        &self,
        spares: &mut Spares<A>,
        number: usize,
        page: &Page<A>,
        start: usize,
        count: usize,
    ) -> Result<Page<A>, NoMemory>
        requires there { in_chunks self.now.chunks number ≡ Some page.now }
        requires within { start + count ≤ 4096 }
        ensures { IfOk result (λ after.
            Some after ≡ cleared start count (in_table self.now number)) }
    {
        let zeros: Page<A> = Page::zeros();
        let part = &zeros.as_slice()[..count];
        let current = self.current(spares.alloc(), number, page)?;
        let after = current.with(spares, start, part)?;
        Ok(after)
    }

    /// Makes a range of a page zero, where it is stored.
    pub fn clear(
        &mut self,
        spares: &mut Spares<A>,
        number: usize,
        start: usize,
        count: usize,
        swept: &mut Swept<A>,
    )
        requires { start + count ≤ 4096 }
        ensures here { in_table self.new number ≡ cleared start count (in_table self.old number) }
        ensures others { (k : ℕ) → k ≢ number → in_table self.new k ≡ in_table self.old k }
    {
        let Some(page) = self.chunks.get(number) else {
            return;
        };
        let _whole = page.as_slice();
        match self.cleared(spares, number, page, start, count) {
            Ok(after) => {
                let Ok(()) = self.put(spares.alloc(), number, after, swept) else {
                    unreachable!();
                };
            }
            Err(NoMemory) => self.holes.dig(number, start, count),
        }
    }

    // The last chunk that is there, from one on before an end.
    fn last_chunk(&self, from: usize, end: usize) -> Option<usize>
        ensures begins { IfSome result (λ number. from ≤ number) }
        ensures ends { IfSome result (λ number. number < end) }
        ensures there { IfSome result (λ number. IsSome (chunk_of self.now.chunks number)) }
        ensures last { IfSome result (λ number. (q : ℕ) → number < q → q < end
            → chunk_of self.now.chunks q ≡ None) }
        ensures none { result ≡ None → (q : ℕ) → from ≤ q → q < end
            → chunk_of self.now.chunks q ≡ None }
    {
        self.chunks.last_chunk(from, end)
    }

    // Pages of a chunk that is there, none of which has a row, are stored no longer, from a number on before an end.
    fn remove_in(&mut self, chunk: usize, first: usize, end: usize, swept: &mut Swept<A>)
        requires there { IsSome (chunk_of self.old.chunks chunk) }
        requires before { 256 * chunk < end }
        requires filled { (k : ℕ) → is_between first end k ≡ true
            → is_noted self.old.holes k ≡ false }
        ensures holes { self.new.holes ≡ self.old.holes }
        ensures here { (k : ℕ) → k / 256 ≡ chunk → in_chunks self.new.chunks k
            ≡ (if is_between first end k then None else in_chunks self.old.chunks k) }
        ensures others { (q : ℕ) → q ≢ chunk
            → chunk_of self.new.chunks q ≡ chunk_of self.old.chunks q }
    {
        let count = self.chunks.remove_in(chunk, first, end, swept);
        self.holes.remove_pages(count);
    }

    /// Pages are stored no longer from a number on before an end, and are swept out. It looks at the chunks that are there alone.
    pub fn remove(&mut self, first: usize, end: usize, swept: &mut Swept<A>)
        ensures { (k : ℕ)
            → in_table self.new k ≡ (if is_between first end k then None else in_table self.old k) }
    {
        if first >= end {
            return;
        }
        self.holes.fill_all(first, end);
        let from = first / CHUNK;
        let mut upto = end.div_ceil(CHUNK);
        while let Some(chunk) = self.last_chunk(from, upto) {
            self.remove_in(chunk, first, end, swept);
            upto = chunk;
        }
    }

    // How many pages of a chunk are stored.
    fn stored_in(&self, chunk: usize) -> usize
        ensures count { result ≡ count_of (λ k. is_some (in_table self.now k)) (256 * chunk) 256 }
        ensures few { result ≤ 256 }
    {
        self.chunks.stored_in(chunk)
    }

    /// How many pages are stored in the first chunks. It looks at those that are there alone.
    pub fn stored(&self, chunks: usize) -> usize
        requires { 256 * chunks < 2 ^ 64 }
        ensures { result ≡ count_of (λ k. is_some (in_table self.now k)) 0 (256 * chunks) }
    {
        let mut count = 0;
        let mut upto = chunks;
        while let Some(chunk) = self.last_chunk(0, upto) {
            count += self.stored_in(chunk);
            upto = chunk;
        }
        count
    }
}
