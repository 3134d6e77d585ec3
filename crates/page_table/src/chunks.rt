ghost use Rattle.std.specs.Prelude.{◌≡◌, ℕ, ◌+◌, ◌*◌, ◌/◌, ◌%◌, ◌<◌, ◌≤◌, ◌^◌, ◌≢◌, None, Some, length, IsSome, IfSome, IfErr, OnOk, OnErr, is_some, true, is_ok, if◌then◌else◌};
ghost use Rattle.number_sets.specs.Bits.{is_between, count_of};
ghost use Rattle.page_table.specs.Table.{Chunk as Seen, chunk_of, in_chunk, in_chunks, is_kept, put_from, taken};

use crate::chunk::Chunk;
use crate::regions::Regions;
use nbd_base::NoMemory;
use payload::{Page, Swept};
use std::alloc::Allocator;
use std::marker::Model;

/// How many pages a chunk has places for.
pub const CHUNK: usize = 256;

/// Pages by their numbers, in chunks of 256 in a row. A page is found by a count of the chunks before its own in their region, and of
/// the pages before it in its chunk. A chunk in which no page is stored isn't there.
#[derive(Drop)]
pub(crate) struct Chunks<A: Allocator + Copy> {
    chunks: Regions<A>,
}

impl<A: Allocator + Copy> Model for Chunks<A> {
    ghost use Rattle.page_table.specs.Table.{Regions as Seen, AreTaken};

    ghost Value = { Seen };

    ghost view = { λ chunks. chunks.chunks };

    ghost invariant = { λ chunks. AreTaken chunks.chunks };
}

// A chunk is there no longer.
fn remove_chunk<A: Allocator + Copy>(chunks: &mut Regions<A>, number: usize, swept: &mut Swept<A>)
    ensures here { chunk_of chunks.new number ≡ None }
    ensures others { (q : ℕ) → q ≢ number
        → chunk_of chunks.new q ≡ chunk_of chunks.old q }
{
    if let Some(chunk) = chunks.take(number) {
        chunk.let_go(swept);
    }
}

impl<A: Allocator + Copy> Chunks<A> {
    /// No page is stored.
    pub(crate) fn new(alloc: A) -> Chunks<A>
        ensures { (k : ℕ) → in_chunks result k ≡ None }
    {
        let chunks = Regions::new(alloc);
        Chunks { chunks }
    }

    /// The page of a number, where it is stored.
    pub(crate) fn get(&self, number: usize) -> Option<&Page<A>>
        ensures some { IfSome result (λ page. in_chunks self.now number ≡ Some page.now) }
        ensures none { result ≡ None → in_chunks self.now number ≡ None }
    {
        match self.chunks.get(number / CHUNK) {
            Some(chunk) => chunk.get(number % CHUNK),
            None => None,
        }
    }

    /// Puts a page in the place of the one of its number, which is swept out. Where none is stored, the page is handed back.
    pub(crate) fn exchange(
        &mut self,
        number: usize,
        page: Page<A>,
        swept: &mut Swept<A>,
    ) -> Result<(), Page<A>>
        ensures stored { is_ok result ≡ is_kept self.old number }
        ensures here { OnOk result (in_chunks self.new number ≡ Some page) }
        ensures others { (k : ℕ) → k ≢ number → in_chunks self.new k ≡ in_chunks self.old k }
        ensures back { IfErr result (λ back. back ≡ page) }
        ensures absent { OnErr result (in_chunks self.new number ≡ None) }
    {
        let exchanged = self
            .chunks
            .exchange_page(number / CHUNK, number % CHUNK, page);
        let before = match exchanged {
            Ok(before) => before,
            Err(page) => return Err(page),
        };
        swept.take_page(before);
        Ok(())
    }

    // Exchanges pages for those of the numbers from one on, which are all stored and lie in one chunk.
    fn exchange_in(&mut self, first: usize, pages: &mut [Page<A>])
        requires within { first % 256 + length pages.old ≤ 256 }
        requires some { 0 < length pages.old }
        requires stored { (k : ℕ) → is_between first (first + length pages.old) k ≡ true
            → is_kept self.old k ≡ true }
        ensures here { (k : ℕ) → in_chunks self.new k
            ≡ put_from first pages.old (in_chunks self.old) k }
        ensures long { length pages.new ≡ length pages.old }
    {
        self.chunks
            .exchange_pages(first / CHUNK, first % CHUNK, pages);
    }

    /// Exchanges pages for those of the numbers from one on, which are all stored.
    pub(crate) fn exchange_all(&mut self, first: usize, pages: &mut [Page<A>])
        requires room { first + length pages.old < 2 ^ 64 }
        requires stored { (k : ℕ) → is_between first (first + length pages.old) k ≡ true
            → is_kept self.old k ≡ true }
        ensures { (k : ℕ) → in_chunks self.new k
            ≡ put_from first pages.old (in_chunks self.old) k }
    {
        let mut done = 0;
        while done < pages.len() {
            let number = first + done;
            let count = (CHUNK - number % CHUNK).min(pages.len() - done);
            self.exchange_in(number, &mut pages[done..done + count]);
            done += count;
        }
    }

    /// Stores a page of whose number none is.
    pub(crate) fn add(&mut self, alloc: A, number: usize, page: Page<A>) -> Result<(), NoMemory>
        requires none { in_chunks self.old number ≡ None }
        ensures here { OnOk result (in_chunks self.new number ≡ Some page) }
        ensures others { (k : ℕ) → k ≢ number → in_chunks self.new k ≡ in_chunks self.old k }
        ensures no_memory { OnErr result (in_chunks self.new number ≡ None) }
    {
        let (chunk, place) = (number / CHUNK, number % CHUNK);
        match self.chunks.get(chunk) {
            Some(_) => self.chunks.add_page(alloc, chunk, place, page),
            None => self.chunks.add(alloc, chunk, Chunk::holding(place, page)),
        }
    }

    /// The last chunk that is there, from one on before an end.
    pub(crate) fn last_chunk(&self, from: usize, end: usize) -> Option<usize>
        ensures begins { IfSome result (λ number. from ≤ number) }
        ensures ends { IfSome result (λ number. number < end) }
        ensures there { IfSome result (λ number. IsSome (chunk_of self.now number)) }
        ensures last { IfSome result (λ number. (q : ℕ) → number < q → q < end
            → chunk_of self.now q ≡ None) }
        ensures none { result ≡ None → (q : ℕ) → from ≤ q → q < end → chunk_of self.now q ≡ None }
    {
        self.chunks.last(from, end)
    }

    // Pages of a chunk that is there are stored no longer, from a number on before an end. Where that is the whole chunk, it isn't
    // looked into; it goes once none of its pages is stored.
    fn remove_part(&mut self, chunk: usize, first: usize, end: usize, swept: &mut Swept<A>)
        requires there { IsSome (chunk_of self.old chunk) }
        requires before { 256 * chunk < end }
        ensures here { (k : ℕ) → k / 256 ≡ chunk → in_chunks self.new k
            ≡ (if is_between first end k then None else in_chunks self.old k) }
        ensures others { (q : ℕ) → q ≢ chunk → chunk_of self.new q ≡ chunk_of self.old q }
    {
        let begin = chunk * CHUNK;
        let upto = (end - begin).min(CHUNK);
        if first <= begin && upto == CHUNK {
            remove_chunk(&mut self.chunks, chunk, swept);
            return;
        }
        let from = first.saturating_sub(begin);
        let left = self.chunks.remove_pages(chunk, from, upto, swept);
        if left == 0 {
            remove_chunk(&mut self.chunks, chunk, swept);
        }
    }

    /// The same, and how many they are.
    pub(crate) fn remove_in(
        &mut self,
        chunk: usize,
        first: usize,
        end: usize,
        swept: &mut Swept<A>,
    ) -> usize
        requires there { IsSome (chunk_of self.old chunk) }
        requires before { 256 * chunk < end }
        ensures here { (k : ℕ) → k / 256 ≡ chunk → in_chunks self.new k
            ≡ (if is_between first end k then None else in_chunks self.old k) }
        ensures others { (q : ℕ) → q ≢ chunk → chunk_of self.new q ≡ chunk_of self.old q }
        ensures count { count_of (is_kept self.new) (256 * chunk) 256 + result
            ≡ count_of (is_kept self.old) (256 * chunk) 256 }
    {
        let before = self.stored_in(chunk);
        self.remove_part(chunk, first, end, swept);
        before - self.stored_in(chunk)
    }

    /// How many pages of a chunk are stored.
    pub(crate) fn stored_in(&self, chunk: usize) -> usize
        ensures count { result ≡ count_of (is_kept self.now) (256 * chunk) 256 }
        ensures few { result ≤ 256 }
    {
        match self.chunks.get(chunk) {
            Some(found) => found.count(),
            None => 0,
        }
    }
}
