ghost use Rattle.std.specs.Prelude.{◌≡◌, ℕ, ◌+◌, ◌<◌, ◌≤◌, ◌≢◌, [], true, None, Some, IsSome, IfSome, IfOk, IfErr, OnOk, OnErr, length, get_or, if◌then◌else◌};
ghost use Rattle.number_sets.specs.Bits.{is_between};
ghost use Rattle.page_table.specs.Table.{chunk_of, in_chunk, put_from, taken};

use crate::chunk::Chunk;
use crate::places::Places;
use nbd_base::NoMemory;
use payload::{Page, Swept};
use std::alloc::Allocator;
use std::marker::Model;

// How many chunks a region has places for.
const REGION: usize = 256;

/// Places for 256 chunks in a row.
type Region<A> = Places<Chunk<A>, A>;

// There is a place for a region, in which there is no chunk if it is new.
fn lengthen_to<A: Allocator + Copy>(
    alloc: A,
    regions: &mut Vec<Region<A>, A>,
    region: usize,
) -> Result<(), NoMemory>
    ensures long { OnOk result (region < length regions.new.items) }
    ensures same { (q : ℕ) → chunk_of regions.new.items q ≡ chunk_of regions.old.items q }
{
    let more = region.saturating_add(1).saturating_sub(regions.len());
    let Ok(()) = regions.reserve(more) else {
        return Err(NoMemory);
    };
    while regions.len() <= region {
        let Ok(()) = regions.push(Places::new(alloc)) else {
            return Err(NoMemory);
        };
    }
    Ok(())
}

/// Chunks by their numbers, in regions of 256 in a row, up to the last in which there was one. A region in which there is none takes
/// no memory but its place in that row.
#[derive(Drop)]
pub(crate) struct Regions<A: Allocator + Copy> {
    regions: Vec<Region<A>, A>,
}

impl<A: Allocator + Copy> Model for Regions<A> {
    ghost use Rattle.page_table.specs.Table.{Regions as Seen};

    ghost Value = { Seen };

    ghost view = { λ regions. regions.regions.items };
}

impl<A: Allocator + Copy> Regions<A> {
    /// There is no chunk. It takes no memory.
    pub(crate) fn new(alloc: A) -> Regions<A>
        ensures { result ≡ [] }
    {
        Regions {
            regions: Vec::new(alloc),
        }
    }

    /// The chunk of a number.
    pub(crate) fn get(&self, number: usize) -> Option<&Chunk<A>>
        ensures some { IfSome result (λ chunk. chunk_of self.now number ≡ Some chunk.now) }
        ensures none { result ≡ None → chunk_of self.now number ≡ None }
    {
        match self.regions.get(number / REGION) {
            Some(region) => region.get(number % REGION),
            None => None,
        }
    }

    /// Puts a page in a place of a chunk, in the place of one, which is the answer. Where there is no such chunk, or no page is
    /// stored there, the page is handed back.
    pub(crate) fn exchange_page(
        &mut self,
        number: usize,
        place: usize,
        page: Page<A>,
    ) -> Result<Page<A>, Page<A>>
        requires { place < 256 }
        ensures before { IfOk result (λ before.
            in_chunk (chunk_of self.old number) place ≡ Some before) }
        ensures here { OnOk result (in_chunk (chunk_of self.new number) place ≡ Some page) }
        ensures places { (k : ℕ) → k ≢ place
            → in_chunk (chunk_of self.new number) k ≡ in_chunk (chunk_of self.old number) k }
        ensures others { (q : ℕ) → q ≢ number → chunk_of self.new q ≡ chunk_of self.old q }
        ensures none { OnErr result (in_chunk (chunk_of self.old number) place ≡ None) }
        ensures back { IfErr result (λ back. back ≡ page) }
        ensures same { OnErr result ((q : ℕ) → chunk_of self.new q ≡ chunk_of self.old q) }
    {
        if number / REGION >= self.regions.len() {
            return Err(page);
        }
        self.regions[number / REGION].exchange_page(number % REGION, place, page)
    }

    /// Puts a page in a place of a chunk that is there, where none is stored.
    pub(crate) fn add_page(
        &mut self,
        alloc: A,
        number: usize,
        place: usize,
        page: Page<A>,
    ) -> Result<(), NoMemory>
        requires place { place < 256 }
        requires there { IsSome (chunk_of self.old number) }
        requires none { in_chunk (chunk_of self.old number) place ≡ None }
        ensures here { OnOk result (in_chunk (chunk_of self.new number) place ≡ Some page) }
        ensures places { (k : ℕ) → k ≢ place
            → in_chunk (chunk_of self.new number) k ≡ in_chunk (chunk_of self.old number) k }
        ensures others { (q : ℕ) → q ≢ number → chunk_of self.new q ≡ chunk_of self.old q }
        ensures no_memory { OnErr result (in_chunk (chunk_of self.new number) place ≡ None) }
    {
        self.regions[number / REGION].add_page(alloc, number % REGION, place, page)
    }

    /// Exchanges pages for those in the places of a chunk from one on, in each of which one is.
    pub(crate) fn exchange_pages(&mut self, number: usize, first: usize, pages: &mut [Page<A>])
        requires within { first + length pages.old ≤ 256 }
        requires some { 0 < length pages.old }
        requires there { (k : ℕ) → is_between first (first + length pages.old) k ≡ true
            → IsSome (in_chunk (chunk_of self.old number) k) }
        ensures here { (k : ℕ) → in_chunk (chunk_of self.new number) k
            ≡ put_from first pages.old (in_chunk (chunk_of self.old number)) k }
        ensures others { (q : ℕ) → q ≢ number → chunk_of self.new q ≡ chunk_of self.old q }
        ensures long { length pages.new ≡ length pages.old }
    {
        self.regions[number / REGION].exchange_pages(number % REGION, first, pages);
    }

    /// Pages of a chunk that is there are stored no longer, from a place on before an end, and are swept out. The answer is how many
    /// are stored then.
    pub(crate) fn remove_pages(
        &mut self,
        number: usize,
        first: usize,
        end: usize,
        swept: &mut Swept<A>,
    ) -> usize
        requires end { end ≤ 256 }
        requires there { IsSome (chunk_of self.old number) }
        ensures here { (k : ℕ) → in_chunk (chunk_of self.new number) k
            ≡ (if is_between first end k then None else in_chunk (chunk_of self.old number) k) }
        ensures left { IfSome (chunk_of self.new number) (λ chunk. result ≡ taken chunk) }
        ensures others { (q : ℕ) → q ≢ number → chunk_of self.new q ≡ chunk_of self.old q }
    {
        self.regions[number / REGION].remove_pages(number % REGION, first, end, swept)
    }

    // There is a place for a region.
    fn lengthen(&mut self, alloc: A, region: usize) -> Result<(), NoMemory>
        ensures long { OnOk result (region < length self.new) }
        ensures same { (q : ℕ) → chunk_of self.new q ≡ chunk_of self.old q }
    {
        lengthen_to(alloc, &mut self.regions, region)
    }

    /// A chunk of whose number there is none is there from now on.
    pub(crate) fn add(&mut self, alloc: A, number: usize, chunk: Chunk<A>) -> Result<(), NoMemory>
        requires none { chunk_of self.old number ≡ None }
        ensures here { OnOk result (chunk_of self.new number ≡ Some chunk) }
        ensures no_memory { OnErr result (chunk_of self.new number ≡ None) }
        ensures others { (q : ℕ) → q ≢ number → chunk_of self.new q ≡ chunk_of self.old q }
    {
        let Ok(()) = self.lengthen(alloc, number / REGION) else {
            return Err(NoMemory);
        };
        let Ok(()) = self.regions[number / REGION].add(number % REGION, chunk) else {
            return Err(NoMemory);
        };
        Ok(())
    }

    /// Takes the chunk of a number out.
    pub(crate) fn take(&mut self, number: usize) -> Option<Chunk<A>>
        ensures before { result ≡ chunk_of self.old number }
        ensures here { chunk_of self.new number ≡ None }
        ensures others { (q : ℕ) → q ≢ number → chunk_of self.new q ≡ chunk_of self.old q }
    {
        if number / REGION >= self.regions.len() {
            return None;
        }
        self.regions[number / REGION].take(number % REGION)
    }

    // The last chunk of a region, from a place on before an end.
    fn last_in(&self, region: usize, from: usize, end: usize) -> Option<usize>
        requires { end ≤ 256 }
        ensures begins { IfSome result (λ place. from ≤ place) }
        ensures ends { IfSome result (λ place. place < end) }
        ensures there { IfSome result (λ place.
            IsSome (get_or (get_or self.now region []) place None)) }
        ensures last { IfSome result (λ place. (k : ℕ) → place < k → k < end
            → get_or (get_or self.now region []) k None ≡ None) }
        ensures none { result ≡ None → (k : ℕ) → from ≤ k → k < end
            → get_or (get_or self.now region []) k None ≡ None }
    {
        match self.regions.get(region) {
            Some(there) => there.last(from, end),
            None => None,
        }
    }

    /// The greatest number from one on before an end of which there is a chunk. It looks at the regions
    /// of the range. From the last on, chunks are taken out without moving others.
    pub(crate) fn last(&self, from: usize, end: usize) -> Option<usize>
        ensures begins { IfSome result (λ number. from ≤ number) }
        ensures ends { IfSome result (λ number. number < end) }
        ensures there { IfSome result (λ number. IsSome (chunk_of self.now number)) }
        ensures last { IfSome result (λ number. (q : ℕ) → number < q → q < end
            → chunk_of self.now q ≡ None) }
        ensures none { result ≡ None → (q : ℕ) → from ≤ q → q < end → chunk_of self.now q ≡ None }
    {
        let mut upto = end;
        while from < upto {
            let region = (upto - 1) / REGION;
            let begin = region * REGION;
            let first = from.max(begin);
            if let Some(place) = self.last_in(region, first - begin, upto - begin) {
                return Some(begin + place);
            }
            upto = first;
        }
        None
    }
}
