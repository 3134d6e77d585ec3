ghost use Rattle.std.specs.Prelude.{◌≡◌, ◌≢◌, ◌++◌, ℕ, ◌+◌, ◌<◌, ◌≤◌, ◌==◌, None, Some, IsSome, IfSome, IfOk, IfErr, OnOk, OnErr, is_some, true, false, take, drop, length, get_or, set, replicate, if◌then◌else◌};
ghost use Rattle.std.specs.List.{filter};
ghost use Rattle.number_sets.specs.Bits.{is_between, is_set, count_of};
ghost use Rattle.page_table.specs.Table.{in_chunk, put_from, taken};

use crate::chunk::Chunk;
use nbd_base::NoMemory;
use number_sets::bits;
use payload::{Page, Swept};
use std::alloc::Allocator;
use std::marker::Model;
use std::mem;

/// Places for 256 items in a row. The items that are there lie side by side, so a place without one takes a bit.
#[derive(Drop)]
pub(crate) struct Places<T: Drop, A: Allocator + Copy> {
    // In which places there is an item, a bit for each.
    marks: [u64; 4],
    // In the order of their places.
    items: Vec<T, A>,
}

impl<T: Drop, A: Allocator + Copy> Model for Places<T, A> {
    ghost use Rattle.std.specs.Prelude.{◌≡◌, Option, List, length};
    ghost use Rattle.number_sets.specs.Bits.{is_set, count_of};
    ghost use Rattle.page_table.specs.Places.{in_places};

    ghost Value = { List (Option T) };

    ghost view = { λ places. in_places places.marks places.items.items };

    ghost invariant = { λ places.
        length places.items.items ≡ count_of (is_set places.marks) 0 256 };
}

// Where the item of a place lies among so many in the order of their places, where there is one. With one in each place no mark is
// looked at.
fn index_of(marks: &[u64; 4], count: usize, place: usize) -> Option<usize>
    requires place { place < 256 }
    requires counted { count ≡ count_of (is_set marks.now) 0 256 }
    ensures there { IfSome result (λ at. is_set marks.now place ≡ true) }
    ensures before { IfSome result (λ at. at ≡ count_of (is_set marks.now) 0 place) }
    ensures none { result ≡ None → is_set marks.now place ≡ false }
{
    if count == 256 {
        return Some(place);
    }
    if !bits::has(marks, place) {
        return None;
    }
    Some(bits::count_below(marks, place))
}

// The memory of items goes where there is none.
fn give_room_back<T: Drop, A: Allocator + Copy>(items: &mut Vec<T, A>)
    ensures { items.new.items ≡ items.old.items }
{
    if items.is_empty() {
        *items = Vec::new(*items.allocator());
    }
}

impl<T: Drop, A: Allocator + Copy> Places<T, A> {
    /// There is no item.
    pub(crate) fn new(alloc: A) -> Places<T, A>
        ensures { result ≡ replicate 256 None }
    {
        Places {
            marks: [0; 4],
            items: Vec::new(alloc),
        }
    }

    /// How many items there are.
    pub(crate) fn count(&self) -> usize
        ensures count { result ≡ length (filter is_some self.now) }
        ensures few { result ≤ 256 }
        ensures long { length self.now ≡ 256 }
    {
        self.items.len()
    }

    /// The item in a place.
    pub(crate) fn get(&self, place: usize) -> Option<&T>
        requires { place < 256 }
        ensures some { IfSome result (λ item. get_or self.now place None ≡ Some item.now) }
        ensures none { result ≡ None → get_or self.now place None ≡ None }
        ensures long { length self.now ≡ 256 }
    {
        match index_of(&self.marks, self.items.len(), place) {
            Some(at) => Some(&self.items[at]),
            None => None,
        }
    }

    /// The last place in which there is an item, from one on before an end.
    pub(crate) fn last(&self, from: usize, end: usize) -> Option<usize>
        requires { end ≤ 256 }
        ensures begins { IfSome result (λ place. from ≤ place) }
        ensures ends { IfSome result (λ place. place < end) }
        ensures there { IfSome result (λ place. IsSome (get_or self.now place None)) }
        ensures last { IfSome result (λ place. (k : ℕ) → place < k → k < end
            → get_or self.now k None ≡ None) }
        ensures none { result ≡ None → (k : ℕ) → from ≤ k → k < end
            → get_or self.now k None ≡ None }
    {
        bits::last(&self.marks, from, end)
    }

    /// Puts an item in the place of one, which is the answer. Where there is none, the item is handed back.
    pub(crate) fn exchange(&mut self, place: usize, item: T) -> Result<T, T>
        requires { place < 256 }
        ensures before { IfOk result (λ before. get_or self.old place None ≡ Some before) }
        ensures after { OnOk result (self.new ≡ set self.old place (Some item)) }
        ensures none { OnErr result (get_or self.old place None ≡ None) }
        ensures back { IfErr result (λ back. back ≡ item) }
        ensures same { OnErr result (self.new ≡ self.old) }
        ensures long { length self.old ≡ 256 }
    {
        match index_of(&self.marks, self.items.len(), place) {
            Some(at) => Ok(mem::replace(&mut self.items[at], item)),
            None => Err(item),
        }
    }

    /// Puts an item where there is none. Where memory for it is refused, it is handed back.
    pub(crate) fn add(&mut self, place: usize, item: T) -> Result<(), T>
        requires place { place < 256 }
        requires none { get_or self.old place None ≡ None }
        ensures added { OnOk result (self.new ≡ set self.old place (Some item)) }
        ensures same { OnErr result (self.new ≡ self.old) }
        ensures back { IfErr result (λ back. back ≡ item) }
        ensures long { length self.old ≡ 256 }
    {
        let at = bits::count_below(&self.marks, place);
        if let Err(refused) = self.items.insert(at, item) {
            return Err(refused.value);
        }
        bits::put_one(&mut self.marks, place, true);
        Ok(())
    }

    /// Takes the item out of a place. With the last one goes the memory for all.
    pub(crate) fn take(&mut self, place: usize) -> Option<T>
        requires { place < 256 }
        ensures before { result ≡ get_or self.old place None }
        ensures after { self.new ≡ set self.old place None }
        ensures long { length self.old ≡ 256 }
    {
        if !bits::has(&self.marks, place) {
            return None;
        }
        let at = bits::count_below(&self.marks, place);
        bits::put_one(&mut self.marks, place, false);
        let taken = self.items.remove(at);
        give_room_back(&mut self.items);
        Some(taken)
    }

    /// Its items, in the order of their places.
    pub(crate) fn into_items(self) -> Vec<T, A> {
        let Places { items, .. } = self;
        items
    }
}

// Exchanges others for a part of a row.
fn exchange_part<T>(row: &mut [T], at: usize, others: &mut [T])
    requires { at + length others.old ≤ length row.old }
    ensures row { row.new
        ≡ take at row.old ++ (others.old ++ drop (at + length others.old) row.old) }
    ensures long { length others.new ≡ length others.old }
{
    row[at..at + others.len()].swap_with_slice(others);
}

impl<A: Allocator + Copy> Places<Page<A>, A> {
    /// Exchanges pages for those in the places from one on, in each of which one is.
    pub(crate) fn exchange_all(&mut self, first: usize, pages: &mut [Page<A>])
        requires within { first + length pages.old ≤ 256 }
        requires some { 0 < length pages.old }
        requires there { (k : ℕ) → is_between first (first + length pages.old) k ≡ true
            → IsSome (get_or self.old k None) }
        ensures here { (k : ℕ) → get_or self.new k None
            ≡ put_from first pages.old (in_chunk (Some self.old)) k }
        ensures long { length pages.new ≡ length pages.old }
    {
        let at = bits::count_below(&self.marks, first);
        exchange_part(self.items.as_mut_slice(), at, pages);
    }
}

// Pages of a chunk are stored no longer, from a place on before an end, and are swept out. The answer is how many are stored then.
fn remove_from<A: Allocator + Copy>(
    chunk: &mut Chunk<A>,
    first: usize,
    end: usize,
    swept: &mut Swept<A>,
) -> usize
    requires { end ≤ 256 }
    ensures here { (k : ℕ) → in_chunk (Some chunk.new) k
        ≡ (if is_between first end k then None else in_chunk (Some chunk.old) k) }
    ensures left { result ≡ taken chunk.new }
{
    chunk.remove(first, end, swept);
    chunk.count()
}

impl<A: Allocator + Copy> Places<Chunk<A>, A> {
    /// Puts a page in a place of a chunk, in the place of one, which is the answer. Where there is no such chunk, or no page is
    /// stored there, the page is handed back.
    pub(crate) fn exchange_page(
        &mut self,
        chunk: usize,
        place: usize,
        page: Page<A>,
    ) -> Result<Page<A>, Page<A>>
        requires chunk { chunk < 256 }
        requires place { place < 256 }
        ensures before { IfOk result (λ before.
            in_chunk (get_or self.old chunk None) place ≡ Some before) }
        ensures here { OnOk result (in_chunk (get_or self.new chunk None) place ≡ Some page) }
        ensures places { (k : ℕ) → k ≢ place → in_chunk (get_or self.new chunk None) k
            ≡ in_chunk (get_or self.old chunk None) k }
        ensures others { (q : ℕ) → q ≢ chunk → get_or self.new q None ≡ get_or self.old q None }
        ensures none { OnErr result (in_chunk (get_or self.old chunk None) place ≡ None) }
        ensures back { IfErr result (λ back. back ≡ page) }
        ensures same { OnErr result (self.new ≡ self.old) }
    {
        if !bits::has(&self.marks, chunk) {
            return Err(page);
        }
        let at = bits::count_below(&self.marks, chunk);
        self.items[at].exchange(place, page)
    }

    /// Puts a page in a place of a chunk that is there, where none is stored.
    pub(crate) fn add_page(
        &mut self,
        alloc: A,
        chunk: usize,
        place: usize,
        page: Page<A>,
    ) -> Result<(), NoMemory>
        requires chunk { chunk < 256 }
        requires place { place < 256 }
        requires there { IsSome (get_or self.old chunk None) }
        requires none { in_chunk (get_or self.old chunk None) place ≡ None }
        ensures here { OnOk result (in_chunk (get_or self.new chunk None) place ≡ Some page) }
        ensures places { (k : ℕ) → k ≢ place → in_chunk (get_or self.new chunk None) k
            ≡ in_chunk (get_or self.old chunk None) k }
        ensures others { (q : ℕ) → q ≢ chunk → get_or self.new q None ≡ get_or self.old q None }
        ensures no_memory { OnErr result (in_chunk (get_or self.new chunk None) place ≡ None) }
    {
        let at = bits::count_below(&self.marks, chunk);
        self.items[at].add(alloc, place, page)
    }

    /// Exchanges pages for those in the places of a chunk from one on, in each of which one is.
    pub(crate) fn exchange_pages(&mut self, chunk: usize, first: usize, pages: &mut [Page<A>])
        requires chunk { chunk < 256 }
        requires within { first + length pages.old ≤ 256 }
        requires some { 0 < length pages.old }
        requires there { (k : ℕ) → is_between first (first + length pages.old) k ≡ true
            → IsSome (in_chunk (get_or self.old chunk None) k) }
        ensures here { (k : ℕ) → in_chunk (get_or self.new chunk None) k
            ≡ put_from first pages.old (in_chunk (get_or self.old chunk None)) k }
        ensures others { (q : ℕ) → q ≢ chunk → get_or self.new q None ≡ get_or self.old q None }
        ensures long { length pages.new ≡ length pages.old }
    {
        let at = bits::count_below(&self.marks, chunk);
        self.items[at].exchange_all(first, pages);
    }

    /// Pages of a chunk that is there are stored no longer, from a place on before an end, and are swept out. The answer is how many
    /// are stored then.
    pub(crate) fn remove_pages(
        &mut self,
        chunk: usize,
        first: usize,
        end: usize,
        swept: &mut Swept<A>,
    ) -> usize
        requires chunk { chunk < 256 }
        requires end { end ≤ 256 }
        requires there { IsSome (get_or self.old chunk None) }
        ensures here { (k : ℕ) → in_chunk (get_or self.new chunk None) k
            ≡ (if is_between first end k then None else in_chunk (get_or self.old chunk None) k) }
        ensures left { IfSome (get_or self.new chunk None) (λ chunk. result ≡ taken chunk) }
        ensures others { (q : ℕ) → q ≢ chunk → get_or self.new q None ≡ get_or self.old q None }
    {
        let at = bits::count_below(&self.marks, chunk);
        remove_from(&mut self.items[at], first, end, swept)
    }
}
