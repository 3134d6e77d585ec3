ghost use Rattle.std.specs.Prelude.{◌≡◌, ℕ, ◌+◌, ◌-◌, ◌*◌, ◌/◌, ◌%◌, ◌<◌, ◌≤◌, ◌≢◌, ◌||◌, ◌&&◌, ◌==◌, length, drop, replicate, min, not, if◌then◌else◌, true, false, Some, None, IfOk, IsOk, OnOk, OnErr};
ghost use Rattle.std.specs.Bool.{OnTrue, OnFalse};
ghost use Rattle.std.specs.Int.{div_ceil};
ghost use Rattle.std.specs.List.{concat};
ghost use Rattle.payload.specs.Bytes.{range_of, overwritten};
ghost use Rattle.payload.specs.Rows.{AreWhole};
ghost use Rattle.number_sets.specs.Bits.{is_between};
ghost use Rattle.page_table.specs.Table.{in_table};
ghost use Rattle.export_store.specs.Pages.{IsPaged, in_a_row, image_of, stored_page, is_stored, is_held, held_pages, page_of, page_after, pages_after, has_byte_of, lies_whole_in, zeroed};

use crate::image::Image;
use crate::offers::{Offer, Offers};
use crate::zeroing::{emptied_pages, whole_pages, zero_pages};
use nbd_base::NoMemory;
use number_sets::{BITMAP, HeldZeros};
use page_table::{CHUNK, Table};
use payload::{PAGE, Page, Payload, Spares, Swept};
use std::alloc::Allocator;
use std::marker::Model;
use std::mem;

/// An image in pages of 4,096 bytes, the last of which ends with the image. A page that isn't held in memory is zeros.
///
/// A new image holds none. `write` and `zero` with `keep` hold the pages that they touch, and `zero` without `keep` gives
/// back those that lie whole in its range. A page that `zero` holds and that lies whole in its range, or wasn't stored, has no memory
/// of its own before it is written. Where memory is refused, some pages of a write's range may be held that weren't.
#[derive(Drop)]
pub struct Paged<A: Allocator + Copy> {
    alloc: A,
    size: usize,
    pages: Table<A>,
    // Which other pages are held: zeros, of which none is stored.
    zeros: HeldZeros<A>,
    // What writes and zeros have put others in place of, since it was handed out last.
    swept: Swept<A>,
    // What the next write may take in place of pages that it would make.
    offers: Offers<A>,
}

impl<A: Allocator + Copy> Model for Paged<A> {
    ghost use Rattle.export_store.specs.Pages.{Pages, IsPaged};

    ghost Value = { Pages };

    ghost view = { λ p. record { size = p.size; chunks = p.pages; zeros = p.zeros } };

    ghost invariant = { λ p.
        IsPaged (record { size = p.size; chunks = p.pages; zeros = p.zeros }) };
}

// How many of so many bytes from a position on lie in its page.
fn in_page(at: usize, left: usize) -> usize
    ensures { result ≡ min left (4096 - at % 4096) }
{
    left.min(PAGE - at % PAGE)
}

impl<A: Allocator + Copy> Paged<A> {
    /// Whether a page is held, counted from 0.
    pub fn holds(&self, number: usize) -> bool
        ensures { result ≡ is_held self.now number }
    {
        self.pages.stores(number) || self.zeros.has(number)
    }

    /// Whether a page is stored that nobody else has, more or less (`Table::has_alone`).
    pub fn has_alone(&self, number: usize) -> bool {
        self.pages.has_alone(number)
    }

    /// How many pages are held. It looks at what is there, and not at each page of the image.
    pub fn held(&self) -> usize
        ensures { result ≡ length (held_pages self.now) }
    {
        let pages = self.size.div_ceil(PAGE);
        self.pages.stored(pages.div_ceil(CHUNK)) + self.zeros.count(pages.div_ceil(BITMAP))
    }

    // Whether a page is stored.
    fn stores(&self, number: usize) -> bool
        ensures { result ≡ is_stored self.now number }
    {
        self.pages.stores(number)
    }

    // Where a range of the image ends.
    fn end_of(&self, offset: usize, count: usize) -> usize
        requires { offset + count ≤ length (image_of self.now) }
        ensures end { result ≡ offset + count }
        ensures pages { IsPaged self.now }
    {
        // No position in an image is past the greatest usize, since its size is one.
        let _size = self.size;
        offset + count
    }

    // A page is stored from now on. It takes no memory where it was.
    fn replace(&mut self, number: usize, page: Page<A>) -> Result<(), NoMemory>
        requires begins { 4096 * number < length (image_of self.old) }
        requires whole { length page ≡ 4096 }
        ensures size { self.new.size ≡ self.old.size }
        ensures long { length (image_of self.new) ≡ length (image_of self.old) }
        ensures here { OnOk result (stored_page self.new number ≡ Some page) }
        ensures others { (k : ℕ) → k ≢ number → stored_page self.new k ≡ stored_page self.old k }
        ensures held { OnOk result ((k : ℕ)
            → is_held self.new k ≡ (is_held self.old k || (k == number))) }
        ensures stored { is_stored self.old number ≡ true → IsOk result }
        ensures no_memory { OnErr result (image_of self.new ≡ image_of self.old) }
    {
        self.pages.put(self.alloc, number, page, &mut self.swept)?;
        self.zeros.remove(number, number + 1);
        Ok(())
    }

    // Stores a page, as it is.
    fn store(&mut self, number: usize) -> Result<(), NoMemory>
        requires { 4096 * number < length (image_of self.old) }
        ensures size { self.new.size ≡ self.old.size }
        ensures bytes { image_of self.new ≡ image_of self.old }
        ensures held { OnOk result ((k : ℕ)
            → is_held self.new k ≡ (is_held self.old k || (k == number))) }
        ensures stored { OnOk result (is_stored self.new number ≡ true) }
        ensures others { (k : ℕ) → k ≢ number → is_stored self.new k ≡ is_stored self.old k }
    {
        if self.stores(number) {
            return Ok(());
        }
        self.replace(number, Page::zeros())
    }

    // The first page from one on that isn't stored, or the end where each before it is.
    fn first_absent(&self, first: usize, end: usize) -> usize
        requires { first ≤ end }
        ensures begins { first ≤ result }
        ensures ends { result ≤ end }
        ensures stored { (k : ℕ) → first ≤ k → k < result → is_stored self.now k ≡ true }
    {
        let mut absent = first;
        while absent < end && self.stores(absent) {
            absent += 1;
        }
        absent
    }

    // Stores the pages of a range.
    fn store_all(&mut self, offset: usize, count: usize) -> Result<(), NoMemory>
        requires { offset + count ≤ length (image_of self.old) }
        ensures size { self.new.size ≡ self.old.size }
        ensures bytes { image_of self.new ≡ image_of self.old }
        ensures held { OnOk result ((k : ℕ)
            → is_held self.new k ≡ (is_held self.old k || has_byte_of offset count k)) }
        ensures stored { OnOk result ((k : ℕ) → has_byte_of offset count k ≡ true
            → is_stored self.new k ≡ true) }
    {
        if count == 0 {
            return Ok(());
        }
        let end = self.end_of(offset, count).div_ceil(PAGE);
        for number in self.first_absent(offset / PAGE, end)..end {
            self.store(number)?;
        }
        Ok(())
    }

    // A page, whether it is held or not.
    fn page_of(&self, number: usize) -> Result<Page<A>, NoMemory>
        ensures bytes { IfOk result (λ page. page ≡ page_of self.now number) }
        ensures whole { IfOk result (λ page. length page ≡ 4096) }
        ensures pages { IsPaged self.now }
    {
        match self.pages.page(self.alloc, number)? {
            Some(page) => Ok(page),
            None => Ok(Page::zeros()),
        }
    }

    // The pages from one on before an end.
    fn pages_between(&self, first: usize, end: usize) -> Result<Vec<Page<A>, A>, NoMemory>
        requires { first ≤ end }
        ensures whole { IfOk result (λ pages. AreWhole pages.items) }
        ensures bytes { IfOk result (λ pages. concat pages.items
            ≡ drop (4096 * first) (in_a_row (page_of self.now) end)) }
    {
        let mut pages = Vec::with_capacity(self.alloc, end - first)?;
        for number in first..end {
            let page = self.page_of(number)?;
            pages.push(page)?;
        }
        Ok(pages)
    }

    // The page that is stored around a position, where it doesn't begin there.
    fn around(&self, at: usize) -> Option<Offer<A>> {
        if at % PAGE == 0 {
            return None;
        }
        let number = at / PAGE;
        match self.pages.page(self.alloc, number) {
            Ok(Some(page)) => Some(Offer { number, page }),
            _ => None,
        }
    }

    // Its pages at the ends of a range, where these lie within a page.
    fn ends_of(&self, offset: usize, count: usize) -> Offers<A> {
        let Some(end) = offset.checked_add(count) else {
            return Offers::none();
        };
        let first = self.around(offset);
        let last = if first.is_some() && in_page(offset, count) == count {
            None
        } else {
            self.around(end)
        };
        Offers { first, last }
    }

    // What `put_over` of a piece makes of an old page: one that is offered, where it is the same, and else a page anew.
    fn put_over(
        &self,
        spares: &mut Spares<A>,
        number: usize,
        piece: &Payload<A>,
        old: &Page<A>,
        start: usize,
        from: usize,
        count: usize,
    ) -> Result<Page<A>, NoMemory>
        requires fits { start + count ≤ 4096 }
        requires within { from + count ≤ length piece.now }
        ensures bytes { IfOk result (λ page.
            page ≡ overwritten old.now start count (range_of piece.now from count)) }
    {
        let offered = self
            .offers
            .page_over(number, piece, old, start, from, count);
        if let Some(page) = offered {
            return Ok(page);
        }
        let page = piece.put_over(spares, old, start, from, count)?;
        Ok(page)
    }

    // A page once a piece is written that has some of its bytes.
    fn page_after(
        &self,
        spares: &mut Spares<A>,
        number: usize,
        offset: usize,
        piece: &Payload<A>,
    ) -> Result<Page<A>, NoMemory>
        requires within { offset + length piece.now ≤ length (image_of self.now) }
        requires touched { has_byte_of offset (length piece.now) number ≡ true }
        ensures bytes { IfOk result (λ page. page
            ≡ page_after offset piece.now number (page_of self.now number)) }
        ensures pages { IsPaged self.now }
    {
        let end = self.end_of(offset, piece.len());
        let begin = number * PAGE;
        let start = offset.saturating_sub(begin);
        let from = begin.saturating_sub(offset);
        let count = (end - offset - from).min(PAGE - start);
        // What stood in a page doesn't matter that the piece covers.
        let old = if count == PAGE {
            Page::zeros()
        } else {
            self.page_of(number)?
        };
        let page = self.put_over(spares, number, piece, &old, start, from, count)?;
        Ok(page)
    }

    // Each page that has some of a piece, once that is written.
    fn pages_after(
        &self,
        spares: &mut Spares<A>,
        offset: usize,
        piece: &Payload<A>,
    ) -> Result<Vec<Page<A>, A>, NoMemory>
        requires some { 0 < length piece.now }
        requires within { offset + length piece.now ≤ length (image_of self.now) }
        ensures { IfOk result (λ pages. pages.items
            ≡ pages_after (page_of self.now) offset piece.now
            (offset / 4096) (div_ceil (offset + length piece.now) 4096 - offset / 4096)) }
    {
        let first = offset / PAGE;
        let end = self.end_of(offset, piece.len()).div_ceil(PAGE);
        let mut pages = Vec::with_capacity(self.alloc, end - first)?;
        for number in first..end {
            let page = self.page_after(spares, number, offset, piece)?;
            pages.push(page)?;
        }
        Ok(pages)
    }

    // Writes a piece, of which each page is stored and the one in its place is ready. It takes no memory.
    fn put_all(
        &mut self,
        offset: usize,
        piece: &Payload<A>,
        mut pages: Vec<Page<A>, A>,
    ) -> Result<(), NoMemory>
        requires some { 0 < length piece.now }
        requires within { offset + length piece.now ≤ length (image_of self.old) }
        requires stored { (k : ℕ) → has_byte_of offset (length piece.now) k ≡ true
            → is_stored self.old k ≡ true }
        requires ready { pages.items ≡ pages_after (page_of self.old) offset piece.now
            (offset / 4096) (div_ceil (offset + length piece.now) 4096 - offset / 4096) }
        ensures never_fails { IsOk result }
        ensures size { self.new.size ≡ self.old.size }
        ensures written { image_of self.new
            ≡ overwritten (image_of self.old) offset (length piece.now) piece.now }
        ensures held { (k : ℕ) → is_held self.new k ≡ is_held self.old k }
    {
        let mut number = self.end_of(offset, piece.len()).div_ceil(PAGE);
        while let Some(page) = pages.pop() {
            number -= 1;
            self.replace(number, page)?;
        }
        Ok(())
    }

    // Takes out the memory for pages that it makes, until `take_back`.
    fn lend(&mut self) -> Spares<A>
        ensures { self.new ≡ self.old }
    {
        self.swept.lend(self.alloc)
    }

    fn take_back(&mut self, spares: Spares<A>)
        ensures { self.new ≡ self.old }
    {
        self.swept.take_back(spares);
    }

    // Lets a payload go that was written. The memory of its pages is for those that the image makes.
    fn take_apart(&mut self, piece: Payload<A>)
        ensures { self.new ≡ self.old }
    {
        let mut spares = self.lend();
        piece.recycle(&mut spares);
        self.take_back(spares);
    }

    // Writes a piece that lies in one page.
    fn write_one(
        &mut self,
        spares: &mut Spares<A>,
        offset: usize,
        piece: &Payload<A>,
    ) -> Result<(), NoMemory>
        requires one_page { offset % 4096 + length piece.now ≤ 4096 }
        requires some { 0 < length piece.now }
        requires within { offset + length piece.now ≤ length (image_of self.old) }
        ensures written { OnOk result (image_of self.new
            ≡ overwritten (image_of self.old) offset (length piece.now) piece.now) }
        ensures held { OnOk result ((k : ℕ) → is_held self.new k
            ≡ (is_held self.old k || has_byte_of offset (length piece.now) k)) }
        ensures no_memory { OnErr result (image_of self.new ≡ image_of self.old) }
    {
        let number = offset / PAGE;
        let page = self.page_after(spares, number, offset, piece)?;
        self.replace(number, page)?;
        Ok(())
    }

    // Puts a page in the place of one that is stored. It takes no memory.
    fn put_page(&mut self, offset: usize, page: Page<A>)
        requires paged { offset % 4096 ≡ 0 }
        requires whole { length page ≡ 4096 }
        requires within { offset + 4096 ≤ length (image_of self.old) }
        requires stored { is_stored self.old (offset / 4096) ≡ true }
        ensures written { image_of self.new
            ≡ overwritten (image_of self.old) offset (length page) page }
        ensures held { (k : ℕ) → is_held self.new k ≡ is_held self.old k }
        ensures stored { (k : ℕ) → is_stored self.old k ≡ true → is_stored self.new k ≡ true }
    {
        let _end = self.end_of(offset, PAGE);
        let Ok(()) = self.replace(offset / PAGE, page) else {
            unreachable!();
        };
    }

    // Writes a piece, wherever it lies. No page changes before each is stored and the one in its place is ready.
    fn write_many(
        &mut self,
        spares: &mut Spares<A>,
        offset: usize,
        piece: &Payload<A>,
    ) -> Result<(), NoMemory>
        requires some { 0 < length piece.now }
        requires within { offset + length piece.now ≤ length (image_of self.old) }
        ensures written { OnOk result (image_of self.new
            ≡ overwritten (image_of self.old) offset (length piece.now) piece.now) }
        ensures held { OnOk result ((k : ℕ) → is_held self.new k
            ≡ (is_held self.old k || has_byte_of offset (length piece.now) k)) }
        ensures no_memory { OnErr result (image_of self.new ≡ image_of self.old) }
    {
        self.store_all(offset, piece.len())?;
        let pages = self.pages_after(spares, offset, piece)?;
        self.put_all(offset, piece, pages)
    }

    // Writes a piece from the beginning of a page on, where it is several whole pages; false where it isn't.
    fn write_whole(&mut self, offset: usize, piece: &Payload<A>) -> Result<bool, NoMemory>
        requires paged { offset % 4096 ≡ 0 }
        requires within { offset + length piece.now ≤ length (image_of self.old) }
        ensures written { IfOk result (λ whole. OnTrue whole (image_of self.new
            ≡ overwritten (image_of self.old) offset (length piece.now) piece.now)) }
        ensures held { IfOk result (λ whole. OnTrue whole ((k : ℕ) → is_held self.new k
            ≡ (is_held self.old k || has_byte_of offset (length piece.now) k))) }
        ensures other { IfOk result (λ whole. OnFalse whole (self.new ≡ self.old)) }
        ensures no_memory { OnErr result (image_of self.new ≡ image_of self.old) }
    {
        let Some(pages) = piece.whole_pages(self.alloc)? else {
            return Ok(false);
        };
        let bytes = piece.len();
        self.store_all(offset, bytes)?;
        self.put_whole(offset, bytes, pages);
        Ok(true)
    }

    // Writes a piece, and makes pages by spare memory.
    fn write_by(
        &mut self,
        spares: &mut Spares<A>,
        offset: usize,
        piece: &Payload<A>,
    ) -> Result<(), NoMemory>
        requires { offset + length piece.now ≤ length (image_of self.old) }
        ensures written { OnOk result (image_of self.new
            ≡ overwritten (image_of self.old) offset (length piece.now) piece.now) }
        ensures held { OnOk result ((k : ℕ) → is_held self.new k
            ≡ (is_held self.old k || has_byte_of offset (length piece.now) k)) }
        ensures no_memory { OnErr result (image_of self.new ≡ image_of self.old) }
    {
        if piece.is_empty() {
            return Ok(());
        }
        if in_page(offset, piece.len()) == piece.len() {
            return self.write_one(spares, offset, piece);
        }
        if offset % PAGE == 0 && self.write_whole(offset, piece)? {
            return Ok(());
        }
        self.write_many(spares, offset, piece)
    }

    // Puts pages of so many bytes in the place of those that are stored from a position on. It takes no memory.
    fn put_whole(&mut self, offset: usize, count: usize, mut pages: Vec<Page<A>, A>)
        requires paged { offset % 4096 ≡ 0 }
        requires whole { AreWhole pages.items }
        requires counted { count ≡ length (concat pages.items) }
        requires within { offset + count ≤ length (image_of self.old) }
        requires stored { (j : ℕ) → j < length pages.items
            → is_stored self.old (offset / 4096 + j) ≡ true }
        ensures written { image_of self.new
            ≡ overwritten (image_of self.old) offset count (concat pages.items) }
        ensures held { (k : ℕ) → is_held self.new k ≡ is_held self.old k }
    {
        let _end = self.end_of(offset, count);
        self.pages.exchange(offset / PAGE, pages.as_mut_slice());
        self.swept.take_pages(pages);
    }

    // Writes a piece from the beginning of a page on, and takes its pages where nobody else has them. Where memory is refused the piece
    // is as it was.
    fn put_several(&mut self, offset: usize, piece: &mut Payload<A>) -> Result<(), NoMemory>
        requires paged { offset % 4096 ≡ 0 }
        requires within { offset + length piece.old ≤ length (image_of self.old) }
        ensures written { OnOk result (image_of self.new
            ≡ overwritten (image_of self.old) offset (length piece.old) piece.old) }
        ensures held { OnOk result ((k : ℕ) → is_held self.new k
            ≡ (is_held self.old k || has_byte_of offset (length piece.old) k)) }
        ensures no_memory { OnErr result ((image_of self.new ≡ image_of self.old)
            × (piece.new ≡ piece.old)) }
    {
        let count = piece.len();
        self.store_all(offset, count)?;
        match mem::replace(piece, Payload::new()).into_whole_pages() {
            Ok(pages) => {
                self.put_whole(offset, count, pages);
                Ok(())
            }
            Err(back) => {
                *piece = back;
                self.write(offset, piece)?;
                self.take_apart(mem::replace(piece, Payload::new()));
                Ok(())
            }
        }
    }

    // Makes a range zero, and holds its pages. It has all its memory before a byte changes.
    fn hold_zeros(&mut self, offset: usize, count: usize) -> Result<(), NoMemory>
        requires some { 0 < count }
        requires within { offset + count ≤ length (image_of self.old) }
        ensures zeroed { OnOk result (image_of self.new
            ≡ overwritten (image_of self.old) offset count (replicate count 0)) }
        ensures held { OnOk result ((k : ℕ)
            → is_held self.new k ≡ (is_held self.old k || has_byte_of offset count k)) }
        ensures no_memory { OnErr result (image_of self.new ≡ image_of self.old) }
    {
        let empty = emptied_pages(&self.pages, self.size, offset, count);
        self.zeros.add(self.alloc, empty.first, empty.end)?;
        zero_pages(
            &mut self.pages,
            self.alloc,
            self.size,
            offset,
            count,
            &mut self.swept,
        );
        Ok(())
    }

    // Makes a range zero, and gives back what lies whole in it.
    fn give_back(&mut self, offset: usize, count: usize)
        requires some { 0 < count }
        requires within { offset + count ≤ length (image_of self.old) }
        ensures zeroed { image_of self.new
            ≡ overwritten (image_of self.old) offset count (replicate count 0) }
        ensures held { (k : ℕ) → is_held self.new k
            ≡ (is_held self.old k && not (lies_whole_in self.old.size offset count k)) }
    {
        let whole = whole_pages(self.size, offset, count);
        self.zeros.remove(whole.first, whole.end);
        zero_pages(
            &mut self.pages,
            self.alloc,
            self.size,
            offset,
            count,
            &mut self.swept,
        );
    }
}

impl<A: Allocator + Copy> Image for Paged<A> {
    type Alloc = A;

    ghost bytes = { image_of };

    fn zeros(alloc: A, size: usize) -> Result<Paged<A>, NoMemory>
        ensures never_fails { IsOk result }
        ensures zeros { IfOk result (λ image. image_of image ≡ replicate size 0) }
        ensures none_held { IfOk result (λ image. (k : ℕ) → is_held image k ≡ false) }
    {
        let pages = Table::new(alloc);
        let zeros = HeldZeros::none(alloc);
        Ok(Paged {
            alloc,
            size,
            pages,
            zeros,
            swept: Swept::new(alloc),
            offers: Offers::none(),
        })
    }

    fn size(&self) -> usize {
        self.size
    }

    fn read(&self, offset: usize, count: usize) -> Result<Payload<A>, NoMemory> {
        let (first, start) = (offset / PAGE, offset % PAGE);
        if in_page(offset, count) == count {
            let page = self.page_of(first)?;
            return Ok(Payload::of(page, start, count));
        }
        let end = self.end_of(offset, count).div_ceil(PAGE);
        let pages = self.pages_between(first, end)?;
        let payload = Payload::among(self.alloc, pages, start, start + count)?;
        Ok(payload)
    }

    fn write(&mut self, offset: usize, piece: &Payload<A>) -> Result<(), NoMemory>
        requires { offset + length piece.now ≤ length (image_of self.old) }
        ensures written { OnOk result (image_of self.new
            ≡ overwritten (image_of self.old) offset (length piece.now) piece.now) }
        ensures held { OnOk result ((k : ℕ) → is_held self.new k
            ≡ (is_held self.old k || has_byte_of offset (length piece.now) k)) }
        ensures no_memory { OnErr result (image_of self.new ≡ image_of self.old) }
    {
        let mut spares = self.lend();
        let written = self.write_by(&mut spares, offset, piece);
        self.take_back(spares);
        written
    }

    fn put(&mut self, offset: usize, piece: &mut Payload<A>) -> Result<(), NoMemory>
        requires { offset + length piece.old ≤ length (image_of self.old) }
        ensures written { OnOk result (image_of self.new
            ≡ overwritten (image_of self.old) offset (length piece.old) piece.old) }
        ensures held { OnOk result ((k : ℕ) → is_held self.new k
            ≡ (is_held self.old k || has_byte_of offset (length piece.old) k)) }
        ensures no_memory { OnErr result ((image_of self.new ≡ image_of self.old)
            × (piece.new ≡ piece.old)) }
    {
        if offset % PAGE != 0 || !self.stores(offset / PAGE) {
            self.write(offset, piece)?;
            self.take_apart(mem::replace(piece, Payload::new()));
            return Ok(());
        }
        match mem::replace(piece, Payload::new()).into_page() {
            Ok(page) => {
                self.put_page(offset, page);
                Ok(())
            }
            Err(several) => {
                *piece = several;
                self.put_several(offset, piece)
            }
        }
    }

    fn zero(&mut self, offset: usize, count: usize, keep: bool) -> Result<(), NoMemory>
        requires { offset + count ≤ length (image_of self.old) }
        ensures gives_back { OnFalse keep (IsOk result) }
        ensures zeroed { OnOk result (image_of self.new
            ≡ overwritten (image_of self.old) offset count (replicate count 0)) }
        ensures held { OnOk result ((k : ℕ) → is_held self.new k
            ≡ (if keep then is_held self.old k || has_byte_of offset count k
            else is_held self.old k && not (lies_whole_in self.old.size offset count k))) }
        ensures no_memory { OnErr result (image_of self.new ≡ image_of self.old) }
    {
        if count == 0 {
            let _end = self.end_of(offset, count);
            return Ok(());
        }
        if keep {
            return self.hold_zeros(offset, count);
        }
        self.give_back(offset, count);
        Ok(())
    }

    fn offer(&mut self, offset: usize, count: usize, other: &Paged<A>)
        ensures { self.new ≡ self.old }
    {
        let before = mem::replace(&mut self.offers, other.ends_of(offset, count));
        before.let_go(&mut self.swept);
    }

    fn sweep(&mut self, swept: &mut Swept<A>)
        ensures { self.new ≡ self.old }
    {
        mem::swap(&mut self.swept, swept);
    }
}
