//! How a range of an image in pages is made zero.
ghost use Rattle.std.specs.Prelude.{◌≡◌, ℕ, ◌+◌, ◌*◌, ◌<◌, ◌≤◌, ◌&&◌, ◌^◌, not, is_some, true, if◌then◌else◌};
ghost use Rattle.number_sets.specs.Bits.{is_between};
ghost use Rattle.page_table.specs.Table.{in_table};
ghost use Rattle.export_store.specs.Pages.{has_byte_of, lies_whole_in, zeroed};

use page_table::Table;
use payload::{PAGE, Spares, Swept};
use std::alloc::Allocator;

/// The pages from a number on before an end.
#[derive(Clone, Copy, Drop)]
pub(crate) struct PageRange {
    pub(crate) first: usize,
    pub(crate) end: usize,
}

impl PageRange {
    // Whether a page is one of them.
    fn has(self, number: usize) -> bool
        ensures { result ≡ is_between self.first self.end number }
    {
        self.first <= number && number < self.end
    }
}

/// The pages that lie whole in a range.
pub(crate) fn whole_pages(size: usize, offset: usize, count: usize) -> PageRange
    requires { offset + count ≤ size }
    ensures { (k : ℕ) → 4096 * k < size
        → is_between result.first result.end k ≡ lies_whole_in size offset count k }
{
    let end = offset + count;
    let last = if end == size {
        end.div_ceil(PAGE)
    } else {
        end / PAGE
    };
    PageRange {
        first: offset.div_ceil(PAGE),
        end: last,
    }
}

// Whether a page at the edge of a range stays stored once the range is zero.
fn stays<A: Allocator + Copy>(pages: &Table<A>, whole: PageRange, number: usize) -> bool
    ensures { result
        ≡ (is_some (in_table pages.now number) && not (is_between whole.first whole.end number)) }
{
    pages.stores(number) && !whole.has(number)
}

// A number, or the next one.
fn next_if(next: bool, number: usize) -> usize
    requires { number + 1 < 2 ^ 64 }
    ensures { result ≡ (if next then number + 1 else number) }
{
    if next { number + 1 } else { number }
}

/// The pages that have a byte of a range and aren't stored once it is zero: all but those at its edges that are stored now and
/// don't lie whole in it.
pub(crate) fn emptied_pages<A: Allocator + Copy>(
    pages: &Table<A>,
    size: usize,
    offset: usize,
    count: usize,
) -> PageRange
    requires some { 0 < count }
    requires within { offset + count ≤ size }
    ensures { (k : ℕ) → is_between result.first result.end k
        ≡ (has_byte_of offset count k
        && not (is_some (in_table pages.now k) && not (lies_whole_in size offset count k))) }
{
    let whole = whole_pages(size, offset, count);
    let first = offset / PAGE;
    let last = (offset + count - 1) / PAGE;
    PageRange {
        first: next_if(stays(pages, whole, first), first),
        end: next_if(!stays(pages, whole, last), last),
    }
}

// Makes a range of an image of a size zero, and pages by spare memory. Pages that lie whole in it are stored no longer.
fn zero_by<A: Allocator + Copy>(
    pages: &mut Table<A>,
    spares: &mut Spares<A>,
    size: usize,
    offset: usize,
    count: usize,
    swept: &mut Swept<A>,
)
    requires some { 0 < count }
    requires within { offset + count ≤ size }
    requires inside { (k : ℕ) → is_some (in_table pages.old k) ≡ true → 4096 * k < size }
    ensures { (k : ℕ) → in_table pages.new k ≡ zeroed size offset count k (in_table pages.old k) }
{
    let whole = whole_pages(size, offset, count);
    pages.remove(whole.first, whole.end, swept);
    let (first, start) = (offset / PAGE, offset % PAGE);
    pages.clear(spares, first, start, count.min(PAGE - start), swept);
    let last = (offset + count - 1) / PAGE;
    if last == first {
        return;
    }
    pages.clear(spares, last, 0, offset + count - last * PAGE, swept);
}

/// Makes a range of an image of a size zero. Pages that lie whole in it are stored no longer.
pub(crate) fn zero_pages<A: Allocator + Copy>(
    pages: &mut Table<A>,
    alloc: A,
    size: usize,
    offset: usize,
    count: usize,
    swept: &mut Swept<A>,
)
    requires some { 0 < count }
    requires within { offset + count ≤ size }
    requires inside { (k : ℕ) → is_some (in_table pages.old k) ≡ true → 4096 * k < size }
    ensures { (k : ℕ) → in_table pages.new k ≡ zeroed size offset count k (in_table pages.old k) }
{
    let mut spares = swept.lend(alloc);
    zero_by(pages, &mut spares, size, offset, count, swept);
    swept.take_back(spares);
}
