ghost use Rattle.std.specs.Prelude.{◌≡◌, ℕ, ◌+◌, ◌*◌, ◌/◌, ◌%◌, ◌<◌, ◌≤◌, ◌^◌, ◌≢◌, ◌||◌, ◌&&◌, not, unwrap_or, [], None, Some, IsSome, IfSome, OnOk, OnErr, true, false, if◌then◌else◌};
ghost use Rattle.std.specs.Int.{div_ceil};
ghost use Rattle.number_sets.specs.Bits.{is_set, any_set, is_between, count_of};
ghost use Rattle.number_sets.specs.Marks.{bitmap_of, is_marked};

use crate::bitmap::{BITMAP, Bitmap};
use crate::least::least_from;
use nbd_base::NoMemory;
use std::alloc::Allocator;
use std::collections::BTreeMap;
use std::marker::Model;

/// Which pages are held zeros, by their numbers: in bitmaps, each of which goes once it has no member.
#[derive(Drop)]
pub struct HeldZeros<A: Allocator + Copy> {
    bitmaps: BTreeMap<usize, Bitmap<A>, A>,
}

impl<A: Allocator + Copy> Model for HeldZeros<A> {
    ghost use Rattle.std.specs.Prelude.{ℕ, List};
    ghost use Rattle.number_sets.specs.Marks.{AreUsed};

    ghost Value = { List (ℕ × List ℕ) };

    ghost view = { λ zeros. zeros.bitmaps.entries };

    ghost invariant = { λ zeros. AreUsed zeros.bitmaps.entries };
}

// A bitmap is there from now on.
fn make_bitmap<A: Allocator + Copy>(
    bitmaps: &mut BTreeMap<usize, Bitmap<A>, A>,
    alloc: A,
    number: usize,
) -> Result<(), NoMemory>
    ensures same { (k : ℕ) → is_marked bitmaps.new.entries k ≡ is_marked bitmaps.old.entries k }
    ensures there { OnOk result (IsSome (bitmap_of bitmaps.new.entries number)) }
    ensures others { (q : ℕ) → q ≢ number
        → bitmap_of bitmaps.new.entries q ≡ bitmap_of bitmaps.old.entries q }
    ensures stays { IsSome (bitmap_of bitmaps.old.entries number)
        → bitmap_of bitmaps.new.entries number ≡ bitmap_of bitmaps.old.entries number }
{
    if bitmaps.contains_key(&number) {
        return Ok(());
    }
    let made = Bitmap::none(alloc)?;
    bitmaps.insert(number, made)?;
    Ok(())
}

// The bitmaps from one on before an end are there from now on. Where memory is refused some may be that weren't.
fn make_bitmaps<A: Allocator + Copy>(
    bitmaps: &mut BTreeMap<usize, Bitmap<A>, A>,
    alloc: A,
    first: usize,
    end: usize,
) -> Result<(), NoMemory>
    ensures same { (k : ℕ) → is_marked bitmaps.new.entries k ≡ is_marked bitmaps.old.entries k }
    ensures there { OnOk result ((q : ℕ) → first ≤ q → q < end
        → IsSome (bitmap_of bitmaps.new.entries q)) }
    ensures others { (q : ℕ) → is_between first end q ≡ false
        → bitmap_of bitmaps.new.entries q ≡ bitmap_of bitmaps.old.entries q }
{
    for number in first..end {
        make_bitmap(bitmaps, alloc, number)?;
    }
    Ok(())
}

// A bitmap goes where it has no member.
fn drop_empty<A: Allocator + Copy>(bitmaps: &mut BTreeMap<usize, Bitmap<A>, A>, number: usize)
    ensures same { (k : ℕ) → is_marked bitmaps.new.entries k ≡ is_marked bitmaps.old.entries k }
    ensures used { IfSome (bitmap_of bitmaps.new.entries number) (λ words. any_set words ≡ true) }
    ensures others { (q : ℕ) → q ≢ number
        → bitmap_of bitmaps.new.entries q ≡ bitmap_of bitmaps.old.entries q }
{
    let Some(bitmap) = bitmaps.get(&number) else {
        return;
    };
    if bitmap.any() {
        return;
    }
    bitmaps.remove(&number);
}

// Those from one on before an end that have no member go.
fn drop_all_empty<A: Allocator + Copy>(
    bitmaps: &mut BTreeMap<usize, Bitmap<A>, A>,
    first: usize,
    end: usize,
)
    ensures same { (k : ℕ) → is_marked bitmaps.new.entries k ≡ is_marked bitmaps.old.entries k }
    ensures used { (q : ℕ) → first ≤ q → q < end
        → IfSome (bitmap_of bitmaps.new.entries q) (λ words. any_set words ≡ true) }
    ensures others { (q : ℕ) → is_between first end q ≡ false
        → bitmap_of bitmaps.new.entries q ≡ bitmap_of bitmaps.old.entries q }
{
    for number in first..end {
        drop_empty(bitmaps, number);
    }
}

// Numbers of a bitmap that is there are members from now on, or aren't: those from the first on before an end.
fn put_in<A: Allocator + Copy>(
    bitmaps: &mut BTreeMap<usize, Bitmap<A>, A>,
    bitmap: usize,
    first: usize,
    end: usize,
    member: bool,
)
    requires there { IsSome (bitmap_of bitmaps.old.entries bitmap) }
    requires before { 16384 * bitmap < end }
    ensures here { (k : ℕ) → k / 16384 ≡ bitmap
        → is_marked bitmaps.new.entries k
        ≡ (if is_between first end k then member else is_marked bitmaps.old.entries k) }
    ensures there { IsSome (bitmap_of bitmaps.new.entries bitmap) }
    ensures others { (q : ℕ) → q ≢ bitmap
        → bitmap_of bitmaps.new.entries q ≡ bitmap_of bitmaps.old.entries q }
{
    let begin = bitmap * BITMAP;
    let upto = (end - begin).min(BITMAP);
    let Some(found) = bitmaps.get_mut(&bitmap) else {
        unreachable!();
    };
    found.put(first.saturating_sub(begin), upto, member);
}

// Numbers from the first on before an end are members from now on, all of whose bitmaps are there.
fn put_all<A: Allocator + Copy>(
    bitmaps: &mut BTreeMap<usize, Bitmap<A>, A>,
    first: usize,
    end: usize,
)
    requires { (q : ℕ) → first / 16384 ≤ q → q < div_ceil end 16384
        → IsSome (bitmap_of bitmaps.old.entries q) }
    ensures put { (k : ℕ) → is_marked bitmaps.new.entries k
        ≡ (if is_between first end k then true else is_marked bitmaps.old.entries k) }
    ensures others { (q : ℕ) → is_between (first / 16384) (div_ceil end 16384) q ≡ false
        → bitmap_of bitmaps.new.entries q ≡ bitmap_of bitmaps.old.entries q }
{
    for bitmap in first / BITMAP..end.div_ceil(BITMAP) {
        put_in(bitmaps, bitmap, first, end, true);
    }
}

impl<A: Allocator + Copy> HeldZeros<A> {
    /// No page is.
    pub fn none(alloc: A) -> HeldZeros<A>
        ensures { (k : ℕ) → is_marked result k ≡ false }
    {
        let bitmaps = BTreeMap::new(alloc);
        HeldZeros { bitmaps }
    }

    /// Whether a page is.
    pub fn has(&self, number: usize) -> bool
        ensures { result ≡ is_marked self.now number }
    {
        match self.bitmaps.get(&(number / BITMAP)) {
            Some(bitmap) => bitmap.has(number % BITMAP),
            None => false,
        }
    }

    /// The pages from a number on before an end are from now on. It has all its memory before one more is.
    pub fn add(&mut self, alloc: A, first: usize, end: usize) -> Result<(), NoMemory>
        ensures added { OnOk result ((k : ℕ) → is_marked self.new k
            ≡ (if is_between first end k then true else is_marked self.old k)) }
        ensures no_memory { OnErr result ((k : ℕ) → is_marked self.new k ≡ is_marked self.old k) }
    {
        if first >= end {
            return Ok(());
        }
        let (from, to) = (first / BITMAP, end.div_ceil(BITMAP));
        if make_bitmaps(&mut self.bitmaps, alloc, from, to).is_err() {
            drop_all_empty(&mut self.bitmaps, from, to);
            return Err(NoMemory);
        }
        put_all(&mut self.bitmaps, first, end);
        Ok(())
    }

    // The first bitmap that is there, from one on before an end.
    fn next_bitmap(&self, from: usize, end: usize) -> Option<usize>
        requires { from ≤ end }
        ensures begins { IfSome result (λ number. from ≤ number) }
        ensures ends { IfSome result (λ number. number < end) }
        ensures there { IfSome result (λ number. IsSome (bitmap_of self.now number)) }
        ensures first { IfSome result (λ number. (q : ℕ) → from ≤ q → q < number
            → bitmap_of self.now q ≡ None) }
        ensures none { result ≡ None → (q : ℕ) → from ≤ q → q < end → bitmap_of self.now q ≡ None }
    {
        least_from(&self.bitmaps, from, end)
    }

    // Pages of a bitmap that is there aren't any more, from a number on before an end.
    fn remove_in(&mut self, bitmap: usize, first: usize, end: usize)
        requires there { IsSome (bitmap_of self.old bitmap) }
        requires before { 16384 * bitmap < end }
        ensures here { (k : ℕ) → k / 16384 ≡ bitmap
            → is_marked self.new k
            ≡ (if is_between first end k then false else is_marked self.old k) }
        ensures others { (q : ℕ) → q ≢ bitmap → bitmap_of self.new q ≡ bitmap_of self.old q }
    {
        let begin = bitmap * BITMAP;
        if first <= begin && end - begin >= BITMAP {
            self.bitmaps.remove(&bitmap);
            return;
        }
        put_in(&mut self.bitmaps, bitmap, first, end, false);
        drop_empty(&mut self.bitmaps, bitmap);
    }

    /// The pages from a number on before an end aren't any more. It looks at the bitmaps that are there alone.
    pub fn remove(&mut self, first: usize, end: usize)
        ensures { (k : ℕ) → is_marked self.new k
            ≡ (if is_between first end k then false else is_marked self.old k) }
    {
        if first >= end {
            return;
        }
        let last = end.div_ceil(BITMAP);
        let mut next = first / BITMAP;
        while let Some(bitmap) = self.next_bitmap(next, last) {
            self.remove_in(bitmap, first, end);
            next = bitmap + 1;
        }
    }

    // How many pages of a bitmap are.
    fn count_in(&self, bitmap: usize) -> usize
        ensures count { result ≡ count_of (is_marked self.now) (16384 * bitmap) 16384 }
        ensures few { result ≤ 16384 }
    {
        match self.bitmaps.get(&bitmap) {
            Some(found) => found.count(),
            None => 0,
        }
    }

    /// How many pages of the first bitmaps are. It looks at those that are there alone.
    pub fn count(&self, bitmaps: usize) -> usize
        requires { 16384 * bitmaps < 2 ^ 64 }
        ensures { result ≡ count_of (is_marked self.now) 0 (16384 * bitmaps) }
    {
        let mut count = 0;
        let mut from = 0;
        while let Some(bitmap) = self.next_bitmap(from, bitmaps) {
            count += self.count_in(bitmap);
            from = bitmap + 1;
        }
        count
    }
}
