ghost use Rattle.std.specs.Prelude.{◌≡◌, ℕ, ◌+◌, ◌-◌, ◌<◌, ◌≤◌, ◌||◌, ◌&&◌, ◌==◌, [], not, length, get_or, vec_capacity, if◌then◌else◌, true, false, None, IfSome, IfOk, OnOk, OnErr};
ghost use Rattle.number_sets.specs.Bits.{is_set, is_between};
ghost use Rattle.page_table.specs.Holes.{is_hole, is_noted, rows_before, AreOrdered};

use nbd_base::NoMemory;
use number_sets::bits;
use std::alloc::Allocator;
use std::marker::Model;

// Room grows by this and an eighth.
const FIRST_ROOM: usize = 32;

/// The number of a page, and a bit for each of its bytes.
type Row = (usize, [u64; 64]);

/// Which bytes of pages are zeros, whatever else stands there. It has memory for as many pages as are counted in (`add_page`), and
/// doesn't touch it before there is such a byte.
#[derive(Drop)]
pub(crate) struct Holes<A: Allocator + Copy> {
    // In the order of the pages' numbers.
    rows: Vec<Row, A>,
    pages: usize,
}

impl<A: Allocator + Copy> Model for Holes<A> {
    ghost use Rattle.std.specs.Prelude.{◌≡◌, ◌≤◌, vec_capacity};
    ghost use Rattle.page_table.specs.Holes.{Holes as Seen, AreOrdered};

    ghost Value = { Seen };

    ghost view = { λ holes. record { rows = holes.rows.items; pages = holes.pages } };

    ghost invariant = { λ holes. AreOrdered 0 holes.rows.items
        × (holes.pages ≤ vec_capacity holes.rows) };
}

// Puts a vector with room for more in the place of one. The old one's memory isn't copied beyond its rows, so what was never touched
// stays so.
fn make_room<A: Allocator + Copy>(alloc: A, rows: &mut Vec<Row, A>) -> Result<(), NoMemory>
    ensures rows { rows.new.items ≡ rows.old.items }
    ensures room { OnOk result (vec_capacity rows.old < vec_capacity rows.new) }
    ensures no_memory { OnErr result (rows.new ≡ rows.old) }
{
    let room = rows.capacity();
    let mut more = Vec::with_capacity(alloc, room + room / 8 + FIRST_ROOM)?;
    let Ok(()) = more.append(rows) else {
        unreachable!();
    };
    *rows = more;
    Ok(())
}

impl<A: Allocator + Copy> Holes<A> {
    /// None, and room for none. It takes no memory.
    pub(crate) fn none(alloc: A) -> Holes<A>
        ensures rows { result.rows ≡ [] }
        ensures pages { result.pages ≡ 0 }
    {
        Holes {
            rows: Vec::new(alloc),
            pages: 0,
        }
    }

    /// There is room for one more page.
    pub(crate) fn add_page(&mut self, alloc: A) -> Result<(), NoMemory>
        ensures rows { self.new.rows ≡ self.old.rows }
        ensures pages { OnOk result (self.new.pages ≡ self.old.pages + 1) }
        ensures no_memory { OnErr result (self.new ≡ self.old) }
    {
        if self.pages == self.rows.capacity() {
            make_room(alloc, &mut self.rows)?;
        }
        self.pages += 1;
        Ok(())
    }

    /// So many pages are there no longer.
    pub(crate) fn remove_pages(&mut self, count: usize)
        requires { count ≤ self.old.pages }
        ensures rows { self.new.rows ≡ self.old.rows }
        ensures pages { self.new.pages + count ≡ self.old.pages }
    {
        self.pages -= count;
    }

    // How many rows are of pages before one.
    fn find(&self, page: usize) -> usize
        ensures place { result ≡ rows_before self.now.rows page }
        ensures within { result ≤ length self.now.rows }
        ensures ordered { AreOrdered 0 self.now.rows }
    {
        let mut from = 0;
        let mut to = self.rows.len();
        while from < to {
            let middle = from + (to - from) / 2;
            if self.rows[middle].0 < page {
                from = middle + 1;
            } else {
                to = middle;
            }
        }
        from
    }

    // Whether the row of a page is the one before which there are so many.
    fn has(&self, at: usize, page: usize) -> bool
        requires { at ≡ rows_before self.now.rows page }
        ensures { result ≡ is_noted self.now.rows page }
    {
        if at >= self.rows.len() {
            return false;
        }
        self.rows[at].0 == page
    }

    /// A bit for each byte of a page, where there may be any.
    pub(crate) fn of(&self, page: usize) -> Option<&[u64]>
        ensures some { IfSome result (λ words. (k : ℕ)
            → is_hole self.now.rows page k ≡ is_set words.now k) }
        ensures none { result ≡ None → (k : ℕ) → is_hole self.now.rows page k ≡ false }
    {
        let at = self.find(page);
        if !self.has(at, page) {
            return None;
        }
        Some(self.rows[at].1.as_slice())
    }

    // A page has a row from now on. It takes no memory.
    fn open(&mut self, at: usize, page: usize)
        requires place { at ≡ rows_before self.old.rows page }
        requires room { is_noted self.old.rows page ≡ false
            → length self.old.rows < self.old.pages }
        ensures pages { self.new.pages ≡ self.old.pages }
        ensures place { at ≡ rows_before self.new.rows page }
        ensures noted { (p : ℕ) → is_noted self.new.rows p ≡ (is_noted self.old.rows p || (p == page)) }
        ensures holes { (p k : ℕ) → is_hole self.new.rows p k ≡ is_hole self.old.rows p k }
    {
        if self.has(at, page) {
            return;
        }
        let Ok(()) = self.rows.insert(at, (page, [0; 64])) else {
            unreachable!();
        };
    }

    /// The bytes of a range of a page are such from now on. It takes no memory.
    pub(crate) fn dig(&mut self, page: usize, start: usize, count: usize)
        requires within { start + count ≤ 4096 }
        requires room { AreOrdered 0 self.old.rows → is_noted self.old.rows page ≡ false
            → length self.old.rows < self.old.pages }
        ensures pages { self.new.pages ≡ self.old.pages }
        ensures noted { (p : ℕ) → is_noted self.new.rows p ≡ (is_noted self.old.rows p || (p == page)) }
        ensures holes { (p k : ℕ) → is_hole self.new.rows p k
            ≡ (is_hole self.old.rows p k || ((p == page) && is_between start (start + count) k)) }
    {
        let at = self.find(page);
        self.open(at, page);
        bits::put(&mut self.rows[at].1, start, start + count, true);
    }

    /// No byte of a page is one any more.
    pub(crate) fn fill(&mut self, page: usize)
        ensures pages { self.new.pages ≡ self.old.pages }
        ensures noted { (p : ℕ) → is_noted self.new.rows p ≡ (is_noted self.old.rows p && not (p == page)) }
        ensures holes { (p k : ℕ) → is_hole self.new.rows p k
            ≡ (is_hole self.old.rows p k && not (p == page)) }
    {
        let at = self.find(page);
        if self.has(at, page) {
            self.rows.remove(at);
        }
    }

    /// No byte of the pages from one on before an end is one any more.
    pub(crate) fn fill_all(&mut self, first: usize, end: usize)
        requires { first ≤ end }
        ensures pages { self.new.pages ≡ self.old.pages }
        ensures noted { (p : ℕ) → is_noted self.new.rows p
            ≡ (is_noted self.old.rows p && not (is_between first end p)) }
        ensures holes { (p k : ℕ) → is_hole self.new.rows p k
            ≡ (is_hole self.old.rows p k && not (is_between first end p)) }
    {
        let from = self.find(first);
        let to = self.find(end);
        self.rows.drain(from..to);
    }
}
