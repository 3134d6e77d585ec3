ghost use Rattle.std.specs.Prelude.{◌≡◌, ◌≢◌, ℕ, ◌+◌, ◌<◌, ◌≤◌, None, Some, IfSome, true, IsSome, IfOk, IfErr, OnOk, OnErr, length, get_or, set, replicate, if◌then◌else◌};
ghost use Rattle.number_sets.specs.Bits.{is_between};
ghost use Rattle.page_table.specs.Table.{in_chunk, put_from, taken};

use crate::places::Places;
use nbd_base::NoMemory;
use payload::{ChunkPages, Page, Swept};
use std::alloc::Allocator;
use std::marker::Model;
use std::mem;

/// Where the pages of a chunk are.
#[derive(Drop)]
enum Pages<A: Allocator + Copy> {
    /// None is stored.
    Nowhere,
    /// One alone, in a place.
    One(u8, Page<A>),
    /// Several, or what is left of them.
    Many(Places<Page<A>, A>),
}

/// Places for 256 pages in a row, in some of which one is stored. One alone, as there often is where pages lie far apart, lies in the
/// chunk itself, so that it is found without a look elsewhere.
#[derive(Drop)]
pub(crate) struct Chunk<A: Allocator + Copy> {
    pages: Pages<A>,
}

impl<A: Allocator + Copy> Model for Chunk<A> {
    ghost use Rattle.page_table.specs.Table.{Chunk as Seen};
    ghost use Rattle.page_table.specs.Chunk.{in_pages};

    ghost Value = { Seen };

    ghost view = { λ chunk. in_pages chunk.pages };
}

// Two pages in their places. Where memory is refused, the first is handed back.
fn together<A: Allocator + Copy>(
    alloc: A,
    first: (u8, Page<A>),
    place: usize,
    page: Page<A>,
) -> Result<Places<Page<A>, A>, (u8, Page<A>)>
    requires place { place < 256 }
    requires apart { place ≢ first.0 }
    ensures made { IfOk result (λ pages. pages
        ≡ set (set (replicate 256 None) first.0 (Some first.1)) place (Some page)) }
    ensures back { IfErr result (λ back. back ≡ first) }
{
    let mut pages = Places::new(alloc);
    let Ok(()) = pages.add(place, page) else {
        return Err(first);
    };
    let (at, page) = first;
    match pages.add(at as usize, page) {
        Ok(()) => Ok(pages),
        Err(page) => Err((at, page)),
    }
}

impl<A: Allocator + Copy> Chunk<A> {
    /// One page is stored.
    pub(crate) fn holding(place: usize, page: Page<A>) -> Chunk<A>
        requires { place < 256 }
        ensures { result ≡ set (replicate 256 None) place (Some page) }
    {
        let pages = Pages::One(place as u8, page);
        Chunk { pages }
    }

    /// How many pages are stored.
    pub(crate) fn count(&self) -> usize
        ensures count { result ≡ taken self.now }
        ensures few { result ≤ 256 }
        ensures long { length self.now ≡ 256 }
    {
        match &self.pages {
            Pages::Nowhere => 0,
            Pages::One(at, _) => {
                // Read, so that it is known to be one of the 256 places.
                let _place = *at;
                1
            }
            Pages::Many(pages) => pages.count(),
        }
    }

    /// The page in a place.
    pub(crate) fn get(&self, place: usize) -> Option<&Page<A>>
        requires { place < 256 }
        ensures some { IfSome result (λ page. get_or self.now place None ≡ Some page.now) }
        ensures none { result ≡ None → get_or self.now place None ≡ None }
    {
        match &self.pages {
            Pages::Nowhere => None,
            Pages::One(at, page) => {
                if *at as usize == place {
                    return Some(page);
                }
                None
            }
            Pages::Many(pages) => pages.get(place),
        }
    }

    /// Puts a page in the place of one, which is the answer. Where there is none, the page is handed back.
    pub(crate) fn exchange(&mut self, place: usize, page: Page<A>) -> Result<Page<A>, Page<A>>
        requires { place < 256 }
        ensures before { IfOk result (λ before. get_or self.old place None ≡ Some before) }
        ensures after { OnOk result (self.new ≡ set self.old place (Some page)) }
        ensures none { OnErr result (get_or self.old place None ≡ None) }
        ensures back { IfErr result (λ back. back ≡ page) }
        ensures same { OnErr result (self.new ≡ self.old) }
        ensures long { length self.old ≡ 256 }
    {
        match &mut self.pages {
            Pages::Nowhere => Err(page),
            Pages::One(at, stored) => {
                if *at as usize == place {
                    return Ok(mem::replace(stored, page));
                }
                Err(page)
            }
            Pages::Many(pages) => pages.exchange(place, page),
        }
    }

    /// Exchanges pages for those in the places from one on, in each of which one is.
    pub(crate) fn exchange_all(&mut self, first: usize, pages: &mut [Page<A>])
        requires within { first + length pages.old ≤ 256 }
        requires some { 0 < length pages.old }
        requires there { (k : ℕ) → is_between first (first + length pages.old) k ≡ true
            → IsSome (in_chunk (Some self.old) k) }
        ensures here { (k : ℕ) → in_chunk (Some self.new) k
            ≡ put_from first pages.old (in_chunk (Some self.old)) k }
        ensures long { length pages.new ≡ length pages.old }
    {
        match &mut self.pages {
            Pages::Nowhere => {}
            Pages::One(at, stored) => {
                // Read, so that it is known to be one of the 256 places.
                let _place = *at;
                mem::swap(stored, &mut pages[0]);
            }
            Pages::Many(places) => places.exchange_all(first, pages),
        }
    }

    /// Puts a page where none is.
    pub(crate) fn add(&mut self, alloc: A, place: usize, page: Page<A>) -> Result<(), NoMemory>
        requires place { place < 256 }
        requires none { get_or self.old place None ≡ None }
        ensures added { OnOk result (self.new ≡ set self.old place (Some page)) }
        ensures no_memory { OnErr result (self.new ≡ self.old) }
        ensures long { length self.old ≡ 256 }
    {
        let (pages, added) = match mem::replace(&mut self.pages, Pages::Nowhere) {
            Pages::Nowhere => (Pages::One(place as u8, page), Ok(())),
            Pages::One(at, first) => match together(alloc, (at, first), place, page) {
                Ok(pages) => (Pages::Many(pages), Ok(())),
                Err((at, first)) => (Pages::One(at, first), Err(NoMemory)),
            },
            Pages::Many(mut pages) => match pages.add(place, page) {
                Ok(()) => (Pages::Many(pages), Ok(())),
                Err(_) => (Pages::Many(pages), Err(NoMemory)),
            },
        };
        self.pages = pages;
        added
    }

    // Takes the page out of a place.
    fn take(&mut self, place: usize) -> Option<Page<A>>
        requires { place < 256 }
        ensures before { result ≡ get_or self.old place None }
        ensures after { self.new ≡ set self.old place None }
        ensures long { length self.old ≡ 256 }
    {
        let (pages, taken) = match mem::replace(&mut self.pages, Pages::Nowhere) {
            Pages::Nowhere => (Pages::Nowhere, None),
            Pages::One(at, page) => {
                if at as usize == place {
                    (Pages::Nowhere, Some(page))
                } else {
                    (Pages::One(at, page), None)
                }
            }
            Pages::Many(mut pages) => {
                let taken = pages.take(place);
                (Pages::Many(pages), taken)
            }
        };
        self.pages = pages;
        taken
    }

    /// No page is stored from the first place on before an end from now on. The pages are swept out.
    pub(crate) fn remove(&mut self, first: usize, end: usize, swept: &mut Swept<A>)
        requires { end ≤ 256 }
        ensures { (k : ℕ) → in_chunk (Some self.new) k
            ≡ (if is_between first end k then None else in_chunk (Some self.old) k) }
    {
        for place in first..end {
            if let Some(page) = self.take(place) {
                swept.take_page(page);
            }
        }
    }

    /// All its pages are swept out together.
    pub(crate) fn let_go(self, swept: &mut Swept<A>) {
        let Chunk { pages } = self;
        match pages {
            Pages::Nowhere => {}
            Pages::One(_, page) => swept.take_chunk(ChunkPages::One(page)),
            Pages::Many(pages) => swept.take_chunk(ChunkPages::Many(pages.into_items())),
        }
    }
}
