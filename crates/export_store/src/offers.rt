//! Pages that an image may take from another one.
ghost use Rattle.std.specs.Prelude.{◌≡◌, ◌+◌, ◌≤◌, length, IfSome};
ghost use Rattle.payload.specs.Bytes.{range_of, overwritten};

use crate::comparing::is_put_over;
use payload::{Page, Payload, Swept};
use std::alloc::Allocator;

/// The page that another image has under a number.
#[derive(Drop)]
pub(crate) struct Offer<A: Allocator> {
    pub(crate) number: usize,
    pub(crate) page: Page<A>,
}

/// The pages that another image has at the ends of a range, where these lie within a page.
#[derive(Drop)]
pub(crate) struct Offers<A: Allocator> {
    pub(crate) first: Option<Offer<A>>,
    pub(crate) last: Option<Offer<A>>,
}

impl<A: Allocator> Offers<A> {
    pub(crate) fn none() -> Offers<A> {
        Offers {
            first: None,
            last: None,
        }
    }

    // The page of a number.
    fn page(&self, number: usize) -> Option<&Page<A>> {
        match &self.first {
            Some(offer) if offer.number == number => return Some(&offer.page),
            _ => {}
        }
        match &self.last {
            Some(offer) if offer.number == number => Some(&offer.page),
            _ => None,
        }
    }
}

impl<A: Allocator + Copy> Offers<A> {
    // Hands out its pages, so that none is freed here.
    pub(crate) fn let_go(self, swept: &mut Swept<A>) {
        let Offers { first, last } = self;
        if let Some(offer) = first {
            swept.take_page(offer.page);
        }
        if let Some(offer) = last {
            swept.take_page(offer.page);
        }
    }

    /// The page of a number, where it is an old one with so many bytes of a piece, from one on, in place of its own from the start on.
    pub(crate) fn page_over(
        &self,
        number: usize,
        piece: &Payload<A>,
        old: &Page<A>,
        start: usize,
        from: usize,
        count: usize,
    ) -> Option<Page<A>>
        requires fits { start + count ≤ 4096 }
        requires within { from + count ≤ length piece.now }
        ensures { IfSome result (λ page.
            page ≡ overwritten old.now start count (range_of piece.now from count)) }
    {
        let Some(page) = self.page(number) else {
            return None;
        };
        if !is_put_over(piece, page, old, start, from, count) {
            return None;
        }
        page.clone().ok()
    }
}
