ghost use Rattle.std.specs.Prelude.{◌≡◌, ◌+◌, ◌-◌, ◌<◌, ◌≤◌, ◌++◌, ◌==◌, [], length, IfOk, IfErr, IfSome, OnOk, OnErr};
ghost use Rattle.std.specs.List.{concat};
ghost use Rattle.payload.specs.Bytes.{range_of, overwritten};
ghost use Rattle.payload.specs.Rows.{AreWhole, IsRange};
ghost use Rattle.std.specs.Arc.{arc_value};

use crate::growing::Growing;
use crate::page::{PAGE, Page};
use crate::pieces::Pieces;
use crate::spares::Spares;
use bytes::Bytes;
use nbd_base::NoMemory;
use std::alloc::{AllocError, Allocator};
use std::marker::Model;
use std::sync::Arc;

// A copy of at most a page: a whole one in memory of a spare page, if there is one.
fn in_a_block<A: Allocator + Copy>(
    spares: &mut Spares<A>,
    bytes: &[u8],
) -> Result<Bytes<A>, NoMemory>
    ensures { IfOk result (λ copy. copy ≡ bytes.now) }
{
    if bytes.len() != PAGE {
        let copy = Bytes::copy_from_slice(spares.alloc(), bytes)?;
        return Ok(copy);
    }
    let mut block = spares.take()?;
    block.extend_reserved(bytes);
    let copy = block.freeze()?;
    Ok(copy)
}

// Where the bytes of a payload are.
#[derive(Drop)]
enum Kept<A: Allocator> {
    // They are a page.
    Whole(Page<A>),
    // In one piece, which isn't a page.
    Piece(Bytes<A>),
    // In pages in a row, from one of their bytes on before an end.
    Several(Arc<Vec<Page<A>, A>, A>, usize, usize),
}

// A payload of a range of the bytes of pages in a row.
fn ranging<A: Allocator>(pages: Arc<Vec<Page<A>, A>, A>, start: usize, end: usize) -> Payload<A>
    requires { IsRange (arc_value pages).items start end }
    ensures { result ≡ range_of (concat (arc_value pages).items) start (end - start) }
{
    let kept = Kept::Several(pages, start, end);
    Payload { kept }
}

// Pages in a row, where the range is all of their bytes and nobody else has them. Else they come back as a payload.
fn all_of<A: Allocator>(
    pages: Arc<Vec<Page<A>, A>, A>,
    start: usize,
    end: usize,
) -> Result<Vec<Page<A>, A>, Payload<A>>
    requires { IsRange (arc_value pages).items start end }
    ensures whole { IfOk result (λ all. AreWhole all.items) }
    ensures pages { IfOk result (λ all. concat all.items
        ≡ range_of (concat (arc_value pages).items) start (end - start)) }
    ensures back { IfErr result (λ back.
        back ≡ range_of (concat (arc_value pages).items) start (end - start)) }
{
    if start != 0 || end % PAGE != 0 || end / PAGE != pages.len() {
        return Err(ranging(pages, start, end));
    }
    match Arc::try_unwrap(pages) {
        Ok(pages) => Ok(pages),
        Err(pages) => Err(ranging(pages, start, end)),
    }
}

/// What a WRITE carries or a READ answers: bytes that don't change, in one piece or in pages in a row. A clone is one more owner
/// of them, and copies none.
#[derive(Drop)]
pub struct Payload<A: Allocator> {
    kept: Kept<A>,
}

impl<A: Allocator> Model for Payload<A> {
    ghost use Rattle.std.specs.Prelude.{ℕ, List};
    ghost use Rattle.payload.specs.Payload.{bytes_of, IsKept};

    ghost Value = { List ℕ };

    ghost view = { λ payload. bytes_of payload.kept };

    ghost invariant = { λ payload. IsKept payload.kept };
}

impl<A: Allocator> Payload<A> {
    ghost use Rattle.payload.specs.Payload.{IsLaidOut};

    /// No bytes. It takes no memory.
    pub fn new() -> Payload<A>
        ensures { result ≡ [] }
    {
        Payload::in_one_piece(Bytes::new())
    }

    /// These bytes. It takes no memory. Where there are 4,096 they are a page, and an image may hold it with what they are a
    /// slice of.
    pub fn in_one_piece(bytes: Bytes<A>) -> Payload<A>
        ensures { result ≡ bytes }
    {
        if bytes.len() == PAGE {
            let kept = Kept::Whole(Page::of(bytes));
            return Payload { kept };
        }
        Payload {
            kept: Kept::Piece(bytes),
        }
    }

    /// A range of a page.
    pub fn of(page: Page<A>, start: usize, count: usize) -> Payload<A>
        requires { start + count ≤ 4096 }
        ensures { result ≡ range_of page start count }
    {
        let mut bytes = page.into_bytes();
        bytes.advance(start);
        bytes.truncate(count);
        Payload::in_one_piece(bytes)
    }

    /// The bytes of pages in a row, from one on before an end.
    pub fn among(
        alloc: A,
        pages: Vec<Page<A>, A>,
        start: usize,
        end: usize,
    ) -> Result<Payload<A>, NoMemory>
        requires whole { AreWhole pages.items }
        requires ordered { start ≤ end }
        requires within { end ≤ length (concat pages.items) }
        ensures { IfOk result (λ payload.
            payload ≡ range_of (concat pages.items) start (end - start)) }
    {
        let pages = Arc::new(alloc, pages)?;
        Ok(Payload {
            kept: Kept::Several(pages, start, end),
        })
    }

    /// How the bytes lie.
    pub fn pieces(&self) -> Pieces<'_, A>
        ensures { IsLaidOut result self.now }
    {
        match &self.kept {
            Kept::Whole(page) => Pieces::One(page.as_bytes()),
            Kept::Piece(bytes) => Pieces::One(bytes),
            Kept::Several(pages, start, end) => Pieces::Pages(pages.as_slice(), *start, *end),
        }
    }

    /// How many bytes there are.
    pub fn len(&self) -> usize
        ensures { result ≡ length self.now }
    {
        match self.pieces() {
            Pieces::One(bytes) => bytes.len(),
            Pieces::Pages(_, start, end) => end - start,
        }
    }

    /// Whether there are none.
    pub fn is_empty(&self) -> bool
        ensures { result ≡ (length self.now == 0) }
    {
        self.len() == 0
    }

    /// The bytes from one on, as far as they lie in one piece.
    pub fn from(&self, at: usize) -> &[u8]
        requires { at < length self.now }
        ensures some { 0 < length result.now }
        ensures within { at + length result.now ≤ length self.now }
        ensures bytes { result.now ≡ range_of self.now at (length result.now) }
    {
        match self.pieces() {
            Pieces::One(bytes) => &bytes.as_slice()[at..],
            Pieces::Pages(pages, start, end) => {
                let place = start + at;
                let page = &pages[place / PAGE];
                let begin = place % PAGE;
                let count = (end - place).min(PAGE - begin);
                &page.as_slice()[begin..begin + count]
            }
        }
    }

    /// The page of the 4,096 bytes from one on, where they are a page.
    pub fn page_at(&self, at: usize) -> Option<&Page<A>>
        requires { at + 4096 ≤ length self.now }
        ensures { IfSome result (λ page. page.now ≡ range_of self.now at 4096) }
    {
        if let Kept::Whole(page) = &self.kept {
            let _whole = page.as_slice();
            return Some(page);
        }
        let Pieces::Pages(pages, start, _) = self.pieces() else {
            return None;
        };
        let place = start + at;
        if place % PAGE != 0 {
            return None;
        }
        Some(&pages[place / PAGE])
    }

    /// The page that these bytes are, where they have one whole page alone. Else they come back. No count of owners changes.
    pub fn into_page(self) -> Result<Page<A>, Payload<A>>
        ensures page { IfOk result (λ page. page ≡ self) }
        ensures whole { IfOk result (λ page. length page ≡ 4096) }
        ensures back { IfErr result (λ back. back ≡ self) }
    {
        let Payload { kept } = self;
        match kept {
            Kept::Whole(page) => {
                let _whole = page.as_slice();
                Ok(page)
            }
            kept => Err(Payload { kept }),
        }
    }

    /// The pages that these bytes are, where they are whole pages and nobody else has them. Else they come back. No count of owners
    /// changes.
    pub fn into_whole_pages(self) -> Result<Vec<Page<A>, A>, Payload<A>>
        ensures whole { IfOk result (λ pages. AreWhole pages.items) }
        ensures bytes { IfOk result (λ pages. concat pages.items ≡ self) }
        ensures back { IfErr result (λ back. back ≡ self) }
    {
        let Payload { kept } = self;
        match kept {
            Kept::Several(pages, start, end) => all_of(pages, start, end),
            other => Err(Payload { kept: other }),
        }
    }

    /// Appends the bytes, or none where memory is refused.
    pub fn append<B: Allocator>(&self, out: &mut Vec<u8, B>) -> Result<(), NoMemory>
        ensures ok { OnOk result (out.new.items ≡ out.old.items ++ self.now) }
        ensures err { OnErr result (out.new.items ≡ out.old.items) }
    {
        out.reserve(self.len())?;
        let mut at = 0;
        while at < self.len() {
            let part = self.from(at);
            out.extend_from_slice(part)?;
            at += part.len();
        }
        Ok(())
    }
}

impl<A: Allocator + Copy> Payload<A> {
    /// These bytes, which lie as in pages of an image where the first has this offset.
    pub fn copied(alloc: A, offset: u64, bytes: &[u8]) -> Result<Payload<A>, NoMemory>
        ensures { IfOk result (λ payload. payload ≡ bytes.now) }
    {
        Payload::copied_to(&mut Spares::new(alloc), offset, bytes)
    }

    /// The same, in memory of spare pages as far as there are any.
    pub fn copied_to(
        spares: &mut Spares<A>,
        offset: u64,
        bytes: &[u8],
    ) -> Result<Payload<A>, NoMemory>
        ensures { IfOk result (λ payload. payload ≡ bytes.now) }
    {
        let start = (offset % 4096) as usize;
        if bytes.len() <= PAGE - start {
            let bytes = in_a_block(spares, bytes)?;
            return Ok(Payload::in_one_piece(bytes));
        }
        let mut growing = Growing::new(spares, offset)?;
        growing.append(spares, bytes)?;
        growing.finish()
    }

    /// The pages that these bytes are, where they are several whole ones. No byte is copied.
    pub fn whole_pages(&self, alloc: A) -> Result<Option<Vec<Page<A>, A>>, NoMemory>
        ensures whole { IfOk result (λ found. IfSome found (λ pages. AreWhole pages.items)) }
        ensures bytes { IfOk result (λ found.
            IfSome found (λ pages. concat pages.items ≡ self.now)) }
    {
        let Pieces::Pages(pages, start, end) = self.pieces() else {
            return Ok(None);
        };
        if end / PAGE != pages.len() || end % PAGE != 0 || start != 0 {
            return Ok(None);
        }
        let pages = Vec::from_clones(alloc, pages)?;
        Ok(Some(pages))
    }

    /// Lets the bytes go. The memory of pages that nobody else has is kept as spare, as far as there are places.
    pub fn recycle(self, spares: &mut Spares<A>)
        ensures { spares.old ≤ spares.new }
    {
        let Payload { kept } = self;
        match kept {
            Kept::Whole(page) => spares.keep(page),
            Kept::Piece(_) => {}
            Kept::Several(pages, _, _) => {
                if let Some(pages) = Arc::into_inner(pages) {
                    spares.keep_all(pages);
                }
            }
        }
    }

    /// A page with so many of these bytes, from one on, in place of its own from the start on. Where they are a whole page of
    /// this payload, it is that one.
    pub fn put_over(
        &self,
        spares: &mut Spares<A>,
        page: &Page<A>,
        start: usize,
        from: usize,
        count: usize,
    ) -> Result<Page<A>, NoMemory>
        requires fits { start + count ≤ 4096 }
        requires within { from + count ≤ length self.now }
        ensures bytes { IfOk result (λ new.
            new ≡ overwritten page.now start count (range_of self.now from count)) }
        ensures whole { IfOk result (λ new. length new ≡ 4096) }
    {
        if count == PAGE {
            if let Some(whole) = self.page_at(from) {
                let _whole = page.as_slice();
                let page = whole.clone()?;
                return Ok(page);
            }
        }
        self.copied_over(spares, page, start, from, count)
    }

    // The same by a copy.
    fn copied_over(
        &self,
        spares: &mut Spares<A>,
        page: &Page<A>,
        start: usize,
        from: usize,
        count: usize,
    ) -> Result<Page<A>, NoMemory>
        requires fits { start + count ≤ 4096 }
        requires within { from + count ≤ length self.now }
        ensures bytes { IfOk result (λ new.
            new ≡ overwritten page.now start count (range_of self.now from count)) }
        ensures whole { IfOk result (λ new. length new ≡ 4096) }
    {
        // No place is past the greatest usize, since the length is one.
        let _len = self.len();
        let mut block = spares.take()?;
        block.extend_reserved(&page.as_slice()[..start]);
        let mut done = 0;
        while done < count {
            let part = self.from(from + done);
            let n = part.len().min(count - done);
            block.extend_reserved(&part[..n]);
            done += n;
        }
        block.extend_reserved(&page.as_slice()[start + count..]);
        let bytes = block.freeze()?;
        Ok(Page::of(bytes))
    }
}

impl<A: Allocator> Clone for Payload<A> {
    ghost is_clone = { λ payload copy. copy ≡ payload };

    fn clone(&self) -> Result<Payload<A>, AllocError> {
        let kept = match &self.kept {
            Kept::Whole(page) => Kept::Whole(page.clone()?),
            Kept::Piece(bytes) => Kept::Piece(bytes.clone()?),
            Kept::Several(pages, start, end) => {
                Kept::Several(Arc::try_clone(pages)?, *start, *end)
            }
        };
        Ok(Payload { kept })
    }
}
