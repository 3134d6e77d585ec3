ghost use Rattle.std.specs.Prelude.{◌≡◌, ◌+◌, ◌<◌, ◌≤◌, ◌%◌, ◌++◌, [], length, take, IfOk, OnOk, OnErr};
ghost use Rattle.std.specs.List.{concat};
ghost use Rattle.payload.specs.Rows.{AreWhole, HasRoom};

use crate::page::{PAGE, Page, zeros};
use crate::payload::Payload;
use crate::spares::Spares;
use bytes::BytesMut;
use nbd_base::NoMemory;
use std::alloc::Allocator;
use std::marker::Model;
use std::mem;

/// A payload whose bytes come one after another.
#[derive(Drop)]
pub struct Growing<A: Allocator + Copy> {
    alloc: A,
    pages: Vec<Page<A>, A>,
    // The beginning of the page that follows.
    last: BytesMut<A>,
    // How many bytes of the first page lie before the payload, and how many there are with these.
    start: usize,
    end: usize,
}

impl<A: Allocator + Copy> Model for Growing<A> {
    ghost use Rattle.std.specs.Prelude.{ℕ, List, ◌++◌, drop};
    ghost use Rattle.std.specs.List.{concat};
    ghost use Rattle.payload.specs.Rows.{IsGrown};

    ghost Value = { List ℕ };

    ghost view = { λ growing.
        drop growing.start (concat growing.pages.items ++ growing.last.items) };

    ghost invariant = { λ growing.
        IsGrown growing.pages.items growing.last growing.start growing.end };
}

// Appends bytes to the beginning of a page, which gets its memory with its first byte.
fn begin<A: Allocator + Copy>(
    spares: &mut Spares<A>,
    last: &mut BytesMut<A>,
    bytes: &[u8],
) -> Result<(), NoMemory>
    requires fits { length last.old.items + length bytes.now ≤ 4096 }
    requires room { HasRoom last.old }
    ensures bytes { OnOk result (last.new.items ≡ last.old.items ++ bytes.now) }
    ensures room { OnOk result (HasRoom last.new) }
{
    if bytes.is_empty() {
        return Ok(());
    }
    if last.is_empty() {
        *last = spares.take()?;
    }
    last.extend_reserved(bytes);
    Ok(())
}

// One more page, of these bytes.
fn close<A: Allocator + Copy>(
    pages: &mut Vec<Page<A>, A>,
    bytes: BytesMut<A>,
) -> Result<(), NoMemory>
    requires full { length bytes.items ≡ 4096 }
    requires whole { AreWhole pages.old.items }
    ensures whole { OnOk result (AreWhole pages.new.items) }
    ensures bytes { OnOk result (concat pages.new.items ≡ concat pages.old.items ++ bytes.items) }
{
    let bytes = bytes.freeze()?;
    pages.push(Page::of(bytes))?;
    Ok(())
}

// One more page: what was begun of it, and the rest. Where nothing was, its bytes are copied where they stay, and it isn't moved while
// they are on their way to memory.
fn fill<A: Allocator + Copy>(
    spares: &mut Spares<A>,
    pages: &mut Vec<Page<A>, A>,
    last: &mut BytesMut<A>,
    rest: &[u8],
) -> Result<(), NoMemory>
    requires full { length last.old.items + length rest.now ≡ 4096 }
    requires room { HasRoom last.old }
    requires whole { AreWhole pages.old.items }
    ensures whole { OnOk result (AreWhole pages.new.items) }
    ensures bytes { OnOk result (concat pages.new.items
        ≡ concat pages.old.items ++ (last.old.items ++ rest.now)) }
    ensures none { OnOk result (last.new.items ≡ []) }
{
    if last.is_empty() {
        let page = spares.take_holding(rest)?;
        return close(pages, page);
    }
    begin(spares, last, rest)?;
    let alloc = spares.alloc();
    close(pages, mem::replace(last, BytesMut::new(alloc)))
}

// The pages, and one that begins with the bytes of the last where there are any.
fn closed<A: Allocator + Copy>(
    mut pages: Vec<Page<A>, A>,
    mut last: BytesMut<A>,
) -> Result<Vec<Page<A>, A>, NoMemory>
    requires begun { length last.items < 4096 }
    requires room { HasRoom last }
    requires whole { AreWhole pages.items }
    ensures whole { IfOk result (λ all. AreWhole all.items) }
    ensures bytes { IfOk result
        (λ all. take (length (concat pages.items ++ last.items)) (concat all.items)
        ≡ concat pages.items ++ last.items) }
{
    if last.is_empty() {
        return Ok(pages);
    }
    last.extend_reserved(&zeros()[last.len()..]);
    close(&mut pages, last)?;
    Ok(pages)
}

impl<A: Allocator + Copy> Growing<A> {
    /// None yet, the first of which has this offset in an image: a page of the payload begins where one of the image does.
    pub fn new(spares: &mut Spares<A>, offset: u64) -> Result<Growing<A>, NoMemory>
        ensures { IfOk result (λ growing. growing ≡ []) }
    {
        let alloc = spares.alloc();
        let start = (offset % 4096) as usize;
        let mut last = BytesMut::new(alloc);
        begin(spares, &mut last, &zeros()[..start])?;
        Ok(Growing {
            alloc,
            pages: Vec::new(alloc),
            last,
            start,
            end: start,
        })
    }

    // None yet, of none. It takes no memory.
    fn none(alloc: A) -> Growing<A>
        ensures { result ≡ [] }
    {
        Growing {
            alloc,
            pages: Vec::new(alloc),
            last: BytesMut::new(alloc),
            start: 0,
            end: 0,
        }
    }

    /// How many bytes have come.
    pub fn len(&self) -> usize
        ensures { result ≡ length self.now }
    {
        self.end - self.start
    }

    // The same with these bytes behind it.
    fn longer(self, spares: &mut Spares<A>, bytes: &[u8]) -> Result<Growing<A>, NoMemory>
        ensures { IfOk result (λ growing. growing ≡ self ++ bytes.now) }
    {
        let Growing {
            alloc,
            mut pages,
            mut last,
            start,
            end,
        } = self;
        let Some(end) = end.checked_add(bytes.len()) else {
            return Err(NoMemory);
        };
        let mut left = bytes;
        while PAGE - last.len() <= left.len() {
            let (rest, behind) = left.split_at(PAGE - last.len());
            fill(spares, &mut pages, &mut last, rest)?;
            left = behind;
        }
        begin(spares, &mut last, left)?;
        Ok(Growing {
            alloc,
            pages,
            last,
            start,
            end,
        })
    }

    /// Appends bytes. After an error none are left.
    pub fn append(&mut self, spares: &mut Spares<A>, bytes: &[u8]) -> Result<(), NoMemory>
        ensures ok { OnOk result (self.new ≡ self.old ++ bytes.now) }
        ensures err { OnErr result (self.new ≡ []) }
    {
        let none = Growing::none(self.alloc);
        *self = mem::replace(self, none).longer(spares, bytes)?;
        Ok(())
    }

    /// The payload.
    pub fn finish(self) -> Result<Payload<A>, NoMemory>
        ensures { IfOk result (λ payload. payload ≡ self) }
    {
        let Growing {
            alloc,
            pages,
            last,
            start,
            end,
        } = self;
        let pages = closed(pages, last)?;
        Payload::among(alloc, pages, start, end)
    }
}
