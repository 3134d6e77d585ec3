//! A base that takes the export's pages in place of making them.

use super::*;
use export_store::Paged;

type PagedCell<'a> = ExportCell<Paged<Heap<'a>>>;

fn opened_in_pages<'a>(heap: Heap<'a>) -> Option<PagedCell<'a>> {
    let Some(config) = configured(heap, &of_size(8192)) else {
        return None;
    };
    match config.exports().first() {
        Some(export) => ExportCell::new(heap, export, 32).ok(),
        None => None,
    }
}

// The request arrives and is served.
fn is_served<'a>(cell: &mut PagedCell<'a>, request: Request<Heap<'a>>) -> bool {
    if cell.arrive(0, Moment::zero(), request).is_err() || !cell.live().may_pick() {
        return false;
    }
    let Some(picked) = cell.pick() else {
        return false;
    };
    cell.perform(picked.slot, picked.number) == Some(true)
        && matches!(cell.take(0), Ok(Taken::Reply(_)))
}

// Writes 16 bytes.
fn writes_at<'a>(cell: &mut PagedCell<'a>, heap: Heap<'a>, offset: u64, byte: u8) -> bool {
    let bytes = [byte; 16];
    let Ok(payload) = Payload::copied(heap, offset, &bytes) else {
        return false;
    };
    if payload.len() != 16 {
        return false;
    }
    let head = RequestHead {
        offset,
        ..head_of(WRITE, 16)
    };
    is_served(cell, Request::new(head, payload))
}

// Serves requests that change nothing until the base has made so many steps.
fn base_makes(cell: &mut PagedCell<'_>, steps: u64) -> bool {
    for _ in 0..2000u64 {
        if steps <= cell.base().steps() {
            return true;
        }
        if !is_served(cell, flush()) {
            return false;
        }
    }
    false
}

// The byte at a place once 16 ones were written at 4,000, and then 16 twos at 4,008 where both were.
fn written(at: usize, both: bool) -> u8 {
    match at {
        4008..4024 if both => 2,
        4000..4016 => 1,
        _ => 0,
    }
}

// Whether the base's bytes are those.
fn base_has<'a>(cell: &PagedCell<'a>, heap: Heap<'a>, both: bool) -> bool {
    let Some(image) = cell.base().image() else {
        return false;
    };
    let mut bytes = Vec::new(heap);
    match image.read(0, image.size()) {
        Ok(piece) if piece.append(&mut bytes).is_ok() => {}
        _ => return false,
    }
    let right = bytes.iter().enumerate();
    right
        .filter(|(at, byte)| **byte == written(*at, both))
        .count()
        == 8192
}

// Whether the base makes the first write anew, since the page has changed in the export, and takes its page at the second without a growth.
fn is_shared<'a>(cell: &mut PagedCell<'a>, heap: Heap<'a>) -> bool {
    if cell.attach().is_err()
        || !writes_at(cell, heap, 4000, 1)
        || !writes_at(cell, heap, 4008, 2)
    {
        return false;
    }
    if !base_makes(cell, 5) || !base_has(cell, heap, false) {
        return false;
    }
    heap.arm(1);
    let made = base_makes(cell, 9) && heap.is_armed();
    heap.arm(0);
    made && base_has(cell, heap, true)
}

#[test]
fn the_base_takes_a_page_that_is_the_same(rt: HostRuntime) {
    let heap = Refusing::new(rt.alloc(), 0);
    let shared = match opened_in_pages(&heap) {
        Some(mut cell) => is_shared(&mut cell, &heap),
        None => false,
    };
    assert!(rt; shared);
}
