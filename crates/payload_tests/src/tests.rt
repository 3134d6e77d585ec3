use bytes::Bytes;
use payload::{Growing, PAGE, Page, Payload, Pieces, Spares};
use refusing::Refusing;
use std::alloc::Global;
use std::process::Abort;

type Kept = Payload<Global>;

// The numbers from 0 to 250, over and over.
fn numbers<R: Abort + AllocGlobal>(rt: &R, count: usize) -> Vec<u8> {
    let mut bytes = Vec::new(rt.alloc());
    for k in 0..count {
        bytes.push((k % 251) as u8).expect(rt, "memory");
    }
    bytes
}

// These bytes as they lie in an image from an offset on.
fn copied<R: Abort + AllocGlobal>(rt: &R, offset: u64, bytes: &[u8]) -> Kept {
    Payload::copied(rt.alloc(), offset, bytes).expect(rt, "memory")
}

// Sees that a payload is these bytes.
fn is_of<R: Abort + AllocGlobal>(rt: &R, payload: &Kept, bytes: &[u8]) {
    let mut all = Vec::new(rt.alloc());
    payload.append(&mut all).expect(rt, "memory");
    assert!(rt; all.as_slice() == bytes);
}

// Sees that a payload is a page of these bytes.
fn is_a_page<R: Abort>(rt: &R, payload: Kept, bytes: &[u8]) {
    let page = payload.into_page().ok().expect(rt, "a page");
    assert!(rt; page.as_slice() == bytes);
}

// Sees that a payload of these bytes comes back as it was, for it isn't one whole page.
fn comes_back<R: Abort + AllocGlobal>(rt: &R, payload: Kept, bytes: &[u8]) {
    let back = payload.into_page().err().expect(rt, "no page");
    is_of(rt, &back, bytes);
}

// Sees that a change of a page that ends by `ab` is made in a copy.
fn changes_by_a_copy<R: Abort + AllocGlobal>(rt: &R, page: &Page<Global>) {
    let mut spares = Spares::new(rt.alloc());
    let other = page.with(&mut spares, 4_095, b"c").expect(rt, "memory");
    assert!(rt; other.as_slice().get(4_095) == Some(&99));
    let same = page.clone().expect(rt, "memory");
    assert!(rt; same.as_slice().get(4_094) == Some(&97) && same.as_slice().get(4_095) == Some(&98));
    assert!(rt; page.as_slice().get(0) == Some(&0));
}

#[test]
fn a_page_changes_by_a_copy(rt: HostRuntime) {
    let mut spares = Spares::new(rt.alloc());
    let zeros = Page::zeros();
    let page = zeros.with(&mut spares, 4_094, b"ab").expect(&rt, "memory");
    changes_by_a_copy(&rt, &page);
    let full = Page::holding(rt.alloc(), [7; 4096]).expect(&rt, "memory");
    assert!(rt; full.copy().as_slice().get(4095) == Some(&7));
}

// Sees that two whole pages of a payload are pages of their own, which others have too.
fn are_its_pages<R: Abort + AllocGlobal>(rt: &R, payload: &Kept, bytes: &[u8]) {
    let found = payload.whole_pages(rt.alloc()).expect(rt, "memory");
    let pages = found.expect(rt, "whole pages");
    assert!(rt; pages.len() == 2);
    for page in &pages {
        assert!(rt; !page.is_alone());
    }
    let all = Payload::among(rt.alloc(), pages, 0, 8_192).expect(rt, "memory");
    is_of(rt, &all, bytes);
}

// Sees that a payload isn't several whole pages.
fn has_parts<R: Abort + AllocGlobal>(rt: &R, payload: &Kept) {
    let found = payload.whole_pages(rt.alloc()).expect(rt, "memory");
    assert!(rt; found.is_none());
}

#[test]
fn a_payload_gives_its_whole_pages(rt: HostRuntime) {
    let bytes = numbers(&rt, 8_192);
    are_its_pages(&rt, &copied(&rt, 4_096, &bytes), &bytes);
    has_parts(&rt, &copied(&rt, 4_095, &bytes));
    has_parts(&rt, &copied(&rt, 0, &numbers(&rt, 8_191)));
    has_parts(&rt, &copied(&rt, 0, &numbers(&rt, 4_096)));
    let page = Page::holding(Spares::new(rt.alloc()).alloc(), [7; 4096]).expect(&rt, "memory");
    assert!(rt; page.is_alone());
}

// Sees that a payload of 10,000 bytes lies in pages, of which the first holds 4,000.
fn begins_in_a_page<R: Abort>(rt: &R, payload: &Kept) {
    assert!(rt; payload.len() == 10_000);
    assert!(rt; payload.from(0).len() == 4_000);
    assert!(rt; payload.from(4_000).len() == 4_096);
    assert!(rt; payload.from(9_999).len() == 1);
    assert!(rt; payload.page_at(0).is_none() && payload.page_at(4_000).is_some());
}

#[test]
fn a_payload_begins_where_its_image_does(rt: HostRuntime) {
    let bytes = numbers(&rt, 10_000);
    let payload = copied(&rt, 4_096 * 5 + 96, &bytes);
    begins_in_a_page(&rt, &payload);
    is_of(&rt, &payload, &bytes);
    is_of(&rt, &copied(&rt, 4_095, b"a"), b"a");
}

#[test]
fn a_payload_of_no_bytes(rt: HostRuntime) {
    let mut spares = Spares::new(rt.alloc());
    let growing = Growing::new(&mut spares, 4_095).expect(&rt, "memory");
    let none = growing.finish().expect(&rt, "memory");
    assert!(rt; none.is_empty());
    is_of(&rt, &Payload::new(), b"");
    is_of(&rt, &Payload::of(Page::zeros(), 4_096, 0), b"");
}

// Sees that a page of a payload of 10,000 bytes from a place on has these.
fn gives_a_page<R: Abort + AllocGlobal>(rt: &R, payload: &Kept, at: usize, bytes: &[u8]) {
    assert!(rt; payload.len() == 10_000 && at <= 4_000);
    let page = payload.put_over(&mut Spares::new(rt.alloc()), &Page::zeros(), 0, at, 4_096);
    let page = page.expect(rt, "memory");
    assert!(rt; Some(page.as_slice()) == bytes.get(at..at + 4_096));
}

// Sees that 96 bytes of it from 8,000 on take the place of the last ones of its page from 4,000 on, whose others stay.
fn gives_an_edge<R: Abort + AllocGlobal>(rt: &R, payload: &Kept, bytes: &[u8]) {
    assert!(rt; payload.len() == 10_000);
    let page = payload.page_at(4_000).expect(rt, "a page");
    let edge = payload.put_over(&mut Spares::new(rt.alloc()), page, 4_000, 8_000, 96);
    let edge = edge.expect(rt, "memory");
    assert!(rt; edge.as_slice().get(4_000..) == bytes.get(8_000..8_096));
    assert!(rt; edge.as_slice().get(..4_000) == bytes.get(4_000..8_000));
}

#[test]
fn a_page_takes_a_part_of_a_payload(rt: HostRuntime) {
    let bytes = numbers(&rt, 10_000);
    let payload = copied(&rt, 96, &bytes);
    gives_a_page(&rt, &payload, 4_000, &bytes);
    gives_a_page(&rt, &payload, 3_999, &bytes);
    gives_an_edge(&rt, &payload, &bytes);
}

#[test]
fn a_payload_of_one_page_is_that_page(rt: HostRuntime) {
    let bytes = numbers(&rt, 4_096);
    is_a_page(&rt, copied(&rt, 8_192, &bytes), &bytes);
    comes_back(&rt, copied(&rt, 8_191, &bytes), &bytes);
    comes_back(&rt, copied(&rt, 1, b"a"), b"a");
}

// Sees that these bytes lie in so many pages, or in one piece, which is told as none.
fn lies_in<R: Abort + AllocGlobal>(rt: &R, payload: &Kept, bytes: &[u8], count: usize) {
    let mut all = Vec::new(rt.alloc());
    match payload.pieces() {
        Pieces::Pages(pages, start, end) => {
            assert!(rt; pages.len() == count);
            for page in pages {
                all.extend_from_slice(page.as_bytes()).expect(rt, "memory");
            }
            assert!(rt; all.as_slice().get(start..end) == Some(bytes));
        }
        Pieces::One(piece) => assert!(rt; count == 0 && piece.as_slice() == bytes),
    }
}

#[test]
fn a_payload_tells_how_it_lies(rt: HostRuntime) {
    let bytes = numbers(&rt, 10_000);
    let short = bytes.as_slice().get(..96).expect(&rt, "bytes");
    let page = bytes.as_slice().get(..4_096).expect(&rt, "bytes");
    lies_in(&rt, &copied(&rt, 4_095, &bytes), &bytes, 4);
    lies_in(&rt, &copied(&rt, 4_000, short), short, 0);
    lies_in(&rt, &copied(&rt, 0, page), page, 0);
}

// Sees that a payload is these 10,000 bytes in one piece, of which none is a page.
fn is_one_piece<R: Abort + AllocGlobal>(rt: &R, payload: &Kept, bytes: &[u8]) {
    lies_in(rt, payload, bytes, 0);
    gives_a_page(rt, payload, 100, bytes);
    assert!(rt; payload.len() == 10_000);
    assert!(rt; Some(payload.from(4_000)) == bytes.get(4_000..));
    assert!(rt; payload.page_at(4_096).is_none());
}

#[test]
fn bytes_are_a_payload(rt: HostRuntime) {
    let bytes = numbers(&rt, 10_000);
    let piece = Bytes::copy_from_slice(rt.alloc(), &bytes).expect(&rt, "memory");
    let payload = Payload::in_one_piece(piece);
    is_one_piece(&rt, &payload, &bytes);
    comes_back(&rt, payload, &bytes);
}

#[test]
fn bytes_of_a_page_are_that_page(rt: HostRuntime) {
    let bytes = numbers(&rt, 4_096);
    let piece = Bytes::copy_from_slice(rt.alloc(), &bytes).expect(&rt, "memory");
    assert!(rt; piece.len() == PAGE);
    let page = Page::of(piece);
    assert!(rt; page.as_bytes().as_slice() == bytes.as_slice());
    let payload = Payload::in_one_piece(page.into_bytes());
    assert!(rt; payload.page_at(0).is_some());
    is_a_page(&rt, payload, &bytes);
}

// What grows by these bytes in pieces of a size, from an offset of an image on.
fn grown<R: Abort + AllocGlobal>(rt: &R, offset: u64, bytes: &[u8], size: usize) -> Kept {
    let mut spares = Spares::new(rt.alloc());
    let mut growing = Growing::new(&mut spares, offset).expect(rt, "memory");
    for piece in bytes.chunks(size.max(1)) {
        growing.append(&mut spares, piece).expect(rt, "memory");
    }
    assert!(rt; growing.len() == bytes.len());
    growing.finish().expect(rt, "memory")
}

// Sees that a payload is these bytes, of which so many lie in its first page.
fn begins_with<R: Abort + AllocGlobal>(rt: &R, payload: &Kept, bytes: &[u8], first: usize) {
    is_of(rt, payload, bytes);
    assert!(rt; !payload.is_empty() && payload.from(0).len() == first);
}

#[test]
fn a_payload_grows(rt: HostRuntime) {
    let bytes = numbers(&rt, 20_000);
    assert!(rt; bytes.len() == 20_000);
    let payload = grown(&rt, 1_000, &bytes, 1_500);
    begins_with(&rt, &payload, &bytes, 3_096);
    let bytes = bytes.as_slice().get(..9_000).expect(&rt, "bytes");
    begins_with(&rt, &grown(&rt, 0, bytes, 9_000), bytes, 4_096);
}

// A page of a payload that is these 140,000 bytes, which stays when the payload is gone.
fn page_of<R: Abort + AllocGlobal>(rt: &R, payload: Kept, bytes: &[u8]) -> Page<Global> {
    is_of(rt, &payload, bytes);
    assert!(rt; payload.len() == 140_000);
    let page = payload.page_at(4_096 * 17).expect(rt, "a page");
    page.clone().expect(rt, "memory")
}

#[test]
fn a_page_outlives_its_payload(rt: HostRuntime) {
    let bytes = numbers(&rt, 140_000);
    let page = page_of(&rt, grown(&rt, 61_440, &bytes, 50_000), &bytes);
    assert!(rt; Some(page.as_slice()) == bytes.get(4_096 * 17..4_096 * 18));
}

// Spare memory of so many pages, of which one was shown by a payload that is gone: so many as there are places.
fn kept<R: Abort + AllocGlobal>(rt: &R, bytes: &[u8], places: usize) -> Spares<Global> {
    let mut spares = Spares::with_places(rt.alloc(), places).expect(rt, "memory");
    let payload = grown(rt, 0, bytes, 20_000);
    payload.recycle(&mut spares);
    spares
}

// Sees that a page of spare memory has these bytes, and that its memory is spare no longer.
fn is_used_again<R: Abort>(rt: &R, spares: &mut Spares<Global>, bytes: &[u8]) {
    let before = spares.len();
    let page = Payload::copied_to(spares, 4_096, bytes).expect(rt, "memory");
    assert!(rt; before > 0 && spares.len() == before - 1);
    assert!(rt; page.len() == 4_096 && page.from(0) == bytes);
}

#[test]
fn memory_of_pages_is_spare(rt: HostRuntime) {
    let bytes = numbers(&rt, 20_000);
    assert!(rt; bytes.len() == 20_000);
    let mut spares = kept(&rt, &bytes, 8);
    assert!(rt; spares.len() == 5);
    is_used_again(
        &rt,
        &mut spares,
        bytes.as_slice().get(1..4_097).expect(&rt, "bytes"),
    );
    assert!(rt; kept(&rt, &bytes, 3).len() == 3);
}

#[test]
fn spare_memory_is_passed_on(rt: HostRuntime) {
    let bytes = numbers(&rt, 20_000);
    let mut some = kept(&rt, &bytes, 8);
    let mut others = Spares::with_places(rt.alloc(), 4).expect(&rt, "memory");
    some.level(&mut others, 2);
    assert!(rt; (some.len(), others.len()) == (2, 3));
    some.level(&mut others, 4);
    assert!(rt; (some.len(), others.len()) == (4, 1));
    some.level(&mut others, 9);
    assert!(rt; (some.len(), others.len()) == (5, 0));
    some.level(&mut others, 0);
    assert!(rt; (some.len(), others.len()) == (1, 4));
}

// Sees that a page that something else shows isn't spare.
fn stays_shown<R: Abort>(rt: &R, payload: Kept, spares: &mut Spares<Global>) {
    let copy = payload.clone().expect(rt, "memory");
    payload.recycle(spares);
    assert!(rt; spares.len() == 0 && !copy.is_empty());
    copy.recycle(spares);
    assert!(rt; spares.len() == 1);
}

#[test]
fn memory_that_is_shown_is_kept(rt: HostRuntime) {
    let bytes = numbers(&rt, 4_096);
    let mut spares = Spares::with_places(rt.alloc(), 2).expect(&rt, "memory");
    stays_shown(&rt, copied(&rt, 0, &bytes), &mut spares);
    copied(&rt, 0, b"a").recycle(&mut spares);
    assert!(rt; spares.len() == 1);
}

// Whether the memory of a spare page is taken, so that none is asked for.
fn is_taken_first(heap: &Refusing<Global>, bytes: &[u8]) -> bool {
    let Ok(mut spares) = Spares::with_places(heap, 1) else {
        return false;
    };
    let Ok(page) = Payload::copied_to(&mut spares, 4_096, bytes) else {
        return false;
    };
    page.recycle(&mut spares);
    heap.arm(1);
    spares.take().is_ok() && heap.is_armed()
}

#[test]
fn memory_that_is_spare_is_taken_first(rt: HostRuntime) {
    let bytes = numbers(&rt, 4_096);
    let heap = Refusing::new(rt.alloc(), 0);
    assert!(rt; is_taken_first(&heap, &bytes));
}

// Whether a payload whose memory is had there is these bytes. None where it is refused.
fn is_copied(heap: &Refusing<Global>, bytes: &[u8]) -> Option<bool> {
    let payload = Payload::copied(heap, 4_000, bytes).ok()?;
    let mut all = Vec::new(heap);
    payload.append(&mut all).ok()?;
    Some(all.as_slice() == bytes)
}

// Whether as many bytes came as should. None where memory is refused and none came.
fn comes_whole(heap: &Refusing<Global>, bytes: &[u8]) -> Option<bool> {
    let mut spares = Spares::new(heap);
    let mut growing = Growing::new(&mut spares, 0).ok()?;
    match growing.append(&mut spares, bytes) {
        Err(_) if growing.len() == 0 => None,
        came => Some(came.is_ok() && growing.len() == bytes.len()),
    }
}

// The last growth that was refused where each is in turn: it is beyond so many, and few enough were tried.
fn sees_refusals<R: Abort + AllocGlobal>(rt: &R, whole: bool, bytes: &[u8], least: u64) {
    let heap = Refusing::new(rt.alloc(), 0);
    let mut refused = 0u64;
    for nth in 1..20 {
        heap.arm(nth);
        let right = match whole {
            true => comes_whole(&heap, bytes),
            false => is_copied(&heap, bytes),
        };
        assert!(rt; right != Some(false), "{nth}");
        if right.is_none() {
            refused = nth;
        }
    }
    assert!(rt; least <= refused && refused < 19);
}

#[test]
fn each_growth_is_refused_in_turn(rt: HostRuntime) {
    let bytes = numbers(&rt, 20_000);
    let few = bytes.as_slice().get(..9_000).expect(&rt, "bytes");
    // Four pages, each with its memory and a count of owners, and a row for them.
    sees_refusals(&rt, false, few, 9);
    // The memory of five pages, counts of owners of the four that are whole, and a row for these.
    sees_refusals(&rt, true, &bytes, 10);
}
