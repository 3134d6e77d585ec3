//! What takes memory, and what is done without.

use super::*;

// Whether the nine at a place is the only byte of an image that isn't zero.
fn has_one_nine<A: Allocator + Copy>(alloc: A, image: &Paged<A>, place: usize) -> bool {
    let Ok(bytes) = all_of(alloc, image) else {
        return false;
    };
    bytes.get(place) == Some(&9) && bytes.iter().filter(|byte| **byte != 0).count() == 1
}

// Whether a write over the edges of four pages, of which one is held, is done without so many growths. Some(false) where it was refused,
// changed no byte, and is done when it is made again. None where something is wrong.
fn writes_without<'a>(
    heap: &'a Refusing<Global>,
    image: &mut Kept<'a>,
    held: usize,
    nth: u64,
    piece: &[u8],
) -> Option<bool> {
    if !writes(heap, image, held, &[9]) {
        return None;
    }
    heap.arm(nth);
    let written = writes(heap, image, 4095, piece);
    if heap.is_armed() {
        return if written { Some(true) } else { None };
    }
    let stays = !written && has_one_nine(heap, image, held);
    if stays && writes(heap, image, 4095, piece) && image.held() == 4 {
        Some(false)
    } else {
        None
    }
}

fn does_without(heap: &Refusing<Global>, held: usize, nth: u64, piece: &[u8]) -> Option<bool> {
    heap.arm(0);
    match Kept::zeros(heap, 16384) {
        Ok(mut image) => writes_without(heap, &mut image, held, nth, piece),
        Err(NoMemory) => None,
    }
}

// How many growths were refused in turn up to the one that a write did without. 0 where something was wrong, or there is no end.
fn growths_of_a_write(heap: &Refusing<Global>, held: usize, piece: &[u8]) -> u64 {
    for nth in 1..100u64 {
        match does_without(heap, held, nth, piece) {
            Some(true) => return nth - 1,
            Some(false) => {}
            None => return 0,
        }
    }
    0
}

#[test]
fn a_refused_write_changes_no_byte(rt: HostRuntime) {
    let piece = Vec::from_elem(rt.alloc(), 1u8, 8194).expect(&rt, "memory");
    let heap = Refusing::new(rt.alloc(), 0);
    assert!(rt; growths_of_a_write(&heap, 0, piece.as_slice()) >= 3);
    assert!(rt; growths_of_a_write(&heap, 12288, piece.as_slice()) >= 3);
}

// Whether sevens of a payload that begins at one offset are put at another with so many growths, and not with one less.
fn takes_growths<'a>(
    heap: &'a Refusing<Global>,
    image: &mut Kept<'a>,
    offset: usize,
    piece: &Payload<&'a Refusing<Global>>,
    growths: u64,
) -> bool {
    heap.arm(growths.saturating_add(1));
    if !puts(image, offset, piece) || !heap.is_armed() {
        return false;
    }
    if growths == 0 {
        return true;
    }
    heap.arm(growths);
    !puts(image, offset, piece) && !heap.is_armed()
}

// The same of so many sevens, the first of which begins at an offset of its own.
fn takes<'a>(
    heap: &'a Refusing<Global>,
    image: &mut Kept<'a>,
    offset: usize,
    begin: u64,
    count: usize,
    growths: u64,
) -> bool {
    heap.arm(0);
    match sevens(heap, begin, count) {
        Ok(piece) => takes_growths(heap, image, offset, &piece, growths),
        Err(NoMemory) => false,
    }
}

// A list of the pages takes memory, the pages of the payload none. A page of the image that isn't one of them is copied, which takes
// memory for its bytes and for the count of their owners.
#[test]
fn pages_are_taken_from_a_payload(rt: HostRuntime) {
    let heap = Refusing::new(rt.alloc(), 0);
    let mut image: Paged<&Refusing<Global>> = Paged::zeros(&heap, 65536).expect(&rt, "memory");
    assert!(rt; puts_sevens(&heap, &mut image, 65536));
    assert!(rt; takes(&heap, &mut image, 0, 0, 65536, 1));
    assert!(rt; takes(&heap, &mut image, 4096, 0, 4096, 0));
    assert!(rt; takes(&heap, &mut image, 4096, 0, 8192, 1));
    assert!(rt; takes(&heap, &mut image, 4100, 4100, 4096, 5));
    assert!(rt; takes(&heap, &mut image, 4096, 1, 4096, 2));
    assert!(rt; is_but(&heap, &image, 7, 0, 0));
}

// Whether a range is made zero where the next growth is refused, and comes to that growth.
fn zeroes_without_memory(
    heap: &Refusing<Global>,
    image: &mut Paged<&Refusing<Global>>,
    start: usize,
    count: usize,
) -> bool {
    heap.arm(1);
    zeroes(image, start, count, false) && !heap.is_armed()
}

// Where memory is refused it is noted which bytes of a page are zeros, and a write ends that.
#[test]
fn a_range_is_made_zero_without_memory(rt: HostRuntime) {
    let heap = Refusing::new(rt.alloc(), 0);
    let piece = sevens(&heap, 0, 8192).expect(&rt, "memory");
    let mut image: Paged<&Refusing<Global>> = Paged::zeros(&heap, 8192).expect(&rt, "memory");
    assert!(rt; puts(&mut image, 0, &piece));
    assert!(rt; zeroes_without_memory(&heap, &mut image, 4000, 100));
    assert!(rt; zeroes_without_memory(&heap, &mut image, 3000, 1000));
    assert!(rt; zeroes_without_memory(&heap, &mut image, 4100, 4091));
    assert!(rt; image.held() == 2);
    assert!(rt; is_but(&heap, &image, 7, 3000, 8191));
    assert!(rt; writes(&heap, &mut image, 3000, &[7]));
    assert!(rt; is_but(&heap, &image, 7, 3001, 8191));
    assert!(rt; puts(&mut image, 0, &piece));
    assert!(rt; is_but(&heap, &image, 7, 0, 0));
}

// The byte at a place, where memory to read it is there.
fn byte_at<A: Allocator + Copy>(alloc: A, image: &Paged<A>, place: usize) -> Option<u8> {
    if place >= image.size() {
        return None;
    }
    match image.read(place, 1) {
        Ok(payload) => match bytes_of(alloc, &payload) {
            Ok(bytes) => bytes.get(0).copied(),
            Err(NoMemory) => None,
        },
        Err(NoMemory) => None,
    }
}

// Whether so many pages are held, of which the one before a place has a seven there, and the one at it zeros.
fn has_come_to<'a>(heap: &'a Refusing<Global>, image: &Kept<'a>, pages: usize) -> bool {
    let place = pages.saturating_mul(4096);
    image.held() == pages
        && byte_at(heap, image, place) == Some(0)
        && (pages == 0 || byte_at(heap, image, place.saturating_sub(4096)) == Some(7))
}

// How many growths a write of a seven into the next page takes, each of which is refused once and then changes nothing.
fn growths_of_a_page<'a>(
    heap: &'a Refusing<Global>,
    image: &mut Kept<'a>,
    pages: usize,
) -> Option<u64> {
    for nth in 1..20u64 {
        heap.arm(nth);
        let written = writes(heap, image, pages.saturating_mul(4096), &[7]);
        if heap.is_armed() {
            return if written { Some(nth - 1) } else { None };
        }
        if written || !has_come_to(heap, image, pages) {
            return None;
        }
    }
    None
}

// Whether pages come one by one, the first of a chunk and some others with more growths than the rest.
fn come_one_by_one<'a>(heap: &'a Refusing<Global>, image: &mut Kept<'a>, count: usize) -> bool {
    let mut more = 0usize;
    for pages in 0..count {
        let Some(growths) = growths_of_a_page(heap, image, pages) else {
            return false;
        };
        if growths > 3 {
            more = more.saturating_add(1);
        }
        if image.held() != pages.saturating_add(1) {
            return false;
        }
    }
    more >= 3
}

// The pages of a chunk come one by one, each growth of what is kept of them refused in turn: the room for zeros noted without memory too.
#[test]
fn pages_come_one_by_one(rt: HostRuntime) {
    let heap = Refusing::new(rt.alloc(), 0);
    let mut image: Paged<&Refusing<Global>> = Paged::zeros(&heap, 409_600).expect(&rt, "memory");
    assert!(rt; come_one_by_one(&heap, &mut image, 80));
}

// The bytes of a page, where memory to read them is there.
fn bytes_of_page<'a>(
    heap: &'a Refusing<Global>,
    image: &Kept<'a>,
    page: usize,
) -> Result<Vec<u8, &'a Refusing<Global>>, NoMemory> {
    if page >= image.size() / 4096 {
        return Err(NoMemory);
    }
    let payload = image.read(page * 4096, 4096)?;
    bytes_of(heap, &payload)
}

// Whether the bytes of a page from a start on before an end are zeros, and the others sevens.
fn is_page_but<'a>(
    heap: &'a Refusing<Global>,
    image: &Kept<'a>,
    page: usize,
    start: usize,
    end: usize,
) -> bool {
    let Ok(bytes) = bytes_of_page(heap, image, page) else {
        return false;
    };
    let right = bytes.iter().enumerate().filter(|(at, found)| {
        let zero = start <= *at && *at < end;
        **found == if zero { 0 } else { 7 }
    });
    right.count() == 4096
}

// Writes a page of sevens.
fn writes_page<'a>(heap: &'a Refusing<Global>, image: &mut Kept<'a>, page: usize) -> bool {
    heap.arm(0);
    match sevens(heap, 0, 4096) {
        Ok(piece) => puts(image, page.saturating_mul(4096), &piece),
        Err(NoMemory) => false,
    }
}

// Bytes of two pages are noted as zeros. They stay so while other pages of their chunk come and go, and go with their own page.
#[test]
fn noted_zeros_stay_with_their_page(rt: HostRuntime) {
    let heap = Refusing::new(rt.alloc(), 0);
    let mut image: Paged<&Refusing<Global>> = Paged::zeros(&heap, 32768).expect(&rt, "memory");
    assert!(rt; writes_page(&heap, &mut image, 4) && writes_page(&heap, &mut image, 2));
    assert!(rt; zeroes_without_memory(&heap, &mut image, 16384 + 100, 50));
    assert!(rt; zeroes_without_memory(&heap, &mut image, 8192 + 3000, 70));
    assert!(rt; writes_page(&heap, &mut image, 3) && writes_page(&heap, &mut image, 0));
    assert!(rt; writes_page(&heap, &mut image, 7));
    assert!(rt; is_page_but(&heap, &image, 4, 100, 150));
    assert!(rt; is_page_but(&heap, &image, 2, 3000, 3070));
    assert!(rt; is_page_but(&heap, &image, 3, 0, 0) && is_page_but(&heap, &image, 7, 0, 0));
    assert!(rt; zeroes(&mut image, 4096, 8192, false) && image.held() == 4);
    assert!(rt; is_page_but(&heap, &image, 2, 0, 4096));
    assert!(rt; is_page_but(&heap, &image, 4, 100, 150));
    assert!(rt; writes_page(&heap, &mut image, 2) && is_page_but(&heap, &image, 2, 0, 0));
    assert!(rt; writes_page(&heap, &mut image, 4) && is_page_but(&heap, &image, 4, 0, 0));
}
