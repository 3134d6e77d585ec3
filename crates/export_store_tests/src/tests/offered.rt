//! Pages that a write takes from another image in place of making them.

use super::*;

// Writes where the other image offers its pages first.
fn puts_offered<I: Image>(
    image: &mut I,
    other: &I,
    offset: usize,
    piece: &Payload<I::Alloc>,
) -> bool {
    image.offer(offset, piece.len(), other);
    puts(image, offset, piece)
}

// Whether nines are put with so many growths, and not with one less, where the other image offers its pages.
fn takes_offered<'a>(
    heap: &'a Refusing<Global>,
    image: &mut Kept<'a>,
    other: &Kept<'a>,
    offset: usize,
    count: usize,
    growths: u64,
) -> bool {
    let Ok(piece) = nines(heap, offset, count) else {
        return false;
    };
    heap.arm(growths.saturating_add(1));
    let put = puts_offered(image, other, offset, &piece) && heap.is_armed();
    heap.arm(growths);
    let refused = growths == 0 || !puts_offered(image, other, offset, &piece) && !heap.is_armed();
    heap.arm(0);
    put && refused
}

fn nines<A: Allocator + Copy>(
    alloc: A,
    offset: usize,
    count: usize,
) -> Result<Payload<A>, NoMemory> {
    let bytes = Vec::from_elem(alloc, 9u8, count)?;
    Payload::copied(alloc, offset as u64, bytes.as_slice())
}

// Writes nines.
fn puts_nines<I: Image>(alloc: I::Alloc, image: &mut I, offset: usize, count: usize) -> bool {
    match nines(alloc, offset, count) {
        Ok(piece) => puts(image, offset, &piece),
        Err(NoMemory) => false,
    }
}

// Three pages of sevens.
fn filled<I: Image>(alloc: I::Alloc) -> Result<I, NoMemory> {
    let mut image = I::zeros(alloc, 12288)?;
    if puts_sevens(alloc, &mut image, 12288) {
        Ok(image)
    } else {
        Err(NoMemory)
    }
}

// Whether the bytes of an image are sevens, but nines in a range.
fn has_nines<I: Image>(alloc: I::Alloc, image: &I, start: usize, end: usize) -> bool {
    let Ok(bytes) = all_of(alloc, image) else {
        return false;
    };
    let right = bytes.iter().enumerate().filter(|(at, found)| {
        let nine = start <= *at && *at < end;
        **found == if nine { 9 } else { 7 }
    });
    right.count() == image.size()
}

// A page that is made takes memory for its bytes and for the count of their owners, one that is offered none. A list of pages takes memory.
#[test]
fn a_write_takes_the_pages_that_it_would_make(rt: HostRuntime) {
    let heap = Refusing::new(rt.alloc(), 0);
    let mut other: Kept<'_> = filled(&heap).expect(&rt, "memory");
    let mut image: Kept<'_> = filled(&heap).expect(&rt, "memory");
    assert!(rt; takes_offered(&heap, &mut image, &other, 4090, 12, 5));
    assert!(rt; puts_nines(&heap, &mut other, 4090, 12));
    assert!(rt; takes_offered(&heap, &mut image, &other, 4090, 12, 1));
    assert!(rt; has_nines(&heap, &image, 4090, 4102));
    assert!(rt; puts_nines(&heap, &mut other, 4090, 8198));
    assert!(rt; takes_offered(&heap, &mut image, &other, 4102, 8186, 1));
    assert!(rt; has_nines(&heap, &image, 4090, 12288));
}

// Where the other image was changed since, outside of the write or in its range, the page is made.
#[test]
fn a_page_that_differs_is_not_taken(rt: HostRuntime) {
    let heap = Refusing::new(rt.alloc(), 0);
    let mut other: Kept<'_> = filled(&heap).expect(&rt, "memory");
    let mut image: Kept<'_> = filled(&heap).expect(&rt, "memory");
    assert!(rt; puts_nines(&heap, &mut other, 100, 10));
    assert!(rt; takes_offered(&heap, &mut image, &other, 100, 10, 0));
    assert!(rt; puts_nines(&heap, &mut other, 4095, 1));
    assert!(rt; takes_offered(&heap, &mut image, &other, 110, 10, 2));
    assert!(rt; has_nines(&heap, &image, 100, 120));
    assert!(rt; puts_nines(&heap, &mut image, 4095, 1));
    assert!(rt; takes_offered(&heap, &mut image, &other, 120, 10, 2));
    assert!(rt; zeroes(&mut other, 0, 12288, false));
    assert!(rt; takes_offered(&heap, &mut image, &other, 130, 10, 2));
    assert!(rt; puts_nines(&heap, &mut image, 140, 3955));
    assert!(rt; has_nines(&heap, &image, 100, 4096));
}

// Whether a page that differs from the one that nines in 300 to 395 make is made anew, where it differs in a byte at this place.
fn sees_a_byte(heap: &Refusing<Global>, place: usize) -> bool {
    let (Ok(mut other), Ok(mut image)) = (filled::<Kept<'_>>(heap), filled::<Kept<'_>>(heap)) else {
        return false;
    };
    let Ok(byte) = Payload::copied(heap, place as u64, &[8]) else {
        return false;
    };
    puts_nines(heap, &mut other, 300, 96)
        && puts(&mut other, place, &byte)
        && takes_offered(heap, &mut image, &other, 300, 96, 2)
}

#[test]
fn a_page_that_differs_in_one_byte_is_not_taken(rt: HostRuntime) {
    let heap = Refusing::new(rt.alloc(), 0);
    for place in [0, 299, 300, 345, 395, 396, 4095] {
        assert!(rt; sees_a_byte(&heap, place));
    }
}

fn writes_as_before<I: Image>(alloc: I::Alloc) -> bool {
    let Ok(mut image) = filled::<I>(alloc) else {
        return false;
    };
    let (Ok(other), Ok(piece)) = (filled::<I>(alloc), nines(alloc, 5, 5000)) else {
        return false;
    };
    puts_offered(&mut image, &other, 5, &piece) && has_nines(alloc, &image, 5, 5005)
}

#[test]
fn what_is_offered_changes_no_byte(rt: HostRuntime) {
    assert!(rt; writes_as_before::<Flat<Global>>(rt.alloc()));
    assert!(rt; writes_as_before::<Paged<Global>>(rt.alloc()));
}
