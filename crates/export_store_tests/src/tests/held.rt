//! Which pages are held.

use super::*;

// Whether an image is of so many zeros.
fn is_zeros(image: &Paged<Global>, alloc: Global, count: usize) -> bool {
    match all_of(alloc, image) {
        Ok(bytes) => bytes.len() == count && are_zeros(bytes.as_slice()),
        Err(NoMemory) => false,
    }
}

#[test]
fn pages_are_held_and_given_back(rt: HostRuntime) {
    let mut image: Paged<Global> = Paged::zeros(rt.alloc(), 12288).expect(&rt, "memory");
    assert!(rt; image.held() == 0);
    assert!(rt; writes(rt.alloc(), &mut image, 4095, &[1, 2]));
    assert!(rt; image.held() == 2);
    assert!(rt; held_after(&mut image, 0, 4096, false) == 1);
    assert!(rt; held_after(&mut image, 0, 12288, true) == 3);
    assert!(rt; held_after(&mut image, 1, 12286, false) == 2);
    assert!(rt; held_after(&mut image, 0, 12288, false) == 0);
    assert!(rt; is_zeros(&image, rt.alloc(), 12288));
}

// Whether all bytes between these two are zeros, and they are so many.
fn is_zeros_between(image: &Paged<Global>, alloc: Global, first: u8, last: u8) -> bool {
    let Ok(bytes) = all_of(alloc, image) else {
        return false;
    };
    bytes.first() == Some(&first)
        && bytes.last() == Some(&last)
        && bytes.iter().filter(|byte| **byte == 0).count() == 12286
}

#[test]
fn edges_of_a_range_are_overwritten(rt: HostRuntime) {
    let mut image: Paged<Global> = Paged::zeros(rt.alloc(), 12288).expect(&rt, "memory");
    assert!(rt; writes(rt.alloc(), &mut image, 0, &[1, 2]));
    assert!(rt; writes(rt.alloc(), &mut image, 12286, &[3, 4]));
    assert!(rt; held_after(&mut image, 1, 12286, false) == 2);
    assert!(rt; is_zeros_between(&image, rt.alloc(), 1, 4));
}

// The last page ends with the image, and lies whole in a range that reaches the end.
#[test]
fn the_last_page_is_short(rt: HostRuntime) {
    let mut image: Paged<Global> = Paged::zeros(rt.alloc(), 5000).expect(&rt, "memory");
    assert!(rt; writes(rt.alloc(), &mut image, 4999, &[7]));
    assert!(rt; held_after(&mut image, 4096, 903, false) == 1);
    assert!(rt; held_after(&mut image, 4096, 904, false) == 0);
}

// Whether no page is held after no bytes were written, and then zeroed, at a place.
fn holds_none_at(image: &mut Paged<Global>, alloc: Global, offset: usize) -> bool {
    writes(alloc, image, offset, &[]) && held_after(image, offset, 0, true) == 0
}

#[test]
fn nothing_is_held_for_no_bytes(rt: HostRuntime) {
    let mut image: Paged<Global> = Paged::zeros(rt.alloc(), 4097).expect(&rt, "memory");
    assert!(rt; holds_none_at(&mut image, rt.alloc(), 0));
    assert!(rt; holds_none_at(&mut image, rt.alloc(), 100));
    assert!(rt; holds_none_at(&mut image, rt.alloc(), 4096));
    assert!(rt; holds_none_at(&mut image, rt.alloc(), 4097));
    assert!(rt; writes(rt.alloc(), &mut image, 0, &[1]));
    assert!(rt; held_after(&mut image, 0, 0, false) == 1);
}

// Bytes that are the numbers from 0 to 250 over and over.
fn numbers(alloc: Global, count: u32) -> Result<Vec<u8, Global>, NoMemory> {
    let mut piece = Vec::new(alloc);
    for n in 0..count {
        piece.push((n % 251) as u8)?;
    }
    Ok(piece)
}

// Whether the bytes of an image are these from a place on, and zeros before and behind.
fn has_alone(image: &Paged<Global>, alloc: Global, place: usize, piece: &[u8]) -> bool {
    let Ok(bytes) = all_of(alloc, image) else {
        return false;
    };
    let Some((front, rest)) = bytes.as_slice().split_at_checked(place) else {
        return false;
    };
    let Some((written, behind)) = rest.split_at_checked(piece.len()) else {
        return false;
    };
    written == piece && are_zeros(front) && are_zeros(behind)
}

// A hundred pages in two chunks, written at once from the midst of one page to that of another.
#[test]
fn a_write_goes_over_many_pages(rt: HostRuntime) {
    let piece = numbers(rt.alloc(), 409_600).expect(&rt, "memory");
    let mut image: Paged<Global> = Paged::zeros(rt.alloc(), 1 << 21).expect(&rt, "memory");
    assert!(rt; writes(rt.alloc(), &mut image, 819_300, piece.as_slice()));
    assert!(rt; image.held() == 101);
    assert!(rt; has_alone(&image, rt.alloc(), 819_300, piece.as_slice()));
    assert!(rt; held_after(&mut image, 823_296, 401_408, false) == 3);
}
