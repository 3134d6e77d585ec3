//! Images and readers that hold the same pages.

use super::*;

// Puts the same two pages of sevens into two images.
fn share<I: Image>(alloc: I::Alloc, image: &mut I, other: &mut I) -> bool {
    let Ok(piece) = sevens(alloc, 0, 8192) else {
        return false;
    };
    puts(image, 0, &piece) && puts(other, 0, &piece)
}

// Whether all bytes of two pages are sevens but the one at 5, which is a one.
fn has_a_one<I: Image>(alloc: I::Alloc, image: &I) -> bool {
    let Ok(bytes) = all_of(alloc, image) else {
        return false;
    };
    bytes.get(5) == Some(&1) && bytes.iter().filter(|byte| **byte == 7).count() == 8191
}

// Whether two images of two pages that hold the same payload change apart.
fn change_apart_of<I: Image>(alloc: I::Alloc, image: &mut I, other: &mut I) -> bool {
    share(alloc, image, other)
        && zeroes(image, 100, 5000, false)
        && writes(alloc, other, 5, &[1])
        && is_but(alloc, image, 7, 100, 5100)
        && has_a_one(alloc, other)
}

// The same of an image and one that is made.
fn changes_apart<I: Image>(alloc: I::Alloc, image: &mut I) -> bool {
    match I::zeros(alloc, 8192) {
        Ok(mut other) => change_apart_of(alloc, image, &mut other),
        Err(NoMemory) => false,
    }
}

fn change_apart<I: Image>(alloc: I::Alloc) -> bool {
    match I::zeros(alloc, 8192) {
        Ok(mut image) => changes_apart(alloc, &mut image),
        Err(NoMemory) => false,
    }
}

#[test]
fn images_that_hold_the_same_payload_change_apart(rt: HostRuntime) {
    assert!(rt; change_apart::<Flat<Global>>(rt.alloc()));
    assert!(rt; change_apart::<Paged<Global>>(rt.alloc()));
}

// Makes all three pages zeros, in three changes.
fn clears<I: Image>(alloc: I::Alloc, image: &mut I) -> bool {
    zeroes(image, 0, 5000, false)
        && writes(alloc, image, 4096, &[1, 2, 3])
        && zeroes(image, 4096, 8192, true)
}

// Whether a payload is of so many sevens.
fn is_sevens<A: Allocator + Copy>(alloc: A, payload: &Payload<A>, count: usize) -> bool {
    let mut bytes = Vec::new(alloc);
    payload.append(&mut bytes).is_ok()
        && bytes.len() == count
        && bytes.iter().all(|byte| *byte == 7)
}

// Whether what is read of an image of three pages of sevens stays as it was when the image changes.
fn range_stays<I: Image>(alloc: I::Alloc, image: &mut I, offset: usize, count: usize) -> bool {
    if !puts_sevens(alloc, image, 12288) {
        return false;
    }
    let size = image.size();
    if offset > size || count > size - offset {
        return false;
    }
    let Ok(payload) = image.read(offset, count) else {
        return false;
    };
    clears(alloc, image) && is_sevens(alloc, &payload, count) && is_but(alloc, image, 0, 0, 0)
}

// Whether what was read of an image stays as it was, of one page and of several, when the image changes.
fn ranges_stay<I: Image>(alloc: I::Alloc, image: &mut I) -> bool {
    range_stays(alloc, image, 100, 50)
        && range_stays(alloc, image, 0, 4096)
        && range_stays(alloc, image, 4095, 8000)
        && puts_sevens(alloc, image, 12288)
        && image.size() == 12288
}

fn stays_as_read<I: Image>(alloc: I::Alloc) -> bool {
    match I::zeros(alloc, 12288) {
        Ok(mut image) => ranges_stay::<I>(alloc, &mut image),
        Err(NoMemory) => false,
    }
}

#[test]
fn what_was_read_stays_as_it_was(rt: HostRuntime) {
    assert!(rt; stays_as_read::<Flat<Global>>(rt.alloc()));
    assert!(rt; stays_as_read::<Paged<Global>>(rt.alloc()));
}
