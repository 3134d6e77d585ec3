//! A write and zeros, and each growth refused in turn.

use super::*;

// A write at 1 and a zero at 2, of an image of six bytes. A call that found no memory is made again.
fn changes<I: Image>(alloc: I::Alloc, image: &mut I) -> bool {
    let bytes = [1, 2, 3, 4];
    let written = writes(alloc, image, 1, &bytes) || writes(alloc, image, 1, &bytes);
    let zeroed = zeroes(image, 2, 1, false);
    let kept = zeroes(image, 3, 1, true) || zeroes(image, 3, 1, true);
    written && zeroed && kept
}

// Whether an image is as it should be after these changes.
fn changes_well<I: Image>(alloc: I::Alloc, image: &mut I) -> bool {
    changes(alloc, image) && image.size() == 6 && is_of(alloc, image, &[0, 1, 0, 0, 4, 0])
}

fn is_changed<I: Image>(alloc: I::Alloc) -> bool {
    match made::<I>(alloc, 6) {
        Ok(mut image) => changes_well(alloc, &mut image),
        Err(NoMemory) => false,
    }
}

#[test]
fn reads_what_was_written(rt: HostRuntime) {
    assert!(rt; is_changed::<Flat<Global>>(rt.alloc()));
    assert!(rt; is_changed::<Paged<Global>>(rt.alloc()));
}

// Whether images are as they should be where a growth is refused: true where none of them came to that growth, None where one is wrong.
fn are_changed_without(heap: &Refusing<Global>, nth: u64) -> Option<bool> {
    heap.arm(nth);
    if !is_changed::<Flat<&Refusing<Global>>>(heap) {
        return None;
    }
    let armed = heap.is_armed();
    heap.arm(nth);
    if !is_changed::<Paged<&Refusing<Global>>>(heap) {
        return None;
    }
    Some(armed && heap.is_armed())
}

// The first growth that nothing came to, when each before it was refused in turn. 0 where something was wrong, or there is no end.
fn growths_of_changes(heap: &Refusing<Global>) -> u64 {
    for nth in 1..100u64 {
        match are_changed_without(heap, nth) {
            Some(true) => return nth,
            Some(false) => {}
            None => return 0,
        }
    }
    0
}

#[test]
fn each_growth_is_refused_in_turn(rt: HostRuntime) {
    let heap = Refusing::new(rt.alloc(), 0);
    assert!(rt; growths_of_changes(&heap) > 3);
}
