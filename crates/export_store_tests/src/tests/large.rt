//! Images of a tebibyte.
use super::*;

const TEBIBYTE: usize = 1 << 40;

// A range of 4,294,967,295 bytes of such an image, from the midst of page 1,220 to that of page 1,049,796.
const FROM: usize = 5_000_001;

const LONG: usize = 4_294_967_295;

// Whether the bytes on both sides of a place are these two.
fn are_beside<I: Image>(image: &I, place: usize, before: u8, behind: u8) -> bool {
    if place == 0 || place >= image.size() {
        return false;
    }
    match image.read(place - 1, 2) {
        Ok(payload) => payload.len() == 2 && payload.from(0) == [before, behind].as_slice(),
        Err(NoMemory) => false,
    }
}

// Whether the last bytes of a large image are those that were written there, and zeros where they were made so.
fn ends_so(alloc: Global, image: &mut Paged<Global>) -> bool {
    let end = TEBIBYTE;
    let written = writes(alloc, image, end - 4, &[1, 2, 3, 4]) && image.held() == 1;
    let told = are_beside(image, end - 1, 3, 4) && are_beside(image, end - 3, 1, 2);
    let kept = zeroes(image, end - 2, 2, true) && are_beside(image, end - 2, 2, 0);
    let trimmed = zeroes(image, end - 8_192, 8_192, false) && image.held() == 0;
    written && told && kept && trimmed && are_beside(image, end - 3, 0, 0) && image.size() == end
}

fn ends_well(alloc: Global) -> bool {
    match Paged::<Global>::zeros(alloc, TEBIBYTE) {
        Ok(mut image) => ends_so(alloc, &mut image),
        Err(NoMemory) => false,
    }
}

#[test]
fn the_end_of_a_large_image_is_served(rt: HostRuntime) {
    assert!(rt; ends_well(rt.alloc()));
}

// How many pages are held once the long range is zero where no page was: 99 where a growth was asked for and none is promised.
fn held_of<'a>(heap: &'a Refusing<Global>, image: &mut Kept<'a>, keep: bool) -> usize {
    heap.arm(if keep { 0 } else { 1 });
    let zeroed = zeroes(image, FROM, LONG, keep);
    if zeroed && (keep || heap.is_armed()) {
        image.held()
    } else {
        99
    }
}

fn held_of_none(heap: &Refusing<Global>, keep: bool) -> usize {
    match Kept::zeros(heap, TEBIBYTE) {
        Ok(mut image) => held_of(heap, &mut image, keep),
        Err(NoMemory) => 99,
    }
}

// Whether two pages at the edges of the long range are written, and one in its midst.
fn writes_edges<'a>(heap: &'a Refusing<Global>, image: &mut Kept<'a>) -> bool {
    let end = FROM + LONG;
    writes(heap, image, FROM - 1, &[7, 8])
        && writes(heap, image, end - 1, &[8, 9])
        && writes(heap, image, 1 << 31, &[8, 8])
        && are_beside(image, FROM, 7, 8)
        && are_beside(image, end, 8, 9)
}

// Whether of the two only what lies in the range becomes zero, and so many pages are held then.
fn edges_stay_of<'a>(
    heap: &'a Refusing<Global>,
    image: &mut Kept<'a>,
    keep: bool,
    held: usize,
) -> bool {
    let end = FROM + LONG;
    heap.arm(1);
    let zeroed = zeroes(image, FROM, LONG, keep)
        || (keep && image.held() == 3 && zeroes(image, FROM, LONG, keep));
    zeroed
        && are_beside(image, FROM, 7, 0)
        && are_beside(image, end, 0, 9)
        && are_beside(image, (1 << 31) + 1, 0, 0)
        && image.held() == held
}

fn edges_stay(heap: &Refusing<Global>, keep: bool, held: usize) -> bool {
    match Kept::zeros(heap, TEBIBYTE) {
        Ok(mut image) => {
            writes_edges(heap, &mut image) && edges_stay_of(heap, &mut image, keep, held)
        }
        Err(NoMemory) => false,
    }
}

#[test]
fn a_long_range_of_a_large_image_is_made_zero(rt: HostRuntime) {
    let heap = Refusing::new(rt.alloc(), 0);
    assert!(rt; held_of_none(&heap, false) == 0);
    assert!(rt; held_of_none(&heap, true) == 1_048_577);
    assert!(rt; edges_stay(&heap, false, 2));
    assert!(rt; edges_stay(&heap, true, 1_048_577));
}

// Held zeros are given back with what lies whole in a range, and have no memory of their own before they are written.
fn held_zeros_go_of<'a>(heap: &'a Refusing<Global>, image: &mut Kept<'a>) -> bool {
    let held = zeroes(image, FROM, LONG, true) && image.held() == 1_048_577;
    heap.arm(1);
    let given_back = zeroes(image, FROM + 4_096, LONG - 8_192, false) && image.held() == 4;
    let again = zeroes(image, FROM, 4_096, true) && image.held() == 4;
    let without_memory = heap.is_armed();
    heap.arm(0);
    let written = writes(heap, image, FROM, &[1]) && image.held() == 4;
    held && given_back && again && without_memory && written && are_beside(image, FROM, 0, 1)
}

fn held_zeros_go(heap: &Refusing<Global>) -> bool {
    match Kept::zeros(heap, TEBIBYTE) {
        Ok(mut image) => held_zeros_go_of(heap, &mut image),
        Err(NoMemory) => false,
    }
}

#[test]
fn held_zeros_are_given_back(rt: HostRuntime) {
    let heap = Refusing::new(rt.alloc(), 0);
    assert!(rt; held_zeros_go(&heap));
}

// Whether zeros that are to be held change nothing where a growth is refused, and are held where none is.
fn holds_or_stays_of<'a>(heap: &'a Refusing<Global>, image: &mut Kept<'a>, nth: u64) -> bool {
    let written = writes(heap, image, 70_000_000, &[5, 6]);
    heap.arm(nth);
    let held = zeroes(image, 70_000_001, 200_000_000, true);
    let refused = !held && !heap.is_armed() && image.held() == 1;
    let stays = refused && are_beside(image, 70_000_001, 5, 6);
    let all = held && image.held() == 48_829 && are_beside(image, 70_000_001, 5, 0);
    written && (stays || all)
}

fn holds_or_stays(heap: &Refusing<Global>, nth: u64) -> bool {
    heap.arm(0);
    match Kept::zeros(heap, TEBIBYTE) {
        Ok(mut image) => holds_or_stays_of(heap, &mut image, nth),
        Err(NoMemory) => false,
    }
}

// How many growths were refused in turn up to the one that wasn't asked for. 0 where something was wrong, or there is no end.
fn growths_of_held_zeros(heap: &Refusing<Global>) -> u64 {
    for nth in 1..100u64 {
        if !holds_or_stays(heap, nth) {
            return 0;
        }
        if heap.is_armed() {
            return nth - 1;
        }
    }
    0
}

#[test]
fn each_growth_of_held_zeros_is_refused_in_turn(rt: HostRuntime) {
    let heap = Refusing::new(rt.alloc(), 0);
    assert!(rt; growths_of_held_zeros(&heap) >= 4);
}
