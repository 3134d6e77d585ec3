//! Payloads that are handed over to an image.

use super::*;

// A payload of these bytes. A call that found no memory is made again.
fn copied<A: Allocator + Copy>(
    alloc: A,
    offset: usize,
    bytes: &[u8],
) -> Result<Payload<A>, NoMemory> {
    match Payload::copied(alloc, offset as u64, bytes) {
        Ok(piece) => Ok(piece),
        Err(NoMemory) => Payload::copied(alloc, offset as u64, bytes),
    }
}

// Hands a payload over to an image, and says whether it is written. Where memory was refused it is handed over again, and was as before.
fn hands_over<I: Image>(
    image: &mut I,
    offset: usize,
    piece: &mut Payload<I::Alloc>,
    count: usize,
) -> bool {
    let size = image.size();
    if offset > size || piece.len() > size - offset {
        return false;
    }
    image.put(offset, piece).is_ok() || (piece.len() == count && image.put(offset, piece).is_ok())
}

// The same with bytes.
fn hands<I: Image>(alloc: I::Alloc, image: &mut I, offset: usize, bytes: &[u8]) -> bool {
    match copied(alloc, offset, bytes) {
        Ok(mut piece) => hands_over(image, offset, &mut piece, bytes.len()),
        Err(NoMemory) => false,
    }
}

// Hands over pages that aren't held, one that is, several, and a part of two.
fn hands_each<I: Image>(alloc: I::Alloc, image: &mut I) -> bool {
    hands(alloc, image, 4_096, &[1; 4_096])
        && hands(alloc, image, 4_096, &[2; 4_096])
        && hands(alloc, image, 0, &[3; 8_192])
        && hands(alloc, image, 4_096, &[4; 4_096])
        && hands(alloc, image, 8_191, &[5, 6])
}

// Whether bytes at these places are these.
fn are_at(bytes: &[u8], told: &[(usize, u8)]) -> bool {
    told.iter().all(|(at, byte)| bytes.get(*at) == Some(byte))
}

// Whether an image has what was handed over.
fn has_handed<I: Image>(alloc: I::Alloc, image: &I) -> bool {
    let told = [
        (0, 3),
        (4_095, 3),
        (4_096, 4),
        (8_190, 4),
        (8_191, 5),
        (8_192, 6),
        (8_193, 0),
    ];
    match all_of(alloc, image) {
        Ok(bytes) => are_at(bytes.as_slice(), &told),
        Err(NoMemory) => false,
    }
}

// Whether what is handed over is as it was.
fn is_handed<I: Image>(alloc: I::Alloc) -> bool {
    match made::<I>(alloc, 12_288) {
        Ok(mut image) => hands_each(alloc, &mut image) && has_handed(alloc, &image),
        Err(NoMemory) => false,
    }
}

// Whether bytes are handed over where a growth is refused: true where no image came to that growth, None where one is wrong.
fn are_handed_without(heap: &Refusing<Global>, nth: u64) -> Option<bool> {
    heap.arm(nth);
    if !is_handed::<Flat<&Refusing<Global>>>(heap) {
        return None;
    }
    let armed = heap.is_armed();
    heap.arm(nth);
    if !is_handed::<Paged<&Refusing<Global>>>(heap) {
        return None;
    }
    Some(armed && heap.is_armed())
}

// The first growth that nothing came to, when each before it was refused in turn. 0 where something was wrong, or there is no end.
fn growths_of_hands(heap: &Refusing<Global>) -> u64 {
    for nth in 1..100u64 {
        match are_handed_without(heap, nth) {
            Some(true) => return nth,
            Some(false) => {}
            None => return 0,
        }
    }
    0
}

#[test]
fn what_is_handed_over_is_written(rt: HostRuntime) {
    assert!(rt; is_handed::<Flat<Global>>(rt.alloc()));
    assert!(rt; is_handed::<Paged<Global>>(rt.alloc()));
    let heap = Refusing::new(rt.alloc(), 0);
    assert!(rt; growths_of_hands(&heap) > 3);
}

// Whether a page is handed over where there is no memory.
fn takes_a_page<'a>(
    heap: &'a Refusing<Global>,
    image: &mut Kept<'a>,
    piece: &mut Payload<&'a Refusing<Global>>,
) -> bool {
    heap.arm(1);
    image.size() == 8_192
        && piece.len() == 4_096
        && image.put(4_096, piece).is_ok()
        && heap.is_armed()
        && image.held() == 1
}

// Whether it takes the place of one that is held.
fn takes_over<'a>(heap: &'a Refusing<Global>, image: &mut Kept<'a>) -> bool {
    if !writes(heap, image, 4_096, &[1]) {
        return false;
    }
    match Payload::copied(heap, 4_096, &[2; 4_096]) {
        Ok(mut piece) => takes_a_page(heap, image, &mut piece),
        Err(NoMemory) => false,
    }
}

fn takes_the_place(heap: &Refusing<Global>) -> bool {
    match Kept::zeros(heap, 8_192) {
        Ok(mut image) => takes_over(heap, &mut image),
        Err(NoMemory) => false,
    }
}

#[test]
fn a_page_takes_the_place_of_one(rt: HostRuntime) {
    let heap = Refusing::new(rt.alloc(), 0);
    assert!(rt; takes_the_place(&heap));
}
