//! An image in pages beside one in one piece.
use super::*;

// An image in pages whose bytes from a place on are those of one in one piece, and others zeros.
#[derive(Drop)]
struct Both<A: Allocator + Copy> {
    paged: Paged<A>,
    flat: Flat<A>,
    begin: usize,
}

// 768 pages on both sides of 64 MiB.
fn make_both(alloc: Global) -> Option<Both<Global>> {
    match Flat::zeros(alloc, 3 << 20) {
        Ok(flat) => beside(alloc, flat),
        Err(NoMemory) => None,
    }
}

fn beside(alloc: Global, flat: Flat<Global>) -> Option<Both<Global>> {
    match Paged::zeros(alloc, 1 << 27) {
        Ok(paged) => Some(Both {
            paged,
            flat,
            begin: (1 << 26) - (3 << 19),
        }),
        Err(NoMemory) => None,
    }
}

// A number that looks drawn by lot.
fn next_of(seed: &mut u64) -> u64 {
    *seed = seed
        .wrapping_mul(6_364_136_223_846_793_005)
        .wrapping_add(1_442_695_040_888_963_407);
    *seed >> 33
}

// A place close to the edge of a chunk, and a length that mostly is a few pages and sometimes more than a chunk.
fn range_of(seed: &mut u64) -> (usize, usize) {
    let edge = 524_288 + (next_of(seed) % 3) as usize * 1_048_576;
    let offset = edge + (next_of(seed) % 16_384) as usize - 8_192;
    let most = if next_of(seed) % 8 == 0 {
        1_200_000
    } else {
        20_000
    };
    let count = (next_of(seed) % most) as usize;
    (offset, count.min((3 << 20) - offset))
}

// Makes a range of both zero.
fn zeroes_both(
    both: &mut Both<Global>,
    place: usize,
    offset: usize,
    count: usize,
    keep: bool,
) -> bool {
    zeroes(&mut both.paged, place, count, keep) && zeroes(&mut both.flat, offset, count, keep)
}

// Writes a byte over and over to both.
fn writes_both(
    alloc: Global,
    both: &mut Both<Global>,
    place: usize,
    offset: usize,
    count: usize,
    byte: u8,
) -> bool {
    match Vec::from_elem(alloc, byte, count.min(30_000)) {
        Ok(bytes) => {
            writes(alloc, &mut both.paged, place, bytes.as_slice())
                && writes(alloc, &mut both.flat, offset, bytes.as_slice())
        }
        Err(_) => false,
    }
}

// Makes one change to both.
fn changes(alloc: Global, both: &mut Both<Global>, seed: &mut u64) -> bool {
    let (offset, count) = range_of(seed);
    let Some(place) = both.begin.checked_add(offset) else {
        return false;
    };
    match next_of(seed) % 4 {
        0 => zeroes_both(both, place, offset, count, true),
        1 => zeroes_both(both, place, offset, count, false),
        _ => {
            let byte = (next_of(seed) % 255) as u8 + 1;
            writes_both(alloc, both, place, offset, count, byte)
        }
    }
}

// Whether a payload has the bytes of an image in one piece.
fn has_all(alloc: Global, payload: &Payload<Global>, flat: &Flat<Global>) -> bool {
    match all_of(alloc, flat) {
        Ok(bytes) => is_payload(alloc, payload, bytes.as_slice()),
        Err(NoMemory) => false,
    }
}

// Whether both have the same bytes.
fn are_same(alloc: Global, both: &Both<Global>) -> bool {
    let size = both.flat.size();
    let Some(end) = both.begin.checked_add(size) else {
        return false;
    };
    if end > both.paged.size() {
        return false;
    }
    match both.paged.read(both.begin, size) {
        Ok(payload) => has_all(alloc, &payload, &both.flat),
        Err(NoMemory) => false,
    }
}

// Whether both stay the same over many changes.
fn stay_same(alloc: Global, both: &mut Both<Global>, mut seed: u64) -> bool {
    for step in 0..96u32 {
        if !changes(alloc, both, &mut seed) {
            return false;
        }
        if step % 16 == 15 && !are_same(alloc, both) {
            return false;
        }
    }
    let end = both.paged.size();
    zeroes(&mut both.paged, 0, end, false) && both.paged.held() == 0
}

fn goes_as_one_piece(alloc: Global, seed: u64) -> bool {
    match make_both(alloc) {
        Some(mut both) => stay_same(alloc, &mut both, seed),
        None => false,
    }
}

#[test]
fn pages_go_as_one_piece(rt: HostRuntime) {
    assert!(rt; goes_as_one_piece(rt.alloc(), 1));
    assert!(rt; goes_as_one_piece(rt.alloc(), 7));
}
