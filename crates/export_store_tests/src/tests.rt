use export_store::{Flat, Image, Paged, Swept};
use nbd_base::NoMemory;
use payload::{Payload, Spares};
use refusing::Refusing;
use std::alloc::{Allocator, Global};

mod beside;
mod handed;
mod held;
mod large;
mod memory;
mod offered;
mod shared;
mod swept;
mod written;

// An image in pages whose heap may refuse.
type Kept<'a> = Paged<&'a Refusing<Global>>;

// Writes a payload at an offset, and says whether memory was there; false too where the range is past the end.
fn puts<I: Image>(image: &mut I, offset: usize, piece: &Payload<I::Alloc>) -> bool {
    let size = image.size();
    offset <= size && piece.len() <= size - offset && image.write(offset, piece).is_ok()
}

// Writes bytes, likewise.
fn writes<I: Image>(alloc: I::Alloc, image: &mut I, offset: usize, bytes: &[u8]) -> bool {
    match Payload::copied(alloc, offset as u64, bytes) {
        Ok(piece) => puts(image, offset, &piece),
        Err(NoMemory) => false,
    }
}

// Makes a range zero, likewise.
fn zeroes<I: Image>(image: &mut I, offset: usize, count: usize, keep: bool) -> bool {
    let size = image.size();
    offset <= size && count <= size - offset && image.zero(offset, count, keep).is_ok()
}

// An image of zeros. A call that found no memory is made again.
fn made<I: Image>(alloc: I::Alloc, size: usize) -> Result<I, NoMemory> {
    match I::zeros(alloc, size) {
        Ok(image) => Ok(image),
        Err(NoMemory) => I::zeros(alloc, size),
    }
}

// All that an image holds. A call that found no memory is made again.
fn read_of<I: Image>(image: &I) -> Result<Payload<I::Alloc>, NoMemory> {
    match image.read(0, image.size()) {
        Ok(payload) => Ok(payload),
        Err(NoMemory) => image.read(0, image.size()),
    }
}

// Appends what a payload holds. A call that found no memory is made again.
fn appends<A: Allocator + Copy>(payload: &Payload<A>, out: &mut Vec<u8, A>) -> bool {
    payload.append(out).is_ok() || payload.append(out).is_ok()
}

fn bytes_of<A: Allocator + Copy>(alloc: A, payload: &Payload<A>) -> Result<Vec<u8, A>, NoMemory> {
    let mut out = Vec::new(alloc);
    if appends(payload, &mut out) {
        Ok(out)
    } else {
        Err(NoMemory)
    }
}

// The bytes of an image.
fn all_of<I: Image>(alloc: I::Alloc, image: &I) -> Result<Vec<u8, I::Alloc>, NoMemory> {
    match read_of(image) {
        Ok(payload) => bytes_of(alloc, &payload),
        Err(NoMemory) => Err(NoMemory),
    }
}

fn are_zeros(bytes: &[u8]) -> bool {
    bytes.iter().all(|byte| *byte == 0)
}

// Whether the bytes of a payload are these.
fn is_payload<A: Allocator + Copy>(alloc: A, payload: &Payload<A>, bytes: &[u8]) -> bool {
    let mut all = Vec::new(alloc);
    appends(payload, &mut all) && all.as_slice() == bytes
}

// Whether the bytes of an image are these.
fn is_of<I: Image>(alloc: I::Alloc, image: &I, bytes: &[u8]) -> bool {
    match read_of(image) {
        Ok(payload) => is_payload(alloc, &payload, bytes),
        Err(NoMemory) => false,
    }
}

// Whether the bytes of an image, but for those of a range, are all the same one, and those are zeros.
fn is_but<I: Image>(alloc: I::Alloc, image: &I, byte: u8, start: usize, end: usize) -> bool {
    let Ok(bytes) = all_of(alloc, image) else {
        return false;
    };
    let right = bytes.iter().enumerate().filter(|(at, found)| {
        let zero = start <= *at && *at < end;
        **found == if zero { 0 } else { byte }
    });
    right.count() == image.size()
}

// A payload of so many sevens, the first of which has this offset in an image.
fn sevens<A: Allocator + Copy>(
    alloc: A,
    offset: u64,
    count: usize,
) -> Result<Payload<A>, NoMemory> {
    let bytes = Vec::from_elem(alloc, 7u8, count)?;
    Payload::copied(alloc, offset, bytes.as_slice())
}

// Puts so many sevens at the beginning.
fn puts_sevens<I: Image>(alloc: I::Alloc, image: &mut I, count: usize) -> bool {
    match sevens(alloc, 0, count) {
        Ok(piece) => puts(image, 0, &piece),
        Err(NoMemory) => false,
    }
}

// How many pages are held after a range was made zero; 99 where it couldn't be.
fn held_after(image: &mut Paged<Global>, offset: usize, count: usize, keep: bool) -> usize {
    if zeroes(image, offset, count, keep) {
        image.held()
    } else {
        99
    }
}
