ghost use Rattle.std.specs.Prelude.{◌≤◌, ◌≢◌, length};

use export_store::{Flat, Image};
use nbd_base::NoMemory;
use nbd_commands::*;
use nbd_wire::protocol::WRITE;
use nbd_wire::{Request, RequestHead};
use payload::Payload;
use refusing::Refusing;
use std::alloc::{Allocator, Global};

fn asked<A: Allocator>(kind: u16, flags: u16, offset: u64, length: u32) -> Request<A>
    requires { kind ≢ 1 }
{
    let head = RequestHead {
        flags,
        kind,
        cookie: 1,
        offset,
        length,
    };
    Request::new(head, Payload::new())
}

fn write_of<A: Allocator + Copy>(
    alloc: A,
    flags: u16,
    offset: u64,
    bytes: &[u8],
) -> Result<Request<A>, NoMemory>
    requires { length bytes.now ≤ 4096 }
{
    let payload = match Payload::copied(alloc, offset, bytes) {
        Ok(payload) => payload,
        Err(_) => Payload::copied(alloc, offset, bytes)?,
    };
    let head = RequestHead {
        flags,
        kind: WRITE,
        cookie: 1,
        offset,
        length: bytes.len() as u32,
    };
    Ok(Request::new(head, payload))
}

// Of a request that brings nothing, on an export of 4,096 bytes.
fn told(read_only: bool, kind: u16, flags: u16, offset: u64, length: u32) -> u32
    requires { kind ≢ 1 }
{
    let request: Request<Global> = asked(kind, flags, offset, length);
    let info = ExportInfo {
        size: 4096,
        read_only,
    };
    verdict(&info, &request)
}

// Of a request that brings nothing, on an export of 1 TiB.
fn told_of_a_tebibyte(kind: u16, offset: u64, length: u32) -> u32
    requires { kind ≢ 1 }
{
    let request: Request<Global> = asked(kind, 0, offset, length);
    let info = ExportInfo {
        size: 1_099_511_627_776,
        read_only: false,
    };
    verdict(&info, &request)
}

#[test]
fn the_first_case_that_fits_gives_the_error(rt: HostRuntime) {
    for (kind, flags, offset, length, error) in [
        (0, 0, 4092, 4, 0),
        (0, 0, 4092, 5, 22),
        (0, 0, u64::MAX, 1, 22),
        (4, 0, u64::MAX, 1, 22),
        (6, 0, u64::MAX, 1, 28),
        (0, 0, 4096, 0, 0),
        (0, 0, 4097, 0, 22),
        (3, 0, 7, 9, 0),
        (0, 2, 0, 1, 22),
        (6, 3, 0, 1, 0),
        (6, 4, 0, 1, 22),
        (5, 0, 0, 1, 0),
        (5, 1, 4092, 4, 0),
        (5, 0, 4092, 5, 22),
        (5, 2, 0, 1, 22),
        (7, 0, 0, 1, 22),
        (0, 0, 0, 33_554_433, 22),
    ] {
        let well = told(false, kind, flags, offset, length) == error;
        assert!(rt; well, "type {kind} at {offset}");
    }
    assert!(rt; told(true, 4, 0, 0, 3) == 1);
    assert!(rt; told(true, 0, 0, 0, 3) == 0);
    assert!(rt; told(true, 5, 0, 0, 3) == 0);
}

#[test]
fn no_range_of_a_large_export_wraps(rt: HostRuntime) {
    for (kind, past) in [(0, 22), (4, 22), (5, 22), (6, 28)] {
        for (offset, length, error) in [
            (1_099_511_627_772, 4, 0),
            (1_099_511_627_773, 4, past),
            (1_099_511_627_776, 0, 0),
            (1_099_511_627_777, 0, past),
            (u64::MAX, 1, past),
        ] {
            let well = told_of_a_tebibyte(kind, offset, length) == error;
            assert!(rt; well, "type {kind} at {offset}");
        }
    }
    for (kind, past) in [(4, 22), (5, 22), (6, 28)] {
        for (offset, error) in [
            (1_095_216_660_481, 0),
            (1_095_216_660_482, past),
            (18_446_744_069_414_584_321, past),
            (u64::MAX, past),
        ] {
            let well = told_of_a_tebibyte(kind, offset, u32::MAX) == error;
            assert!(rt; well, "4 GiB of type {kind} at {offset}");
        }
    }
}

// Of a WRITE of these bytes, on an export of 4,096 bytes. None where memory was refused.
fn told_of_write(read_only: bool, alloc: Global, flags: u16, bytes: &[u8]) -> Option<u32>
    requires { length bytes.now ≤ 4096 }
{
    let info = ExportInfo {
        size: 4096,
        read_only,
    };
    match write_of(alloc, flags, 4092, bytes) {
        Ok(write) => Some(verdict(&info, &write)),
        Err(NoMemory) => None,
    }
}

#[test]
fn a_write_past_the_end_finds_no_space(rt: HostRuntime) {
    assert!(rt; told_of_write(false, rt.alloc(), 1, &[1, 2, 3, 4]) == Some(0));
    assert!(rt; told_of_write(true, rt.alloc(), 1, &[1, 2, 3, 4]) == Some(1));
    assert!(rt; told_of_write(false, rt.alloc(), 0, &[1, 2, 3, 4, 5]) == Some(28));
}

// Performed where it is served, and once more where it found no memory.
fn serve<I: Image>(image: &mut I, request: &Request<I::Alloc>) -> Done<I::Alloc> {
    let info = ExportInfo {
        size: image.size() as u64,
        read_only: false,
    };
    let error = verdict(&info, request);
    if error != 0 {
        return Done {
            error,
            content: Payload::new(),
            memory: true,
        };
    }
    apply(image, request)
}

// Of a request that brings nothing.
fn wants(kind: u16, flags: u16) -> bool {
    if kind == WRITE {
        return false;
    }
    let request: Request<Global> = asked(kind, flags, 0, 1);
    may_want_memory(&request)
}

#[test]
fn some_requests_want_memory(rt: HostRuntime) {
    assert!(rt; wants(0, 1) && wants(6, 2) && wants(6, 3));
    assert!(rt; !wants(3, 0) && !wants(4, 2) && !wants(6, 0) && !wants(6, 1));
    assert!(rt; !wants(5, 0) && !wants(5, 1));
    let write = write_of(rt.alloc(), 0, 0, &[1]).expect(&rt, "memory");
    assert!(rt; may_want_memory(&write));
}

fn insist<I: Image>(image: &mut I, request: &Request<I::Alloc>) -> Done<I::Alloc> {
    let done = serve(image, request);
    if done.memory {
        return done;
    }
    serve(image, request)
}

// Performs a request that brings nothing.
fn performs<A: Allocator + Copy>(
    image: &mut Flat<A>,
    kind: u16,
    flags: u16,
    offset: u64,
    length: u32,
)
    requires { kind ≢ 1 }
{
    let _ = insist(image, &asked(kind, flags, offset, length));
}

// Performs a WRITE.
fn writes<A: Allocator + Copy>(image: &mut Flat<A>, write: &Request<A>) {
    let _ = insist(image, write);
}

// What is read after a write, a trim and two zeroings.
fn read_after<A: Allocator + Copy>(image: &mut Flat<A>, write: &Request<A>) -> Payload<A> {
    writes(image, write);
    performs(image, 4, 0, 1, 2);
    performs(image, 6, 2, 4, 1);
    performs(image, 6, 4, 0, 1);
    performs(image, 5, 0, 0, 5);
    insist(image, &asked(0, 0, 0, 5)).content
}

// Whether these bytes are read after a write of five and those changes.
fn has_after<A: Allocator + Copy>(alloc: A, image: &mut Flat<A>, bytes: &[u8]) -> bool {
    match write_of(alloc, 0, 0, &[1, 2, 3, 4, 5]) {
        Ok(write) => {
            let content = read_after(image, &write);
            !content.is_empty() && content.from(0) == bytes
        }
        Err(NoMemory) => false,
    }
}

// Whether an image, made at the second time where the first found no memory, is as it should be after the changes.
fn changes_well(heap: &Refusing<Global>) -> bool {
    let made: Result<Flat<&Refusing<Global>>, NoMemory> = match Flat::zeros(heap, 4096) {
        Ok(image) => Ok(image),
        Err(NoMemory) => Flat::zeros(heap, 4096),
    };
    match made {
        Ok(mut image) => has_after(heap, &mut image, &[1, 0, 0, 4, 0]),
        Err(NoMemory) => false,
    }
}

#[test]
fn each_growth_of_the_requests_is_refused_in_turn(rt: HostRuntime) {
    let heap = Refusing::new(rt.alloc(), 0);
    let mut refused = 0u64;
    for nth in 1..100u64 {
        heap.arm(nth);
        assert!(rt; changes_well(&heap), "at {nth}");
        if heap.is_armed() {
            break;
        }
        refused = nth;
    }
    assert!(rt; refused >= 3);
}
