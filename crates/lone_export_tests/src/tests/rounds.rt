//! Steps of a request that are made at once.

use super::*;
use refusing::Refusing;

// The first three steps of a request: whether memory was there, or None where the export isn't idle for it.
fn served<A: Allocator + Copy>(
    lone: &mut Lone<Flat<A>>,
    session: u64,
    request: Request<A>,
) -> Option<bool> {
    if lone.is_idle_for(session, &request) {
        Some(lone.serve(session, Moment::zero(), request).is_ok())
    } else {
        None
    }
}

// All four steps of a READ, where the export is idle for it.
fn passed(lone: &mut Alone, session: u64, read: &Request<Global>) -> bool {
    let passes = read.head().kind == READ && lone.is_idle_for(session, read);
    if passes {
        lone.serve_dropped_read(session, Moment::zero(), read);
    }
    passes
}

// Whether session 0 is attached, and the export idle for none of its requests before.
fn opens<A: Allocator + Copy>(lone: &mut Lone<Flat<A>>) -> bool {
    served(lone, 0, read_of(1, 0, 4)).is_none() && lone.attach() == Ok(0)
}

// Whether a WRITE is served at once, and nothing more while its reply is there.
fn writes(alloc: Global, lone: &mut Alone) -> bool {
    let Some(write) = write_of(alloc, 7, b"\xde\xad\xbe\xef") else {
        return false;
    };
    if served(lone, 0, write) != Some(true) || lone.slot_of(0).is_some() {
        return false;
    }
    (lone.steps(), lone.next_number(), lone.waiting()) == (4, 1, 0)
        && served(lone, 0, read_of(8, 0, 4)).is_none()
        && replies(lone, 7, 0, b"")
}

// Whether a READ behind the end isn't served at once, nor one of a session that isn't there.
fn serves_no_other(lone: &mut Alone) -> bool {
    served(lone, 0, read_of(8, 0, 9)).is_none() && served(lone, 1, read_of(8, 0, 4)).is_none()
}

#[test]
fn three_steps_at_once(rt: HostRuntime) {
    let mut lone = opened(rt.alloc(), &ExportSettings::new(b"a", 8)).expect(&rt, "memory");
    assert!(rt; opens(&mut lone));
    assert!(rt; writes(rt.alloc(), &mut lone));
    assert!(rt; serves_no_other(&mut lone));
    assert!(rt; served(&mut lone, 0, read_of(8, 1, 3)) == Some(true));
    assert!(rt; replies(&mut lone, 8, 0, b"\xad\xbe\xef"));
    assert!(rt; (lone.steps(), lone.next_number()) == (9, 2));
    assert!(rt; is_empty(&mut lone));
    lone.laws();
}

// Whether two READs pass, and leave no reply.
fn two_pass(lone: &mut Alone) -> bool {
    let read = read_of(7, 0, 8);
    if !passed(lone, 0, &read) || !passed(lone, 0, &read) {
        return false;
    }
    (lone.steps(), lone.next_number()) == (9, 2) && is_empty(lone)
}

// Whether no READ passes while a request waits, nor while it is in service.
fn none_passes(lone: &mut Alone) -> bool {
    let read = read_of(7, 0, 8);
    if lone.arrive(0, Moment::zero(), read_of(8, 0, 8)).is_err() || passed(lone, 0, &read) {
        return false;
    }
    if !lone.may_pick() || lone.pick().is_none() || passed(lone, 0, &read) {
        return false;
    }
    (lone.steps(), lone.next_number()) == (11, 3)
}

#[test]
fn a_read_passes(rt: HostRuntime) {
    let mut lone = opened(rt.alloc(), &ExportSettings::new(b"a", 8)).expect(&rt, "memory");
    assert!(rt; lone.attach() == Ok(0));
    assert!(rt; two_pass(&mut lone));
    assert!(rt; none_passes(&mut lone));
    lone.laws();
}

// Whether a READ that finds no memory for its data is no step.
fn stays(heap: &Refusing<Global>, lone: &mut Lone<Flat<&Refusing<Global>>>) -> bool {
    heap.arm(1);
    if served(lone, 0, read_of(7, 0, 8)) != Some(false) {
        return false;
    }
    (lone.steps(), lone.next_number()) == (1, 0) && is_empty(lone)
}

// The READ is served by the next call.
#[test]
fn three_steps_without_memory(rt: HostRuntime) {
    let heap = Refusing::new(rt.alloc(), 0);
    let mut lone = opened(&heap, &ExportSettings::new(b"a", 8)).expect(&rt, "memory");
    assert!(rt; lone.attach() == Ok(0));
    assert!(rt; stays(&heap, &mut lone));
    assert!(rt; served(&mut lone, 0, read_of(7, 0, 8)) == Some(true));
    assert!(rt; replies(&mut lone, 7, 0, b"\0\0\0\0\0\0\0\0"));
}
