//! A READ that is performed without its data.

use super::runs::is_replayed;
use super::*;

// Whether a session's READ is in service under number 0, its FLUSH under 1.
fn begins(alloc: Global, lone: &mut Alone) -> bool {
    let run = [
        (Call::Attach, "session 0"),
        (Call::Read(0, 0, 7, 8), "accepted 0 0"),
        (Call::Flush(8), "accepted 1 0"),
        (Call::Pick, "request 0"),
        (Call::Pick, "request 1"),
    ];
    is_replayed(alloc, lone, &run, 5)
}

// Whether the READ is known by its number, and isn't skipped under another number or for another session.
fn skips_no_other(lone: &mut Alone) -> bool {
    if !lone.is_reading(0) || lone.is_reading(1) || lone.is_reading(2) {
        return false;
    }
    !lone.skip_read(2, 0) && !lone.skip_read(1, 0) && !lone.skip_read(0, 1) && lone.steps() == 5
}

// Whether the head of the READ is told under its number, and none under another.
fn tells_its_head(lone: &Alone) -> bool {
    let Some(head) = lone.head_of(0) else {
        return false;
    };
    head.kind == READ && head.length == 8 && lone.head_of(2).is_none()
}

#[test]
fn a_read_is_skipped(rt: HostRuntime) {
    let mut lone = opened(rt.alloc(), &ExportSettings::new(b"a", 8)).expect(&rt, "memory");
    assert!(rt; begins(rt.alloc(), &mut lone));
    assert!(rt; tells_its_head(&lone));
    assert!(rt; skips_no_other(&mut lone));
    assert!(rt; lone.skip_read(0, 0));
    assert!(rt; (lone.steps(), lone.slot_of(0)) == (7, None));
    assert!(rt; is_empty(&mut lone));
    lone.laws();
}

// Whether the FLUSH is performed.
fn flushes(lone: &mut Alone) -> bool {
    let Some(slot) = lone.slot_of(1) else {
        return false;
    };
    lone.perform(slot, 1) == Some(true)
}

// The FLUSH was done before: its reply is taken first.
#[test]
fn no_read_is_skipped_behind_a_reply(rt: HostRuntime) {
    let mut lone = opened(rt.alloc(), &ExportSettings::new(b"a", 8)).expect(&rt, "memory");
    assert!(rt; begins(rt.alloc(), &mut lone));
    assert!(rt; flushes(&mut lone));
    assert!(rt; lone.is_reading(0) && !lone.skip_read(0, 0));
    assert!(rt; lone.steps() == 6);
}
