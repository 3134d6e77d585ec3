//! Rates that change while an export runs.

use super::runs::first_wrong;
use super::step_answers::remade;
use super::*;
use refusing::Refusing;

// From ten requests a second to four, and then to no limit. The tags go on from the last one. While a request waits the rates stay.
#[test]
fn tags_go_on_over_a_retune(rt: HostRuntime) {
    let settings = ExportSettings {
        limit: 10,
        ..ExportSettings::new(b"a", 4096)
    };
    let run = [
        (Call::Attach, "session 0"),
        (Call::Read(0, 0, 1, 0), "accepted 0 0"),
        (Call::Retune(0, 4, 1), "waiting"),
        (Call::Pick, "request 0"),
        (Call::Retune(0, 4, 1), "retuned"),
        (Call::Read(0, 0, 2, 0), "accepted 1 250000000"),
        (Call::Read(0, 0, 3, 0), "accepted 2 500000000"),
        (Call::Pick, "request 1"),
        (Call::Pick, "request 2"),
        (Call::Retune(0, 0, 1), "retuned"),
        (Call::Read(0, 0, 4, 0), "accepted 3 500000000"),
    ];
    for by_replay in [false, true] {
        let wrong = first_wrong(rt.alloc(), &settings, &run, 10, by_replay);
        assert!(rt; wrong == 0, "call {wrong}, by replay: {by_replay}");
    }
}

// From no limit to two requests a second, and to ten at a later moment.
#[test]
fn a_limit_may_come_later(rt: HostRuntime) {
    let settings = ExportSettings::new(b"a", 4096);
    let run = [
        (Call::Attach, "session 0"),
        (Call::Retune(1, 2, 7), "retuned"),
        (Call::Read(0, 5, 1, 0), "accepted 0 5"),
        (Call::Read(0, 6, 2, 0), "accepted 1 500000005"),
        (Call::Pick, "request 0"),
        (Call::Pick, "request 1"),
        (Call::Retune(0, 10, 1), "retuned"),
        (Call::Read(0, 7, 3, 0), "accepted 2 600000005"),
        (Call::Read(0, 900_000_000, 4, 0), "accepted 3 900000000"),
    ];
    for by_replay in [false, true] {
        let wrong = first_wrong(rt.alloc(), &settings, &run, 9, by_replay);
        assert!(rt; wrong == 0, "call {wrong}, by replay: {by_replay}");
    }
}

// Whether the rates stay while a request waits, also where another is in service.
fn stays_while_one_waits(lone: &mut Alone, rates: Rates) -> bool {
    for cookie in 1..3u64 {
        if lone
            .arrive(0, Moment::zero(), read_of(cookie, 0, 8))
            .is_err()
        {
            return false;
        }
    }
    if !lone.may_pick() || lone.pick().is_none() {
        return false;
    }
    lone.may_retune() == Err(RetuneRefusal::Waiting)
        && lone.retune(rates) == Err(RetuneRefusal::Waiting)
        && lone.steps() == 4
}

// Whether they are others once none waits, although two are in service. No step to come is more or less.
fn changes_while_two_are_out(lone: &mut Alone, rates: Rates) -> bool {
    if !lone.may_pick() || lone.pick().is_none() {
        return false;
    }
    if lone.slot_of(0).is_none() || lone.slot_of(1).is_none() {
        return false;
    }
    let to_come = lone.to_come();
    lone.may_retune() == Ok(()) && lone.retune(rates) == Ok(()) && lone.to_come() == to_come
}

#[test]
fn no_rates_change_while_a_request_waits(rt: HostRuntime) {
    let mut lone = opened(rt.alloc(), &ExportSettings::new(b"a", 8)).expect(&rt, "memory");
    let rates = Rates::new(3, 4, 5).expect(&rt, "in range");
    assert!(rt; lone.attach() == Ok(0));
    assert!(rt; stays_while_one_waits(&mut lone, rates));
    assert!(rt; changes_while_two_are_out(&mut lone, rates));
    assert!(rt; lone.steps() == 6);
    lone.laws();
}

// Whether an export is retuned by a replay.
fn is_retuned<'a>(heap: &'a Refusing<Global>, lone: &mut Lone<Flat<&'a Refusing<Global>>>) -> bool {
    match step_of(heap, Call::Retune(0, 0, 1)) {
        Some(step) => remade(lone, &step).is_some(),
        None => false,
    }
}

// Whether it is, by its own call before, and asks for no memory.
fn stays_armed<'a>(
    heap: &'a Refusing<Global>,
    lone: &mut Lone<Flat<&'a Refusing<Global>>>,
) -> bool {
    let Ok(rates) = Rates::new(0, 4, 1) else {
        return false;
    };
    heap.arm(1);
    lone.retune(rates).is_ok() && is_retuned(heap, lone) && heap.is_armed() && lone.steps() == 2
}

// The same of an export on a heap that refuses what it is asked for.
fn wants_no_memory(heap: &Refusing<Global>) -> bool {
    match opened(heap, &ExportSettings::new(b"a", 8)) {
        Ok(mut lone) => stays_armed(heap, &mut lone),
        Err(NoMemory) => false,
    }
}

#[test]
fn a_retune_wants_no_memory(rt: HostRuntime) {
    let heap = Refusing::new(rt.alloc(), 0);
    assert!(rt; wants_no_memory(&heap));
}
