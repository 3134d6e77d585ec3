//! Turns by hand.

use super::Call::*;
use super::*;

// 8,192 units ahead are allowed; one that was stopped goes on once it is 4,096 ahead.
#[test]
fn ahead_by_the_slack(rt: HostRuntime) {
    let calls = [
        Enter(0, 0),
        Enter(1, 0),
        Goes(0, 0, 8_192),
        Goes(0, 0, 1),
        Waits(0, 0, 1),
        BeginWait(0),
        Goes(1, 0, 4_096),
        Wakes(0, 0, None),
        Goes(1, 0, 1),
        Wakes(0, 0, Some(0)),
        Wakes(1, 0, None),
        EndWait(0),
        Wakes(0, 0, None),
        Goes(0, 0, 4_096),
        Goes(0, 0, 1),
        Waits(0, 0, 1),
    ];
    let wrong = first_wrong(rt.alloc(), rates(0, 0, 1), rates(0, 0, 1), &calls);
    assert!(rt; wrong == 0, "call {wrong}");
}

// A unit of weight 1 is three of weight 3; the slack of 8,192 of these is 2,730 and two thirds, and half of it 1,365 and a third.
#[test]
fn ahead_by_weight(rt: HostRuntime) {
    let calls = [
        Enter(0, 0),
        Enter(1, 0),
        Goes(0, 0, 2_730),
        Goes(0, 0, 1),
        Waits(0, 0, 1),
        Goes(1, 0, 4_096),
        Waits(0, 0, 1),
        Goes(1, 0, 3),
        Goes(0, 0, 1),
    ];
    let wrong = first_wrong(rt.alloc(), rates(0, 0, 1), rates(0, 0, 3), &calls);
    assert!(rt; wrong == 0, "call {wrong}");
}

#[test]
fn a_lingering_export_is_waited_for(rt: HostRuntime) {
    let calls = [
        Enter(0, 0),
        Enter(1, 0),
        Linger(1, 500),
        Leave(1),
        Goes(0, 0, 10_000),
        Waits(0, 499, 1),
        Goes(0, 500, 1),
    ];
    let wrong = first_wrong(rt.alloc(), rates(0, 0, 1), rates(0, 0, 1), &calls);
    assert!(rt; wrong == 0, "call {wrong}");
}

// One a millisecond, of which 5 ms are made up for: 5 are due at once, and 1 of these by less than a millisecond.
// Then both go by weight, until the reservation is due at 11 ms.
#[test]
fn a_late_reservation_goes_first(rt: HostRuntime) {
    let calls = [
        Enter(0, 10_000),
        Enter(1, 10_000),
        Waits(1, 10_000, 1),
        Goes(0, 10_000, 4),
        Waits(1, 10_000, 1),
        Goes(0, 10_000, 1),
        Goes(1, 10_000, 1),
        Goes(0, 10_000, 1),
        Goes(0, 10_000, 20_000),
        WaitsFor(0, 10_400, 1, 600_000),
        Goes(0, 11_000, 1),
    ];
    let wrong = first_wrong(rt.alloc(), rates(1_000, 0, 1), rates(0, 0, 1), &calls);
    assert!(rt; wrong == 0, "call {wrong}");
}

// Past its limit until 1 ms, it isn't waited for until then.
#[test]
fn a_limited_export_is_not_waited_for(rt: HostRuntime) {
    let calls = [
        Enter(0, 0),
        Enter(1, 0),
        Limit(1, 1_000),
        Limit(1, 500),
        Limit(7, 2_000),
        Goes(1, 0, 1),
        Goes(0, 999, 10_000),
        Goes(0, 999, 10_000),
        Waits(0, 1_000, 1),
    ];
    let wrong = first_wrong(rt.alloc(), rates(0, 0, 1), rates(0, 1_000, 1), &calls);
    assert!(rt; wrong == 0, "call {wrong}");
}

// Far below its limit it is waited for as one that has none.
#[test]
fn a_limit_that_is_not_reached(rt: HostRuntime) {
    let calls = [
        Enter(0, 0),
        Enter(1, 0),
        Goes(1, 0, 64),
        Goes(0, 0, 8_257),
        Waits(0, 0, 1),
    ];
    let wrong = first_wrong(rt.alloc(), rates(0, 0, 1), rates(0, 1_000, 1), &calls);
    assert!(rt; wrong == 0, "call {wrong}");
}

// Ahead by 8,193 units of weight 1, it is ahead by 8,192 of weight 3 from then on, and goes on behind half of these.
#[test]
fn another_weight(rt: HostRuntime) {
    let calls = [
        Enter(0, 0),
        Enter(1, 0),
        Goes(0, 0, 8_193),
        Waits(0, 0, 1),
        Retune(0, rates(0, 0, 3)),
        Goes(1, 0, 1_365),
        Waits(0, 0, 1),
        Goes(1, 0, 1),
        Goes(0, 0, 1),
    ];
    let wrong = first_wrong(rt.alloc(), rates(0, 0, 1), rates(0, 0, 1), &calls);
    assert!(rt; wrong == 0, "call {wrong}");
}

// Past its limit until 1 ms it isn't waited for; at other rates it is at once.
#[test]
fn no_limit_any_more(rt: HostRuntime) {
    let calls = [
        Enter(0, 0),
        Enter(1, 0),
        Limit(1, 1_000),
        Goes(1, 0, 1),
        Goes(0, 0, 10_000),
        Goes(0, 0, 1),
        Retune(1, rates(0, 0, 1)),
        Waits(0, 0, 1),
        Retune(7, rates(0, 0, 1)),
        Waits(0, 0, 1),
    ];
    let wrong = first_wrong(rt.alloc(), rates(0, 0, 1), rates(0, 1_000, 1), &calls);
    assert!(rt; wrong == 0, "call {wrong}");
}

// Stopped by its weight, it goes on by a reservation, of which 5 ms are made up for at once.
#[test]
fn a_reservation_at_last(rt: HostRuntime) {
    let calls = [
        Enter(0, 0),
        Enter(1, 0),
        Enter(1, 10_000),
        Goes(0, 10_000, 8_193),
        Waits(0, 10_000, 1),
        Retune(0, rates(1_000, 0, 1)),
        Goes(0, 10_000, 5),
        Goes(0, 10_000, 1),
        WaitsFor(0, 10_000, 1, 1_000_000),
    ];
    let wrong = first_wrong(rt.alloc(), rates(0, 0, 1), rates(0, 0, 1), &calls);
    assert!(rt; wrong == 0, "call {wrong}");
}

#[test]
fn who_left_or_is_not_seen_is_not_waited_for(rt: HostRuntime) {
    let calls = [
        Enter(0, 0),
        Enter(1, 0),
        Goes(0, 0, 10_000),
        Waits(0, 5_000, 1),
        Goes(0, 5_001, 1),
        Goes(1, 5_001, 1),
        Goes(0, 5_001, 9_000),
        Waits(0, 5_001, 1),
        Leave(1),
        Goes(0, 5_001, 1),
    ];
    let wrong = first_wrong(rt.alloc(), rates(0, 0, 1), rates(0, 0, 1), &calls);
    assert!(rt; wrong == 0, "call {wrong}");
}

// The first export's clock stands at 50,000 units. The second comes back for the first time in a second, and is there too;
// later it comes back after a moment, when the clock stands at 110,001, and is a slack less.
#[test]
fn who_comes_back_is_owed_a_slack(rt: HostRuntime) {
    let calls = [
        Enter(0, 1_000_000),
        Goes(0, 1_000_000, 50_000),
        Goes(0, 1_000_000, 10_000),
        Enter(1, 1_000_000),
        Goes(1, 1_000_000, 1_807),
        Waits(0, 1_000_000, 1),
        Goes(1, 1_000_000, 4_097),
        Goes(0, 1_000_000, 1),
        Leave(1),
        Goes(0, 1_000_000, 50_000),
        Goes(0, 1_000_000, 0),
        Enter(1, 1_000_000),
        Goes(1, 1_000_000, 0),
        Goes(0, 1_000_000, 1),
        Waits(0, 1_000_000, 1),
    ];
    let wrong = first_wrong(rt.alloc(), rates(0, 0, 1), rates(0, 0, 1), &calls);
    assert!(rt; wrong == 0, "call {wrong}");
}
