//! Which worker keeps the time, and who is woken for what waits.

use nbd_policy::{LAST_MOMENT_NS, Rest, Waiting, rest_of};
use nbd_threads::Timekeeper;
use tag_clock::Moment;

/// The time of two workers that look for work.
fn two_awake() -> Timekeeper {
    let time = Timekeeper::new();
    time.begin();
    time.begin();
    time.begin_look();
    time
}

fn rests(time: &Timekeeper, due: u64) -> Rest {
    time.rest_until(&Moment::new(due))
}

/// Whether a worker is woken for what is due at a moment, in nanoseconds, and no writer chooses.
fn wakes(time: &Timekeeper, nanoseconds: u64) -> bool {
    time.tell(Waiting::Until { nanoseconds }, false)
}

#[test]
fn one_worker_keeps_the_time(rt: HostRuntime) {
    let time = two_awake();
    assert!(rt; rests(&time, 100) == Rest::UntilDue);
    assert!(rt; !wakes(&time, 101), "the other is awake");
    assert!(rt; rests(&time, 100) == Rest::UntilWoken);
    assert!(rt; !wakes(&time, 100) && wakes(&time, 99));
    assert!(rt;
        !time.tell(Waiting::Until { nanoseconds: 98 }, true),
        "a writer chooses"
    );
    assert!(rt; !time.tell(Waiting::Nothing, false));
    time.end_rest(&Moment::new(100));
    time.begin_look();
    assert!(rt; !wakes(&time, 200), "one is awake");
    time.begin_look();
    assert!(rt; time.rest_until(&None) == Rest::UntilWoken);
    assert!(rt; wakes(&time, 1_000_000_000), "nobody looks by itself");
}

#[test]
fn what_was_told_while_a_worker_looked(rt: HostRuntime) {
    let time = two_awake();
    assert!(rt; !wakes(&time, 50));
    assert!(rt; rests(&time, 60) == Rest::No && time.rest_until(&None) == Rest::No);
    assert!(rt; rests(&time, 50) == Rest::UntilDue, "it found that");
    assert!(rt; rests(&time, 60) == Rest::UntilWoken);
    time.end_rest(&Moment::new(60));
    time.begin_look();
    assert!(rt;
        rests(&time, 40) == Rest::UntilDue,
        "sooner than the other wakes"
    );
    assert!(rt; !wakes(&time, 40) && wakes(&time, 39));
}

#[test]
fn a_worker_that_ends(rt: HostRuntime) {
    let time = two_awake();
    time.end();
    assert!(rt; !wakes(&time, 5));
    time.end();
    assert!(rt; wakes(&time, 5));
}

#[test]
fn how_a_worker_rests(rt: HostRuntime) {
    assert!(rt; rest_of(60, 70, 59) == Rest::No);
    assert!(rt; rest_of(60, 70, 60) == Rest::UntilDue);
    assert!(rt; rest_of(60, 50, 55) == Rest::UntilWoken);
    assert!(rt; rest_of(60, 60, 100) == Rest::UntilWoken);
    assert!(rt; rest_of(LAST_MOMENT_NS, LAST_MOMENT_NS, LAST_MOMENT_NS) == Rest::UntilWoken);
}
