//! Waits and holds.

use nbd_control::told_names;
use nbd_measures::{HoldCount, LatestWaits, WaitQuantiles, last_second};
use std::alloc::Global;
use tag_clock::Moment;

/// The quantiles of the waits from one number up to another, the greatest noted first.
fn quantiles_of(alloc: Global, from: u64, to: u64) -> Option<WaitQuantiles> {
    let mut waits = LatestWaits::new(alloc).ok()?;
    for wait in (from..to).rev() {
        waits.note(wait);
    }
    waits.quantiles(alloc).ok()
}

fn are(quantiles: Option<WaitQuantiles>, median: u64, p99: u64) -> bool {
    match quantiles {
        Some(found) => found.median == Some(median) && found.p99 == Some(p99),
        None => false,
    }
}

#[test]
fn quantiles_by_the_nearest_rank(rt: HostRuntime) {
    let none = quantiles_of(rt.alloc(), 1, 1).expect(&rt, "memory");
    assert!(rt; none.median.is_none() && none.p99.is_none());
    assert!(rt; are(quantiles_of(rt.alloc(), 5, 6), 5, 5));
    assert!(rt; are(quantiles_of(rt.alloc(), 1, 3), 1, 2));
    assert!(rt; are(quantiles_of(rt.alloc(), 1, 4), 2, 3));
    assert!(rt; are(quantiles_of(rt.alloc(), 1, 101), 50, 99));
    assert!(rt; are(quantiles_of(rt.alloc(), 1, 1025), 512, 1014));
}

#[test]
fn the_latest_waits_are_kept(rt: HostRuntime) {
    // Of 1 to 3,000, noted from the greatest on, the last 1,024 are 1 to 1,024.
    assert!(rt; are(quantiles_of(rt.alloc(), 1, 3001), 512, 1014));
}

fn at(tenths: u64) -> Moment {
    Moment::new(tenths.saturating_mul(100_000_000)).unwrap_or(Moment::zero())
}

/// Holds of 5, 9 and 7 ns that ended 0.1, 1.9 and 2.0 s after the start.
fn three_holds() -> HoldCount {
    let mut holds = HoldCount::new();
    holds.note(at(1), 5);
    holds.note(at(19), 9);
    holds.note(at(20), 7);
    holds
}

#[test]
fn the_longest_hold_of_the_last_second(rt: HostRuntime) {
    let holds = three_holds();
    assert!(rt; holds.total == 3);
    assert!(rt; holds.longest_of_last_second(at(20)) == 9);
    assert!(rt; holds.longest_of_last_second(at(29)) == 9);
    assert!(rt; holds.longest_of_last_second(at(30)) == 7);
    assert!(rt; holds.longest_of_last_second(at(39)) == 7);
    assert!(rt; holds.longest_of_last_second(at(40)) == 0);
    assert!(rt; HoldCount::new().longest_of_last_second(at(0)) == 0);
    last_second();
    told_names();
}
