use eligibility::{Eligibility, Heaped, Listed};
use std::alloc::Global;
use std::test::Fail;
use tag_clock::{Moment, Tags};

// An export that waits for its limit, then also one with a reservation that comes sooner.
fn dues<E: Eligibility>(alloc: E::Alloc) -> Option<[Option<i128>; 5]> {
    let (first, late) = (Moment::zero(), Moment::new(30)?);
    let mut index: E = E::new(alloc, 2).ok()?;
    let idle = index.next_due(first);
    let limited = Tags {
        r: None,
        l: 10,
        p: 0,
    };
    index.enter(0, limited);
    let by_limit = index.next_due(first);
    let reserved = Tags {
        r: Some(4),
        l: 20,
        p: 0,
    };
    index.enter(1, reserved);
    let by_reservation = index.next_due(first);
    let passed = index.next_due(late);
    index.choose(late);
    let ready = index.next_due(late);
    Some([idle, by_limit, by_reservation, passed, ready])
}

#[test]
fn what_is_due_next(rt: HostRuntime) {
    let told = Some([None, Some(10), Some(4), Some(30), Some(30)]);
    assert_eq!(rt; dues::<Listed<Global>>(rt.alloc()), told);
    assert_eq!(rt; dues::<Heaped<Global>>(rt.alloc()), told);
}
