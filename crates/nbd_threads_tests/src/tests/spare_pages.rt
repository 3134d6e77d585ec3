//! Spare pages, which sessions pass on to others.

use nbd_policy::{is_uneven, spares_wanted};
use nbd_threads::SpareStore;
use payload::{Payload, Spares};
use std::alloc::Global;
use std::sync::Wait;

// So many spare pages.
fn spares(alloc: Global, count: usize) -> Option<Spares<Global>> {
    let mut spares = Spares::with_places(alloc, 1_024).ok()?;
    for _ in 0..count {
        let page = Payload::copied(alloc, 0, &[7; 4_096]).ok()?;
        page.recycle(&mut spares);
    }
    Some(spares)
}

// How many spare pages a session has that had so many, behind data of so many bytes.
fn left<R: Wait>(
    rt: &R,
    alloc: Global,
    store: &SpareStore,
    count: usize,
    brought: u64,
) -> Option<usize> {
    let mut own = spares(alloc, count)?;
    store.level(rt, &mut own, brought);
    Some(own.len())
}

// Whether a session passes all on, and others take as many as their data want.
fn pass_on<R: Wait>(rt: &R, alloc: Global) -> bool {
    let (Ok(store), Some(mut all)) = (SpareStore::new(alloc), spares(alloc, 6)) else {
        return false;
    };
    store.take_all(rt, &mut all);
    all.len() == 0
        && left(rt, alloc, &store, 100, 0) == Some(0)
        && left(rt, alloc, &store, 0, 4_096) == Some(34)
        && left(rt, alloc, &store, 17, 4_096) == Some(17)
        && left(rt, alloc, &store, 0, 1 << 20) == Some(72)
}

#[test]
fn sessions_pass_spare_pages_on(rt: HostRuntime) {
    assert!(rt; pass_on(&rt, rt.alloc()));
}

#[test]
fn as_many_spare_pages_as_data_want(rt: HostRuntime) {
    assert!(rt; spares_wanted(0) == 0 && spares_wanted(1) == 32);
    assert!(rt; spares_wanted(4_096) == 34 && spares_wanted(1 << 20) == 512);
    assert!(rt; !is_uneven(98, 34) && is_uneven(99, 34));
    assert!(rt; !is_uneven(17, 34) && is_uneven(16, 34));
}
