//! Refused growths, and the laws of numbers.

use nbd_base::{NoMemory, least_of_two, sums_fit};
use refusing::Refusing;
use std::alloc::{AllocError, AllocFailed, Allocator};

#[test]
fn laws_of_numbers(_rt: HostRuntime) {
    least_of_two::<u64>();
    sums_fit();
}

#[test]
fn refused_growths_are_no_memory(rt: HostRuntime) {
    assert!(rt; NoMemory::from(AllocError) == NoMemory);
    assert!(rt; NoMemory::from(AllocFailed { value: 7u8 }) == NoMemory);
    let text = format!(in rt.alloc(); "{NoMemory}").expect(&rt, "memory");
    assert!(rt; text.as_str() == "no memory");
}

// How long a list is after nine pushes. None where a growth was refused.
fn grown<A: Allocator>(alloc: A) -> Option<usize> {
    let mut list = Vec::new(alloc);
    for i in 0..9u32 {
        if list.push(i).is_err() {
            return None;
        }
    }
    Some(list.len())
}

#[test]
fn refuses_each_growth_in_turn(rt: HostRuntime) {
    let mut met = false;
    for nth in 1..100u64 {
        let heap = Refusing::new(rt.alloc(), nth);
        let first = grown(&heap);
        if heap.is_armed() {
            assert!(rt; met && first.is_some());
            return;
        }
        assert!(rt; first.is_none());
        met = true;
        assert!(rt; grown(&heap) == Some(9));
    }
    assert!(rt; false, "no end");
}
