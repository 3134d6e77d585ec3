//! A queue's items, waiting and in slots.

use export_queue::{ExportQueue, Picked};
use nbd_base::NoMemory;
use refusing::Refusing;
use std::alloc::Allocator;

fn put<A: Allocator + Copy>(queue: &mut ExportQueue<u32, A>, item: u32) -> Result<u64, u32> {
    if queue.next_number() < 100 {
        queue.push(item)
    } else {
        Err(item)
    }
}

fn is_full_after_two<A: Allocator + Copy>(alloc: A) -> Result<bool, NoMemory> {
    let mut queue = ExportQueue::new(alloc, 2, 1)?;
    let first = put(&mut queue, 10);
    let second = put(&mut queue, 11);
    let third = put(&mut queue, 12);
    Ok(first == Ok(0) && second == Ok(1) && third == Err(12) && queue.is_full())
}

#[test]
fn each_growth_is_refused_in_turn(rt: HostRuntime) {
    let mut met = false;
    for nth in 1..100u64 {
        let heap = Refusing::new(rt.alloc(), nth);
        let first = is_full_after_two(&heap);
        if heap.is_armed() {
            assert!(rt; met && first == Ok(true));
            return;
        }
        met = true;
        assert!(rt; first == Err(NoMemory));
        assert!(rt; is_full_after_two(&heap) == Ok(true));
    }
    assert!(rt; false, "no end");
}

// A queue in which 10, 11 and 12 wait, and one may be out.
fn of_three<A: Allocator + Copy>(alloc: A) -> Result<ExportQueue<u32, A>, NoMemory> {
    let mut queue = ExportQueue::new(alloc, 3, 1)?;
    for item in 10..13u32 {
        if put(&mut queue, item).is_err() {
            return Err(NoMemory);
        }
    }
    Ok(queue)
}

// The first waiting item, where one may be out; None also where nothing waits.
fn picked<A: Allocator + Copy>(queue: &mut ExportQueue<u32, A>) -> Option<Picked> {
    if queue.may_pick() { queue.pick() } else { None }
}

// Whether number 0 alone is out in this slot.
fn is_out_alone<A: Allocator + Copy>(queue: &ExportQueue<u32, A>, slot: usize) -> bool {
    !queue.may_pick() && queue.in_service() == 1 && queue.slot_of(0) == Some(slot)
}

// Whether an item ends under its own number alone, and isn't held behind that.
fn ends<A: Allocator + Copy>(
    queue: &mut ExportQueue<u32, A>,
    out: Picked,
    other: u64,
    item: u32,
) -> bool {
    let none = queue.finish(out.slot, other).is_none();
    let ended = queue.finish(out.slot, out.number) == Some(item);
    none && ended && queue.held(out.slot, out.number).is_none() && queue.may_pick()
}

// Whether 11 is out as number 1 and under no other, and 12 waits alone as number 2.
fn is_second<A: Allocator + Copy>(queue: &ExportQueue<u32, A>, slot: usize) -> bool {
    queue.held(slot, 0).is_none()
        && queue.held(slot, 1).copied() == Some(11)
        && queue.waiting() == 1
        && queue.waiting_at(0).copied() == Some(12)
        && queue.number_at(0) == Some(2)
        && queue.number_at(1).is_none()
}

// Whether the next number can be used up: nothing waits, and it is this.
fn skips<A: Allocator + Copy>(queue: &mut ExportQueue<u32, A>, number: u64) -> bool {
    if queue.waiting() == 0 && queue.next_number() == number && number < 100 {
        queue.skip();
        return true;
    }
    false
}

// Whether 10 goes out alone as number 0, and ends.
fn first_ends<A: Allocator + Copy>(queue: &mut ExportQueue<u32, A>) -> bool {
    let Some(out) = picked(queue) else {
        return false;
    };
    out.number == 0 && is_out_alone(queue, out.slot) && ends(queue, out, 1, 10)
}

// Whether 11 goes out as number 1, and ends.
fn second_ends<A: Allocator + Copy>(queue: &mut ExportQueue<u32, A>) -> bool {
    let Some(out) = picked(queue) else {
        return false;
    };
    out.number == 1 && is_second(queue, out.slot) && queue.finish(out.slot, 1) == Some(11)
}

// Whether 12 goes out as number 2, number 3 is used up, and the next item is number 4.
fn third_is_last<A: Allocator + Copy>(queue: &mut ExportQueue<u32, A>) -> bool {
    let Some(out) = picked(queue) else {
        return false;
    };
    out.number == 2 && skips(queue, 3) && put(queue, 14) == Ok(4)
}

#[test]
fn slots_are_used_again(rt: HostRuntime) {
    let mut queue = of_three(rt.alloc()).expect(&rt, "three wait");
    assert!(rt; first_ends(&mut queue));
    assert!(rt; second_ends(&mut queue));
    assert!(rt; third_is_last(&mut queue));
    queue.laws();
}
