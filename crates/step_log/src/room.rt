//! What a list of steps holds, and how it gets its room.
ghost use Rattle.std.specs.Prelude.{◌≡◌, ◌+◌, ◌*◌, ◌<◌, ◌≤◌, min, length, OnOk};
ghost use Rattle.std.specs.VecDeque.{deque_capacity};
ghost use Rattle.step_log.specs.Steps.{kept_step, payload_of};

use lone_export::Step;
use nbd_base::NoMemory;
use std::alloc::Allocator;
use std::collections::VecDeque;

/// The room that a list gets first. Doubled six times it is that of 1,088 groups, in which a full log and what is to come mostly fits. In twice as much
/// its steps would go round in twice as much memory, and more of it would have left the processor's cache.
const FIRST_ROOM: usize = 17;

/// The bytes of payload of a step: 32 MiB at most.
pub fn payload_of<A: Allocator>(step: &Step<A>) -> usize
    ensures bytes { result ≡ payload_of (kept_step step.now) }
    ensures few { result ≤ 33554432 }
{
    match step {
        Step::Arrive { request, .. } => request.payload().len(),
        _ => 0,
    }
}

/// Room for so many elements more. Where it has to grow it at least doubles, so that the elements are seldom moved.
pub fn widen<T, A: Allocator>(list: &mut VecDeque<T, A>, more: usize) -> Result<(), NoMemory>
    ensures items { list.new.items ≡ list.old.items }
    ensures room { OnOk result (length list.new.items + more ≤ deque_capacity list.new) }
    ensures capacity { deque_capacity list.old ≤ deque_capacity list.new }
    ensures doubles { OnOk result (deque_capacity list.old < length list.old.items + more
        → min (deque_capacity list.old * 2) 18446744073709551615 ≤ deque_capacity list.new) }
{
    let (room, len) = (list.capacity(), list.len());
    if more <= room - len {
        return Ok(());
    }
    let twice = room.saturating_mul(2);
    if list.reserve(more.max(twice - len).max(FIRST_ROOM)).is_err() {
        return Err(NoMemory);
    }
    Ok(())
}
