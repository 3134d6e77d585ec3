//! A heap of ids with keys.
ghost use Rattle.std.specs.Prelude.{◌≡◌, None, IfOk, replicate};

use index_heap::IndexHeap;
use nbd_base::NoMemory;
use refusing::Refusing;
use std::alloc::{Allocator, Global};

fn fresh<A: Allocator + Copy>(alloc: A) -> Result<IndexHeap<A>, NoMemory>
    ensures { IfOk result (λ made. made ≡ replicate 3 None) }
{
    IndexHeap::new(alloc, 3)
}

// Whether this is the least key, with its id.
fn is_least<A: Allocator + Copy>(heap: &IndexHeap<A>, id: u32, key: i128) -> bool {
    heap.least() == Some((id, key))
}

// Whether the least is told after each change.
fn is_told<A: Allocator + Copy>(heap: &mut IndexHeap<A>) -> bool
    requires { heap.old ≡ replicate 3 None }
{
    heap.insert(2, 5);
    heap.insert(0, 5);
    let first = is_least(heap, 0, 5);
    heap.remove(0);
    heap.rekey(2, 9);
    heap.put(1, Some(12));
    let second = is_least(heap, 2, 9);
    heap.shift(10);
    first && second && is_least(heap, 2, -1)
}

#[test]
fn least_of_the_keys(rt: HostRuntime) {
    let mut heap = fresh(rt.alloc()).expect(&rt, "memory");
    assert!(rt; heap.least() == None);
    assert!(rt; is_told(&mut heap));
}

// Whether an id gets a key, and has the least then.
fn is_keyed(mut heap: IndexHeap<&Refusing<Global>>) -> bool
    requires { heap ≡ replicate 3 None }
{
    heap.put(1, Some(4));
    is_least(&heap, 1, 4)
}

// Each growth of `new` is refused in turn, and nothing after it wants memory.
#[test]
fn new_alone_takes_memory(rt: HostRuntime) {
    let mut met = false;
    for nth in 1..100u64 {
        let memory = Refusing::new(rt.alloc(), nth);
        if let Ok(heap) = fresh(&memory) {
            assert!(rt; is_keyed(heap));
            assert!(rt; met);
            return;
        }
        met = true;
        assert!(rt; fresh(&memory).is_ok());
    }
    assert!(rt; false, "no end");
}
