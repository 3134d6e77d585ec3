//! Keys that are kept with an offset, so that a shift of all of them writes one number.
ghost use Rattle.std.specs.Prelude.{◌≡◌, ◌<◌, ◌^◌, ℕ, ℤ, List, map, length, replicate, None, IfOk};
ghost use Rattle.nbd_base.specs.Range.{InRange, IsOptionInRange};
ghost use Rattle.index_heap.specs.Keys.{key_less, keys_less, AllKeysInRange, IsNear};
ghost use Rattle.index_heap.specs.Heap.{IsHeap};

use nbd_base::NoMemory;
use std::alloc::Allocator;

/// The greatest offset that is left unfolded, and its negative the least.
const FAR: i128 = 1 << 125;

/// The keys of `n` ids, none of which has one.
pub(crate) fn no_keys<A: Allocator>(alloc: A, n: usize) -> Result<Vec<Option<i128>, A>, NoMemory>
    ensures { IfOk result (λ made. made.items ≡ replicate n None) }
{
    Ok(vec![in alloc; None; n]?)
}

/// A key as it is kept: the offset added.
pub(crate) fn kept(key: Option<i128>, offset: i128) -> Option<i128>
    requires key { IsOptionInRange key }
    requires offset { IsNear offset }
    ensures { key_less offset result ≡ key }
{
    match key {
        Some(key) => Some(key + offset),
        None => None,
    }
}

/// The key that was kept with an offset.
pub(crate) fn unfolded(key: Option<i128>, offset: i128) -> Option<i128>
    requires { IsOptionInRange (key_less offset key) }
    ensures { result ≡ key_less offset key }
{
    match key {
        Some(key) => Some(key - offset),
        None => None,
    }
}

/// Subtracts the offset from every key.
fn fold(keys: &mut [Option<i128>], offset: i128)
    requires { AllKeysInRange (keys_less offset keys.old) }
    ensures { keys.new ≡ keys_less offset keys.old }
{
    for key in keys.iter_mut() {
        *key = unfolded(*key, offset);
    }
}

/// The offset from now on: where this one is far, it is folded into the keys.
pub(crate) fn folded<A: Allocator>(keys: &mut Vec<Option<i128>, A>, offset: i128) -> i128
    requires { AllKeysInRange (keys_less offset keys.old.items) }
    ensures near { IsNear result }
    ensures keys { keys_less result keys.new.items ≡ keys_less offset keys.old.items }
    ensures order { (order places : List ℕ) → IsHeap keys.old.items order places
        → IsHeap keys.new.items order places }
{
    if -FAR <= offset && offset <= FAR {
        return offset;
    }
    fold(keys.as_mut_slice(), offset);
    0
}
