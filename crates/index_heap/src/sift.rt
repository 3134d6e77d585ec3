//! A binary heap of ids in an array, with the place of each id.
ghost use Rattle.std.specs.Prelude.{◌≡◌, ℕ, ◌+◌, ◌*◌, ◌<◌, ◌≤◌, ◌⊎◌, ◌^◌, ℤ, true, false, length, slice_index, slice_index_or, EachIndex, IfOk, List, Option, Some, None};
ghost use Rattle.std.specs.List.{SwappedAt};
ghost use Rattle.index_heap.specs.Heap.{sooner, sooner_id, parent, IsAfter, IsPaired, IsLoose, IsSinking, IsHeap, IsCounted};

use nbd_base::NoMemory;
use std::alloc::Allocator;

fn is_before(x: Option<i128>, a: usize, y: Option<i128>, b: usize) -> bool
    ensures { result ≡ sooner x a y b }
{
    match (x, y) {
        (Some(x), Some(y)) => {
            if x < y {
                true
            } else if y < x {
                false
            } else {
                a < b
            }
        }
        (Some(_), None) => true,
        (None, _) => false,
    }
}

/// Whether id `a` comes before id `b`.
fn is_sooner(keys: &[Option<i128>], a: usize, b: usize) -> bool
    requires a { a < length keys.now }
    requires b { b < length keys.now }
    ensures { result ≡ sooner_id keys.now a b }
{
    is_before(keys[a], a, keys[b], b)
}

/// The ids at places `i` and `j` change places.
fn exchange(order: &mut [usize], places: &mut [usize], i: usize, j: usize)
    requires paired { IsPaired order.old places.old }
    requires i { i < length order.old }
    requires j { j < length order.old }
    ensures long { length order.new ≡ length order.old }
    ensures swapped { SwappedAt order.old order.new i j }
    ensures paired { IsPaired order.new places.new }
{
    order.swap(i, j);
    places[order[i]] = i;
    places[order[j]] = j;
}

/// Moves the id at `at` up to where the one above it isn't later.
fn sift_up(order: &mut [usize], places: &mut [usize], keys: &[Option<i128>], mut at: usize) -> usize
    requires { IsLoose keys.now order.old places.old at }
    ensures { IsSinking keys.now order.new places.new result }
{
    while at > 0 {
        let above = (at - 1) / 2;
        if !is_sooner(keys, order[at], order[above]) {
            return at;
        }
        exchange(order, places, at, above);
        at = above;
    }
    at
}

/// The sooner one of the places under `at`, where the first of them is `left`.
fn sooner_child(order: &[usize], keys: &[Option<i128>], left: usize) -> usize
    requires left { left < length order.now }
    requires ids { (k : ℕ) → k < length order.now → slice_index_or order.now k 0 < length keys.now }
    ensures child { (result ≡ left) ⊎ ((result ≡ left + 1) × (left + 1 < length order.now)) }
    ensures first { (result ≡ left) → left + 1 < length order.now
        → IsAfter keys.now order.now (left + 1) left }
    ensures second { (result ≡ left + 1) → IsAfter keys.now order.now left (left + 1) }
{
    let right = left + 1;
    if right < order.len() && is_sooner(keys, order[right], order[left]) {
        return right;
    }
    left
}

/// Moves the id at `at` down to where those under it aren't sooner.
fn sift_down(order: &mut [usize], places: &mut [usize], keys: &[Option<i128>], mut at: usize)
    requires few { length order.old < 2 ^ 32 }
    requires sinking { IsSinking keys.now order.old places.old at }
    ensures { IsHeap keys.now order.new places.new }
{
    while 2 * at + 1 < order.len() {
        let child = sooner_child(order, keys, 2 * at + 1);
        if !is_sooner(keys, order[child], order[at]) {
            return;
        }
        exchange(order, places, at, child);
        at = child;
    }
}

/// Brings the id `id`, whose key is new, to its place.
pub(crate) fn settle<A: Allocator>(
    order: &mut Vec<usize, A>,
    places: &mut Vec<usize, A>,
    keys: &[Option<i128>],
    id: usize,
)
    requires few { length order.old.items < 2 ^ 32 }
    requires id { id < length order.old.items }
    requires loose { IsLoose keys.now order.old.items places.old.items
        (slice_index_or places.old.items id 0) }
    ensures { IsHeap keys.now order.new.items places.new.items }
{
    let at = places[id];
    let order = order.as_mut_slice();
    let places = places.as_mut_slice();
    let at = sift_up(order, places, keys, at);
    sift_down(order, places, keys, at);
}

/// Writes at each place its own number.
fn count_up(ids: &mut [usize])
    ensures long { length ids.new ≡ length ids.old }
    ensures counted { IsCounted ids.new }
{
    for (i, id) in ids.iter_mut().enumerate() {
        *id = i;
    }
}

/// The numbers below `n`, in order.
pub(crate) fn ids_below<A: Allocator>(alloc: A, n: usize) -> Result<Vec<usize, A>, NoMemory>
    ensures { IfOk result (λ made. (length made.items ≡ n) × IsCounted made.items) }
{
    let mut ids = vec![in alloc; 0usize; n]?;
    count_up(ids.as_mut_slice());
    Ok(ids)
}
