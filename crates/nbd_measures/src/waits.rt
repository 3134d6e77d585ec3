//! How long the latest requests of an export waited.

ghost use Rattle.std.specs.Prelude.{◌≡◌, ◌≤◌, ◌-◌, ◌++◌, ◌∷◌, [], length, slice_get, IfOk};
ghost use Rattle.circular_buffer.specs.Buffer.{keep_last};
ghost use Rattle.nbd_measures.specs.Waits.{rank_of, IsAtRank};

use circular_buffer::HeapCircularBuffer;
use nbd_base::NoMemory;
use std::alloc::Allocator;
use std::marker::Model;

/// How many waits are kept.
const MOST_WAITS: usize = 1024;

/// How long the latest 1,024 requests waited, in nanoseconds, or all of them where there are fewer.
#[derive(Drop)]
pub struct LatestWaits<A: Allocator> {
    waits: HeapCircularBuffer<u64, A>,
}

impl<A: Allocator> Model for LatestWaits<A> {
    ghost use Rattle.std.specs.Prelude.{◌≡◌, ◌≤◌, ℕ, List, length};

    ghost Value = { List ℕ };

    ghost view = { λ w. w.waits.items };

    ghost invariant = { λ w. (w.waits.capacity ≡ 1024) × (length w.waits.items ≤ 1024) };
}

/// What half of the waits and 99 of 100 of them don't exceed, in nanoseconds. Both are none where there are no waits.
#[derive(Clone, Copy, Debug, PartialEq, Eq)]
pub struct WaitQuantiles {
    pub median: Option<u64>,
    pub p99: Option<u64>,
}

impl<A: Allocator> LatestWaits<A> {
    /// No waits, and room for as many as are kept.
    pub fn new(alloc: A) -> Result<LatestWaits<A>, NoMemory>
        ensures { IfOk result (λ waits. waits ≡ []) }
    {
        Ok(LatestWaits {
            waits: HeapCircularBuffer::with_capacity(alloc, MOST_WAITS)?,
        })
    }

    /// Keeps a wait, and lets the oldest go where there is no room for both. It takes no memory.
    pub fn note(&mut self, nanoseconds: u64)
        ensures { self.new ≡ keep_last 1024 (self.old ++ nanoseconds ∷ []) }
    {
        let _ = self.waits.push_back(nanoseconds);
    }

    /// What half of the waits and 99 of 100 of them don't exceed, each by the nearest rank. A copy of them is sorted.
    pub fn quantiles<B: Allocator>(&self, alloc: B) -> Result<WaitQuantiles, NoMemory>
        ensures median { IfOk result (λ quantiles. IsAtRank 50 self.now quantiles.median) }
        ensures p99 { IfOk result (λ quantiles. IsAtRank 99 self.now quantiles.p99) }
    {
        let mut sorted = self.waits.to_vec(alloc)?;
        sorted.sort_unstable();
        Ok(WaitQuantiles {
            median: at_rank(50, &sorted),
            p99: at_rank(99, &sorted),
        })
    }
}

/// What so many of 100 of the sorted numbers don't exceed, by the nearest rank.
fn at_rank(percent: usize, sorted: &[u64]) -> Option<u64>
    requires percent { percent ≤ 100 }
    requires few { length sorted.now ≤ 1024 }
    ensures { result ≡ slice_get sorted.now (rank_of percent (length sorted.now) - 1) }
{
    let rank = (percent * sorted.len()).div_ceil(100);
    sorted.get(rank.saturating_sub(1)).copied()
}
