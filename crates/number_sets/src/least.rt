ghost use Rattle.std.specs.Prelude.{◌≡◌, ℕ, ◌<◌, ◌≤◌, None, IfSome, IfNone, IsSome};
ghost use Rattle.std.specs.Ordering.{nat_cmp};
ghost use Rattle.std.specs.BTreeMap.{get};

use std::alloc::Allocator;
use std::collections::BTreeMap;

/// The least number from one on before an end that is in a map. It looks at no other.
pub(crate) fn least_from<V, A: Allocator>(
    map: &BTreeMap<usize, V, A>,
    from: usize,
    end: usize,
) -> Option<usize>
    requires { from ≤ end }
    ensures begins { IfSome result (λ number. from ≤ number) }
    ensures ends { IfSome result (λ number. number < end) }
    ensures there { IfSome result (λ number. IsSome (get nat_cmp map.now number)) }
    ensures first { IfSome result (λ number. (q : ℕ) → from ≤ q → q < number
        → get nat_cmp map.now q ≡ None) }
    ensures none { IfNone result ((q : ℕ) → from ≤ q → q < end → get nat_cmp map.now q ≡ None) }
{
    match map.range(from..end).next() {
        Some((number, _)) => Some(*number),
        None => None,
    }
}
