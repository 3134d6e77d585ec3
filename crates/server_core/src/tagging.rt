//! The tags of the requests of one export that wait, in their order.
ghost use Rattle.std.specs.Prelude.{◌≡◌, ◌<◌, ◌≤◌, [], ◌∷◌, ◌++◌, length, map, pos};
ghost use Rattle.nbd_base.specs.Range.{IsOptionInRange};
ghost use Rattle.std.specs.VecDeque.{deque_capacity};
ghost use Rattle.tag_clock.specs.Clocks.{lowered};
ghost use Rattle.tag_clock.specs.Tags.{shifted, AreInRange};
ghost use Rattle.server_core.specs.Tagging.{tags_credited, AllTagsInRange, credit_due, waiting_credited, share_credited_by};

use std::alloc::Allocator;
use std::collections::VecDeque;
use tag_clock::{Phase, ShareClock, Tags};

/// A tag less an interval, where there is one.
fn lowered_by(tag: Option<i128>, interval: u64) -> Option<i128>
    requires { IsOptionInRange (lowered (pos interval) tag) }
    ensures { result ≡ lowered (pos interval) tag }
{
    match tag {
        Some(tag) => Some(tag - i128::from(interval)),
        None => None,
    }
}

fn credit(tags: &mut Tags, interval: u64)
    requires { AreInRange (tags_credited interval tags.old) }
    ensures { tags.new ≡ tags_credited interval tags.old }
{
    tags.r = lowered_by(tags.r, interval);
}

fn shift(tags: &mut Tags, delta: i128)
    requires { AreInRange (shifted delta tags.old) }
    ensures { tags.new ≡ shifted delta tags.old }
{
    tags.p -= delta;
}

#[tactic(auto, using(std::proofs::lemmas::List::Edits::map_over_more))]
fn credit_each(tags: &mut [Tags], interval: u64)
    requires { AllTagsInRange (map (tags_credited interval) tags.old) }
    ensures { tags.new ≡ map (tags_credited interval) tags.old }
{
    for one in tags.iter_mut() {
        credit(one, interval);
    }
}

#[tactic(auto, using(std::proofs::lemmas::List::Edits::map_over_more))]
fn shift_each(tags: &mut [Tags], delta: i128)
    requires { AllTagsInRange (map (shifted delta) tags.old) }
    ensures { tags.new ≡ map (shifted delta) tags.old }
{
    for one in tags.iter_mut() {
        shift(one, delta);
    }
}

/// Subtracts `interval` from the R tag of each.
pub(crate) fn credit_all<A: Allocator>(tags: &mut VecDeque<Tags, A>, interval: u64)
    requires { AllTagsInRange (map (tags_credited interval) tags.old.items) }
    ensures tags { tags.new.items ≡ map (tags_credited interval) tags.old.items }
    ensures capacity { deque_capacity tags.old ≤ deque_capacity tags.new }
{
    credit_each(tags.make_contiguous(), interval);
}

/// Subtracts `delta` from the P tag of each.
pub(crate) fn shift_all<A: Allocator>(tags: &mut VecDeque<Tags, A>, delta: i128)
    requires { AllTagsInRange (map (shifted delta) tags.old.items) }
    ensures tags { tags.new.items ≡ map (shifted delta) tags.old.items }
    ensures capacity { deque_capacity tags.old ≤ deque_capacity tags.new }
{
    shift_each(tags.make_contiguous(), delta);
}

/// The credit after a choice: where it was by weight, the interval of the reservation is subtracted from the R tag of
/// each request that waits, and from the last one (mClock, tag adjustment).
pub(crate) fn give_credit<A: Allocator>(
    waiting: &mut VecDeque<Tags, A>,
    shares: &mut ShareClock,
    phase: Phase,
)
    requires waiting { AllTagsInRange
        (waiting_credited (credit_due phase shares.old.r_interval) waiting.old.items) }
    requires last { IsOptionInRange
        (share_credited_by (credit_due phase shares.old.r_interval) shares.old).last_r }
    ensures waiting { waiting.new.items
        ≡ waiting_credited (credit_due phase shares.old.r_interval) waiting.old.items }
    ensures shares { shares.new
        ≡ share_credited_by (credit_due phase shares.old.r_interval) shares.old }
    ensures capacity { deque_capacity waiting.old ≤ deque_capacity waiting.new }
{
    match (phase, shares.r_interval()) {
        (Phase::Weight, Some(interval)) => {
            credit_all(waiting, interval);
            shares.credit();
        }
        _ => {}
    }
}

/// Puts a request's tags behind those that wait, where there is room. The first take the place of those that were taken last: a ring
/// whose tags come and go one at a time stays in one place of its memory, and so in the processor's cache.
pub(crate) fn put_behind<A: Allocator>(waiting: &mut VecDeque<Tags, A>, tags: Tags)
    requires { length waiting.old.items < deque_capacity waiting.old }
    ensures items { waiting.new.items ≡ waiting.old.items ++ tags ∷ [] }
    ensures capacity { deque_capacity waiting.new ≡ deque_capacity waiting.old }
{
    if waiting.is_empty() {
        waiting.push_front_reserved(tags);
    } else {
        waiting.push_back_reserved(tags);
    }
}
