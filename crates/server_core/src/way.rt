//! How the exports make way for an arrival to an idle one (mClock, tag adjustment).
ghost use Rattle.std.specs.Prelude.{◌≡◌, ◌≤◌, ℤ, ℕ, pos, map, length, slice_get, slice_set, Option, Some, None, IfSome};
ghost use Rattle.nbd_base.specs.Range.{InRange};
ghost use Rattle.nbd_base.specs.Least.{the_sooner, keyed};
ghost use Rattle.tag_clock.specs.declared.Tags.{Tags};
ghost use Rattle.eligibility.specs.Choice.{slot_key, IsSlotInRange};
ghost use Rattle.server_table.specs.Order.{AllParts, heads};
ghost use Rattle.server_table.specs.Ways.{least_first_p, part_shifted, parts_for, way_for};
ghost use Rattle.server_core.specs.Kept.{TagsInRange};
ghost use Rattle.server_core.specs.Members.{shifted_standing};
ghost use Rattle.server_core.specs.Served.{parts};
ghost use Rattle.server_core.specs.Way.{lowered_to, way_of, IsFallInRange};

use crate::member::Member;
use eligibility::Eligibility;
use export_store::Image;
use tag_clock::{Moment, Tags};

/// Before a request arrives to an export in which so many wait.
pub(crate) fn make_way<I: Image, E: Eligibility>(
    members: &mut Vec<Member<I>, I::Alloc>,
    eligible: &mut E,
    waiting: usize,
    at: Moment,
)
    requires few { length members.old.items ≤ 64 }
    requires slots { E.contents eligible.old ≡ heads (parts members.old.items) }
    requires falls { IsFallInRange (least_first_p (parts members.old.items)) (pos at) }
    requires before { AllParts TagsInRange (parts members.old.items) }
    requires after { AllParts TagsInRange (way_for waiting (pos at) (parts members.old.items)) }
    ensures members { members.new.items ≡ way_of waiting (pos at) members.old.items }
    ensures slots { E.contents eligible.new ≡ heads (parts members.new.items) }
    ensures asked { E.asked eligible.new ≤ E.asked eligible.old }
{
    if waiting != 0 {
        return;
    }
    clear_way(members, eligible, at);
}

/// The P tags fall by the least of them, less the moment.
fn clear_way<I: Image, E: Eligibility>(members: &mut [Member<I>], eligible: &mut E, at: Moment)
    requires few { length members.old ≤ 64 }
    requires slots { E.contents eligible.old ≡ heads (parts members.old) }
    requires falls { IsFallInRange (least_first_p (parts members.old)) (pos at) }
    requires before { AllParts TagsInRange (parts members.old) }
    requires after { AllParts TagsInRange
        (parts_for (least_first_p (parts members.old)) (pos at) (parts members.old)) }
    ensures members { members.new
        ≡ lowered_to (least_first_p (parts members.old)) (pos at) members.old }
    ensures slots { E.contents eligible.new ≡ heads (parts members.new) }
    ensures asked { E.asked eligible.new ≤ E.asked eligible.old }
{
    if let Some((least, _)) = least_first(members) {
        fall(members, eligible, least - at.tag());
    }
}

fn fall<I: Image, E: Eligibility>(members: &mut [Member<I>], eligible: &mut E, delta: i128)
    requires delta { InRange delta }
    requires slots { E.contents eligible.old ≡ heads (parts members.old) }
    requires after { AllParts TagsInRange (map (part_shifted delta) (parts members.old)) }
    ensures members { members.new ≡ map (shifted_standing delta) members.old }
    ensures slots { E.contents eligible.new ≡ heads (parts members.new) }
    ensures asked { E.asked eligible.new ≤ E.asked eligible.old }
{
    shift_members(members, delta);
    eligible.shift(delta);
}

fn shift_members<I: Image>(members: &mut [Member<I>], delta: i128)
    requires { AllParts TagsInRange (map (part_shifted delta) (parts members.old)) }
    ensures { members.new ≡ map (shifted_standing delta) members.old }
{
    for member in members.iter_mut() {
        member.shift(delta);
    }
}

/// The least P tag of the first requests, with its export.
fn least_first<I: Image>(members: &[Member<I>]) -> Option<(i128, u32)>
    requires { length members.now ≤ 64 }
    ensures { result ≡ least_first_p (parts members.now) }
{
    let mut best = None;
    for (i, member) in members.iter().enumerate() {
        best = sooner(best, member.first(), i as u32);
    }
    best
}

fn sooner(best: Option<(i128, u32)>, first: Option<Tags>, export: u32) -> Option<(i128, u32)>
    ensures { result ≡ the_sooner best (keyed (slot_key (λ tags. Some tags.p) first) export) }
{
    match (best, first) {
        (Some((least, _)), Some(tags)) if tags.p < least => Some((tags.p, export)),
        (None, Some(tags)) => Some((tags.p, export)),
        _ => best,
    }
}

/// The export's first request was `was` and is `first`; where one waited, it is the same.
pub(crate) fn put_first<E: Eligibility>(
    eligible: &mut E,
    export: u32,
    was: Option<Tags>,
    first: Option<Tags>,
)
    requires was { slice_get (E.contents eligible.old) export ≡ Some was }
    requires same { IfSome was (λ tags. first ≡ Some tags) }
    requires in_range { IsSlotInRange first }
    ensures asked { E.asked eligible.new ≤ E.asked eligible.old }
    ensures contents { E.contents eligible.new ≡ slice_set (E.contents eligible.old) export first }
{
    if let Some(_) = was {
        return;
    }
    if let Some(tags) = first {
        eligible.enter(export, tags);
    }
}
