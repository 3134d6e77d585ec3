//! The least tag, by which something becomes due.
ghost use Rattle.std.specs.Prelude.{◌≡◌, Option};
ghost use Rattle.eligibility.specs.NextDue.{lesser, least_tag as the_least, not_before as from_now};
ghost use Rattle.eligibility.specs.Indexed.{slot_r, slot_l};

use tag_clock::Tags;

/// The R tag, where there is one.
pub(crate) fn r_of(slot: Option<Tags>) -> Option<i128>
    ensures { result ≡ slot_r slot }
{
    match slot {
        Some(tags) => tags.r,
        None => None,
    }
}

/// The L tag, where the export is active.
pub(crate) fn l_of(slot: Option<Tags>) -> Option<i128>
    ensures { result ≡ slot_l slot }
{
    match slot {
        Some(tags) => Some(tags.l),
        None => None,
    }
}

/// The lesser of two tags, where they are there.
pub(crate) fn lesser_of(first: Option<i128>, second: Option<i128>) -> Option<i128>
    ensures { result ≡ lesser first second }
{
    match (first, second) {
        (Some(a), Some(b)) if b < a => Some(b),
        (None, Some(b)) => Some(b),
        _ => first,
    }
}

/// The least of all R and L tags.
#[tactic(auto, using(crate::proofs::NextDue::least_more))]
pub(crate) fn least_tag(slots: &[Option<Tags>]) -> Option<i128>
    ensures { result ≡ the_least slots.now }
{
    let mut best = None;
    for slot in slots {
        best = lesser_of(best, lesser_of(r_of(*slot), l_of(*slot)));
    }
    best
}

/// A tag, or `now` where that is later.
pub(crate) fn not_before(now: i128, tag: Option<i128>) -> Option<i128>
    ensures { result ≡ from_now now tag }
{
    match tag {
        Some(tag) if tag <= now => Some(now),
        _ => tag,
    }
}
