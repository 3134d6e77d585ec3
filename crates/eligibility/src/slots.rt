//! Slots by export: the tags of its first waiting request, or none where it is idle.
ghost use Rattle.std.specs.Prelude.{◌≡◌, replicate, None, IfOk};
ghost use Rattle.eligibility.specs.Choice.{all_shifted, AllInRange, slot_shifted, IsSlotInRange};

use nbd_base::NoMemory;
use std::alloc::Allocator;
use tag_clock::Tags;

/// The slots of `n` idle exports.
pub(crate) fn idle_slots<A: Allocator>(alloc: A, n: usize) -> Result<Vec<Option<Tags>, A>, NoMemory>
    ensures { IfOk result (λ made. made.items ≡ replicate n None) }
{
    Ok(vec![in alloc; None; n]?)
}

/// Subtracts `delta` from every P tag.
#[tactic(auto, using(std::proofs::lemmas::List::Edits::map_over_more))]
pub(crate) fn shift_all(slots: &mut [Option<Tags>], delta: i128)
    requires { AllInRange (all_shifted delta slots.old) }
    ensures { slots.new ≡ all_shifted delta slots.old }
{
    for slot in slots.iter_mut() {
        shift_slot(slot, delta);
    }
}

/// Subtracts `delta` from the P tag.
fn shift_slot(slot: &mut Option<Tags>, delta: i128)
    requires { IsSlotInRange (slot_shifted delta slot.old) }
    ensures { slot.new ≡ slot_shifted delta slot.old }
{
    if let Some(tags) = slot {
        tags.p -= delta;
    }
}
