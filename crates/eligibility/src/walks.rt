//! A walk over operations, the same for every form.
ghost use Rattle.std.specs.Prelude.{◌≡◌, ◌≤◌, ◌<◌, ◌^◌, ◌++◌, ℕ, ℤ, pos, [], List, length, slice_get, slice_set, slice_index_or, replicate, Option, Some, None, IfOk, OnOk};
ghost use Rattle.tag_clock.specs.declared.Tags.{Tags};
ghost use Rattle.eligibility.specs.Choice.{all_shifted, slot_shifted};
ghost use Rattle.eligibility.specs.Walk.{fits, tags_fit, option_fits, slots_fit, slot_fits, is_idle, is_active, entered, left, rekeyed, fallen, after, latest, answered, said, walked};

use crate::Eligibility;
use crate::slots::{idle_slots, shift_all};
use nbd_base::NoMemory;
use tag_clock::{Moment, Phase, Tags};

/// An operation on an index of first requests: a call of `Eligibility`, with its arguments. A shift is in nanoseconds.
#[derive(Clone, Copy, Debug, PartialEq, Eq, Drop)]
pub enum Op {
    Enter(u32, Tags),
    Leave(u32),
    Rekey(u32, Tags),
    Shift(i128),
    Choose(Moment),
}

fn is_fit(tag: i128) -> bool
    ensures { result ≡ fits tag }
{
    tag.unsigned_abs() < 1 << 126
}

fn are_fit(tags: Tags) -> bool
    ensures { result ≡ tags_fit tags }
{
    if let Some(r) = tags.r {
        if !is_fit(r) {
            return false;
        }
    }
    if !is_fit(tags.l) {
        return false;
    }
    is_fit(tags.p)
}

fn is_idle_at(held: &[Option<Tags>], export: u32) -> bool
    ensures { result ≡ is_idle (slice_get held.now export) }
{
    match held.get(export as usize) {
        Some(slot) => slot.is_none(),
        None => false,
    }
}

fn is_active_at(held: &[Option<Tags>], export: u32) -> bool
    ensures { result ≡ is_active (slice_get held.now export) }
{
    match held.get(export as usize) {
        Some(slot) => slot.is_some(),
        None => false,
    }
}

fn enter<E: Eligibility>(
    index: &mut E,
    held: &mut Vec<Option<Tags>, E::Alloc>,
    export: u32,
    tags: Tags,
)
    requires same { E.contents index.old ≡ held.old.items }
    ensures same { E.contents index.new ≡ held.new.items }
    ensures asked { E.asked index.new ≤ E.asked index.old }
    ensures held { held.new.items ≡ entered export tags held.old.items }
{
    if !is_idle_at(held.as_slice(), export) {
        return;
    }
    if !are_fit(tags) {
        return;
    }
    index.enter(export, tags);
    held[export as usize] = Some(tags);
}

fn leave<E: Eligibility>(index: &mut E, held: &mut Vec<Option<Tags>, E::Alloc>, export: u32)
    requires same { E.contents index.old ≡ held.old.items }
    ensures same { E.contents index.new ≡ held.new.items }
    ensures asked { E.asked index.new ≤ E.asked index.old }
    ensures held { held.new.items ≡ left export held.old.items }
{
    if !is_active_at(held.as_slice(), export) {
        return;
    }
    index.leave(export);
    held[export as usize] = None;
}

fn rekey<E: Eligibility>(
    index: &mut E,
    held: &mut Vec<Option<Tags>, E::Alloc>,
    export: u32,
    tags: Tags,
)
    requires same { E.contents index.old ≡ held.old.items }
    ensures same { E.contents index.new ≡ held.new.items }
    ensures asked { E.asked index.new ≤ E.asked index.old }
    ensures held { held.new.items ≡ rekeyed export tags held.old.items }
{
    if !is_active_at(held.as_slice(), export) {
        return;
    }
    if !are_fit(tags) {
        return;
    }
    index.rekey(export, tags);
    held[export as usize] = Some(tags);
}

fn choose<E: Eligibility>(index: &mut E, asked: &mut Moment, now: Moment) -> Option<(u32, Phase)>
    requires asked { E.asked index.old ≤ asked.old }
    ensures contents { E.contents index.new ≡ E.contents index.old }
    ensures asked { E.asked index.new ≤ asked.new }
    ensures latest { asked.new ≡ latest (Op.Choose now) asked.old }
    ensures chosen { result ≡ answered now (E.contents index.old) asked.old }
{
    if now < *asked {
        return None;
    }
    *asked = now;
    index.choose(now)
}

/// Whether the tags stay in range when the P tag falls by `delta`.
fn stays_fit(slot: &Option<Tags>, delta: i128) -> bool
    ensures { result ≡ slot_fits (slot_shifted delta slot.now) }
{
    let Some(tags) = slot else {
        return true;
    };
    let Some(p) = tags.p.checked_sub(delta) else {
        return false;
    };
    are_fit(Tags {
        r: tags.r,
        l: tags.l,
        p,
    })
}

fn all_stay_fit(slots: &[Option<Tags>], delta: i128) -> bool
    ensures { result ≡ slots_fit (all_shifted delta slots.now) }
{
    for slot in slots {
        if !stays_fit(slot, delta) {
            return false;
        }
    }
    true
}

fn shift<E: Eligibility>(index: &mut E, held: &mut Vec<Option<Tags>, E::Alloc>, delta: i128)
    requires same { E.contents index.old ≡ held.old.items }
    ensures same { E.contents index.new ≡ held.new.items }
    ensures asked { E.asked index.new ≤ E.asked index.old }
    ensures held { held.new.items ≡ fallen delta held.old.items }
{
    if !is_fit(delta) {
        return;
    }
    if !all_stay_fit(held.as_slice(), delta) {
        return;
    }
    index.shift(delta);
    shift_all(held.as_mut_slice(), delta);
}

/// One operation, and its answer if it has one.
fn step<E: Eligibility>(
    index: &mut E,
    held: &mut Vec<Option<Tags>, E::Alloc>,
    asked: &mut Moment,
    answers: &mut Vec<Option<(u32, Phase)>, E::Alloc>,
    op: Op,
) -> Result<(), NoMemory>
    requires same { E.contents index.old ≡ held.old.items }
    requires asked { E.asked index.old ≤ asked.old }
    ensures same { E.contents index.new ≡ held.new.items }
    ensures asked { E.asked index.new ≤ asked.new }
    ensures held { held.new.items ≡ after op held.old.items }
    ensures latest { asked.new ≡ latest op asked.old }
    ensures said { OnOk result (answers.new.items ≡ answers.old.items
        ++ said op held.old.items asked.old) }
{
    match op {
        Op::Enter(export, tags) => enter(index, held, export, tags),
        Op::Leave(export) => leave(index, held, export),
        Op::Rekey(export, tags) => rekey(index, held, export, tags),
        Op::Shift(delta) => shift(index, held, delta),
        Op::Choose(now) => {
            let answer = choose(index, asked, now);
            answers.push(answer)?;
        }
    }
    Ok(())
}

/// The answers of an index of `n` exports to a list of operations, one for each Choose.
pub fn walk<E: Eligibility>(
    alloc: E::Alloc,
    n: u32,
    ops: &[Op],
) -> Result<Vec<Option<(u32, Phase)>, E::Alloc>, NoMemory>
    ensures { IfOk result (λ made. made.items ≡ walked ops.now (replicate n None) 0) }
{
    let mut index: E = E::new(alloc, n)?;
    let mut held = idle_slots(alloc, n as usize)?;
    let mut asked = Moment::zero();
    let mut answers = Vec::new(alloc);
    for op in ops {
        step(&mut index, &mut held, &mut asked, &mut answers, *op)?;
    }
    Ok(answers)
}
