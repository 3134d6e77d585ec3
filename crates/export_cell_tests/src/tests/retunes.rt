//! Rates that change while an export runs: the log and the base have the step, and it may find no memory.

use super::rows::are_named;
use super::*;
use lone_export::RetuneRefusal;
use nbd_commands::Rates;

// Trials of an export of 8 bytes with ten requests a second.
#[derive(Clone, Copy)]
enum Retuning {
    // The log has a retune, which is refused while a request waits.
    Logged,
    // An export of its own, on which the cell's log is made again, goes on as the cell does.
    MadeAgain,
    // The steps of a READ are deferred in the base when the retunes between them come there.
    InTheBase,
    // The rates stay behind so many retunes, with which the log may be as long as it has room.
    StaysBehind(u64),
    // They stay where the log is full, of which a retune would push the oldest step out.
    StaysWhenFull,
    // The log grows with 20 retunes.
    LogGrows,
    // As many retunes find the log full.
    BaseTakes,
}

impl Trial for Retuning {
    fn holds<'a>(&self, cell: &mut Cell<'a>, heap: Heap<'a>, nth: u64) -> bool {
        match *self {
            Retuning::Logged => is_logged(cell, heap),
            Retuning::MadeAgain => one_waits(cell) && changes(cell) && goes_on_alike(cell, heap),
            Retuning::InTheBase => goes_over(cell),
            Retuning::StaysBehind(rounds) => {
                are_retuned(cell, rounds) && one_waits(cell) && stays(cell, heap)
            }
            Retuning::StaysWhenFull => stays_when_full(cell, heap),
            Retuning::LogGrows => log_grows(cell, heap, nth),
            Retuning::BaseTakes => base_takes(cell, heap, nth),
        }
    }
}

fn settings() -> ExportSettings<'static> {
    ExportSettings {
        limit: 10,
        ..of_size(8)
    }
}

fn four() -> Option<Rates> {
    Rates::new(0, 4, 1).ok()
}

// What a retune to four requests a second comes to.
fn retuned(cell: &mut Cell<'_>) -> Option<Result<(), NotRetuned>> {
    match four() {
        Some(rates) => Some(cell.retune(rates)),
        None => None,
    }
}

fn tag_of(arrived: Result<Arrived, ArriveFault>) -> Option<i128> {
    match arrived {
        Ok(Arrived::Accepted { limit_tag, .. }) => Some(limit_tag),
        _ => None,
    }
}

// The limit tag of a READ that arrives at 0. None where it isn't accepted.
fn tag_of_a_read(cell: &mut Cell<'_>) -> Option<i128> {
    tag_of(arrival(cell, 0, read(8)))
}

// Whether a first session is opened, and its first READ waits.
fn one_waits(cell: &mut Cell<'_>) -> bool {
    cell.attach() == Ok(0) && tag_of_a_read(cell) == Some(0)
}

// Whether the rates stay for the sake of what waits. Nothing is asked for then, although memory is refused.
fn stays<'a>(cell: &mut Cell<'a>, heap: Heap<'a>) -> bool {
    let before = counts(cell);
    heap.arm(1);
    let refused = retuned(cell) == Some(Err(NotRetuned::Refused(RetuneRefusal::Waiting)));
    let same = heap.is_armed() & (counts(cell) == before);
    heap.arm(0);
    refused & same
}

// Whether the rates are others once it is served, and the next tag follows from the last one and the new limit.
fn changes(cell: &mut Cell<'_>) -> bool {
    serves(cell) && retuned(cell) == Some(Ok(())) && tag_of_a_read(cell) == Some(250_000_000)
}

fn is_logged<'a>(cell: &mut Cell<'a>, heap: Heap<'a>) -> bool {
    let names = "attach arrive pick perform take retune arrive ";
    one_waits(cell)
        && counts(cell) == (2, 2, 0)
        && stays(cell, heap)
        && changes(cell)
        && are_named(cell, heap, names)
        && counts(cell) == (7, 7, 0)
}

#[test]
fn the_log_has_a_retune(rt: HostRuntime) {
    assert!(rt; holds(rt.alloc(), &settings(), &Retuning::Logged));
}

// Whether the steps of a log are made again, each of them.
fn replays<'a>(lone: &mut LoneExport<'a>, log: &Log<Heap<'a>>) -> bool {
    if !rest_replays(lone, log.rest()) {
        return false;
    }
    for group in log.groups().iter() {
        if !step_replays(lone, &group.step) || !rest_replays(lone, group.rest) {
            return false;
        }
    }
    true
}

fn rest_replays<'a>(lone: &mut LoneExport<'a>, rest: Rest) -> bool {
    let mut left = rest;
    for _ in 0..3 {
        let Some((step, behind)) = left.split() else {
            return true;
        };
        if !step_replays(lone, &step) {
            return false;
        }
        left = behind;
    }
    true
}

fn step_replays<'a>(lone: &mut LoneExport<'a>, step: &Step<Heap<'a>>) -> bool {
    lone.may_replay(step) && lone.replay(step).is_ok()
}

fn tag_alone(lone: &mut LoneExport<'_>) -> Option<i128> {
    match lone.arrive(0, Moment::zero(), read(8)) {
        Ok(Arrived::Accepted { limit_tag, .. }) => Some(limit_tag),
        _ => None,
    }
}

fn goes_on_as<'a>(lone: &mut LoneExport<'a>, cell: &mut Cell<'a>) -> bool {
    replays(lone, cell.entries())
        && lone.steps() == cell.steps()
        && tag_alone(lone) == Some(500_000_000)
        && tag_of_a_read(cell) == Some(500_000_000)
}

fn goes_on_alike<'a>(cell: &mut Cell<'a>, heap: Heap<'a>) -> bool {
    match alone(heap, &settings()) {
        Some(mut lone) => goes_on_as(&mut lone, cell),
        None => false,
    }
}

#[test]
fn a_log_over_a_retune_is_made_again(rt: HostRuntime) {
    assert!(rt; holds(rt.alloc(), &settings(), &Retuning::MadeAgain));
}

// Whether the first request that waits is picked, and after a retune performed.
fn performs_between(cell: &mut Cell<'_>) -> bool {
    if !cell.live().may_pick() {
        return false;
    }
    let Some(picked) = cell.pick() else {
        return false;
    };
    retuned(cell) == Some(Ok(())) && cell.perform(picked.slot, picked.number).is_some()
}

// A log of 4,095 steps: attach, arrive, pick, retune, perform, retune, take, and then READs of four steps.
fn is_filled(cell: &mut Cell<'_>) -> bool {
    one_waits(cell)
        && performs_between(cell)
        && retuned(cell) == Some(Ok(()))
        && takes(cell, 0)
        && serves_reads(cell, 1022)
        && counts(cell) == (4095, 4095, 0)
}

// Whether the first of these retunes has room, and for each other one the oldest step goes into the base.
fn are_pushed(cell: &mut Cell<'_>) -> bool {
    for pushed in 0..12u64 {
        if retuned(cell) != Some(Ok(())) || counts(cell) != (4096 + pushed, 4096, pushed) {
            return false;
        }
    }
    cell.base().queued() == 0
}

fn goes_over(cell: &mut Cell<'_>) -> bool {
    let pushed = is_filled(cell) && are_pushed(cell);
    let follows = pushed && tag_of_a_read(cell) == Some(255_750_000_000);
    cell.laws();
    follows
}

#[test]
fn the_base_goes_over_a_retune(rt: HostRuntime) {
    assert!(rt; holds(rt.alloc(), &settings(), &Retuning::InTheBase));
}

// Whether so many retunes are made.
fn are_retuned(cell: &mut Cell<'_>, rounds: u64) -> bool {
    for _ in 0..rounds {
        if !retunes(cell) {
            return false;
        }
    }
    true
}

fn stays_when_full<'a>(cell: &mut Cell<'a>, heap: Heap<'a>) -> bool {
    is_filled(cell)
        && tag_of_a_read(cell) == Some(255_750_000_000)
        && counts(cell) == (4096, 4096, 0)
        && stays(cell, heap)
}

#[test]
fn rates_stay_while_one_waits(rt: HostRuntime) {
    for rounds in 0..20u64 {
        let behind = Retuning::StaysBehind(rounds);
        assert!(rt; holds(rt.alloc(), &settings(), &behind), "behind {rounds}");
    }
    assert!(rt; holds(rt.alloc(), &settings(), &Retuning::StaysWhenFull));
}

// Whether the rates are others, at the second time where the first found no memory. The base is no further then than at the second.
fn retunes(cell: &mut Cell<'_>) -> bool {
    let steps = cell.steps();
    match retuned(cell) {
        Some(Ok(())) => true,
        Some(Err(NotRetuned::NoMemory)) => retunes_again(cell, steps),
        _ => false,
    }
}

fn retunes_again(cell: &mut Cell<'_>, steps: u64) -> bool {
    let base = cell.base().steps();
    is_kept(cell, steps)
        && cell.live().may_retune().is_ok()
        && retuned(cell) == Some(Ok(()))
        && base <= cell.base().steps()
}

// Whether the cell counts so much after 20 retunes, with a refusal from the first on.
fn log_grows<'a>(cell: &mut Cell<'a>, heap: Heap<'a>, nth: u64) -> bool {
    heap.arm(nth);
    are_retuned(cell, 20) && counts(cell) == (20, 20, 0)
}

// Whether the cell counts so much once as many retunes found the log full, with a refusal from the first on.
fn base_takes<'a>(cell: &mut Cell<'a>, heap: Heap<'a>, nth: u64) -> bool {
    if !is_filled(cell) {
        return false;
    }
    heap.arm(nth);
    are_retuned(cell, 12) && counts(cell) == (4107, 4096, 11)
}

#[test]
fn each_growth_of_the_log_is_refused_in_turn(rt: HostRuntime) {
    let wrong = first_wrong(rt.alloc(), &settings(), &Retuning::LogGrows, false, 2);
    assert!(rt; wrong == 0, "at {wrong}");
}

#[test]
fn each_growth_of_the_base_is_refused_in_turn(rt: HostRuntime) {
    let wrong = first_wrong(rt.alloc(), &settings(), &Retuning::BaseTakes, false, 2);
    assert!(rt; wrong == 0, "at {wrong}");
}
