//! Runs that were worked out by hand, by an export's own calls and by replays.

use super::step_answers::{is_told, made, remade};
use super::*;

// Whether a call is answered as was worked out.
fn is_made(alloc: Global, lone: &mut Alone, call: Call, wanted: &str) -> bool {
    let Some(step) = step_of(alloc, call) else {
        return false;
    };
    match made(lone, step) {
        Some(answer) => is_told(alloc, &answer, wanted),
        None => false,
    }
}

// The same by a replay.
fn is_remade(alloc: Global, lone: &mut Alone, call: Call, wanted: &str) -> bool {
    match step_of(alloc, call) {
        Some(step) => is_step_remade(alloc, lone, &step, wanted),
        None => false,
    }
}

fn is_step_remade(alloc: Global, lone: &mut Alone, step: &Step<Global>, wanted: &str) -> bool {
    match remade(lone, step) {
        Some(answer) => is_told(alloc, &answer, wanted),
        None => false,
    }
}

fn is_right(alloc: Global, lone: &mut Alone, told: &Told, by_replay: bool) -> bool {
    let (call, wanted) = *told;
    if by_replay {
        is_remade(alloc, lone, call, wanted)
    } else {
        is_made(alloc, lone, call, wanted)
    }
}

// The first call that is answered otherwise, counted from 1; 0 where all are answered so, and so many steps were counted.
fn first_wrong_of(
    alloc: Global,
    lone: &mut Alone,
    run: &[Told],
    counted: u64,
    by_replay: bool,
) -> usize {
    for (place, told) in run.iter().enumerate() {
        if !is_right(alloc, lone, told, by_replay) {
            return place.saturating_add(1);
        }
    }
    if lone.steps() == counted {
        0
    } else {
        usize::MAX
    }
}

// The same for an export that is made so.
pub(super) fn first_wrong(
    alloc: Global,
    settings: &ExportSettings<'_>,
    run: &[Told],
    counted: u64,
    by_replay: bool,
) -> usize {
    match opened(alloc, settings) {
        Ok(mut lone) => first_wrong_of(alloc, &mut lone, run, counted, by_replay),
        Err(NoMemory) => usize::MAX,
    }
}

// With ten requests a second, three at one moment get tags a tenth of a second apart.
#[test]
fn limit_tags_are_an_interval_apart(rt: HostRuntime) {
    let settings = ExportSettings {
        limit: 10,
        ..ExportSettings::new(b"a", 4096)
    };
    let run = [
        (Call::Attach, "session 0"),
        (Call::Read(0, 0, 1, 0), "accepted 0 0"),
        (Call::Read(0, 0, 2, 0), "accepted 1 100000000"),
        (Call::Read(0, 0, 3, 0), "accepted 2 200000000"),
    ];
    for by_replay in [false, true] {
        let wrong = first_wrong(rt.alloc(), &settings, &run, 4, by_replay);
        assert!(rt; wrong == 0, "call {wrong}, by replay: {by_replay}");
    }
}

// A tag follows from the arrival's own moment and the tag before it, also where a later moment was seen before.
#[test]
fn limit_tags_follow_from_the_arrival(rt: HostRuntime) {
    let settings = ExportSettings {
        limit: 10,
        ..ExportSettings::new(b"a", 4096)
    };
    let run = [
        (Call::Attach, "session 0"),
        (Call::Read(0, 10, 1, 0), "accepted 0 10"),
        (Call::Read(0, 0, 2, 0), "accepted 1 100000010"),
    ];
    for by_replay in [false, true] {
        let wrong = first_wrong(rt.alloc(), &settings, &run, 3, by_replay);
        assert!(rt; wrong == 0, "call {wrong}, by replay: {by_replay}");
    }
}

// Two may wait: the third is answered 5 (EIO), and the next waits once one is in service.
#[test]
fn no_more_wait_than_the_depth(rt: HostRuntime) {
    let settings = ExportSettings {
        depth: 2,
        ..ExportSettings::new(b"a", 4096)
    };
    let run = [
        (Call::Attach, "session 0"),
        (Call::Read(0, 0, 1, 0), "accepted 0 0"),
        (Call::Read(0, 0, 2, 0), "accepted 1 0"),
        (Call::Read(0, 0, 3, 0), "answered 5"),
        (Call::Pick, "request 0"),
        (Call::Read(0, 0, 4, 0), "accepted 2 0"),
        (Call::Take(0), "reply 3 5 []"),
    ];
    for by_replay in [false, true] {
        let wrong = first_wrong(rt.alloc(), &settings, &run, 7, by_replay);
        assert!(rt; wrong == 0, "call {wrong}, by replay: {by_replay}");
    }
}

// With a window of one, the next request is held until the reply is taken.
#[test]
fn a_session_is_held_at_its_window(rt: HostRuntime) {
    let settings = ExportSettings {
        window: 1,
        ..ExportSettings::new(b"a", 4096)
    };
    let run = [
        (Call::Attach, "session 0"),
        (Call::Read(0, 0, 1, 0), "accepted 0 0"),
        (Call::Read(0, 0, 2, 0), "hold"),
        (Call::Pick, "request 0"),
        (Call::Perform(0), "performed true"),
        (Call::Read(0, 0, 2, 0), "hold"),
        (Call::Take(0), "reply 1 0 []"),
        (Call::Read(0, 0, 2, 0), "accepted 1 0"),
    ];
    for by_replay in [false, true] {
        let wrong = first_wrong(rt.alloc(), &settings, &run, 6, by_replay);
        assert!(rt; wrong == 0, "call {wrong}, by replay: {by_replay}");
    }
}

// Whether 64 sessions are attached, and no more.
fn attaches_64(lone: &mut Alone) -> bool {
    for number in 0..64u64 {
        if lone.attach() != Ok(number) {
            return false;
        }
    }
    lone.may_attach() == Err(AttachRefusal::Full)
        && lone.attach() == Err(NotAttached::Refused(AttachRefusal::Full))
}

#[test]
fn the_65th_session_finds_no_place(rt: HostRuntime) {
    let mut lone = opened(rt.alloc(), &ExportSettings::new(b"a", 4096)).expect(&rt, "memory");
    assert!(rt; attaches_64(&mut lone));
    assert!(rt; lone.gone(7).is_ok());
    assert!(rt; lone.attach() == Ok(64));
}

// The WRITE of a session that is gone is still done, and its reply is dropped.
fn gone_before_its_write() -> [Told; 16] {
    [
        (Call::Attach, "session 0"),
        (Call::Attach, "session 1"),
        (Call::Write(1, b"\xde\xad\xbe\xef"), "accepted 0 0"),
        (Call::Pick, "request 0"),
        (Call::Gone(0), "gone"),
        (Call::Perform(0), "performed true"),
        (Call::Perform(0), "not out"),
        (Call::Read(1, 0, 2, 4), "accepted 1 0"),
        (Call::Pick, "request 1"),
        (Call::Perform(1), "performed true"),
        (Call::Take(1), "reply 2 0 [222, 173, 190, 239]"),
        (Call::Take(1), "empty"),
        (Call::Take(0), "not open"),
        (Call::Leave(1), "left"),
        (Call::Take(1), "end"),
        (Call::Gone(1), "gone"),
    ]
}

#[test]
fn a_gone_session_is_still_served(rt: HostRuntime) {
    let settings = ExportSettings::new(b"a", 4096);
    let run = gone_before_its_write();
    for by_replay in [false, true] {
        let wrong = first_wrong(rt.alloc(), &settings, &run, 12, by_replay);
        assert!(rt; wrong == 0, "call {wrong}, by replay: {by_replay}");
    }
}

// A mark that tells of no memory is kept: a READ and a WRITE are told so, and a FLUSH, which wants none, is done.
#[test]
fn a_replay_keeps_its_mark(rt: HostRuntime) {
    let settings = ExportSettings::new(b"a", 4096);
    let run = [
        (Call::Attach, "session 0"),
        (Call::Write(1, b"\xde\xad"), "accepted 0 0"),
        (Call::Read(0, 0, 2, 2), "accepted 1 0"),
        (Call::Flush(3), "accepted 2 0"),
        (Call::Read(0, 0, 4, 2), "accepted 3 0"),
        (Call::Pick, "request 0"),
        (Call::Pick, "request 1"),
        (Call::Pick, "request 2"),
        (Call::Pick, "request 3"),
        (Call::Pick, "none"),
        (Call::Fail(0), "performed false"),
        (Call::Fail(1), "performed false"),
        (Call::Fail(2), "performed true"),
        (Call::Fail(2), "not out"),
        (Call::Perform(3), "performed true"),
        (Call::Take(0), "reply 1 12 []"),
        (Call::Take(0), "reply 2 12 []"),
        (Call::Take(0), "reply 3 0 []"),
        (Call::Take(0), "reply 4 0 [0, 0]"),
    ];
    let wrong = first_wrong(rt.alloc(), &settings, &run, 17, true);
    assert!(rt; wrong == 0, "call {wrong}");
}

// Whether these are the answers that were worked out.
fn are_told(alloc: Global, answers: &[StepAnswer<Global>], run: &[Told]) -> bool {
    for (answer, (_call, wanted)) in answers.iter().zip(run.iter()) {
        if !is_told(alloc, answer, wanted) {
            return false;
        }
    }
    true
}

// Whether so many of the steps are replayed in one call, and answered as was worked out.
fn are_replayed(
    alloc: Global,
    lone: &mut Alone,
    steps: &[Step<Global>],
    run: &[Told],
    count: usize,
) -> bool {
    let mut answers = Vec::new(alloc);
    lone.replay_all(steps, &mut answers) == Ok(count)
        && answers.len() == count
        && are_told(alloc, answers.as_slice(), run)
}

// Whether so many steps of a run are.
pub(super) fn is_replayed(alloc: Global, lone: &mut Alone, run: &[Told], count: usize) -> bool {
    match steps_of(alloc, alloc, run) {
        Some(steps) => are_replayed(alloc, lone, steps.as_slice(), run, count),
        None => false,
    }
}

#[test]
fn a_list_of_steps_is_replayed(rt: HostRuntime) {
    let mut lone = opened(rt.alloc(), &ExportSettings::new(b"a", 4096)).expect(&rt, "memory");
    assert!(rt; is_replayed(rt.alloc(), &mut lone, &gone_before_its_write(), 16));
    assert!(rt; lone.steps() == 12);
    lone.laws();
}

// A replay stops before a pick where as many are in service as may be.
#[test]
fn no_more_are_picked_than_may_be(rt: HostRuntime) {
    let settings = ExportSettings::new(b"a", 4096);
    let mut lone = opened_for(rt.alloc(), &settings, 1).expect(&rt, "memory");
    let run = [
        (Call::Attach, "session 0"),
        (Call::Read(0, 0, 1, 0), "accepted 0 0"),
        (Call::Read(0, 0, 2, 0), "accepted 1 0"),
        (Call::Pick, "request 0"),
        (Call::Pick, "no answer"),
        (Call::Perform(0), "no answer"),
    ];
    assert!(rt; is_replayed(rt.alloc(), &mut lone, &run, 4));
    assert!(rt; lone.waiting() == 1);
    assert!(rt; !lone.may_pick() && !lone.may_replay(&Step::Pick));
}

// Whether session 0 is attached, and not open before.
fn opens(lone: &mut Alone) -> bool {
    if lone.may_attach() != Ok(()) || lone.may_arrive(0) != Err(ArriveRefusal::NotOpen) {
        return false;
    }
    lone.attach() == Ok(0) && lone.may_arrive(0) == Ok(()) && lone.to_come() == 2
}

// Whether a READ of the whole is admitted, one behind the end is told EINVAL, and the first then waits.
fn takes_in(lone: &mut Alone) -> bool {
    if !lone.admits(0, &read_of(7, 0, 8)) || lone.admits(0, &read_of(7, 1, 8)) {
        return false;
    }
    if lone.admission(0, &read_of(7, 1, 8)) != Ok(Admission::Answered(22)) {
        return false;
    }
    if lone.arrive(0, Moment::zero(), read_of(7, 0, 8)).is_err() {
        return false;
    }
    (lone.waiting(), lone.to_come()) == (1, 5)
}

// Whether the request that waits, number 0, is picked into slot 0.
fn picks(lone: &mut Alone) -> bool {
    if !lone.may_pick() || lone.pick().is_none() {
        return false;
    }
    if lone.slot_of(0) != Some(0) || lone.slot_of(1).is_some() {
        return false;
    }
    (lone.waiting(), lone.to_come()) == (0, 4)
}

// Whether the request in service is performed by its slot and number, and by no other.
fn performs(lone: &mut Alone) -> bool {
    if lone.perform(0, 1).is_some() || lone.perform(1, 0).is_some() {
        return false;
    }
    lone.perform(0, 0) == Some(true) && (lone.steps(), lone.to_come()) == (4, 3)
}

// One request of an export of 8 bytes is served, where one may wait and two of a session be outstanding.
#[test]
fn one_request_is_served(rt: HostRuntime) {
    let settings = ExportSettings {
        depth: 1,
        window: 2,
        ..ExportSettings::new(b"a", 8)
    };
    let mut lone = opened(rt.alloc(), &settings).expect(&rt, "memory");
    assert!(rt; opens(&mut lone));
    assert!(rt; takes_in(&mut lone));
    assert!(rt; picks(&mut lone));
    assert!(rt; performs(&mut lone));
    assert!(rt; lone.image().size() == 8);
}
