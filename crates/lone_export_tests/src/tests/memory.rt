//! Each growth is refused in turn: a call that finds no memory leaves all as it was, and succeeds when it is made again.

use super::step_answers::is_told;
use super::*;
use nbd_commands::ExportConfig;
use refusing::Refusing;

// An export whose heap may refuse.
type Refused<'a> = Lone<Flat<&'a Refusing<Global>>>;

// An export that is made again where it found no memory.
fn insisted<A: Allocator + Copy>(
    alloc: A,
    export: &ExportConfig<A>,
) -> Result<Lone<Flat<A>>, NoMemory> {
    match Lone::new(alloc, export, 4) {
        Ok(lone) => Ok(lone),
        Err(NoMemory) => Lone::new(alloc, export, 4),
    }
}

// The first export of a configuration, for which a growth is refused from here on.
fn armed_of<'a>(
    heap: &'a Refusing<Global>,
    config: &Config<&'a Refusing<Global>>,
    nth: u64,
) -> Result<Refused<'a>, NoMemory> {
    match config.exports().first() {
        Some(export) => {
            heap.arm(nth);
            insisted(heap, export)
        }
        None => Err(NoMemory),
    }
}

// The same of an export of 8 bytes.
fn armed(heap: &Refusing<Global>, nth: u64) -> Result<Lone<Flat<&Refusing<Global>>>, NoMemory> {
    let settings = ExportSettings {
        depth: 2,
        window: 2,
        ..ExportSettings::new(b"a", 8)
    };
    match configured(heap, &settings) {
        Ok(config) => armed_of(heap, &config, nth),
        Err(NoMemory) => Err(NoMemory),
    }
}

// Whether a session of this number is attached, at the second time where the first found no memory and changed nothing.
fn attaches<A: Allocator + Copy>(lone: &mut Lone<Flat<A>>, number: u64) -> bool {
    let steps = lone.steps();
    match lone.attach() {
        Ok(session) => session == number,
        Err(NotAttached::NoMemory) => {
            let kept = lone.steps() == steps && lone.take(number).is_err();
            kept && lone.attach() == Ok(number)
        }
        Err(NotAttached::Refused(_)) => false,
    }
}

// The next request is served: whether memory was there for it.
fn serves<A: Allocator + Copy>(
    lone: &mut Lone<Flat<A>>,
    number: u64,
    request: Request<A>,
) -> Option<bool> {
    if lone.arrive(0, Moment::zero(), request).is_err() || !lone.may_pick() {
        return None;
    }
    let Some(picked) = lone.pick() else {
        return None;
    };
    if picked.number == number {
        lone.perform(picked.slot, number)
    } else {
        None
    }
}

// Whether a WRITE is served.
fn writes<A: Allocator + Copy>(alloc: A, lone: &mut Lone<Flat<A>>) -> bool {
    let Some(write) = write_of(alloc, 1, b"\xde\xad\xbe\xef") else {
        return false;
    };
    serves(lone, 0, write) == Some(true) && replies(lone, 1, 0, b"")
}

// Whether a READ of its bytes is served. One that finds no memory is answered 12 (ENOMEM), and the next one brings them.
fn reads<A: Allocator + Copy>(lone: &mut Lone<Flat<A>>) -> bool {
    let bytes = b"\xde\xad\xbe\xef";
    match serves(lone, 1, read_of(2, 0, 4)) {
        Some(true) => replies(lone, 2, 0, bytes),
        Some(false) => {
            replies(lone, 2, 12, b"")
                && serves(lone, 2, read_of(3, 0, 4)) == Some(true)
                && replies(lone, 3, 0, bytes)
        }
        None => false,
    }
}

// Whether two sessions, a WRITE and a READ are served.
fn serves_all<'a>(heap: &'a Refusing<Global>, lone: &mut Refused<'a>) -> bool {
    attaches(lone, 0) && attaches(lone, 1) && writes(heap, lone) && reads(lone)
}

// Whether an export is made and serves them, with this refusal.
fn is_whole(heap: &Refusing<Global>, nth: u64) -> bool {
    match armed(heap, nth) {
        Ok(mut lone) => serves_all(heap, &mut lone),
        Err(NoMemory) => false,
    }
}

#[test]
fn each_growth_is_refused_in_turn(rt: HostRuntime) {
    let heap = Refusing::new(rt.alloc(), 0);
    let mut refused = 0u64;
    for nth in 1..1000u64 {
        heap.arm(0);
        assert!(rt; is_whole(&heap, nth), "at {nth}");
        if heap.is_armed() {
            break;
        }
        refused = nth;
    }
    assert!(rt; refused >= 7);
}

// How many of the steps are replayed: none where no memory is there for the answers, which changes nothing.
fn replayed<A: Allocator + Copy>(
    lone: &mut Lone<Flat<A>>,
    steps: &[Step<A>],
    answers: &mut Vec<StepAnswer<A>, A>,
) -> usize {
    match lone.replay_all(steps, answers) {
        Ok(made) => made,
        Err(NoMemory) => 0,
    }
}

// How many of the steps are replayed in two goes at most: the second makes those that the first left.
fn resumed<A: Allocator + Copy>(
    lone: &mut Lone<Flat<A>>,
    steps: &[Step<A>],
    answers: &mut Vec<StepAnswer<A>, A>,
) -> Option<usize> {
    let first = replayed(lone, steps, answers);
    let Some(left) = steps.get(first..) else {
        return None;
    };
    first.checked_add(replayed(lone, left, answers))
}

// Whether there are nine answers, and the last is this.
fn end_with<A: Allocator>(answers: &[StepAnswer<A>], plain: Global, wanted: &str) -> bool {
    let Some(last) = answers.last() else {
        return false;
    };
    answers.len() == 9 && is_told(plain, last, wanted)
}

// Whether these nine steps are replayed in two goes at most.
fn ends_well<'a>(
    heap: &'a Refusing<Global>,
    lone: &mut Refused<'a>,
    steps: &[Step<&'a Refusing<Global>>],
    plain: Global,
) -> bool {
    let mut answers = Vec::new(heap);
    resumed(lone, steps, &mut answers) == Some(9)
        && end_with(answers.as_slice(), plain, "reply 2 0 [222, 173, 190, 239]")
}

// The same of a list of them.
fn is_replayed<'a>(heap: &'a Refusing<Global>, lone: &mut Refused<'a>, plain: Global) -> bool {
    let run = [
        (Call::Attach, "session 0"),
        (Call::Write(1, b"\xde\xad\xbe\xef"), "accepted 0 0"),
        (Call::Pick, "request 0"),
        (Call::Perform(0), "performed true"),
        (Call::Read(0, 0, 2, 4), "accepted 1 0"),
        (Call::Pick, "request 1"),
        (Call::Perform(1), "performed true"),
        (Call::Take(0), "reply 1 0 []"),
        (Call::Take(0), "reply 2 0 [222, 173, 190, 239]"),
    ];
    match steps_of(heap, plain, &run) {
        Some(steps) => ends_well(heap, lone, steps.as_slice(), plain),
        None => false,
    }
}

// Whether an export is made, and a list of steps replayed, with this refusal.
fn is_resumed(heap: &Refusing<Global>, nth: u64, plain: Global) -> bool {
    match armed(heap, nth) {
        Ok(mut lone) => is_replayed(heap, &mut lone, plain),
        Err(NoMemory) => false,
    }
}

#[test]
fn each_growth_of_a_list_is_refused_in_turn(rt: HostRuntime) {
    let heap = Refusing::new(rt.alloc(), 0);
    let mut refused = 0u64;
    for nth in 1..1000u64 {
        heap.arm(0);
        assert!(rt; is_resumed(&heap, nth, rt.alloc()), "at {nth}");
        if heap.is_armed() {
            break;
        }
        refused = nth;
    }
    assert!(rt; refused >= 8);
}
