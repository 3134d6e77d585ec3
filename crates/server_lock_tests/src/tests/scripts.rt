//! Scripts of events, each on a server, by `run` and through the lock, with both forms of eligibility where there is no lock.
//! The expected tags, choices and answers were worked out from the rules of the scheduler, apart from this program.

use super::lines::{event_of, tags_of, text_of};
use super::*;
use server_core::run;

// What a script shows; its exports, each by its reservation, limit, weight, depth and window; how many requests may be in
// service; and its turns, `EVENT: ANSWER`.
type Script<'a> = (&'a str, &'a [[u64; 5]], u64, &'a str);

const SCRIPTS: [Script<'static>; 18] = [
    (
        "twice the weight is served twice as often, and equal tags go to the lower export",
        &[[0, 0, 1, 8, 8], [0, 0, 2, 8, 8]],
        32,
        "attach 0: session 0; attach 1: session 0; read 0 0 0 1: accepted 0 0; read 0 0 0 2: accepted 1 0; read 1 0 0 1: accepted 0 0; read 1 0 0 2: accepted 1 0; dispatch 0: weight 0 0; dispatch 0: weight 1 0; dispatch 0: weight 1 1; dispatch 0: weight 0 1; dispatch 0: none",
    ),
    (
        "a limit holds back, and the server's time doesn't fall",
        &[[0, 10, 1, 8, 8]],
        32,
        "attach 0: session 0; read 0 0 0 1: accepted 0 0; read 0 0 0 2: accepted 1 100000000; read 0 0 0 3: accepted 2 200000000; dispatch 0: weight 0 0; perform 0 0: performed; dispatch 99999999: none; dispatch 100000000: weight 0 1; dispatch 5: none; dispatch 200000000: weight 0 2",
    ),
    (
        "limit tags follow the arrivals, not the server's time, which a dispatch that chooses nothing keeps",
        &[[0, 10, 1, 8, 8]],
        32,
        "attach 0: session 0; dispatch 100000000: none; read 0 0 0 1: accepted 0 0; read 0 0 0 2: accepted 1 100000000; dispatch 0: weight 0 0; dispatch 0: weight 0 1",
    ),
    (
        "moments of arrivals may fall",
        &[[0, 10, 1, 8, 8]],
        32,
        "attach 0: session 0; read 0 0 10 1: accepted 0 10; read 0 0 0 2: accepted 1 100000010",
    ),
    (
        "a choice by weight is credited in the tag of what waits, and in the last one",
        &[[4, 0, 1, 8, 8]],
        32,
        "attach 0: session 0; read 0 0 0 1: accepted 0 0; read 0 0 0 2: accepted 1 0; dispatch 0: reservation 0 0; dispatch 0: weight 0 1; read 0 0 0 3: accepted 2 0; tags 0: 2 250000000 0 2000000000; read 0 0 0 4: accepted 3 0; dispatch 0: weight 0 2; tags 0: 3 250000000 0 3000000000",
    ),
    (
        "a due reservation goes before a greater weight",
        &[[0, 0, 1000000, 8, 8], [1, 0, 1, 8, 8]],
        32,
        "attach 0: session 0; attach 1: session 0; read 0 0 0 1: accepted 0 0; read 1 0 0 1: accepted 0 0; dispatch 0: reservation 1 0; dispatch 0: weight 0 0",
    ),
    (
        "an arrival to an idle export takes the others' P tags down to its moment",
        &[[0, 0, 1, 8, 8], [0, 0, 1, 8, 8]],
        32,
        "attach 0: session 0; attach 1: session 0; read 0 0 0 1: accepted 0 0; read 0 0 0 2: accepted 1 0; read 0 0 0 3: accepted 2 0; dispatch 0: weight 0 0; dispatch 0: weight 0 1; read 1 0 5 1: accepted 0 5; tags 0: 2 - 0 5; tags 1: 0 - 5 5; dispatch 5: weight 0 2; tags 0: ; tags 2: no export",
    ),
    (
        "a shift leaves R and L tags, and one to a later moment takes the P tags up, the last one with them",
        &[[1, 10, 1, 8, 8], [0, 0, 1, 8, 8]],
        32,
        "attach 0: session 0; attach 1: session 0; read 0 0 0 1: accepted 0 0; read 0 0 0 2: accepted 1 100000000; dispatch 0: reservation 0 0; tags 0: 1 1000000000 100000000 1000000000; read 1 0 5 1: accepted 0 5; tags 0: 1 1000000000 100000000 5; dispatch 5: weight 1 0; read 1 0 2000000005 2: accepted 1 2000000005; read 0 0 0 3: accepted 2 200000000; tags 0: 1 1000000000 100000000 2000000005, 2 2000000000 200000000 3000000005; tags 1: 1 - 2000000005 2000000005",
    ),
    (
        "an idle export keeps its last P tag, though the others' fall",
        &[[0, 0, 1, 8, 8], [0, 0, 1, 8, 8]],
        32,
        "attach 0: session 0; attach 1: session 0; read 1 0 0 1: accepted 0 0; dispatch 0: weight 1 0; read 0 0 0 1: accepted 0 0; read 0 0 0 2: accepted 1 0; dispatch 0: weight 0 0; read 1 0 5 2: accepted 1 5; tags 1: 1 - 5 1000000000; read 0 0 5 3: accepted 2 5; tags 0: 1 - 0 5, 2 - 5 1000000005",
    ),
    (
        "as many as the depth wait, and the reply to what is refused is taken first",
        &[[0, 0, 1, 2, 256]],
        32,
        "attach 0: session 0; read 0 0 0 1: accepted 0 0; read 0 0 0 2: accepted 1 0; read 0 0 0 3: answered 5; dispatch 0: weight 0 0; read 0 0 0 4: accepted 2 0; take 0 0: reply 3 5 []",
    ),
    (
        "a queue counts its own requests, and a reply of error 5 comes in its turn",
        &[[0, 0, 1, 2, 8], [0, 0, 1, 8, 8]],
        32,
        "attach 0: session 0; attach 1: session 0; read 0 0 0 1: accepted 0 0; read 0 0 0 2: accepted 1 0; read 1 0 0 1: accepted 0 0; read 1 0 0 2: accepted 1 0; read 1 0 0 3: accepted 2 0; read 0 0 0 3: answered 5; dispatch 0: weight 0 0; read 0 0 0 4: accepted 2 0; take 0 0: reply 3 5 []",
    ),
    (
        "one in service at once, of all exports together",
        &[[0, 0, 1, 8, 8], [0, 0, 1, 8, 8]],
        1,
        "attach 0: session 0; attach 1: session 0; read 0 0 0 1: accepted 0 0; read 1 0 0 1: accepted 0 0; dispatch 0: weight 0 0; dispatch 0: none; perform 0 0: performed; dispatch 0: weight 1 0",
    ),
    (
        "one in service at once, of one export",
        &[[0, 0, 1, 8, 8]],
        1,
        "attach 0: session 0; read 0 0 0 1: accepted 0 0; read 0 0 0 2: accepted 1 0; dispatch 0: weight 0 0; dispatch 0: none; perform 0 0: performed; dispatch 0: weight 0 1",
    ),
    (
        "a window of one holds until the reply is taken; a request past the end is refused for itself, and changes no byte",
        &[[0, 0, 1, 8, 1]],
        32,
        "attach 0: session 0; attach 0: session 1; read 0 0 0 1: accepted 0 0; read 0 0 0 2: hold; dispatch 0: weight 0 0; perform 0 0: performed; read 0 0 0 2: hold; take 0 0: reply 1 0 [0, 0, 0, 0]; beyond 0 0 0 2: answered 28; take 0 0: reply 2 28 []; read 0 0 0 3: accepted 1 0; dispatch 0: weight 0 1; perform 0 1: performed; take 0 0: reply 3 0 [0, 0, 0, 0]; attach 9: no export; read 9 0 0 1: no export; read 0 2 0 1: not open; take 9 0: no export; leave 9 0: no export; gone 9 0: no export; gone 0 2: not open",
    ),
    (
        "the write of a session that is gone is still done, once, and another session reads it",
        &[[0, 0, 1, 8, 8]],
        32,
        "attach 0: session 0; attach 0: session 1; write 0 0 0 1: accepted 0 0; dispatch 0: weight 0 0; gone 0 0: gone; perform 0 0: performed; perform 0 0: not out; read 0 1 0 2: accepted 1 0; dispatch 0: weight 0 1; perform 0 1: performed; take 0 1: reply 2 0 [222, 173, 190, 239]; take 0 1: empty; take 0 0: not open; leave 0 1: left; take 0 1: end; gone 0 1: gone; steps: 12",
    ),
    (
        "other rates wait until nothing waits, and the next limit tag is a new interval after the last",
        &[[0, 10, 1, 8, 8]],
        32,
        "attach 0: session 0; read 0 0 0 1: accepted 0 0; retune 0 0 4 1: waiting; dispatch 0: weight 0 0; retune 0 0 4 1: retuned; read 0 0 0 2: accepted 1 250000000; read 0 0 0 3: accepted 2 500000000; dispatch 250000000: weight 0 1; dispatch 500000000: weight 0 2; retune 0 0 0 1: retuned; read 0 0 0 4: accepted 3 500000000; steps: 10",
    ),
    (
        "a last R tag is gone where there was no reservation between, and the last P tag stays",
        &[[1, 0, 1, 8, 8]],
        32,
        "attach 0: session 0; read 0 0 0 1: accepted 0 0; dispatch 0: reservation 0 0; retune 0 2 0 1: retuned; read 0 0 0 2: accepted 1 0; tags 0: 1 500000000 0 1000000000; dispatch 0: weight 0 1; retune 0 0 0 1: retuned; retune 0 2 0 2: retuned; read 0 0 0 3: accepted 2 0; tags 0: 2 0 0 1500000000; steps: 9",
    ),
    (
        "what waits holds back the rates of its own export alone, and a refused retune is no step",
        &[[0, 0, 1, 8, 8], [0, 0, 1, 8, 8]],
        32,
        "retune 0 0 5 1: retuned; attach 0: session 0; read 0 0 0 1: accepted 0 0; read 0 0 0 2: accepted 1 200000000; retune 2 0 4 1: no export; retune 0 0 4 1: waiting; dispatch 0: weight 0 0; retune 0 0 4 1: waiting; retune 1 0 4 1: retuned; attach 1: session 0; read 1 0 0 1: accepted 0 0; read 1 0 0 2: accepted 1 250000000; dispatch 200000000: weight 0 1; retune 0 0 4 1: retuned; read 0 0 0 3: accepted 2 450000000; steps: 12",
    ),
];

// A ticket can't name what was never chosen, so this goes without the lock alone.
const NEVER_CHOSEN: Script<'static> = (
    "what waits can't be performed",
    &[[0, 0, 1, 8, 8], [0, 0, 1, 8, 8]],
    1,
    "attach 1: session 0; read 1 0 0 1: accepted 0 0; perform 1 0: not out; perform 0 0: not out; perform 2 0: not out; dispatch 0: weight 1 0; perform 1 0: performed",
);

// A script with a turn that is made many times: what it shows; its exports; the turns before, that turn up to the number in
// its answer and behind it, and the turns after; and how often.
type Crowd = (&'static str, &'static [[u64; 5]], [&'static str; 4], u64);

const CROWDS: [Crowd; 2] = [
    (
        "an export has 64 sessions at once, and the 65th once another is gone",
        &[[0, 0, 1, 8, 8]],
        [
            "",
            "attach 0: session ",
            "; ",
            "attach 0: full; gone 0 0: gone; attach 0: session 64; attach 0: full; attach 9: no export; steps: 66",
        ],
        64,
    ),
    (
        "a crowd at another export changes no answer",
        &[[0, 0, 1, 2, 256], [0, 0, 1, 1024, 1024]],
        [
            "attach 0: session 0; attach 1: session 0; read 0 0 0 1: accepted 0 0; read 0 0 0 2: accepted 1 0; ",
            "read 1 0 0 9: accepted ",
            " 0; ",
            "read 0 0 0 3: answered 5; dispatch 0: weight 0 0; read 0 0 0 4: accepted 2 0; take 0 0: reply 3 5 []; steps: 1008",
        ],
        1000,
    ),
];

fn is_repeated(text: &mut String<Global>, before: &str, behind: &str, count: u64) -> bool {
    for number in 0..count {
        if write!(text, "{before}{number}{behind}").is_err() {
            return false;
        }
    }
    true
}

// The turns of a crowd.
fn turns_of(alloc: Global, crowd: &Crowd) -> Option<String<Global>> {
    let [first, before, behind, last] = crowd.2;
    let Ok(mut text) = String::from_str(alloc, first) else {
        return None;
    };
    if is_repeated(&mut text, before, behind, crowd.3) && text.push_str(last).is_ok() {
        Some(text)
    } else {
        None
    }
}

// The tags of the requests of an export that wait, as a text.
fn tags_text<E: Eligibility<Alloc = Global>>(
    alloc: Global,
    server: &Live<E>,
    export: &str,
) -> Option<String<Global>> {
    let Ok(export) = export.parse() else {
        return None;
    };
    match server.tags(alloc, export) {
        Ok(told) => tags_of(alloc, told.as_slice()),
        Err(refusal) => format!(in alloc; "{refusal}").ok(),
    }
}

// Whether a turn is no event, but asks for tags or for the count of steps.
pub fn asks(line: &str) -> bool {
    line == "steps" || line.starts_with("tags ")
}

// What a server tells of itself.
pub fn told_of<E: Eligibility<Alloc = Global>>(
    alloc: Global,
    server: &Live<E>,
    line: &str,
) -> Option<String<Global>> {
    match line.strip_prefix("tags ") {
        Some(export) => tags_text(alloc, server, export),
        None => format!(in alloc; "{}", server.steps()).ok(),
    }
}

// What a server answers to a line.
fn told_by<E: Eligibility<Alloc = Global>>(
    alloc: Global,
    server: &mut Live<E>,
    line: &str,
) -> Option<String<Global>> {
    if asks(line) {
        return told_of(alloc, server, line);
    }
    let Some(event) = event_of(alloc, line) else {
        return None;
    };
    text_of(alloc, &server.event(event))
}

// Whether a server answers a turn as it says.
fn answers<E: Eligibility<Alloc = Global>>(
    alloc: Global,
    server: &mut Live<E>,
    turn: &str,
) -> bool {
    let Some((line, expected)) = turn.split_once(": ") else {
        return false;
    };
    match told_by(alloc, server, line) {
        Some(told) => told.as_str() == expected,
        None => false,
    }
}

fn answers_each<E: Eligibility<Alloc = Global>>(
    alloc: Global,
    server: &mut Live<E>,
    turns: &str,
) -> bool {
    for turn in turns.split("; ") {
        if !answers(alloc, server, turn) {
            return false;
        }
    }
    true
}

// Whether a server answers each turn of a script as it says.
fn serves<E: Eligibility<Alloc = Global>>(alloc: Global, script: &Script) -> bool {
    match server_of::<E, _>(alloc, (script.1, script.2)) {
        Some(mut server) => answers_each(alloc, &mut server, script.3),
        None => false,
    }
}

// Adds the event of a turn, where it is one.
fn is_taken(alloc: Global, events: &mut Vec<Event<Global>>, turn: &str) -> bool {
    let Some((line, _)) = turn.split_once(": ") else {
        return false;
    };
    if asks(line) {
        return true;
    }
    match event_of(alloc, line) {
        Some(event) => events.push(event).is_ok(),
        None => false,
    }
}

fn events_of(alloc: Global, turns: &str) -> Option<Vec<Event<Global>>> {
    let mut events = Vec::new(alloc);
    for turn in turns.split("; ") {
        if !is_taken(alloc, &mut events, turn) {
            return None;
        }
    }
    Some(events)
}

fn reads_as(alloc: Global, answer: Option<&Answer<Global>>, expected: &str) -> bool {
    let Some(answer) = answer else {
        return false;
    };
    match text_of(alloc, answer) {
        Some(told) => told.as_str() == expected,
        None => false,
    }
}

// Whether these are the answers to the turns that are events, one each.
fn are_told(alloc: Global, answers: &[Answer<Global>], turns: &str) -> bool {
    let mut told = answers.iter();
    for turn in turns.split("; ") {
        let Some((line, expected)) = turn.split_once(": ") else {
            return false;
        };
        if !asks(line) && !reads_as(alloc, told.next(), expected) {
            return false;
        }
    }
    told.next().is_none()
}

fn answers_of<E: Eligibility<Alloc = Global>>(
    alloc: Global,
    config: &Config<Global>,
    turns: &str,
) -> Option<Vec<Answer<Global>>> {
    match events_of(alloc, turns) {
        Some(events) => run::<Paged<Global>, E>(alloc, config, events).ok(),
        None => None,
    }
}

// Whether `run` answers the events of a script as it says.
fn runs<E: Eligibility<Alloc = Global>>(
    alloc: Global,
    config: &Config<Global>,
    turns: &str,
) -> bool {
    match answers_of::<E>(alloc, config, turns) {
        Some(answers) => are_told(alloc, answers.as_slice(), turns),
        None => false,
    }
}

// Whether a script goes as it says, by both forms of eligibility.
fn goes(alloc: Global, script: &Script) -> bool {
    serves::<Listed<Global>>(alloc, script) && serves::<Heaped<Global>>(alloc, script)
}

fn goes_by_run(alloc: Global, script: &Script) -> bool {
    match config_of(alloc, (script.1, script.2)) {
        Some(config) => {
            runs::<Listed<Global>>(alloc, &config, script.3)
                && runs::<Heaped<Global>>(alloc, &config, script.3)
        }
        None => false,
    }
}

#[test]
fn scripts_go_as_they_say(rt: HostRuntime) {
    let alloc = rt.alloc();
    for script in &SCRIPTS {
        assert!(rt; goes(alloc, script), "{}", script.0);
        assert!(rt; goes_by_run(alloc, script), "{}, by run", script.0);
    }
    assert!(rt; goes(alloc, &NEVER_CHOSEN) && goes_by_run(alloc, &NEVER_CHOSEN));
}

#[test]
fn scripts_go_under_the_lock(rt: HostRuntime) {
    for script in &SCRIPTS {
        let exports = (script.1, script.2);
        let play = Play::Script(script.3);
        let well = plays::<Brand, _>(&rt, rt.alloc(), exports, Blank::new(1), play);
        assert!(rt; well, "{}", script.0);
    }
}

#[test]
fn crowds_go_as_they_say(rt: HostRuntime) {
    let alloc = rt.alloc();
    for crowd in &CROWDS {
        let turns = turns_of(alloc, crowd).expect(&rt, "memory");
        let script = (crowd.0, crowd.1, 32, turns.as_str());
        assert!(rt;
            goes(alloc, &script) && goes_by_run(alloc, &script),
            "{}",
            crowd.0
        );
        let play = Play::Script(turns.as_str());
        let well = plays::<Brand, _>(&rt, alloc, (crowd.1, 32), Blank::new(1), play);
        assert!(rt; well, "{}, under the lock", crowd.0);
    }
}
