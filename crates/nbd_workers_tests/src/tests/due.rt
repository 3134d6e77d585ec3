//! What waits for its limit is served when it is due. A limit of 10 a second is an interval of 100,000,000 nanoseconds.
ghost use Rattle.std.specs.Prelude.{◌≡◌};

use super::*;
use std::cell::Cell;
use std::marker::Brand;
use std::time::{Clock as SystemClock, Duration, Instant};

// A clock that leaps to the moment that something is due at. Nothing is due: the worker ends.
#[derive(Drop)]
struct Leaps {
    now: Cell<Moment>,
    leaps: Cell<u64>,
}

impl Clock for Leaps {
    fn now(&self) -> Moment {
        self.now.get()
    }
}

impl Gate for Leaps {
    fn pass(&self, _ticket: &Ticket) {}

    fn done(&self, _ticket: &Ticket) {}

    fn idle(&self, due: Option<Moment>) -> bool {
        let Some(due) = due else {
            return false;
        };
        self.now.set(due);
        self.leaps.set(self.leaps.get().saturating_add(1));
        true
    }
}

// The system's clock, from a start on.
#[derive(Drop)]
struct Runs<'a, R: SystemClock> {
    rt: &'a R,
    start: Instant,
}

impl<'a, R: SystemClock> Clock for Runs<'a, R> {
    fn now(&self) -> Moment {
        let Ok(elapsed) = self.start.elapsed(self.rt) else {
            return Moment::zero();
        };
        match u64::try_from(elapsed.as_nanos()) {
            Ok(nanoseconds) => Moment::new(nanoseconds).unwrap_or(Moment::zero()),
            Err(_) => Moment::zero(),
        }
    }
}

// An export that is served ten times a second.
fn limited() -> ExportSettings<'static> {
    let mut settings = ExportSettings::new(b"a", 4096);
    settings.limit = 10;
    settings
}

// Whether three requests arrive.
fn three_arrive<L: Ledger, R: Wait>(rt: &R, shared: &Tried<L>, pass: &mut Pass<L>) -> bool {
    attaches(rt, shared, pass, FIRST)
        && arrives(rt, shared, pass, FIRST, read_of(0, 4))
        && arrives(rt, shared, pass, FIRST, read_of(1, 4))
        && arrives(rt, shared, pass, FIRST, read_of(2, 4))
}

// How many requests of three are left once a worker ended. Where the server stops at once, the worker still serves what
// waits.
fn left_of_three<L: Ledger, G: Gate, R: Wait>(
    rt: &R,
    shared: &Tried<L>,
    mut pass: Pass<L>,
    gate: &G,
    stops: bool,
) -> Option<usize> {
    if !three_arrive(rt, shared, &mut pass) {
        return None;
    }
    if stops {
        shared.stop();
    }
    work(rt, shared, gate, pass);
    Some(shared.waiting(rt))
}

fn left<L: Ledger, G: Gate, R: Wait>(
    rt: &R,
    alloc: Global,
    blank: Blank,
    gate: &G,
    stops: bool,
) -> Option<usize>
    requires name { blank.name ≡ L.name }
    requires parts { blank.parts ≡ L.parts }
    requires one { blank.parts ≡ 1 }
{
    let exports = [limited()];
    let Some((shared, mut passes)) = shared_of::<L>(alloc, (exports.as_slice(), 32), blank, 1)
    else {
        return None;
    };
    match passes.pop() {
        Some(pass) => left_of_three(rt, &shared, pass, gate, stops),
        None => None,
    }
}

#[test]
fn a_worker_is_told_what_is_due(rt: HostRuntime) {
    let gate = Leaps {
        now: Cell::new(Moment::zero()),
        leaps: Cell::new(0),
    };
    let left = left::<Brand, _, _>(&rt, rt.alloc(), Blank::new(1), &gate, false);
    assert!(rt; left == Some(0));
    assert!(rt; (gate.leaps.get(), gate.now.get().nanoseconds()) == (2, 200_000_000));
}

#[test]
fn a_sleeper_wakes_when_it_is_due(rt: HostRuntime) {
    let start = Instant::now(&rt).expect(&rt, "a clock");
    let clock = Runs { rt: &rt, start };
    let (work, replies) = (Bell::new(), Bell::new());
    let gate = Sleeper::new(&rt, &clock, &work, &replies);
    let left = left::<Brand, _, _>(&rt, rt.alloc(), Blank::new(1), &gate, true);
    assert!(rt; left == Some(0));
    let elapsed = start.elapsed(&rt).expect(&rt, "a clock");
    assert!(rt; elapsed >= Duration::from_millis(200), "too soon");
    assert!(rt; replies.heard() == 3);
}
