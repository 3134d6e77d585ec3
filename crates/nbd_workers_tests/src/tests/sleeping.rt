//! Workers that sleep while there is nothing to do.
ghost use Rattle.std.specs.Prelude.{◌≡◌};

use super::*;
use std::marker::Brand;

const ROUNDS: u64 = 200;

// A clock that stands still.
#[derive(Drop)]
struct Still;

impl Clock for Still {
    fn now(&self) -> Moment {
        Moment::zero()
    }
}

// The bells that are rung for work and for replies.
#[derive(Drop)]
struct Bells {
    work: Bell,
    replies: Bell,
}

impl Play for Bells {
    fn works<L: Ledger, R: Wait>(&self, rt: &R, shared: &Tried<L>, pass: Pass<L>) -> Pass<L> {
        let clock = Still;
        let gate = Sleeper::new(rt, &clock, &self.work, &self.replies);
        work(rt, shared, &gate, pass)
    }

    fn asks<L: Ledger, R: Wait>(&self, rt: &R, shared: &Tried<L>, pass: &mut Pass<L>) -> bool {
        let told = attaches(rt, shared, pass, FIRST)
            && are_answered(rt, shared, pass, self)
            && ends(rt, shared, pass, FIRST);
        shared.stop();
        self.work.ring();
        told
    }
}

// Waits for a reply on its bell.
fn slept<L: Ledger, R: Wait>(
    rt: &R,
    shared: &Tried<L>,
    pass: &mut Pass<L>,
    replies: &Bell,
) -> Option<u64> {
    for _ in 0..TURNS {
        let heard = replies.heard();
        match shared.turn_take(rt, pass, FIRST) {
            Ok(Taken::Reply(reply)) => return Some(reply.cookie()),
            Ok(Taken::Empty) => replies.wait(rt, heard, None),
            _ => return None,
        }
    }
    None
}

// Whether a request is sent, and its reply comes.
fn is_answered<L: Ledger, R: Wait>(
    rt: &R,
    shared: &Tried<L>,
    pass: &mut Pass<L>,
    bells: &Bells,
    cookie: u64,
) -> bool {
    if !arrives(rt, shared, pass, FIRST, read_of(cookie, 0)) {
        return false;
    }
    bells.work.ring();
    slept(rt, shared, pass, &bells.replies) == Some(cookie)
}

// Whether each of so many requests is answered, each sent once the reply before it is there.
fn are_answered<L: Ledger, R: Wait>(
    rt: &R,
    shared: &Tried<L>,
    pass: &mut Pass<L>,
    bells: &Bells,
) -> bool {
    for cookie in 0..ROUNDS {
        if !is_answered(rt, shared, pass, bells, cookie) {
            return false;
        }
    }
    true
}

#[test]
fn workers_sleep(rt: HostRuntime) {
    let bells = Bells {
        work: Bell::new(),
        replies: Bell::new(),
    };
    let exports = [ExportSettings::new(b"a", 4096)];
    let exports = (exports.as_slice(), 32);
    let ran = used::<_, Brand, _>(&rt, rt.alloc(), exports, Blank::new(3), 3, &bells);
    assert!(rt; ran == Some((true, Some(803))));
}
