//! Two workers serve at one time.
ghost use Rattle.std.specs.Prelude.{◌≡◌};

use super::holding::{Act, Holds};
use super::*;
use std::marker::Brand;

// Whether the next reply has this cookie.
fn is_next<L: Ledger, R: Wait>(rt: &R, shared: &Tried<L>, pass: &mut Pass<L>, cookie: u64) -> bool {
    match next_reply(rt, shared, pass, FIRST) {
        Some(reply) => reply.cookie() == cookie,
        None => false,
    }
}

// Whether two requests arrive.
fn asks<L: Ledger, R: Wait>(rt: &R, shared: &Tried<L>, pass: &mut Pass<L>) -> bool {
    attaches(rt, shared, pass, FIRST)
        && arrives(rt, shared, pass, FIRST, read_of(10, 0))
        && arrives(rt, shared, pass, FIRST, read_of(11, 0))
}

// Whether a session of two requests gets the reply to its second one first.
pub fn second_is_first<L: Ledger, R: Wait>(rt: &R, shared: &Tried<L>, pass: &mut Pass<L>) -> bool {
    asks(rt, shared, pass)
        && is_next(rt, shared, pass, 11)
        && is_next(rt, shared, pass, 10)
        && ends(rt, shared, pass, FIRST)
}

#[test]
fn workers_overlap(rt: HostRuntime) {
    let gate = Holds::new(Act::Overlap);
    let exports = [ExportSettings::new(b"a", 4096)];
    let exports = (exports.as_slice(), 32);
    let ran = used::<_, Brand, _>(&rt, rt.alloc(), exports, Blank::new(3), 3, &gate);
    assert!(rt; !gate.gave_up.load(Ordering::SeqCst), "the gate gave up");
    assert!(rt; ran == Some((true, Some(11))), "the second, then the first");
}
