//! How sessions end.
ghost use Rattle.std.specs.Prelude.{◌≡◌};

use super::*;

/// A READ's reply with four bytes of zeros.
const ZEROS_READ: &[u8; 20] =
    b"\x67\x44\x66\x98\x00\x00\x00\x00\x00\x00\x00\x00\x00\x00\x00\x02\x00\x00\x00\x00";

/// What is long enough for a request, and none.
const ZEROS: &[u8; 28] =
    b"\x00\x00\x00\x00\x00\x00\x00\x00\x00\x00\x00\x00\x00\x00\x00\x00\x00\x00\x00\x00\x00\x00\x00\x00\x00\x00\x00\x00";

/// A WRITE of one byte more than is allowed.
const TOO_LONG: &[u8; 28] =
    b"\x25\x60\x95\x13\x00\x00\x00\x01\x00\x00\x00\x00\x00\x00\x00\x01\x00\x00\x00\x00\x00\x00\x00\x00\x02\x00\x00\x01";

const DISC: &[u8; 28] =
    b"\x25\x60\x95\x13\x00\x00\x00\x02\x00\x00\x00\x00\x00\x00\x00\x03\x00\x00\x00\x00\x00\x00\x00\x00\x00\x00\x00\x00";

/// The session has left at its reader's turn, and its writer drops it.
fn has_left<'a, L: Ledger, R: Wait>(rt: &R, one: &mut Seated<'a, L>, turn: Seen) -> bool {
    turn == (Came::Ended, traced(LEAVE, AnswerTrace::Left))
        && one.ends(rt, AnswerTrace::NotOpen)
        && one.writes(rt, WriteTurn::Ended, GONE, AnswerTrace::Dropped)
}

/// Whether the session leaves at its reader's first turn, and its writer drops it. Where the growth that is refused isn't
/// come to, the WRITE is taken in.
pub(super) fn is_left<'a, L: Ledger, R: Wait>(
    rt: &R,
    heap: Heap<'a>,
    one: &mut Seated<'a, L>,
    nth: u64,
) -> bool {
    heap.arm(nth);
    let turn = one.read(rt);
    if heap.is_armed() {
        turn == waits(1, 0)
    } else {
        has_left(rt, one, turn)
    }
}

#[test]
fn what_is_no_request_leaves(rt: HostRuntime) {
    let heap = Refusing::new(rt.alloc(), 0);
    for (bytes, fails, what) in [
        (b"".as_slice(), false, "over"),
        (&READ[..27], false, "cut"),
        (&WRITE[..31], false, "cut payload"),
        (ZEROS, false, "bad magic"),
        (TOO_LONG, false, "too long"),
        (DISC, false, "disc"),
        (b"", true, "failed read"),
        (&WRITE[..31], true, "failed read in a payload"),
    ] {
        let client = Client {
            fails,
            ..client_of(bytes)
        };
        assert!(rt;
            comes_out::<Brand, _>(&rt, &heap, Blank::new(1), client, Trial::Leaves(0)),
            "{what}"
        );
    }
}

#[test]
fn refused_memory_leaves(rt: HostRuntime) {
    let client = client_of(WRITE.as_slice());
    let mut refused = 0u64;
    for nth in 1..100u64 {
        let heap = Refusing::new(rt.alloc(), 0);
        assert!(rt;
            comes_out::<Brand, _>(&rt, &heap, Blank::new(1), client, Trial::Leaves(nth)),
            "at {nth}"
        );
        if heap.is_armed() {
            break;
        }
        refused = nth;
    }
    assert!(rt; refused > 0);
}

/// The client's READ is taken in and served. Its reply's write fails, and the session is dropped for both sides.
pub(super) fn is_dropped<'a, L: Ledger, R: Wait>(rt: &R, one: &mut Seated<'a, L>) -> bool {
    one.reads(rt, waits(0, 0))
        && one.serve(rt)
        && one.writes(rt, WriteTurn::Ended, GONE, AnswerTrace::Dropped)
        && one.writes(rt, WriteTurn::Ended, GONE, AnswerTrace::NotOpen)
        && one.ends(rt, AnswerTrace::NotOpen)
}

#[test]
fn each_write_fails(rt: HostRuntime) {
    let heap = Refusing::new(rt.alloc(), 0);
    for room in 0..20usize {
        let client = Client {
            room,
            text: ZEROS_READ.as_slice(),
            ..client_of(READ.as_slice())
        };
        assert!(rt;
            comes_out::<Brand, _>(&rt, &heap, Blank::new(1), client, Trial::Fails),
            "at {room}"
        );
    }
}
