//! Requests and replies that go on.
ghost use Rattle.std.specs.Prelude.{◌≡◌};

use super::*;

/// The READ is handed back, with the cookie 2.
fn held() -> Seen {
    (Came::Held(2), arrival(head_of(0), AnswerTrace::Hold))
}

/// The WRITE is taken in, and the READ handed back. No reply is there before the WRITE is served.
fn one_goes_in<'a, L: Ledger, R: Wait>(rt: &R, one: &mut Seated<'a, L>) -> bool {
    one.reads(rt, waits(1, 0))
        && one.reads(rt, held())
        && one.writes(rt, WriteTurn::Idle, TAKE, AnswerTrace::Empty)
}

/// The READ isn't taken in before the WRITE's reply is written.
fn the_other_goes_in<'a, L: Ledger, R: Wait>(rt: &R, one: &mut Seated<'a, L>) -> bool {
    one.serve(rt)
        && one.offers(rt, held())
        && one.writes(rt, WriteTurn::Written, TAKE, reply(1))
        && one.offers(rt, waits(0, 1))
}

/// The READ is served, and its reply is written. Then the input is over.
fn it_is_answered<'a, L: Ledger, R: Wait>(rt: &R, one: &mut Seated<'a, L>) -> bool {
    one.serve(rt)
        && one.writes(rt, WriteTurn::Written, TAKE, reply(2))
        && one.ends(rt, AnswerTrace::Left)
}

/// The session ends for both sides, and further turns find none.
fn it_ends<'a, L: Ledger, R: Wait>(rt: &R, one: &mut Seated<'a, L>) -> bool {
    one.writes(rt, WriteTurn::Ended, GONE, AnswerTrace::Dropped)
        && one.writes(rt, WriteTurn::Ended, TAKE, AnswerTrace::NotOpen)
        && one.ends(rt, AnswerTrace::NotOpen)
}

/// All that the client is told. The pass made 17 turns.
fn all_goes<'a, L: Ledger, R: Wait>(rt: &R, one: &mut Seated<'a, L>) -> bool {
    one_goes_in(rt, one)
        && the_other_goes_in(rt, one)
        && it_is_answered(rt, one)
        && it_ends(rt, one)
        && one.pass.turns() == 17
}

/// How many steps were counted.
fn steps_of<'a, L: Ledger>(heap: Heap<'a>, shared: Tried<'a, L>, pass: Pass<L>) -> Option<u128> {
    let mut passes = Vec::new(heap);
    if passes.push(pass).is_err() {
        return None;
    }
    let booked = shared.end();
    if passes.len() as u64 != booked.passes() {
        return None;
    }
    Some(settle(booked, passes))
}

/// Both replies were written, and 11 of the turns were steps.
fn are_counted<'a, L: Ledger>(heap: Heap<'a>, one: Seated<'a, L>, client: Client) -> bool {
    let Seated {
        shared,
        pass,
        replies,
        ..
    } = one;
    is_text(replies, client) & (steps_of(heap, shared, pass) == Some(11))
}

/// A request is held until the reply to the one before it is taken, and both go on to the end.
fn is_held<'a, L: Ledger, R: Wait>(rt: &R, heap: Heap<'a>, blank: Blank, client: Client) -> bool
    requires name { blank.name ≡ L.name }
    requires parts { blank.parts ≡ L.parts }
    requires one { blank.parts ≡ 1 }
{
    match seat_of::<L>(heap, blank, client) {
        Some(mut one) => {
            let went = one.sits(rt) && all_goes(rt, &mut one);
            went & are_counted(heap, one, client)
        }
        None => false,
    }
}

#[test]
fn held_until_a_reply_is_taken(rt: HostRuntime) {
    let heap = Refusing::new(rt.alloc(), 0);
    let client = Client {
        text: REPLIES.as_slice(),
        ..client_of(BOTH.as_slice())
    };
    assert!(rt; is_held::<Brand, _>(&rt, &heap, Blank::new(1), client));
}

/// The READ is held, and the session then gone by another's turn. Offered again it ends the reader, which has no more turns.
pub(super) fn it_is_gone<'a, L: Ledger, R: Wait>(rt: &R, one: &mut Seated<'a, L>) -> bool {
    one.reads(rt, waits(1, 0))
        && one.reads(rt, held())
        && one.is_gone(rt)
        && one.offers(rt, (Came::Ended, arrival(head_of(0), AnswerTrace::NotOpen)))
        && one.ends(rt, AnswerTrace::NotOpen)
        && one.serve(rt)
}

#[test]
fn gone_while_a_request_is_held(rt: HostRuntime) {
    let heap = Refusing::new(rt.alloc(), 0);
    let client = client_of(BOTH.as_slice());
    assert!(rt; comes_out::<Brand, _>(&rt, &heap, Blank::new(1), client, Trial::GoneWhileHeld));
}

/// A READ of four bytes behind the export's end, with the cookie 2.
const BEHIND: &[u8; 28] =
    b"\x25\x60\x95\x13\x00\x00\x00\x00\x00\x00\x00\x00\x00\x00\x00\x02\x00\x00\x00\x00\x00\x00\x10\x00\x00\x00\x00\x04";

/// It is handed in, and answered with EINVAL.
pub(super) fn is_answered<'a, L: Ledger, R: Wait>(rt: &R, one: &mut Seated<'a, L>) -> bool {
    let mut head = head_of(0);
    head.offset = 4096;
    let answer = Arrived::Answered(22);
    let told = arrival(head, AnswerTrace::Answered(22));
    one.reads(rt, (Came::Going(Arrival { head, answer }), told))
}

#[test]
fn an_error_is_told_at_once(rt: HostRuntime) {
    let heap = Refusing::new(rt.alloc(), 0);
    let client = client_of(BEHIND.as_slice());
    assert!(rt; comes_out::<Brand, _>(&rt, &heap, Blank::new(1), client, Trial::IsAnswered));
}

#[test]
fn what_waits_has_a_number(rt: HostRuntime) {
    let head = head_of(0);
    let answer = Arrived::Accepted {
        number: 7,
        limit_tag: 5,
    };
    assert!(rt; Arrival { head, answer }.number() == Some(7));
    let answer = Arrived::Answered(22);
    assert!(rt; Arrival { head, answer }.number() == None);
}
