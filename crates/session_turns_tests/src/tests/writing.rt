//! Replies that are taken and written: in the order in which they were taken, but for one that was made ready.
ghost use Rattle.std.specs.Prelude.{◌≡◌};

use super::held::{Unshared, writes};
use super::*;
use nbd_wire::Reply;

/// The replies to the READ and then the WRITE.
const TURNED_ROUND: &[u8; 36] =
    b"\x67\x44\x66\x98\x00\x00\x00\x00\x00\x00\x00\x00\x00\x00\x00\x02\xde\xad\xbe\xef\x67\x44\x66\x98\x00\x00\x00\x00\x00\x00\x00\x00\x00\x00\x00\x01";

/// Whether so many replies wait, with so many bytes of data, and so many with their heads.
fn has(replies: &Text<'_>, unwritten: usize, data: usize, bytes: usize) -> bool {
    replies.unwritten() == unwritten && replies.data() == data && replies.bytes() == bytes
}

/// One reply is taken.
fn takes_one<'a, L: Ledger>(one: &mut Unshared<'a, L>) -> bool {
    one.replies.take_one(&mut one.disks, &mut one.pass, FIRST) == Stop::Full
}

/// What there is besides is taken.
fn takes_all<'a, L: Ledger>(one: &mut Unshared<'a, L>) -> bool {
    one.replies.take(&mut one.disks, &mut one.pass, FIRST) == Stop::Empty
}

/// What waits is written and sent, and none waits.
fn go_out(replies: &mut Text<'_>) -> bool {
    replies.write().is_ok() && replies.unwritten() == 0 && replies.send().is_ok()
}

/// Both requests are served. One reply is taken, and then what there is besides. Both are written.
pub(super) fn in_order<'a, L: Ledger>(one: &mut Unshared<'a, L>) -> bool {
    one.serves_both()
        && takes_one(one)
        && has(&one.replies, 1, 0, 16)
        && takes_all(one)
        && has(&one.replies, 2, 4, 36)
        && go_out(&mut one.replies)
}

/// A reply made ready, in memory that has other bytes.
fn ready_of<'a>(heap: Heap<'a>, reply: Reply<Heap<'a>>) -> Option<ReadyReply<Heap<'a>>> {
    match Vec::from_array(heap, *b"old") {
        Ok(memory) => Some(ReadyReply::of(reply, memory, 4)),
        Err(_) => None,
    }
}

/// The READ's reply is made ready.
fn made_ready<'a, L: Ledger>(
    heap: Heap<'a>,
    one: &mut Unshared<'a, L>,
) -> Option<ReadyReply<Heap<'a>>> {
    match take_reply(&mut one.disks, &mut one.pass, FIRST) {
        Ok(reply) => ready_of(heap, reply),
        Err(_) => None,
    }
}

/// It is written.
fn goes_first<'a, L: Ledger>(heap: Heap<'a>, one: &mut Unshared<'a, L>) -> bool {
    match made_ready(heap, one) {
        Some(ready) => (ready.data() == 4) & one.replies.write_ready(&ready).is_ok(),
        None => false,
    }
}

/// Both requests are served. The READ's reply goes before the WRITE's, which was taken first and waits.
pub(super) fn ready_first<'a, L: Ledger>(heap: Heap<'a>, one: &mut Unshared<'a, L>) -> bool {
    one.serves_both() && takes_one(one) && goes_first(heap, one) && go_out(&mut one.replies)
}

#[test]
fn replies_are_written_in_order(rt: HostRuntime) {
    let heap = Refusing::new(rt.alloc(), 0);
    assert!(rt; writes::<Brand>(&heap, Blank::new(1), false, REPLIES.as_slice()));
    assert!(rt; writes::<Brand>(&heap, Blank::new(1), true, TURNED_ROUND.as_slice()));
}
