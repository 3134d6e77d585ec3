//! Turns on a server that is held: requests that were read already, and replies that are taken in a row.
ghost use Rattle.std.specs.Prelude.{◌≡◌};

use super::*;
use nbd_wire::Reply;
use server_core::SessionRefusal;
use server_lock::{Booked, turn_attach, turn_dispatch, turn_gone, turn_leave, turn_perform};

/// The WRITE, the READ, and the first bytes of a third request.
const SENT: &[u8; 80] =
    b"\x25\x60\x95\x13\x00\x00\x00\x01\x00\x00\x00\x00\x00\x00\x00\x01\x00\x00\x00\x00\x00\x00\x0f\xfc\x00\x00\x00\x04\xde\xad\xbe\xef\x25\x60\x95\x13\x00\x00\x00\x00\x00\x00\x00\x00\x00\x00\x00\x02\x00\x00\x00\x00\x00\x00\x0f\xfc\x00\x00\x00\x04\x25\x60\x95\x13\x00\x00\x00\x02\x00\x00\x00\x00\x00\x00\x00\x03\x00\x00\x00\x00";

type Disks<'a, L> = Booked<L, Flat<Heap<'a>>, Listed<Heap<'a>>>;

/// The server of a session whose window is 2, the pass that makes its turns, and the two ways of its client.
#[derive(Drop)]
pub(super) struct Unshared<'a, L: Ledger> {
    pub(super) disks: Disks<'a, L>,
    pub(super) pass: Pass<L>,
    reader: Wire<'a>,
    pub(super) replies: Text<'a>,
}

fn taken_apart<'a, L: Ledger>(one: Seated<'a, L>) -> Unshared<'a, L> {
    let Seated {
        shared,
        pass,
        held: _,
        reader,
        replies,
    } = one;
    Unshared {
        disks: shared.end(),
        pass,
        reader,
        replies,
    }
}

impl<'a, L: Ledger> Unshared<'a, L> {
    /// Whether the first session is opened.
    fn sits(&mut self) -> bool {
        turn_attach(&mut self.disks, &mut self.pass, 0) == Ok(FIRST)
    }

    fn seen(&self, turn: Turn<Heap<'a>>) -> Seen {
        let came = match turn {
            Turn::Going(arrival) => Came::Going(arrival),
            Turn::Held(request) => Came::Held(request.head().cookie),
            Turn::Ended => Came::Ended,
        };
        (came, self.pass.last())
    }

    /// Whether the next request is read and handed in, and that comes to this.
    fn reads(&mut self, seen: Seen) -> bool {
        let frame = self.reader.next();
        let turn = hand_in(&mut self.disks, &mut self.pass, FIRST, frame, &Still);
        self.seen(turn) == seen
    }

    /// Hands in the next request, where it was read already.
    fn read_ready(&mut self) -> Option<Seen> {
        let turn = read_ready(
            &mut self.disks,
            &mut self.pass,
            FIRST,
            &mut self.reader,
            &Still,
        );
        match turn {
            Some(turn) => Some(self.seen(turn)),
            None => None,
        }
    }

    /// The first request is read and handed in. The second was read with it, and what there is of the third isn't one.
    fn are_handed_in(&mut self) -> bool {
        self.reads(waits(1, 0))
            && self.reader.ready().len() == 1
            && self.read_ready() == Some(waits(0, 1))
            && self.read_ready() == None
    }

    /// Serves a request that waits. False where none does.
    fn serve(&mut self) -> bool {
        match turn_dispatch(&mut self.disks, &mut self.pass, Still.now()) {
            Some(chosen) => {
                turn_perform(&mut self.disks, &mut self.pass, chosen.ticket) == Some(true)
            }
            None => false,
        }
    }

    /// Both requests are served.
    pub(super) fn serves_both(&mut self) -> bool {
        self.serve() && self.serve()
    }

    /// Nothing more arrives on the session.
    fn leave(&mut self) -> bool {
        turn_leave(&mut self.disks, &mut self.pass, FIRST).is_ok()
    }

    /// The session is dropped.
    fn close(&mut self) -> bool {
        turn_gone(&mut self.disks, &mut self.pass, FIRST).is_ok()
    }

    /// Whether a list with room for so many replies gets those of this text, and why no more.
    fn takes(&mut self, heap: Heap<'a>, room: usize, stop: Stop, text: &[u8]) -> bool {
        match Vec::with_capacity(heap, room) {
            Ok(mut replies) => {
                let stopped = take_replies(&mut self.disks, &mut self.pass, FIRST, &mut replies);
                (stopped == stop) & are_text(heap, &replies, text)
            }
            Err(_) => false,
        }
    }
}

fn are_put<'a>(replies: &[Reply<Heap<'a>>], writer: &mut Counted<Vec<u8, Heap<'a>>>) -> bool {
    for reply in replies {
        if put_reply(reply, writer).is_err() {
            return false;
        }
    }
    true
}

fn are_text<'a>(heap: Heap<'a>, replies: &[Reply<Heap<'a>>], text: &[u8]) -> bool {
    let mut writer = Counted::new(Vec::new(heap));
    let put = are_put(replies, &mut writer);
    put & (writer.into_inner().as_slice() == text)
}

/// What becomes of both requests, once they are handed in.
#[derive(Clone, Copy)]
enum Both {
    /// They are left so.
    HandedIn,
    /// Their replies are taken in a row.
    Taken,
    /// Their replies are written, in the order in which they were taken.
    Written,
    /// They are written, one of them made ready.
    MadeReady,
}

fn holds<'a, L: Ledger>(heap: Heap<'a>, one: &mut Unshared<'a, L>, both: Both) -> bool {
    match both {
        Both::HandedIn => true,
        Both::Taken => are_taken(heap, one) && none_is_taken(heap, one),
        Both::Written => writing::in_order(one),
        Both::MadeReady => writing::ready_first(heap, one),
    }
}

/// Whether two requests of a session are handed in, all comes out so, and the client is written its text.
fn comes_out_held<'a, L: Ledger>(
    heap: Heap<'a>,
    blank: Blank,
    text: &'static [u8],
    both: Both,
) -> bool
    requires name { blank.name ≡ L.name }
    requires parts { blank.parts ≡ L.parts }
    requires one { blank.parts ≡ 1 }
{
    let client = Client {
        window: 2,
        row: 3,
        text,
        ..client_of(SENT.as_slice())
    };
    match seat_of::<L>(heap, blank, client) {
        Some(seated) => {
            let mut one = taken_apart(seated);
            let went = one.sits() && one.are_handed_in() && holds(heap, &mut one, both);
            let Unshared { replies, .. } = one;
            went & is_text(replies, client)
        }
        None => false,
    }
}

#[test]
fn what_was_read_is_handed_in(rt: HostRuntime) {
    let heap = Refusing::new(rt.alloc(), 0);
    assert!(rt; comes_out_held::<Brand>(&heap, Blank::new(1), b"", Both::HandedIn));
}

/// The reply to the WRITE.
const OF_WRITE: &[u8; 16] = b"\x67\x44\x66\x98\x00\x00\x00\x00\x00\x00\x00\x00\x00\x00\x00\x01";

/// And that to the READ.
const OF_READ: &[u8; 20] =
    b"\x67\x44\x66\x98\x00\x00\x00\x00\x00\x00\x00\x00\x00\x00\x00\x02\xde\xad\xbe\xef";

/// Both requests are served, and both replies are taken.
fn are_taken<'a, L: Ledger>(heap: Heap<'a>, one: &mut Unshared<'a, L>) -> bool {
    one.serves_both()
        && one.takes(heap, 1, Stop::Full, OF_WRITE.as_slice())
        && one.takes(heap, 3, Stop::Empty, OF_READ.as_slice())
}

/// Then none is, until the session has left and is dropped.
fn none_is_taken<'a, L: Ledger>(heap: Heap<'a>, one: &mut Unshared<'a, L>) -> bool {
    one.leave()
        && one.takes(heap, 3, Stop::End, b"")
        && one.close()
        && one.takes(heap, 3, Stop::Refused(SessionRefusal::NotOpen), b"")
}

#[test]
fn replies_are_taken_in_a_row(rt: HostRuntime) {
    let heap = Refusing::new(rt.alloc(), 0);
    assert!(rt; comes_out_held::<Brand>(&heap, Blank::new(1), b"", Both::Taken));
}

/// Whether both replies are written, and what was written is this text.
pub(super) fn writes<'a, L: Ledger>(
    heap: Heap<'a>,
    blank: Blank,
    is_ready: bool,
    text: &'static [u8],
) -> bool
    requires name { blank.name ≡ L.name }
    requires parts { blank.parts ≡ L.parts }
    requires one { blank.parts ≡ 1 }
{
    let both = if is_ready {
        Both::MadeReady
    } else {
        Both::Written
    };
    comes_out_held::<L>(heap, blank, text, both)
}
