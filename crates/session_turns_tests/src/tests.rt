//! The turns of a session over memory, by one thread, and the door that it comes in by.
ghost use Rattle.std.specs.Prelude.{◌≡◌};

use eligibility::Listed;
use export_store::Flat;
use lone_export::Arrived;
use nbd_commands::{Config, ExportList, ExportSettings};
use nbd_session::{Entry, haggle, table_of};
use nbd_stream::{Buffered, Counted, FrameReader, put_reply};
use nbd_wire::{Request, RequestHead};
use refusing::Refusing;
use server_core::{Server, SessionId};
use server_lock::{AnswerTrace, EventTrace, Pass, Shared, Trace, settle};
use session_turns::*;
use std::alloc::Global;
use std::io;
use std::io::{Read, Write};
use std::marker::Brand;
use std::sync::Wait;
use std::sync::ledger::{Blank, Ledger};
use tag_clock::{Clock, Moment};

mod ending;
mod entering;
mod going;
mod held;
mod writing;

type Heap<'a> = &'a Refusing<Global>;

type Tried<'a, L> = Shared<L, Flat<Heap<'a>>, Listed<Heap<'a>>>;

type Wire<'a> = FrameReader<Source, Heap<'a>>;

type Text<'a> = ReplyWriter<Sink<'a>, Heap<'a>>;

/// A WRITE of `deadbeef` at 4,092.
const WRITE: &[u8; 32] =
    b"\x25\x60\x95\x13\x00\x00\x00\x01\x00\x00\x00\x00\x00\x00\x00\x01\x00\x00\x00\x00\x00\x00\x0f\xfc\x00\x00\x00\x04\xde\xad\xbe\xef";

/// A READ of the same four bytes.
const READ: &[u8; 28] =
    b"\x25\x60\x95\x13\x00\x00\x00\x00\x00\x00\x00\x00\x00\x00\x00\x02\x00\x00\x00\x00\x00\x00\x0f\xfc\x00\x00\x00\x04";

/// The WRITE and then the READ.
const BOTH: &[u8; 60] =
    b"\x25\x60\x95\x13\x00\x00\x00\x01\x00\x00\x00\x00\x00\x00\x00\x01\x00\x00\x00\x00\x00\x00\x0f\xfc\x00\x00\x00\x04\xde\xad\xbe\xef\x25\x60\x95\x13\x00\x00\x00\x00\x00\x00\x00\x00\x00\x00\x00\x02\x00\x00\x00\x00\x00\x00\x0f\xfc\x00\x00\x00\x04";

/// The replies to the WRITE and then the READ.
const REPLIES: &[u8; 36] =
    b"\x67\x44\x66\x98\x00\x00\x00\x00\x00\x00\x00\x00\x00\x00\x00\x01\x67\x44\x66\x98\x00\x00\x00\x00\x00\x00\x00\x00\x00\x00\x00\x02\xde\xad\xbe\xef";

/// A clock that stands still at the fifth nanosecond.
#[derive(Drop)]
struct Still;

impl Clock for Still {
    fn now(&self) -> Moment {
        Moment::new(5).unwrap_or(Moment::zero())
    }
}

/// What a client sends and takes.
#[derive(Clone, Copy)]
struct Client {
    /// What it sends, and whether its connection fails then; else it ends.
    bytes: &'static [u8],
    fails: bool,
    /// How many requests of its session may be under way.
    window: u64,
    /// So many replies are taken at once.
    row: usize,
    /// So many bytes it takes, before a write fails.
    room: usize,
    /// What is written to it, as far as it takes that.
    text: &'static [u8],
}

/// A client that takes all, and is written nothing.
fn client_of(bytes: &'static [u8]) -> Client {
    Client {
        bytes,
        fails: false,
        window: 1,
        row: 1,
        room: usize::MAX,
        text: b"",
    }
}

/// Gives bytes, and then ends or fails.
#[derive(Drop)]
struct Source {
    bytes: &'static [u8],
    fails: bool,
}

impl Read for Source {
    fn read(&mut self, buf: &mut [u8]) -> io::Result<usize> {
        if self.fails && self.bytes.is_empty() {
            return Err(io::Error::from(io::ErrorKind::TimedOut));
        }
        let count = buf.len().min(self.bytes.len());
        buf[..count].copy_from_slice(&self.bytes[..count]);
        self.bytes = &self.bytes[count..];
        Ok(count)
    }
}

impl Buffered for Source {}

/// Takes so many bytes, and then fails.
#[derive(Drop)]
struct Sink<'a> {
    taken: Vec<u8, Heap<'a>>,
    room: usize,
}

impl Write for Sink<'_> {
    fn write(&mut self, buf: &[u8]) -> io::Result<usize> {
        let count = buf.len().min(self.room);
        if count == 0 {
            return Err(io::Error::from(io::ErrorKind::BrokenPipe));
        }
        self.taken.extend_from_slice(&buf[..count])?;
        self.room -= count;
        Ok(count)
    }

    fn flush(&mut self) -> io::Result<()> {
        Ok(())
    }
}

/// What a turn came to that hands a request in; one that is handed back is told by its cookie.
#[derive(PartialEq, Drop)]
enum Came {
    Going(Arrival),
    Held(u64),
    Ended,
}

/// What a turn came to, and the pass's latest turn of the server.
type Seen = (Came, Option<Trace>);

type Put = (WriteTurn, Option<Trace>);

const LEAVE: EventTrace = EventTrace::Leave {
    export: 0,
    session: 0,
};

const TAKE: EventTrace = EventTrace::Take {
    export: 0,
    session: 0,
};

const GONE: EventTrace = EventTrace::Gone {
    export: 0,
    session: 0,
};

/// The first session of the export.
const FIRST: SessionId = SessionId {
    export: 0,
    number: 0,
};

/// A session of an export of 4,096 bytes, the pass that makes its turns, and the two ways of its client.
#[derive(Drop)]
struct Seated<'a, L: Ledger> {
    shared: Tried<'a, L>,
    pass: Pass<L>,
    held: Option<Request<Heap<'a>>>,
    reader: Wire<'a>,
    replies: Text<'a>,
}

type Disk<'a> = Server<Flat<Heap<'a>>, Listed<Heap<'a>>>;

/// An export of 4,096 bytes, and how many requests of a session may be under way.
fn config_of(heap: Heap<'_>, window: u64) -> Option<Config<Heap<'_>>> {
    let mut settings = ExportSettings::new(b"a", 4096);
    settings.window = window;
    let mut list = ExportList::new(heap);
    if list.add(&settings).is_err() {
        return None;
    }
    Config::new(list, 32).ok()
}

fn server_of(heap: Heap<'_>, window: u64) -> Option<Disk<'_>> {
    match config_of(heap, window) {
        Some(config) => Server::new(heap, &config).ok(),
        None => None,
    }
}

/// A server that threads may share, and the only pass.
fn shared_of<'a, L: Ledger>(
    heap: Heap<'a>,
    window: u64,
    blank: Blank,
) -> Option<(Tried<'a, L>, Pass<L>)>
    requires name { blank.name ≡ L.name }
    requires parts { blank.parts ≡ L.parts }
    requires one { blank.parts ≡ 1 }
{
    let Some(server) = server_of(heap, window) else {
        return None;
    };
    let Ok((shared, mut passes)) = Tried::<'a, L>::new(heap, server, blank, 1) else {
        return None;
    };
    match passes.pop() {
        Some(pass) => Some((shared, pass)),
        None => None,
    }
}

fn replies_of<'a>(heap: Heap<'a>, client: Client) -> Option<Text<'a>> {
    let sink = Sink {
        taken: Vec::new(heap),
        room: client.room,
    };
    ReplyWriter::new(heap, sink, client.row).ok()
}

fn seat_of<'a, L: Ledger>(heap: Heap<'a>, blank: Blank, client: Client) -> Option<Seated<'a, L>>
    requires name { blank.name ≡ L.name }
    requires parts { blank.parts ≡ L.parts }
    requires one { blank.parts ≡ 1 }
{
    let Some(replies) = replies_of(heap, client) else {
        return None;
    };
    match shared_of::<L>(heap, client.window, blank) {
        Some((shared, pass)) => Some(Seated {
            shared,
            pass,
            held: None,
            reader: reader_of(heap, client),
            replies,
        }),
        None => None,
    }
}

fn reader_of<'a>(heap: Heap<'a>, client: Client) -> Wire<'a> {
    let source = Source {
        bytes: client.bytes,
        fails: client.fails,
    };
    FrameReader::new(heap, Counted::new(source))
}

impl<'a, L: Ledger> Seated<'a, L> {
    /// Whether the first session is opened.
    fn sits<R: Wait>(&mut self, rt: &R) -> bool {
        self.shared.turn_attach(rt, &mut self.pass, 0) == Ok(FIRST)
    }

    fn seen(&mut self, turn: Turn<Heap<'a>>) -> Seen {
        let came = match turn {
            Turn::Going(arrival) => Came::Going(arrival),
            Turn::Held(request) => {
                let cookie = request.head().cookie;
                self.held = Some(request);
                Came::Held(cookie)
            }
            Turn::Ended => Came::Ended,
        };
        (came, self.pass.last())
    }

    fn read<R: Wait>(&mut self, rt: &R) -> Seen {
        let turn = read_turn(
            rt,
            &self.shared,
            &mut self.pass,
            FIRST,
            &mut self.reader,
            &Still,
        );
        self.seen(turn)
    }

    /// Whether a turn comes to this.
    fn reads<R: Wait>(&mut self, rt: &R, seen: Seen) -> bool {
        self.read(rt) == seen
    }

    /// Whether the session has left, and a turn of its reader tells this.
    fn ends<R: Wait>(&mut self, rt: &R, answer: AnswerTrace) -> bool {
        self.reads(rt, (Came::Ended, traced(LEAVE, answer)))
    }

    /// Whether a turn of its writer comes to this.
    fn writes<R: Wait>(
        &mut self,
        rt: &R,
        turn: WriteTurn,
        event: EventTrace,
        answer: AnswerTrace,
    ) -> bool {
        let put = write_turn(rt, &self.shared, &mut self.pass, FIRST, &mut self.replies);
        (put, self.pass.last()) == (turn, traced(event, answer))
    }

    /// Whether the request that was handed back is offered again, and that comes to this.
    fn offers<R: Wait>(&mut self, rt: &R, seen: Seen) -> bool {
        match self.held.take() {
            Some(request) => self.offer(rt, request) == seen,
            None => false,
        }
    }

    fn offer<R: Wait>(&mut self, rt: &R, request: Request<Heap<'a>>) -> Seen {
        let turn = offer(rt, &self.shared, &mut self.pass, FIRST, request, &Still);
        self.seen(turn)
    }

    /// Serves the request that waits. False where none does.
    fn serve<R: Wait>(&mut self, rt: &R) -> bool {
        match self.shared.turn_dispatch(rt, &mut self.pass, Still.now()) {
            Some(chosen) => {
                self.shared.turn_perform(rt, &mut self.pass, chosen.ticket) == Some(true)
            }
            None => false,
        }
    }

    /// The session is gone by another's turn.
    fn is_gone<R: Wait>(&mut self, rt: &R) -> bool {
        self.shared.turn_gone(rt, &mut self.pass, FIRST).is_ok()
    }

    fn into_replies(self) -> Text<'a> {
        let Seated { replies, .. } = self;
        replies
    }
}

/// What the turns of a session are to come to.
#[derive(Clone, Copy)]
enum Trial {
    /// The READ is held, and the session then gone by another's turn.
    GoneWhileHeld,
    /// A request is answered with EINVAL.
    IsAnswered,
    /// The session leaves at its reader's first turn. The growth of this number is refused, or none at 0.
    Leaves(u64),
    /// A reply's write fails.
    Fails,
}

impl Trial {
    fn holds<'a, L: Ledger, R: Wait>(
        self,
        rt: &R,
        heap: Heap<'a>,
        one: &mut Seated<'a, L>,
    ) -> bool {
        match self {
            Trial::GoneWhileHeld => going::it_is_gone(rt, one),
            Trial::IsAnswered => going::is_answered(rt, one),
            Trial::Leaves(nth) => ending::is_left(rt, heap, one, nth),
            Trial::Fails => ending::is_dropped(rt, one),
        }
    }
}

/// Whether what was written is the client's text, as far as it took that, and one write failed where it didn't take all.
fn is_text(replies: Text<'_>, client: Client) -> bool {
    let writer = replies.into_writer();
    let failures = writer.failures();
    let Sink { taken, .. } = writer.into_inner();
    let end = client.room.min(client.text.len());
    let cut = (end < client.text.len()) as u64;
    (failures == cut) & (client.text.get(..end) == Some(taken.as_slice()))
}

/// Whether a client's session comes out so, and the client is written its text.
fn comes_out<'a, L: Ledger, R: Wait>(
    rt: &R,
    heap: Heap<'a>,
    blank: Blank,
    client: Client,
    trial: Trial,
) -> bool
    requires name { blank.name ≡ L.name }
    requires parts { blank.parts ≡ L.parts }
    requires one { blank.parts ≡ 1 }
{
    match seat_of::<L>(heap, blank, client) {
        Some(mut one) => {
            let held = one.sits(rt) && trial.holds(rt, heap, &mut one);
            held & is_text(one.into_replies(), client)
        }
        None => false,
    }
}

fn traced(event: EventTrace, answer: AnswerTrace) -> Option<Trace> {
    Some(Trace { event, answer })
}

/// A reply without an error.
fn reply(cookie: u64) -> AnswerTrace {
    AnswerTrace::Reply { error: 0, cookie }
}

/// A request of this kind at four bytes from 4,092.
fn head_of(kind: u16) -> RequestHead {
    RequestHead {
        flags: 0,
        kind,
        cookie: if kind == 1 { 1 } else { 2 },
        offset: 4092,
        length: 4,
    }
}

/// The session arrives with this request at the clock's moment.
fn arrival(head: RequestHead, answer: AnswerTrace) -> Option<Trace> {
    let event = EventTrace::Arrive {
        export: 0,
        session: 0,
        moment: Still.now(),
        head,
    };
    traced(event, answer)
}

/// The request of this kind was handed in, and waits with this number.
fn waits(kind: u16, number: u64) -> Seen {
    let answer = Arrived::Accepted {
        number,
        limit_tag: 5,
    };
    let told = AnswerTrace::Accepted {
        number,
        limit_tag: 5,
    };
    let head = head_of(kind);
    (Came::Going(Arrival { head, answer }), arrival(head, told))
}
