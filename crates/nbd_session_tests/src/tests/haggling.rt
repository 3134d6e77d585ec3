//! Handshakes: at which options a session is asked for, and that each byte may be the last that is read or written.

use super::*;
use nbd_options::{Attach, Attached, ExportTable};

/// What is sent, and what is said to it.
type Said = (&'static [u8], &'static [u8]);

/// The client's flags, and the greeting, which is said before them.
const FLAGS: Said = (b"\0\0\0\x03", b"NBDMAGICIHAVEOPT\0\x03");

/// Options at which no session is asked for and behind which haggling goes on: LIST, LIST with data, INFO, GO whose name is
/// longer than its data, GO with a byte too many, GO and INFO of a name that isn't there, STARTTLS, and option 99 with data.
const OTHERS: [Said; 9] = [
    (
        b"IHAVEOPT\0\0\0\x03\0\0\0\0",
        b"\0\x03\xe8\x89\x04\x55\x65\xa9\0\0\0\x03\0\0\0\x02\0\0\0\x05\0\0\0\x01a\
\0\x03\xe8\x89\x04\x55\x65\xa9\0\0\0\x03\0\0\0\x01\0\0\0\0",
    ),
    (
        b"IHAVEOPT\0\0\0\x03\0\0\0\x01\0",
        b"\0\x03\xe8\x89\x04\x55\x65\xa9\0\0\0\x03\x80\0\0\x03\0\0\0\0",
    ),
    (
        b"IHAVEOPT\0\0\0\x06\0\0\0\x07\0\0\0\x01a\0\0",
        b"\0\x03\xe8\x89\x04\x55\x65\xa9\0\0\0\x06\0\0\0\x03\0\0\0\x0c\0\0\0\0\0\0\0\0\x10\0\x05\x6d\
\0\x03\xe8\x89\x04\x55\x65\xa9\0\0\0\x06\0\0\0\x01\0\0\0\0",
    ),
    (
        b"IHAVEOPT\0\0\0\x07\0\0\0\x06\xff\xff\xff\xff\0\0",
        b"\0\x03\xe8\x89\x04\x55\x65\xa9\0\0\0\x07\x80\0\0\x03\0\0\0\0",
    ),
    (
        b"IHAVEOPT\0\0\0\x07\0\0\0\x08\0\0\0\x01a\0\0\0",
        b"\0\x03\xe8\x89\x04\x55\x65\xa9\0\0\0\x07\x80\0\0\x03\0\0\0\0",
    ),
    (
        b"IHAVEOPT\0\0\0\x07\0\0\0\x07\0\0\0\x01z\0\0",
        b"\0\x03\xe8\x89\x04\x55\x65\xa9\0\0\0\x07\x80\0\0\x06\0\0\0\0",
    ),
    (
        b"IHAVEOPT\0\0\0\x06\0\0\0\x07\0\0\0\x01z\0\0",
        b"\0\x03\xe8\x89\x04\x55\x65\xa9\0\0\0\x06\x80\0\0\x06\0\0\0\0",
    ),
    (
        b"IHAVEOPT\0\0\0\x05\0\0\0\0",
        b"\0\x03\xe8\x89\x04\x55\x65\xa9\0\0\0\x05\x80\0\0\x01\0\0\0\0",
    ),
    (
        b"IHAVEOPT\0\0\0\x63\0\0\0\x02xy",
        b"\0\x03\xe8\x89\x04\x55\x65\xa9\0\0\0\x63\x80\0\0\x01\0\0\0\0",
    ),
];

/// GO of `a`, once a session is given.
const GO: Said = (
    b"IHAVEOPT\0\0\0\x07\0\0\0\x07\0\0\0\x01a\0\0",
    b"\0\x03\xe8\x89\x04\x55\x65\xa9\0\0\0\x07\0\0\0\x03\0\0\0\x0c\0\0\0\0\0\0\0\0\x10\0\x05\x6d\
\0\x03\xe8\x89\x04\x55\x65\xa9\0\0\0\x07\0\0\0\x01\0\0\0\0",
);

/// GO of `a`, all of whose sessions are taken: POLICY.
const FULL: Said = (
    b"IHAVEOPT\0\0\0\x07\0\0\0\x07\0\0\0\x01a\0\0",
    b"\0\x03\xe8\x89\x04\x55\x65\xa9\0\0\0\x07\x80\0\0\x02\0\0\0\0",
);

/// What ends a handshake without a session: the client's flags and an option, and how it ends.
const ENDS: [(Said, End); 3] = [
    (
        (
            b"IHAVEOPT\0\0\0\x02\0\0\0\0",
            b"\0\x03\xe8\x89\x04\x55\x65\xa9\0\0\0\x02\0\0\0\x01\0\0\0\0",
        ),
        End::Abort,
    ),
    ((b"IHAVEOPT\0\0\0\x01\0\0\0\x01z", b""), End::NoExport),
    (
        (b"IHAVEOPU\0\0\0\x07\0\0\0\x07\0\0\0\x01a\0\0", b""),
        End::BadMagic,
    ),
];

/// EXPORT_NAME of `a`.
const BY_NAME: Said = (
    b"IHAVEOPT\0\0\0\x01\0\0\0\x01a",
    b"\0\0\0\0\0\0\x10\0\x05\x6d",
);

/// Tells for so many times that all sessions are taken, and then gives them.
#[derive(Drop)]
struct Counts {
    full: u32,
    asked: u32,
}

impl Attach for Counts {
    ghost may = { λ _ _. Unit {0} };

    fn attach(&mut self, _: u32) -> Attached {
        self.asked = self.asked.saturating_add(1);
        if self.asked > self.full {
            Attached::Given
        } else {
            Attached::Full
        }
    }
}

/// Gives bytes, and then ends or fails.
#[derive(Drop)]
struct Source<'a> {
    bytes: &'a [u8],
    fails: bool,
}

impl Read for Source<'_> {
    fn read(&mut self, buf: &mut [u8]) -> io::Result<usize> {
        if self.fails && self.bytes.is_empty() {
            return Err(io::Error::from(io::ErrorKind::TimedOut));
        }
        let count = buf.len().min(self.bytes.len());
        buf[..count].copy_from_slice(&self.bytes[..count]);
        self.bytes = &self.bytes[count..];
        Ok(count)
    }
}

/// Takes so many bytes, and then fails.
#[derive(Drop)]
struct Sink {
    taken: Vec<u8>,
    room: usize,
}

impl Write for Sink {
    fn write(&mut self, buf: &[u8]) -> io::Result<usize> {
        let count = buf.len().min(self.room);
        if count == 0 {
            return Err(io::Error::from(io::ErrorKind::BrokenPipe));
        }
        self.taken.extend_from_slice(&buf[..count])?;
        self.room -= count;
        Ok(count)
    }

    fn flush(&mut self) -> io::Result<()> {
        Ok(())
    }
}

/// How a handshake goes, and how often a session is asked for.
type Ended = (Result<Entry, TalkFault>, u32);

/// Whether a handshake over this reader goes so, where so many sessions aren't given at first, and this is all that a writer
/// took which has room for so many bytes.
fn goes(
    alloc: Global,
    source: Source<'_>,
    room: usize,
    full: u32,
    ended: Ended,
    said: &[u8],
) -> bool {
    let mut table = ExportTable::new(alloc);
    if table.push(b"a", None, 4096, 0x056d).is_err() {
        return false;
    }
    let taken = Vec::new(alloc);
    let mut attach = Counts { full, asked: 0 };
    let mut writer = Counted::new(Sink { taken, room });
    let went = haggle(
        alloc,
        &table,
        &mut Counted::new(source),
        &mut writer,
        &mut attach,
    );
    let Sink { taken, .. } = writer.into_inner();
    (went, attach.asked) == ended && taken.as_slice() == said
}

/// The same where no call fails.
fn goes_well(alloc: Global, texts: Option<Texts>, full: u32, ended: Ended) -> bool {
    let Some(texts) = texts else {
        return false;
    };
    let source = Source {
        bytes: texts.sent.as_slice(),
        fails: false,
    };
    goes(alloc, source, 10_000, full, ended, texts.said.as_slice())
}

/// All that is sent, and all that is said.
#[derive(Drop)]
struct Texts {
    sent: Vec<u8>,
    said: Vec<u8>,
}

impl Texts {
    fn add(&mut self, more: &Said) -> bool {
        self.sent.extend_from_slice(more.0).is_ok() && self.said.extend_from_slice(more.1).is_ok()
    }

    /// Adds the options at which no session is asked for, from one of them on.
    fn add_others(&mut self, first: usize) -> bool {
        let (front, rest) = OTHERS.split_at(first.min(9));
        let mut well = true;
        for more in rest {
            well = well && self.add(more);
        }
        for more in front {
            well = well && self.add(more);
        }
        well
    }
}

/// The client's flags and one option.
fn one(alloc: Global, more: &Said) -> Option<Texts> {
    let mut texts = Texts {
        sent: Vec::new(alloc),
        said: Vec::new(alloc),
    };
    if texts.add(&FLAGS) && texts.add(more) {
        Some(texts)
    } else {
        None
    }
}

/// The client's flags, the options from one of them on, and GO.
fn whole(alloc: Global, first: usize) -> Option<Texts> {
    let Some(mut texts) = one(alloc, &(b"", b"")) else {
        return None;
    };
    if texts.add_others(first) && texts.add(&GO) {
        Some(texts)
    } else {
        None
    }
}

/// GO behind the options, and again behind them.
fn twice(alloc: Global) -> Option<Texts> {
    let Some(mut texts) = one(alloc, &(b"", b"")) else {
        return None;
    };
    let well = texts.add_others(0) && texts.add(&FULL);
    if well && texts.add_others(4) && texts.add(&GO) {
        Some(texts)
    } else {
        None
    }
}

#[test]
fn a_session_is_asked_for_at_go(rt: HostRuntime) {
    let alloc = rt.alloc();
    for first in 0..9usize {
        let ended = (Ok(Entry::In(0)), 1);
        assert!(rt;
            goes_well(alloc, whole(alloc, first), 0, ended),
            "from {first}"
        );
    }
    assert!(rt; goes_well(alloc, twice(alloc), 1, (Ok(Entry::In(0)), 2)));
}

#[test]
fn a_session_is_asked_for_by_name(rt: HostRuntime) {
    let alloc = rt.alloc();
    assert!(rt; goes_well(alloc, one(alloc, &BY_NAME), 0, (Ok(Entry::In(0)), 1)));
    let refused = one(alloc, &(BY_NAME.0, b""));
    assert!(rt; goes_well(alloc, refused, 1, (Ok(Entry::Refused), 1)));
}

#[test]
fn no_session_is_asked_for_elsewhere(rt: HostRuntime) {
    let alloc = rt.alloc();
    for more in &OTHERS {
        let ended = (Ok(Entry::Out(End::Over)), 0);
        assert!(rt; goes_well(alloc, one(alloc, more), 0, ended));
    }
    for (more, end) in &ENDS {
        let ended = (Ok(Entry::Out(*end)), 0);
        assert!(rt; goes_well(alloc, one(alloc, more), 0, ended));
    }
}

/// How many bytes are said to the first ones of the whole, and whether those end between two messages.
fn said_to(count: usize) -> (usize, bool) {
    let mut sent = FLAGS.0.len();
    let mut said = FLAGS.1.len();
    let mut between = count == 0 || count == sent;
    for (option, reply) in &OTHERS {
        sent = sent.saturating_add(option.len());
        if count >= sent {
            said = said.saturating_add(reply.len());
            between = between || count == sent;
        }
    }
    (said, between)
}

/// Whether the handshake ends well where its input ends behind so many bytes, and where a read fails there.
fn ends_behind(alloc: Global, texts: &Texts, count: usize) -> bool {
    let (said, between) = said_to(count);
    let bytes = texts.sent.as_slice().get(..count).unwrap_or_default();
    let said = texts.said.as_slice().get(..said).unwrap_or_default();
    let end = if between { End::Over } else { End::Cut };
    let ends = Source {
        bytes,
        fails: false,
    };
    let fails = Source { bytes, fails: true };
    goes(alloc, ends, 10_000, 0, (Ok(Entry::Out(end)), 0), said)
        && goes(
            alloc,
            fails,
            10_000,
            0,
            (Err(TalkFault::ReadFailed), 0),
            said,
        )
}

#[test]
fn each_byte_is_the_last_that_is_read(rt: HostRuntime) {
    let texts = whole(rt.alloc(), 0).expect(&rt, "memory");
    for count in 0..texts.sent.len() {
        assert!(rt; ends_behind(rt.alloc(), &texts, count), "at {count}");
    }
}

/// Whether the handshake ends where a write fails behind so many bytes: a session was asked for where that is GO's reply.
fn fails_behind(alloc: Global, texts: &Texts, room: usize) -> bool {
    let source = Source {
        bytes: texts.sent.as_slice(),
        fails: false,
    };
    let before = texts.said.len().saturating_sub(GO.1.len());
    let asked = if room < before { 0 } else { 1 };
    let said = texts.said.as_slice().get(..room).unwrap_or_default();
    goes(
        alloc,
        source,
        room,
        0,
        (Err(TalkFault::WriteFailed), asked),
        said,
    )
}

#[test]
fn each_byte_is_the_last_that_is_written(rt: HostRuntime) {
    let texts = whole(rt.alloc(), 0).expect(&rt, "memory");
    for room in 0..texts.said.len() {
        assert!(rt; fails_behind(rt.alloc(), &texts, room), "at {room}");
    }
}

/// Tells at first that all sessions are taken, and keeps which exports it was asked for.
#[derive(Drop)]
struct Keeps {
    full: usize,
    asked: Vec<u32>,
}

impl Attach for Keeps {
    ghost may = { λ _ _. Unit {0} };

    fn attach(&mut self, export: u32) -> Attached {
        if self.asked.push(export).is_err() {
            return Attached::Other;
        }
        if self.asked.len() > self.full {
            Attached::Given
        } else {
            Attached::Full
        }
    }
}

/// GO of `b`.
const GO_B: &[u8] = b"IHAVEOPT\0\0\0\x07\0\0\0\x07\0\0\0\x01b\0\0";

/// EXPORT_NAME of the empty name, which is that of `a`.
const UNNAMED: &[u8] = b"IHAVEOPT\0\0\0\x01\0\0\0\0";

/// Whether these are the exports that are asked for, in this order, where a client sends its flags and these options to a server of
/// `a` and `b` all of whose sessions are taken at first.
fn asks_for(alloc: Global, options: &[&[u8]], full: usize, exports: &[u32], entry: Entry) -> bool {
    let mut table = ExportTable::new(alloc);
    let mut sent = Vec::new(alloc);
    if table.push(b"a", None, 4096, 0x056d).is_err()
        || table.push(b"b", None, 8192, 0x056d).is_err()
        || sent.extend_from_slice(FLAGS.0).is_err()
    {
        return false;
    }
    for option in options {
        if sent.extend_from_slice(option).is_err() {
            return false;
        }
    }
    let asked = Vec::new(alloc);
    let mut attach = Keeps { full, asked };
    let mut reader = Counted::new(sent.as_slice());
    let mut writer = Counted::new(Vec::new(alloc));
    let went = haggle(alloc, &table, &mut reader, &mut writer, &mut attach);
    went == Ok(entry) && attach.asked.as_slice() == exports
}

#[test]
fn exports_are_asked_for_in_order(rt: HostRuntime) {
    let alloc = rt.alloc();
    let [list, listed, info, ..] = OTHERS;
    let many = [GO_B, list.0, GO.0, info.0, listed.0, GO_B, GO.0];
    assert!(rt; asks_for(alloc, &many, 2, &[1, 0, 1], Entry::In(1)));
    assert!(rt; asks_for(alloc, &many, 3, &[1, 0, 1, 0], Entry::In(0)));
    assert!(rt; asks_for(alloc, &many, 4, &[1, 0, 1, 0], Entry::Out(End::Over)));
    assert!(rt; asks_for(alloc, &[GO_B, UNNAMED], 1, &[1, 0], Entry::In(0)));
    assert!(rt; asks_for(alloc, &[GO_B, UNNAMED], 2, &[1, 0], Entry::Refused));
}
