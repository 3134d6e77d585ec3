//! One conversation, cut at each of its places, and with each read, write and growth failing in
//! turn; and so one script.

use super::scripts::{Command, every_write_fails, run, went};
use super::streams::{Sink, Source, beginning};
use nbd_commands::{Config, ExportList, ExportSettings};
use nbd_scripts::Outcome;
use nbd_session::{End, TalkFault, talk};
use nbd_stream::Counted;
use refusing::Refusing;
use std::alloc::{Allocator, Global};
use std::io;

/// The client's flags, EXPORT_NAME, a WRITE and a READ of the same four bytes, and DISC.
pub const SENT: &[u8; 109] =
    b"\x00\x00\x00\x03\x49\x48\x41\x56\x45\x4f\x50\x54\x00\x00\x00\x01\x00\x00\x00\x01\x61\x25\x60\x95\x13\x00\x00\x00\x01\x00\x00\x00\x00\x00\x00\x00\x01\x00\x00\x00\x00\x00\x00\x0f\xfc\x00\x00\x00\x04\xde\xad\xbe\xef\x25\x60\x95\x13\x00\x00\x00\x00\x00\x00\x00\x00\x00\x00\x00\x02\x00\x00\x00\x00\x00\x00\x0f\xfc\x00\x00\x00\x04\x25\x60\x95\x13\x00\x00\x00\x02\x00\x00\x00\x00\x00\x00\x00\x03\x00\x00\x00\x00\x00\x00\x00\x00\x00\x00\x00\x00";

/// The greeting, the answer to EXPORT_NAME, and two replies.
pub const SAID: &[u8; 64] =
    b"\x4e\x42\x44\x4d\x41\x47\x49\x43\x49\x48\x41\x56\x45\x4f\x50\x54\x00\x03\x00\x00\x00\x00\x00\x00\x10\x00\x05\x6d\x67\x44\x66\x98\x00\x00\x00\x00\x00\x00\x00\x00\x00\x00\x00\x01\x67\x44\x66\x98\x00\x00\x00\x00\x00\x00\x00\x00\x00\x00\x00\x02\xde\xad\xbe\xef";

/// The same as a script.
const SCRIPT: &[u8] =
    b"export a size=4096\n---\n00000003 49484156454f5054 00000001 00000001 61\n25609513 0000 0001 0000000000000001 0000000000000ffc 00000004 deadbeef\n25609513 0000 0000 0000000000000002 0000000000000ffc 00000004\n25609513 0000 0002 0000000000000003 0000000000000000 00000000\n";

/// What the program writes for it.
const PRINTED: &[u8] =
    b"4e42444d4147494349484156454f5054\n00030000000000001000056d67446698\n00000000000000000000000167446698\n000000000000000000000002deadbeef\nend disc\n";

/// A configuration of an export of 4,096 bytes.
pub fn configured<A: Allocator + Copy>(alloc: A) -> Option<Config<A>> {
    let mut exports = ExportList::new(alloc);
    if exports.add(&ExportSettings::new(b"a", 4096)).is_err() {
        return None;
    }
    Config::new(exports, 32).ok()
}

/// Whether the conversation over this reader, with a writer that takes so many bytes, goes so, and
/// this is what is said.
pub fn is_held(
    alloc: Global,
    config: &Config<Global>,
    source: Source<'_>,
    room: usize,
    end: Result<End, TalkFault>,
    said: &[u8],
) -> bool {
    let sink = Sink::new(alloc, room, usize::MAX, io::ErrorKind::BrokenPipe);
    let mut writer = Counted::new(sink);
    let went = talk(alloc, config, &mut Counted::new(source), &mut writer);
    went == end && writer.into_inner().has(said)
}

/// The first bytes, behind which the reader ends or fails.
fn first(count: usize, fault: Option<io::ErrorKind>) -> Source<'static> {
    Source {
        bytes: beginning(SENT, count),
        most: usize::MAX,
        fault,
    }
}

/// How the first bytes end, where no call fails.
fn end_of(count: usize) -> End {
    match count {
        0 | 4 | 21 | 53 | 81 => End::Over,
        109 => End::Disc,
        _ => End::Cut,
    }
}

/// What is said to the first bytes.
fn said_to(count: usize) -> &'static [u8] {
    match count {
        0..=20 => beginning(SAID, 18),
        21..=52 => beginning(SAID, 28),
        53..=80 => beginning(SAID, 44),
        _ => SAID,
    }
}

fn is_cut_well(alloc: Global, config: &Config<Global>, count: usize) -> bool {
    let end = Ok(end_of(count));
    is_held(alloc, config, first(count, None), 1000, end, said_to(count))
}

#[test]
fn cut_at_each_byte(rt: HostRuntime) {
    let config = configured(rt.alloc()).expect(&rt, "a configuration");
    for count in 0..110usize {
        assert!(rt; is_cut_well(rt.alloc(), &config, count), "at {count}");
    }
}

fn fails_to_read(alloc: Global, config: &Config<Global>, count: usize) -> bool {
    let source = first(count, Some(io::ErrorKind::TimedOut));
    let end = Err(TalkFault::ReadFailed);
    is_held(alloc, config, source, 1000, end, said_to(count))
}

#[test]
fn each_read_fails(rt: HostRuntime) {
    let config = configured(rt.alloc()).expect(&rt, "a configuration");
    for count in 0..109usize {
        assert!(rt; fails_to_read(rt.alloc(), &config, count), "at {count}");
    }
}

fn fails_to_write(alloc: Global, config: &Config<Global>, room: usize) -> bool {
    let end = Err(TalkFault::WriteFailed);
    is_held(
        alloc,
        config,
        first(109, None),
        room,
        end,
        beginning(SAID, room),
    )
}

#[test]
fn each_write_fails(rt: HostRuntime) {
    let config = configured(rt.alloc()).expect(&rt, "a configuration");
    for room in 0..64usize {
        assert!(rt; fails_to_write(rt.alloc(), &config, room), "at {room}");
    }
}

/// How the whole conversation goes where that growth is refused, and what is said.
fn held_without<'a>(
    alloc: Global,
    heap: &'a Refusing<Global>,
    config: &Config<&'a Refusing<Global>>,
    nth: u64,
) -> (Result<End, TalkFault>, Vec<u8>) {
    let mut writer = Counted::new(Vec::new(alloc));
    heap.arm(nth);
    let end = talk(
        heap,
        config,
        &mut Counted::new(SENT.as_slice()),
        &mut writer,
    );
    (end, writer.into_inner())
}

/// Whether it goes well, or is ended by want of memory.
fn is_held_without(alloc: Global, heap: &Refusing<Global>, nth: u64) -> bool {
    let Some(config) = configured(heap) else {
        return false;
    };
    let (end, said) = held_without(alloc, heap, &config, nth);
    if heap.is_armed() {
        end == Ok(End::Disc) && said.as_slice() == SAID.as_slice()
    } else {
        end == Err(TalkFault::NoMemory) && SAID.starts_with(&said)
    }
}

#[test]
fn each_growth_is_refused(rt: HostRuntime) {
    let mut refused = 0u64;
    for nth in 1..100u64 {
        let heap = Refusing::new(rt.alloc(), 0);
        assert!(rt; is_held_without(rt.alloc(), &heap, nth), "at {nth}");
        if heap.is_armed() {
            break;
        }
        refused = nth;
    }
    assert!(rt; refused > 0);
}

/// Whether nothing is written where the script's first bytes are read, and the next read fails.
fn reads_in_vain(alloc: Global, count: usize) -> bool {
    let mut input = Counted::new(Source {
        bytes: beginning(SCRIPT, count),
        most: usize::MAX,
        fault: Some(io::ErrorKind::TimedOut),
    });
    let mut output = Counted::new(Vec::new(alloc));
    let outcome = run(Command::Talk, alloc, &mut input, &mut output);
    let counted = input.failures() == 1 && output.failures() == 0;
    outcome == Outcome::ReadFailed && counted && output.into_inner().is_empty()
}

#[test]
fn each_read_of_a_script_fails(rt: HostRuntime) {
    for count in 0..SCRIPT.len() {
        assert!(rt; reads_in_vain(rt.alloc(), count), "at {count}");
    }
}

/// Whether each write for the conversation of a script fails in turn.
fn fails_to_tell(alloc: Global, script: &[u8], written: &[u8]) -> bool {
    every_write_fails(Command::Talk, alloc, script, usize::MAX, written)
}

#[test]
fn each_write_for_a_script_fails(rt: HostRuntime) {
    let alloc = rt.alloc();
    assert!(rt; fails_to_tell(alloc, SCRIPT, PRINTED));
    assert!(rt; fails_to_tell(alloc, b"---\n", b"line 1 C3\n"));
    assert!(rt; fails_to_tell(alloc, b"", b"line 1 refused\n"));
    let odd = b"export a size=1\n---\n0".as_slice();
    assert!(rt; fails_to_tell(alloc, odd, b"hex refused\n"));
}

/// How the script goes where that growth is refused. None where it goes neither as it does with
/// memory nor writes nothing.
fn outcome_without(
    alloc: Global,
    heap: &Refusing<Global>,
    script: &[u8],
    well: Outcome,
    written: &[u8],
) -> Option<Outcome> {
    let (outcome, output) = went(Command::Talk, alloc, heap, script);
    if outcome == well && output.as_slice() == written {
        return Some(well);
    }
    let refused = outcome == Outcome::NoMemory && output.is_empty() && !heap.is_armed();
    if refused { Some(outcome) } else { None }
}

/// The last growth without which there is not memory enough, once each was refused in turn. 0 where
/// the script goes wrong.
fn last_growth(alloc: Global, script: &[u8], well: Outcome, written: &[u8]) -> u64 {
    let mut refused = 0u64;
    for nth in 1..1000u64 {
        let heap = Refusing::new(alloc, nth);
        let Some(outcome) = outcome_without(alloc, &heap, script, well, written) else {
            return 0;
        };
        if heap.is_armed() {
            return refused;
        }
        // Collecting the fields of a line first asks for room that it can do without.
        if outcome == Outcome::NoMemory {
            refused = nth;
        }
    }
    0
}

#[test]
fn each_growth_for_a_script_is_refused(rt: HostRuntime) {
    let alloc = rt.alloc();
    assert!(rt; last_growth(alloc, SCRIPT, Outcome::Done, PRINTED) > 3);
    let twice = b"export a size=1 desc=d1\nexport a size=2\n---\n".as_slice();
    assert!(rt; last_growth(alloc, twice, Outcome::Refused, b"line 2 C4\n") > 3);
    let odd = b"export a size=1\n---\n0".as_slice();
    assert!(rt; last_growth(alloc, odd, Outcome::Refused, b"hex refused\n") > 3);
}
