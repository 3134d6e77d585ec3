//! Scripts that are refused, the first line that is, want of memory, and writes that fail.

use super::scripts::{Command, every_write_fails, goes, joined, repeated, went, write_fails};
use super::streams::{Sink, Source};
use nbd_base::NoMemory;
use nbd_scripts::{Outcome, read_whole, tell_text};
use nbd_stream::Counted;
use nbd_text::or_no_memory;
use refusing::Refusing;
use std::alloc::Global;
use std::io;
use std::io::Write;

/// Scripts that are refused, and the line that is written.
const REFUSALS: [(&str, &str); 37] = [
    ("", "line 1 refused\n"),
    ("---\n", "line 1 C3\n"),
    ("export a size=0\n---\n", "line 1 C5\n"),
    (
        "export a size=4096\n---\n0000000349484156454f50540000000100000001610g\n",
        "hex refused\n",
    ),
    ("export a size=4096\n---\n012\n", "hex refused\n"),
    (
        "export a size=1\n# again\nexport a size=2\n---\n",
        "line 3 C4\n",
    ),
    ("export a size=1 r=11 l=10\n---\n", "line 1 C9\n"),
    ("export a size=1 depth=0\n---\n", "line 1 C8\n"),
    ("export a size=1 size=1\n---\n", "line 1 refused\n"),
    (
        "export a size=18446744073709551616\n---\n",
        "line 1 refused\n",
    ),
    ("export a size=1\n\n", "line 2 refused\n"),
    ("# none\n\n---\n", "line 3 C3\n"),
    ("export a\n---\n", "line 1 refused\n"),
    ("export size=1\n---\n", "line 1 refused\n"),
    ("export a ro size=4096\n---\n", "line 1 refused\n"),
    ("export a size=1 speed=1\n---\n", "line 1 refused\n"),
    ("import a size=1\n---\n", "line 1 refused\n"),
    ("export a size=1 ro ro\n---\n", "line 1 refused\n"),
    ("export a size=\n---\n", "line 1 refused\n"),
    ("export a size=+1\n---\n", "line 1 refused\n"),
    ("export a size=0 ro ro\n---\n", "line 1 refused\n"),
    ("export a size=0\nexport\n---\n", "line 1 C5\n"),
    ("export a size=18446744073709551615\n---\n", "line 1 C5\n"),
    ("export a size=1099511627777\n---\n", "line 1 C5\n"),
    ("export a size=1 r=1000001\n---\n", "line 1 C6\n"),
    ("export a size=1 l=1000001\n---\n", "line 1 C6\n"),
    ("export a size=1 w=0\n---\n", "line 1 C7\n"),
    ("export a size=1 window=4097\n---\n", "line 1 C8\n"),
    (
        "export a size=1 depth=0 w=0 r=1000001\n---\n",
        "line 1 C6\n",
    ),
    ("export a size=1\nexport a size=0\n---\n", "line 2 C4\n"),
    ("inflight\n---\n", "line 1 refused\n"),
    ("inflight 1\ninflight 1\n---\n", "line 2 refused\n"),
    ("inflight 0\n---\n", "line 1 C8\n"),
    ("export a size=1\ninflight 4097\n---\n", "line 2 C8\n"),
    ("export a size=1\n--- \n", "line 2 refused\n"),
    ("export a size=1\n---\n00\x0c00\n", "hex refused\n"),
    ("export a size=1\n---\n---\n", "hex refused\n"),
];

/// A line behind a head of two lines, which is refused.
const REFUSED: [&str; 26] = [
    "attach",
    "attach 0 0",
    "attach 4294967296",
    "attach -1",
    "open 0",
    "dispatch",
    "dispatch 4611686018427387904",
    "perform 0",
    "perform 0 18446744073709551616",
    "take 0",
    "leave 0 x",
    "gone",
    "arrive 0 0 0 1 0 0 0",
    "arrive 0 0 4611686018427387904 1 0 0 0 4",
    "arrive 0 0 0 1 65536 0 0 4",
    "arrive 0 0 0 1 0 65536 0 4",
    "arrive 0 0 0 1 0 0 0 4294967296",
    "arrive 0 0 0 1 0 0 0 1 00",
    "arrive 0 0 0 1 1 0 0 1",
    "arrive 0 0 0 1 1 0 0 2 00",
    "arrive 0 0 0 1 1 0 0 1 0g",
    "arrive 0 0 0 1 1 0 0 1 00 00",
    "tags",
    "tags 0 0",
    "tags 4294967296",
    "tag 0",
];

/// The first of these scripts that isn't refused with this line.
fn first_taken(
    command: Command,
    alloc: Global,
    refusals: &[(&'static str, &'static str)],
) -> Option<&'static str> {
    for (script, line) in refusals {
        if !goes(
            command,
            alloc,
            script.as_bytes(),
            Outcome::Refused,
            line.as_bytes(),
        ) {
            return Some(script);
        }
    }
    None
}

#[test]
fn refusals(rt: HostRuntime) {
    let taken = first_taken(Command::Talk, rt.alloc(), &REFUSALS);
    assert!(rt; taken.is_none(), "{taken:?}");
}

/// So many exports, the lines behind them, how it goes, and all that is written.
type Count = (u32, &'static [u8], Outcome, &'static [u8]);

const COUNTS: [Count; 8] = [
    (
        64,
        b"---\n",
        Outcome::Done,
        b"4e42444d4147494349484156454f5054\n0003\nend over\n",
    ),
    (65, b"---\n", Outcome::Refused, b"line 66 C3\n"),
    (65, b"\n# more\n---\n", Outcome::Refused, b"line 68 C3\n"),
    (65, b"", Outcome::Refused, b"line 65 refused\n"),
    (
        64,
        b"export b size=0\n---\n",
        Outcome::Refused,
        b"line 65 C5\n",
    ),
    (
        65,
        b"export b size=0\n---\n",
        Outcome::Refused,
        b"line 66 C5\n",
    ),
    (
        65,
        b"export a64 size=1\n---\n",
        Outcome::Refused,
        b"line 66 C4\n",
    ),
    (65, b"inflight 0\n---\n", Outcome::Refused, b"line 66 C8\n"),
];

/// A script of so many exports, and these lines behind them.
fn with_exports(alloc: Global, count: u32, behind: &[u8]) -> Option<Vec<u8>> {
    let mut script = Vec::new(alloc);
    for number in 0..count {
        if writeln!(script, "export a{number} size=1").is_err() {
            return None;
        }
    }
    if script.extend_from_slice(behind).is_err() {
        return None;
    }
    Some(script)
}

fn counts(alloc: Global, row: &Count) -> bool {
    match with_exports(alloc, row.0, row.1) {
        Some(script) => goes(Command::Talk, alloc, &script, row.2, row.3),
        None => false,
    }
}

#[test]
fn numbers_of_exports(rt: HostRuntime) {
    for row in &COUNTS {
        assert!(rt; counts(rt.alloc(), row), "{} exports", row.0);
    }
}

/// A script of one export whose name and description have so many bytes.
fn with_texts(alloc: Global, name: u32, description: u32) -> Option<Vec<u8>> {
    let name = repeated(alloc, b"n", name)?;
    let description = repeated(alloc, b"d", description)?;
    let parts = [
        b"export ".as_slice(),
        name.as_slice(),
        b" size=1 desc=",
        description.as_slice(),
        b"\n---\n",
    ];
    joined(alloc, &parts)
}

/// Whether a name and a description of these lengths are taken.
fn are_taken(alloc: Global, name: u32, description: u32) -> bool {
    match with_texts(alloc, name, description) {
        Some(script) => went(Command::Talk, alloc, alloc, &script).0 == Outcome::Done,
        None => false,
    }
}

/// Whether they are refused.
fn are_refused(alloc: Global, name: u32, description: u32) -> bool {
    match with_texts(alloc, name, description) {
        Some(script) => {
            let refused = Outcome::Refused;
            goes(Command::Talk, alloc, &script, refused, b"line 1 C4\n")
        }
        None => false,
    }
}

#[test]
fn texts_of_the_greatest_length(rt: HostRuntime) {
    assert!(rt; are_taken(rt.alloc(), 255, 4096));
    assert!(rt; are_refused(rt.alloc(), 256, 1));
    assert!(rt; are_refused(rt.alloc(), 1, 4097));
}

/// Whether a line behind a head of two lines and a first line is refused.
fn is_refused(alloc: Global, line: &str) -> bool {
    let parts = [
        b"export a size=4096\n---\nattach 0\n".as_slice(),
        line.as_bytes(),
        b"\nattach\n",
    ];
    match joined(alloc, &parts) {
        Some(script) => {
            let refused = Outcome::Refused;
            goes(
                Command::Replay,
                alloc,
                &script,
                refused,
                b"line 4 refused\n",
            )
        }
        None => false,
    }
}

#[test]
fn lines_are_refused_before_the_first_step(rt: HostRuntime) {
    for line in &REFUSED {
        assert!(rt; is_refused(rt.alloc(), line), "{line}");
    }
}

/// Heads that are refused as in `talk`.
const HEADS: [(&str, &str); 4] = [
    ("", "line 1 refused\n"),
    ("---\nattach 0\n", "line 1 C3\n"),
    ("export a size=0\n---\nattach\n", "line 1 C5\n"),
    ("export a size=1\nattach 0\n", "line 2 refused\n"),
];

#[test]
fn heads_are_refused_as_in_talk(rt: HostRuntime) {
    let taken = first_taken(Command::Replay, rt.alloc(), &HEADS);
    assert!(rt; taken.is_none(), "{taken:?}");
}

/// Whether a text is written, and its outcome stays.
fn is_told(alloc: Global) -> bool {
    let mut output = Counted::new(Vec::new(alloc));
    let outcome = tell_text(b"hex refused\n", Outcome::Refused, &mut output);
    outcome == Outcome::Refused && output.into_inner().as_slice() == b"hex refused\n".as_slice()
}

#[test]
fn what_a_write_comes_to(rt: HostRuntime) {
    let failed = io::Error::from(io::ErrorKind::OutOfMemory);
    assert!(rt; or_no_memory(Ok(())) == Ok(()));
    assert!(rt; or_no_memory(Err(failed)) == Err(NoMemory));
    assert!(rt; is_told(rt.alloc()));
}

/// Whether all that comes before an input ends or fails is read, and so many failures are counted.
fn is_read(
    alloc: Global,
    fault: Option<io::ErrorKind>,
    told: Option<Outcome>,
    failures: u64,
) -> bool {
    let mut input = Counted::new(Source {
        bytes: b"inflight 4",
        most: 3,
        fault,
    });
    let well = match read_whole(alloc, &mut input) {
        Ok(text) => text.as_slice() == b"inflight 4".as_slice() && told.is_none(),
        Err(outcome) => Some(outcome) == told,
    };
    well && input.failures() == failures
}

#[test]
fn an_input_is_read_to_its_end(rt: HostRuntime) {
    assert!(rt; is_read(rt.alloc(), None, None, 0));
    let fault = Some(io::ErrorKind::OutOfMemory);
    assert!(rt; is_read(rt.alloc(), fault, Some(Outcome::ReadFailed), 1));
}

/// A write and a read of one session.
const REPLAYED: &[u8] =
    b"export a size=16\n---\nattach 0\narrive 0 0 0 1 1 0 0 2 abcd\narrive 0 0 0 2 0 0 0 2\ndispatch 0\ndispatch 0\nperform 0 0\nperform 0 1\ntake 0 0\ntake 0 0\n";

const WRITTEN: &[u8] =
    b"session 0\naccepted 0 0\naccepted 1 0\nexport 0 request 0 weight\nexport 0 request 1 weight\nperformed\nperformed\nreply 1 0 -\nreply 2 0 abcd\nsteps 9\n";

/// Whether these are the first lines of what is written where there is memory, and not all of them.
fn is_whole_lines(output: &[u8]) -> bool {
    let begins = WRITTEN.starts_with(output);
    begins && output.len() < WRITTEN.len() && (output.is_empty() || output.ends_with(b"\n"))
}

/// What came of the script where a growth was refused.
#[derive(Clone, Copy, PartialEq, Eq)]
enum Came {
    /// All as it does with memory.
    Whole,
    /// Otherwise, and no wrong line.
    Less,
    Wrong,
}

fn what_came(alloc: Global, heap: &Refusing<Global>) -> Came {
    let (outcome, output) = went(Command::Replay, alloc, heap, REPLAYED);
    let whole = output.as_slice() == WRITTEN;
    match outcome {
        Outcome::Done if whole => Came::Whole,
        Outcome::Done if !heap.is_armed() => Came::Less,
        Outcome::NoMemory if !heap.is_armed() && is_whole_lines(&output) => Came::Less,
        _ => Came::Wrong,
    }
}

#[test]
fn each_growth_is_refused(rt: HostRuntime) {
    let mut refused = 0u64;
    for nth in 1..200u64 {
        let heap = Refusing::new(rt.alloc(), nth);
        let came = what_came(rt.alloc(), &heap);
        assert!(rt; came != Came::Wrong, "at {nth}");
        if heap.is_armed() {
            break;
        }
        // Collecting the fields of a line first asks for room that it can do without.
        if came == Came::Less {
            refused = nth;
        }
    }
    assert!(rt; refused > 0);
}

/// Whether each write of the events of a script fails in turn.
fn fails_to_tell(alloc: Global, script: &[u8], written: &[u8]) -> bool {
    every_write_fails(Command::Replay, alloc, script, 7, written)
}

#[test]
fn each_write_of_a_replay_fails(rt: HostRuntime) {
    let alloc = rt.alloc();
    assert!(rt; fails_to_tell(alloc, REPLAYED, WRITTEN));
    let tags = b"export a size=1\n---\ntags 0\n".as_slice();
    assert!(rt; fails_to_tell(alloc, tags, b"waiting 0\nsteps 0\n"));
    let empty = b"export a size=0\n---\n".as_slice();
    assert!(rt; fails_to_tell(alloc, empty, b"line 1 C5\n"));
    let attach = b"export a size=1\n---\nattach\n".as_slice();
    assert!(rt; fails_to_tell(alloc, attach, b"line 3 refused\n"));
}

#[test]
fn an_output_without_memory_has_failed(rt: HostRuntime) {
    let sink = Sink::new(rt.alloc(), 20, 7, io::ErrorKind::OutOfMemory);
    let taken = b"session 0\naccepted 0".as_slice();
    assert!(rt; write_fails(Command::Replay, rt.alloc(), REPLAYED, sink, taken));
}
