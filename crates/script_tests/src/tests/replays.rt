//! Whole scripts of `replay`, and the whole output of each. The expected tags and choices were
//! worked out from the rules of
//! the scheduler, apart from this program.

use super::scripts::{Command, Row, first_wrong, goes, joined, repeated};
use nbd_scripts::Outcome;
use std::alloc::Global;
use std::io::Write;

const SHARES: [Row; 7] = [
    (
        "twice the weight is served twice as often, and equal tags go to the lower export",
        b"export a size=4096 w=1\nexport b size=4096 w=2\n---\nattach 0\nattach 1\narrive 0 0 0 1 0 0 0 4\narrive 0 0 0 2 0 0 0 4\narrive 1 0 0 1 0 0 0 4\narrive 1 0 0 2 0 0 0 4\ndispatch 0\ndispatch 0\ndispatch 0\ndispatch 0\n",
        b"session 0\nsession 0\naccepted 0 0\naccepted 1 0\naccepted 0 0\naccepted 1 0\nexport 0 request 0 weight\nexport 1 request 0 weight\nexport 1 request 1 weight\nexport 0 request 1 weight\nsteps 10\n",
    ),
    (
        "a limit holds back, and the server's time doesn't fall",
        b"export a size=4096 l=10\n---\nattach 0\narrive 0 0 0 1 0 0 0 4\narrive 0 0 0 2 0 0 0 4\narrive 0 0 0 3 0 0 0 4\ndispatch 0\nperform 0 0\ndispatch 99999999\ndispatch 100000000\ndispatch 5\ndispatch 200000000\n",
        b"session 0\naccepted 0 0\naccepted 1 100000000\naccepted 2 200000000\nexport 0 request 0 weight\nperformed\nnone\nexport 0 request 1 weight\nnone\nexport 0 request 2 weight\nsteps 8\n",
    ),
    (
        "limit tags follow the arrivals, not the server's time, which a dispatch that chooses nothing keeps",
        b"export a size=4096 l=10\n---\nattach 0\ndispatch 100000000\narrive 0 0 0 1 0 0 0 4\narrive 0 0 0 2 0 0 0 4\ndispatch 0\ndispatch 0\n",
        b"session 0\nnone\naccepted 0 0\naccepted 1 100000000\nexport 0 request 0 weight\nexport 0 request 1 weight\nsteps 5\n",
    ),
    (
        "moments of arrivals may fall",
        b"export a size=4096 l=10\n---\nattach 0\narrive 0 0 10 1 0 0 0 4\narrive 0 0 0 2 0 0 0 4\n",
        b"session 0\naccepted 0 10\naccepted 1 100000010\nsteps 3\n",
    ),
    (
        "a choice by weight is credited, so that the third reservation is due at 250 ms, where two intervals would be 500",
        b"export a size=4096 r=4 w=1\n---\nattach 0\narrive 0 0 0 1 0 0 0 4\narrive 0 0 0 2 0 0 0 4\ndispatch 0\ndispatch 0\narrive 0 0 0 3 0 0 0 4\ndispatch 250000000\n",
        b"session 0\naccepted 0 0\naccepted 1 0\nexport 0 request 0 reservation\nexport 0 request 1 weight\naccepted 2 0\nexport 0 request 2 reservation\nsteps 7\n",
    ),
    (
        "a nanosecond earlier it isn't due",
        b"export a size=4096 r=4 w=1\n---\nattach 0\narrive 0 0 0 1 0 0 0 4\narrive 0 0 0 2 0 0 0 4\ndispatch 0\ndispatch 0\narrive 0 0 0 3 0 0 0 4\ndispatch 249999999\n",
        b"session 0\naccepted 0 0\naccepted 1 0\nexport 0 request 0 reservation\nexport 0 request 1 weight\naccepted 2 0\nexport 0 request 2 weight\nsteps 7\n",
    ),
    (
        "a due reservation goes before a greater weight",
        b"export a size=4096 w=1000000\nexport b size=4096 r=1 w=1\n---\nattach 0\nattach 1\narrive 0 0 0 1 0 0 0 4\narrive 1 0 0 1 0 0 0 4\ndispatch 0\ndispatch 0\n",
        b"session 0\nsession 0\naccepted 0 0\naccepted 0 0\nexport 1 request 0 reservation\nexport 0 request 0 weight\nsteps 6\n",
    ),
];

const RETUNES: [Row; 3] = [
    (
        "other rates wait until nothing waits, and the next limit tag is a new interval after the last",
        b"export a size=4096 l=10\n---\nattach 0\narrive 0 0 0 1 0 0 0 4\nretune 0 0 4 1\ndispatch 0\nretune 0 0 4 1\narrive 0 0 0 2 0 0 0 4\narrive 0 0 0 3 0 0 0 4\ndispatch 250000000\ndispatch 500000000\nretune 0 0 0 1\narrive 0 0 0 4 0 0 0 4\n",
        b"session 0\naccepted 0 0\nwaiting\nexport 0 request 0 weight\nretuned\naccepted 1 250000000\naccepted 2 500000000\nexport 0 request 1 weight\nexport 0 request 2 weight\nretuned\naccepted 3 500000000\nsteps 10\n",
    ),
    (
        "a last R tag stays from one reservation to another, and is gone where there was none between",
        b"export a size=4096 r=1\n---\nattach 0\narrive 0 0 0 1 0 0 0 4\ndispatch 0\nretune 0 2 0 1\narrive 0 0 0 2 0 0 0 4\ntags 0\ndispatch 0\nretune 0 0 0 1\nretune 0 2 0 1\narrive 0 0 0 3 0 0 0 4\ntags 0\n",
        b"session 0\naccepted 0 0\nexport 0 request 0 reservation\nretuned\naccepted 1 0\nwaiting 1\ntag 1 500000000 0 1000000000\nexport 0 request 1 weight\nretuned\nretuned\naccepted 2 0\nwaiting 1\ntag 2 0 0 2000000000\nsteps 9\n",
    ),
    (
        "there is no such export",
        b"export a size=4096\n---\nretune 1 0 0 1\n",
        b"no export\nsteps 0\n",
    ),
];

const OUT_OF_RANGE: [Row; 4] = [
    (
        "the reservation is above 1,000,000, before all else",
        b"export a size=4096\n---\nattach 0\nretune 0 1000001 1000001 0\n",
        b"line 4 C6\n",
    ),
    (
        "the limit is above 1,000,000",
        b"export a size=4096\n---\nretune 0 5 1000001 0\n",
        b"line 3 C6\n",
    ),
    (
        "there is no weight 0",
        b"export a size=4096\n---\nretune 0 5 4 0\n",
        b"line 3 C7\n",
    ),
    (
        "the reservation is above the limit",
        b"export a size=4096\n---\nretune 0 5 4 1\n",
        b"line 3 C9\n",
    ),
];

const SHIFTS: [Row; 7] = [
    (
        "a shift leaves limit tags",
        b"export a size=4096 l=10\nexport b size=4096\n---\nattach 0\nattach 1\narrive 0 0 0 1 0 0 0 4\narrive 0 0 0 2 0 0 0 4\ndispatch 0\narrive 1 0 5 1 0 0 0 4\ndispatch 5\ndispatch 99999999\ndispatch 100000000\n",
        b"session 0\nsession 0\naccepted 0 0\naccepted 1 100000000\nexport 0 request 0 weight\naccepted 0 5\nexport 1 request 0 weight\nnone\nexport 0 request 1 weight\nsteps 8\n",
    ),
    (
        "a shift leaves reservation tags",
        b"export a size=4096 r=1\nexport b size=4096\n---\nattach 0\nattach 1\narrive 0 0 0 1 0 0 0 4\narrive 0 0 0 2 0 0 0 4\ndispatch 0\narrive 1 0 5 1 0 0 0 4\ndispatch 5\n",
        b"session 0\nsession 0\naccepted 0 0\naccepted 1 0\nexport 0 request 0 reservation\naccepted 0 5\nexport 0 request 1 weight\nsteps 7\n",
    ),
    (
        "a shift takes the last P tag of an active export down too",
        b"export a size=4096\nexport b size=4096\n---\nattach 0\nattach 1\narrive 0 0 0 1 0 0 0 4\narrive 0 0 0 2 0 0 0 4\ndispatch 0\narrive 1 0 5 1 0 0 0 4\narrive 0 0 5 3 0 0 0 4\narrive 1 0 5 2 0 0 0 4\ndispatch 5\ndispatch 5\ndispatch 5\ndispatch 5\n",
        b"session 0\nsession 0\naccepted 0 0\naccepted 1 0\nexport 0 request 0 weight\naccepted 0 5\naccepted 2 5\naccepted 1 5\nexport 0 request 1 weight\nexport 1 request 0 weight\nexport 0 request 2 weight\nexport 1 request 1 weight\nsteps 12\n",
    ),
    (
        "a shift leaves the last P tag of an idle export",
        b"export a size=4096\nexport b size=4096 w=2\nexport c size=4096\n---\nattach 0\nattach 1\nattach 2\narrive 2 0 0 1 0 0 0 4\narrive 2 0 0 2 0 0 0 4\ndispatch 0\ndispatch 0\narrive 0 0 0 1 0 0 0 4\narrive 0 0 0 2 0 0 0 4\ndispatch 0\narrive 1 0 5 1 0 0 0 4\narrive 1 0 5 2 0 0 0 4\narrive 1 0 5 3 0 0 0 4\narrive 1 0 5 4 0 0 0 4\narrive 2 0 5 3 0 0 0 4\ndispatch 5\ndispatch 5\ndispatch 5\ndispatch 5\ndispatch 5\ndispatch 5\n",
        b"session 0\nsession 0\nsession 0\naccepted 0 0\naccepted 1 0\nexport 2 request 0 weight\nexport 2 request 1 weight\naccepted 0 0\naccepted 1 0\nexport 0 request 0 weight\naccepted 0 5\naccepted 1 5\naccepted 2 5\naccepted 3 5\naccepted 2 5\nexport 0 request 1 weight\nexport 1 request 0 weight\nexport 1 request 1 weight\nexport 1 request 2 weight\nexport 1 request 3 weight\nexport 2 request 2 weight\nsteps 21\n",
    ),
    (
        "an arrival above the least P tag takes the others' up",
        b"export a size=4096\nexport b size=4096\n---\nattach 0\nattach 1\narrive 0 0 0 1 0 0 0 4\narrive 0 0 0 2 0 0 0 4\narrive 1 0 2000000000 1 0 0 0 4\ndispatch 2000000000\ndispatch 2000000000\ndispatch 2000000000\n",
        b"session 0\nsession 0\naccepted 0 0\naccepted 1 0\naccepted 0 2000000000\nexport 0 request 0 weight\nexport 1 request 0 weight\nexport 0 request 1 weight\nsteps 8\n",
    ),
    (
        "an arrival to an idle export takes the others' P tags down to its moment",
        b"export a size=4096 w=1\nexport b size=4096 w=1\n---\nattach 0\nattach 1\narrive 0 0 0 1 0 0 0 4\narrive 0 0 0 2 0 0 0 4\narrive 0 0 0 3 0 0 0 4\ndispatch 0\ndispatch 0\narrive 1 0 5 1 0 0 0 4\ndispatch 5\n",
        b"session 0\nsession 0\naccepted 0 0\naccepted 1 0\naccepted 2 0\nexport 0 request 0 weight\nexport 0 request 1 weight\naccepted 0 5\nexport 0 request 2 weight\nsteps 9\n",
    ),
    (
        "the choice by weight is credited to what waits, which is due by its reservation a second earlier",
        b"export a size=4096 r=1 w=1\n---\nattach 0\narrive 0 0 9 1 0 0 0 4\narrive 0 0 9 2 0 0 0 4\narrive 0 0 9 3 0 0 0 4\ndispatch 8\ndispatch 9\ndispatch 9\ndispatch 1000000009\n",
        b"session 0\naccepted 0 9\naccepted 1 9\naccepted 2 9\nnone\nexport 0 request 0 reservation\nexport 0 request 1 weight\nexport 0 request 2 reservation\nsteps 7\n",
    ),
];

const QUEUES: [Row; 6] = [
    (
        "as many as the depth wait",
        b"export a size=4096 depth=2\n---\nattach 0\narrive 0 0 0 1 0 0 0 4\narrive 0 0 0 2 0 0 0 4\narrive 0 0 0 3 0 0 0 4\ndispatch 0\narrive 0 0 0 4 0 0 0 4\ntake 0 0\n",
        b"session 0\naccepted 0 0\naccepted 1 0\nanswered 5\nexport 0 request 0 weight\naccepted 2 0\nreply 3 5 -\nsteps 7\n",
    ),
    (
        "one in service at once",
        b"export a size=4096\ninflight 1\n---\nattach 0\narrive 0 0 0 1 0 0 0 4\narrive 0 0 0 2 0 0 0 4\ndispatch 0\ndispatch 0\nperform 0 0\ndispatch 0\n",
        b"session 0\naccepted 0 0\naccepted 1 0\nexport 0 request 0 weight\nnone\nperformed\nexport 0 request 1 weight\nsteps 6\n",
    ),
    (
        "one in service at once, of all exports together",
        b"export a size=4096\nexport b size=4096\ninflight 1\n---\nattach 0\nattach 1\narrive 0 0 0 1 0 0 0 4\narrive 1 0 0 1 0 0 0 4\ndispatch 0\ndispatch 0\nperform 0 0\ndispatch 0\n",
        b"session 0\nsession 0\naccepted 0 0\naccepted 0 0\nexport 0 request 0 weight\nnone\nperformed\nexport 1 request 0 weight\nsteps 7\n",
    ),
    (
        "a window of one, until the reply is taken",
        b"export a size=4096 window=1\n---\nattach 0\narrive 0 0 0 1 0 0 0 1\narrive 0 0 0 2 0 0 0 1\ndispatch 0\nperform 0 0\narrive 0 0 0 2 0 0 0 1\ntake 0 0\narrive 0 0 0 2 0 0 0 1\nattach 9\n",
        b"session 0\naccepted 0 0\nhold\nexport 0 request 0 weight\nperformed\nhold\nreply 1 0 00\naccepted 1 0\nno export\nsteps 6\n",
    ),
    (
        "refused requests are told, and one past the end changes no byte",
        b"export a size=4\nexport b size=4 ro\n---\nattach 0\nattach 1\narrive 0 0 0 1 1 0 1 4 01020304\narrive 0 0 0 2 0 0 0 4\ndispatch 0\nperform 0 0\ntake 0 0\ntake 0 0\narrive 1 0 0 18446744073709551615 1 0 0 0\ntake 1 0\narrive 0 0 0 7 7 0 0 0\n",
        b"session 0\nsession 0\nanswered 28\naccepted 0 0\nexport 0 request 0 weight\nperformed\nreply 1 28 -\nreply 2 0 00000000\nanswered 1\nreply 18446744073709551615 1 -\nanswered 22\nsteps 11\n",
    ),
    (
        "CACHE is accepted at the end of a large export, and refused past it",
        b"export a size=1099511627776 l=10\n---\nattach 0\narrive 0 0 0 1 5 1 1099511627775 1\narrive 0 0 0 2 5 0 1099511627775 2\narrive 0 0 0 3 5 2 0 1\ndispatch 0\nperform 0 0\ntake 0 0\ntake 0 0\ntake 0 0\n",
        b"session 0\naccepted 0 0\nanswered 22\nanswered 22\nexport 0 request 0 weight\nperformed\nreply 2 22 -\nreply 3 22 -\nreply 1 0 -\nsteps 9\n",
    ),
];

const SESSIONS: [Row; 3] = [
    (
        "the write of a session that is gone is still done, and another session reads it",
        b"export a size=4096\n---\nattach 0\nattach 0\narrive 0 0 0 1 1 0 0 4 deadbeef\ndispatch 0\ngone 0 0\nperform 0 0\nperform 0 0\narrive 0 1 0 2 0 0 0 4\ndispatch 0\nperform 0 1\ntake 0 1\ntake 0 1\ntake 0 0\nleave 0 1\ntake 0 1\ngone 0 1\n",
        b"session 0\nsession 1\naccepted 0 0\nexport 0 request 0 weight\ngone\nperformed\nnot out\naccepted 1 0\nexport 0 request 1 weight\nperformed\nreply 2 0 deadbeef\nempty\nnot open\nleft\nend\ngone\nsteps 12\n",
    ),
    (
        "exports, sessions and requests that aren't there",
        b"export a size=4096\n---\nattach 1\narrive 1 0 0 1 0 0 0 4\narrive 0 0 0 1 0 0 0 4\nperform 1 0\nperform 0 0\ntake 1 0\ntake 0 0\nleave 1 0\nleave 0 0\ngone 1 0\ngone 0 0\ndispatch 0\n",
        b"no export\nno export\nnot open\nnot out\nnot out\nno export\nnot open\nno export\nnot open\nno export\nnot open\nnone\nsteps 0\n",
    ),
    (
        "comments, empty lines, several spaces, hex of either case, and no line feed at the end",
        b"# two lines\n\nexport a size=4096\n---\n# a line\n\n  \n attach   0\narrive 0 0 4611686018427387903 1 1 1 0 2  aBCd\ndispatch 4611686018427387903\nperform 0 0\ntake 0 0",
        b"session 0\naccepted 0 4611686018427387903\nexport 0 request 0 weight\nperformed\nreply 1 0 -\nsteps 5\n",
    ),
];

const TAGS: [Row; 3] = [
    (
        "the tags of what waits, behind a choice by reservation and one by weight, which is credited",
        b"export a size=4096 r=4 w=1\n---\nattach 0\narrive 0 0 0 1 0 0 0 4\narrive 0 0 0 2 0 0 0 4\ndispatch 0\ndispatch 0\narrive 0 0 0 3 0 0 0 4\ntags 0\n",
        b"session 0\naccepted 0 0\naccepted 1 0\nexport 0 request 0 reservation\nexport 0 request 1 weight\naccepted 2 0\nwaiting 1\ntag 2 250000000 0 2000000000\nsteps 6\n",
    ),
    (
        "a shift moves the P tag of what waits, and without a reservation there is no R tag",
        b"export a size=4096 w=1\nexport b size=4096 w=1\n---\nattach 0\nattach 1\narrive 0 0 0 1 0 0 0 4\narrive 0 0 0 2 0 0 0 4\narrive 0 0 0 3 0 0 0 4\ndispatch 0\ndispatch 0\narrive 1 0 5 1 0 0 0 4\ntags 0\ntags 1\ndispatch 5\n",
        b"session 0\nsession 0\naccepted 0 0\naccepted 1 0\naccepted 2 0\nexport 0 request 0 weight\nexport 0 request 1 weight\naccepted 0 5\nwaiting 1\ntag 2 - 0 5\nwaiting 1\ntag 0 - 5 5\nexport 0 request 2 weight\nsteps 9\n",
    ),
    (
        "nothing waits, two requests wait, and there is no such export",
        b"export a size=4096 l=10 w=2\n---\ntags 0\nattach 0\narrive 0 0 7 1 0 0 0 4\narrive 0 0 7 2 0 0 0 4\ntags 0\ntags 1\n",
        b"waiting 0\nsession 0\naccepted 0 7\naccepted 1 100000007\nwaiting 2\ntag 0 - 7 7\ntag 1 - 100000007 500000007\nno export\nsteps 3\n",
    ),
];

/// What the first row shows whose events are answered otherwise.
fn first_not_made(alloc: Global, rows: &[Row]) -> Option<&'static str> {
    first_wrong(Command::Replay, alloc, rows, Outcome::Done)
}

#[test]
fn shares(rt: HostRuntime) {
    let wrong = first_not_made(rt.alloc(), &SHARES);
    assert!(rt; wrong.is_none(), "{wrong:?}");
}

#[test]
fn retunes(rt: HostRuntime) {
    let wrong = first_not_made(rt.alloc(), &RETUNES);
    assert!(rt; wrong.is_none(), "{wrong:?}");
}

#[test]
fn rates_out_of_range(rt: HostRuntime) {
    let wrong = first_wrong(Command::Replay, rt.alloc(), &OUT_OF_RANGE, Outcome::Refused);
    assert!(rt; wrong.is_none(), "{wrong:?}");
}

#[test]
fn shifts(rt: HostRuntime) {
    let wrong = first_not_made(rt.alloc(), &SHIFTS);
    assert!(rt; wrong.is_none(), "{wrong:?}");
}

#[test]
fn tags(rt: HostRuntime) {
    let wrong = first_not_made(rt.alloc(), &TAGS);
    assert!(rt; wrong.is_none(), "{wrong:?}");
}

#[test]
fn queues(rt: HostRuntime) {
    let wrong = first_not_made(rt.alloc(), &QUEUES);
    assert!(rt; wrong.is_none(), "{wrong:?}");
}

#[test]
fn sessions(rt: HostRuntime) {
    let wrong = first_not_made(rt.alloc(), &SESSIONS);
    assert!(rt; wrong.is_none(), "{wrong:?}");
}

/// Lines of so many numbers in turn, each between two texts.
fn numbered(alloc: Global, before: &str, count: u64, behind: &str) -> Option<Vec<u8>> {
    let mut lines = Vec::new(alloc);
    for number in 0..count {
        if writeln!(lines, "{before}{number}{behind}").is_err() {
            return None;
        }
    }
    Some(lines)
}

/// Whether the lines of a script are answered so, where there was memory for both texts.
fn are_answered(alloc: Global, script: Option<Vec<u8>>, written: Option<Vec<u8>>) -> bool {
    let (Some(script), Some(written)) = (script, written) else {
        return false;
    };
    goes(Command::Replay, alloc, &script, Outcome::Done, &written)
}

/// As many sessions of an export as there may be, one more, and again one once another is gone.
fn full(alloc: Global) -> Option<Vec<u8>> {
    let attaches = repeated(alloc, b"attach 0\n", 64)?;
    joined(
        alloc,
        &[
            b"export a size=4096\n---\n",
            attaches.as_slice(),
            b"attach 0\ngone 0 7\nattach 0\n",
        ],
    )
}

fn answers_of_full(alloc: Global) -> Option<Vec<u8>> {
    let sessions = numbered(alloc, "session ", 64, "")?;
    joined(
        alloc,
        &[sessions.as_slice(), b"full\ngone\nsession 64\nsteps 66\n"],
    )
}

#[test]
fn sessions_of_an_export_are_full(rt: HostRuntime) {
    let alloc = rt.alloc();
    assert!(rt; are_answered(alloc, full(alloc), answers_of_full(alloc)));
}

/// The first export's lines: a queue of two, and three requests, among them other lines.
fn crowded(alloc: Global, others: u32) -> Option<Vec<u8>> {
    let others = repeated(alloc, b"arrive 1 0 0 9 0 0 0 4\n", others)?;
    joined(
        alloc,
        &[
            b"export a size=4096 depth=2\nexport b size=4096 depth=1024 window=1024\n---\nattach 1\nattach 0\narrive 0 0 0 1 0 0 0 4\narrive 0 0 0 2 0 0 0 4\n",
            others.as_slice(),
            b"arrive 0 0 0 3 0 0 0 4\ndispatch 0\narrive 0 0 0 4 0 0 0 4\ntake 0 0\n",
        ],
    )
}

/// What is written of them, with this last line.
fn answers_in_a_crowd(alloc: Global, others: u32, last: &[u8]) -> Option<Vec<u8>> {
    let others = numbered(alloc, "accepted ", u64::from(others), " 0")?;
    joined(
        alloc,
        &[
            b"session 0\nsession 0\naccepted 0 0\naccepted 1 0\n",
            others.as_slice(),
            b"answered 5\nexport 0 request 0 weight\naccepted 2 0\nreply 3 5 -\n",
            last,
        ],
    )
}

/// Whether the first export's requests are answered in the same way among so many others.
fn is_alike(alloc: Global, others: u32, last: &[u8]) -> bool {
    let answers = answers_in_a_crowd(alloc, others, last);
    are_answered(alloc, crowded(alloc, others), answers)
}

#[test]
fn a_crowd_at_another_export_changes_no_answer(rt: HostRuntime) {
    assert!(rt; is_alike(rt.alloc(), 0, b"steps 8\n"));
    assert!(rt; is_alike(rt.alloc(), 1000, b"steps 1008\n"));
}
