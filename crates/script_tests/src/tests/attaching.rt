//! Handshakes in which a session isn't always given, and clients that send too many options.

use super::scripts::{joined, repeated};
use super::streams::beginning;
use nbd_options::{Attach, Attached, ExportTable};
use nbd_session::{End, Entry, haggle};
use nbd_stream::Counted;
use std::alloc::Global;

/// The client's flags, and GO of `a` twice.
const GO_TWICE: &[u8] =
    b"\x00\x00\x00\x03\x49\x48\x41\x56\x45\x4f\x50\x54\x00\x00\x00\x07\x00\x00\x00\x07\x00\x00\x00\x01\x61\x00\x00\x49\x48\x41\x56\x45\x4f\x50\x54\x00\x00\x00\x07\x00\x00\x00\x07\x00\x00\x00\x01\x61\x00\x00";

const GREETING: &[u8] = b"\x4e\x42\x44\x4d\x41\x47\x49\x43\x49\x48\x41\x56\x45\x4f\x50\x54\x00\x03";

/// UNSUP for option 99.
const UNKNOWN_OPTION: &[u8] =
    b"\x00\x03\xe8\x89\x04\x55\x65\xa9\x00\x00\x00\x63\x80\x00\x00\x01\x00\x00\x00\x00";

/// The greeting, POLICY, and then the export's information and ACK.
const FULL_AND_GIVEN: &[u8] =
    b"\x4e\x42\x44\x4d\x41\x47\x49\x43\x49\x48\x41\x56\x45\x4f\x50\x54\x00\x03\x00\x03\xe8\x89\x04\x55\x65\xa9\x00\x00\x00\x07\x80\x00\x00\x02\x00\x00\x00\x00\x00\x03\xe8\x89\x04\x55\x65\xa9\x00\x00\x00\x07\x00\x00\x00\x03\x00\x00\x00\x0c\x00\x00\x00\x00\x00\x00\x00\x00\x10\x00\x05\x6d\x00\x03\xe8\x89\x04\x55\x65\xa9\x00\x00\x00\x07\x00\x00\x00\x01\x00\x00\x00\x00";

/// The client's flags, and EXPORT_NAME of `a`.
const BY_NAME: &[u8] =
    b"\x00\x00\x00\x03\x49\x48\x41\x56\x45\x4f\x50\x54\x00\x00\x00\x01\x00\x00\x00\x01\x61";

/// The head of an option of number 99 without data.
const OPTION_99: &[u8; 16] = b"\x49\x48\x41\x56\x45\x4f\x50\x54\x00\x00\x00\x63\x00\x00\x00\x00";

/// Answers the same until it was asked so many times, and then gives sessions.
#[derive(Drop)]
struct Until {
    answer: Attached,
    left: u32,
    asked: u32,
}

impl Attach for Until {
    ghost may = { λ _ _. Unit {0} };

    fn attach(&mut self, _: u32) -> Attached {
        self.asked = self.asked.saturating_add(1);
        if self.left == 0 {
            return Attached::Given;
        }
        self.left -= 1;
        self.answer
    }
}

/// An export of this name.
fn table_of_one(alloc: Global) -> Option<ExportTable<Global>> {
    let mut table = ExportTable::new(alloc);
    match table.push(b"a", None, 4096, 0x056d) {
        Ok(()) => Some(table),
        Err(_) => None,
    }
}

/// Whether the handshake ends so, a session is asked for so often, and this is all that is said.
fn ends_so(
    alloc: Global,
    sent: &[u8],
    attach: &mut Until,
    entry: Entry,
    asked: u32,
    said: &[u8],
) -> bool {
    let Some(table) = table_of_one(alloc) else {
        return false;
    };
    let mut reader = Counted::new(sent);
    let mut writer = Counted::new(Vec::new(alloc));
    let told = haggle(alloc, &table, &mut reader, &mut writer, attach);
    told == Ok(entry) && attach.asked == asked && writer.into_inner().as_slice() == said
}

/// Answers so once.
fn once(answer: Attached) -> Until {
    Until {
        answer,
        left: 1,
        asked: 0,
    }
}

#[test]
fn full_at_first(rt: HostRuntime) {
    let alloc = rt.alloc();
    let mut attach = once(Attached::Full);
    assert!(rt;
        ends_so(
            alloc,
            GO_TWICE,
            &mut attach,
            Entry::In(0),
            2,
            FULL_AND_GIVEN
        )
    );
}

#[test]
fn no_session_by_name(rt: HostRuntime) {
    for answer in [Attached::Full, Attached::Other] {
        let mut attach = once(answer);
        assert!(rt;
            ends_so(
                rt.alloc(),
                BY_NAME,
                &mut attach,
                Entry::Refused,
                1,
                GREETING
            )
        );
    }
}

/// 1,000 options of number 99 and a last one, behind the client's flags.
fn many_options(alloc: Global, last: &[u8]) -> Option<Vec<u8>> {
    let many = repeated(alloc, OPTION_99, 1000)?;
    joined(alloc, &[beginning(BY_NAME, 4), many.as_slice(), last])
}

/// The greeting, and an answer to each of 1,000 options.
fn many_answers(alloc: Global) -> Option<Vec<u8>> {
    let many = repeated(alloc, UNKNOWN_OPTION, 1000)?;
    joined(alloc, &[GREETING, many.as_slice()])
}

/// Whether the handshake ends so where this option comes behind 1,000 others.
fn is_last(alloc: Global, last: &[u8], said: &[u8], end: End) -> bool {
    let Some(sent) = many_options(alloc, last) else {
        return false;
    };
    let mut attach = Until {
        answer: Attached::Given,
        left: 0,
        asked: 0,
    };
    ends_so(alloc, &sent, &mut attach, Entry::Out(end), 0, said)
}

/// The same with another magic, and with more data than it may have.
const OTHER_MAGIC: &[u8] = b"\x49\x48\x41\x56\x45\x4f\x50\x55\x00\x00\x00\x63\x00\x00\x00\x00";

const TOO_LONG: &[u8] = b"\x49\x48\x41\x56\x45\x4f\x50\x54\x00\x00\x00\x63\x00\x01\x00\x01";

/// Whether the handshake ends at one option more than it may have, whatever that is.
fn ends_at_one_more(alloc: Global) -> bool {
    let Some(replies) = many_answers(alloc) else {
        return false;
    };
    let replies = replies.as_slice();
    is_last(alloc, OPTION_99, replies, End::TooMany)
        && is_last(alloc, OTHER_MAGIC, replies, End::BadMagic)
        && is_last(alloc, TOO_LONG, replies, End::TooMany)
}

#[test]
fn too_many_options(rt: HostRuntime) {
    assert!(rt; ends_at_one_more(rt.alloc()));
}
