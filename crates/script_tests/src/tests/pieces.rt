//! One conversation whose bytes come in pieces.

use super::faults::{SAID, SENT, configured, is_held};
use super::scripts::joined;
use super::streams::{Source, beginning};
use nbd_commands::Config;
use nbd_session::End;
use nbd_stream::{Counted, Ending, Frame, FrameReader};
use refusing::Refusing;
use std::alloc::{Allocator, Global};

/// Where the requests begin, behind the client's flags and its option.
const REQUESTS: usize = 21;

/// Where DISC begins.
const DISC: usize = 81;

/// Bytes that come so many at once at most.
fn pieces(bytes: &[u8], most: usize) -> Source<'_> {
    Source {
        bytes,
        most,
        fault: None,
    }
}

/// The first bytes, and 28 zeros, which are no head.
fn with_zeros(alloc: Global, count: usize) -> Option<Vec<u8>> {
    joined(alloc, &[beginning(SENT, count), &[0; 28]])
}

/// Whether all is said to bytes that come so, and they end so.
fn all_is_said(alloc: Global, config: &Config<Global>, sent: &[u8], most: usize, end: End) -> bool {
    let source = pieces(sent, most);
    is_held(alloc, config, source, 1000, Ok(end), SAID.as_slice())
}

/// Whether that is so in pieces of each of these lengths.
fn all_is_said_to_each(alloc: Global, sent: &[u8], lengths: &[usize], end: End) -> bool {
    let Some(config) = configured(alloc) else {
        return false;
    };
    for most in lengths {
        if !all_is_said(alloc, &config, sent, *most, end) {
            return false;
        }
    }
    true
}

#[test]
fn said_to_pieces(rt: HostRuntime) {
    let lengths = [1, 2, 27, 109];
    assert!(rt; all_is_said_to_each(rt.alloc(), SENT, &lengths, End::Disc));
}

#[test]
fn nothing_is_looked_at_behind_disc(rt: HostRuntime) {
    let sent = with_zeros(rt.alloc(), SENT.len()).expect(&rt, "memory");
    let lengths = [1, 2, 27, 137];
    assert!(rt; all_is_said_to_each(rt.alloc(), &sent, &lengths, End::Disc));
}

#[test]
fn requests_before_a_bad_head_are_answered(rt: HostRuntime) {
    let sent = with_zeros(rt.alloc(), DISC).expect(&rt, "memory");
    let lengths = [1, 2, 27, 109];
    assert!(rt; all_is_said_to_each(rt.alloc(), &sent, &lengths, End::BadMagic));
}

/// The cookie of the next request, or how the reading ended.
fn next_cookie<A: Allocator + Copy>(
    reader: &mut FrameReader<Source<'_>, A>,
) -> Result<u64, Ending> {
    match reader.next() {
        Frame::Whole(request) => Ok(request.head().cookie),
        Frame::Ended(ending) => Err(ending),
    }
}

/// How many requests of cookies 1, 2 and so on are read, up to so many.
fn cookies_read<A: Allocator + Copy>(reader: &mut FrameReader<Source<'_>, A>, most: u64) -> u64 {
    for cookie in 0..most {
        if next_cookie(reader) != Ok(cookie + 1) {
            return cookie;
        }
    }
    most
}

/// Whether so many requests are read, and the reading ends so, and again.
fn ends_behind<A: Allocator + Copy>(
    reader: &mut FrameReader<Source<'_>, A>,
    count: u64,
    ending: Ending,
) -> bool {
    cookies_read(reader, count) == count
        && next_cookie(reader) == Err(ending)
        && next_cookie(reader) == Err(ending)
}

/// Whether that is so of bytes in pieces.
fn is_read(alloc: Global, bytes: &[u8], most: usize, count: u64, ending: Ending) -> bool {
    let mut reader = FrameReader::new(alloc, Counted::new(pieces(bytes, most)));
    ends_behind(&mut reader, count, ending)
}

/// What is sent from the first request on, up to a place.
fn requests(end: usize) -> &'static [u8] {
    SENT.get(REQUESTS..end).unwrap_or_default()
}

/// Whether three requests are read in pieces of this length, and two where the last byte is cut off.
fn are_read(alloc: Global, most: usize) -> bool {
    is_read(alloc, requests(109), most, 3, Ending::Over)
        && is_read(alloc, requests(108), most, 2, Ending::Cut)
}

#[test]
fn one_request_after_another(rt: HostRuntime) {
    for most in [1usize, 27, 88] {
        assert!(rt; are_read(rt.alloc(), most), "in pieces of {most}");
    }
}

/// Whether a bad head behind three requests is told again, in pieces of each of these lengths.
fn is_told_again(alloc: Global, lengths: &[usize]) -> bool {
    let Some(sent) = with_zeros(alloc, SENT.len()) else {
        return false;
    };
    let bytes = sent.as_slice().get(REQUESTS..).unwrap_or_default();
    for most in lengths {
        if !is_read(alloc, bytes, *most, 3, Ending::BadMagic) {
            return false;
        }
    }
    true
}

#[test]
fn a_bad_head_is_told_again(rt: HostRuntime) {
    assert!(rt; is_told_again(rt.alloc(), &[1, 27, 116]));
}

/// Whether the reader gives all three requests, or tells again that there was no memory where a growth is refused.
fn ends_without<A: Allocator + Copy>(
    reader: &mut FrameReader<Source<'_>, A>,
    heap: &Refusing<Global>,
) -> bool {
    let given = cookies_read(reader, 3);
    if heap.is_armed() {
        return given == 3;
    }
    given < 3 && ends_behind(reader, 0, Ending::NoMemory)
}

fn is_read_without(heap: &Refusing<Global>) -> bool {
    let mut reader = FrameReader::new(heap, Counted::new(pieces(requests(109), 27)));
    ends_without(&mut reader, heap)
}

#[test]
fn each_growth_of_a_reader_is_refused(rt: HostRuntime) {
    let mut refused = 0u64;
    for nth in 1..100u64 {
        let heap = Refusing::new(rt.alloc(), nth);
        assert!(rt; is_read_without(&heap), "at {nth}");
        if heap.is_armed() {
            break;
        }
        refused = nth;
    }
    assert!(rt; refused >= 3);
}
