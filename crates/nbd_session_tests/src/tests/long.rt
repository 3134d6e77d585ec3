//! Long WRITEs that come in pieces.

use super::*;

/// Gives bytes, each time another count at most, and then ends or fails.
#[derive(Drop)]
struct Drip<'a> {
    bytes: &'a [u8],
    most: usize,
    fails: bool,
    /// Whether it says that it has read what it gives next.
    ahead: bool,
}

impl Drip<'_> {
    fn pass(&mut self, count: usize) {
        self.bytes = self.bytes.get(count..).unwrap_or_default();
        self.most = self.most % 70_001 * 7 % 70_001 + 1;
    }
}

impl Buffered for Drip<'_> {
    fn append_buffered<A: Allocator + Copy>(
        &mut self,
        payload: &mut Growing<A>,
        spares: &mut Spares<A>,
        whole: usize,
    ) -> Result<bool, NoMemory> {
        if !self.ahead {
            return Ok(false);
        }
        let next = self.bytes.get(..self.most).unwrap_or(self.bytes);
        let count = append_front(payload, spares, next, whole)?;
        self.pass(count);
        Ok(count > 0)
    }
}

impl Read for Drip<'_> {
    fn read(&mut self, buf: &mut [u8]) -> io::Result<usize> {
        if self.fails && self.bytes.is_empty() {
            return Err(io::Error::from(io::ErrorKind::TimedOut));
        }
        let count = buf.len().min(self.bytes.len()).min(self.most);
        buf[..count].copy_from_slice(&self.bytes[..count]);
        self.pass(count);
        Ok(count)
    }
}

fn push_payload(bytes: &mut Vec<u8>, length: u32) -> bool {
    for i in 0..length {
        if bytes.push((i % 251) as u8).is_err() {
            return false;
        }
    }
    true
}

/// The head of a WRITE of `length` bytes with the cookie 1, its payload, and a READ with the cookie 2.
fn long_write(alloc: Global, length: u32) -> Option<Vec<u8>> {
    let head = RequestHead {
        flags: 0,
        kind: 1,
        cookie: 1,
        offset: 512,
        length,
    };
    let mut bytes = Vec::new(alloc);
    let whole = bytes.extend_from_slice(&write_head(&head)).is_ok()
        && push_payload(&mut bytes, length)
        && bytes.extend_from_slice(READ).is_ok();
    if whole { Some(bytes) } else { None }
}

/// The payload that was sent: what stands between the two heads.
fn payload_in(sent: &[u8]) -> &[u8] {
    sent.get(28..sent.len().saturating_sub(28))
        .unwrap_or_default()
}

fn has_bytes<A: Allocator>(alloc: Global, payload: &Payload<A>, wanted: &[u8]) -> bool {
    let mut came = Vec::new(alloc);
    payload.append(&mut came).is_ok() && came.as_slice() == wanted
}

/// Whether it is a request with this cookie and this payload.
fn is_request<A: Allocator>(alloc: Global, frame: Frame<A>, cookie: u64, wanted: &[u8]) -> bool {
    match frame {
        Frame::Whole(request) => {
            request.head().cookie == cookie && has_bytes(alloc, request.payload(), wanted)
        }
        Frame::Ended(_) => false,
    }
}

fn is_end<A: Allocator>(frame: Frame<A>, ending: Ending) -> bool {
    match frame {
        Frame::Whole(_) => false,
        Frame::Ended(how) => how == ending,
    }
}

/// Whether the WRITE comes whole, and the READ behind it, where so many bytes come at first.
fn comes_in_pieces(alloc: Global, sent: &[u8], most: usize, ahead: bool) -> bool {
    let drip = Drip {
        bytes: sent,
        most,
        fails: false,
        ahead,
    };
    let mut reader = FrameReader::new(alloc, Counted::new(drip));
    is_request(alloc, reader.next(), 1, payload_in(sent))
        && is_request(alloc, reader.next(), 2, b"")
        && is_end(reader.next(), Ending::Over)
        && is_end(reader.next(), Ending::Over)
}

#[test]
fn a_payload_in_pieces(rt: HostRuntime) {
    for length in [4095, 4096, 65_508, 100_000, 300_000] {
        let sent = long_write(rt.alloc(), length).expect(&rt, "memory");
        for most in [1, 27, 28, 29, 4097, 65_536, 1_000_000] {
            for ahead in [false, true] {
                assert!(rt;
                    comes_in_pieces(rt.alloc(), &sent, most, ahead),
                    "{length} from {most}, {ahead}"
                );
            }
        }
    }
}

/// Whether the reading ends so, and stays so, where no more bytes come than these.
fn ends_early(alloc: Global, bytes: &[u8], fails: bool, ending: Ending) -> bool {
    let most = 30_000;
    let ahead = false;
    let drip = Drip {
        bytes,
        most,
        fails,
        ahead,
    };
    let mut reader = FrameReader::new(alloc, Counted::new(drip));
    is_end(reader.next(), ending) && is_end(reader.next(), ending)
}

#[test]
fn a_payload_that_ends_early(rt: HostRuntime) {
    let sent = long_write(rt.alloc(), 100_000).expect(&rt, "memory");
    for count in [28, 29, 65_536, 65_537, 100_027] {
        let bytes = sent.as_slice().get(..count).unwrap_or_default();
        assert!(rt;
            ends_early(rt.alloc(), bytes, false, Ending::Cut),
            "at {count}"
        );
        assert!(rt;
            ends_early(rt.alloc(), bytes, true, Ending::ReadFailed),
            "at {count}"
        );
    }
}

/// How many growths a long WRITE asks for, where each of them is refused in turn and ends the reading: none if one doesn't.
fn growths(alloc: Global, sent: &[u8], ahead: bool) -> u64 {
    for nth in 1..100u64 {
        let heap = Refusing::new(alloc, nth);
        let drip = Drip {
            bytes: sent,
            most: 70_000,
            fails: false,
            ahead,
        };
        let mut reader = FrameReader::new(&heap, Counted::new(drip));
        let first = reader.next();
        if heap.is_armed() {
            let comes = is_request(alloc, first, 1, payload_in(sent));
            return if comes { nth - 1 } else { 0 };
        }
        if !is_end(first, Ending::NoMemory) || !is_end(reader.next(), Ending::NoMemory) {
            return 0;
        }
    }
    0
}

#[test]
fn each_growth_for_a_payload_is_refused(rt: HostRuntime) {
    let sent = long_write(rt.alloc(), 100_000).expect(&rt, "memory");
    for ahead in [false, true] {
        let refused = growths(rt.alloc(), &sent, ahead);
        assert!(rt; refused >= 4, "{ahead}: {refused}");
    }
}
