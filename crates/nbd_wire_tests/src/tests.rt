use bytes::Bytes;
use nbd_base::NoMemory;
use nbd_wire::protocol::{DISC, READ, WRITE};
use nbd_wire::*;
use payload::{Growing, Payload, Pieces, Spares};
use refusing::Refusing;
use std::alloc::{AllocError, Allocator, Global};

// A WRITE of `deadbeef` at 4092, a READ of it, and a DISC.
const STREAM: &[u8; 88] =
    b"\x25\x60\x95\x13\0\0\0\x01\0\0\0\0\0\0\0\x01\0\0\0\0\0\0\x0f\xfc\0\0\0\x04\xde\xad\xbe\xef\
    \x25\x60\x95\x13\0\0\0\0\0\0\0\0\0\0\0\x02\0\0\0\0\0\0\x0f\xfc\0\0\0\x04\
    \x25\x60\x95\x13\0\0\0\x02\0\0\0\0\0\0\0\x03\0\0\0\0\0\0\0\0\0\0\0\0";

const WRITE_HEAD: RequestHead = RequestHead {
    flags: 0,
    kind: WRITE,
    cookie: 1,
    offset: 4092,
    length: 4,
};

fn plain(kind: u16, cookie: u64, offset: u64, length: u32) -> RequestHead {
    RequestHead {
        flags: 0,
        kind,
        cookie,
        offset,
        length,
    }
}

// Whether a payload is these bytes, which are few.
fn is_of<A: Allocator>(payload: &Payload<A>, bytes: &[u8]) -> bool {
    if payload.is_empty() {
        return bytes.is_empty();
    }
    payload.from(0) == bytes
}

// Whether these are the first requests of `STREAM`.
fn are_first<A: Allocator>(requests: &[Request<A>]) -> bool {
    let heads = [WRITE_HEAD, plain(READ, 2, 4092, 4), plain(DISC, 3, 0, 0)];
    let payloads = [b"\xde\xad\xbe\xef".as_slice(), b"", b""];
    requests.len() <= 3
        && requests.iter().zip(heads.iter().zip(payloads.iter())).all(|(
            request,
            (head, payload),
        )| request.head() == *head && is_of(request.payload(), payload))
}

#[test]
fn heads_of_requests(rt: HostRuntime) {
    let mut bytes = [0; 28];
    bytes.copy_from_slice(&STREAM[..28]);
    assert!(rt; write_head(&WRITE_HEAD) == bytes);
    assert!(rt; read_head(&bytes) == Ok(WRITE_HEAD));
    let long = RequestHead {
        length: 33_554_432,
        ..WRITE_HEAD
    };
    assert!(rt; read_head(&write_head(&long)) == Ok(long));
    let mut too_long = write_head(&RequestHead {
        length: 33_554_433,
        ..WRITE_HEAD
    });
    assert!(rt; read_head(&too_long) == Err(WireFault::TooLong));
    too_long[3] = 0x14;
    assert!(rt; read_head(&too_long) == Err(WireFault::BadMagic));
}

// Whether two replies are written.
fn writes_two(out: &mut Vec<u8, Global>) -> bool {
    write_option_reply(3, 2, b"\0\0\0\x01a", out) == Ok(())
        && write_option_reply(3, 0x8000_0003, b"", out) == Ok(())
}

#[test]
fn options_and_their_replies(rt: HostRuntime) {
    let mut head = *b"IHAVEOPT\0\0\0\x07\0\0\0\x0e";
    assert!(rt; write_option_head(7, 14) == head);
    assert!(rt; read_option_head(&head) == Ok((7, 14)));
    head[7] = 0x55;
    assert!(rt; read_option_head(&head) == Err(WireFault::BadMagic));
    let mut out = Vec::new(rt.alloc());
    assert!(rt; writes_two(&mut out));
    let texts = b"\0\x03\xe8\x89\x04\x55\x65\xa9\0\0\0\x03\0\0\0\x02\0\0\0\x05\0\0\0\x01a\
        \0\x03\xe8\x89\x04\x55\x65\xa9\0\0\0\x03\x80\0\0\x03\0\0\0\0";
    assert!(rt; out.as_slice() == texts.as_slice());
}

// Whether a reply that tells of an error is written.
fn writes_refused(out: &mut Vec<u8, Global>) -> bool {
    let refused = Reply::<Global>::bare(28, 2);
    (refused.error(), refused.cookie()) == (28, 2)
        && refused.content().is_empty()
        && write_reply(&refused, out) == Ok(())
}

// Whether a reply with four bytes is written.
fn writes_read(alloc: Global, out: &mut Vec<u8, Global>) -> bool {
    match Payload::copied(alloc, 4092, b"\xde\xad\xbe\xef") {
        Ok(content) => write_reply(&Reply::done(4, content), out) == Ok(()),
        Err(NoMemory) => false,
    }
}

#[test]
fn replies(rt: HostRuntime) {
    let mut out = Vec::new(rt.alloc());
    assert!(rt; writes_refused(&mut out));
    assert!(rt; writes_read(rt.alloc(), &mut out));
    let texts =
        b"\x67\x44\x66\x98\0\0\0\x1c\0\0\0\0\0\0\0\x02\x67\x44\x66\x98\0\0\0\0\0\0\0\0\0\0\0\x04\xde\xad\xbe\xef";
    assert!(rt; out.as_slice() == texts.as_slice());
}

// Whether a payload is these bytes in one piece.
fn is_one_piece<A: Allocator>(payload: &Payload<A>, bytes: &[u8]) -> bool {
    match payload.pieces() {
        Pieces::One(piece) => piece.as_slice() == bytes,
        Pieces::Pages(..) => false,
    }
}

// Whether a request holds these bytes as they are.
fn is_request(request: &Request<Global>) -> bool {
    request.head() == WRITE_HEAD && is_one_piece(request.payload(), b"\xde\xad\xbe\xef")
}

// Whether a reply does.
fn is_reply(reply: &Reply<Global>) -> bool {
    (reply.error(), reply.cookie()) == (0, 4) && is_one_piece(reply.content(), b"\xde\xad\xbe\xef")
}

#[test]
fn messages_of_bytes(rt: HostRuntime) {
    let bytes: Bytes = Bytes::from_static(b"\xde\xad\xbe\xef");
    let copy = bytes.clone().expect(&rt, "memory");
    let request = Request::of_bytes(WRITE_HEAD, bytes);
    assert!(rt; is_request(&request));
    let reply = Reply::of_bytes(4, copy);
    assert!(rt; is_reply(&reply));
}

// Requests on this heap.
type Requests<A> = Vec<Request<A>, A>;

// Feeds a piece, where no page is spare.
fn feed<A: Allocator + Copy>(
    decoder: &mut Decoder<A>,
    piece: &[u8],
    requests: &mut Requests<A>,
) -> Result<(), FeedFault> {
    let mut spares = Spares::new(*requests.allocator());
    decoder.feed(&mut spares, piece, requests)
}

// Whether the stream is decoded in pieces of so many bytes.
fn decodes<A: Allocator + Copy>(
    decoder: &mut Decoder<A>,
    requests: &mut Requests<A>,
    size: usize,
) -> bool {
    if size == 0 || feed(decoder, &[], requests) != Ok(()) {
        return false;
    }
    for (i, piece) in STREAM.chunks(size).enumerate() {
        if feed(decoder, piece, requests) != Ok(()) {
            return false;
        }
        if i == 0 && size == 27 && (requests.len(), decoder.rest()) != (0, 27) {
            return false;
        }
    }
    (requests.len(), decoder.rest()) == (3, 0) && are_first(requests.as_slice())
}

// The same by a decoder of its own.
fn is_decoded(alloc: Global, size: usize) -> bool {
    let mut decoder = Decoder::new(alloc);
    let mut requests = Vec::new(alloc);
    decodes(&mut decoder, &mut requests, size)
}

#[test]
fn pieces_of_any_size(rt: HostRuntime) {
    for size in [1, 27, 88] {
        assert!(rt; is_decoded(rt.alloc(), size), "in pieces of {size}");
    }
}

// Whether three requests are given before the fault, and none behind it.
fn gives_three(decoder: &mut Decoder<Global>, requests: &mut Requests<Global>) -> bool {
    let mut stream = [0; 116];
    stream[..88].copy_from_slice(STREAM);
    feed(decoder, &stream, requests) == Err(FeedFault::BadMagic)
        && (requests.len(), decoder.rest()) == (3, 0)
        && are_first(requests.as_slice())
        && feed(decoder, STREAM, requests) == Err(FeedFault::Failed)
        && requests.len() == 3
}

#[test]
fn requests_before_a_fault_are_given(rt: HostRuntime) {
    let mut decoder = Decoder::new(rt.alloc());
    let mut requests = Vec::new(rt.alloc());
    assert!(rt; gives_three(&mut decoder, &mut requests));
}

// A heap that may refuse.
type Refused<'a> = &'a Refusing<Global>;

// Whether the first requests of the stream are given: all where nothing came to the growth that is refused, else fewer, and no more
// behind it.
fn gives_first<'a>(
    heap: Refused<'a>,
    decoder: &mut Decoder<Refused<'a>>,
    requests: &mut Requests<Refused<'a>>,
) -> bool {
    let outcome = feed(decoder, STREAM, requests);
    let given = requests.len();
    if !are_first(requests.as_slice()) {
        return false;
    }
    if heap.is_armed() {
        return (outcome, given) == (Ok(()), 3);
    }
    (outcome, decoder.rest()) == (Err(FeedFault::NoMemory), 0)
        && given < 3
        && feed(decoder, STREAM, requests) == Err(FeedFault::Failed)
        && requests.len() == given
}

// The same by a decoder of its own.
fn are_given(heap: &Refusing<Global>) -> bool {
    let mut decoder = Decoder::new(heap);
    let mut requests = Vec::new(heap);
    gives_first(heap, &mut decoder, &mut requests)
}

#[test]
fn feed_with_each_growth_refused(rt: HostRuntime) {
    let heap = Refusing::new(rt.alloc(), 0);
    let mut refused = 0u64;
    for nth in 1..100u64 {
        heap.arm(nth);
        assert!(rt; are_given(&heap), "at {nth}");
        if heap.is_armed() {
            break;
        }
        refused = nth;
    }
    assert!(rt; refused >= 3);
}

// A READ, and the head of a WRITE of `length` bytes with the first 60 of its payload.
fn long_write(
    heap: &Refusing<Global>,
    length: u32,
) -> Result<Vec<u8, &Refusing<Global>>, NoMemory> {
    let mut bytes = Vec::new(heap);
    bytes.extend_from_slice(STREAM.get(32..60).unwrap_or_default())?;
    bytes.extend_from_slice(&write_head(&RequestHead {
        length,
        ..WRITE_HEAD
    }))?;
    bytes.extend_from_slice(&[7; 60])?;
    Ok(bytes)
}

// Whether the READ is given, and a begun WRITE of 100 bytes is kept.
fn begins<'a>(
    heap: Refused<'a>,
    decoder: &mut Decoder<Refused<'a>>,
    requests: &mut Requests<Refused<'a>>,
) -> bool {
    match long_write(heap, 100) {
        Ok(bytes) => {
            feed(decoder, bytes.as_slice(), requests) == Ok(())
                && (requests.len(), decoder.rest()) == (1, 88)
        }
        Err(NoMemory) => false,
    }
}

// Whether it stays where one of 101 bytes is wanted, and where there is no memory.
fn stays<'a>(heap: Refused<'a>, decoder: &mut Decoder<Refused<'a>>) -> bool {
    let mut spares = Spares::new(heap);
    if !matches!(decoder.take_begun(&mut spares, 101), Ok(None)) {
        return false;
    }
    heap.arm(1);
    decoder.take_begun(&mut spares, 100).is_err() && decoder.rest() == 88
}

// Whether what came of a payload is sixty sevens.
fn is_sevens(payload: Growing<Refused<'_>>, alloc: Global) -> bool {
    match payload.finish() {
        Ok(payload) => {
            let mut came = Vec::new(alloc);
            payload.append(&mut came).is_ok() && came.as_slice() == [7; 60].as_slice()
        }
        Err(NoMemory) => false,
    }
}

// Whether it is handed over with the sixty bytes that came.
fn is_handed_over<'a>(
    heap: Refused<'a>,
    decoder: &mut Decoder<Refused<'a>>,
    alloc: Global,
) -> bool {
    match decoder.take_begun(&mut Spares::new(heap), 100) {
        Ok(Some(begun)) => {
            let (head, payload) = begun.into_parts();
            (head.length, payload.len()) == (100, 60) && is_sevens(payload, alloc)
        }
        _ => false,
    }
}

// Whether the stream is decoded behind it, and nothing is handed over behind a fault.
fn goes_on<'a>(decoder: &mut Decoder<Refused<'a>>, requests: &mut Requests<Refused<'a>>) -> bool {
    decoder.rest() == 0
        && feed(decoder, STREAM, requests) == Ok(())
        && (requests.len(), decoder.rest()) == (4, 0)
        && are_first(requests.as_slice().get(1..).unwrap_or_default())
        && feed(decoder, &[0; 28], requests).is_err()
        && matches!(
            decoder.take_begun(&mut Spares::new(*requests.allocator()), 0),
            Ok(None)
        )
}

#[test]
fn a_long_write_is_handed_over(rt: HostRuntime) {
    let heap = Refusing::new(rt.alloc(), 0);
    let mut requests = Vec::new(&heap);
    let mut decoder = Decoder::new(&heap);
    assert!(rt; begins(&heap, &mut decoder, &mut requests));
    assert!(rt; stays(&heap, &mut decoder));
    assert!(rt; is_handed_over(&heap, &mut decoder, rt.alloc()));
    assert!(rt; goes_on(&mut decoder, &mut requests));
}

// Whether no WRITE of so many bytes or more begins with a part of a long one.
fn begins_none(heap: &Refusing<Global>, from: usize, to: usize, length: u32, least: usize) -> bool {
    match long_write(heap, length) {
        Ok(bytes) => {
            let part = bytes.as_slice().get(from..to).unwrap_or_default();
            matches!(begin_write(&mut Spares::new(heap), part, least), Ok(None))
        }
        Err(NoMemory) => false,
    }
}

// Whether the parts of a begun WRITE, of which no byte came, are those that it is made of again.
fn is_of_its_parts(begun: BegunWrite<Refused<'_>>) -> bool {
    let (head, payload) = begun.into_parts();
    let right = (head.cookie, head.length, payload.len()) == (1, 33_554_432, 0);
    let (again, none) = BegunWrite::new(head, payload).into_parts();
    right && (again, none.len()) == (head, 0)
}

// Whether a WRITE begins with its head.
fn begins_with_its_head(heap: &Refusing<Global>) -> bool {
    match long_write(heap, 33_554_432) {
        Ok(bytes) => {
            let part = bytes.as_slice().get(28..56).unwrap_or_default();
            match begin_write(&mut Spares::new(heap), part, 100) {
                Ok(Some(begun)) => is_of_its_parts(begun),
                _ => false,
            }
        }
        Err(NoMemory) => false,
    }
}

#[test]
fn only_a_part_of_a_long_write_begins(rt: HostRuntime) {
    let heap = Refusing::new(rt.alloc(), 0);
    for (from, to, length, least) in [
        (28, 55, 100, 0),
        (28, 116, 60, 0),
        (28, 116, 99, 100),
        (29, 116, 100, 0),
        (0, 116, 100, 0),
        (28, 116, 33_554_433, 0),
    ] {
        assert!(rt;
            begins_none(&heap, from, to, length, least),
            "{from}, {to}, {length}, {least}"
        );
    }
    assert!(rt; begins_with_its_head(&heap));
}

// A copy that is made again where there was no memory.
fn insisted<A: Allocator + Copy>(request: &Request<A>) -> Result<Request<A>, AllocError> {
    match request.clone() {
        Ok(copy) => Ok(copy),
        Err(_) => request.clone(),
    }
}

// Whether a copy is as the request is.
fn is_copied<A: Allocator + Copy>(request: &Request<A>) -> bool {
    match insisted(request) {
        Ok(copy) => {
            copy.head() == WRITE_HEAD
                && is_of(copy.payload(), b"\xde\xad\xbe\xef")
                && is_of(request.payload(), b"\xde\xad\xbe\xef")
        }
        Err(_) => false,
    }
}

// The same of a request for whose copy a growth is refused.
fn is_cloned(heap: &Refusing<Global>, nth: u64) -> bool {
    heap.arm(0);
    match Payload::copied(heap, 4092, b"\xde\xad\xbe\xef") {
        Ok(payload) => {
            heap.arm(nth);
            is_copied(&Request::new(WRITE_HEAD, payload))
        }
        Err(NoMemory) => false,
    }
}

#[test]
fn a_request_is_cloned(rt: HostRuntime) {
    let heap = Refusing::new(rt.alloc(), 0);
    for nth in 1..100u64 {
        assert!(rt; is_cloned(&heap, nth), "at {nth}");
        if heap.is_armed() {
            break;
        }
    }
}

// A byte, for what is written behind which a growth is refused.
fn seven(heap: &Refusing<Global>, nth: u64) -> Result<Vec<u8, Refused<'_>>, AllocError> {
    heap.arm(0);
    let mut out = Vec::new(heap);
    out.push(7)?;
    heap.arm(nth);
    Ok(out)
}

// Whether a reply is written: where a growth was refused, nothing at first, and all when it is written again.
fn is_written<'a>(
    heap: Refused<'a>,
    reply: &Reply<Global>,
    out: &mut Vec<u8, Refused<'a>>,
) -> bool {
    let outcome = write_reply(reply, out);
    if heap.is_armed() {
        return (outcome, out.len()) == (Ok(()), 81);
    }
    outcome == Err(NoMemory)
        && out.as_slice() == [7].as_slice()
        && write_reply(reply, out) == Ok(())
        && out.len() == 81
}

// The same behind a byte.
fn reply_is_written(heap: &Refusing<Global>, nth: u64, reply: &Reply<Global>) -> bool {
    match seven(heap, nth) {
        Ok(mut out) => is_written(heap, reply, &mut out),
        Err(_) => false,
    }
}

#[test]
fn replies_with_each_growth_refused(rt: HostRuntime) {
    let content = Payload::copied(rt.alloc(), 4060, &[9; 64]).expect(&rt, "memory");
    let reply = Reply::done(4, content);
    let heap = Refusing::new(rt.alloc(), 0);
    let mut refused = 0u64;
    for nth in 1..100u64 {
        assert!(rt; reply_is_written(&heap, nth, &reply), "at {nth}");
        if heap.is_armed() {
            break;
        }
        refused = nth;
    }
    assert!(rt; refused >= 2);
}

// Whether a reply to an option is written, likewise.
fn is_option_reply_written<'a>(heap: Refused<'a>, out: &mut Vec<u8, Refused<'a>>) -> bool {
    let outcome = write_option_reply(3, 1, &[9; 64], out);
    if heap.is_armed() {
        return (outcome, out.len()) == (Ok(()), 85);
    }
    outcome == Err(NoMemory)
        && out.as_slice() == [7].as_slice()
        && write_option_reply(3, 1, &[9; 64], out) == Ok(())
        && out.len() == 85
}

// The same behind a byte.
fn option_reply_is_written(heap: &Refusing<Global>, nth: u64) -> bool {
    match seven(heap, nth) {
        Ok(mut out) => is_option_reply_written(heap, &mut out),
        Err(_) => false,
    }
}

#[test]
fn option_replies_with_each_growth_refused(rt: HostRuntime) {
    let heap = Refusing::new(rt.alloc(), 0);
    let mut refused = 0u64;
    for nth in 1..100u64 {
        assert!(rt; option_reply_is_written(&heap, nth), "at {nth}");
        if heap.is_armed() {
            break;
        }
        refused = nth;
    }
    assert!(rt; refused >= 2);
}

// Each law holds, so it can be called anywhere.
#[test]
fn laws_of_spelling(_rt: HostRuntime) {
    one_head();
    one_request();
    one_option();
    one_option_head();
    one_reply();
    one_option_reply();
}
