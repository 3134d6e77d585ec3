ghost use Rattle.std.specs.Prelude.{◌≡◌, ◌+◌, ◌≤◌, [], length, replicate, false, IsTrue, IfOk, IfErr};
ghost use Rattle.std.specs.Bool.{OnTrue, OnFalse};
ghost use Rattle.payload.specs.Bytes.{range_of, overwritten};
ghost use Rattle.nbd_commands.specs.Verdict.{verdict_at};
ghost use Rattle.nbd_commands.specs.Meaning.{image_after, data_of, may_want_memory};

use export_store::Image;
use nbd_wire::Request;
use nbd_wire::protocol::{ENOMEM, NO_HOLE, READ, TRIM, WRITE, WRITE_ZEROES};
use payload::Payload;
use std::alloc::Allocator;

/// What a request that was performed gives back: the error and the data of its reply, and whether memory was there.
#[derive(Drop)]
pub struct Done<A: Allocator> {
    pub error: u32,
    pub content: Payload<A>,
    pub memory: bool,
}

impl<A: Allocator> Done<A> {
    fn with(content: Payload<A>) -> Done<A>
        ensures error { result.error ≡ 0 }
        ensures content { result.content ≡ content }
        ensures memory { IsTrue result.memory }
    {
        Done {
            error: 0,
            content,
            memory: true,
        }
    }

    fn without_memory() -> Done<A>
        ensures error { result.error ≡ 12 }
        ensures content { result.content ≡ [] }
        ensures memory { result.memory ≡ false }
    {
        Done {
            error: ENOMEM,
            content: Payload::new(),
            memory: false,
        }
    }
}

fn read<I: Image>(image: &I, offset: usize, count: usize) -> Done<I::Alloc>
    requires { offset + count ≤ length (I.bytes image.now) }
    ensures done { OnTrue result.memory ((result.error ≡ 0)
        × (result.content ≡ range_of (I.bytes image.now) offset count)) }
    ensures no_memory { OnFalse result.memory ((result.error ≡ 12) × (result.content ≡ [])) }
{
    match image.read(offset, count) {
        Ok(content) => Done::with(content),
        Err(_) => Done::without_memory(),
    }
}

fn write<I: Image>(image: &mut I, offset: usize, piece: &Payload<I::Alloc>) -> Done<I::Alloc>
    requires { offset + length piece.now ≤ length (I.bytes image.old) }
    ensures done { OnTrue result.memory ((result.error ≡ 0) × (result.content ≡ [])
        × (I.bytes image.new
        ≡ overwritten (I.bytes image.old) offset (length piece.now) piece.now)) }
    ensures no_memory { OnFalse result.memory ((result.error ≡ 12) × (result.content ≡ [])
        × (I.bytes image.new ≡ I.bytes image.old)) }
{
    match image.write(offset, piece) {
        Ok(()) => Done::with(Payload::new()),
        Err(_) => Done::without_memory(),
    }
}

fn zero<I: Image>(image: &mut I, offset: usize, count: usize, keep: bool) -> Done<I::Alloc>
    requires { offset + count ≤ length (I.bytes image.old) }
    ensures done { OnTrue result.memory ((result.error ≡ 0) × (result.content ≡ [])
        × (I.bytes image.new ≡ overwritten (I.bytes image.old) offset count (replicate count 0))) }
    ensures no_memory { OnFalse result.memory ((result.error ≡ 12) × (result.content ≡ [])
        × (I.bytes image.new ≡ I.bytes image.old) × IsTrue keep) }
{
    match image.zero(offset, count, keep) {
        Ok(()) => Done::with(Payload::new()),
        Err(_) => Done::without_memory(),
    }
}

/// Whether the request may want memory when it is performed: a READ, a WRITE, or a WRITE_ZEROES with NO_HOLE.
///
/// No other is ever answered ENOMEM.
pub fn may_want_memory<A: Allocator>(request: &Request<A>) -> bool
    ensures { result ≡ may_want_memory request.now }
{
    let head = request.head();
    match head.kind {
        READ | WRITE => true,
        WRITE_ZEROES => head.flags / NO_HOLE % 2 == 1,
        _ => false,
    }
}

/// Performs a request that isn't refused.
///
/// Where memory was refused the error is ENOMEM (12) and no byte changed; that is so of READ, WRITE and WRITE_ZEROES
/// with NO_HOLE alone. The condition is the verdict of an export that isn't read-only: what a read-only export serves,
/// each export of its size serves.
pub fn apply<I: Image>(image: &mut I, request: &Request<I::Alloc>) -> Done<I::Alloc>
    requires { verdict_at (length (I.bytes image.old)) false request.now ≡ 0 }
    ensures done { OnTrue result.memory ((result.error ≡ 0)
        × (result.content ≡ data_of (I.bytes image.old) request.now)
        × (I.bytes image.new ≡ image_after (I.bytes image.old) request.now)) }
    ensures no_memory { OnFalse result.memory ((result.error ≡ 12) × (result.content ≡ [])
        × (I.bytes image.new ≡ I.bytes image.old)
        × IsTrue (may_want_memory request.now)) }
{
    let head = request.head();
    let offset = head.offset as usize;
    let count = head.length as usize;
    match head.kind {
        READ => read(image, offset, count),
        WRITE => write(image, offset, request.payload()),
        TRIM => zero(image, offset, count, false),
        WRITE_ZEROES => zero(image, offset, count, head.flags / NO_HOLE % 2 == 1),
        _ => Done::with(Payload::new()),
    }
}

// Performs a WRITE, whose pages the image may take.
fn write_owned<I: Image>(
    image: &mut I,
    request: Request<I::Alloc>,
) -> Result<Payload<I::Alloc>, Request<I::Alloc>>
    requires served { verdict_at (length (I.bytes image.old)) false request ≡ 0 }
    requires write { request.head.kind ≡ 1 }
    ensures done { IfOk result (λ content. (content ≡ data_of (I.bytes image.old) request)
        × (I.bytes image.new ≡ image_after (I.bytes image.old) request)) }
    ensures no_memory { IfErr result (λ back. (back ≡ request)
        × (I.bytes image.new ≡ I.bytes image.old)) }
{
    let (head, mut payload) = request.into_parts();
    match image.put(head.offset as usize, &mut payload) {
        Ok(()) => Ok(Payload::new()),
        Err(_) => Err(Request::new(head, payload)),
    }
}

/// Performs a request that isn't refused and that nobody needs any more, as `apply` does: the pages of a WRITE may become the image's
/// without one more owner. The answer is the data of its reply, or the request itself where memory was refused: then no byte changed.
pub fn apply_owned<I: Image>(
    image: &mut I,
    request: Request<I::Alloc>,
) -> Result<Payload<I::Alloc>, Request<I::Alloc>>
    requires { verdict_at (length (I.bytes image.old)) false request ≡ 0 }
    ensures done { IfOk result (λ content. (content ≡ data_of (I.bytes image.old) request)
        × (I.bytes image.new ≡ image_after (I.bytes image.old) request)) }
    ensures no_memory { IfErr result (λ back. (back ≡ request)
        × (I.bytes image.new ≡ I.bytes image.old)
        × IsTrue (may_want_memory request)) }
{
    if request.head().kind == WRITE {
        return write_owned(image, request);
    }
    let done = apply(image, &request);
    if done.memory {
        Ok(done.content)
    } else {
        Err(request)
    }
}
