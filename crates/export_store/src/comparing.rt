//! Whether a page is what bytes put over an old one make.
ghost use Rattle.std.specs.Prelude.{◌≡◌, ◌+◌, ◌≤◌, ◌↔◌, length, IsTrue};
ghost use Rattle.payload.specs.Bytes.{range_of, overwritten};

use payload::{Page, Payload};
use std::alloc::Allocator;

// Whether bytes are the same. It looks at all of them without a branch, so many are compared at once.
fn are_same(one: &[u8], other: &[u8]) -> bool
    requires { length one.now ≡ length other.now }
    ensures { IsTrue result ↔ one.now ≡ other.now }
{
    let mut same = true;
    for at in 0..one.len() {
        same &= one[at] == other[at];
    }
    same
}

// Whether so many bytes of a piece, from one on, stand among others from the start on.
fn stands_in<A: Allocator>(
    piece: &Payload<A>,
    bytes: &[u8],
    start: usize,
    from: usize,
    count: usize,
) -> bool
    requires fits { start + count ≤ length bytes.now }
    requires within { from + count ≤ length piece.now }
    ensures { IsTrue result ↔ range_of bytes.now start count ≡ range_of piece.now from count }
{
    // No place is past the greatest usize, since the length is one.
    let _len = piece.len();
    let mut done = 0;
    while done < count {
        let part = piece.from(from + done);
        let n = part.len().min(count - done);
        if !are_same(&bytes[start + done..start + done + n], &part[..n]) {
            return false;
        }
        done += n;
    }
    true
}

/// Whether a page is what `Payload::put_over` of a piece makes of an old one. It copies nothing.
pub(crate) fn is_put_over<A: Allocator>(
    piece: &Payload<A>,
    page: &Page<A>,
    old: &Page<A>,
    start: usize,
    from: usize,
    count: usize,
) -> bool
    requires fits { start + count ≤ 4096 }
    requires within { from + count ≤ length piece.now }
    ensures { IsTrue result
        ↔ page.now ≡ overwritten old.now start count (range_of piece.now from count) }
{
    let end = start + count;
    let (new, old) = (page.as_slice(), old.as_slice());
    if !are_same(&new[..start], &old[..start]) {
        return false;
    }
    if !are_same(&new[end..], &old[end..]) {
        return false;
    }
    stands_in(piece, new, start, from, count)
}
