use crate::page::Page;
use bytes::Bytes;
use std::alloc::Allocator;

/// How the bytes of a payload lie.
#[derive(Drop)]
pub enum Pieces<'a, A: Allocator> {
    /// In one piece.
    One(&'a Bytes<A>),
    /// In pages in a row, from one of their bytes on before an end. Each is a `Bytes` (`Page::as_bytes`).
    Pages(&'a [Page<A>], usize, usize),
}
