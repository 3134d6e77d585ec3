ghost use Rattle.std.specs.Prelude.{◌≡◌, ◌||◌};
ghost use Rattle.nbd_commands.specs.Verdict.{is_write, is_trim, is_write_zeroes, is_past_end, is_unknown_type, has_unknown_flag, is_too_long_read, has_invalid_range, has_no_space, refusal_at, verdict_at, error_of};

use nbd_wire::protocol::{
    CACHE, EINVAL, ENOSPC, EPERM, FLUSH, FUA, NO_HOLE, READ, TRIM, WRITE, WRITE_ZEROES,
};
use nbd_wire::{MAX_PAYLOAD, Request};
use std::alloc::Allocator;
use thiserror::Error;

/// What a verdict asks of an export: its size in bytes, and whether it is read-only.
#[derive(Clone, Copy, Debug, PartialEq, Eq)]
pub struct ExportInfo {
    pub size: u64,
    pub read_only: bool,
}

/// Why a request is refused. Cases of one error are told apart, since the first that fits is given.
#[derive(Clone, Copy, Debug, PartialEq, Eq, Error)]
pub enum RequestRefusal {
    #[error("unknown command type")]
    UnknownType,
    /// A flag other than FUA, or on WRITE_ZEROES NO_HOLE.
    #[error("unknown command flag")]
    UnknownFlag,
    /// WRITE, TRIM or WRITE_ZEROES on a read-only export.
    #[error("the export is read-only")]
    ReadOnly,
    /// READ of more than 32 MiB.
    #[error("too long a range")]
    TooLong,
    /// READ, TRIM or CACHE past the end.
    #[error("invalid range")]
    InvalidRange,
    /// WRITE or WRITE_ZEROES past the end.
    #[error("no space")]
    NoSpace,
}

impl RequestRefusal {
    /// The error of the reply (NBD protocol, "Error values").
    pub fn error(self) -> u32
        ensures { result ≡ error_of self }
    {
        match self {
            RequestRefusal::UnknownType
            | RequestRefusal::UnknownFlag
            | RequestRefusal::TooLong
            | RequestRefusal::InvalidRange => EINVAL,
            RequestRefusal::ReadOnly => EPERM,
            RequestRefusal::NoSpace => ENOSPC,
        }
    }
}

fn is_unknown_type<A: Allocator>(request: &Request<A>) -> bool
    ensures { result ≡ is_unknown_type request.now }
{
    !matches!(
        request.head().kind,
        READ | WRITE | FLUSH | TRIM | CACHE | WRITE_ZEROES
    )
}

// The flags that may be set are the lowest bits, so that one comparison tells of a higher one.
fn has_unknown_flag<A: Allocator>(request: &Request<A>) -> bool
    ensures { result ≡ has_unknown_flag request.now }
{
    let head = request.head();
    let most = if head.kind == WRITE_ZEROES {
        FUA | NO_HOLE
    } else {
        FUA
    };
    head.flags > most
}

fn is_change<A: Allocator>(request: &Request<A>) -> bool
    ensures { result
        ≡ (is_write request.now || is_trim request.now || is_write_zeroes request.now) }
{
    let kind = request.head().kind;
    kind == WRITE || kind == TRIM || kind == WRITE_ZEROES
}

fn is_too_long_read<A: Allocator>(request: &Request<A>) -> bool
    ensures { result ≡ is_too_long_read request.now }
{
    let head = request.head();
    head.kind == READ && head.length > MAX_PAYLOAD
}

fn is_past_end<A: Allocator>(size: u64, request: &Request<A>) -> bool
    ensures { result ≡ is_past_end size request.now }
{
    let head = request.head();
    u128::from(head.offset) + u128::from(head.length) > u128::from(size)
}

fn has_invalid_range<A: Allocator>(size: u64, request: &Request<A>) -> bool
    ensures { result ≡ has_invalid_range size request.now }
{
    let kind = request.head().kind;
    (kind == READ || kind == TRIM || kind == CACHE) && is_past_end(size, request)
}

fn has_no_space<A: Allocator>(size: u64, request: &Request<A>) -> bool
    ensures { result ≡ has_no_space size request.now }
{
    let kind = request.head().kind;
    (kind == WRITE || kind == WRITE_ZEROES) && is_past_end(size, request)
}

/// Why the request is refused, None where it is served: the first case that fits.
pub fn refusal<A: Allocator>(info: &ExportInfo, request: &Request<A>) -> Option<RequestRefusal>
    ensures { result ≡ refusal_at info.now.size info.now.read_only request.now }
{
    if is_unknown_type(request) {
        Some(RequestRefusal::UnknownType)
    } else if has_unknown_flag(request) {
        Some(RequestRefusal::UnknownFlag)
    } else if info.read_only && is_change(request) {
        Some(RequestRefusal::ReadOnly)
    } else if is_too_long_read(request) {
        Some(RequestRefusal::TooLong)
    } else if has_invalid_range(info.size, request) {
        Some(RequestRefusal::InvalidRange)
    } else if has_no_space(info.size, request) {
        Some(RequestRefusal::NoSpace)
    } else {
        None
    }
}

/// The error of a request, 0 where it is served. How many requests wait isn't asked.
pub fn verdict<A: Allocator>(info: &ExportInfo, request: &Request<A>) -> u32
    ensures { result ≡ verdict_at info.now.size info.now.read_only request.now }
{
    match refusal(info, request) {
        Some(refusal) => refusal.error(),
        None => 0,
    }
}
