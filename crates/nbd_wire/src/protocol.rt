//! Numbers of the protocol (NBD protocol, "Values"). A head carries them as they came, known or not.

/// Command type ("Request types"): the bytes of a range are asked for.
pub const READ: u16 = 0;
/// Command type: a payload is to be written.
pub const WRITE: u16 = 1;
/// Command type: the client ends the session. It has no reply.
pub const DISC: u16 = 2;
/// Command type: what was written is to be on stable storage before the reply.
pub const FLUSH: u16 = 3;
/// Command type: the client doesn't need the bytes of a range any more.
pub const TRIM: u16 = 4;
/// Command type: the client is about to read a range.
pub const CACHE: u16 = 5;
/// Command type: the bytes of a range are to be zero.
pub const WRITE_ZEROES: u16 = 6;

/// Command flag ("Command flags"): the change is to be on stable storage before the reply.
pub const FUA: u16 = 1;
/// Command flag of WRITE_ZEROES: the range is to keep its memory.
pub const NO_HOLE: u16 = 2;

/// Error of a reply ("Error values"): not permitted.
pub const EPERM: u32 = 1;
/// Error of a reply: input or output error.
pub const EIO: u32 = 5;
/// Error of a reply: no memory.
pub const ENOMEM: u32 = 12;
/// Error of a reply: invalid argument.
pub const EINVAL: u32 = 22;
/// Error of a reply: no space left.
pub const ENOSPC: u32 = 28;
