//! Numbers of options and of their replies (NBD protocol, "Option types", "Option reply types").

/// Option ("Option types"): the client goes to an export without a reply.
pub const EXPORT_NAME: u32 = 1;
/// Option: the client ends the session.
pub const ABORT: u32 = 2;
/// Option: the names of all exports are asked for.
pub const LIST: u32 = 3;
/// Option: an export is asked about.
pub const INFO: u32 = 6;
/// Option: an export is asked about, and the client goes to it.
pub const GO: u32 = 7;

/// Reply ("Option reply types"): done.
pub const ACK: u32 = 1;
/// Reply: the name of an export.
pub const SERVER: u32 = 2;
/// Reply: information on an export.
pub const INFORMATION: u32 = 3;
/// Error: the option isn't served.
pub const UNSUP: u32 = 0x8000_0001;
/// Error: the server forbids it.
pub const POLICY: u32 = 0x8000_0002;
/// Error: the option's data is invalid.
pub const INVALID: u32 = 0x8000_0003;
/// Error: there is no such export.
pub const UNKNOWN: u32 = 0x8000_0006;
