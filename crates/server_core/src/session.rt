//! Sessions of a server.

/// A session: its export's place in the configuration, from 0, and its number there.
#[derive(Clone, Copy, Debug, PartialEq, Eq)]
pub struct SessionId {
    pub export: u32,
    pub number: u64,
}
