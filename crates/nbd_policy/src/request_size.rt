//! How much a client asks for.

/// How much data a request has.
#[derive(Clone, Copy, Debug, PartialEq, Eq, Drop)]
pub enum RequestSize {
    /// No request, or requests of more than one size.
    Nothing,
    /// A request with short data, or with none.
    Short,
    /// A READ that asks for long data.
    LongRead,
    /// A WRITE that carries long data.
    LongWrite,
    /// A TRIM or WRITE_ZEROES of a long range.
    LongZero,
}

/// How much a session asks for at a moment.
#[derive(Clone, Copy, Debug, PartialEq, Eq, Drop)]
pub enum Load {
    /// Little: a short request behind which no other is ready, or a long one of less than 256 KiB at a time.
    Interactive,
    /// Much: others behind it, a longer one, several long ones at a time, or several that wait for their limit.
    Bulk,
}
