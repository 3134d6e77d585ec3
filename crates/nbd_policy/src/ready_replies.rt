//! Which replies of long data a reader makes ready while its writer sends another.

ghost use Rattle.std.specs.Prelude.{◌≡◌};
ghost use Rattle.nbd_policy.specs.Policy.{makes_another_ready_by, makes_ready_by};

/// How many replies are ready at most, which a reader made ready for its writer.
pub const READY_REPLIES: usize = 4;

/// How many texts of replies have memory at most: one more is being made, and one sent.
pub const READY_TEXTS: usize = READY_REPLIES + 2;

/// How many bytes of data a reply has at most whose text is made.
pub const READY_BYTES: usize = 1_048_576;

/// How many replies a reader sees to being ready however much data they have.
const LONG_READY_REPLIES: usize = 2;

/// How many bytes of data are ready at most where one more is made.
const READY_DATA_BYTES: usize = 524_288;

/// Whether a reader makes a long reply ready while its writer is busy, where so many writers are at work, with so many processors. A
/// writer keeps two of them busy, its own and its client's. Where none is left, a reply costs more that two threads have a hand in.
pub fn makes_ready(writers: usize, processors: usize) -> bool
    ensures { result ≡ makes_ready_by writers processors }
{
    writers <= processors / 2
}

/// Whether a reader makes one more reply ready, where so many are, with so many bytes of data in all, and it made none yet behind this
/// hold (`is_first`) or did. Short ones are made up to four in a row; of long ones the next waits until a request comes.
pub fn makes_another_ready(is_first: bool, replies: usize, bytes: usize) -> bool
    ensures { result ≡ makes_another_ready_by is_first replies bytes }
{
    (is_first && replies < LONG_READY_REPLIES)
        || (replies < READY_REPLIES && bytes < READY_DATA_BYTES)
}
