//! What the threads of a connection decide by values.
ghost use Rattle.std.specs.Prelude.{◌≡◌, ◌≢◌, ◌&&◌, ◌||◌, not};

use nbd_policy::RequestSize;

/// The size of all requests that a hold handed in, behind one more. Nothing where they aren't of one size.
pub fn joined_size(before: RequestSize, next: RequestSize) -> RequestSize
    ensures same { before ≡ next → result ≡ before }
    ensures other { before ≢ next → result ≡ RequestSize.Nothing }
{
    if before == next {
        before
    } else {
        RequestSize::Nothing
    }
}

/// Whether a reader hands nothing in for now, since other rates are asked for its export. Where its session is over it waits for nothing.
pub fn waits_for_retune(is_asked: bool, is_over: bool) -> bool
    ensures { result ≡ (is_asked && not is_over) }
{
    is_asked && !is_over
}

/// Whether a reader wakes its writer behind a hold: long data is to be read, or not all replies are taken and written.
pub fn wakes_writer(reads_long: bool, is_written: bool) -> bool
    ensures { result ≡ (reads_long || not is_written) }
{
    reads_long || !is_written
}

/// Whether a session's writer chooses what waits behind a hold of its reader: it is woken for long data, and no client that doesn't read
/// keeps it from that, nor the session's end.
pub fn writer_chooses(reads_long: bool, is_unread: bool, is_over: bool) -> bool
    ensures { result ≡ (reads_long && not is_unread && not is_over) }
{
    reads_long && !is_unread && !is_over
}

/// Whether a writer goes on by itself: something is due, and this round wasn't for nothing.
pub fn writer_goes_on(is_due: bool, wrote: bool, performed: bool) -> bool
    ensures { result ≡ (is_due && (wrote || performed)) }
{
    is_due && (wrote || performed)
}
