//! A socket that is looked at for a while before its reader sleeps.
ghost use Rattle.std.specs.Prelude.{◌≤◌, length, IfSome};

use crate::interactive::InteractiveLoad;
use crate::spin::SpinLadder;
use libc::net::{MSG_DONTWAIT, POLLIN, poll, recv};
use libc::types::pollfd;
use nbd_policy::{SOCKET_LOOKS, next_skip};
use std::net::TcpStream;
use std::os::fd::AsRawFd;

/// Whether a client's next request mostly comes soon behind a reply. Where it doesn't, its reader mostly sleeps at once: each time that
/// nothing came while the socket was looked at, it isn't for twice as many reads.
#[derive(Drop)]
pub struct SpinRead {
    // In how many reads it isn't looked at from now on, and in how many it wasn't before it was last.
    left: u32,
    skipped: u32,
}

impl SpinRead {
    /// The socket is looked at from the first read on.
    pub fn new() -> SpinRead {
        SpinRead {
            left: 0,
            skipped: 0,
        }
    }

    /// Reads what comes within a while. Where other threads look at their sockets too, it lets others run in between. None where nothing
    /// came, or the connection failed, which the next read that waits tells.
    pub fn read(
        &mut self,
        peer: &TcpStream,
        buf: &mut [u8],
        load: &InteractiveLoad,
    ) -> Option<usize>
        ensures { IfSome result (λ n. n ≤ length buf.new) }
    {
        if self.left > 0 {
            self.left -= 1;
            return None;
        }
        load.begin_look();
        let came = read_soon(peer, buf, load);
        load.end_look();
        self.skipped = if came.is_some() {
            0
        } else {
            next_skip(self.skipped)
        };
        self.left = self.skipped;
        came
    }
}

/// Whether something has come, or the connection is over.
pub fn has_input(peer: &TcpStream) -> bool {
    let mut socket = [pollfd {
        fd: peer.as_raw_fd(),
        events: POLLIN,
        revents: 0,
    }];
    poll(&mut socket, 0) > 0
}

/// Reads what has come. None where nothing has, or the connection failed.
pub(crate) fn read_now(peer: &TcpStream, buf: &mut [u8]) -> Option<usize>
    ensures { IfSome result (λ n. n ≤ length buf.new) }
{
    let came = unsafe { recv(peer.as_raw_fd(), buf, MSG_DONTWAIT) };
    if came < 0 { None } else { Some(came as usize) }
}

/// Reads what has come at one of some looks.
fn read_soon(peer: &TcpStream, buf: &mut [u8], load: &InteractiveLoad) -> Option<usize>
    ensures { IfSome result (λ n. n ≤ length buf.new) }
{
    for look in 0..SOCKET_LOOKS {
        let came = read_now(peer, buf);
        if came.is_some() {
            return came;
        }
        let _ = SpinLadder::at_socket(load.looking()).rest_behind(look);
    }
    None
}
