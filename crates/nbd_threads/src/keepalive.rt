//! Probes of connections over TCP whose other side may be gone.

use libc::net::{
    IPPROTO_TCP, SO_KEEPALIVE, SOL_SOCKET, TCP_KEEPCNT, TCP_KEEPIDLE, TCP_KEEPINTVL, setsockopt,
};
use nbd_policy::{KEEPALIVE_IDLE_S, KEEPALIVE_INTERVAL_S, KEEPALIVE_PROBES};
use std::net::TcpStream;
use std::os::fd::AsRawFd;

/// The value of an option of a socket: a number of 32 bits, as this processor keeps it.
fn number(value: u8) -> [u8; 16] {
    let mut bytes = [0u8; 16];
    bytes[0] = value;
    bytes
}

/// Has the system find out where a client over TCP is gone without a word (tcp(7)). Where it can't be set, all stays.
pub fn keep_alive(peer: &TcpStream) {
    let fd = peer.as_raw_fd();
    unsafe {
        setsockopt(fd, IPPROTO_TCP, TCP_KEEPIDLE, &number(KEEPALIVE_IDLE_S), 4);
        setsockopt(
            fd,
            IPPROTO_TCP,
            TCP_KEEPINTVL,
            &number(KEEPALIVE_INTERVAL_S),
            4,
        );
        setsockopt(fd, IPPROTO_TCP, TCP_KEEPCNT, &number(KEEPALIVE_PROBES), 4);
        setsockopt(fd, SOL_SOCKET, SO_KEEPALIVE, &number(1), 4);
    }
}
