//! Listeners of either kind, and the connections that they accept.

use super::idle_threads::IdleThreads;
use nbd_base::NoMemory;
use nbd_policy::accept_may_pass;
use nbd_threads::keep_alive;
use std::alloc::Global;
use std::io;
use std::io::ErrorKind;
use std::net::{Shutdown, TcpListener, TcpStream};
use std::os::fd::OwnedFd;
use std::os::unix::net::UnixListener;
use std::sync::ledger::Ledger;

/// Where clients connect. A connection of either kind is a stream socket, so one type serves for both.
#[derive(Drop)]
pub struct Listener {
    socket: ListeningSocket,
    // A second descriptor of the socket, lent to a stream: a listener has no `shutdown`. It is made at the start, since there may be no
    // descriptor left at the end.
    shutter: Option<TcpStream>,
}

#[derive(Drop)]
enum ListeningSocket {
    Tcp(TcpListener),
    Unix(UnixListener),
}

/// A listener, and where the threads of its connections wait for the next client.
#[derive(Drop)]
pub struct Entrance<L: Ledger> {
    pub listener: Listener,
    pub idle: IdleThreads<L>,
}

impl<L: Ledger> Entrance<L> {
    pub fn new(alloc: Global, listener: Listener) -> Result<Entrance<L>, NoMemory> {
        let idle = IdleThreads::new(alloc)?;
        Ok(Entrance { listener, idle })
    }
}

impl Listener {
    pub fn tcp(listener: TcpListener) -> Listener {
        let shutter = listener.try_clone().ok();
        Listener {
            shutter: shutter.map(|again| TcpStream::from(OwnedFd::from(again))),
            socket: ListeningSocket::Tcp(listener),
        }
    }

    pub fn unix(listener: UnixListener) -> Listener {
        let shutter = listener.try_clone().ok();
        Listener {
            shutter: shutter.map(|again| TcpStream::from(OwnedFd::from(again))),
            socket: ListeningSocket::Unix(listener),
        }
    }

    /// The next connection, once there is one. Over TCP it sends each write at once.
    pub fn accept(&self) -> io::Result<TcpStream> {
        match &self.socket {
            ListeningSocket::Tcp(listener) => {
                let (stream, _) = listener.accept()?;
                let _ = stream.set_nodelay(true);
                keep_alive(&stream);
                Ok(stream)
            }
            ListeningSocket::Unix(listener) => {
                let (stream, _) = listener.accept()?;
                Ok(TcpStream::from(OwnedFd::from(stream)))
            }
        }
    }

    /// Makes an `accept` that waits fail, and each later one.
    pub fn close(&self) -> io::Result<()> {
        match &self.shutter {
            Some(shutter) => shutter.shutdown(Shutdown::Both),
            None => Err(io::Error::from(ErrorKind::NotConnected)),
        }
    }
}

/// Whether an `accept` that failed so may succeed a little later: the client was gone already, a signal came, or the
/// system is short of something that other connections give back.
pub fn may_pass(error: &io::Error) -> bool {
    match error.kind() {
        ErrorKind::ConnectionAborted | ErrorKind::Interrupted => true,
        _ => match error.raw_os_error() {
            Some(number) => accept_may_pass(number.unsigned_abs()),
            None => false,
        },
    }
}
