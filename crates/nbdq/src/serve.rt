//! `nbdq serve`: from the command line and the configuration to the last line.

#[cfg(test)]
mod tests;

use crate::serving::serve_on;
use nbd_commands::Config;
use nbd_policy::CONNECTIONS;
use nbd_service::ServeFault;
use nbd_stream::Counted;
use nbd_threads::room_for_connections;
use nbdq_cli::{Ending, Outcome, ServeTask, read_offer, write_warnings};
use std::alloc::Global;
use std::fs::{Files, Permissions, remove_file, set_permissions};
use std::io;
use std::io::{ErrorKind, Write};
use std::net::{Net, SocketAddr, TcpListener, TcpStream};
use std::os::unix::fs::PermissionsExt;
use std::os::unix::net::UnixListener;
use std::sync::Wait;
use std::thread::Threads;
use std::time::Clock;

/// Who may use the file of the control socket.
const OWNER_ALONE: u32 = 0o600;

/// Reads the configuration from standard input, listens, says `ready`, serves, and tells how many steps were counted.
pub fn serve<R>(rt: &R, task: &ServeTask) -> Ending
where
    R: Input
        + Print
        + Eprint
        + AllocGlobal
        + Net<Listener = TcpListener, Stream = TcpStream>
        + Files
        + Wait
        + Threads
        + Sync
        + Clock,
{
    if task.tcp.is_none() && task.unix.is_none() {
        return Ending::NoListener;
    }
    let address = match address_of(&task.tcp) {
        Ok(address) => address,
        Err(end) => return end,
    };
    let config = match read_config(rt) {
        Ok(config) => config,
        Err(outcome) => return Ending::Ran(outcome),
    };
    // The sockets' files are made last, so that a start that fails leaves none behind.
    let Ok(tcp) = bind_tcp(rt, address) else {
        return Ending::CannotListen;
    };
    let Ok(unix) = bind_unix(rt, &task.unix) else {
        return Ending::CannotListen;
    };
    let end = match bind_control(rt, &task.control) {
        Ok(control) => {
            let end = serve_listeners(rt, task, &config, tcp, unix, control);
            remove_socket(rt, &task.control);
            end
        }
        Err(_) => Ending::CannotListen,
    };
    remove_socket(rt, &task.unix);
    end
}

/// Says `ready`, serves, and tells how many steps were counted.
fn serve_listeners<R: Print + Eprint + AllocGlobal + Wait + Threads + Sync + Clock>(
    rt: &R,
    task: &ServeTask,
    config: &Config<Global>,
    tcp: Option<TcpListener>,
    unix: Option<UnixListener>,
    control: Option<UnixListener>,
) -> Ending {
    warn(rt, config);
    if let Some(room) = room_for_connections() {
        if room < CONNECTIONS {
            let _ = eprintln!(rt;
                "serve: room for {room} connections, by the limit of descriptors"
            );
        }
    }
    if println!(rt; "ready").is_err() {
        return Ending::Ran(Outcome::WriteFailed);
    }
    match serve_on(rt, rt.alloc(), config, tcp, unix, control, task.crew) {
        Ok(steps) => match println!(rt; "steps {steps}") {
            Ok(()) => Ending::Ran(Outcome::Done),
            Err(_) => Ending::Ran(Outcome::WriteFailed),
        },
        Err(ServeFault::NoMemory) => Ending::Ran(Outcome::NoMemory),
        Err(ServeFault::Listen) => Ending::CannotListen,
    }
}

/// Says what is odd in a configuration, and legal. Where memory is refused or standard error fails, it serves all the same.
fn warn<R: Eprint + AllocGlobal>(rt: &R, config: &Config<Global>) {
    let mut text = Vec::new(rt.alloc());
    if write_warnings(config, &mut text).is_err() {
        return;
    }
    if let Ok(text) = String::from_utf8(text) {
        let _ = rt.eprint(text);
    }
}

/// The configuration, or how the command went without it.
fn read_config<R: Input + Print + AllocGlobal>(rt: &R) -> Result<Config<Global>, Outcome> {
    let alloc = rt.alloc();
    let mut input = Counted::new(rt.reader());
    let mut output = Counted::new(io::writer(rt));
    read_offer(alloc, alloc, &mut input, &mut output)
}

/// The address that is written, where one is. A name isn't looked up.
fn address_of(text: &Option<String>) -> Result<Option<SocketAddr>, Ending> {
    match text {
        Some(text) => match text.as_str().parse() {
            Ok(address) => Ok(Some(address)),
            Err(_) => Err(Ending::BadAddress),
        },
        None => Ok(None),
    }
}

fn bind_tcp<R: Net<Listener = TcpListener, Stream = TcpStream>>(
    rt: &R,
    address: Option<SocketAddr>,
) -> io::Result<Option<TcpListener>> {
    match address {
        Some(address) => Ok(Some(TcpListener::bind(rt, address)?)),
        None => Ok(None),
    }
}

/// Makes the file of the control socket, which its owner alone may use.
fn bind_control<R: Net + Files>(rt: &R, path: &Option<String>) -> io::Result<Option<UnixListener>> {
    let bound = bind_unix(rt, path)?;
    if let Some(path) = path {
        if let Err(error) = set_permissions(
            rt,
            path.as_str(),
            Permissions::from_mode(OWNER_ALONE),
        ) {
            let _ = remove_file(rt, path.as_str());
            return Err(error);
        }
    }
    Ok(bound)
}

fn remove_socket<R: Files>(rt: &R, path: &Option<String>) {
    if let Some(path) = path {
        let _ = remove_file(rt, path.as_str());
    }
}

/// Makes the file of a socket. For an empty path the system would choose a name that is no file, and that anybody may connect to.
fn bind_unix<R: Net + Files>(rt: &R, path: &Option<String>) -> io::Result<Option<UnixListener>> {
    match path {
        Some(path) if path.is_empty() => Err(io::Error::from(ErrorKind::InvalidInput)),
        Some(path) => Ok(Some(UnixListener::bind(rt, path.as_str())?)),
        None => Ok(None),
    }
}
