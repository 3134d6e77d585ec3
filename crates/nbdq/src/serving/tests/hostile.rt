//! Clients that misuse their connections, and one behind them that is served as if they hadn't been.

use super::*;
use std::net::Shutdown;

/// What a client sends before it ends its side, and all that it is told.
type Misuse = (&'static [u8], &'static [u8]);

/// Nothing; unknown flags; an option of another magic, and one that is cut; a name that isn't there; behind EXPORT_NAME of
/// `a` a request that is cut, a payload that is, a READ before a request of another magic, and a WRITE of a byte too many.
const MISUSES: [Misuse; 9] = [
    (b"", b"NBDMAGICIHAVEOPT\0\x03"),
    (b"\0\0\0\x04", b"NBDMAGICIHAVEOPT\0\x03"),
    (
        b"\0\0\0\x03IHAVEOPU\0\0\0\x01\0\0\0\x01",
        b"NBDMAGICIHAVEOPT\0\x03",
    ),
    (b"\0\0\0\x03IHAVE", b"NBDMAGICIHAVEOPT\0\x03"),
    (
        b"\0\0\0\x03IHAVEOPT\0\0\0\x01\0\0\0\x02zz",
        b"NBDMAGICIHAVEOPT\0\x03",
    ),
    (
        b"\0\0\0\x03IHAVEOPT\0\0\0\x01\0\0\0\x01a\
\x25\x60\x95\x13\0\0\0\0\0\0\0\0\0\0\0\x01\0\0\0\0\0\0\0\0\0\0\0",
        b"NBDMAGICIHAVEOPT\0\x03\0\0\0\0\0\0\x10\0\x05\x6d",
    ),
    (
        b"\0\0\0\x03IHAVEOPT\0\0\0\x01\0\0\0\x01a\
\x25\x60\x95\x13\0\0\0\x01\0\0\0\0\0\0\0\x01\0\0\0\0\0\0\0\0\0\0\0\x04\xde\xad",
        b"NBDMAGICIHAVEOPT\0\x03\0\0\0\0\0\0\x10\0\x05\x6d",
    ),
    (
        b"\0\0\0\x03IHAVEOPT\0\0\0\x01\0\0\0\x01a\
\x25\x60\x95\x13\0\0\0\0\0\0\0\0\0\0\0\x01\0\0\0\0\0\0\0\0\0\0\0\x01\
\x25\x60\x95\x14\0\0\0\0\0\0\0\0\0\0\0\x02\0\0\0\0\0\0\0\0\0\0\0\x01",
        b"NBDMAGICIHAVEOPT\0\x03\0\0\0\0\0\0\x10\0\x05\x6d\
\x67\x44\x66\x98\0\0\0\0\0\0\0\0\0\0\0\x01\0",
    ),
    (
        b"\0\0\0\x03IHAVEOPT\0\0\0\x01\0\0\0\x01a\
\x25\x60\x95\x13\0\0\0\x01\0\0\0\0\0\0\0\x01\0\0\0\0\0\0\0\0\x02\0\0\x01",
        b"NBDMAGICIHAVEOPT\0\x03\0\0\0\0\0\0\x10\0\x05\x6d",
    ),
];

/// Sends bytes, ends this side, and hears all that is said.
fn send_and_end(stream: &mut TcpStream, sent: &[u8], said: &mut Vec<u8>) -> io::Result<()> {
    stream.write_all(sent)?;
    stream.shutdown(Shutdown::Write)?;
    stream.read_to_end(said)?;
    Ok(())
}

fn is_refused<R: Net<Stream = TcpStream> + Files>(
    rt: &R,
    alloc: Global,
    door: Door,
    misuse: &Misuse,
) -> bool {
    let Ok(mut stream) = door.connect(rt) else {
        return false;
    };
    let mut said = Vec::new(alloc);
    send_and_end(&mut stream, misuse.0, &mut said).is_ok() && said.as_slice() == misuse.1
}

/// Whether each misuse is told so, and then a client that doesn't misuse its connection what it should be.
pub fn are_refused<R: Net<Stream = TcpStream> + Files>(rt: &R, alloc: Global, door: Door) -> bool {
    let mut well = true;
    for misuse in &MISUSES {
        well = is_refused(rt, alloc, door, misuse) && well;
    }
    is_told(rt, alloc, door) && well
}

/// Five connections end without a session, three with one that asked for nothing, and one with one that was told a READ.
#[test]
fn misuse_ends_a_connection(rt: HostRuntime) {
    let config = config_of(rt.alloc(), 4096).expect(&rt, "a configuration");
    let (listener, door) = bound_to_loopback(&rt).expect(&rt, "a listener");
    let client = Client::Misuses(door);
    let steps = served(&rt, &config, tcp_alone(listener), crew_for(10), client);
    assert!(rt; steps == Some(3 * 3 + 7 + 11));
}

/// Asks for much, and reads nothing.
fn ask_and_vanish(stream: &mut TcpStream) -> io::Result<()> {
    stream.write_all(FIRST)?;
    for cookie in 0..64 {
        ask(stream, cookie, 4096)?;
    }
    Ok(())
}

/// Whether the next client is told what it should be.
pub fn is_told_behind_one<R: Net<Stream = TcpStream> + Files>(
    rt: &R,
    alloc: Global,
    door: Door,
) -> bool {
    let Ok(mut stream) = door.connect(rt) else {
        return false;
    };
    let sent = ask_and_vanish(&mut stream).is_ok();
    drop(stream);
    is_told(rt, alloc, door) && sent
}

/// The socket of a client that vanishes fails in its session's threads, and these end.
#[test]
fn a_client_that_vanishes(rt: HostRuntime) {
    let config = config_of(rt.alloc(), 4096).expect(&rt, "a configuration");
    let (listener, door) = bound_to_loopback(&rt).expect(&rt, "a listener");
    let client = Client::Vanishes(door);
    let steps = served(&rt, &config, tcp_alone(listener), crew_for(2), client);
    assert!(rt; steps.is_some());
}
