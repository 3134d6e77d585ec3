//! Whole conversations with a running server, over loopback and over a Unix socket.

mod control;
mod hostile;
mod retuned;

use super::idle_threads::{Found, Guest, IdleThreads, Seats};
use super::*;
use nbd_commands::{ExportList, ExportSettings};
use nbd_wire::protocol::{READ, WRITE};
use nbd_wire::{RequestHead, write_head};
use nbdq_cli::Sessions;
use std::fs::Files;
use std::io::{Read, Write};
use std::net::{Net, SocketAddr};
use std::os::fd::OwnedFd;
use std::os::unix::net::UnixStream;
use std::{fs, io};

/// Four workers, and so many sessions.
fn crew_for(sessions: u64) -> Crew {
    Crew {
        workers: 4,
        sessions: Sessions::Count(sessions),
    }
}

/// The client's flags, EXPORT_NAME of `a`, and a WRITE of four bytes.
const FIRST: &[u8] = b"\x00\x00\x00\x03IHAVEOPT\x00\x00\x00\x01\x00\x00\x00\x01a\
\x25\x60\x95\x13\x00\x00\x00\x01\x00\x00\x00\x00\x00\x00\x00\x01\x00\x00\x00\x00\x00\x00\x00\x00\x00\x00\x00\x04\xde\xad\xbe\xef";

/// A READ of these bytes, and DISC.
const REST: &[u8] =
    b"\x25\x60\x95\x13\x00\x00\x00\x00\x00\x00\x00\x00\x00\x00\x00\x02\x00\x00\x00\x00\x00\x00\x00\x00\x00\x00\x00\x04\
\x25\x60\x95\x13\x00\x00\x00\x02\x00\x00\x00\x00\x00\x00\x00\x03\x00\x00\x00\x00\x00\x00\x00\x00\x00\x00\x00\x00";

/// All that the server says: the greeting and its flags, the export's size and flags, and two
/// replies.
const SAID: &[u8] = b"NBDMAGICIHAVEOPT\x00\x03\
\x00\x00\x00\x00\x00\x00\x10\x00\x05\x6d\
\x67\x44\x66\x98\x00\x00\x00\x00\x00\x00\x00\x00\x00\x00\x00\x01\
\x67\x44\x66\x98\x00\x00\x00\x00\x00\x00\x00\x00\x00\x00\x00\x02\xde\xad\xbe\xef";

fn config_of(alloc: Global, size: u64) -> Option<Config<Global>> {
    let mut list = ExportList::new(alloc);
    if list.add(&ExportSettings::new(b"a", size)).is_err() {
        return None;
    }
    Config::new(list, 32).ok()
}

/// Where a client connects.
#[derive(Clone, Copy)]
enum Door {
    Tcp(SocketAddr),
    Unix(&'static str),
}

impl Door {
    fn connect<R: Net<Stream = TcpStream> + Files>(self, rt: &R) -> io::Result<TcpStream> {
        match self {
            Door::Tcp(address) => TcpStream::connect(rt, address),
            Door::Unix(path) => {
                let stream = UnixStream::connect(rt, path)?;
                Ok(TcpStream::from(OwnedFd::from(stream)))
            }
        }
    }
}

/// What a client does.
#[derive(Clone, Copy)]
enum Client {
    /// It waits for the first reply before it goes on.
    Short(Door),
    /// It asks for data of this length seven times while it reads the first reply.
    LongReplies(Door, u32),
    /// It writes in long parts, and another client reads them.
    LongWrites(Door),
    /// It sends more than the sockets hold before it reads a reply.
    Late(Door),
    /// It misuses one connection after another.
    Misuses(Door),
    /// It vanishes before it reads a reply.
    Vanishes(Door),
    /// It looks at a session, drops it, and asks for the end.
    Looks,
    /// It asks for the end twice.
    Stops,
    /// It is one client too many of the control socket.
    Crowds,
    /// It asks for other rates while requests wait.
    Waits,
}

impl Client {
    /// Whether the client is served as it should be.
    fn is_well<R: Net<Stream = TcpStream> + Files>(self, rt: &R, alloc: Global) -> bool {
        match self {
            Client::Short(door) => is_told(rt, alloc, door),
            Client::LongReplies(door, length) => is_long_told(rt, alloc, door, length),
            Client::LongWrites(door) => writes_parts(rt, alloc, door)
                && reads_parts(rt, alloc, door),
            Client::Late(door) => reads_late(rt, alloc, door),
            Client::Misuses(door) => hostile::are_refused(rt, alloc, door),
            Client::Vanishes(door) => hostile::is_told_behind_one(rt, alloc, door),
            Client::Looks => control::looks_and_drops(rt, alloc),
            Client::Stops => control::stops_twice(rt, alloc),
            Client::Crowds => control::crowds(rt, alloc),
            Client::Waits => retuned::is_kept_waiting(rt, alloc),
        }
    }
}

/// Listens at a path and, for control, at another, and serves a client until it asks for the end.
fn served_and_asked<R>(rt: &R, path: &str, control: &str, client: Client) -> Option<u128>
where
    R: AllocGlobal
        + Net<Listener = TcpListener, Stream = TcpStream>
        + Files
        + Wait
        + Threads
        + Sync
        + time::Clock,
{
    let config = config_of(rt.alloc(), 4096)?;
    let Ok(unix) = bound(rt, path) else {
        return None;
    };
    let Ok(control) = bound(rt, control) else {
        return None;
    };
    let listeners = Listeners {
        tcp: None,
        unix: Some(unix),
        control: Some(control),
    };
    served(rt, &config, listeners, control::LONG_CREW, client)
}

/// The listeners of a server.
#[derive(Drop)]
struct Listeners {
    tcp: Option<TcpListener>,
    unix: Option<UnixListener>,
    control: Option<UnixListener>,
}

/// Serves a client, and tells how many steps were counted. None where the client isn't served as it
/// should be, or the server failed.
fn served<R>(
    rt: &R,
    config: &Config<Global>,
    listeners: Listeners,
    crew: Crew,
    client: Client,
) -> Option<u128>
where
    R: AllocGlobal
        + Net<Listener = TcpListener, Stream = TcpStream>
        + Files
        + Wait
        + Threads
        + Sync
        + time::Clock,
{
    let alloc = rt.alloc();
    let Listeners { tcp, unix, control } = listeners;
    let (steps, well) = thread::join(
        rt,
        move || serve_on(rt, alloc, config, tcp, unix, control, crew),
        move || client.is_well(rt, alloc),
    );
    match steps {
        Ok(steps) if well => Some(steps),
        _ => None,
    }
}

/// A listener at an address of loopback.
fn bound_to_loopback<R: Net<Listener = TcpListener, Stream = TcpStream>>(
    rt: &R,
) -> Option<(TcpListener, Door)> {
    let Ok(listener) = TcpListener::bind(rt, "127.0.0.1:0") else {
        return None;
    };
    match listener.local_addr() {
        Ok(address) => Some((listener, Door::Tcp(address))),
        Err(_) => None,
    }
}

/// A listener at a path where nothing stands.
fn bound<R: Net + Files>(rt: &R, path: &str) -> io::Result<UnixListener> {
    let _ = fs::remove_file(rt, path);
    UnixListener::bind(rt, path)
}

/// A server over loopback alone.
fn tcp_alone(listener: TcpListener) -> Listeners {
    Listeners {
        tcp: Some(listener),
        unix: None,
        control: None,
    }
}

/// A server over a Unix socket alone.
fn unix_alone(listener: UnixListener) -> Listeners {
    Listeners {
        tcp: None,
        unix: Some(listener),
        control: None,
    }
}

/// What one client is told over a connection, up to its end.
fn hear(stream: &mut TcpStream, said: &mut Vec<u8>) -> io::Result<()> {
    let mut first = [0u8; 44];
    stream.write_all(FIRST)?;
    stream.read_exact(&mut first)?;
    said.extend_from_slice(&first)?;
    stream.write_all(REST)?;
    stream.read_to_end(said)?;
    Ok(())
}

fn is_told<R: Net<Stream = TcpStream> + Files>(rt: &R, alloc: Global, door: Door) -> bool {
    let Ok(mut stream) = door.connect(rt) else {
        return false;
    };
    let mut said = Vec::new(alloc);
    hear(&mut stream, &mut said).is_ok() && said.as_slice() == SAID
}

#[test]
fn over_loopback(rt: HostRuntime) {
    let config = config_of(rt.alloc(), 4096).expect(&rt, "a configuration");
    let (listener, door) = bound_to_loopback(&rt).expect(&rt, "a listener");
    let steps = served(
        &rt,
        &config,
        tcp_alone(listener),
        crew_for(1),
        Client::Short(door),
    );
    assert!(rt; steps == Some(11));
}

#[test]
fn over_a_unix_socket(rt: HostRuntime) {
    let path = "nbdq.socket";
    let config = config_of(rt.alloc(), 4096).expect(&rt, "a configuration");
    let listener = bound(&rt, path).expect(&rt, "a listener");
    let steps = served(
        &rt,
        &config,
        unix_alone(listener),
        crew_for(1),
        Client::Short(Door::Unix(path)),
    );
    assert!(rt; fs::remove_file(&rt, path).is_ok());
    assert!(rt; steps == Some(11));
}

/// The head of a request.
fn head_of(kind: u16, cookie: u64, offset: u64, length: u32) -> RequestHead {
    RequestHead {
        flags: 0,
        kind,
        cookie,
        offset,
        length,
    }
}

/// Asks for the disk's first bytes.
fn ask(stream: &mut TcpStream, cookie: u64, length: u32) -> io::Result<()> {
    stream.write_all(&write_head(&head_of(READ, cookie, 0, length)))
}

/// Reads a reply's data, and tells whether it is what the disk begins with.
fn is_first(stream: &mut TcpStream, head: &[u8; 16], content: &mut [u8]) -> io::Result<bool> {
    stream.read_exact(content)?;
    Ok(
        head.starts_with(b"\x67\x44\x66\x98\0\0\0\0")
            && content.starts_with(b"\xde\xad\xbe\xef\0\0"),
    )
}

/// Writes four bytes, asks for long data, and while the first reply comes seven times more.
fn ask_for_long(stream: &mut TcpStream, head: &mut [u8; 16], length: u32) -> io::Result<()> {
    let mut first = [0u8; 44];
    stream.write_all(FIRST)?;
    stream.read_exact(&mut first)?;
    ask(stream, 0, length)?;
    stream.read_exact(head)?;
    for cookie in 1..8 {
        ask(stream, cookie, length)?;
    }
    Ok(())
}

/// Reads eight long replies, the head of the first of which was read, and leaves. Tells a bit for
/// the cookie of each that is well.
fn read_long(stream: &mut TcpStream, head: &mut [u8; 16], content: &mut [u8]) -> io::Result<u64> {
    let mut told = 0u64;
    for more in 0..8 {
        if more > 0 {
            stream.read_exact(head)?;
        }
        if is_first(stream, head, content)? {
            told |= 1u64.checked_shl(head[15] as u32).unwrap_or(0);
        }
    }
    stream.write_all(&REST[28..])?;
    Ok(told)
}

/// Whether each of eight long replies is well.
fn is_long_told<R: Net<Stream = TcpStream> + Files>(
    rt: &R,
    alloc: Global,
    door: Door,
    length: u32,
) -> bool {
    let Ok(mut stream) = door.connect(rt) else {
        return false;
    };
    let Ok(mut content) = Vec::from_elem(alloc, 0u8, length as usize) else {
        return false;
    };
    let mut head = [0u8; 16];
    ask_for_long(&mut stream, &mut head, length).is_ok()
        && matches!(
            read_long(&mut stream, &mut head, content.as_mut_slice()),
            Ok(255)
        )
}

#[test]
fn long_replies(rt: HostRuntime) {
    let config = config_of(rt.alloc(), 2_097_152).expect(&rt, "a configuration");
    for length in [1_048_576, 1_500_000] {
        let (listener, door) = bound_to_loopback(&rt).expect(&rt, "a listener");
        let client = Client::LongReplies(door, length);
        let steps = served(&rt, &config, tcp_alone(listener), crew_for(1), client);
        assert!(rt; steps == Some(39), "{length} bytes");
    }
}

/// How many bytes a long WRITE of these tests has.
const PART: u32 = 262_144;

/// Sends the head of a WRITE of so many equal bytes behind the parts before it, and the first half
/// of these.
fn begin_part(stream: &mut TcpStream, number: u8, content: &mut [u8]) -> io::Result<()> {
    let offset = u64::from(number) * u64::from(PART);
    content.fill(number);
    stream.write_all(&write_head(&head_of(WRITE, u64::from(number), offset, PART)))?;
    let (half, _) = content.split_at(content.len() / 2);
    stream.write_all(half)
}

/// Sends the other half.
fn end_part(stream: &mut TcpStream, content: &[u8]) -> io::Result<()> {
    let (_, half) = content.split_at(content.len() / 2);
    stream.write_all(half)
}

/// Reads so many replies without data, and tells how many are well.
fn replies_well(stream: &mut TcpStream, count: usize) -> io::Result<usize> {
    let mut well = 0usize;
    for _ in 0..count {
        let mut head = [0u8; 16];
        stream.read_exact(&mut head)?;
        if head.starts_with(b"\x67\x44\x66\x98\0\0\0\0\0") {
            well = well.saturating_add(1);
        }
    }
    Ok(well)
}

/// Writes seven parts and the first half of an eighth, and tells how many replies to the seven are
/// well.
fn write_seven(stream: &mut TcpStream, content: &mut [u8]) -> io::Result<usize> {
    stream.write_all(FIRST)?;
    for number in 0..7 {
        begin_part(stream, number, content)?;
        end_part(stream, content)?;
    }
    begin_part(stream, 7, content)?;
    let mut first = [0u8; 44];
    stream.read_exact(&mut first)?;
    replies_well(stream, 7)
}

/// Sends the last half, and tells whether the reply to it is well.
fn write_last_half(stream: &mut TcpStream, content: &[u8]) -> io::Result<usize> {
    end_part(stream, content)?;
    let well = replies_well(stream, 1)?;
    stream.write_all(&REST[28..])?;
    Ok(well)
}

/// Whether eight parts are written, the last half of the last once the replies to the others came.
fn writes_parts<R: Net<Stream = TcpStream> + Files>(rt: &R, alloc: Global, door: Door) -> bool {
    let Ok(mut stream) = door.connect(rt) else {
        return false;
    };
    let Ok(mut content) = Vec::from_elem(alloc, 0u8, PART as usize) else {
        return false;
    };
    matches!(write_seven(&mut stream, content.as_mut_slice()), Ok(7))
        && matches!(write_last_half(&mut stream, content.as_slice()), Ok(1))
}

/// Reads a part, and tells whether it has the bytes that were written.
fn is_part(stream: &mut TcpStream, number: u8, content: &mut [u8]) -> io::Result<bool> {
    let mut said = [0u8; 16];
    let offset = u64::from(number) * u64::from(PART);
    stream.write_all(&write_head(&head_of(READ, 9, offset, PART)))?;
    stream.read_exact(&mut said)?;
    stream.read_exact(content)?;
    // The first bytes are those of the short WRITE.
    Ok(content.iter().skip(4).all(|byte| *byte == number))
}

/// Reads the parts one by one, and tells how many have the bytes that were written.
fn read_parts(stream: &mut TcpStream, content: &mut [u8]) -> io::Result<usize> {
    stream.write_all(FIRST)?;
    let mut first = [0u8; 44];
    stream.read_exact(&mut first)?;
    let mut well = 0usize;
    for number in 0..8u8 {
        if is_part(stream, number, content)? {
            well = well.saturating_add(1);
        }
    }
    stream.write_all(&REST[28..])?;
    Ok(well)
}

fn reads_parts<R: Net<Stream = TcpStream> + Files>(rt: &R, alloc: Global, door: Door) -> bool {
    let Ok(mut stream) = door.connect(rt) else {
        return false;
    };
    let Ok(mut content) = Vec::from_elem(alloc, 0u8, PART as usize) else {
        return false;
    };
    matches!(read_parts(&mut stream, content.as_mut_slice()), Ok(8))
}

#[test]
fn long_writes_and_a_second_client(rt: HostRuntime) {
    let config = config_of(rt.alloc(), 2_097_152).expect(&rt, "a configuration");
    let (listener, door) = bound_to_loopback(&rt).expect(&rt, "a listener");
    let steps = served(
        &rt,
        &config,
        tcp_alone(listener),
        crew_for(2),
        Client::LongWrites(door),
    );
    assert!(rt; steps == Some(78));
}

/// Whether a thread that waits gets the client, and then is told that there are no more.
fn is_handed_over<R: Wait + Threads + Sync + time::Clock>(
    rt: &R,
    idle: &IdleThreads<Brand>,
    client: TcpStream,
) -> (bool, bool) {
    let (waited, ()) = thread::join(
        rt,
        move || (idle.wait(rt, None).is_some(), idle.wait(rt, None).is_some()),
        move || {
            let mut handed = idle.hand_over(rt, Guest::New(client), None);
            for _ in rt.forever() {
                let Err(back) = handed else {
                    break;
                };
                thread::sleep(rt, Duration::from_millis(1));
                handed = idle.hand_over(rt, back, None);
            }
            idle.close(rt);
        },
    );
    waited
}

#[test]
fn a_client_handed_over(rt: HostRuntime) {
    let (_listener, door) = bound_to_loopback(&rt).expect(&rt, "a listener");
    let client = door.connect(&rt).ok().expect(&rt, "a client");
    let idle = IdleThreads::new(rt.alloc()).ok().expect(&rt, "memory");
    assert!(rt; is_handed_over(&rt, &idle, client) == (true, false));
}

/// Whether the thread on a seat finds this guest.
fn finds(seats: &mut Seats<u8>, seat: Option<usize>, guest: u8) -> bool {
    match seat {
        Some(seat) => matches!(seats.look(seat), Found::Guest(found) if found == guest),
        None => false,
    }
}

/// Each guest goes to the latest thread that served its export last, or none, and nobody is called behind the end.
#[test]
fn guests_by_what_was_served_last(rt: HostRuntime) {
    let mut seats = Seats::<u8>::new(rt.alloc()).ok().expect(&rt, "memory");
    assert!(rt; seats.call(1, None) == Err(1));
    let spare = seats.sit(None);
    let other = seats.sit(Some(2));
    let early = seats.sit(Some(3));
    let late = seats.sit(Some(3));
    assert!(rt; seats.call(1, Some(3)).ok() == late && seats.call(2, Some(3)).ok() == early);
    assert!(rt; seats.call(3, Some(3)) == Err(3) && seats.call(4, None).ok() == spare);
    assert!(rt; finds(&mut seats, late, 1) && finds(&mut seats, early, 2));
    seats.close();
    assert!(rt; seats.call(5, Some(2)) == Err(5) && seats.sit(None).is_none());
    assert!(rt; finds(&mut seats, spare, 4));
    let last = other.expect(&rt, "a seat");
    assert!(rt; matches!(seats.look(last), Found::Closed));
}

/// The cookie of each READ of a client that reads late.
const ASKED: u64 = 9;

/// Sends READs and long WRITEs in turn, more than the sockets hold.
fn send_many(stream: &mut TcpStream, content: &mut [u8]) -> io::Result<()> {
    stream.write_all(FIRST)?;
    for number in 0..48u8 {
        ask(stream, ASKED, 16_384)?;
        begin_part(stream, number % 4 + 4, content)?;
        end_part(stream, content)?;
    }
    Ok(())
}

/// Reads a reply, and tells whether it is well.
fn is_reply(stream: &mut TcpStream, content: &mut [u8]) -> io::Result<bool> {
    let mut head = [0u8; 16];
    stream.read_exact(&mut head)?;
    if head.ends_with(&ASKED.to_be_bytes()) {
        stream.read_exact(content)?;
    }
    Ok(head.starts_with(b"\x67\x44\x66\x98\0\0\0\0\0"))
}

/// Reads all replies and leaves, and tells how many are well.
fn read_many(stream: &mut TcpStream, content: &mut [u8]) -> io::Result<usize> {
    let mut first = [0u8; 44];
    stream.read_exact(&mut first)?;
    let mut well = 0usize;
    for _ in 0..96 {
        if is_reply(stream, content)? {
            well = well.saturating_add(1);
        }
    }
    stream.write_all(&REST[28..])?;
    Ok(well)
}

fn reads_late<R: Net<Stream = TcpStream> + Files>(rt: &R, alloc: Global, door: Door) -> bool {
    let Ok(mut stream) = door.connect(rt) else {
        return false;
    };
    let Ok(mut content) = Vec::from_elem(alloc, 0u8, PART as usize) else {
        return false;
    };
    send_many(&mut stream, content.as_mut_slice()).is_ok() && reads_many(alloc, &mut stream)
}

fn reads_many(alloc: Global, stream: &mut TcpStream) -> bool {
    let Ok(mut data) = Vec::from_elem(alloc, 0u8, 16_384) else {
        return false;
    };
    matches!(read_many(stream, data.as_mut_slice()), Ok(96))
}

#[test]
fn a_client_that_reads_late(rt: HostRuntime) {
    let path = "nbdq.late";
    let config = config_of(rt.alloc(), 2_097_152).expect(&rt, "a configuration");
    let listener = bound(&rt, path).expect(&rt, "a listener");
    let steps = served(
        &rt,
        &config,
        unix_alone(listener),
        crew_for(1),
        Client::Late(Door::Unix(path)),
    );
    assert!(rt; fs::remove_file(&rt, path).is_ok());
    assert!(rt; steps == Some(391));
}
