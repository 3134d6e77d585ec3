//! The control socket of a server that runs.

use super::*;

/// How many clients of the control socket are served at a time.
const CLIENTS: usize = 8;

/// Until it is asked for the end.
pub const LONG_CREW: Crew = Crew {
    workers: 2,
    sessions: Sessions::Forever,
};

/// What `stats` tells once a WRITE and a READ of four bytes were served.
const FIGURES: [&[u8]; 8] = [
    b"server uptime_seconds=",
    b" connections=1 requests_in_service=0 holds_total=",
    b"\nexport name=\"a\" size_bytes=4096 held_bytes=4096 base_bytes=0 log_bytes=4 sessions=1 requests_waiting=0 steps_total=9 ",
    b" chosen_by_reservation_total=0 chosen_by_weight_total=2 ",
    b" errors_total=0 read_bytes_total=4 written_bytes_total=4 ",
    b" reservation_per_second=0 limit_per_second=0 weight=1 ",
    b" wait_median_seconds=0.0",
    b"\n\n",
];

const METRICS: [&[u8]; 3] = [
    b"# TYPE nbdq_export_written_bytes_total counter\nnbdq_export_written_bytes_total{export=\"a\"} 4\n",
    b"\nnbdq_export_sessions{export=\"a\"} 1\n",
    b"\nnbdq_connections 1\n",
];

const SESSION: [&[u8]; 2] = [
    b"session export=\"a\" number=0 address=\"unix\" connected_seconds=",
    b" requests_total=2 outstanding=0 under_way_bytes=0\n\n",
];

/// Sends a line, and reads the answer up to the empty line that ends it, or to the end of the
/// socket.
pub fn ask_line(alloc: Global, stream: &mut UnixStream, line: &[u8]) -> io::Result<Vec<u8>> {
    let mut answer = Vec::new(alloc);
    stream.write_all(line)?;
    let mut byte = [0u8; 1];
    for _ in 0..65_536 {
        if stream.read(&mut byte)? == 0 {
            break;
        }
        answer.push(byte[0])?;
        if answer.as_slice() == b"\n".as_slice() || answer.ends_with(b"\n\n") {
            break;
        }
    }
    Ok(answer)
}

/// Whether a line is answered so.
pub fn is_answered(alloc: Global, stream: &mut UnixStream, line: &[u8], text: &[u8]) -> bool {
    match ask_line(alloc, stream, line) {
        Ok(answer) => answer.as_slice() == text,
        Err(_) => false,
    }
}

/// Whether the answer to a line has each of these parts.
pub fn tells(alloc: Global, stream: &mut UnixStream, line: &[u8], parts: &[&[u8]]) -> bool {
    let Ok(answer) = ask_line(alloc, stream, line) else {
        return false;
    };
    for part in parts {
        if !has(answer.as_slice(), part) {
            return false;
        }
    }
    true
}

/// Whether a text has a part in it.
fn has(text: &[u8], part: &[u8]) -> bool {
    if part.is_empty() {
        return false;
    }
    text.windows(part.len()).any(|piece| piece == part)
}

/// Opens a session of `a`, writes four bytes there and reads them.
pub fn begin(stream: &mut UnixStream) -> bool {
    let mut first = [0u8; 44];
    stream.write_all(FIRST).is_ok() && stream.read_exact(&mut first).is_ok() && goes_on(stream)
}

/// Reads the four bytes.
fn goes_on(stream: &mut UnixStream) -> bool {
    let mut reply = [0u8; 20];
    stream.write_all(&REST[..28]).is_ok()
        && stream.read_exact(&mut reply).is_ok()
        && reply.ends_with(b"\xde\xad\xbe\xef")
}

/// Whether the server has ended the connection.
fn is_cut(stream: &mut UnixStream) -> bool {
    let mut byte = [0u8; 1];
    match stream.read(&mut byte) {
        Ok(count) => count == 0,
        Err(_) => true,
    }
}

/// Whether the figures of one session add up with what its client sent.
fn adds_up(alloc: Global, control: &mut UnixStream) -> bool {
    tells(alloc, control, b"stats\n", &FIGURES)
        && tells(alloc, control, b"stats prometheus\n", &METRICS)
        && tells(alloc, control, b"sessions\n", &SESSION)
}

/// Whether lines are refused that can't be done.
fn refuses(alloc: Global, control: &mut UnixStream) -> bool {
    is_answered(alloc, control, b"fly\n", b"refused unknown command\n\n")
        && is_answered(alloc, control, b"drop a 1\n", b"refused no session\n\n")
        && is_answered(alloc, control, b"drop b 0\n", b"refused no export\n\n")
        && is_answered(
            alloc,
            control,
            b"retune b 0 0 1\n",
            b"refused no export\n\n",
        )
        && is_answered(alloc, control, b"retune a 0 1000001 1\n", b"refused C6\n\n")
        && is_answered(alloc, control, b"retune a 0 0 0\n", b"refused C7\n\n")
        && is_answered(alloc, control, b"retune a 5 3 1\n", b"refused C9\n\n")
}

/// Whether a line of so many bytes is refused.
fn refuses_long(alloc: Global, control: &mut UnixStream, length: usize) -> bool {
    let Ok(mut line) = Vec::from_elem(alloc, b' ', length) else {
        return false;
    };
    line.push(b'\n').is_ok()
        && is_answered(
            alloc,
            control,
            line.as_slice(),
            b"refused line too long\n\n",
        )
}

/// Whether a session is looked at, dropped, and the end asked for.
fn is_dropped(alloc: Global, control: &mut UnixStream, client: &mut UnixStream) -> bool {
    begin(client)
        && adds_up(alloc, control)
        && refuses(alloc, control)
        && refuses_long(alloc, control, 10_000)
        && is_answered(alloc, control, b"drop 'a' 0\n", b"gone\n\n")
        && is_cut(client)
        && is_answered(alloc, control, b"stop\n", b"stopping\n\n")
}

pub fn looks_and_drops<R: Net + Files>(rt: &R, alloc: Global) -> bool {
    let Ok(mut control) = UnixStream::connect(rt, "nbdq.looked.control") else {
        return false;
    };
    let Ok(mut client) = UnixStream::connect(rt, "nbdq.looked") else {
        return false;
    };
    let well = is_dropped(alloc, &mut control, &mut client);
    // So it ends in any case.
    let _ = ask_line(alloc, &mut control, b"stop now\n");
    well
}

/// Whether the end is asked for while a session is open, which goes on until it is cut.
fn is_stopped(alloc: Global, control: &mut UnixStream, client: &mut UnixStream) -> bool {
    let well = begin(client)
        && is_answered(alloc, control, b"stop\n", b"stopping\n\n")
        && goes_on(client);
    let stopped = is_answered(alloc, control, b"stop now\n", b"stopping\n\n");
    well && stopped && is_cut(client)
}

pub fn stops_twice<R: Net + Files>(rt: &R, alloc: Global) -> bool {
    let Ok(mut control) = UnixStream::connect(rt, "nbdq.stopped.control") else {
        return false;
    };
    let Ok(mut client) = UnixStream::connect(rt, "nbdq.stopped") else {
        return false;
    };
    is_stopped(alloc, &mut control, &mut client)
}

/// Whether one more client of the control socket is served, which stays.
fn comes<R: Net + Files>(rt: &R, alloc: Global, clients: &mut Vec<UnixStream>) -> bool {
    let Ok(mut client) = UnixStream::connect(rt, "nbdq.crowded.control") else {
        return false;
    };
    let answered = is_answered(alloc, &mut client, b"sessions\n", b"\n");
    clients.push(client).is_ok() && answered
}

/// Whether one more is cut off.
fn is_refused<R: Net + Files>(rt: &R) -> bool {
    match UnixStream::connect(rt, "nbdq.crowded.control") {
        Ok(mut client) => is_cut(&mut client),
        Err(_) => false,
    }
}

/// Has as many clients of the control socket as may be, and one more.
pub fn crowds<R: Net + Files>(rt: &R, alloc: Global) -> bool {
    let mut clients = Vec::new(alloc);
    let mut well = true;
    for _ in 0..CLIENTS {
        well = comes(rt, alloc, &mut clients) && well;
    }
    well = is_refused(rt) && well;
    match clients.last_mut() {
        Some(last) => is_answered(alloc, last, b"stop now\n", b"stopping\n\n") && well,
        None => false,
    }
}

#[test]
fn looked_at_and_dropped(rt: HostRuntime) {
    let steps = served_and_asked(&rt, "nbdq.looked", "nbdq.looked.control", Client::Looks);
    assert!(rt; steps == Some(11));
}

#[test]
fn stopped(rt: HostRuntime) {
    let steps = served_and_asked(&rt, "nbdq.stopped", "nbdq.stopped.control", Client::Stops);
    assert!(rt; steps.is_some());
}

#[test]
fn eight_clients_of_the_control_socket(rt: HostRuntime) {
    let steps = served_and_asked(&rt, "nbdq.crowded", "nbdq.crowded.control", Client::Crowds);
    assert!(rt; steps == Some(0));
}
