//! Other rates for an export of a server that runs.

use super::control::{LONG_CREW, ask_line, begin, is_answered, tells};
use super::*;
use std::sync::atomic::{AtomicBool, AtomicU64};
use std::time::Instant;

/// How many requests the client sends at once. It has twice as many under way.
const AT_ONCE: usize = 32;

/// Other rates for the export.
#[derive(Drop)]
struct Phase {
    line: &'static [u8],
    /// What `stats` tells of them.
    told: &'static [u8],
    /// By how many replies they are measured.
    replies: u64,
}

const THOUSAND: Phase = Phase {
    line: b"retune a 0 1000 1\n",
    told: b" limit_per_second=1000 weight=1 ",
    replies: 1_000,
};

const HUNDRED: Phase = Phase {
    line: b"retune a 0 100 1\n",
    told: b" limit_per_second=100 weight=1 ",
    replies: 200,
};

const NO_LIMIT: Phase = Phase {
    line: b"retune a 0 0 2\n",
    told: b" limit_per_second=0 weight=2 ",
    replies: 300,
};

/// How many milliseconds these take at least, but for replies that were under way before: at 1,000
/// a second, and at 100.
const THOUSAND_MS: u128 = 900;

const HUNDRED_MS: u128 = 1_000;

/// How many milliseconds 300 take at most without a limit. At 100 a second they take longer.
const NO_LIMIT_MS: u128 = 2_000;

/// What a client that reads all the time shares with who measures it.
#[derive(Drop)]
struct Load {
    served: AtomicU64,
    over: AtomicBool,
}

impl Load {
    fn new() -> Load {
        Load {
            served: AtomicU64::new(0),
            over: AtomicBool::new(false),
        }
    }

    /// Reads four bytes again and again until it is over, and leaves. Tells whether each request
    /// was answered with them.
    fn run<R: Net + Files>(&self, rt: &R, alloc: Global, path: &str) -> bool {
        let Some(requests) = requests(alloc) else {
            return false;
        };
        let Ok(mut replies) = Vec::from_elem(alloc, 0u8, 20 * AT_ONCE) else {
            return false;
        };
        match UnixStream::connect(rt, path) {
            Ok(mut client) => {
                let replies = replies.as_mut_slice();
                self.reads(&mut client, requests.as_slice(), replies)
            }
            Err(_) => false,
        }
    }

    fn reads(&self, client: &mut UnixStream, requests: &[u8], replies: &mut [u8]) -> bool {
        let mut well = begin(client);
        self.served.fetch_add(1, Ordering::SeqCst);
        well = client.write_all(requests).is_ok() && well;
        for _ in 0..u64::MAX {
            let last = self.over.load(Ordering::SeqCst);
            if !last && client.write_all(requests).is_err() {
                return false;
            }
            if client.read_exact(replies).is_err() {
                return false;
            }
            self.served.fetch_add(AT_ONCE as u64, Ordering::SeqCst);
            well = well && are_well(replies);
            if last {
                break;
            }
        }
        client.write_all(&REST[28..]).is_ok() && well
    }

    /// How many milliseconds so many replies take from now on. None where they don't come within
    /// half a minute.
    fn measure<R: Wait + time::Clock>(&self, rt: &R, count: u64) -> Option<u128> {
        let began = Instant::now(rt).ok()?;
        let first = self.served.load(Ordering::SeqCst);
        for _ in 0..30_000 {
            if self.served.load(Ordering::SeqCst).wrapping_sub(first) >= count {
                return Some(began.elapsed(rt).ok()?.as_millis());
            }
            thread::sleep(rt, Duration::from_millis(1));
        }
        None
    }
}

/// As many requests as are sent at once.
fn requests(alloc: Global) -> Option<Vec<u8>> {
    let mut requests = Vec::new(alloc);
    for _ in 0..AT_ONCE {
        if requests.extend_from_slice(&REST[..28]).is_err() {
            return None;
        }
    }
    Some(requests)
}

/// Whether each of these replies has the four bytes.
fn are_well(replies: &[u8]) -> bool {
    for reply in replies.chunks(20) {
        let begins = reply.starts_with(b"\x67\x44\x66\x98\0\0\0\0");
        if !begins || !reply.ends_with(b"\xde\xad\xbe\xef") {
            return false;
        }
    }
    true
}

/// Retunes the export, and tells how many milliseconds the replies take from then on.
fn retuned<R: Wait + time::Clock>(
    rt: &R,
    alloc: Global,
    load: &Load,
    control: &mut UnixStream,
    phase: &Phase,
) -> Option<u128> {
    let made = is_answered(alloc, control, phase.line, b"retuned\n\n");
    if !made || !tells(alloc, control, b"stats\n", &[phase.told]) {
        return None;
    }
    load.measure(rt, phase.replies)
}

/// How long the replies to a client take without a limit, with two limits, and without one again.
fn measured<R: Wait + time::Clock>(
    rt: &R,
    alloc: Global,
    load: &Load,
    control: &mut UnixStream,
) -> Option<[u128; 4]> {
    let before = load.measure(rt, NO_LIMIT.replies)?;
    let thousand = retuned(rt, alloc, load, control, &THOUSAND)?;
    let hundred = retuned(rt, alloc, load, control, &HUNDRED)?;
    let behind = retuned(rt, alloc, load, control, &NO_LIMIT)?;
    Some([before, thousand, hundred, behind])
}

/// Measures a client, and has it and the server end.
fn measured_to_the_end<R: Wait + time::Clock + Net + Files>(
    rt: &R,
    alloc: Global,
    load: &Load,
) -> Option<[u128; 4]> {
    let Ok(mut control) = UnixStream::connect(rt, "nbdq.retuned.control") else {
        return None;
    };
    let times = measured(rt, alloc, load, &mut control);
    load.over.store(true, Ordering::SeqCst);
    match ask_line(alloc, &mut control, b"stop\n") {
        Ok(_) => times,
        Err(_) => None,
    }
}

#[test]
fn a_busy_client_follows_its_limit(rt: HostRuntime) {
    let rt = &rt;
    let alloc = rt.alloc();
    let config = config_of(alloc, 4096).expect(rt, "a configuration");
    let lent = &config;
    let unix = bound(rt, "nbdq.retuned").expect(rt, "a socket");
    let control = bound(rt, "nbdq.retuned.control").expect(rt, "a socket for lines");
    let load = &Load::new();
    let (steps, (well, times)) = thread::join(
        rt,
        move || serve_on(rt, alloc, lent, None, Some(unix), Some(control), LONG_CREW),
        move || {
            thread::join(
                rt,
                move || load.run(rt, alloc, "nbdq.retuned"),
                move || measured_to_the_end(rt, alloc, load),
            )
        },
    );
    assert!(rt; well);
    let [before, thousand, hundred, behind] = times.expect(rt, "replies and retunes");
    assert!(rt;
        thousand >= THOUSAND_MS && hundred >= HUNDRED_MS,
        "{thousand}, {hundred} ms"
    );
    assert!(rt;
        before < NO_LIMIT_MS && behind < NO_LIMIT_MS,
        "{before}, {behind} ms"
    );
    // The session begins and ends, each request makes four steps, and each retune one.
    let reads = u128::from(load.served.load(Ordering::SeqCst));
    assert!(rt; steps.ok() == Some(10 + 4 * reads));
}

/// How many requests wait for a limit of one a second, for longer than a retune is tried.
const WAITING: u64 = 7;

/// Reads so many replies, and tells whether each has the four bytes.
fn are_served(client: &mut UnixStream, count: u64) -> bool {
    let mut reply = [0u8; 20];
    for _ in 0..count {
        if client.read_exact(&mut reply).is_err() || !are_well(&reply) {
            return false;
        }
    }
    true
}

/// Sends so many requests.
fn sends(client: &mut UnixStream, count: u64) -> bool {
    for _ in 0..count {
        if client.write_all(&REST[..28]).is_err() {
            return false;
        }
    }
    true
}

/// Whether the requests are answered, and a retune is made only once none waits.
fn waits(alloc: Global, control: &mut UnixStream, client: &mut UnixStream) -> bool {
    begin(client)
        && is_answered(alloc, control, b"retune a 0 1 1\n", b"retuned\n\n")
        && sends(client, WAITING)
        && are_served(client, 1)
        && is_answered(alloc, control, b"retune a 0 0 1\n", b"busy\n\n")
        && tells(alloc, control, b"stats\n", &[b" limit_per_second=1 "])
        && are_served(client, WAITING - 1)
        && is_answered(alloc, control, b"retune a 0 0 1\n", b"retuned\n\n")
}

/// Asks for other rates while requests wait for long.
pub fn is_kept_waiting<R: Net + Files>(rt: &R, alloc: Global) -> bool {
    let Ok(mut control) = UnixStream::connect(rt, "nbdq.waiting.control") else {
        return false;
    };
    let Ok(mut client) = UnixStream::connect(rt, "nbdq.waiting") else {
        return false;
    };
    let well = waits(alloc, &mut control, &mut client);
    // So it ends in any case.
    ask_line(alloc, &mut control, b"stop now\n").is_ok() && well
}

#[test]
fn a_retune_while_requests_wait(rt: HostRuntime) {
    let steps = served_and_asked(&rt, "nbdq.waiting", "nbdq.waiting.control", Client::Waits);
    assert!(rt; steps == Some(41));
}
