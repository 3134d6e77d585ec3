//! The control socket: what its clients ask for, and what they are answered.

use super::control_lines::Lines;
use super::listener::{Entrance, Listener, may_pass};
use super::stop;
use nbd_base::NoMemory;
use nbd_commands::{Config, ExportConfig};
use nbd_control::{
    Answer, Command, CommandError, ExportStats, Name, Rates, Refused, ServerStats, SessionLine,
    read_command, write_answer, write_metrics, write_sessions, write_stats,
};
use nbd_policy::{CONTROL_CLIENTS, RETRY_MS};
use nbd_service::{ExportFigures, RetuneOutcome, Service};
use nbd_threads::SessionFigures;
use server_core::SessionId;
use std::alloc::Global;
use std::net::TcpStream;
use std::sync::Wait;
use std::sync::atomic::{AtomicBool, AtomicU64, Ordering};
use std::sync::ledger::Ledger;
use std::thread::Threads;
use std::time::Duration;
use std::{thread, time};
use tag_clock::Clock;

/// The control socket of a server.
#[derive(Drop)]
pub struct ControlSocket {
    listener: Listener,
    // How many clients it has.
    clients: AtomicU64,
    ended: AtomicBool,
}

impl ControlSocket {
    pub fn new(listener: Listener) -> ControlSocket {
        ControlSocket {
            listener,
            clients: AtomicU64::new(0),
            ended: AtomicBool::new(false),
        }
    }

    /// The server is at its end: no more lines are read.
    pub fn end(&self) {
        self.ended.store(true, Ordering::SeqCst);
        let _ = self.listener.close();
    }

    pub fn is_ended(&self) -> bool {
        self.ended.load(Ordering::SeqCst)
    }

    /// One more client. False where there are as many as may be.
    fn enter(&self) -> bool {
        let before = self.clients.fetch_add(1, Ordering::SeqCst);
        if before >= CONTROL_CLIENTS {
            self.leave();
            return false;
        }
        true
    }

    fn leave(&self) {
        self.clients.fetch_sub(1, Ordering::SeqCst);
    }
}

/// Serves the clients of the control socket, until the server is at its end.
pub fn serve_control<L: Ledger + Send + Sync, R: Wait + Threads + Sync + time::Clock>(
    rt: &R,
    service: &Service<L>,
    config: &Config<Global>,
    entrances: &[Entrance<L>],
    control: &ControlSocket,
) {
    thread::scope(thread::scope_env(), rt, |scope| {
        for _ in rt.forever() {
            let Some(peer) = next_client(rt, control) else {
                return;
            };
            let same = peer.try_clone();
            let started = scope.spawn(move || {
                serve_client(rt, service, config, entrances, control, &peer)
            });
            if started.is_err() {
                // Where no thread can be had this one serves the client, and others wait meanwhile.
                match same {
                    Ok(peer) => serve_client(rt, service, config, entrances, control, &peer),
                    Err(_) => control.leave(),
                }
            }
        }
    });
}

/// The next client, which has entered. None where the server is at its end, or the socket failed.
fn next_client<R: Wait + time::Clock>(rt: &R, control: &ControlSocket) -> Option<TcpStream> {
    for _ in rt.forever() {
        let accepted = control.listener.accept();
        if control.is_ended() {
            return None;
        }
        match accepted {
            Ok(peer) if control.enter() => return Some(peer),
            Ok(_) => {}
            Err(error) if may_pass(&error) => thread::sleep(rt, Duration::from_millis(RETRY_MS)),
            Err(_) => return None,
        }
    }
    unreachable!()
}

/// Serves a client, until it leaves.
fn serve_client<L: Ledger, R: Wait + time::Clock>(
    rt: &R,
    service: &Service<L>,
    config: &Config<Global>,
    entrances: &[Entrance<L>],
    control: &ControlSocket,
    peer: &TcpStream,
) {
    serve_lines(rt, service, config, entrances, control, peer);
    control.leave();
}

/// Answers the lines of a client.
fn serve_lines<L: Ledger, R: Wait + time::Clock>(
    rt: &R,
    service: &Service<L>,
    config: &Config<Global>,
    entrances: &[Entrance<L>],
    control: &ControlSocket,
    peer: &TcpStream,
) {
    let clock = service.clock(rt);
    let Ok(mut lines) = Lines::new(service.alloc, peer) else {
        return;
    };
    for _ in rt.forever() {
        if !lines.next(rt, control, &clock) {
            return;
        }
        let mut text = Vec::new(service.alloc);
        let answered = answer_line(rt, service, config, entrances, lines.line(), &mut text);
        if answered.is_err() || !lines.send(rt, control, &clock, text.as_slice()) {
            return;
        }
    }
}

/// Does what a line asks for, and puts the answer behind a text.
fn answer_line<L: Ledger, R: Wait + time::Clock>(
    rt: &R,
    service: &Service<L>,
    config: &Config<Global>,
    entrances: &[Entrance<L>],
    line: &[u8],
    text: &mut Vec<u8>,
) -> Result<(), NoMemory> {
    let alloc = service.alloc;
    let done = match read_command(alloc, alloc, line) {
        Ok(command) => do_command(rt, service, config, entrances, command, text),
        Err(CommandError::Refused(cause)) => Ok(Some(Answer::Refused(cause))),
        Err(CommandError::NoMemory) => Err(NoMemory),
    };
    match done {
        Ok(Some(answer)) => write_answer(alloc, answer, text),
        Ok(None) => Ok(()),
        Err(NoMemory) => write_answer(alloc, Answer::NoMemory, text),
    }
}

/// Does what is asked for. Answers what to tell the client, or none where it has put that behind the text.
fn do_command<L: Ledger, R: Wait + time::Clock>(
    rt: &R,
    service: &Service<L>,
    config: &Config<Global>,
    entrances: &[Entrance<L>],
    command: Command<Global>,
    text: &mut Vec<u8>,
) -> Result<Option<Answer>, NoMemory> {
    match command {
        Command::Stats => put_figures(rt, service, config, false, text),
        Command::Metrics => put_figures(rt, service, config, true, text),
        Command::Sessions => put_sessions(rt, service, config, text),
        Command::Retune { export, rates } => {
            Ok(Some(retune(rt, service, config, &export, rates)))
        }
        Command::DropSession { export, session } => {
            Ok(Some(drop_session(rt, service, config, &export, session)))
        }
        Command::Stop => {
            stop(service, entrances);
            Ok(Some(Answer::Stopping))
        }
        Command::StopNow => {
            stop(service, entrances);
            service.connections.cut_all(rt);
            Ok(Some(Answer::Stopping))
        }
    }
}

/// Ends a session of the export that has this name.
fn drop_session<L: Ledger, R: Wait>(
    rt: &R,
    service: &Service<L>,
    config: &Config<Global>,
    name: &Name<Global>,
    number: u64,
) -> Answer {
    let Some(export) = export_named(config, name) else {
        return Answer::NoExport;
    };
    let session = SessionId { export, number };
    if service.connections.cut(rt, session) {
        Answer::Gone
    } else {
        Answer::NoSession
    }
}

/// The number of the export that has this name.
fn export_named(config: &Config<Global>, name: &Name<Global>) -> Option<u32> {
    let place = config
        .exports()
        .iter()
        .position(|export| export.name() == name.as_bytes());
    match place {
        Some(at) => u32::try_from(at).ok(),
        None => None,
    }
}

/// Gives other rates to the export that has this name.
fn retune<L: Ledger, R: Wait + time::Clock>(
    rt: &R,
    service: &Service<L>,
    config: &Config<Global>,
    name: &Name<Global>,
    rates: Rates,
) -> Answer {
    let Some(export) = export_named(config, name) else {
        return Answer::NoExport;
    };
    match service.retune(rt, export, wanted(rates)) {
        RetuneOutcome::Made => Answer::Retuned,
        RetuneOutcome::Busy => Answer::Busy,
        RetuneOutcome::Refused(refusal) => Answer::Refused(Refused::Rates(refusal)),
        RetuneOutcome::NoExport => Answer::NoExport,
        RetuneOutcome::Worn => Answer::Worn,
        RetuneOutcome::Crowded | RetuneOutcome::NoMemory => Answer::NoMemory,
    }
}

/// The rates of a line, which are in their ranges.
fn wanted(rates: Rates) -> turn_order::Rates {
    turn_order::Rates {
        reservation: u32::try_from(rates.reservation).unwrap_or(u32::MAX),
        limit: u32::try_from(rates.limit).unwrap_or(u32::MAX),
        weight: u32::try_from(rates.weight).unwrap_or(u32::MAX),
    }
}

/// Puts the figures of the server and of each export behind a text.
fn put_figures<L: Ledger, R: Wait + time::Clock>(
    rt: &R,
    service: &Service<L>,
    config: &Config<Global>,
    is_for_prometheus: bool,
    text: &mut Vec<u8>,
) -> Result<Option<Answer>, NoMemory> {
    let mut exports = Vec::new(service.alloc);
    let mut in_service = 0u64;
    let mut number = 0u32;
    for export in config.exports() {
        if let Some(figures) = service.export_figures(rt, number)? {
            in_service = in_service.saturating_add(figures.in_service());
            let sessions = service.connections.sessions_of(rt, number);
            exports.push(stats_of(export, &figures, sessions))?;
        }
        number = number.saturating_add(1);
    }
    let server = server_stats(rt, service, in_service);
    if is_for_prometheus {
        write_metrics(service.alloc, &server, exports.as_slice(), text)?;
    } else {
        write_stats(service.alloc, &server, exports.as_slice(), text)?;
    }
    Ok(None)
}

fn server_stats<L: Ledger, R: Wait + time::Clock>(
    rt: &R,
    service: &Service<L>,
    in_service: u64,
) -> ServerStats {
    let holds = service.holds(rt);
    let now = service.clock(rt).now();
    ServerStats {
        uptime: now.nanoseconds(),
        connections: service.connections.count(rt) as u64,
        in_service,
        holds: holds.total,
        longest_hold: holds.longest_of_last_second(now),
    }
}

fn stats_of<'a>(
    export: &'a ExportConfig<Global>,
    figures: &ExportFigures,
    sessions: u64,
) -> ExportStats<'a> {
    ExportStats {
        name: export.name(),
        size: export.size(),
        held_bytes: figures.held.image,
        base_bytes: figures.held.base,
        log_bytes: figures.held.log,
        sessions,
        waiting: figures.waiting,
        steps: figures.steps,
        by_reservation: figures.counts.by_reservation,
        by_weight: figures.counts.by_weight,
        errors: figures.counts.errors,
        read_bytes: figures.counts.read_bytes,
        written_bytes: figures.counts.written_bytes,
        rates: Rates {
            reservation: u64::from(figures.rates.reservation),
            limit: u64::from(figures.rates.limit),
            weight: u64::from(figures.rates.weight),
        },
        waits: figures.waits,
    }
}

/// Puts a line for each session behind a text.
fn put_sessions<L: Ledger, R: Wait + time::Clock>(
    rt: &R,
    service: &Service<L>,
    config: &Config<Global>,
    text: &mut Vec<u8>,
) -> Result<Option<Answer>, NoMemory> {
    let now = service.clock(rt).now();
    let sessions = service.connections.sessions(rt, service.alloc, now)?;
    let mut lines = Vec::new(service.alloc);
    for session in sessions.as_slice() {
        lines.push(line_of(config, session))?;
    }
    write_sessions(service.alloc, lines.as_slice(), text)?;
    Ok(None)
}

fn line_of<'a>(config: &'a Config<Global>, session: &'a SessionFigures) -> SessionLine<'a> {
    let export = match config.exports().get(session.session.export as usize) {
        Some(export) => export.name(),
        None => b"".as_slice(),
    };
    SessionLine {
        export,
        number: session.session.number,
        address: session.address.as_bytes(),
        connected: session.connected,
        requests: session.requests,
        outstanding: session.outstanding,
        under_way_bytes: session.under_way_bytes,
    }
}
