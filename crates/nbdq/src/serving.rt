//! `nbdq serve`: the threads of a server.
ghost use Rattle.std.specs.Prelude.{◌≡◌, ◌≤◌};

mod control;
mod control_lines;
mod idle_threads;
mod listener;
#[cfg(test)]
mod tests;

use control::{ControlSocket, serve_control};
use idle_threads::{Guest, IdleThreads};
use listener::{Entrance, Listener, may_pass};
use nbd_commands::Config;
use nbd_connection::{enter, serve};
use nbd_policy::{RETRY_MS, passes_for};
use nbd_service::{PassPool, ServeFault, Service, WorkerGate};
use nbd_session::table_of;
use nbd_workers::work;
use nbdq_cli::Crew;
use server_core::Server;
use server_lock::{Shared, settle};
use std::alloc::Global;
use std::marker::Brand;
use std::net::{TcpListener, TcpStream};
use std::os::unix::net::UnixListener;
use std::sync::Wait;
use std::sync::atomic::Ordering;
use std::sync::ledger::{Blank, Ledger};
use std::thread::Threads;
use std::time::Duration;
use std::{thread, time};

/// Serves the exports of a configuration on the listeners that are given, until each has accepted as many connections as it
/// may and these have ended, or the control socket asks for the end. Answers how many steps the exports counted.
pub fn serve_on<R: Wait + Threads + Sync + time::Clock>(
    rt: &R,
    alloc: Global,
    config: &Config<Global>,
    tcp: Option<TcpListener>,
    unix: Option<UnixListener>,
    control: Option<UnixListener>,
    crew: Crew,
) -> Result<u128, ServeFault> {
    let mut listeners = Vec::new(alloc);
    if let Some(tcp) = tcp {
        listeners.push(Listener::tcp(tcp))?;
    }
    if let Some(unix) = unix {
        listeners.push(Listener::unix(unix))?;
    }
    let control = control.map(|listener| ControlSocket::new(Listener::unix(listener)));
    let listening = crew.sessions.most().saturating_mul(listeners.len() as u64);
    let passes = passes_for(listening, crew.workers);
    let blank = Blank::new(passes);
    serve_booked::<Brand, R>(rt, alloc, config, listeners, &control, crew, blank, passes)
}

/// Each listener, with the threads of its connections that wait for a client.
fn entrances_of<L: Ledger>(
    alloc: Global,
    listeners: Vec<Listener, Global>,
) -> Result<Vec<Entrance<L>, Global>, ServeFault> {
    let mut entrances = Vec::new(alloc);
    for listener in listeners {
        entrances.push(Entrance::new(alloc, listener)?)?;
    }
    Ok(entrances)
}

/// Serves with so many passes.
fn serve_booked<L: Ledger + Send + Sync, R: Wait + Threads + Sync + time::Clock>(
    rt: &R,
    alloc: Global,
    config: &Config<Global>,
    listeners: Vec<Listener, Global>,
    control: &Option<ControlSocket>,
    crew: Crew,
    blank: Blank,
    passes: u64,
) -> Result<u128, ServeFault>
    requires some { 1 ≤ passes }
    requires name { blank.name ≡ L.name }
    requires parts { blank.parts ≡ L.parts }
    requires passes { passes ≡ blank.parts }
{
    let entrances = entrances_of(alloc, listeners)?;
    let server = Server::new(alloc, config)?;
    let Ok((shared, passes)) = Shared::<L, _, _>::new(alloc, server, blank, passes) else {
        return Err(ServeFault::NoMemory);
    };
    let table = table_of(alloc, config.exports())?;
    let service = Service::new(rt, alloc, config, table, shared, PassPool::new(passes))?;
    let listened = run_threads(rt, &service, config, entrances.as_slice(), control, crew);
    let Service { shared, passes, .. } = service;
    let booked = shared.end();
    let passes = passes.end();
    if !listened {
        return Err(ServeFault::Listen);
    }
    if passes.len() as u64 != booked.passes() {
        return Err(ServeFault::NoMemory);
    }
    Ok(settle(booked, passes))
}

/// All threads: returns once each has ended. False where a listener failed, or the thread of a listener or a worker couldn't be had.
fn run_threads<L: Ledger + Send + Sync, R: Wait + Threads + Sync + time::Clock>(
    rt: &R,
    service: &Service<L>,
    config: &Config<Global>,
    entrances: &[Entrance<L>],
    control: &Option<ControlSocket>,
    crew: Crew,
) -> bool {
    thread::scope(thread::scope_env(), rt, |scope| {
        let mut all = true;
        for _ in 0..crew.workers {
            let started = scope.spawn(move || run_worker(rt, service));
            all = all && started.is_ok();
        }
        if let Some(control) = control {
            let started = scope.spawn(move || serve_control(
                rt, service, config, entrances, control,
            ));
            all = all && started.is_ok();
        }
        let listened = all && listen(rt, service, entrances, crew.sessions.most());
        if let Some(control) = control {
            control.end();
        }
        service.shared.stop();
        service.bells.work.ring();
        listened
    })
}

fn run_worker<L: Ledger, R: Wait + time::Clock>(rt: &R, service: &Service<L>) {
    if let Some(pass) = service.passes.borrow(rt) {
        let gate = WorkerGate::new(rt, service);
        let pass = work(rt, &service.shared, &gate, pass);
        gate.end();
        service.passes.give_back(rt, pass);
        // Another may sleep since as many requests were in service as may be.
        service.bells.work.ring();
    }
}

/// Accepts on each listener, and returns once all connections have ended.
fn listen<L: Ledger + Send + Sync, R: Wait + Threads + Sync + time::Clock>(
    rt: &R,
    service: &Service<L>,
    entrances: &[Entrance<L>],
    sessions: u64,
) -> bool {
    let started = thread::scope(thread::scope_env(), rt, |scope| {
        let mut all = true;
        for entrance in entrances {
            let started = scope.spawn(move || {
                if !accept_all(rt, service, entrance, sessions) {
                    close_all(service, entrances);
                }
            });
            all = all && started.is_ok();
        }
        if !all {
            close_all(service, entrances);
        }
        all
    });
    started && !service.closed.load(Ordering::SeqCst)
}

/// No listener accepts any more, since one failed.
fn close_all<L: Ledger>(service: &Service<L>, entrances: &[Entrance<L>]) {
    service.closed.store(true, Ordering::SeqCst);
    close_entrances(entrances);
}

/// No listener accepts any more, since that was asked for.
fn stop<L: Ledger>(service: &Service<L>, entrances: &[Entrance<L>]) {
    service.stopping.store(true, Ordering::SeqCst);
    close_entrances(entrances);
}

fn close_entrances<L: Ledger>(entrances: &[Entrance<L>]) {
    for entrance in entrances {
        let _ = entrance.listener.close();
    }
}

/// Accepts so many connections, and returns once each has ended. False where the listener failed, or was closed since another did.
fn accept_all<L: Ledger + Send + Sync, R: Wait + Threads + Sync + time::Clock>(
    rt: &R,
    service: &Service<L>,
    entrance: &Entrance<L>,
    sessions: u64,
) -> bool {
    thread::scope(thread::scope_env(), rt, |scope| {
        let mut accepted = true;
        for _ in 0..sessions {
            let Some(peer) = accept_one(rt, service, &entrance.listener) else {
                accepted = service.stopping.load(Ordering::SeqCst);
                break;
            };
            if let Err(guest) = entrance.idle.hand_over(rt, Guest::New(peer), None) {
                // Where no thread can be had the connection is dropped.
                let _ = scope.spawn(move || serve_guests(rt, service, &entrance.idle, guest));
            }
        }
        // Who connects from now on is refused, and doesn't wait for nothing.
        let _ = entrance.listener.close();
        entrance.idle.close(rt);
        accepted
    })
}

/// The next connection. None where the listener failed, or none is to be accepted any more.
fn accept_one<L: Ledger, R: Wait + time::Clock>(
    rt: &R,
    service: &Service<L>,
    listener: &Listener,
) -> Option<TcpStream> {
    for _ in rt.forever() {
        let accepted = listener.accept();
        if service.closed.load(Ordering::SeqCst) || service.stopping.load(Ordering::SeqCst) {
            return None;
        }
        match accepted {
            Ok(peer) => return Some(peer),
            Err(error) if may_pass(&error) => thread::sleep(rt, Duration::from_millis(RETRY_MS)),
            Err(_) => return None,
        }
    }
    unreachable!()
}

/// Serves a guest, and then each that comes while this thread waits for one.
fn serve_guests<L: Ledger + Send + Sync, R: Wait + Threads + Sync + time::Clock>(
    rt: &R,
    service: &Service<L>,
    idle: &IdleThreads<L>,
    first: Guest<L>,
) {
    let mut next = Some(first);
    let mut served: Option<u32> = None;
    for _ in rt.forever() {
        let Some(guest) = next.take() else {
            return;
        };
        served = serve_guest(rt, service, idle, guest, served);
        next = idle.wait(rt, served);
    }
}

/// Serves a guest, or leaves it to a thread that served its export last. Tells which export this thread served last, which it was told
/// before.
fn serve_guest<L: Ledger + Send + Sync, R: Wait + Threads + Sync + time::Clock>(
    rt: &R,
    service: &Service<L>,
    idle: &IdleThreads<L>,
    guest: Guest<L>,
    served: Option<u32>,
) -> Option<u32> {
    let entered = match guest {
        Guest::Entered(entered) => entered,
        Guest::New(peer) => match enter(rt, service, peer) {
            Some(entered) => entered,
            None => return served,
        },
    };
    let export = Some(entered.export());
    let mine = if served == export {
        Err(Guest::Entered(entered))
    } else {
        idle.hand_over(rt, Guest::Entered(entered), export)
    };
    match mine {
        Err(Guest::Entered(entered)) => {
            serve(rt, service, entered);
            export
        }
        _ => served,
    }
}
