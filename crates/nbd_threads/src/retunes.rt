//! The rates that exports have, and the gates at which their readers wait while others are asked for.

ghost use Rattle.std.specs.Prelude.{◌≡◌, ◌≤◌, ◌≢◌, ℕ, length, map, slice_get, IfOk};
ghost use Rattle.nbd_threads.specs.Retunes.{put_in_force, rates_of};

use nbd_base::NoMemory;
use nbd_commands::Config;
use nbd_policy::GATE_LOOK_MS;
use nbd_workers::Bell;
use std::alloc::Global;
use std::marker::Model;
use std::sync::atomic::{AtomicU64, Ordering};
use std::sync::{Mutex, MutexGuard, Wait};
use std::time::Duration;
use turn_order::Rates;

/// Where the readers of an export wait while other rates are asked for it: they hand nothing in.
#[derive(Drop)]
pub struct RetuneGate {
    // How many retunes are asked for.
    asked: AtomicU64,
    opened: Bell,
}

impl RetuneGate {
    /// An open one.
    pub fn new() -> RetuneGate {
        RetuneGate {
            asked: AtomicU64::new(0),
            opened: Bell::new(),
        }
    }

    /// A retune is asked for from now on.
    pub fn shut(&self) {
        self.asked.fetch_add(1, Ordering::SeqCst);
    }

    /// It isn't any more.
    pub fn open(&self) {
        self.asked.fetch_sub(1, Ordering::SeqCst);
        self.opened.ring();
    }

    /// Whether a retune is asked for.
    pub fn is_shut(&self) -> bool {
        self.asked.load(Ordering::SeqCst) > 0
    }

    /// How often it was opened, wrapping.
    pub fn heard(&self) -> u64 {
        self.opened.heard()
    }

    /// Sleeps until it is opened once more than `heard`, and for a while at most.
    pub fn wait<R: Wait>(&self, rt: &R, heard: u64) {
        self.opened
            .wait(rt, heard, Some(Duration::from_millis(GATE_LOOK_MS)));
    }
}

/// The rates of each export, by number, since its latest retune.
#[derive(Drop)]
pub struct RatesInForce {
    rates: Vec<Rates>,
}

impl Model for RatesInForce {
    ghost use Rattle.std.specs.Prelude.{List};
    ghost use Rattle.turn_order.specs.declared.Rates.{Rates};

    ghost Value = { List Rates };

    ghost view = { λ r. r.rates.items };
}

impl RatesInForce {
    /// The export has these from now on, and each other export keeps its own. Where there is no such export, all stay.
    #[tactic(auto, using(crate::proofs::InForce::put_past, crate::proofs::InForce::put_others))]
    pub fn put(&mut self, export: u32, rates: Rates)
        ensures value { self.new ≡ put_in_force export rates self.old }
        ensures others { (e : ℕ) → e ≢ export → slice_get self.new e ≡ slice_get self.old e }
        ensures missing { length self.old ≤ export → self.new ≡ self.old }
    {
        let at = export as usize;
        if at < self.rates.len() {
            self.rates[at] = rates;
        }
    }

    /// Those of an export. None where there is no such export.
    fn get(&self, export: u32) -> Option<Rates>
        ensures { result ≡ slice_get self.now export }
    {
        self.rates.get(export as usize).copied()
    }
}

/// The rates in force, and the gate of each export.
#[derive(Drop)]
pub struct Retunes {
    in_force: Mutex<RatesInForce>,
    gates: Vec<RetuneGate>,
}

impl Retunes {
    /// Of the exports of a configuration, for which nothing is asked yet.
    pub fn new(alloc: Global, config: &Config<Global>) -> Result<Retunes, NoMemory> {
        let mut gates = Vec::new(alloc);
        for _ in config.exports() {
            gates.push(RetuneGate::new())?;
        }
        let rates = configured_rates(alloc, config)?;
        Ok(Retunes {
            in_force: Mutex::new(RatesInForce { rates }),
            gates,
        })
    }

    /// The gate of an export. None where there is no such export.
    pub fn gate(&self, export: u32) -> Option<&RetuneGate> {
        self.gates.get(export as usize)
    }

    /// Those in force, which nobody changes until the guard is dropped.
    pub fn hold<R: Wait>(&self, rt: &R) -> MutexGuard<'_, RatesInForce> {
        self.in_force.lock(rt)
    }

    /// Those of an export. None where there is no such export.
    pub fn rates_of<R: Wait>(&self, rt: &R, export: u32) -> Option<Rates> {
        self.in_force.lock(rt).get(export)
    }
}

/// The rates of the exports of a configuration, in order.
pub fn configured_rates(alloc: Global, config: &Config<Global>) -> Result<Vec<Rates>, NoMemory>
    ensures { IfOk result (λ rates. rates.items ≡ map rates_of config.now.exports) }
{
    let exports = config.exports();
    let mut rates = Vec::new(alloc);
    for export in exports {
        rates.push(Rates {
            reservation: export.reservation(),
            limit: export.limit(),
            weight: export.weight(),
        })?;
    }
    Ok(rates)
}
