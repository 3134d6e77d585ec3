//! Other rates for an export of a server that runs.

ghost use Rattle.std.specs.Prelude.{◌≡◌};
ghost use Rattle.nbd_service.specs.Retunes.{is_tried_again_by, outcome_by};

use crate::service::Service;
use nbd_commands::{ConfigError, Rates, Refusal};
use nbd_policy::{RETUNE_LOOK_MS, RETUNE_LOOKS, still_retunes};
use nbd_threads::RetuneGate;
use server_core::NotRetuned;
use std::sync::Wait;
use std::sync::ledger::Ledger;
use std::time::Duration;
use std::{thread, time};
use tag_clock::Clock;

/// What came of a retune. All but the first leave all as it was.
#[derive(Clone, Copy, Debug, PartialEq, Eq, Drop)]
pub enum RetuneOutcome {
    /// The export has the rates from then on.
    Made,
    /// Requests of the export still waited at the last try.
    Busy,
    /// All passes were still out at the last try.
    Crowded,
    /// No export may have these rates.
    Refused(Refusal),
    /// There is no such export.
    NoExport,
    /// The export has made as many steps as it ever may.
    Worn,
    NoMemory,
}

impl<L: Ledger> Service<L> {
    /// Gives an export other rates. Its readers hand nothing in meanwhile, so that at some moment no request of it waits: then
    /// they are made. That is tried for 5 seconds at most, and the last try is told.
    pub fn retune<R: Wait + time::Clock>(
        &self,
        rt: &R,
        export: u32,
        rates: turn_order::Rates,
    ) -> RetuneOutcome {
        let tuned = Rates::new(
            u64::from(rates.reservation),
            u64::from(rates.limit),
            u64::from(rates.weight),
        );
        match (tuned, self.retunes.gate(export)) {
            (Ok(tuned), Some(gate)) => {
                gate.shut();
                let outcome = self.retune_in_time(rt, export, rates, tuned);
                gate.open();
                outcome
            }
            (Ok(_), None) => RetuneOutcome::NoExport,
            (Err(ConfigError::Refused(refusal)), _) => RetuneOutcome::Refused(refusal),
            (Err(ConfigError::NoMemory), _) => RetuneOutcome::NoMemory,
        }
    }

    /// Tries to make it again and again, while what is in its way may pass and the time isn't over.
    fn retune_in_time<R: Wait + time::Clock>(
        &self,
        rt: &R,
        export: u32,
        rates: turn_order::Rates,
        tuned: Rates,
    ) -> RetuneOutcome {
        let clock = self.clock(rt);
        let began = clock.now().nanoseconds();
        let mut latest = RetuneOutcome::Busy;
        for _ in 0..RETUNE_LOOKS {
            latest = self.retune_now(rt, export, rates, tuned);
            let passed = clock.now().nanoseconds().saturating_sub(began);
            if !is_tried_again(latest, passed) {
                break;
            }
            // What waits may be left to a thread that waits for its client.
            self.bells.work.ring_one();
            thread::sleep(rt, Duration::from_millis(RETUNE_LOOK_MS));
        }
        latest
    }

    /// Makes it where no request waits. The server, the order of turns and what is told have the rates in the same order of
    /// retunes, since one lock is held for all three.
    fn retune_now<R: Wait + time::Clock>(
        &self,
        rt: &R,
        export: u32,
        rates: turn_order::Rates,
        tuned: Rates,
    ) -> RetuneOutcome {
        let Some(mut pass) = self.passes.borrow(rt) else {
            return RetuneOutcome::Crowded;
        };
        let mut in_force = self.retunes.hold(rt);
        let made = self.shared.turn_retune(rt, &mut pass, export, tuned);
        if made.is_ok() {
            in_force.put(export, rates);
            let now = self.clock(rt).now();
            self.turns.retune(rt, export, rates, now);
        }
        drop(in_force);
        self.passes.give_back(rt, pass);
        outcome_of(made)
    }
}

/// What came of one try.
fn outcome_of(made: Result<(), NotRetuned>) -> RetuneOutcome
    ensures { result ≡ outcome_by made }
{
    match made {
        Ok(()) => RetuneOutcome::Made,
        Err(NotRetuned::NoExport) => RetuneOutcome::NoExport,
        Err(NotRetuned::Worn) => RetuneOutcome::Worn,
        Err(NotRetuned::Waiting) => RetuneOutcome::Busy,
        Err(NotRetuned::NoMemory) => RetuneOutcome::NoMemory,
    }
}

/// Whether a retune of which this came is tried once more, so many nanoseconds behind the first try.
fn is_tried_again(outcome: RetuneOutcome, passed: u64) -> bool
    ensures { result ≡ is_tried_again_by outcome passed }
{
    match outcome {
        RetuneOutcome::Busy | RetuneOutcome::Crowded => still_retunes(passed),
        RetuneOutcome::Made
        | RetuneOutcome::Refused(_)
        | RetuneOutcome::NoExport
        | RetuneOutcome::Worn
        | RetuneOutcome::NoMemory => false,
    }
}
