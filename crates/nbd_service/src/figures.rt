//! What is told of the server and its exports while it runs.
ghost use Rattle.std.specs.Prelude.{◌≡◌, ◌-◌};
ghost use Rattle.nbd_service.specs.Figures.{chosen_by};

use crate::service::{Disks, Service};
use export_cell::ExportCell;
use export_store::Paged;
use nbd_base::NoMemory;
use nbd_commands::Config;
use nbd_measures::{HoldCount, WaitQuantiles};
use payload::PAGE;
use server_lock::{ExportCounts, ExportTally, Tally};
use std::alloc::Global;
use std::sync::Wait;
use std::sync::ledger::Ledger;
use turn_order::Rates;

/// What an export takes, in bytes. Image, base and log have most of their memory in common.
#[derive(Clone, Copy, Debug, PartialEq, Eq, Drop)]
pub struct HeldBytes {
    /// Those of the disk's pages that have memory, and of those that are kept as zeros.
    pub image: u64,
    /// The same of the disk as it was before the steps of its log. None where steps are queued for it.
    pub base: Option<u64>,
    /// The data of the WRITEs in its log.
    pub log: u64,
}

/// What is told of an export.
#[derive(Clone, Copy, Debug, PartialEq, Eq, Drop)]
pub struct ExportFigures {
    pub held: HeldBytes,
    pub waiting: u64,
    pub steps: u64,
    pub counts: ExportCounts,
    pub waits: WaitQuantiles,
    /// Those in force.
    pub rates: Rates,
}

impl ExportFigures {
    /// How many requests were chosen.
    pub fn chosen(&self) -> u64
        ensures { result ≡ chosen_by self.now.counts }
    {
        self.counts
            .by_reservation
            .saturating_add(self.counts.by_weight)
    }

    /// How many requests are in service.
    pub fn in_service(&self) -> u64
        ensures { result ≡ chosen_by self.now.counts - self.now.counts.performed }
    {
        self.chosen().saturating_sub(self.counts.performed)
    }
}

/// What is counted of the exports of a configuration.
pub fn tally_of(alloc: Global, config: &Config<Global>) -> Result<Tally<Global>, NoMemory> {
    let mut tally = Tally::new(alloc);
    for export in config.exports() {
        let requests = export.depth().saturating_add(config.inflight());
        tally.add(ExportTally::new(alloc, requests)?)?;
    }
    Ok(tally)
}

impl<L: Ledger> Service<L> {
    /// How often threads of sessions had the lock, and how long.
    pub fn holds<R: Wait>(&self, rt: &R) -> HoldCount {
        self.shared.hold(rt).tally().holds()
    }

    /// What is told of an export, under one hold. None where there is no such export.
    pub fn export_figures<R: Wait>(
        &self,
        rt: &R,
        export: u32,
    ) -> Result<Option<ExportFigures>, NoMemory> {
        let Some(rates) = self.retunes.rates_of(rt, export) else {
            return Ok(None);
        };
        let disks = self.shared.hold(rt);
        figures_of(self.alloc, &*disks, export, rates)
    }
}

fn figures_of<L: Ledger>(
    alloc: Global,
    disks: &Disks<L>,
    export: u32,
    rates: Rates,
) -> Result<Option<ExportFigures>, NoMemory> {
    let Some(cell) = disks.server().journal(export) else {
        return Ok(None);
    };
    let Some(tally) = disks.tally().export(export) else {
        return Ok(None);
    };
    Ok(Some(ExportFigures {
        held: held_of(cell),
        waiting: cell.live().waiting() as u64,
        steps: cell.steps(),
        counts: tally.counts(),
        waits: tally.waits().quantiles(alloc)?,
        rates,
    }))
}

fn held_of(cell: &ExportCell<Paged<Global>>) -> HeldBytes {
    HeldBytes {
        image: bytes_of(cell.live().image()),
        base: match cell.base().image() {
            Some(image) => Some(bytes_of(image)),
            None => None,
        },
        log: cell.payload_bytes(),
    }
}

fn bytes_of(image: &Paged<Global>) -> u64 {
    (image.held() as u64).saturating_mul(PAGE as u64)
}
