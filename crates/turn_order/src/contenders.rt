//! What the exports that contend for a turn have in common.
ghost use Rattle.std.specs.Prelude.{◌≡◌};
ghost use Rattle.turn_order.specs.Contenders.{joined, among};

use crate::flow::Flow;

/// What a choice by weight needs to know of the exports that contend, and of the one that asks.
#[derive(Clone, Copy, Debug, PartialEq, Eq)]
pub struct Contenders {
    /// The least virtual time.
    pub first: u128,
    /// The least step, which is that of the greatest weight.
    pub step: u64,
    /// Whether a reservation is late.
    pub late: bool,
}

/// One flow more.
fn join(all: Contenders, flow: &Flow, now: u128) -> Contenders
    ensures { result ≡ joined now flow.now all }
{
    if !flow.contends(now) {
        return all;
    }
    Contenders {
        first: all.first.min(flow.virtual_time),
        step: all.step.min(flow.step),
        late: all.late || flow.is_late(now),
    }
}

/// The flows that contend at a moment, and `own`.
pub fn gather(flows: &[Flow], own: &Flow, now: u128) -> Contenders
    ensures { result ≡ among now flows.now own.now }
{
    let mut all = Contenders {
        first: own.virtual_time,
        step: own.step,
        late: false,
    };
    for flow in flows {
        all = join(all, flow, now);
    }
    all
}
