//! The rates in force.

use super::*;
use nbd_commands::{Config, ExportList, ExportSettings};
use nbd_threads::Retunes;

const PLAIN: Rates = Rates {
    reservation: 0,
    limit: 0,
    weight: 1,
};

const CONFIGURED: Rates = Rates {
    reservation: 5,
    limit: 9,
    weight: 3,
};

const OTHER: Rates = Rates {
    reservation: 1,
    limit: 2,
    weight: 7,
};

/// Two exports, of which the second has rates that aren't plain.
fn two_exports(alloc: Global) -> Option<Config<Global>> {
    let mut list = ExportList::new(alloc);
    list.add(&ExportSettings::new(b"a", 4096)).ok()?;
    list.add(&ExportSettings {
        reservation: 5,
        limit: 9,
        weight: 3,
        ..ExportSettings::new(b"b", 4096)
    })
    .ok()?;
    Config::new(list, 32).ok()
}

/// Whether two exports have these rates, and there is no third.
fn are_in_force<R: Wait>(rt: &R, retunes: &Retunes, first: Rates, second: Rates) -> bool {
    retunes.rates_of(rt, 0) == Some(first)
        && retunes.rates_of(rt, 1) == Some(second)
        && retunes.rates_of(rt, 2) == None
}

#[test]
fn rates_of_one_export_are_changed(rt: HostRuntime) {
    let rt = &rt;
    let config = two_exports(rt.alloc()).expect(rt, "a configuration");
    let retunes = Retunes::new(rt.alloc(), &config).expect(rt, "memory");
    assert!(rt; are_in_force(rt, &retunes, PLAIN, CONFIGURED));
    retunes.hold(rt).put(2, OTHER);
    assert!(rt; are_in_force(rt, &retunes, PLAIN, CONFIGURED));
    retunes.hold(rt).put(0, OTHER);
    assert!(rt; are_in_force(rt, &retunes, OTHER, CONFIGURED));
}
