//! Tests of configurations.
use nbd_commands::*;
use refusing::Refusing;
use std::alloc::Global;

type Case = (ExportSettings<'static>, Refusal);

// The first of these that isn't refused as is said, counted from 1; 0 where all are.
fn first_taken(list: &mut ExportList<Global>, cases: &[Case]) -> usize {
    for (place, (settings, refusal)) in cases.iter().enumerate() {
        if list.add(settings) != Err(ConfigError::Refused(*refusal)) {
            return place.saturating_add(1);
        }
    }
    0
}

// The same where each is added behind an export "a".
fn first_wrong(alloc: Global, cases: &[Case]) -> usize {
    let mut list = ExportList::new(alloc);
    if list.add(&ExportSettings::new(b"a", 4096)) == Ok(()) {
        first_taken(&mut list, cases)
    } else {
        usize::MAX
    }
}

#[test]
fn texts_come_first(rt: HostRuntime) {
    let b = ExportSettings::new(b"b", 4096);
    let cases: [Case; 4] = [
        (
            ExportSettings {
                name: b"a",
                size: 0,
                ..b
            },
            Refusal::RepeatedName,
        ),
        (
            ExportSettings {
                name: b"",
                description: Some(&[97; 4097]),
                ..b
            },
            Refusal::BadName,
        ),
        (
            ExportSettings {
                name: &[97; 256],
                ..b
            },
            Refusal::BadName,
        ),
        (
            ExportSettings {
                description: Some(&[97; 4097]),
                size: 0,
                ..b
            },
            Refusal::BadDescription,
        ),
    ];
    let wrong = first_wrong(rt.alloc(), &cases);
    assert!(rt; wrong == 0, "case {wrong}");
}

#[test]
fn sizes_and_rates_come_next(rt: HostRuntime) {
    let b = ExportSettings::new(b"b", 4096);
    let cases: [Case; 4] = [
        (
            ExportSettings {
                size: 1_099_511_627_777,
                ..b
            },
            Refusal::BadSize,
        ),
        (
            ExportSettings {
                size: 0,
                reservation: 1_000_001,
                ..b
            },
            Refusal::BadSize,
        ),
        (
            ExportSettings {
                reservation: 1_000_001,
                limit: 1_000_001,
                ..b
            },
            Refusal::BadReservation,
        ),
        (
            ExportSettings {
                limit: 1_000_001,
                weight: 0,
                ..b
            },
            Refusal::BadLimit,
        ),
    ];
    let wrong = first_wrong(rt.alloc(), &cases);
    assert!(rt; wrong == 0, "case {wrong}");
}

#[test]
fn queues_come_last(rt: HostRuntime) {
    let b = ExportSettings::new(b"b", 4096);
    let cases: [Case; 4] = [
        (
            ExportSettings {
                weight: 0,
                depth: 0,
                ..b
            },
            Refusal::BadWeight,
        ),
        (
            ExportSettings {
                depth: 4097,
                window: 0,
                ..b
            },
            Refusal::BadDepth,
        ),
        (
            ExportSettings {
                window: 0,
                reservation: 11,
                limit: 10,
                ..b
            },
            Refusal::BadWindow,
        ),
        (
            ExportSettings {
                reservation: 11,
                limit: 10,
                ..b
            },
            Refusal::ReservationAboveLimit,
        ),
    ];
    let wrong = first_wrong(rt.alloc(), &cases);
    assert!(rt; wrong == 0, "case {wrong}");
}

#[test]
fn refusals_have_their_numbers(rt: HostRuntime) {
    for (refusal, code) in [
        (Refusal::ExportCount, 3),
        (Refusal::BadName, 4),
        (Refusal::RepeatedName, 4),
        (Refusal::BadDescription, 4),
        (Refusal::BadSize, 5),
        (Refusal::BadReservation, 6),
        (Refusal::BadLimit, 6),
        (Refusal::BadWeight, 7),
        (Refusal::BadDepth, 8),
        (Refusal::BadWindow, 8),
        (Refusal::BadInflight, 8),
        (Refusal::ReservationAboveLimit, 9),
    ] {
        assert!(rt; refusal.code() == code, "{refusal}");
    }
}

// Whether two exports are added to none.
fn adds_both(list: &mut ExportList<Global>) -> bool {
    let first = ExportSettings {
        description: Some(b""),
        reservation: 3,
        limit: 5,
        weight: 7,
        depth: 11,
        window: 13,
        ..ExportSettings::new(b"first", 17)
    };
    let second = ExportSettings {
        read_only: true,
        ..ExportSettings::new(b"second", 1_099_511_627_776)
    };
    list.add(&first) == Ok(()) && list.add(&second) == Ok(())
}

// Whether an export is the first of these.
fn is_first(export: &ExportConfig<Global>) -> bool {
    let info = ExportInfo {
        size: 17,
        read_only: false,
    };
    export.name() == b"first".as_slice()
        && export.description() == Some(b"".as_slice())
        && (export.size(), export.is_read_only(), export.flags()) == (17, false, 0x056d)
        && (export.reservation(), export.limit(), export.weight()) == (3, 5, 7)
        && (export.depth(), export.window()) == (11, 13)
        && export.info() == info
}

// Whether an export is the second.
fn is_second(export: &ExportConfig<Global>) -> bool {
    export.name() == b"second".as_slice()
        && export.description().is_none()
        && (export.size(), export.is_read_only(), export.flags())
            == (1_099_511_627_776, true, 0x050f)
        && (export.reservation(), export.limit(), export.weight()) == (0, 0, 1)
        && (export.depth(), export.window()) == (1024, 256)
}

// Why no configuration of no export is made.
fn refusal_of_none(alloc: Global) -> Option<Refusal> {
    Config::new(ExportList::new(alloc), 0).err()
}

#[test]
fn a_server_offers_what_was_added(rt: HostRuntime) {
    assert!(rt; refusal_of_none(rt.alloc()) == Some(Refusal::ExportCount));
    let mut list = ExportList::new(rt.alloc());
    assert!(rt; adds_both(&mut list));
    let config = Config::new(list, 8).ok().expect(&rt, "a configuration");
    assert!(rt; config.inflight() == 8);
    assert!(rt; config.exports().len() == 2);
    assert!(rt; is_first(&config.exports()[0]));
    assert!(rt; is_second(&config.exports()[1]));
}

// Why no configuration of one export is made, with so many in service at most. None where one is made, ExportCount where the export
// isn't added.
fn refusal_at(alloc: Global, inflight: u64) -> Option<Refusal> {
    let mut list = ExportList::new(alloc);
    if list.add(&ExportSettings::new(b"a", 1)) == Ok(()) {
        Config::new(list, inflight).err()
    } else {
        Some(Refusal::ExportCount)
    }
}

#[test]
fn the_number_in_service_has_a_range(rt: HostRuntime) {
    let bad = Some(Refusal::BadInflight);
    for (inflight, refusal) in [(0, bad), (1, None), (4096, None), (4097, bad)] {
        assert!(rt; refusal_at(rt.alloc(), inflight) == refusal, "{inflight}");
        assert!(rt; is_inflight(inflight) == refusal.is_none(), "{inflight}");
    }
    assert!(rt; DEFAULT_INFLIGHT == 32);
}

// Whether an export is added where a growth is refused: at once where nothing comes to that growth, else when it is added again.
fn is_added(heap: &Refusing<Global>) -> bool {
    let mut list = ExportList::new(heap);
    let a = ExportSettings {
        description: Some(b"the first"),
        ..ExportSettings::new(b"a", 4096)
    };
    let first = list.add(&a);
    if heap.is_armed() {
        first == Ok(())
    } else {
        first == Err(ConfigError::NoMemory) && list.add(&a) == Ok(())
    }
}

// How many growths were refused in turn up to the one that nothing came to. 0 where something was wrong, or there is no end.
fn growths_of_exports(heap: &Refusing<Global>) -> u64 {
    for nth in 1..100u64 {
        heap.arm(nth);
        if !is_added(heap) {
            return 0;
        }
        if heap.is_armed() {
            return nth - 1;
        }
    }
    0
}

#[test]
fn each_growth_of_the_exports_is_refused_in_turn(rt: HostRuntime) {
    let heap = Refusing::new(rt.alloc(), 0);
    assert!(rt; growths_of_exports(&heap) >= 1);
}

// Of four rates out of range the first case is told; those in range have the intervals of an export that is configured so.
#[test]
fn rates_have_ranges(rt: HostRuntime) {
    for (reservation, limit, weight, refusal) in [
        (1_000_001, 1_000_001, 0, Refusal::BadReservation),
        (5, 1_000_001, 0, Refusal::BadLimit),
        (5, 4, 0, Refusal::BadWeight),
        (5, 4, 1_000_001, Refusal::BadWeight),
        (5, 4, 1, Refusal::ReservationAboveLimit),
    ] {
        let refused = Rates::new(reservation, limit, weight);
        assert!(rt; refused == Err(ConfigError::Refused(refusal)));
    }
    assert!(rt; Rates::new(5, 0, 1).is_ok());
    let rates = Rates::new(1_000_000, 1_000_000, 4).expect(&rt, "in range");
    assert!(rt; rates.tuning().r_interval() == Some(1_000));
    assert!(rt; rates.tuning().l_interval() == 1_000);
    assert!(rt; rates.tuning().p_interval() == 250_000_000);
}
