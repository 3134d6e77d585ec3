//! The texts of answers.

use nbd_commands::Refusal;
use nbd_control::{
    Answer, ExportStats, Rates, Refused, ServerStats, SessionLine, write_answer, write_metrics,
    write_sessions, write_stats,
};
use nbd_measures::WaitQuantiles;
use refusing::Refusing;
use std::alloc::Global;

const ANSWERS: [(Answer, &[u8]); 16] = [
    (Answer::Gone, b"gone\n\n"),
    (Answer::Stopping, b"stopping\n\n"),
    (Answer::NoExport, b"refused no export\n\n"),
    (Answer::NoSession, b"refused no session\n\n"),
    (Answer::Retuned, b"retuned\n\n"),
    (Answer::Busy, b"busy\n\n"),
    (Answer::Worn, b"refused worn\n\n"),
    (Answer::NoMemory, b"refused no memory\n\n"),
    (
        Answer::Refused(Refused::LineTooLong),
        b"refused line too long\n\n",
    ),
    (Answer::Refused(Refused::NotUtf8), b"refused not UTF-8\n\n"),
    (
        Answer::Refused(Refused::UnknownCommand),
        b"refused unknown command\n\n",
    ),
    (
        Answer::Refused(Refused::FieldCount),
        b"refused wrong number of fields\n\n",
    ),
    (
        Answer::Refused(Refused::BadQuotes),
        b"refused bad quotes\n\n",
    ),
    (
        Answer::Refused(Refused::NotANumber),
        b"refused not a number\n\n",
    ),
    (
        Answer::Refused(Refused::Rates(Refusal::BadLimit)),
        b"refused C6\n\n",
    ),
    (
        Answer::Refused(Refused::Rates(Refusal::ReservationAboveLimit)),
        b"refused C9\n\n",
    ),
];

fn answer_is(alloc: Global, answer: Answer, expected: &[u8]) -> bool {
    let mut text = Vec::new(alloc);
    write_answer(alloc, answer, &mut text).is_ok() && text.as_slice() == expected
}

#[test]
fn answers_of_one_line(rt: HostRuntime) {
    for (answer, expected) in ANSWERS {
        assert!(rt; answer_is(rt.alloc(), answer, expected), "{answer:?}");
    }
}

const SERVER: ServerStats = ServerStats {
    uptime: 61_000_000_007,
    connections: 3,
    in_service: 2,
    holds: 1000,
    longest_hold: 12_345,
};

const QUIET: ExportStats<'static> = ExportStats {
    name: b"a",
    size: 4096,
    held_bytes: 0,
    base_bytes: None,
    log_bytes: 0,
    sessions: 0,
    waiting: 0,
    steps: 0,
    by_reservation: 0,
    by_weight: 0,
    errors: 0,
    read_bytes: 0,
    written_bytes: 0,
    rates: Rates {
        reservation: 0,
        limit: 0,
        weight: 1,
    },
    waits: WaitQuantiles {
        median: None,
        p99: None,
    },
};

const BUSY: ExportStats<'static> = ExportStats {
    name: b"b \"\\\n\x01\x7f\xc3\xa9",
    size: 8192,
    held_bytes: 4096,
    base_bytes: Some(8192),
    log_bytes: 512,
    sessions: 3,
    waiting: 4,
    steps: 5,
    by_reservation: 6,
    by_weight: 7,
    errors: 8,
    read_bytes: 9,
    written_bytes: 18_446_744_073_709_551_615,
    rates: Rates {
        reservation: 10,
        limit: 11,
        weight: 12,
    },
    waits: WaitQuantiles {
        median: Some(1),
        p99: Some(2_500_000_000),
    },
};

const STATS: &[u8] =
    b"server uptime_seconds=61.000000007 connections=3 requests_in_service=2 holds_total=1000 longest_hold_seconds=0.000012345
export name=\"a\" size_bytes=4096 held_bytes=0 base_bytes=- log_bytes=0 sessions=0 requests_waiting=0 steps_total=0 chosen_by_reservation_total=0 chosen_by_weight_total=0 errors_total=0 read_bytes_total=0 written_bytes_total=0 reservation_per_second=0 limit_per_second=0 weight=1 wait_median_seconds=- wait_p99_seconds=-
export name=\"b \\\"\\\\\\n\\u0001\\u007F\xc3\xa9\" size_bytes=8192 held_bytes=4096 base_bytes=8192 log_bytes=512 sessions=3 requests_waiting=4 steps_total=5 chosen_by_reservation_total=6 chosen_by_weight_total=7 errors_total=8 read_bytes_total=9 written_bytes_total=18446744073709551615 reservation_per_second=10 limit_per_second=11 weight=12 wait_median_seconds=0.000000001 wait_p99_seconds=2.500000000

";

fn stats_are(alloc: Global, expected: &[u8]) -> bool {
    let mut text = Vec::new(alloc);
    write_stats(alloc, &SERVER, &[QUIET, BUSY], &mut text).is_ok() && text.as_slice() == expected
}

#[test]
fn stats_of_two_exports(rt: HostRuntime) {
    assert!(rt; stats_are(rt.alloc(), STATS));
}

/// The first lines of the figures in Prometheus' format, and some of the others.
const METRICS: [&[u8]; 10] = [
    b"# HELP nbdq_uptime_seconds Time since the server started.
# TYPE nbdq_uptime_seconds gauge
nbdq_uptime_seconds 61.000000007
# HELP nbdq_connections Connections that are open.
# TYPE nbdq_connections gauge
nbdq_connections 3
",
    b"
# TYPE nbdq_holds_total counter
nbdq_holds_total 1000
",
    b"
# TYPE nbdq_export_size_bytes gauge
nbdq_export_size_bytes{export=\"a\"} 4096
nbdq_export_size_bytes{export=\"b \\\"\\\\\\n\x01\x7f\xc3\xa9\"} 8192
# HELP nbdq_export_held_bytes Bytes of pages that have memory or are kept as zeros.
",
    b"
nbdq_export_base_bytes{export=\"a\"} NaN
",
    b"
nbdq_export_log_bytes{export=\"a\"} 0
",
    b"
# TYPE nbdq_export_steps_total counter
nbdq_export_steps_total{export=\"a\"} 0
",
    b"
nbdq_export_written_bytes_total{export=\"a\"} 0
",
    b"
nbdq_export_wait_median_seconds{export=\"a\"} NaN
nbdq_export_wait_median_seconds{export=\"b \\\"\\\\\\n\x01\x7f\xc3\xa9\"} 0.000000001
",
    b"
nbdq_export_wait_p99_seconds{export=\"a\"} NaN
",
    b"} 2.500000000

",
];

fn metrics_have(alloc: Global, part: &[u8]) -> bool {
    if part.is_empty() {
        return false;
    }
    let mut text = Vec::new(alloc);
    if write_metrics(alloc, &SERVER, &[QUIET, BUSY], &mut text).is_err() {
        return false;
    }
    text.as_slice()
        .windows(part.len())
        .any(|piece| piece == part)
}

#[test]
fn metrics_of_two_exports(rt: HostRuntime) {
    for part in METRICS {
        assert!(rt; metrics_have(rt.alloc(), part), "{part:?}");
    }
}

const SESSIONS: [SessionLine<'static>; 2] = [
    SessionLine {
        export: b"a b",
        number: 7,
        address: b"127.0.0.1:50022",
        connected: 1_500_000_000,
        requests: 12,
        outstanding: 3,
        under_way_bytes: 4096,
    },
    SessionLine {
        export: b"c",
        number: 0,
        address: b"unix",
        connected: 0,
        requests: 0,
        outstanding: 0,
        under_way_bytes: 0,
    },
];

const SESSION_LINES: &[u8] =
    b"session export=\"a b\" number=7 address=\"127.0.0.1:50022\" connected_seconds=1.500000000 requests_total=12 outstanding=3 under_way_bytes=4096
session export=\"c\" number=0 address=\"unix\" connected_seconds=0.000000000 requests_total=0 outstanding=0 under_way_bytes=0

";

fn sessions_are(alloc: Global, sessions: &[SessionLine<'_>], expected: &[u8]) -> bool {
    let mut text = Vec::new(alloc);
    write_sessions(alloc, sessions, &mut text).is_ok() && text.as_slice() == expected
}

#[test]
fn lines_of_sessions(rt: HostRuntime) {
    assert!(rt; sessions_are(rt.alloc(), &SESSIONS, SESSION_LINES));
    assert!(rt; sessions_are(rt.alloc(), &[], b"\n"));
}

/// Whether the text stays where the nth growth is refused.
fn stays_at_growth(alloc: Global, nth: u64) -> bool {
    let refusing = Refusing::new(alloc, 0);
    let Ok(mut text) = Vec::from_slice(&refusing, b"kept") else {
        return false;
    };
    refusing.arm(nth);
    match write_stats(&refusing, &SERVER, &[QUIET], &mut text) {
        Ok(()) => refusing.is_armed(),
        Err(_) => text.as_slice() == b"kept".as_slice(),
    }
}

#[test]
fn a_text_stays_without_memory(rt: HostRuntime) {
    for nth in 1..20 {
        assert!(rt; stays_at_growth(rt.alloc(), nth), "growth {nth}");
    }
}
