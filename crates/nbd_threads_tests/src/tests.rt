mod rates_in_force;
mod spare_pages;
mod timekeeping;

use nbd_policy::{
    Expectation, Habit, Load, LongReaders, RequestSize, Waiting, WritePace, accept_may_pass,
    answers_read, asks_for_turn, backlog_after, batch_after, bell_of, brought_by, connections_for,
    cost_of, data_of, ends_hold, goes_straight, handed_in, handshake_wait_ms, has_more,
    held_back_patience, holds_back, is_alone, is_due, is_old, is_stalled, keeps_up, limited_until,
    load_of, looks_behind, looks_in_a_row, makes_another_ready, makes_ready, makes_room, may_keep,
    may_read_ahead, moment_after, next_skip, passes_for, patience, performs_itself, sends_early,
    sent_at_once, short_pieces, size_of, span_of, still_defers, still_retunes,
    still_waits_for_line, suits_reader, waiting_until, wakes_worker, yields_behind,
    yields_behind_look,
};
use nbd_threads::{InteractiveLoad, RunningClock, SpinRead, Traffic, TurnSeat, Turns};
use nbd_wire::RequestHead;
use nbd_wire::protocol::{CACHE, FLUSH, READ, TRIM, WRITE, WRITE_ZEROES};
use std::alloc::Global;
use std::io::Write;
use std::net::TcpStream;
use std::os::fd::OwnedFd;
use std::os::unix::net::UnixStream;
use std::sync::Wait;
use std::sync::atomic::{AtomicBool, Ordering};
use std::test::Fail;
use std::time::{Duration, Instant};
use std::{io, time};
use tag_clock::Moment;
use turn_order::Rates;

/// Whether a session is expected before one asked for little at the moment 2,000,005, then, and where one asks for much at another.
fn expected_at(nanoseconds: u64) -> Option<(bool, bool, bool)> {
    let interactive = InteractiveLoad::new();
    let before = interactive.is_expected();
    interactive.note(Expectation::Interactive, Moment::new(2_000_005)?);
    let noted = interactive.is_expected();
    interactive.note(Expectation::Nothing, Moment::new(nanoseconds)?);
    Some((before, noted, interactive.is_expected()))
}

#[test]
fn a_session_that_asked_for_little(rt: HostRuntime) {
    assert!(rt; expected_at(1_002_000_005) == Some((false, true, true)));
    assert!(rt; expected_at(1_002_000_006) == Some((false, true, false)));
    let interactive = InteractiveLoad::new();
    interactive.begin();
    assert!(rt; interactive.is_asking());
    interactive.end();
    assert!(rt; !interactive.is_asking());
}

/// Whether it is known that sessions ask for few requests before one with few asked at the moment 2,000,005, then, and at another.
fn few_at(nanoseconds: u64) -> Option<(bool, bool, bool)> {
    let sessions = InteractiveLoad::new();
    let before = sessions.has_few();
    sessions.note(Expectation::Few, Moment::new(2_000_005)?);
    let noted = sessions.has_few() && !sessions.is_expected();
    sessions.note(Expectation::Nothing, Moment::new(nanoseconds)?);
    Some((before, noted, sessions.has_few()))
}

#[test]
fn a_session_with_few_requests(rt: HostRuntime) {
    assert!(rt; few_at(1_002_000_005) == Some((false, true, true)));
    assert!(rt; few_at(1_002_000_006) == Some((false, true, false)));
    assert!(rt; !is_old(1, Moment::new(1_000_000).unwrap_or(Moment::zero())));
    assert!(rt; is_old(1, Moment::new(1_000_001).unwrap_or(Moment::zero())));
}

/// What is expected of a session behind so many holds of one load, with so many requests at hand.
fn expected_behind(holds: usize, load: Load, at_hand: u64) -> Expectation {
    let mut habit = Habit::UNKNOWN;
    for _ in 0..holds {
        habit = habit.with(load, at_hand);
    }
    habit.expectation()
}

#[test]
fn how_a_session_asks(rt: HostRuntime) {
    assert!(rt; expected_behind(2, Load::Interactive, 1) == Expectation::Nothing);
    assert!(rt; expected_behind(3, Load::Interactive, 1) == Expectation::Interactive);
    assert!(rt; expected_behind(7, Load::Bulk, 11) == Expectation::Nothing);
    assert!(rt; expected_behind(8, Load::Bulk, 11) == Expectation::Few);
    assert!(rt; expected_behind(9, Load::Bulk, 12) == Expectation::Nothing);
    let many = Habit {
        interactive: 8,
        few: 8,
    }
    .with(Load::Bulk, 12);
    assert!(rt; many == Habit::UNKNOWN);
}

#[test]
fn readers_of_long_data_are_counted(rt: HostRuntime) {
    let one = LongReaders::NOBODY.with(7, false);
    let two = one.with(7, true).with(7, false);
    assert!(rt; one.count() == 1 && two.count() == 2);
    let later = two.with(8, false);
    assert!(rt; later.count() == 2 && later.with(7, false).now == 2);
    assert!(rt; later.with(9, true).count() == 1 && later.with(10, true).count() == 0);
    assert!(rt; span_of(moment_after(Duration::from_millis(19))) == 0);
    assert!(rt; span_of(moment_after(Duration::from_millis(20))) == 1);
}

/// How much data a request has that asks for so many bytes, or brings them.
fn size(kind: u16, length: u32) -> RequestSize {
    size_of(head(kind, length))
}

#[test]
fn how_long_a_request_is(rt: HostRuntime) {
    assert!(rt; size(READ, 16_384) == RequestSize::Short);
    assert!(rt; size(READ, 16_385) == RequestSize::LongRead);
    assert!(rt; size(WRITE, 65_535) == RequestSize::Short);
    assert!(rt; size(WRITE, 65_536) == RequestSize::LongWrite);
    assert!(rt; size(TRIM, 1_048_576) == RequestSize::Short);
    assert!(rt; size(TRIM, 1_048_577) == RequestSize::LongZero);
    assert!(rt; size(WRITE_ZEROES, 4_294_967_295) == RequestSize::LongZero);
    assert!(rt; size(CACHE, 4_294_967_295) == RequestSize::Short);
}

#[test]
fn who_goes_first_to_the_server(rt: HostRuntime) {
    let short = head(WRITE, 65_535);
    assert!(rt; load_of(short, false, false, false) == Load::Interactive);
    assert!(rt; load_of(short, false, true, false) == Load::Interactive);
    assert!(rt; load_of(short, true, false, false) == Load::Bulk);
    assert!(rt;
        load_of(short, false, true, true) == Load::Bulk,
        "several wait for their limit"
    );
    assert!(rt; load_of(short, false, false, true) == Load::Interactive);
    let long = head(WRITE, 262_143);
    assert!(rt; load_of(long, false, false, false) == Load::Interactive);
    assert!(rt; load_of(long, false, true, false) == Load::Bulk);
    assert!(rt; load_of(long, true, false, false) == Load::Bulk);
    assert!(rt; load_of(head(READ, 262_143), false, false, false) == Load::Interactive);
    assert!(rt; load_of(head(READ, 16_385), false, true, false) == Load::Bulk);
    assert!(rt; load_of(head(WRITE, 262_144), false, false, false) == Load::Bulk);
    assert!(rt; load_of(head(TRIM, 1_048_577), false, false, false) == Load::Bulk);
}

#[test]
fn who_performs_and_how_many(rt: HostRuntime) {
    assert!(rt; performs_itself(RequestSize::LongWrite));
    assert!(rt; ends_hold(RequestSize::LongZero) && ends_hold(RequestSize::Nothing));
    assert!(rt; !ends_hold(RequestSize::LongWrite) && !ends_hold(RequestSize::Short));
    assert!(rt; !performs_itself(RequestSize::LongRead));
    let answers = |kind, length| answers_read(head(kind, length), 3, 4);
    assert!(rt; answers(READ, 1_048_576) && !answers(READ, 1_048_577));
    assert!(rt; answers(READ, 16_385) && !answers(READ, 16_384));
    assert!(rt; !answers(WRITE, 131_072) && !answers_read(head(READ, 131_072), 2, 4));
    assert!(rt; handed_in(true, 8) == 1 && handed_in(false, 8) == 8);
    assert!(rt; batch_after(Duration::from_millis(1), true) == 8);
    assert!(rt; batch_after(Duration::from_micros(1_001), true) == 16);
    assert!(rt; batch_after(Duration::from_millis(1), false) == 16);
    assert!(rt; passes_for(100_000, 4) == 16_389);
    assert!(rt; bell_of(130) == 2);
    assert!(rt;
        moment_after(Duration::from_secs(3)) == Moment::new(3_000_000_000).unwrap_or(Moment::zero())
    );
}

#[test]
fn who_lets_others_run(rt: HostRuntime) {
    assert!(rt; next_skip(0) == 8 && next_skip(8) == 16 && next_skip(64) == 64);
    assert!(rt; yields_behind_look(31, 32) && !yields_behind_look(32, 32));
    assert!(rt; !yields_behind_look(49, 0));
    assert!(rt; looks_in_a_row(1) == 0 && looks_in_a_row(2) == 1 && looks_in_a_row(16) == 1);
    assert!(rt; yields_behind(196_608, 196_608) && !yields_behind(196_607, 196_608));
}

#[test]
fn what_is_read_ahead_and_kept(rt: HostRuntime) -> Result<(), Fail> {
    let now = Moment::new(30_000_000).ok_or("a moment")?;
    let lately = Moment::new(10_000_000).ok_or("a moment")?;
    assert!(rt; is_alone(&None, now) && !is_alone(&Some(lately), now));
    assert!(rt; is_alone(&Some(Moment::zero()), now));
    assert!(rt; may_read_ahead(4) && !may_read_ahead(3));
    assert!(rt; short_pieces(1, 16_383) == 2 && short_pieces(1, 16_384) == 0);
    assert!(rt; may_keep(3) && !may_keep(4));
    assert!(rt; suits_reader(196_608, 65_535, 262_144) && !suits_reader(196_608, 65_536, 262_144));
    assert!(rt; !suits_reader(196_609, 0, 262_144) && suits_reader(196_609, 0, 262_148));
    assert!(rt; makes_ready(2, 4) && !makes_ready(3, 4) && !makes_ready(1, 1));
    assert!(rt; patience(0) == None);
    assert!(rt; patience(1) == Some(Duration::from_secs(1)));
    assert!(rt; held_back_patience(0) == Duration::from_millis(20));
    assert!(rt; held_back_patience(1) == Duration::from_secs(1));
    Ok(())
}

#[test]
fn how_many_replies_are_made_ready(rt: HostRuntime) {
    assert!(rt; makes_another_ready(true, 1, 2_097_152) && !makes_another_ready(true, 2, 524_288));
    assert!(rt; !makes_another_ready(false, 1, 524_288) && makes_another_ready(false, 1, 524_287));
    assert!(rt; makes_another_ready(false, 3, 393_216) && !makes_another_ready(false, 4, 0));
}

#[test]
fn what_goes_out_at_once(rt: HostRuntime) {
    assert!(rt; sends_early(262_144, false) && !sends_early(262_143, false));
    assert!(rt; !sends_early(262_144, true));
    assert!(rt; goes_straight(16_385, true) && !goes_straight(16_384, true));
    assert!(rt; !goes_straight(16_385, false));
    assert!(rt; sent_at_once(196_608, true) == 131_072 && sent_at_once(196_607, true) == 196_607);
    assert!(rt; sent_at_once(196_608, false) == 196_608);
}

/// The head of a request for so many bytes.
fn head(kind: u16, length: u32) -> RequestHead {
    RequestHead {
        flags: 0,
        kind,
        cookie: 1,
        offset: 0,
        length,
    }
}

#[test]
fn who_is_woken_for_what_waits(rt: HostRuntime) {
    let until = |nanoseconds| Waiting::Until { nanoseconds };
    assert!(rt; wakes_worker(until(4), false, 5) && !wakes_worker(until(5), false, 5));
    assert!(rt; wakes_worker(Waiting::ForOthers, false, 5));
    assert!(rt; !wakes_worker(until(4), true, 5) && !wakes_worker(Waiting::ForOthers, true, 5));
    assert!(rt; !wakes_worker(Waiting::Nothing, false, 5));
    let now = Moment::new(5).expect(&rt, "a moment");
    assert!(rt; is_due(until(5), now) && !is_due(until(6), now));
    assert!(rt; !is_due(Waiting::ForOthers, now) && !is_due(Waiting::Nothing, now));
    assert!(rt; waiting_until(&Some(now)) == until(5));
    assert!(rt; waiting_until(&None) == Waiting::ForOthers);
}

#[test]
fn what_a_request_counts(rt: HostRuntime) {
    assert!(rt; cost_of(head(READ, 0)) == 1 && cost_of(head(READ, 16_384)) == 1);
    assert!(rt; cost_of(head(WRITE, 16_385)) == 2);
    assert!(rt; cost_of(head(WRITE, 1_048_576)) == 64);
    assert!(rt; cost_of(head(TRIM, 1_048_576)) == 1 && cost_of(head(FLUSH, 0)) == 1);
    assert!(rt; cost_of(head(CACHE, 4_294_967_295)) == 1);
    assert!(rt; data_of(head(WRITE, 5)) == 5 && data_of(head(TRIM, 5)) == 0);
    assert!(rt; data_of(head(CACHE, 5)) == 0 && data_of(head(FLUSH, 0)) == 0);
    assert!(rt; brought_by(head(WRITE, 5)) == 5 && brought_by(head(READ, 5)) == 0);
    assert!(rt; makes_room(4_194_304) && !makes_room(4_194_303));
    assert!(rt; backlog_after(3, true) == 16 && backlog_after(3, false) == 2);
    assert!(rt; backlog_after(0, false) == 0);
    assert!(rt; asks_for_turn(64, 0) && asks_for_turn(1, 1_000_000) && !asks_for_turn(63, 999_999));
    assert!(rt; still_defers(199_999) && !still_defers(200_000));
    assert!(rt; still_retunes(4_999_999_999) && !still_retunes(5_000_000_000));
    assert!(rt; still_waits_for_line(10_000_000_000) && !still_waits_for_line(10_000_000_001));
}

#[test]
fn until_when_a_limit_holds(rt: HostRuntime) {
    let now = Moment::new(5).expect(&rt, "a moment");
    assert!(rt; limited_until(5, now).is_none() && limited_until(-1, now).is_none());
    assert!(rt; limited_until(6, now) == Moment::new(6));
    assert!(rt; limited_until(1 << 62, now).is_none());
}

#[test]
fn whose_requests_wait_for_the_server(rt: HostRuntime) {
    assert!(rt; has_more(true, 0, true) && has_more(false, 1, true));
    assert!(rt; !has_more(false, 0, true) && has_more(true, 0, false));
    assert!(rt; !has_more(false, 8, false));
    assert!(rt;
        looks_behind(RequestSize::LongWrite, 8) && !looks_behind(RequestSize::LongWrite, 9)
    );
    assert!(rt; !looks_behind(RequestSize::Short, 0) && !looks_behind(RequestSize::LongRead, 0));
    assert!(rt; keeps_up(1_000, 1_500, 500) && !keeps_up(1_000, 1_501, 500));
    assert!(rt; keeps_up(1_000, 1_000, 0) && WritePace::NOTHING.keeps_up());
    let slow = WritePace::NOTHING.with(8_388_608, 20_000_000, 10);
    assert!(rt; !slow.keeps_up() && slow.with(2, 0, 0).bytes == 8_388_610);
    let aged = slow.with(2, 0, 0).with(1, 2, 3);
    assert!(rt; aged.bytes == 4_194_306 && aged.writing == 10_000_002 && aged.between == 8);
}

#[test]
fn how_long_and_how_much_is_waited_for(rt: HostRuntime) {
    assert!(rt; handshake_wait_ms(0, 0) == 10_000 && handshake_wait_ms(55_000, 1_000) == 5_000);
    assert!(rt; handshake_wait_ms(60_000, 0) == 0 && handshake_wait_ms(20_000, 10_000) == 0);
    assert!(rt; !is_stalled(599) && is_stalled(600));
    assert!(rt; !holds_back(1, 67_108_864, 268_435_456));
    assert!(rt; holds_back(1, 67_108_865, 0) && holds_back(1, 0, 268_435_457));
    assert!(rt; !holds_back(0, 67_108_865, 268_435_457));
}

#[test]
fn what_a_listener_passes_over(rt: HostRuntime) {
    assert!(rt; accept_may_pass(24) && accept_may_pass(71) && accept_may_pass(1));
    assert!(rt; !accept_may_pass(9) && !accept_may_pass(22));
    assert!(rt; connections_for(1_024) == 1_004 && connections_for(3) == 0);
}

/// Whether a byte came by a read of a socket that was looked at before anything was sent, by how many of twelve reads behind it, and the
/// latest of these bytes.
fn watched(rt: &HostRuntime) -> io::Result<(bool, usize, u8)> {
    let (here, mut there) = UnixStream::pair(rt)?;
    let peer = &TcpStream::from(OwnedFd::from(here));
    let load = InteractiveLoad::new();
    let mut socket = SpinRead::new();
    let mut byte = [0u8; 1];
    let before = socket.read(peer, &mut byte, &load).is_some();
    there.write_all(b"abcdefghijkl")?;
    let mut after = 0usize;
    for _ in 0..12 {
        if socket.read(peer, &mut byte, &load) == Some(1) {
            after = after.saturating_add(1);
        }
    }
    Ok((before, after, byte[0]))
}

#[test]
fn a_socket_that_is_watched(rt: HostRuntime) -> Result<(), Fail> {
    // Since nothing came at first, the socket isn't looked at for eight reads.
    assert_eq!(rt; watched(&rt)?, (false, 4, b'd'));
    Ok(())
}

/// A long WRITE.
const LONG_WRITE: RequestHead = RequestHead {
    flags: 0,
    kind: WRITE,
    cookie: 0,
    offset: 0,
    length: 131_072,
};

/// How many bytes come of the rest of a request where three have come, where none has, and where three have since: in the last case the
/// session doesn't count any more as one that has something at hand.
fn came_within<R: Wait + time::Clock>(
    rt: &R,
    turns: &Turns,
    peer: &TcpStream,
    mut there: &UnixStream,
) -> io::Result<(Option<usize>, Option<usize>, Option<usize>)> {
    let seat = TurnSeat::new(turns, Instant::now(rt).ok(), 0);
    let _ = turns.is_alone(1);
    seat.wait_for_turn(rt, LONG_WRITE, true, 0);
    seat.owe(8);
    let mut bytes = [0u8; 8];
    there.write_all(b"abc")?;
    let first = seat.read_within(rt, peer, &mut bytes);
    let second = seat.read_within(rt, peer, &mut bytes);
    there.write_all(b"abc")?;
    let third = seat.read_within(rt, peer, &mut bytes);
    seat.wait_for_pieces(rt, &Traffic::new());
    seat.leave_later();
    Ok((first, second, third))
}

/// The same beside another export.
fn comes_within<R: Wait + time::Clock>(
    rt: &R,
    alloc: Global,
    peer: &TcpStream,
    there: &UnixStream,
) -> Option<(Option<usize>, Option<usize>, Option<usize>)> {
    let turns = two_turns(alloc)?;
    came_within(rt, &turns, peer, there).ok()
}

/// Whether a session counts as one that mostly has several requests, and looks behind its long WRITEs, before one behind which more has
/// come and after it.
fn sends_several<R: Wait + time::Clock>(rt: &R, alloc: Global) -> Option<[bool; 4]> {
    let turns = Turns::of(alloc, &[]).ok()?;
    let seat = TurnSeat::new(&turns, Instant::now(rt).ok(), 0);
    let before = (
        seat.has_several(),
        seat.looks_behind(RequestSize::LongWrite),
    );
    seat.wait_for_turn(rt, LONG_WRITE, true, 0);
    let after = (
        seat.has_several(),
        seat.looks_behind(RequestSize::LongWrite),
    );
    Some([before.0, before.1, after.0, after.1])
}

#[test]
fn a_client_that_sends_several(rt: HostRuntime) {
    assert!(rt; sends_several(&rt, rt.alloc()) == Some([false, true, true, false]));
}

#[test]
fn the_rest_of_a_request(rt: HostRuntime) -> Result<(), Fail> {
    let (here, there) = UnixStream::pair(&rt)?;
    let peer = TcpStream::from(OwnedFd::from(here));
    assert!(rt; comes_within(&rt, rt.alloc(), &peer, &there) == Some((Some(3), None, None)));
    Ok(())
}

/// How long an export waits that has just got far ahead of another.
fn waited<R: Wait + time::Clock>(rt: &R, turns: &Turns, start: Instant) -> Option<Duration> {
    let clock = RunningClock::since(rt, Some(start));
    turns.wait_for_turn(rt, 1, 1, None, &clock);
    turns.wait_for_turn(rt, 0, 20_000, None, &clock);
    let began = Instant::now(rt).ok()?;
    turns.wait_for_turn(rt, 0, 1, None, &clock);
    began.elapsed(rt).ok()
}

/// Whether the first export, which is ahead, waits at one of some turns, or goes on at one.
fn ever<R: Wait + time::Clock>(rt: &R, turns: &Turns, start: Instant, waits: bool) -> Option<bool> {
    // The other is waited for as long as it was seen lately, 5 milliseconds: a test that is stopped for longer waits for nobody.
    let mut found = false;
    for _ in 0..50 {
        let waited = waited(rt, turns, start)? >= Duration::from_micros(500);
        found = found || waited == waits;
    }
    Some(found)
}

/// The order of turns of two exports alike.
fn two_turns(alloc: Global) -> Option<Turns> {
    let rates = [Rates {
        reservation: 0,
        limit: 0,
        weight: 1,
    }; 2];
    Turns::of(alloc, &rates).ok()
}

/// Whether one export is alone, until another asks, and then waits at one of some turns.
fn waits_beside_another<R: Wait + time::Clock>(rt: &R, alloc: Global) -> Option<bool> {
    let turns = two_turns(alloc)?;
    let start = Instant::now(rt).ok()?;
    let clock = RunningClock::since(rt, Some(start));
    let before = turns.is_alone(0) && turns.is_alone(0);
    let at_hand = AtomicBool::new(false);
    turns.wait_for_turn(rt, 0, 1, Some(&at_hand), &clock);
    turns.wait_for_turn(rt, 1, 1, Some(&at_hand), &clock);
    let beside = !turns.is_alone(1) && !turns.is_alone(0);
    let waits = ever(rt, &turns, start, true)?;
    // Once it left, whoever is ahead goes on.
    turns.leave_later(1);
    let goes_on = ever(rt, &turns, start, false)?;
    turns.leave(rt, 0, Moment::zero(), false);
    Some(before && beside && waits && goes_on && at_hand.load(Ordering::SeqCst))
}

/// Whether an export that is ahead waits at one of some turns, and goes on at one once the other's requests wait for its limit.
fn goes_on_beside_a_limit<R: Wait + time::Clock>(rt: &R, alloc: Global) -> Option<(bool, bool)> {
    let turns = two_turns(alloc)?;
    let start = Instant::now(rt).ok()?;
    let clock = RunningClock::since(rt, Some(start));
    let at_hand = AtomicBool::new(false);
    turns.wait_for_turn(rt, 0, 1, Some(&at_hand), &clock);
    turns.wait_for_turn(rt, 1, 1, Some(&at_hand), &clock);
    let waits = ever(rt, &turns, start, true)?;
    let _ = turns.is_alone(0);
    let seat = TurnSeat::new(&turns, Some(start), 1);
    seat.note_limit(rt, moment_after(Duration::from_secs(3_600)), Moment::zero());
    let goes_on = ever(rt, &turns, start, false)?;
    Some((waits, goes_on))
}

#[test]
fn who_is_past_its_limit_is_not_waited_for(rt: HostRuntime) {
    assert!(rt; goes_on_beside_a_limit(&rt, rt.alloc()) == Some((true, true)));
}

#[test]
fn who_is_ahead_waits(rt: HostRuntime) {
    assert!(rt; waits_beside_another(&rt, rt.alloc()) == Some(true));
}
