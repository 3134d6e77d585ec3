//! A session's place in the order of turns.
ghost use Rattle.std.specs.Prelude.{◌≤◌, length, IfSome};

use crate::connections::Traffic;
use crate::running_clock::RunningClock;
use crate::spin_read::{has_input, read_now};
use crate::turns::Turns;
use nbd_policy::{
    RequestSize, asks_for_turn, backlog_after, cost_of, has_more, looks_behind, size_of,
};
use nbd_wire::RequestHead;
use std::net::TcpStream;
use std::sync::Wait;
use std::sync::atomic::{AtomicBool, AtomicU32, AtomicU64, Ordering};
use std::time;
use std::time::Instant;
use tag_clock::{Clock, Moment};

/// A session's place in the order of turns. Its reader waits there before it hands requests in, and has no lock meanwhile.
#[derive(Drop)]
pub struct TurnSeat<'a> {
    turns: &'a Turns,
    start: Option<Instant>,
    export: u32,
    // Whether the session counts as one that has something at hand.
    at_hand: AtomicBool,
    // Whether its reader waits for the client, and its writer has something to do.
    reader_waits: AtomicBool,
    // Whether the latest request was a long WRITE.
    writes_long: AtomicBool,
    // Whether its client keeps up with its replies.
    keeps_up: AtomicBool,
    // For how many holds it counts as one that mostly has several requests.
    backlog: AtomicU32,
    // What went on since its reader asked last, in units, and when that was, in nanoseconds.
    owed: AtomicU32,
    asked_at: AtomicU64,
}

impl<'a> TurnSeat<'a> {
    /// Of a session that has nothing at hand.
    pub fn new(turns: &'a Turns, start: Option<Instant>, export: u32) -> TurnSeat<'a> {
        TurnSeat {
            turns,
            start,
            export,
            at_hand: AtomicBool::new(false),
            reader_waits: AtomicBool::new(false),
            writes_long: AtomicBool::new(false),
            keeps_up: AtomicBool::new(true),
            backlog: AtomicU32::new(0),
            owed: AtomicU32::new(0),
            asked_at: AtomicU64::new(0),
        }
    }

    /// Waits for the turn of a request, behind which more has come or nothing, while `under_way` of the session are under way. Some
    /// requests go on without asking; the next that asks is charged with them. A session that mostly has one request at a time doesn't
    /// count as one that has something at hand: others would stop for it, and it would have to wake them behind each of its requests.
    /// A client of long READs mostly sends one behind each reply, so those that are under way count.
    pub fn wait_for_turn<R: Wait + time::Clock>(
        &self,
        rt: &R,
        head: RequestHead,
        behind: bool,
        under_way: u64,
    ) {
        let backlog = self.note_at_hand(size_of(head), behind, under_way);
        if self.is_alone() {
            self.owed.store(0, Ordering::SeqCst);
            return;
        }
        let cost = self
            .owed
            .load(Ordering::SeqCst)
            .saturating_add(cost_of(head));
        let enters = backlog > 0 && !self.is_at_hand();
        let clock = RunningClock::since(rt, self.start);
        let now = clock.now().nanoseconds();
        if !enters
            && !asks_for_turn(
                cost,
                now.saturating_sub(self.asked_at.load(Ordering::SeqCst)),
            )
        {
            self.owed.store(cost, Ordering::SeqCst);
            return;
        }
        let enters = if enters { Some(&self.at_hand) } else { None };
        self.turns
            .wait_for_turn(rt, self.export, cost, enters, &clock);
        self.owed.store(0, Ordering::SeqCst);
        self.asked_at
            .store(clock.now().nanoseconds(), Ordering::SeqCst);
    }

    /// So many units more were handed in, behind a request whose turn had come.
    pub fn owe(&self, cost: u32) {
        if cost > 0 {
            let owed = self.owed.load(Ordering::SeqCst);
            self.owed.store(owed.saturating_add(cost), Ordering::SeqCst);
        }
    }

    /// What was handed in waits for the export's limit until a moment: others don't wait for it until then.
    pub fn note_limit<R: Wait>(&self, rt: &R, until: Moment, now: Moment) {
        if !self.is_alone() {
            self.turns.limit(rt, self.export, until, now);
        }
    }

    /// Notes how long the next request is, whether more has come behind it, and how many are under way. Tells for how many more holds
    /// the session counts as one that mostly has several.
    fn note_at_hand(&self, size: RequestSize, behind: bool, under_way: u64) -> u32 {
        let keeps_up = self.keeps_up.load(Ordering::SeqCst);
        let before = self.backlog.load(Ordering::SeqCst);
        let backlog = backlog_after(before, has_more(behind, under_way, keeps_up));
        if backlog != before {
            self.backlog.store(backlog, Ordering::SeqCst);
        }
        set(&self.writes_long, size == RequestSize::LongWrite);
        backlog
    }

    /// After a hold: a session that mostly has one request at a time counts as one that has nothing at hand.
    pub fn end_turn<R: Wait + time::Clock>(&self, rt: &R) {
        if !self.has_several() {
            self.leave(rt, false);
        }
    }

    /// The reader is about to wait for its client, behind whole requests.
    pub fn wait_for_client<R: Wait + time::Clock>(
        &self,
        rt: &R,
        peer: &TcpStream,
        traffic: &Traffic,
    ) {
        if self.is_at_hand() && !has_input(peer) {
            self.wait_for_pieces(rt, traffic);
        }
    }

    /// The same where it is known that nothing has come. What is under way counts while the client keeps up with its replies.
    pub fn wait_for_pieces<R: Wait + time::Clock>(&self, rt: &R, traffic: &Traffic) {
        if !self.is_at_hand() {
            return;
        }
        if traffic.under_way() > 0 && self.keeps_up.load(Ordering::SeqCst) {
            set(&self.reader_waits, true);
            // The writer may have sent the last reply before it could see that.
            if traffic.under_way() > 0 {
                return;
            }
        }
        self.leave(
            rt,
            self.has_several() && self.writes_long.load(Ordering::SeqCst),
        );
    }

    /// What has come of the rest of a request, where the session counts as one that has something at hand. Where nothing has, it doesn't
    /// count until the next request, but for a moment. None where it doesn't count, nothing has come, or the connection failed.
    pub fn read_within<R: Wait + time::Clock>(
        &self,
        rt: &R,
        peer: &TcpStream,
        buf: &mut [u8],
    ) -> Option<usize>
        ensures { IfSome result (λ n. n ≤ length buf.new) }
    {
        if !self.is_at_hand() {
            return None;
        }
        let came = read_now(peer, buf);
        if came.is_none() {
            self.leave(rt, true);
        }
        came
    }

    /// Whether it is looked if more has come behind a request of this size.
    pub fn looks_behind(&self, size: RequestSize) -> bool {
        looks_behind(size, self.backlog.load(Ordering::SeqCst))
    }

    /// Whether no other export asked lately, so that nobody waits in the order of turns.
    pub fn is_alone(&self) -> bool {
        self.turns.is_alone(self.export)
    }

    /// Whether it counts as a session that mostly has several requests.
    pub fn has_several(&self) -> bool {
        self.backlog.load(Ordering::SeqCst) > 0
    }

    /// The client keeps up with what is written to it, or doesn't.
    pub fn note_pace(&self, keeps_up: bool) {
        set(&self.keeps_up, keeps_up);
    }

    /// Something has come from the client.
    pub fn end_wait(&self) {
        set(&self.reader_waits, false);
    }

    /// All replies are out.
    pub fn note_idle<R: Wait + time::Clock>(&self, rt: &R) {
        if self.reader_waits.load(Ordering::SeqCst) {
            self.leave(rt, false);
        }
    }

    /// The session has nothing at hand.
    pub fn leave<R: Wait + time::Clock>(&self, rt: &R, lingers: bool) {
        if self.at_hand.load(Ordering::SeqCst) && self.at_hand.swap(false, Ordering::SeqCst) {
            let now = RunningClock::since(rt, self.start).now();
            self.turns.leave(rt, self.export, now, lingers);
        }
    }

    /// The same, as whoever has the order of turns next finds. It takes no lock.
    pub fn leave_later(&self) {
        if self.at_hand.load(Ordering::SeqCst) && self.at_hand.swap(false, Ordering::SeqCst) {
            self.turns.leave_later(self.export);
        }
    }

    /// Whether it counts as one that has something at hand, for which others may wait.
    fn is_at_hand(&self) -> bool {
        self.at_hand.load(Ordering::SeqCst)
    }
}

/// Sets a flag, where it isn't so already.
fn set(flag: &AtomicBool, value: bool) {
    if flag.load(Ordering::SeqCst) != value {
        flag.store(value, Ordering::SeqCst);
    }
}
