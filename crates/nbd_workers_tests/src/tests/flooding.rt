//! Eight threads flood one export while another is used: that one is told what it is told alone.
ghost use Rattle.std.specs.Prelude.{◌≡◌};

use super::*;
use lone_export::Arrived;
use std::marker::Brand;

const FLOODS: u64 = 8;

// Each of the floods sends its 1,000 requests in so many pieces of so many requests.
const PIECES: u64 = 8;

const PIECE: u64 = 125;

// How far the floods and the neighbour have come. All floods begin a piece before each step of the neighbour and one
// behind its last, and none begins its next before that step is made.
#[derive(Drop)]
struct Pace {
    begun: AtomicU64,
    steps: AtomicU64,
    gave_up: AtomicBool,
    // The floods that sent all.
    flooded: AtomicU64,
    // The turns of all passes.
    turns: AtomicU64,
}

impl Pace {
    fn new() -> Pace {
        Pace {
            begun: AtomicU64::new(0),
            steps: AtomicU64::new(0),
            gave_up: AtomicBool::new(false),
            flooded: AtomicU64::new(0),
            turns: AtomicU64::new(0),
        }
    }

    // Waits until a number is this great, for so many turns at most.
    fn wait_for(&self, number: &AtomicU64, least: u64) {
        if !self.gave_up.load(Ordering::SeqCst) && !reaches(number, least) {
            self.gave_up.store(true, Ordering::SeqCst);
        }
    }

    // A step of the neighbour, once all floods have begun a piece more than it has made steps.
    fn step<L: Ledger, R: Wait>(
        &self,
        rt: &R,
        shared: &Tried<L>,
        pass: &mut Pass<L>,
        step: Step,
    ) -> bool {
        let pieces = self.steps.load(Ordering::SeqCst).saturating_add(1);
        self.wait_for(&self.begun, pieces.saturating_mul(FLOODS));
        let told = is_made(rt, shared, pass, step);
        self.steps.fetch_add(1, Ordering::SeqCst);
        told
    }

    // A queue of two: the third request is answered EIO (5), whatever the other export is sent.
    fn are_accepted<L: Ledger, R: Wait>(
        &self,
        rt: &R,
        shared: &Tried<L>,
        pass: &mut Pass<L>,
    ) -> bool {
        self.step(rt, shared, pass, Step::Attach)
            & self.step(rt, shared, pass, Step::Arrive(1, accepted(0)))
            & self.step(rt, shared, pass, Step::Arrive(2, accepted(1)))
            & self.step(rt, shared, pass, Step::Arrive(3, Arrived::Answered(5)))
    }

    // Once one of them was chosen, there is room for one more.
    fn is_room<L: Ledger, R: Wait>(&self, rt: &R, shared: &Tried<L>, pass: &mut Pass<L>) -> bool {
        self.step(rt, shared, pass, Step::Choose)
            & self.step(rt, shared, pass, Step::Arrive(4, accepted(2)))
            & self.step(rt, shared, pass, Step::Take)
    }
}

impl Play for Pace {
    // Sends 1,000 requests to the second export, as it takes them.
    fn works<L: Ledger, R: Wait>(&self, rt: &R, shared: &Tried<L>, mut pass: Pass<L>) -> Pass<L> {
        if let Ok(session) = shared.turn_attach(rt, &mut pass, 1) {
            for piece in 0..PIECES {
                self.wait_for(&self.steps, piece);
                send(rt, shared, &mut pass, session, 1);
                self.begun.fetch_add(1, Ordering::SeqCst);
                send(rt, shared, &mut pass, session, PIECE - 1);
            }
        }
        self.turns.fetch_add(pass.turns(), Ordering::SeqCst);
        self.flooded
            .fetch_add((pass.turns() == 1001) as u64, Ordering::SeqCst);
        pass
    }

    fn asks<L: Ledger, R: Wait>(&self, rt: &R, shared: &Tried<L>, pass: &mut Pass<L>) -> bool {
        let told = self.are_accepted(rt, shared, pass) & self.is_room(rt, shared, pass);
        self.turns.fetch_add(pass.turns(), Ordering::SeqCst);
        told
    }
}

fn two_exports() -> [ExportSettings<'static>; 2] {
    let mut small = ExportSettings::new(b"a", 4096);
    small.depth = 2;
    let mut flooded = ExportSettings::new(b"b", 4096);
    flooded.depth = 1024;
    flooded.window = 1024;
    [small, flooded]
}

fn send<L: Ledger, R: Wait>(
    rt: &R,
    shared: &Tried<L>,
    pass: &mut Pass<L>,
    session: SessionId,
    count: u64,
) {
    for cookie in 0..count {
        arrives(rt, shared, pass, session, read_of(cookie, 4));
    }
}

// What the neighbour does: a request has its cookie, and what it is told.
#[derive(Drop)]
enum Step {
    Attach,
    Arrive(u64, Arrived),
    Choose,
    Take,
}

fn is_made<L: Ledger, R: Wait>(rt: &R, shared: &Tried<L>, pass: &mut Pass<L>, step: Step) -> bool {
    match step {
        Step::Attach => attaches(rt, shared, pass, FIRST),
        Step::Arrive(cookie, told) => is_told(rt, shared, pass, cookie, told),
        Step::Choose => first_chosen(rt, shared, pass) == Some(0),
        Step::Take => is_taken(rt, shared, pass),
    }
}

fn accepted(number: u64) -> Arrived {
    Arrived::Accepted {
        number,
        limit_tag: 0,
    }
}

// Whether a request is told this.
fn is_told<L: Ledger, R: Wait>(
    rt: &R,
    shared: &Tried<L>,
    pass: &mut Pass<L>,
    cookie: u64,
    told: Arrived,
) -> bool {
    let arrived = shared.turn_arrive(rt, pass, FIRST, Moment::zero(), read_of(cookie, 4));
    arrived.ok() == Some(told)
}

// The number of the first export's request that is chosen, once one of it is.
fn first_chosen<L: Ledger, R: Wait>(rt: &R, shared: &Tried<L>, pass: &mut Pass<L>) -> Option<u64> {
    for _ in 0..4000u64 {
        match shared.turn_dispatch(rt, pass, Moment::zero()) {
            Some(chosen) if chosen.ticket.export() == 0 => return Some(chosen.ticket.number()),
            Some(_) => {}
            None => return None,
        }
    }
    None
}

// Whether the reply to the third request, which was refused, is there.
fn is_taken<L: Ledger, R: Wait>(rt: &R, shared: &Tried<L>, pass: &mut Pass<L>) -> bool {
    match shared.turn_take(rt, pass, FIRST) {
        Ok(Taken::Reply(reply)) => (reply.cookie(), reply.error()) == (3, 5),
        _ => false,
    }
}

// Each turn was counted, since none was refused and each dispatch chose something.
#[test]
fn a_flood_of_another_export(rt: HostRuntime) {
    let pace = Pace::new();
    let exports = two_exports();
    let exports = (exports.as_slice(), 4096);
    let ran = used::<_, Brand, _>(&rt, rt.alloc(), exports, Blank::new(9), 9, &pace);
    let turns = pace.turns.load(Ordering::SeqCst);
    assert!(rt;
        !pace.gave_up.load(Ordering::SeqCst),
        "the floods and the neighbour didn't keep pace"
    );
    let flooded = pace.flooded.load(Ordering::SeqCst) == FLOODS;
    assert!(rt; flooded & (ran == Some((true, Some(u128::from(turns))))));
}
