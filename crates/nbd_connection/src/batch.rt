//! What a reader hands in under one hold.

use crate::heap_room::HeapRoom;
use export_cell::Outdated;
use lone_export::Arrived;
use nbd_base::NoMemory;
use nbd_link::rules::joined_size;
use nbd_link::{Admitted, Feed, Outlet, ReadAhead, SessionLink};
use nbd_policy::{
    Habit, OUTDATED_PAGES, QUEUED_WORK, RequestSize, SPARES_OF_A_SESSION, Waiting, brought_by,
    cost_of, ends_hold, limited_until, performs_itself, size_of, waiting_until,
};
use nbd_service::{Asked, Disks, Service, Wakeups, prefetch};
use nbd_stream::{Counted, Frame, FrameReader};
use nbd_wire::protocol::WRITE;
use nbd_wire::{Request, RequestHead};
use payload::Spares;
use server_lock::Pass;
use session_turns::{Arrival, Stop, Turn, hand_in, offer_held, read_ready};
use std::alloc::Global;
use std::sync::ledger::Ledger;
use std::sync::{MutexGuard, Wait};
use std::time;
use tag_clock::{Clock, Moment};

/// Where a reader gets its requests, and what it keeps from hold to hold.
#[derive(Drop)]
pub struct RequestSource<'a, 'b, R: Wait + time::Clock> {
    pub frames: FrameReader<Feed<'a, 'b, R>, Global>,
    pub wakeups: Wakeups,
    /// What a hold took out of the images, to be let go behind it. Empty otherwise.
    pub outdated: Outdated<Global>,
    pub room: HeapRoom,
    /// What is kept of it for the next WRITEs, while the frames have none.
    pub spares: Spares<Global>,
    /// Whether the reader answers itself what it hands in next: one READ of long data.
    pub answers: bool,
    /// Whether what it handed in last waits for its export's limit.
    pub limited: bool,
    /// How the session asks.
    pub habit: Habit,
}

/// What a reader offers first under a hold.
#[derive(Drop)]
pub enum Offer {
    Read(Frame<Global>),
    /// A request that was handed back before, since its session's window was full.
    Again(Request<Global>),
}

impl Offer {
    /// The head of the request. None where the client sends no more.
    pub fn head(&self) -> Option<RequestHead> {
        match self {
            Offer::Read(Frame::Whole(request)) | Offer::Again(request) => Some(request.head()),
            Offer::Read(Frame::Ended(_)) => None,
        }
    }

    /// Whether it is a WRITE.
    pub fn writes(&self) -> bool {
        match self.head() {
            Some(head) => head.kind == WRITE,
            None => false,
        }
    }
}

/// What a reader's hold came to.
#[derive(Drop)]
pub struct BatchOutcome {
    /// The last of its turns.
    pub turn: Turn<Global>,
    /// The size of all requests that it handed in. Nothing where they differ.
    pub size: RequestSize,
    /// Why no more replies were taken after it. None where the writer takes them.
    pub stop: Option<Stop>,
    /// Whether a READ of long data is left to the writer.
    pub reads_long: bool,
    /// Whether a WRITE carries long data.
    pub writes_long: bool,
    /// What waits to be chosen.
    pub waiting: Waiting,
    /// How many bytes its WRITEs carry.
    pub brought: u64,
    /// How many requests were handed in.
    pub arrived: u64,
    /// What those behind the first cost in the order of turns, in units.
    pub cost: u32,
    /// Until when the last of them waits for its limit.
    pub limited: Option<Moment>,
    /// What prefetching for these requests came to.
    pub prefetched: u64,
}

/// What a turn handed in.
#[derive(Clone, Copy, Debug, PartialEq, Eq, Drop)]
struct Admission {
    size: RequestSize,
    /// The request, where one was handed in.
    arrival: Option<Arrival>,
}

impl Admission {
    /// What this turn handed in.
    fn of(turn: &Turn<Global>) -> Admission {
        match turn {
            Turn::Going(arrival) => Admission {
                size: size_of(arrival.head),
                arrival: Some(*arrival),
            },
            _ => Admission {
                size: RequestSize::Nothing,
                arrival: None,
            },
        }
    }

    /// The request's number, where it wasn't answered at once.
    fn number(&self) -> Option<u64> {
        match &self.arrival {
            Some(arrival) => arrival.number(),
            None => None,
        }
    }

    /// How many bytes of data it carries.
    fn brought(&self) -> u64 {
        match &self.arrival {
            Some(arrival) => brought_by(arrival.head),
            None => 0,
        }
    }

    /// What it costs in the order of turns, in units.
    fn cost(&self) -> u32 {
        match &self.arrival {
            Some(arrival) => cost_of(arrival.head),
            None => 0,
        }
    }

    /// Until when it waits for its export's limit, where it wasn't served and that is later than now.
    fn limited(&self, served: bool, now: Moment) -> Option<Moment> {
        match &self.arrival {
            Some(arrival) if !served => match arrival.answer {
                Arrived::Accepted {
                    number: _,
                    limit_tag,
                } => limited_until(limit_tag, now),
                Arrived::Answered(_) => None,
            },
            _ => None,
        }
    }

    /// Whether it is a READ of long data that is left to the writer, where it was served or not.
    fn is_left(&self, served: bool) -> bool {
        self.size == RequestSize::LongRead && !served
    }

    /// The bytes that a hold handed in, with these, which were performed under it or not.
    fn added_to(&self, admitted: Admitted, performed: bool) -> Admitted {
        match (&self.arrival, self.number()) {
            (Some(arrival), Some(_)) => admitted.with(arrival.head, performed),
            _ => admitted,
        }
    }
}

/// What waits to be chosen.
pub fn waiting_in<L: Ledger>(disks: &Disks<L>) -> Waiting {
    if disks.server().waiting() > 0 {
        waiting_until(&disks.server().next_due())
    } else {
        Waiting::Nothing
    }
}

impl<'a, 'b, R: Wait + time::Clock> RequestSource<'a, 'b, R> {
    pub fn new(
        alloc: Global,
        reader: Counted<Feed<'a, 'b, R>>,
        wakeups: Wakeups,
    ) -> Result<RequestSource<'a, 'b, R>, NoMemory> {
        let mut frames = FrameReader::new(alloc, reader);
        let mut spares = Spares::with_places(alloc, SPARES_OF_A_SESSION)?;
        frames.exchange(&mut spares);
        Ok(RequestSource {
            frames,
            wakeups,
            outdated: Outdated::with_room(alloc, OUTDATED_PAGES)?,
            room: HeapRoom::new(),
            spares,
            answers: false,
            limited: false,
            habit: Habit::UNKNOWN,
        })
    }

    /// Hands in what is offered and the requests that are ready behind it, so many at most. It ends sooner where requests of two sizes
    /// meet, behind a long range of zeros, once it performed another session's request, or where many bytes are under way.
    pub fn hand_in_batch<L: Ledger, C: Clock>(
        &mut self,
        disks: &mut Disks<L>,
        service: &Service<L>,
        link: &SessionLink<'_>,
        pass: &mut Pass<L>,
        outlet: &mut Option<MutexGuard<'_, Outlet<'_>>>,
        offer: Offer,
        most: usize,
        clock: &C,
    ) -> BatchOutcome {
        let prefetched = prefetch(disks, link.session.export, self.frames.ready(), most);
        let turn = match offer {
            Offer::Read(frame) => hand_in(disks, pass, link.session, frame, clock),
            Offer::Again(request) => offer_held(disks, pass, link.session, request, clock),
        };
        let admission = Admission::of(&turn);
        let mut admitted = Admitted::NOTHING;
        let served = self.follow(disks, service, link, pass, outlet, admission, clock);
        admitted = admission.added_to(admitted, served);
        let mut batch = BatchOutcome::first(turn, admission, served, prefetched, clock.now());
        for _ in 1..most {
            let full = ends_hold(batch.size) || link.bytes.ends_batch(admitted);
            if full || self.wakeups.served_others() {
                break;
            }
            let Some(turn) = read_ready(disks, pass, link.session, &mut self.frames, clock) else {
                break;
            };
            let admission = Admission::of(&turn);
            let served = self.follow(disks, service, link, pass, outlet, admission, clock);
            admitted = admission.added_to(admitted, served);
            batch.add(turn, admission, served, clock.now());
        }
        // First, so that who finds nothing under way finds no bytes of these.
        link.note_arrived(batch.arrived);
        link.bytes.add(admitted);
        self.end_batch(disks, link, pass, outlet, batch)
    }

    /// What is done at a hold's end: the session's replies are taken, steps go into the base of its export, and what the export's images
    /// don't need any more is taken out.
    fn end_batch<L: Ledger>(
        &mut self,
        disks: &mut Disks<L>,
        link: &SessionLink<'_>,
        pass: &mut Pass<L>,
        outlet: &mut Option<MutexGuard<'_, Outlet<'_>>>,
        mut batch: BatchOutcome,
    ) -> BatchOutcome {
        if let Some(outlet) = outlet {
            batch.stop = Some(outlet.take(disks, pass, link.session));
        }
        batch.waiting = waiting_in(disks);
        disks.catch_up(link.session.export, QUEUED_WORK);
        disks.sweep(link.session.export, &mut self.outdated);
        batch
    }

    /// Lets go what a hold took out of the images, or leaves that to the thread that reads ahead, and keeps the memory of its pages for
    /// WRITEs to come.
    pub fn recycle<L: Ledger>(
        &mut self,
        rt: &R,
        service: &Service<L>,
        ahead: &ReadAhead,
        brought: u64,
    ) {
        self.frames.exchange(&mut self.spares);
        if !ahead.discards.leave(&mut self.outdated, &mut self.spares) {
            self.outdated.recycle(&mut self.spares);
        }
        service.spares.level(rt, &mut self.spares, brought);
        self.frames.exchange(&mut self.spares);
    }

    /// Passes on all spare pages.
    pub fn give_spares<L: Ledger>(&mut self, rt: &R, service: &Service<L>) {
        self.frames.exchange(&mut self.spares);
        service.spares.take_all(rt, &mut self.spares);
    }

    /// What follows a turn under the same hold: it performs the request and takes its reply, where the outlet is at hand. A READ of
    /// long data is left to the writer, but for one that the reader answers. So the steps of a request stand side by side in its
    /// export's log, and those of a READ go into the base without its data. It notes who asked only where the request stays: whoever
    /// performs it later has to know. False where it stays.
    fn follow<L: Ledger, C: Clock>(
        &mut self,
        disks: &mut Disks<L>,
        service: &Service<L>,
        link: &SessionLink<'_>,
        pass: &mut Pass<L>,
        outlet: &mut Option<MutexGuard<'_, Outlet<'_>>>,
        admission: Admission,
        clock: &C,
    ) -> bool {
        let Some(number) = admission.number() else {
            return true;
        };
        let own = Asked {
            session: link.session,
            number,
        };
        let answers = match outlet {
            Some(outlet) => self.answers && outlet.is_wide(),
            None => false,
        };
        let served = (answers || performs_itself(admission.size))
            && self
                .wakeups
                .serve_own(disks, &service.bells, pass, own, clock);
        if !served {
            service.bells.note_asker(link.session, number);
            return false;
        }
        if let Some(outlet) = outlet {
            outlet.take_one(disks, pass, link.session);
        }
        true
    }
}

impl BatchOutcome {
    /// After its first turn.
    fn first(
        turn: Turn<Global>,
        admission: Admission,
        served: bool,
        prefetched: u64,
        now: Moment,
    ) -> BatchOutcome {
        BatchOutcome {
            turn,
            size: admission.size,
            stop: None,
            reads_long: admission.is_left(served),
            writes_long: admission.size == RequestSize::LongWrite,
            waiting: Waiting::Nothing,
            brought: admission.brought(),
            arrived: admission.arrival.is_some() as u64,
            cost: 0,
            limited: admission.limited(served, now),
            prefetched,
        }
    }

    /// One more turn was made.
    fn add(&mut self, turn: Turn<Global>, admission: Admission, served: bool, now: Moment) {
        self.turn = turn;
        self.brought = self.brought.saturating_add(admission.brought());
        self.arrived = self
            .arrived
            .saturating_add(admission.arrival.is_some() as u64);
        self.cost = self.cost.saturating_add(admission.cost());
        let limited = admission.limited(served, now);
        if limited.is_some() {
            self.limited = limited;
        }
        self.writes_long = self.writes_long || admission.size == RequestSize::LongWrite;
        self.reads_long = self.reads_long || admission.is_left(served);
        self.size = joined_size(self.size, admission.size);
    }
}
