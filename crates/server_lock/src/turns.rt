//! The server with its book, the passes, and the turns: all that may change either stands in this module.
ghost use Rattle.std.specs.Prelude.{◌≡◌, ◌+◌, ◌≤◌, ◌<◌, IfOk, IfErr, IfSome, IfNone, List, [], vec_len};
ghost use Rattle.std.specs.List.{All, sum_by};
ghost use Rattle.std.specs.Vec.{vec_capacity};
ghost use Rattle.server_table.specs.declared.event.Event.TheVariants as event;
ghost use Rattle.server_table.specs.declared.event.Answer.TheVariants as answer;
ghost use Rattle.server_core.specs.Counted.{counted_steps, IsSound};
ghost use Rattle.server_core.specs.Made.{Makes};
ghost use Rattle.server_core.specs.Served.{Holds, seats_chosen, answer_of_attach, answer_of_arrive, answer_of_dispatch, answer_of_perform, answer_of_take, answer_of_leave, answer_of_gone, answer_of_retune};
ghost use Rattle.server_lock.specs.Traces.{rise_of_trace};
ghost use Rattle.server_lock.specs.Tally.{answered};
ghost use Rattle.server_lock.specs.Scores.{noted, scored, opened, unused, holding, without, chosen_by};

use crate::tally::Tally;
use crate::trace::{
    AnswerTrace, EventTrace, Trace, trace_of_arrive, trace_of_attach, trace_of_dispatch,
    trace_of_gone, trace_of_leave, trace_of_perform, trace_of_retune, trace_of_take,
};
use eligibility::Eligibility;
use export_cell::Outdated;
use export_store::Image;
use lone_export::Arrived;
use nbd_base::NoMemory;
use nbd_commands::Rates;
use nbd_wire::{Request, RequestHead};
use reply_box::Taken;
use server_core::{
    Chosen, NotArrived, NotAttached, NotRetuned, Server, SessionId, SessionRefusal, Ticket,
};
use std::alloc::Allocator;
use std::marker::Model;
use std::sync::ledger::{Blank, Book, Ledger, Share};
use tag_clock::Moment;

/// A server with its book, whose total is what the server counts.
///
/// `L` names the ledger: only the passes of this book fit.
#[derive(Drop)]
pub struct Booked<L: Ledger, I: Image, E: Eligibility<Alloc = I::Alloc>> {
    server: Server<I, E>,
    book: Book<L>,
    // Has no part of the ledger until those of the passes come back.
    rest: Share<L>,
    passes: u64,
    tally: Tally<I::Alloc>,
}

impl<L: Ledger, I: Image, E: Eligibility<Alloc = I::Alloc>> Model for Booked<L, I, E> {
    ghost use Rattle.std.specs.Prelude.{◌≡◌};
    ghost use Rattle.server_core.specs.Served.{Served};
    ghost use Rattle.server_core.specs.Counted.{counted_steps};

    ghost Value = { Served };

    ghost view = { λ b. b.server };

    ghost invariant = { λ b. (b.book.total ≡ counted_steps b.server) × (b.rest.parts ≡ 0)
        × (b.passes ≡ L.parts) };
}

/// One actor's part of the book. It can't be copied, nor made but by `Shared::new`.
#[derive(Drop)]
pub struct Pass<L: Ledger> {
    share: Share<L>,
    turns: u64,
    last: Option<Trace>,
    held: u64,
    choice: Option<Ticket>,
}

impl<L: Ledger> Model for Pass<L> {
    ghost use Rattle.std.specs.Prelude.{◌≡◌, ◌<◌, is_some, true};
    ghost use Rattle.server_lock.specs.Scores.{Score};

    ghost Value = { Score };

    ghost view = { λ p.
        record {
          turns = p.turns;
          share = p.share.amount;
          last = p.last;
          held = p.held;
          choice = p.choice;
        } };

    ghost invariant = { λ p. (p.share.parts ≡ 1) × (is_some p.choice ≡ true → 0 < p.held) };
}

impl<L: Ledger> Pass<L> {
    /// How many turns it has made. It stops at its greatest value.
    pub fn turns(&self) -> u64
        ensures { result ≡ self.now.turns }
    {
        self.turns
    }

    /// Its latest turn, none before the first.
    pub fn last(&self) -> Option<Trace>
        ensures { result ≡ self.now.last }
    {
        self.last
    }

    /// How many of its choices were not performed as its latest: a choice adds one, and a perform of the latest choice takes one away.
    /// So where it chose two requests, a perform of the first leaves it at 2. It stops at its greatest value.
    pub fn held(&self) -> u64
        ensures { result ≡ self.now.held }
    {
        self.held
    }

    fn of(share: Share<L>) -> Pass<L>
        requires { share.parts ≡ 1 }
        ensures { result ≡ unused share.amount }
    {
        Pass {
            share,
            turns: 0,
            last: None,
            held: 0,
            choice: None,
        }
    }

    /// A turn was made, which the server counted where its answer is that of a counted step.
    fn note(&mut self, book: &mut Book<L>, event: EventTrace, answer: AnswerTrace)
        ensures total { book.new.total ≡ book.old.total + rise_of_trace answer }
        ensures score { self.new
            ≡ scored self.old (rise_of_trace answer) (record { event = event; answer = answer }) }
    {
        book.add(&mut self.share, u64::from(answer.is_counted()));
        if self.turns < u64::MAX {
            self.turns += 1;
        }
        self.last = Some(Trace { event, answer });
    }

    /// Holds the ticket of a choice.
    fn hold(&mut self, ticket: Ticket)
        ensures { self.new ≡ holding self.old ticket }
    {
        if self.held < u64::MAX {
            self.held += 1;
        }
        self.choice = Some(ticket);
    }

    /// Holds a ticket no more, where it is that of the latest choice.
    fn let_go(&mut self, ticket: Ticket)
        ensures { self.new ≡ without self.old ticket }
    {
        if let Some(choice) = self.choice {
            if choice == ticket {
                self.held -= 1;
                self.choice = None;
            }
        }
    }
}

/// Counts so many steps in a share, in pieces of 64 bits.
fn add_steps<L: Ledger>(book: &mut Book<L>, share: &mut Share<L>, steps: u128)
    requires { 0 < share.old.parts }
    ensures total { book.new.total ≡ book.old.total + steps }
    ensures amount { share.new.amount ≡ share.old.amount + steps }
    ensures parts { share.new.parts ≡ share.old.parts }
{
    let mut left = steps;
    while left > u128::from(u64::MAX) {
        book.add(share, u64::MAX);
        left -= u128::from(u64::MAX);
    }
    book.add(share, left as u64);
}

/// A pass for each part of a ledger: one for the first share, and the others with nothing counted.
fn cut<L: Ledger, A: Allocator>(
    passes: &mut Vec<Pass<L>, A>,
    first: Share<L>,
    others: &mut Share<L>,
    n: u64,
)
    requires none { passes.old.items ≡ [] }
    requires room { n ≤ vec_capacity passes.old }
    requires first { first.parts ≡ 1 }
    requires others { others.old.parts + 1 ≡ n }
    requires amount { others.old.amount ≡ 0 }
    ensures count { vec_len passes.new ≡ n }
    ensures passes { passes.new.items ≡ opened first.amount n }
{
    passes.push_reserved(Pass::of(first));
    for i in 1..n {
        passes.push_reserved(Pass::of(others.split_off(1, 0)));
    }
}

/// Puts the shares of all these passes together.
fn gather<L: Ledger, A: Allocator>(all: &mut Share<L>, passes: Vec<Pass<L>, A>)
    ensures parts { all.new.parts ≡ all.old.parts + vec_len passes }
    ensures amount { all.new.amount ≡ all.old.amount + sum_by (λ p. p.share) passes.items }
{
    for pass in passes {
        let Pass {
            share,
            turns: _,
            last: _,
            held: _,
            choice: _,
        } = pass;
        all.merge(share);
    }
}

impl<L: Ledger, I: Image, E: Eligibility<Alloc = I::Alloc>> Booked<L, I, E> {
    /// The server.
    pub fn server(&self) -> &Server<I, E>
        ensures { result.now ≡ self.now }
    {
        &self.server
    }

    /// Exchanges the pages that writes to an export have put others in place of for empty lists (`Server::sweep`).
    pub fn sweep(&mut self, export: u32, outdated: &mut Outdated<I::Alloc>)
        ensures { self.new ≡ self.old }
    {
        self.server.sweep(export, outdated);
    }

    /// Makes some of the steps that are queued for an export's base (`Server::catch_up`).
    pub fn catch_up(&mut self, export: u32, most: usize)
        ensures { self.new ≡ self.old }
    {
        self.server.catch_up(export, most);
    }

    /// What was counted beside the server.
    pub fn tally(&self) -> &Tally<I::Alloc> {
        &self.tally
    }

    /// Counts in this from now on.
    pub fn set_tally(&mut self, tally: Tally<I::Alloc>)
        ensures { self.new ≡ self.old }
    {
        self.tally = tally;
    }

    /// A hold of the server ends now, which took so many nanoseconds.
    pub fn note_hold(&mut self, now: Moment, length: u64)
        ensures { self.new ≡ self.old }
    {
        self.tally.note_hold(now, length);
    }

    /// How many passes there are of its book.
    pub fn passes(&self) -> u64
        ensures { result ≡ L.parts }
    {
        self.passes
    }

    /// The book of a new ledger, and as many passes as it has parts. The first has the steps counted so far.
    pub(crate) fn open(
        alloc: I::Alloc,
        server: Server<I, E>,
        blank: Blank,
        n: u64,
    ) -> Result<(Booked<L, I, E>, Vec<Pass<L>, I::Alloc>), (NoMemory, Server<I, E>, Blank)>
        requires some { 1 ≤ n }
        requires name { blank.name ≡ L.name }
        requires parts { blank.parts ≡ L.parts }
        requires passes { n ≡ L.parts }
        ensures server { IfOk result (λ r. r.0 ≡ server) }
        ensures count { IfOk result (λ r. vec_len r.1 ≡ n) }
        ensures passes { IfOk result (λ r. r.1.items ≡ opened (counted_steps server) n) }
        ensures refused { IfErr result (λ e. (e.1 ≡ server) × (e.2 ≡ blank)) }
    {
        let mut passes = Vec::new(alloc);
        if passes.reserve(n as usize).is_err() {
            return Err((NoMemory, server, blank));
        }
        let (mut book, mut all) = blank.open::<L>();
        let rest = all.empty();
        let mut first = all.split_off(1, 0);
        add_steps(&mut book, &mut first, server.steps());
        cut(&mut passes, first, &mut all, n);
        let booked = Booked {
            server,
            book,
            rest,
            passes: n,
            tally: Tally::new(alloc),
        };
        Ok((booked, passes))
    }

    /// Tells what is true of every server.
    pub fn kept(&self)
        ensures { IsSound self.now }
    {
        self.server.kept()
    }
}

/// Opens a session of an export.
pub fn turn_attach<L: Ledger, I: Image, E: Eligibility<Alloc = I::Alloc>>(
    booked: &mut Booked<L, I, E>,
    pass: &mut Pass<L>,
    export: u32,
) -> Result<SessionId, NotAttached>
    ensures makes { Makes {A = I.Alloc} booked.old (event.Attach export) booked.new
        (answer_of_attach result) }
    ensures export { IfOk result (λ session. session.export ≡ export) }
    ensures pass { pass.new
        ≡ noted {A = I.Alloc} pass.old (event.Attach export) (answer_of_attach result) }
{
    let answer = booked.server.attach(export);
    let told = trace_of_attach::<I::Alloc>(&answer);
    pass.note(&mut booked.book, EventTrace::Attach { export }, told);
    answer
}

/// A request of a session arrives at a moment. One that is refused is handed back.
pub fn turn_arrive<L: Ledger, I: Image, E: Eligibility<Alloc = I::Alloc>>(
    booked: &mut Booked<L, I, E>,
    pass: &mut Pass<L>,
    session: SessionId,
    moment: Moment,
    request: Request<I::Alloc>,
) -> Result<Arrived, NotArrived<I::Alloc>>
    ensures makes { Makes {A = I.Alloc} booked.old (event.Arrive session.export session.number
        moment request) booked.new (answer_of_arrive result) }
    ensures back { IfErr result (λ e. e.request ≡ request) }
    ensures pass { pass.new ≡ noted {A = I.Alloc} pass.old
        (event.Arrive session.export session.number moment request) (answer_of_arrive result) }
{
    let SessionId { export, number } = session;
    let head = request.head();
    let answer = booked.server.arrive(session, moment, request);
    let told = trace_of_arrive(&answer);
    let event = EventTrace::Arrive {
        export,
        session: number,
        moment,
        head,
    };
    note_arrived(&mut booked.tally, export, moment, head, &answer);
    pass.note(&mut booked.book, event, told);
    answer
}

/// Counts what came of an arrival.
fn note_arrived<A: Allocator + Copy>(
    tally: &mut Tally<A>,
    export: u32,
    moment: Moment,
    head: RequestHead,
    answer: &Result<Arrived, NotArrived<A>>,
)
    ensures { tally.new ≡ answered tally.old export moment head answer.now }
{
    match answer {
        Ok(Arrived::Accepted { number, .. }) => tally.note_arrival(export, *number, moment, head),
        Ok(Arrived::Answered(_)) => tally.note_error(export),
        Err(_) => {}
    }
}

/// Chooses the request that is served next, where one may be. The pass holds its ticket.
pub fn turn_dispatch<L: Ledger, I: Image, E: Eligibility<Alloc = I::Alloc>>(
    booked: &mut Booked<L, I, E>,
    pass: &mut Pass<L>,
    moment: Moment,
) -> Option<Chosen>
    ensures makes { Makes {A = I.Alloc} booked.old (event.Dispatch moment) booked.new
        (answer_of_dispatch result) }
    ensures ticket { IfSome result (λ chosen. Holds booked.new chosen.ticket) }
    ensures seats { booked.new.seats ≡ seats_chosen result booked.old.seats }
    ensures pass { pass.new ≡ chosen_by
        (noted {A = I.Alloc} pass.old (event.Dispatch moment) (answer_of_dispatch result)) result }
{
    let answer = booked.server.dispatch(moment);
    let told = trace_of_dispatch::<I::Alloc>(&answer);
    let event = EventTrace::Dispatch { moment };
    pass.note(&mut booked.book, event, told);
    if let Some(chosen) = &answer {
        let ticket = chosen.ticket;
        booked
            .tally
            .note_choice(ticket.export(), ticket.number(), moment, chosen.phase);
        pass.hold(ticket);
    }
    answer
}

/// The request in service is done, and its reply goes to its session. The answer tells whether memory was there for it;
/// None where the ticket's slot doesn't hold its number any more. Where the ticket is that of the pass's latest choice,
/// the pass holds it no more, whatever the answer is.
pub fn turn_perform<L: Ledger, I: Image, E: Eligibility<Alloc = I::Alloc>>(
    booked: &mut Booked<L, I, E>,
    pass: &mut Pass<L>,
    ticket: Ticket,
) -> Option<bool>
    ensures some { IfSome result (λ memory. Holds booked.old ticket
        × Makes {A = I.Alloc} booked.old (event.Perform ticket.export ticket.number) booked.new
        (answer.Performed memory)) }
    ensures none { IfNone result ((Holds booked.old ticket → ⊥) × (booked.new ≡ booked.old)) }
    ensures pass { pass.new ≡ without (noted {A = I.Alloc} pass.old
        (event.Perform ticket.export ticket.number) (answer_of_perform result)) ticket }
{
    let answer = booked.server.perform(ticket);
    let told = trace_of_perform::<I::Alloc>(answer);
    let event = EventTrace::Perform {
        export: ticket.export(),
        number: ticket.number(),
    };
    if let Some(memory) = answer {
        booked.tally.note_performed(ticket.export(), memory);
    }
    pass.note(&mut booked.book, event, told);
    pass.let_go(ticket);
    answer
}

/// The oldest reply of a session that isn't gone is taken.
pub fn turn_take<L: Ledger, I: Image, E: Eligibility<Alloc = I::Alloc>>(
    booked: &mut Booked<L, I, E>,
    pass: &mut Pass<L>,
    session: SessionId,
) -> Result<Taken<I::Alloc>, SessionRefusal>
    ensures makes { Makes {A = I.Alloc} booked.old (event.Take session.export session.number)
        booked.new (answer_of_take result) }
    ensures pass { pass.new ≡ noted {A = I.Alloc} pass.old
        (event.Take session.export session.number) (answer_of_take result) }
{
    let SessionId { export, number } = session;
    let answer = booked.server.take_reply(session);
    let told = trace_of_take(&answer);
    let event = EventTrace::Take {
        export,
        session: number,
    };
    pass.note(&mut booked.book, event, told);
    answer
}

/// Nothing more arrives on a session that is open.
pub fn turn_leave<L: Ledger, I: Image, E: Eligibility<Alloc = I::Alloc>>(
    booked: &mut Booked<L, I, E>,
    pass: &mut Pass<L>,
    session: SessionId,
) -> Result<(), SessionRefusal>
    ensures makes { Makes {A = I.Alloc} booked.old (event.Leave session.export session.number)
        booked.new (answer_of_leave result) }
    ensures pass { pass.new ≡ noted {A = I.Alloc} pass.old
        (event.Leave session.export session.number) (answer_of_leave result) }
{
    let SessionId { export, number } = session;
    let answer = booked.server.leave(session);
    let told = trace_of_leave::<I::Alloc>(&answer);
    let event = EventTrace::Leave {
        export,
        session: number,
    };
    pass.note(&mut booked.book, event, told);
    answer
}

/// A session that isn't gone is dropped with its replies; its requests are still served.
pub fn turn_gone<L: Ledger, I: Image, E: Eligibility<Alloc = I::Alloc>>(
    booked: &mut Booked<L, I, E>,
    pass: &mut Pass<L>,
    session: SessionId,
) -> Result<(), SessionRefusal>
    ensures makes { Makes {A = I.Alloc} booked.old (event.Gone session.export session.number)
        booked.new (answer_of_gone result) }
    ensures pass { pass.new ≡ noted {A = I.Alloc} pass.old
        (event.Gone session.export session.number) (answer_of_gone result) }
{
    let SessionId { export, number } = session;
    let answer = booked.server.gone(session);
    let told = trace_of_gone::<I::Alloc>(&answer);
    let event = EventTrace::Gone {
        export,
        session: number,
    };
    pass.note(&mut booked.book, event, told);
    answer
}

/// The rates of an export are others from now on.
pub fn turn_retune<L: Ledger, I: Image, E: Eligibility<Alloc = I::Alloc>>(
    booked: &mut Booked<L, I, E>,
    pass: &mut Pass<L>,
    export: u32,
    rates: Rates,
) -> Result<(), NotRetuned>
    ensures makes { Makes {A = I.Alloc} booked.old (event.Retune export rates) booked.new
        (answer_of_retune result) }
    ensures pass { pass.new
        ≡ noted {A = I.Alloc} pass.old (event.Retune export rates) (answer_of_retune result) }
{
    let answer = booked.server.retune(export, rates);
    let told = trace_of_retune::<I::Alloc>(&answer);
    pass.note(&mut booked.book, EventTrace::Retune { export, rates }, told);
    answer
}

/// The counted steps, which are the sum of the shares of all passes.
///
/// Whoever has a list of passes of the book has all of them where it is as long as `Booked::passes` says.
pub fn settle<L: Ledger, I: Image, E: Eligibility<Alloc = I::Alloc>, A: Allocator>(
    booked: Booked<L, I, E>,
    passes: Vec<Pass<L>, A>,
) -> u128
    requires { vec_len passes ≡ L.parts }
    ensures steps { result ≡ counted_steps booked }
    ensures sum { result ≡ sum_by (λ p. p.share) passes.items }
    ensures above { All (λ p. p.share ≤ result) passes.items }
{
    let Booked {
        server,
        mut book,
        mut rest,
        passes: _,
        tally: _,
    } = booked;
    book.audit(&mut rest);
    gather(&mut rest, passes);
    book.audit(&mut rest);
    server.steps()
}
