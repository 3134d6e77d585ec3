//! The server.
mod due;

ghost use Rattle.std.specs.Prelude.{◌≡◌, ◌↔◌, ◌≤◌, ◌<◌, ◌^◌, not, filter, map, length, find, is_some, IsTrue, slice_set, IfOk, IfErr, IfSome, IfNone};
ghost use Rattle.eligibility.specs.Choice.{IsActive, IsSlotInRange};
ghost use Rattle.server_table.specs.Steps.{is_out_row};
ghost use Rattle.server_table.specs.declared.event.Answer.TheVariants as answer;
ghost use Rattle.nbd_commands.specs.Terms.{terms_of};
ghost use Rattle.nbd_commands.specs.Exports.{IsWithin};
ghost use Rattle.std.specs.List.{All, sum_by};
ghost use Rattle.server_core.specs.Kept.{AreShort};
ghost use Rattle.server_core.specs.Members.{IsSeated, opening_standing};
ghost use Rattle.server_core.specs.Served.{AllMembers};
ghost use Rattle.server_core.specs.Journals.{ComesOfJournal};
ghost use Rattle.server_core.specs.Here.{here as told_here, attached as told_attached, retuned as told_retuned, fault_here};
ghost use Rattle.server_table.specs.declared.event.Event.TheVariants as event;

use crate::member::Member;
use crate::refusal::{ArriveRefusal, NoTags, NotArrived, NotAttached, NotRetuned, SessionRefusal};
use crate::session::SessionId;
use crate::ticket::{Chosen, Ticket};
use crate::way::{make_way, put_first};
use eligibility::Eligibility;
use export_cell::{ArriveFault, ExportCell, NotRetuned as NotRetunedAlone, Outdated};
use export_store::Image;
use lone_export::{
    Admission, ArriveRefusal as ArriveRefusalAlone, Arrived, AttachRefusal,
    NotAttached as NotAttachedAlone, RetuneRefusal,
};
use nbd_base::NoMemory;
use nbd_commands::{Config, ExportConfig, Rates};
use nbd_wire::Request;
use reply_box::{NotOpen, Taken};
use std::marker::Model;
use tag_clock::{Moment, Tags};

/// Many exports, which share the service of one server after mClock.
#[derive(Drop)]
pub struct Server<I: Image, E: Eligibility<Alloc = I::Alloc>> {
    members: Vec<Member<I>, I::Alloc>,
    eligible: E,
    // The greatest moment that was handed to a dispatch.
    latest: Moment,
    // How many requests are out.
    served: usize,
    inflight: usize,
}

impl<I: Image, E: Eligibility<Alloc = I::Alloc>> Model for Server<I, E> {
    ghost use Rattle.server_core.specs.Served.{Served, served_of, IsServed};

    ghost Value = { Served };

    ghost view = { λ s. served_of s.members.items s.latest s.inflight };

    ghost invariant = { λ s.
        IsServed s.members.items (E.contents s.eligible)
        (E.asked s.eligible) s.latest s.inflight s.served };
}

/// The exports of a configuration, each in its opening state.
fn open_members<I: Image>(
    alloc: I::Alloc,
    exports: &[ExportConfig<I::Alloc>],
    inflight: usize,
) -> Result<Vec<Member<I>, I::Alloc>, NoMemory>
    requires { IsWithin 4096 inflight }
    ensures members { IfOk result (λ made.
        made.items ≡ map (λ export. opening_standing inflight (terms_of export)) exports.now) }
    ensures short { IfOk result (λ made. All (λ member. AreShort member.part.rates) made.items) }
{
    let mut members = Vec::with_capacity(alloc, exports.len())?;
    for export in exports {
        let member = Member::new(alloc, export, inflight)?;
        members.push(member)?;
    }
    Ok(members)
}

/// How many requests wait, of all these exports.
#[tactic(auto, using(std::proofs::lemmas::List::Sums::sum_by_more))]
fn waiting_of<I: Image>(members: &[Member<I>]) -> usize
    requires { sum_by (λ member. length member.part.waiting) members.now < 2 ^ 63 }
    ensures { result ≡ sum_by (λ member. length member.part.waiting) members.now }
{
    let mut total = 0;
    for member in members {
        total += member.waiting();
    }
    total
}

/// How many steps were counted, of all these exports.
fn steps_of<I: Image>(members: &[Member<I>]) -> u128
    requires { length members.now ≤ 64 }
    ensures { result ≡ sum_by (λ member. member.part.count) members.now }
{
    let mut total = 0;
    for member in members {
        total += u128::from(member.steps());
    }
    total
}

/// Asks each of these exports what is true of it.
fn kept_each<I: Image>(members: &[Member<I>])
    ensures journal { AllMembers ComesOfJournal members.now }
    ensures seated { AllMembers IsSeated members.now }
{
    for member in members {
        member.kept();
    }
}

/// A refusal of an export alone, as one of the server.
fn here<T>(said: Result<T, NotOpen>) -> Result<T, SessionRefusal>
    ensures { result ≡ told_here said }
{
    match said {
        Ok(value) => Ok(value),
        Err(_) => Err(SessionRefusal::NotOpen),
    }
}

/// What an attach to this export was answered, as the server answers it.
fn attached(export: u32, said: Result<u64, NotAttachedAlone>) -> Result<SessionId, NotAttached>
    ensures { result ≡ told_attached export said }
{
    match said {
        Ok(number) => Ok(SessionId { export, number }),
        Err(NotAttachedAlone::Refused(AttachRefusal::Worn)) => Err(NotAttached::Worn),
        Err(NotAttachedAlone::Refused(AttachRefusal::Full)) => Err(NotAttached::Full),
        Err(NotAttachedAlone::NoMemory) => Err(NotAttached::NoMemory),
    }
}

/// What a retune was answered, as the server answers it.
fn retuned(said: Result<(), NotRetunedAlone>) -> Result<(), NotRetuned>
    ensures { result ≡ told_retuned said }
{
    match said {
        Ok(()) => Ok(()),
        Err(NotRetunedAlone::Refused(RetuneRefusal::Worn)) => Err(NotRetuned::Worn),
        Err(NotRetunedAlone::Refused(RetuneRefusal::Waiting)) => Err(NotRetuned::Waiting),
        Err(NotRetunedAlone::NoMemory) => Err(NotRetuned::NoMemory),
    }
}

/// Why a request doesn't arrive, as the server tells it.
fn arrive_refusal(fault: ArriveFault) -> ArriveRefusal
    ensures { result ≡ fault_here fault }
{
    match fault {
        ArriveFault::Refused(ArriveRefusalAlone::NotOpen) => ArriveRefusal::NotOpen,
        ArriveFault::Refused(ArriveRefusalAlone::Worn) => ArriveRefusal::Worn,
        ArriveFault::Refused(ArriveRefusalAlone::Hold) => ArriveRefusal::Hold,
        ArriveFault::NoMemory => ArriveRefusal::NoMemory,
    }
}

impl<I: Image, E: Eligibility<Alloc = I::Alloc>> Server<I, E> {
    ghost use Rattle.server_core.specs.Served.{Holds, answer_of_attach, answer_of_retune, answer_of_leave, answer_of_gone, answer_of_take, answer_of_arrive, answer_of_dispatch, seats_chosen, opening_served, setup_for, waiting_tags};
    ghost use Rattle.server_core.specs.Counted.{IsSound};
    ghost use Rattle.server_core.specs.Journals.{IsCellOf};
    ghost use Rattle.server_core.specs.Made.{Makes};

    /// A server of the exports of a configuration, each in its opening state.
    pub fn new(alloc: I::Alloc, config: &Config<I::Alloc>) -> Result<Self, NoMemory>
        ensures { IfOk result (λ server. server ≡ opening_served (setup_for config.now)) }
    {
        let exports = config.exports();
        let inflight = config.inflight();
        let members = open_members(alloc, exports, inflight)?;
        let eligible = E::new(alloc, exports.len() as u32)?;
        Ok(Server {
            members,
            eligible,
            latest: Moment::zero(),
            served: 0,
            inflight,
        })
    }

    /// How many requests wait, of all exports together. It takes no memory.
    pub fn waiting(&self) -> usize
        ensures { result ≡ length (filter (λ row. not row.out) self.now.table.rows) }
    {
        waiting_of(&self.members)
    }

    /// How many steps changed something, of all exports together. It takes no memory.
    pub fn steps(&self) -> u128
        ensures { result ≡ sum_by (λ side. side.count) self.now.table.sides }
    {
        steps_of(&self.members)
    }

    /// Changes nothing: its contract says what is true of every server.
    pub fn kept(&self)
        ensures { IsSound self.now }
    {
        kept_each(&self.members);
    }

    /// The tags of an export's requests that wait, each with its number, in the order of their numbers.
    pub fn tags(&self, alloc: I::Alloc, export: u32) -> Result<Vec<(u64, Tags), I::Alloc>, NoTags>
        ensures told { IfOk result (λ told. (export < length self.now.setup.exports)
            × (told.items ≡ waiting_tags export self.now.table)) }
        ensures refused { IfErr result (λ e. e ≡ NoTags.NoExport
            ↔ (length self.now.setup.exports ≤ export)) }
    {
        if export as usize >= self.members.len() {
            return Err(NoTags::NoExport);
        }
        match self.members[export as usize].tags(alloc) {
            Ok(told) => Ok(told),
            Err(NoMemory) => Err(NoTags::NoMemory),
        }
    }

    /// An export as it is, as it was at the start of its kept history, and the log of the steps between. It takes no memory.
    pub fn journal(&self, export: u32) -> Option<&ExportCell<I>>
        ensures cell { IfSome result (λ cell. IsCellOf self.now export cell.now) }
        ensures there { IsTrue (is_some result) ↔ (export < length self.now.setup.exports) }
    {
        if export as usize >= self.members.len() {
            return None;
        }
        Some(self.members[export as usize].cell())
    }

    /// Exchanges the pages that writes to an export have put others in place of, since the last call, for empty lists with room for
    /// the next. Whoever lets them go gives their memory back. Where there is no such export all stays.
    pub fn sweep(&mut self, export: u32, outdated: &mut Outdated<I::Alloc>)
        ensures { self.new ≡ self.old }
    {
        if export as usize >= self.members.len() {
            return;
        }
        self.members[export as usize].sweep(outdated);
    }

    /// Makes some of the steps that are queued for an export's base, so much work at most (`ExportCell::catch_up`). Where there is no such
    /// export nothing is done.
    pub fn catch_up(&mut self, export: u32, most: usize)
        ensures { self.new ≡ self.old }
    {
        if export as usize >= self.members.len() {
            return;
        }
        self.members[export as usize].catch_up(most);
    }

    /// Nothing more arrives on a session that is open. It takes no memory.
    pub fn leave(&mut self, session: SessionId) -> Result<(), SessionRefusal>
        ensures { Makes {A = I.Alloc} self.old (event.Leave session.export session.number) self.new
            (answer_of_leave result) }
    {
        if session.export as usize >= self.members.len() {
            return Err(SessionRefusal::NoExport);
        }
        let member = &mut self.members[session.export as usize];
        here(member.leave(session.number))
    }

    /// A session that isn't gone is dropped with its replies; its requests are still served. It takes no memory.
    pub fn gone(&mut self, session: SessionId) -> Result<(), SessionRefusal>
        ensures { Makes {A = I.Alloc} self.old (event.Gone session.export session.number) self.new
            (answer_of_gone result) }
    {
        if session.export as usize >= self.members.len() {
            return Err(SessionRefusal::NoExport);
        }
        let member = &mut self.members[session.export as usize];
        here(member.gone(session.number))
    }

    /// The oldest reply of a session that isn't gone is taken. It takes no memory.
    pub fn take_reply(&mut self, session: SessionId) -> Result<Taken<I::Alloc>, SessionRefusal>
        ensures { Makes {A = I.Alloc} self.old (event.Take session.export session.number) self.new
            (answer_of_take result) }
    {
        if session.export as usize >= self.members.len() {
            return Err(SessionRefusal::NoExport);
        }
        let member = &mut self.members[session.export as usize];
        here(member.take(session.number))
    }

    /// Opens a session of an export. The oldest steps of its log go into its base, as many as have to; without memory some
    /// of these.
    pub fn attach(&mut self, export: u32) -> Result<SessionId, NotAttached>
        ensures makes { Makes {A = I.Alloc} self.old (event.Attach export) self.new
            (answer_of_attach result) }
        ensures export { IfOk result (λ session. session.export ≡ export) }
    {
        if export as usize >= self.members.len() {
            return Err(NotAttached::NoExport);
        }
        let member = &mut self.members[export as usize];
        attached(export, member.attach())
    }

    /// The rates of an export are others from now on, for the requests that arrive later. The last L and P tags stay, and so
    /// does the last R tag where the new rates have a reservation. The oldest steps of its log go into its base, as many as
    /// have to; without memory some of these.
    pub fn retune(&mut self, export: u32, rates: Rates) -> Result<(), NotRetuned>
        ensures { Makes {A = I.Alloc} self.old (event.Retune export rates) self.new
            (answer_of_retune result) }
    {
        if export as usize >= self.members.len() {
            return Err(NotRetuned::NoExport);
        }
        let tuned = &mut self.members[export as usize];
        retuned(tuned.retune(rates))
    }

    /// The request that is in service under this number, where one is. It takes no memory.
    pub fn find(&self, export: u32, number: u64) -> Option<Ticket>
        ensures ticket { IfSome result (λ ticket. (ticket.export ≡ export)
            × (ticket.number ≡ number) × Holds self.now ticket) }
        ensures out { is_some result
            ≡ is_some (find (is_out_row export number) self.now.table.rows) }
    {
        if export as usize >= self.members.len() {
            return None;
        }
        let Some(slot) = self.members[export as usize].slot_of(number) else {
            return None;
        };
        Some(Ticket {
            export,
            number,
            slot,
        })
    }

    /// The request in service is done, and its reply goes to its session. The answer tells whether memory was there for
    /// it; None where the ticket's slot doesn't hold its number any more.
    pub fn perform(&mut self, ticket: Ticket) -> Option<bool>
        ensures some { IfSome result (λ memory. Holds self.old ticket
            × Makes {A = I.Alloc} self.old (event.Perform ticket.export ticket.number) self.new
            (answer.Performed memory)) }
        ensures none { IfNone result ((Holds self.old ticket → ⊥) × (self.new ≡ self.old)) }
    {
        if ticket.export as usize >= self.members.len() {
            return None;
        }
        let member = &mut self.members[ticket.export as usize];
        let Some(memory) = member.perform(ticket.slot, ticket.number) else {
            return None;
        };
        self.served -= 1;
        Some(memory)
    }

    /// A request of a session arrives at a moment, which needn't be later than the moments of others. One that is refused,
    /// or for which no memory is there, is handed back.
    ///
    /// All memory that it and its service want of the log is obtained first. The oldest steps of the log go into the
    /// export's base, as many as have to; without memory some of these.
    pub fn arrive(
        &mut self,
        session: SessionId,
        moment: Moment,
        request: Request<I::Alloc>,
    ) -> Result<Arrived, NotArrived<I::Alloc>>
        ensures makes { Makes {A = I.Alloc} self.old (event.Arrive session.export session.number
            moment request) self.new (answer_of_arrive result) }
        ensures back { IfErr result (λ e. e.request ≡ request) }
    {
        if session.export as usize >= self.members.len() {
            let refusal = ArriveRefusal::NoExport;
            return Err(NotArrived { refusal, request });
        }
        let member = &mut self.members[session.export as usize];
        let place = match member.reserve(session.number, &request) {
            Ok(place) => place,
            Err(fault) => {
                let refusal = arrive_refusal(fault);
                return Err(NotArrived { refusal, request });
            }
        };
        let Admission::Waits = place.admission else {
            return Ok(member.arrive(session.number, moment, request, place));
        };
        let waiting = member.waiting();
        let was = member.first();
        // Asked for what its contract tells: a moment is below 2^62.
        let _ = moment.nanoseconds();
        make_way(&mut self.members, &mut self.eligible, waiting, moment);
        let member = &mut self.members[session.export as usize];
        let arrived = member.arrive(session.number, moment, request, place);
        let first = member.first();
        put_first(&mut self.eligible, session.export, was, first);
        Ok(arrived)
    }

    /// Chooses the request that is served next: none where as many are in service as may be, or nothing is due (mClock,
    /// request scheduling). It takes no memory.
    pub fn dispatch(&mut self, moment: Moment) -> Option<Chosen>
        ensures makes { Makes {A = I.Alloc} self.old (event.Dispatch moment) self.new
            (answer_of_dispatch result) }
        ensures ticket { IfSome result (λ chosen. Holds self.new chosen.ticket) }
        ensures seats { self.new.seats ≡ seats_chosen result self.old.seats }
    {
        self.latest = self.latest.later(moment);
        if self.served >= self.inflight {
            return None;
        }
        let Some((export, phase)) = self.eligible.choose(self.latest) else {
            return None;
        };
        let member = &mut self.members[export as usize];
        let Some(picked) = member.pick(phase) else {
            return None;
        };
        let first = member.first();
        self.served += 1;
        renew(&mut self.eligible, export, first);
        Some(Chosen {
            ticket: Ticket {
                export,
                number: picked.number,
                slot: picked.slot,
            },
            phase,
        })
    }
}

/// An active export has another first request, or none.
fn renew<E: Eligibility>(eligible: &mut E, export: u32, first: Option<Tags>)
    requires active { IsActive (E.contents eligible.old) export }
    requires in_range { IsSlotInRange first }
    ensures asked { E.asked eligible.new ≤ E.asked eligible.old }
    ensures contents { E.contents eligible.new ≡ slice_set (E.contents eligible.old) export first }
{
    match first {
        Some(tags) => eligible.rekey(export, tags),
        None => eligible.leave(export),
    }
}
