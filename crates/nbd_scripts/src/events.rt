//! The body of a script of `replay`: an event of the server a line, or a question for its tags.

ghost use Rattle.std.specs.Prelude.{◌≡◌, true, false, Ok, [], ◌∷◌, IfOk, IfErr, OnOk};
ghost use Rattle.std.specs.Option.{ok_or};
ghost use Rattle.nbd_scripts.specs.Bodies.{IsBody};
ghost use Rattle.nbd_scripts.specs.Faults.{IsMissed, IsRefused};
ghost use Rattle.nbd_text.specs.Fields.{texts_of};
ghost use Rattle.nbd_scripts.specs.Events.{arrival_of, asked_by, brings_payload, event_of, export_of, head_read, line_asks, moment_of, pair_of, payload_of, rates_in, request_of, retune_of, Takes};

use crate::body::Body;
use crate::fault::LineFault;
use crate::lines::{first_line, is_comment, only};
use crate::numbers::{half_word, moment, number, word};
use crate::replay_line::ReplayLine;
use crate::verbs::{Verb, verb_of};
use hex::FromHexError;
use nbd_commands::Rates;
use nbd_text::fields_of;
use nbd_wire::protocol::WRITE;
use nbd_wire::{MAX_PAYLOAD, Request, RequestHead};
use payload::Payload;
use server_table::Event;
use std::alloc::Allocator;
use tag_clock::Moment;

/// What reading the body of a script gives.
pub enum Lines<A: Allocator> {
    /// What the lines ask for, in order.
    Read(Vec<ReplayLine<A>, A>),
    /// The first refused line, counted from 1 at the script's first.
    Refused(usize, LineFault),
}

/// Reads all lines of a body.
pub fn read_lines<A: Allocator + Copy>(alloc: A, body: Body<'_>) -> Lines<A>
    ensures { IsBody body.entry.above body.entry.text.now result }
{
    let mut lines = Vec::new(alloc);
    let mut rest = body.text;
    let mut above = body.above;
    while !rest.is_empty() {
        let (line, after) = first_line(rest);
        rest = after;
        above += 1;
        if let Err(fault) = take_line(alloc, line, &mut lines) {
            return Lines::Refused(above, fault);
        }
    }
    Lines::Read(lines)
}

/// Takes one line. One without fields, or that begins with `#`, is passed over.
#[tactic(auto, unfolding(crate::specs::Events::line_asks))]
fn take_line<A: Allocator + Copy>(
    alloc: A,
    line: &[u8],
    lines: &mut Vec<ReplayLine<A>, A>,
) -> Result<(), LineFault>
    ensures taken { OnOk result (Takes {A = A} line.now lines.old.items lines.new.items) }
    ensures refused { IfErr result (IsRefused (line_asks {A = A} line.now)) }
{
    if is_comment(line) {
        return Ok(());
    }
    let fields = fields_of(alloc, line)?;
    match fields.as_slice() {
        [] => Ok(()),
        [name, numbers @ ..] => {
            let Some(verb) = verb_of(name) else {
                return Err(LineFault::Form);
            };
            lines.push(asked_by(alloc, verb, numbers)?)?;
            Ok(())
        }
    }
}

/// What a line of this verb asks for, with these fields behind it.
fn asked_by<A: Allocator + Copy>(
    alloc: A,
    verb: Verb,
    fields: &[&[u8]],
) -> Result<ReplayLine<A>, LineFault>
    ensures read { IfOk result (λ line. asked_by verb (texts_of fields.now) ≡ Ok line) }
    ensures refused { IfErr result (IsRefused (asked_by {A = A} verb (texts_of fields.now))) }
{
    if verb == Verb::Tags {
        let export = export_in(fields)?;
        return Ok(ReplayLine::Tags(export));
    }
    let event = event_of(alloc, verb, fields)?;
    Ok(ReplayLine::Event(event))
}

/// The event of this verb, with these numbers.
#[tactic(auto, unfolding(crate::specs::Events::event_of))]
fn event_of<A: Allocator + Copy>(
    alloc: A,
    verb: Verb,
    fields: &[&[u8]],
) -> Result<Event<A>, LineFault>
    ensures read { IfOk result (λ event. event_of verb (texts_of fields.now) ≡ Ok event) }
    ensures refused { IfErr result (IsRefused (event_of {A = A} verb (texts_of fields.now))) }
{
    match verb {
        Verb::Attach => Ok(Event::Attach {
            export: export_in(fields)?,
        }),
        Verb::Arrive => arrival(alloc, fields),
        Verb::Dispatch => Ok(Event::Dispatch {
            moment: moment_in(fields)?,
        }),
        Verb::Perform => {
            let (export, number) = pair(fields)?;
            Ok(Event::Perform { export, number })
        }
        Verb::Take => {
            let (export, session) = pair(fields)?;
            Ok(Event::Take { export, session })
        }
        Verb::Leave => {
            let (export, session) = pair(fields)?;
            Ok(Event::Leave { export, session })
        }
        Verb::Gone => {
            let (export, session) = pair(fields)?;
            Ok(Event::Gone { export, session })
        }
        Verb::Retune => retune(fields),
        Verb::Tags => Err(LineFault::Form),
    }
}

/// Other rates of an export.
fn retune<A: Allocator>(fields: &[&[u8]]) -> Result<Event<A>, LineFault>
    ensures { result ≡ retune_of (texts_of fields.now) }
{
    let (export, reservation, limit, weight) = rates_in(fields)?;
    let rates = Rates::new(reservation, limit, weight)?;
    Ok(Event::Retune { export, rates })
}

/// An export, a reservation, a limit and a weight.
fn rates_in(fields: &[&[u8]]) -> Result<(u32, u64, u64, u64), LineFault>
    ensures { result ≡ ok_or (rates_in (texts_of fields.now)) LineFault.Form }
{
    match fields {
        [export, reservation, limit, weight] => Ok((
            word(export)?,
            number(reservation)?,
            number(limit)?,
            number(weight)?,
        )),
        _ => Err(LineFault::Form),
    }
}

/// The export that the one field names.
fn export_in(fields: &[&[u8]]) -> Result<u32, LineFault>
    ensures { result ≡ ok_or (export_of (texts_of fields.now)) LineFault.Form }
{
    word(only(fields)?)
}

/// The moment that the one field says.
fn moment_in(fields: &[&[u8]]) -> Result<Moment, LineFault>
    ensures { result ≡ ok_or (moment_of (texts_of fields.now)) LineFault.Form }
{
    moment(only(fields)?)
}

/// An export, and the number of a session or a request of it.
fn pair(fields: &[&[u8]]) -> Result<(u32, u64), LineFault>
    ensures { result ≡ ok_or (pair_of (texts_of fields.now)) LineFault.Form }
{
    match fields {
        [export, session] => Ok((word(export)?, number(session)?)),
        _ => Err(LineFault::Form),
    }
}

/// An arrival: its export, session and moment, and its request.
#[tactic(auto, unfolding(crate::specs::Events::arrival_of))]
fn arrival<A: Allocator + Copy>(alloc: A, fields: &[&[u8]]) -> Result<Event<A>, LineFault>
    ensures read { IfOk result (λ event. arrival_of (texts_of fields.now) ≡ Some event) }
    ensures missed { IfErr result (IsMissed (arrival_of {A = A} (texts_of fields.now))) }
{
    match fields {
        [export, session, at, request @ ..] => Ok(Event::Arrive {
            export: word(export)?,
            session: number(session)?,
            moment: moment(at)?,
            request: request_of(alloc, request)?,
        }),
        _ => Err(LineFault::Form),
    }
}

/// A request: its cookie, type, flags, offset and length, and behind them the hex of what it writes, if that is anything.
#[tactic(auto, unfolding(crate::specs::Events::request_of))]
fn request_of<A: Allocator + Copy>(alloc: A, fields: &[&[u8]]) -> Result<Request<A>, LineFault>
    ensures read { IfOk result (λ request. request_of (texts_of fields.now) ≡ Some request) }
    ensures missed { IfErr result (IsMissed (request_of (texts_of fields.now))) }
{
    match fields {
        [cookie, kind, flags, offset, length, payload @ ..] => {
            let head = head_read(cookie, kind, flags, offset, length)?;
            with_payload(alloc, head, payload)
        }
        _ => Err(LineFault::Form),
    }
}

/// The head of a request.
#[tactic(auto, unfolding(crate::specs::Events::head_read))]
fn head_read(
    cookie: &[u8],
    kind: &[u8],
    flags: &[u8],
    offset: &[u8],
    length: &[u8],
) -> Result<RequestHead, LineFault>
    ensures { result
        ≡ ok_or (head_read cookie.now kind.now flags.now offset.now length.now) LineFault.Form }
{
    Ok(RequestHead {
        flags: half_word(flags)?,
        kind: half_word(kind)?,
        cookie: number(cookie)?,
        offset: number(offset)?,
        length: word(length)?,
    })
}

/// A request of this head, with the hex of its payload in the fields behind it.
fn with_payload<A: Allocator + Copy>(
    alloc: A,
    head: RequestHead,
    fields: &[&[u8]],
) -> Result<Request<A>, LineFault>
    ensures read { IfOk result (λ request. (request.head ≡ head)
        × (payload_of head (texts_of fields.now) ≡ Some request.payload)) }
    ensures missed { IfErr result (IsMissed (payload_of head (texts_of fields.now))) }
{
    match fields {
        [] => bare_request(head),
        [digits] => write_request(alloc, head, digits),
        _ => Err(LineFault::Form),
    }
}

/// Whether a request of this head brings a payload.
fn brings_payload(head: RequestHead) -> bool
    ensures { result ≡ brings_payload head }
{
    head.kind == WRITE && head.length != 0
}

/// A request without a payload, if it has none.
fn bare_request<A: Allocator + Copy>(head: RequestHead) -> Result<Request<A>, LineFault>
    ensures whole { IfOk result (λ request. (request ≡ record { head = head; payload = [] })
        × (brings_payload head ≡ false)) }
    ensures refused { IfErr result (λ fault. (fault ≡ LineFault.Form)
        × (brings_payload head ≡ true)) }
{
    if brings_payload(head) {
        return Err(LineFault::Form);
    }
    Ok(Request::new(head, Payload::new()))
}

/// A request that writes the bytes of these digits, if they are as many as it says.
fn write_request<A: Allocator + Copy>(
    alloc: A,
    head: RequestHead,
    digits: &[u8],
) -> Result<Request<A>, LineFault>
    ensures whole { IfOk result (λ request. (request.head ≡ head)
        × (payload_of head (digits.now ∷ []) ≡ Some request.payload)) }
    ensures missed { IfErr result (IsMissed (payload_of head (digits.now ∷ []))) }
{
    if !brings_payload(head) || head.length > MAX_PAYLOAD {
        return Err(LineFault::Form);
    }
    let payload = match hex::decode(alloc, digits) {
        Ok(payload) => payload,
        Err(FromHexError::OutOfMemory) => return Err(LineFault::NoMemory),
        Err(_) => return Err(LineFault::Form),
    };
    if payload.len() != head.length as usize {
        return Err(LineFault::Form);
    }
    let payload = Payload::copied(alloc, head.offset, payload.as_slice())?;
    Ok(Request::new(head, payload))
}
