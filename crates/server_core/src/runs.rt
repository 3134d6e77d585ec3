//! A whole run of a server.
ghost use Rattle.std.specs.Prelude.{◌≡◌, IfOk};
ghost use Rattle.core_laws.specs.Statements.{HasUnrolledTags};
ghost use Rattle.server_core.specs.Served.{setup_for};
ghost use Rattle.server_core.specs.Run.{IsAnswered, IsAlone, CountsItsOwn, WaitsForLimits, ReservedFirst, KeepsToRates, KeepsToWeights, KeepsToWeightsBetween};

use crate::server::Server;
use core_laws::{
    choice_count, limit_tags_unrolled, projection, queue_refusal, reservations_first, shares,
    weight_waits_for_its_limit,
};
use eligibility::Eligibility;
use export_store::Image;
use nbd_base::NoMemory;
use nbd_commands::Config;
use server_table::{Answer, Event};
use std::alloc::Allocator;

/// Makes a server and gives each event's answer, in order.
///
/// Want of memory means that the server or the list couldn't be made; an event that found no memory has that answer in
/// its place.
pub fn run<I: Image, E: Eligibility<Alloc = I::Alloc>>(
    alloc: I::Alloc,
    config: &Config<I::Alloc>,
    events: Vec<Event<I::Alloc>, I::Alloc>,
) -> Result<Vec<Answer<I::Alloc>, I::Alloc>, NoMemory>
    ensures answers { IfOk result (λ answers.
        IsAnswered (setup_for config.now) events.items answers.items) }
    ensures alone { IfOk result (λ answers.
        IsAlone (setup_for config.now) events.items answers.items) }
    ensures queue { IfOk result (λ answers.
        CountsItsOwn (setup_for config.now) events.items answers.items) }
    ensures weight { IfOk result (λ answers.
        WaitsForLimits (setup_for config.now) events.items answers.items) }
    ensures reserved { IfOk result (λ answers.
        ReservedFirst (setup_for config.now) events.items answers.items) }
    ensures tags { IfOk result (λ answers.
        HasUnrolledTags (setup_for config.now) events.items answers.items) }
    ensures counts { IfOk result (λ answers.
        KeepsToRates (setup_for config.now) events.items answers.items) }
    ensures shares { IfOk result (λ answers.
        KeepsToWeights (setup_for config.now) events.items answers.items) }
    ensures between { IfOk result (λ answers.
        KeepsToWeightsBetween (setup_for config.now) events.items answers.items) }
{
    let answers = answer_each::<I, E>(alloc, config, events)?;
    // What the definition promises of every run, it promises of this one.
    projection::<I::Alloc>();
    queue_refusal::<I::Alloc>();
    weight_waits_for_its_limit::<I::Alloc>();
    reservations_first::<I::Alloc>();
    limit_tags_unrolled::<I::Alloc>();
    choice_count::<I::Alloc>();
    shares::<I::Alloc>();
    Ok(answers)
}

/// The answers of a new server to the events.
fn answer_each<I: Image, E: Eligibility<Alloc = I::Alloc>>(
    alloc: I::Alloc,
    config: &Config<I::Alloc>,
    events: Vec<Event<I::Alloc>, I::Alloc>,
) -> Result<Vec<Answer<I::Alloc>, I::Alloc>, NoMemory>
    ensures { IfOk result (λ told. IsAnswered (setup_for config.now) events.items told.items) }
{
    let mut server: Server<I, E> = Server::new(alloc, config)?;
    let mut told = Vec::new(alloc);
    for event in events {
        let answer = server.event(event);
        told.push(answer)?;
    }
    Ok(told)
}
