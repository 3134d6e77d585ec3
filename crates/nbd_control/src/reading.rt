//! Reading the command that a line spells.

ghost use Rattle.std.specs.Prelude.{◌≡◌, ◌≤◌, true, length, IfOk, IfErr};
ghost use Rattle.std.specs.List.{prefix_len};
ghost use Rattle.toml_parser.specs.Strings.{starts_string, quoted};
ghost use Rattle.nbd_text.specs.Fields.{fields_in, is_space, texts_of};
ghost use Rattle.nbd_control.specs.Commands.{allowed_rates, asked_by, command_of, drop_command, ends_field, front_name, front_word, spelled_number, quoted_name, rates_refusal, spelled_rates, retune_command, spelled_session, sessions_command, spelled_command, trimmed, worded_command, IfRefused};

use crate::command::{Command, Rates};
use crate::name::Name;
use crate::refusal::{CommandError, Refused};
use crate::verbs::{Verb, verb_of};
use nbd_commands::Refusal;
use nbd_text::{fields_of, number};
use std::alloc::{Allocator, Global};
use std::str;
use toml_parser::{ParseError, quoted, starts_string};

/// The most bytes of a line, its line feed not counted.
pub const MAX_LINE: usize = 4096;

/// The greatest reservation, limit and weight.
const MAX_RATE: u64 = 1_000_000;

/// Reads the command that a line spells, which is handed over without its line feed.
///
/// The text of a quoted name lies in `heap` for the time of the call, all else in `alloc`.
pub fn read_command<A: Allocator + Copy>(
    heap: Global,
    alloc: A,
    line: &[u8],
) -> Result<Command<A>, CommandError>
    ensures read { IfOk result (λ command. command_of line.now ≡ Ok command) }
    ensures refused { IfErr result (IfRefused (λ cause. command_of {A = A} line.now ≡ Err cause)) }
{
    if line.len() > MAX_LINE {
        return Err(CommandError::Refused(Refused::LineTooLong));
    }
    match str::from_utf8(line) {
        Ok(text) => read_text(heap, alloc, text),
        Err(_) => Err(CommandError::Refused(Refused::NotUtf8)),
    }
}

/// Reads a text: its first word, and what stands behind that.
fn read_text<A: Allocator + Copy>(
    heap: Global,
    alloc: A,
    text: &str,
) -> Result<Command<A>, CommandError>
    ensures read { IfOk result (λ command. spelled_command text.now ≡ Ok command) }
    ensures refused { IfErr result
        (IfRefused (λ cause. spelled_command {A = A} text.now ≡ Err cause)) }
{
    let (verb, rest) = front_word(trimmed(text));
    match verb_of(verb.as_bytes()) {
        Some(Verb::Stats) => worded(alloc, rest, b"prometheus", Command::Stats, Command::Metrics),
        Some(Verb::Retune) => retune(heap, alloc, trimmed(rest)),
        Some(Verb::Sessions) => sessions(alloc, rest),
        Some(Verb::Drop) => drop_session(heap, alloc, trimmed(rest)),
        Some(Verb::Stop) => worded(alloc, rest, b"now", Command::Stop, Command::StopNow),
        None => Err(CommandError::Refused(Refused::UnknownCommand)),
    }
}

/// The text behind the spaces in front.
fn trimmed(text: &str) -> &str
    ensures { result.now ≡ trimmed text.now }
{
    text.split_at(spaces_in_front(text.as_bytes())).1
}

/// How many spaces stand in front.
fn spaces_in_front(bytes: &[u8]) -> usize
    ensures count { result ≡ prefix_len is_space bytes.now }
    ensures within { result ≤ length bytes.now }
{
    bytes.iter().take_while(|byte| **byte == b' ').count()
}

/// The word in front, and what stands behind the space that ends it.
fn front_word(text: &str) -> (&str, &str)
    ensures { (result.0.now, result.1.now) ≡ front_word text.now }
{
    match text.split_once(' ') {
        Some((word, rest)) => (word, rest),
        None => (text, ""),
    }
}

/// The one command where nothing stands behind its verb, the other where this word does.
fn worded<A: Allocator + Copy>(
    alloc: A,
    text: &str,
    word: &[u8],
    bare: Command<A>,
    worded: Command<A>,
) -> Result<Command<A>, CommandError>
    ensures read { IfOk result (λ command.
        worded_command word.now bare worded (fields_in text.now) ≡ Ok command) }
    ensures refused { IfErr result (IfRefused (λ cause.
        worded_command word.now bare worded (fields_in text.now) ≡ Err cause)) }
{
    let fields = fields_of(alloc, text.as_bytes())?;
    match fields.as_slice() {
        [] => Ok(bare),
        [field] if *field == word => Ok(worded),
        [_] => Err(CommandError::Refused(Refused::UnknownCommand)),
        _ => Err(CommandError::Refused(Refused::FieldCount)),
    }
}

/// With this text behind the verb `sessions`.
fn sessions<A: Allocator + Copy>(alloc: A, text: &str) -> Result<Command<A>, CommandError>
    ensures read { IfOk result (λ command. sessions_command (fields_in text.now) ≡ Ok command) }
    ensures refused { IfErr result (IfRefused (λ cause.
        sessions_command {A = A} (fields_in text.now) ≡ Err cause)) }
{
    let fields = fields_of(alloc, text.as_bytes())?;
    match fields.as_slice() {
        [] => Ok(Command::Sessions),
        _ => Err(CommandError::Refused(Refused::FieldCount)),
    }
}

/// Of a name and three rates.
#[tactic(auto, unfolding(crate::specs::Commands::retune_command))]
fn retune<A: Allocator + Copy>(
    heap: Global,
    alloc: A,
    text: &str,
) -> Result<Command<A>, CommandError>
    ensures read { IfOk result (λ command. retune_command text.now ≡ Ok command) }
    ensures refused { IfErr result
        (IfRefused (λ cause. retune_command {A = A} text.now ≡ Err cause)) }
{
    match front_name(heap, alloc, text) {
        Ok((export, rest)) => {
            let rates = rates(alloc, rest)?;
            Ok(Command::Retune { export, rates })
        }
        Err(error) => Err(error),
    }
}

/// Of a name and the number of a session.
#[tactic(auto, unfolding(crate::specs::Commands::drop_command))]
fn drop_session<A: Allocator + Copy>(
    heap: Global,
    alloc: A,
    text: &str,
) -> Result<Command<A>, CommandError>
    ensures read { IfOk result (λ command. drop_command text.now ≡ Ok command) }
    ensures refused { IfErr result
        (IfRefused (λ cause. drop_command {A = A} text.now ≡ Err cause)) }
{
    match front_name(heap, alloc, text) {
        Ok((export, rest)) => {
            let session = session(alloc, rest)?;
            Ok(Command::DropSession { export, session })
        }
        Err(error) => Err(error),
    }
}

/// The name in front, and what stands behind it.
#[tactic(auto, unfolding(crate::specs::Commands::front_name))]
fn front_name<A: Allocator + Copy>(
    heap: Global,
    alloc: A,
    text: &str,
) -> Result<(Name<A>, &str), CommandError>
    ensures read { IfOk result (λ named. front_name text.now ≡ Ok (named.0, named.1.now)) }
    ensures refused { IfErr result (IfRefused (λ cause. front_name text.now ≡ Err cause)) }
{
    if starts_string(text) {
        return quoted_name(heap, alloc, text);
    }
    if text.is_empty() {
        return Err(CommandError::Refused(Refused::FieldCount));
    }
    let (word, rest) = front_word(text);
    match Name::new(alloc, word.as_bytes()) {
        Ok(name) => Ok((name, rest)),
        Err(_) => Err(CommandError::NoMemory),
    }
}

/// The name in quotes, and what stands behind it.
fn quoted_name<A: Allocator + Copy>(
    heap: Global,
    alloc: A,
    text: &str,
) -> Result<(Name<A>, &str), CommandError>
    requires { starts_string text.now ≡ true }
    ensures read { IfOk result (λ named.
        quoted_name (quoted text.now) ≡ Ok (named.0, named.1.now)) }
    ensures refused { IfErr result (IfRefused (λ cause.
        quoted_name (quoted text.now) ≡ Err cause)) }
{
    match quoted(heap, text) {
        Ok((name, rest)) => {
            if !ends_field(rest) {
                return Err(CommandError::Refused(Refused::BadQuotes));
            }
            match Name::new(alloc, name.as_bytes()) {
                Ok(name) => Ok((name, rest)),
                Err(_) => Err(CommandError::NoMemory),
            }
        }
        Err(ParseError::OutOfMemory) => Err(CommandError::NoMemory),
        Err(_) => Err(CommandError::Refused(Refused::BadQuotes)),
    }
}

/// Whether nothing stands here, or a space first.
fn ends_field(text: &str) -> bool
    ensures { result ≡ ends_field text.now }
{
    match text.as_bytes() {
        [] => true,
        [byte, ..] => *byte == b' ',
    }
}

/// A reservation, a limit and a weight.
fn rates<A: Allocator + Copy>(alloc: A, text: &str) -> Result<Rates, CommandError>
    ensures read { IfOk result (λ rates. spelled_rates (fields_in text.now) ≡ Ok rates) }
    ensures refused { IfErr result (IfRefused (λ cause.
        spelled_rates (fields_in text.now) ≡ Err cause)) }
{
    let fields = fields_of(alloc, text.as_bytes())?;
    match spelled_rates(&fields) {
        Ok(rates) => Ok(rates),
        Err(cause) => Err(CommandError::Refused(cause)),
    }
}

fn spelled_rates(fields: &[&[u8]]) -> Result<Rates, Refused>
    ensures { result ≡ spelled_rates (texts_of fields.now) }
{
    match fields {
        [reservation, limit, weight] => allowed_rates(Rates {
            reservation: spelled_number(reservation)?,
            limit: spelled_number(limit)?,
            weight: spelled_number(weight)?,
        }),
        _ => Err(Refused::FieldCount),
    }
}

/// The number of a session.
fn session<A: Allocator + Copy>(alloc: A, text: &str) -> Result<u64, CommandError>
    ensures read { IfOk result (λ session. spelled_session (fields_in text.now) ≡ Ok session) }
    ensures refused { IfErr result (IfRefused (λ cause.
        spelled_session (fields_in text.now) ≡ Err cause)) }
{
    let fields = fields_of(alloc, text.as_bytes())?;
    match spelled_session(&fields) {
        Ok(session) => Ok(session),
        Err(cause) => Err(CommandError::Refused(cause)),
    }
}

fn spelled_session(fields: &[&[u8]]) -> Result<u64, Refused>
    ensures { result ≡ spelled_session (texts_of fields.now) }
{
    match fields {
        [digits] => spelled_number(digits),
        _ => Err(Refused::FieldCount),
    }
}

/// A number in decimal digits.
fn spelled_number(digits: &[u8]) -> Result<u64, Refused>
    ensures { result ≡ spelled_number digits.now }
{
    match number(digits) {
        Some(value) => Ok(value),
        None => Err(Refused::NotANumber),
    }
}

/// Rates that are in their ranges.
fn allowed_rates(rates: Rates) -> Result<Rates, Refused>
    ensures { result ≡ allowed_rates rates }
{
    match rates_refusal(rates) {
        None => Ok(rates),
        Some(refusal) => Err(Refused::Rates(refusal)),
    }
}

/// Why rates are refused, by the first case that fits.
fn rates_refusal(rates: Rates) -> Option<Refusal>
    ensures { result ≡ rates_refusal rates }
{
    if rates.reservation > MAX_RATE {
        Some(Refusal::BadReservation)
    } else if rates.limit > MAX_RATE {
        Some(Refusal::BadLimit)
    } else if rates.weight < 1 || rates.weight > MAX_RATE {
        Some(Refusal::BadWeight)
    } else if rates.limit > 0 && rates.limit < rates.reservation {
        Some(Refusal::ReservationAboveLimit)
    } else {
        None
    }
}
