//! The lines of a script: an event as a text, and its answer.

use super::*;
use nbd_commands::Rates;
use nbd_wire::Reply;
use tag_clock::Phase;

fn at(nanoseconds: u64) -> Moment {
    Moment::new(nanoseconds).unwrap_or(Moment::zero())
}

// A WRITE of four bytes.
fn write_at(alloc: Global, offset: u64, cookie: u64) -> Option<Request<Global>> {
    let Ok(payload) = Payload::copied(alloc, offset, [0xde, 0xad, 0xbe, 0xef].as_slice()) else {
        return None;
    };
    let head = RequestHead {
        flags: 0,
        kind: WRITE,
        cookie,
        offset,
        length: 4,
    };
    Some(Request::new(head, payload))
}

// A request of four bytes: a READ, a WRITE, or a WRITE past the end.
fn request_of(alloc: Global, name: &str, cookie: u64) -> Option<Request<Global>> {
    match name {
        "read" => Some(read_of(cookie)),
        "write" => write_at(alloc, 0, cookie),
        "beyond" => write_at(alloc, 4093, cookie),
        _ => None,
    }
}

// The numbers of an event, 0 where there are fewer.
fn numbers_of(words: &str) -> Option<[u64; 4]> {
    let mut numbers = [0u64; 4];
    for (number, word) in numbers.iter_mut().zip(words.split(' ')) {
        let Ok(told) = word.parse() else {
            return None;
        };
        *number = told;
    }
    Some(numbers)
}

fn retune_of(export: u32, reservation: u64, limit: u64, weight: u64) -> Option<Event<Global>> {
    match Rates::new(reservation, limit, weight) {
        Ok(rates) => Some(Event::Retune { export, rates }),
        Err(_) => None,
    }
}

// The event of a line: an arrival by its export, session, moment and cookie; a retune by its export, reservation, limit and
// weight.
pub fn event_of(alloc: Global, line: &str) -> Option<Event<Global>> {
    let Some((name, words)) = line.split_once(' ') else {
        return None;
    };
    let Some(numbers) = numbers_of(words) else {
        return None;
    };
    let [first, session, moment, cookie] = numbers;
    let number = session;
    let export = u32::try_from(first).unwrap_or(u32::MAX);
    match name {
        "attach" => Some(Event::Attach { export }),
        "dispatch" => Some(Event::Dispatch { moment: at(first) }),
        "perform" => Some(Event::Perform { export, number }),
        "take" => Some(Event::Take { export, session }),
        "leave" => Some(Event::Leave { export, session }),
        "gone" => Some(Event::Gone { export, session }),
        "retune" => retune_of(export, session, moment, cookie),
        _ => match request_of(alloc, name, cookie) {
            Some(request) => Some(Event::Arrive {
                export,
                session,
                moment: at(moment),
                request,
            }),
            None => None,
        },
    }
}

// Adds a reply's numbers and its data.
fn is_reply_told(text: &mut String<Global>, alloc: Global, reply: &Reply<Global>) -> bool {
    let mut content = Vec::new(alloc);
    if reply.content().append(&mut content).is_err() {
        return false;
    }
    let (cookie, error) = (reply.cookie(), reply.error());
    write!(text, "reply {cookie} {error} {content:?}").is_ok()
}

// Adds an answer.
fn is_told(text: &mut String<Global>, alloc: Global, answer: &Answer<Global>) -> bool {
    match answer {
        Answer::Session(number) => write!(text, "session {number}").is_ok(),
        Answer::Accepted { number, limit_tag } => {
            write!(text, "accepted {number} {limit_tag}").is_ok()
        }
        Answer::Answered(error) => write!(text, "answered {error}").is_ok(),
        Answer::Picked {
            export,
            number,
            phase: Phase::Reservation,
        } => write!(text, "reservation {export} {number}").is_ok(),
        Answer::Picked {
            export,
            number,
            phase: Phase::Weight,
        } => write!(text, "weight {export} {number}").is_ok(),
        Answer::Reply(reply) => is_reply_told(text, alloc, reply),
        other => text.push_str(word_of(other)).is_ok(),
    }
}

pub fn text_of(alloc: Global, answer: &Answer<Global>) -> Option<String<Global>> {
    let mut text = String::new(alloc);
    if is_told(&mut text, alloc, answer) {
        Some(text)
    } else {
        None
    }
}

fn word_of(answer: &Answer<Global>) -> &'static str {
    match answer {
        Answer::Nothing => "none",
        Answer::Performed { memory: true } => "performed",
        Answer::Empty => "empty",
        Answer::End => "end",
        Answer::Left => "left",
        Answer::Dropped => "gone",
        Answer::NoExport => "no export",
        Answer::NotOpen => "not open",
        Answer::Full => "full",
        Answer::Hold => "hold",
        Answer::NotOut => "not out",
        Answer::Retuned => "retuned",
        Answer::Waiting => "waiting",
        _ => "another answer",
    }
}

// Adds the number and the tags of a request, behind a comma where others stand before it.
fn is_added(text: &mut String<Global>, number: u64, tags: &Tags) -> bool {
    let between = if text.is_empty() { "" } else { ", " };
    match tags.r {
        Some(r) => write!(text, "{between}{number} {r} {} {}", tags.l, tags.p).is_ok(),
        None => write!(text, "{between}{number} - {} {}", tags.l, tags.p).is_ok(),
    }
}

pub fn tags_of(alloc: Global, told: &[(u64, Tags)]) -> Option<String<Global>> {
    let mut text = String::new(alloc);
    for (number, tags) in told {
        if !is_added(&mut text, *number, tags) {
            return None;
        }
    }
    Some(text)
}
