//! The answers of one line.

ghost use Rattle.std.specs.Prelude.{◌≡◌, ◌++◌, codes, OnOk, OnErr};
ghost use Rattle.nbd_control.specs.Answers.{answer_line, answer_text, cause_text};

use crate::refusal::Refused;
use nbd_base::NoMemory;
use nbd_text::or_no_memory;
use std::alloc::Allocator;
use std::io::Write;

/// What a line that asks for no figures is answered.
#[derive(Clone, Copy, Debug, PartialEq, Eq)]
pub enum Answer {
    /// The session is dropped.
    Gone,
    /// No more connections are taken, and the server ends.
    Stopping,
    /// No export has this name.
    NoExport,
    /// The export has no such session.
    NoSession,
    /// The export has other rates from now on.
    Retuned,
    /// Requests of the export waited all the time, and it keeps its rates.
    Busy,
    /// The export has made as many steps as it ever may, and keeps its rates.
    Worn,
    /// Memory was refused, and nothing was changed.
    NoMemory,
    /// The line spells no command.
    Refused(Refused),
}

/// Puts an answer behind a text. Where memory is refused, the text stays.
pub fn write_answer<A: Allocator + Copy>(
    alloc: A,
    answer: Answer,
    text: &mut Vec<u8, A>,
) -> Result<(), NoMemory>
    ensures ok { OnOk result (text.new.items ≡ text.old.items ++ answer_text answer) }
    ensures err { OnErr result (text.new.items ≡ text.old.items) }
{
    let mut line = Vec::new(alloc);
    put_answer(answer, &mut line)?;
    text.extend_from_slice(&line)?;
    Ok(())
}

/// Puts an answer behind a text: its line, and an empty one.
fn put_answer<A: Allocator>(answer: Answer, text: &mut Vec<u8, A>) -> Result<(), NoMemory>
    ensures { OnOk result (text.new.items ≡ text.old.items ++ answer_text answer) }
{
    put_line(answer, text)?;
    text.extend_from_slice(b"\n\n")?;
    Ok(())
}

fn put_line<A: Allocator>(answer: Answer, text: &mut Vec<u8, A>) -> Result<(), NoMemory>
    ensures { OnOk result (text.new.items ≡ text.old.items ++ answer_line answer) }
{
    match answer {
        Answer::Gone => or_no_memory(text.write_all(b"gone")),
        Answer::Stopping => or_no_memory(text.write_all(b"stopping")),
        Answer::NoExport => or_no_memory(text.write_all(b"refused no export")),
        Answer::NoSession => or_no_memory(text.write_all(b"refused no session")),
        Answer::Retuned => or_no_memory(text.write_all(b"retuned")),
        Answer::Busy => or_no_memory(text.write_all(b"busy")),
        Answer::Worn => or_no_memory(text.write_all(b"refused worn")),
        Answer::NoMemory => or_no_memory(text.write_all(b"refused no memory")),
        Answer::Refused(cause) => put_refusal(cause, text),
    }
}

/// Puts a refusal behind a text.
fn put_refusal<A: Allocator>(cause: Refused, text: &mut Vec<u8, A>) -> Result<(), NoMemory>
    ensures { OnOk result (text.new.items ≡ text.old.items
        ++ (codes "refused " ++ cause_text cause)) }
{
    text.extend_from_slice(b"refused ")?;
    put_cause(cause, text)?;
    Ok(())
}

fn put_cause<A: Allocator>(cause: Refused, text: &mut Vec<u8, A>) -> Result<(), NoMemory>
    ensures { OnOk result (text.new.items ≡ text.old.items ++ cause_text cause) }
{
    match cause {
        Refused::LineTooLong => or_no_memory(text.write_all(b"line too long")),
        Refused::NotUtf8 => or_no_memory(text.write_all(b"not UTF-8")),
        Refused::UnknownCommand => or_no_memory(text.write_all(b"unknown command")),
        Refused::FieldCount => or_no_memory(text.write_all(b"wrong number of fields")),
        Refused::BadQuotes => or_no_memory(text.write_all(b"bad quotes")),
        Refused::NotANumber => or_no_memory(text.write_all(b"not a number")),
        Refused::Rates(refusal) => {
            let code = refusal.code();
            or_no_memory(write!(text, "C{code}"))
        }
    }
}
