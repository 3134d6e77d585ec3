//! The lines that `replay` writes, one for each answer of the server.

ghost use Rattle.std.specs.Prelude.{◌≡◌, ◌++◌, OnOk};
ghost use Rattle.nbd_scripts.specs.Answers.{line_of, reply_line, picked_line, word_of_phase};

use nbd_base::NoMemory;
use nbd_text::or_no_memory;
use nbd_wire::Reply;
use server_table::Answer;
use std::alloc::Allocator;
use std::io::Write;
use tag_clock::Phase;

/// Writes the line of an answer.
pub fn write_answer<A: Allocator + Copy, B: Allocator>(
    alloc: A,
    answer: Answer<B>,
    text: &mut Vec<u8, A>,
) -> Result<(), NoMemory>
    ensures { OnOk result (text.new.items ≡ text.old.items ++ line_of answer) }
{
    match answer {
        Answer::Session(session) => or_no_memory(writeln!(text, "session {session}")),
        Answer::Accepted { number, limit_tag } => or_no_memory(writeln!(
            text,
            "accepted {number} {limit_tag}"
        )),
        Answer::Answered(error) => or_no_memory(writeln!(text, "answered {error}")),
        Answer::Picked {
            export,
            number,
            phase,
        } => write_picked(export, number, phase, text),
        Answer::Nothing => or_no_memory(text.write_all(b"none\n")),
        Answer::Performed { memory: true } => or_no_memory(text.write_all(b"performed\n")),
        Answer::Performed { memory: false } => or_no_memory(text.write_all(
            b"performed without memory\n",
        )),
        Answer::Reply(reply) => write_reply(alloc, &reply, text),
        Answer::Empty => or_no_memory(text.write_all(b"empty\n")),
        Answer::End => or_no_memory(text.write_all(b"end\n")),
        Answer::Left => or_no_memory(text.write_all(b"left\n")),
        Answer::Dropped => or_no_memory(text.write_all(b"gone\n")),
        Answer::NoExport => or_no_memory(text.write_all(b"no export\n")),
        Answer::NotOpen => or_no_memory(text.write_all(b"not open\n")),
        Answer::Worn => or_no_memory(text.write_all(b"worn\n")),
        Answer::Full => or_no_memory(text.write_all(b"full\n")),
        Answer::Hold => or_no_memory(text.write_all(b"hold\n")),
        Answer::NotOut => or_no_memory(text.write_all(b"not out\n")),
        Answer::Retuned => or_no_memory(text.write_all(b"retuned\n")),
        Answer::Waiting => or_no_memory(text.write_all(b"waiting\n")),
        Answer::NoMemory => or_no_memory(text.write_all(b"no memory\n")),
    }
}

/// Writes the line of a reply: its cookie, its error, and the hex of what it brings.
fn write_reply<A: Allocator + Copy, B: Allocator>(
    alloc: A,
    reply: &Reply<B>,
    text: &mut Vec<u8, A>,
) -> Result<(), NoMemory>
    ensures { OnOk result (text.new.items ≡ text.old.items ++ reply_line reply.now) }
{
    let cookie = reply.cookie();
    let error = reply.error();
    if reply.content().is_empty() {
        return or_no_memory(writeln!(text, "reply {cookie} {error} -"));
    }
    let mut content = Vec::new(alloc);
    reply.content().append(&mut content)?;
    let digits = hex::encode(alloc, content.as_slice())?;
    or_no_memory(writeln!(text, "reply {cookie} {error} {digits}"))
}

/// Writes the line of a choice.
fn write_picked<A: Allocator>(
    export: u32,
    number: u64,
    phase: Phase,
    text: &mut Vec<u8, A>,
) -> Result<(), NoMemory>
    ensures { OnOk result (text.new.items ≡ text.old.items ++ picked_line export number phase) }
{
    let phase = phase_word(phase);
    or_no_memory(writeln!(text, "export {export} request {number} {phase}"))
}

fn phase_word(phase: Phase) -> &'static str
    ensures { result.now ≡ word_of_phase phase }
{
    match phase {
        Phase::Reservation => "reservation",
        Phase::Weight => "weight",
    }
}
