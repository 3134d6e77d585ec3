//! The lines that `replay` writes of the tags of what waits.

ghost use Rattle.std.specs.Prelude.{◌≡◌, ◌++◌, OnOk};
ghost use Rattle.nbd_scripts.specs.Waiting.{number_text, reservation_word, rest_text, tag_line, tags_text, waiting_text};

use eligibility::Heaped;
use export_store::Paged;
use nbd_base::NoMemory;
use nbd_text::or_no_memory;
use server_core::{NoTags, Server};
use std::alloc::Allocator;
use std::io::Write;
use tag_clock::Tags;

/// Writes the tags of what waits at an export, or that there is no such export.
pub fn write_tags<A: Allocator + Copy>(
    alloc: A,
    server: &Server<Paged<A>, Heaped<A>>,
    export: u32,
    text: &mut Vec<u8, A>,
) -> Result<(), NoMemory>
    ensures { OnOk result (text.new.items ≡ text.old.items
        ++ tags_text server.now.setup server.now.table export) }
{
    match server.tags(alloc, export) {
        Ok(told) => write_waiting(&told, text),
        Err(NoTags::NoExport) => or_no_memory(text.write_all(b"no export\n")),
        Err(NoTags::NoMemory) => Err(NoMemory),
    }
}

/// Writes how many requests wait, and the line of each.
fn write_waiting<A: Allocator>(told: &[(u64, Tags)], text: &mut Vec<u8, A>) -> Result<(), NoMemory>
    ensures { OnOk result (text.new.items ≡ text.old.items ++ waiting_text told.now) }
{
    let count = told.len();
    or_no_memory(writeln!(text, "waiting {count}"))?;
    for &(number, tags) in told {
        write_tag(number, tags, text)?;
    }
    Ok(())
}

/// Writes the line of a request that waits: its number and its tags.
fn write_tag<A: Allocator>(number: u64, tags: Tags, text: &mut Vec<u8, A>) -> Result<(), NoMemory>
    ensures { OnOk result (text.new.items ≡ text.old.items ++ tag_line (number, tags)) }
{
    write_number(number, text)?;
    write_reservation(tags.r, text)?;
    write_rest(tags, text)?;
    Ok(())
}

fn write_number<A: Allocator>(number: u64, text: &mut Vec<u8, A>) -> Result<(), NoMemory>
    ensures { OnOk result (text.new.items ≡ text.old.items ++ number_text number) }
{
    or_no_memory(write!(text, "tag {number} "))
}

/// Writes an R tag, which may be missing.
fn write_reservation<A: Allocator>(
    reservation: Option<i128>,
    text: &mut Vec<u8, A>,
) -> Result<(), NoMemory>
    ensures { OnOk result (text.new.items ≡ text.old.items ++ reservation_word reservation) }
{
    match reservation {
        Some(tag) => or_no_memory(write!(text, "{tag}")),
        None => or_no_memory(text.write_all(b"-")),
    }
}

/// Writes an L and a P tag, which end the line.
fn write_rest<A: Allocator>(tags: Tags, text: &mut Vec<u8, A>) -> Result<(), NoMemory>
    ensures { OnOk result (text.new.items ≡ text.old.items ++ rest_text tags) }
{
    let limit = tags.l;
    let share = tags.p;
    or_no_memory(writeln!(text, " {limit} {share}"))
}
