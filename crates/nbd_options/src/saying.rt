//! What is sent: the greeting, and the text that is said to an option.
ghost use Rattle.std.specs.Prelude.{◌≡◌, ◌<◌, length, IfOk, slice_get};
ghost use Rattle.nbd_options.specs.Replies.{IsWithin};
ghost use Rattle.nbd_options.specs.Haggled.{greeting_text, wants_no_zeroes, entry_text, texts, said_by, said_by_go, said_by_name};

use crate::answers::{Next, OptionReply};
use crate::attach::Attached;
use crate::haggle::HeadFault;
use crate::protocol::{GO, POLICY};
use crate::table::ExportTable;
use nbd_base::NoMemory;
use nbd_wire::write_option_reply;
use std::alloc::Allocator;

const ZEROS: [u8; 124] = [0; 124];

/// How haggling ends.
#[derive(Clone, Copy, Debug, PartialEq, Eq)]
pub enum HaggleEnd {
    /// The client is in this export.
    Entered(u32),
    /// The client got no session: there was no memory for one or the export is worn, or EXPORT_NAME named an export
    /// whose sessions are full.
    Refused,
    /// The client sent ABORT.
    Aborted,
    /// No export has the name that EXPORT_NAME gave.
    NoExport,
    /// The client's flags are unknown.
    BadFlags,
    /// The head of an option is refused.
    BadHead(HeadFault),
}

/// The 18 bytes that greet a client: NBDMAGIC, IHAVEOPT, and the flags FIXED_NEWSTYLE and NO_ZEROES.
#[tactic(auto, unfolding(crate::specs::Haggled::greeting_text))]
pub fn greeting() -> [u8; 18]
    ensures { result ≡ greeting_text }
{
    *b"NBDMAGICIHAVEOPT\0\x03"
}

/// Whether the client wants no zeros behind the answer to EXPORT_NAME (C_NO_ZEROES), or None where its flags have a bit
/// that is unknown. C_FIXED_NEWSTYLE may be clear.
pub fn no_zeroes(flags: u32) -> Option<bool>
    ensures { result ≡ wants_no_zeroes flags }
{
    if flags > 3 { None } else { Some(flags >= 2) }
}

/// The answer to EXPORT_NAME of this export.
pub fn name_reply<A: Allocator + Copy>(
    alloc: A,
    table: &ExportTable<A>,
    export: u32,
    no_zeroes: bool,
) -> Result<Vec<u8, A>, NoMemory>
    requires { export < length table.now }
    ensures { IfOk result (λ v. v.items ≡ entry_text no_zeroes (slice_get table.now export)) }
{
    let export = export as usize;
    let mut text = Vec::from_slice(alloc, &table.size(export).to_be_bytes())?;
    text.extend_from_slice(&table.flags(export).to_be_bytes())?;
    if !no_zeroes {
        text.extend_from_slice(&ZEROS)?;
    }
    Ok(text)
}

/// What is said to an option, and how haggling ends by it, if it does: by the replies to the option and what comes after
/// it, and where that is Go or ByName, by whether a session was given. Otherwise `attached` is passed over.
pub fn said<A: Allocator + Copy>(
    alloc: A,
    table: &ExportTable<A>,
    no_zeroes: bool,
    replies: &[OptionReply<A>],
    next: Next,
    attached: Attached,
) -> Result<(Vec<u8, A>, Option<HaggleEnd>), NoMemory>
    requires { IsWithin table.now next }
    ensures text { IfOk result (λ r.
        r.0.items ≡ (said_by table.now no_zeroes replies.now next attached).text) }
    ensures end { IfOk result (λ r.
        r.1 ≡ (said_by table.now no_zeroes replies.now next attached).end) }
{
    match next {
        Next::Go(export) => said_by_go(alloc, replies, export, attached),
        Next::ByName(export) => said_by_name(alloc, table, no_zeroes, export, attached),
        Next::Again => Ok((spelled(alloc, replies)?, None)),
        Next::Abort => Ok((spelled(alloc, replies)?, Some(HaggleEnd::Aborted))),
        Next::Close => Ok((Vec::new(alloc), Some(HaggleEnd::NoExport))),
    }
}

/// What is said to a GO of an export that is there. Where its sessions are full, POLICY alone, and haggling goes on.
fn said_by_go<A: Allocator + Copy>(
    alloc: A,
    replies: &[OptionReply<A>],
    export: u32,
    attached: Attached,
) -> Result<(Vec<u8, A>, Option<HaggleEnd>), NoMemory>
    ensures text { IfOk result (λ r. r.0.items ≡ (said_by_go replies.now export attached).text) }
    ensures end { IfOk result (λ r. r.1 ≡ (said_by_go replies.now export attached).end) }
{
    match attached {
        Attached::Given => Ok((spelled(alloc, replies)?, Some(HaggleEnd::Entered(export)))),
        Attached::Full => {
            let mut text = Vec::new(alloc);
            write_option_reply(GO, POLICY, &[], &mut text)?;
            Ok((text, None))
        }
        Attached::Other => Ok((Vec::new(alloc), Some(HaggleEnd::Refused))),
    }
}

/// What is said to an EXPORT_NAME of an export that is there.
fn said_by_name<A: Allocator + Copy>(
    alloc: A,
    table: &ExportTable<A>,
    no_zeroes: bool,
    export: u32,
    attached: Attached,
) -> Result<(Vec<u8, A>, Option<HaggleEnd>), NoMemory>
    requires { export < length table.now }
    ensures text { IfOk result (λ r.
        r.0.items ≡ (said_by_name table.now no_zeroes export attached).text) }
    ensures end { IfOk result (λ r. r.1 ≡ (said_by_name table.now no_zeroes export attached).end) }
{
    match attached {
        Attached::Given => {
            let text = name_reply(alloc, table, export, no_zeroes)?;
            Ok((text, Some(HaggleEnd::Entered(export))))
        }
        Attached::Full => Ok((Vec::new(alloc), Some(HaggleEnd::Refused))),
        Attached::Other => Ok((Vec::new(alloc), Some(HaggleEnd::Refused))),
    }
}

/// Replies as they are sent, one behind the other.
fn spelled<A: Allocator + Copy>(
    alloc: A,
    replies: &[OptionReply<A>],
) -> Result<Vec<u8, A>, NoMemory>
    ensures { IfOk result (λ v. v.items ≡ texts replies.now) }
{
    let mut text = Vec::new(alloc);
    for reply in replies {
        write_option_reply(reply.option, reply.kind, &reply.content, &mut text)?;
    }
    Ok(text)
}
