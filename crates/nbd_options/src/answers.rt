ghost use Rattle.std.specs.Prelude.{◌≡◌, ◌+◌, ◌≤◌, ◌<◌, ◌^◌, ◌++◌, ◌∷◌, [], length, IfOk, OnOk};
ghost use Rattle.std.specs.Int.{w16, w64, to_be_bytes};
ghost use Rattle.nbd_options.specs.Replies.{numbers_of, reply, listing, where_asked, description_information, told_of, informed, replies_to, next_after, IsWithin};

use crate::protocol::{
    ABORT, ACK, EXPORT_NAME, GO, INFO, INFORMATION, INVALID, LIST, SERVER, UNKNOWN, UNSUP,
};
use crate::shape::{export_named, is_asked, is_shaped, name_length};
use crate::table::Export;
use nbd_base::NoMemory;
use std::alloc::Allocator;
use std::marker::Model;

const BLOCK_SIZE: [u8; 14] = [0, 3, 0, 0, 0, 1, 0, 0, 0x10, 0, 2, 0, 0, 0];

/// A reply to an option: the option that it answers, its reply type and its data.
#[derive(Drop)]
pub struct OptionReply<A: Allocator> {
    pub option: u32,
    pub kind: u32,
    pub content: Vec<u8, A>,
}

impl<A: Allocator> Model for OptionReply<A> {
    ghost use Rattle.std.specs.Prelude.{◌<◌, ◌^◌, vec_len};
    ghost use Rattle.nbd_options.specs.Replies.{ReplyMessage};

    ghost Value = { ReplyMessage };

    ghost view = { λ r. record { option = r.option; kind = r.kind; content = r.content.items } };

    ghost invariant = { λ r. vec_len r.content < 2 ^ 32 };
}

/// What comes after an option.
#[derive(Clone, Copy, Debug, PartialEq, Eq)]
pub enum Next {
    /// The client goes to this export by GO, if it gets a session.
    Go(u32),
    /// The client goes to this export by EXPORT_NAME, if it gets a session.
    ByName(u32),
    /// The client may send another option.
    Again,
    /// The session ends once the reply is written.
    Abort,
    /// The session ends without a reply: no export has the name.
    Close,
}

/// What comes after an option.
pub fn next_for<A: Allocator>(exports: &[Export<A>], number: u32, content: &[u8]) -> Next
    requires { length exports.now ≤ 64 }
    ensures value { result
        ≡ next_after exports.now (record { number = number; content = content.now }) }
    ensures within { IsWithin exports.now result }
{
    if number == EXPORT_NAME {
        return match export_named(exports, content) {
            None => Next::Close,
            Some(at) => Next::ByName(at as u32),
        };
    }
    if number == ABORT {
        return Next::Abort;
    }
    if number == GO && is_shaped(content) {
        let length = name_length(content);
        return match export_named(exports, &content[4..4 + length]) {
            None => Next::Again,
            Some(at) => Next::Go(at as u32),
        };
    }
    Next::Again
}

/// The replies to an option.
pub fn replies_for<A: Allocator + Copy>(
    alloc: A,
    exports: &[Export<A>],
    number: u32,
    content: &[u8],
) -> Result<Vec<OptionReply<A>, A>, NoMemory>
    ensures { IfOk result (λ v.
        v.items ≡ replies_to exports.now (record { number = number; content = content.now })) }
{
    if number == EXPORT_NAME {
        return Ok(Vec::new(alloc));
    }
    if number == ABORT {
        return bare(alloc, ABORT, ACK);
    }
    if number == LIST {
        if content.is_empty() {
            return list(alloc, exports);
        }
        return bare(alloc, LIST, INVALID);
    }
    if number == INFO || number == GO {
        return inform(alloc, exports, number, content);
    }
    bare(alloc, number, UNSUP)
}

/// A reply for each export, and ACK.
fn list<A: Allocator + Copy>(
    alloc: A,
    exports: &[Export<A>],
) -> Result<Vec<OptionReply<A>, A>, NoMemory>
    ensures { IfOk result (λ v. v.items ≡ listing exports.now) }
{
    let mut replies = Vec::new(alloc);
    for export in exports {
        let name = export.name();
        let length = name.len() as u32;
        add(
            alloc,
            &mut replies,
            LIST,
            SERVER,
            &length.to_be_bytes(),
            name,
        )?;
    }
    add(alloc, &mut replies, LIST, ACK, &[], &[])?;
    Ok(replies)
}

/// The replies to INFO or GO.
fn inform<A: Allocator + Copy>(
    alloc: A,
    exports: &[Export<A>],
    number: u32,
    content: &[u8],
) -> Result<Vec<OptionReply<A>, A>, NoMemory>
    ensures { IfOk result (λ v.
        v.items ≡ informed exports.now (record { number = number; content = content.now })) }
{
    if !is_shaped(content) {
        return bare(alloc, number, INVALID);
    }
    let length = name_length(content);
    let Some(at) = export_named(exports, &content[4..4 + length]) else {
        return bare(alloc, number, UNKNOWN);
    };
    tell(alloc, &exports[at], number, &content[4 + length + 2..])
}

/// What is told of an export to a client that asks for these types of information.
fn tell<A: Allocator + Copy>(
    alloc: A,
    export: &Export<A>,
    number: u32,
    types: &[u8],
) -> Result<Vec<OptionReply<A>, A>, NoMemory>
    ensures { IfOk result (λ v. v.items ≡ told_of number (numbers_of types.now) export.now) }
{
    let mut replies = Vec::new(alloc);
    add(
        alloc,
        &mut replies,
        number,
        INFORMATION,
        &export_payload(export),
        &[],
    )?;
    add_asked(
        alloc,
        &mut replies,
        is_asked(1, types),
        number,
        &[0, 1],
        export.name(),
    )?;
    describe(alloc, &mut replies, is_asked(2, types), number, export)?;
    add_asked(
        alloc,
        &mut replies,
        is_asked(3, types),
        number,
        &BLOCK_SIZE,
        &[],
    )?;
    add(alloc, &mut replies, number, ACK, &[], &[])?;
    Ok(replies)
}

/// Adds information, if it was asked for.
fn add_asked<A: Allocator + Copy>(
    alloc: A,
    replies: &mut Vec<OptionReply<A>, A>,
    asked: bool,
    number: u32,
    front: &[u8],
    rest: &[u8],
) -> Result<(), NoMemory>
    requires { length front.now + length rest.now < 2 ^ 32 }
    ensures { OnOk result (replies.new.items ≡ replies.old.items
        ++ where_asked asked (reply number 3 (front.now ++ rest.now) ∷ [])) }
{
    if asked {
        return add(alloc, replies, number, INFORMATION, front, rest);
    }
    Ok(())
}

/// Adds the description, if there is one and it was asked for.
fn describe<A: Allocator + Copy>(
    alloc: A,
    replies: &mut Vec<OptionReply<A>, A>,
    asked: bool,
    number: u32,
    export: &Export<A>,
) -> Result<(), NoMemory>
    ensures { OnOk result (replies.new.items ≡ replies.old.items
        ++ where_asked asked (description_information number export.now.description)) }
{
    if let Some(text) = export.description() {
        return add_asked(alloc, replies, asked, number, &[0, 2], text);
    }
    Ok(())
}

/// The data of EXPORT: the type, the size and the transmission flags.
fn export_payload<A: Allocator>(export: &Export<A>) -> [u8; 12]
    ensures { result ≡ to_be_bytes w16 0
        ++ (to_be_bytes w64 export.now.size ++ to_be_bytes w16 export.now.flags) }
{
    let mut bytes = [0; 12];
    bytes[2..10].copy_from_slice(&export.size().to_be_bytes());
    bytes[10..12].copy_from_slice(&export.flags().to_be_bytes());
    bytes
}

/// One reply without data.
fn bare<A: Allocator + Copy>(
    alloc: A,
    option: u32,
    kind: u32,
) -> Result<Vec<OptionReply<A>, A>, NoMemory>
    ensures { IfOk result (λ v. v.items ≡ reply option kind [] ∷ []) }
{
    let mut replies = Vec::new(alloc);
    add(alloc, &mut replies, option, kind, &[], &[])?;
    Ok(replies)
}

/// Adds a reply, whose data is a front and then the rest.
fn add<A: Allocator + Copy>(
    alloc: A,
    replies: &mut Vec<OptionReply<A>, A>,
    option: u32,
    kind: u32,
    front: &[u8],
    rest: &[u8],
) -> Result<(), NoMemory>
    requires { length front.now + length rest.now < 2 ^ 32 }
    ensures { OnOk result (replies.new.items ≡ replies.old.items
        ++ reply option kind (front.now ++ rest.now) ∷ []) }
{
    let mut content = Vec::from_slice(alloc, front)?;
    content.extend_from_slice(rest)?;
    replies.push(OptionReply {
        option,
        kind,
        content,
    })?;
    Ok(())
}
