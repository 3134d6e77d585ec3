ghost use Rattle.std.specs.Prelude.{◌≡◌, ◌≢◌, ◌++◌, [], OnOk, OnErr};
ghost use Rattle.nbd_wire.specs.Grammar.{reply_head_text, reply_text};

use bytes::Bytes;
use nbd_base::NoMemory;
use payload::Payload;
use std::alloc::Allocator;
use std::marker::Model;

const REPLY_MAGIC: u32 = 0x6744_6698;

/// A simple reply: an error, 0 for none, the cookie of its request, and what a READ without error brings
/// (NBD protocol, "Simple reply message").
#[derive(Drop)]
pub struct Reply<A: Allocator> {
    error: u32,
    cookie: u64,
    content: Payload<A>,
}

impl<A: Allocator> Model for Reply<A> {
    ghost use Rattle.std.specs.Prelude.{◌≡◌, ◌≢◌, []};
    ghost use Rattle.nbd_wire.specs.Grammar.{ReplyMessage};

    ghost Value = { ReplyMessage };

    ghost view = { λ r. record { error = r.error; cookie = r.cookie; content = r.content } };

    ghost invariant = { λ r. r.error ≢ 0 → r.content ≡ [] };
}

impl<A: Allocator> Reply<A> {
    /// The reply to a request that was done. The content is empty but for a READ.
    pub fn done(cookie: u64, content: Payload<A>) -> Reply<A>
        ensures { result ≡ record { error = 0; cookie = cookie; content = content } }
    {
        Reply {
            error: 0,
            cookie,
            content,
        }
    }

    /// The same with content in one piece.
    pub fn of_bytes(cookie: u64, content: Bytes<A>) -> Reply<A>
        ensures { result ≡ record { error = 0; cookie = cookie; content = content } }
    {
        Reply::done(cookie, Payload::in_one_piece(content))
    }

    /// A reply without content: an error of the NBD protocol's "Error values", or 0.
    pub fn bare(error: u32, cookie: u64) -> Reply<A>
        ensures { result ≡ record { error = error; cookie = cookie; content = [] } }
    {
        Reply {
            error,
            cookie,
            content: Payload::new(),
        }
    }

    /// The error, 0 for none.
    pub fn error(&self) -> u32
        ensures value { result ≡ self.now.error }
        ensures bare { result ≢ 0 → self.now.content ≡ [] }
    {
        self.error
    }

    /// The cookie of the request that it answers.
    pub fn cookie(&self) -> u64
        ensures { result ≡ self.now.cookie }
    {
        self.cookie
    }

    /// What a READ brings; empty beside an error. `Payload::pieces` gives it as `Bytes`, in one piece or page by page.
    pub fn content(&self) -> &Payload<A>
        ensures { result.now ≡ self.now.content }
    {
        &self.content
    }
}

/// The 16 bytes before a reply's content (NBD protocol, "Simple reply message").
#[tactic(auto, unfolding(crate::specs::Grammar::reply_head_text))]
pub fn write_reply_head(error: u32, cookie: u64) -> [u8; 16]
    ensures { result ≡ reply_head_text error cookie }
{
    let mut bytes = [0; 16];
    bytes[0..4].copy_from_slice(&REPLY_MAGIC.to_be_bytes());
    bytes[4..8].copy_from_slice(&error.to_be_bytes());
    bytes[8..16].copy_from_slice(&cookie.to_be_bytes());
    bytes
}

/// Appends a reply as it is sent, or nothing where memory is refused.
pub fn write_reply<A: Allocator, B: Allocator>(
    reply: &Reply<A>,
    out: &mut Vec<u8, B>,
) -> Result<(), NoMemory>
    ensures ok { OnOk result (out.new.items ≡ out.old.items ++ reply_text reply.now) }
    ensures err { OnErr result (out.new.items ≡ out.old.items) }
{
    let before = out.len();
    let head = write_reply_head(reply.error, reply.cookie);
    out.extend_from_slice(&head)?;
    if reply.content.append(out).is_err() {
        out.truncate(before);
        return Err(NoMemory);
    }
    Ok(())
}
