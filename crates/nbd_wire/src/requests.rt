ghost use Rattle.std.specs.Prelude.{◌≡◌, ◌≢◌, take, IfOk, IsErrOf};
ghost use Rattle.nbd_wire.specs.declared.requests.RequestHead.{RequestHead};
ghost use Rattle.nbd_wire.specs.Grammar.{head_text, IsHead, IsTooLong, IsRequest, RequestMessage, request_magic};

use crate::fault::WireFault;
use crate::fields::{u16_at, u32_at, u64_at};
use crate::protocol::WRITE;
use bytes::Bytes;
use payload::Payload;
use std::alloc::{AllocError, Allocator};
use std::marker::Model;

const REQUEST_MAGIC: u32 = 0x2560_9513;

/// The longest payload of a WRITE, in bytes: 32 MiB, the maximum block size that is announced.
pub const MAX_PAYLOAD: u32 = 33_554_432;

/// A request without its payload (NBD protocol, "Request message"). Its flags and its kind may be unknown ones.
#[derive(Clone, Copy, Debug, PartialEq, Eq)]
pub struct RequestHead {
    /// Command flags.
    pub flags: u16,
    /// The command's type, as READ.
    pub kind: u16,
    /// What the client tells the reply by. It needn't be unique.
    pub cookie: u64,
    /// Where the range begins, in bytes from the export's beginning.
    pub offset: u64,
    /// How long the range is, in bytes.
    pub length: u32,
}

/// A request of a client. A WRITE has a payload of the length that its head says, 32 MiB at most; any other has none.
#[derive(Drop)]
pub struct Request<A: Allocator> {
    head: RequestHead,
    payload: Payload<A>,
}

impl<A: Allocator> Model for Request<A> {
    ghost use Rattle.nbd_wire.specs.Grammar.{RequestMessage, IsRequest};

    ghost Value = { RequestMessage };

    ghost view = { λ q. record { head = q.head; payload = q.payload } };

    ghost invariant = { λ q. IsRequest (record { head = q.head; payload = q.payload }) };
}

impl<A: Allocator> Request<A> {
    /// A request of a head and a payload that belong together.
    pub fn new(head: RequestHead, payload: Payload<A>) -> Request<A>
        requires { IsRequest (record { head = head; payload = payload }) }
        ensures { result ≡ record { head = head; payload = payload } }
    {
        Request { head, payload }
    }

    /// A request of a head and a payload in one piece that belong together.
    pub fn of_bytes(head: RequestHead, payload: Bytes<A>) -> Request<A>
        requires { IsRequest (record { head = head; payload = payload }) }
        ensures { result ≡ record { head = head; payload = payload } }
    {
        Request::new(head, Payload::in_one_piece(payload))
    }

    /// All of the request but its payload.
    pub fn head(&self) -> RequestHead
        ensures value { result ≡ self.now.head }
        ensures fits { IsRequest self.now }
    {
        self.head
    }

    /// All of the request but its payload, and its payload.
    pub fn into_parts(self) -> (RequestHead, Payload<A>)
        ensures head { result.0 ≡ self.head }
        ensures payload { result.1 ≡ self.payload }
        ensures fits { IsRequest self }
    {
        let Request { head, payload } = self;
        (head, payload)
    }

    /// What a WRITE writes; empty for any other request. `Payload::pieces` gives it as `Bytes`, in one piece or page by page.
    pub fn payload(&self) -> &Payload<A>
        ensures value { result.now ≡ self.now.payload }
        ensures fits { IsRequest self.now }
    {
        &self.payload
    }
}

impl<A: Allocator> Clone for Request<A> {
    ghost is_clone = { λ request copy. copy ≡ request };

    fn clone(&self) -> Result<Request<A>, AllocError> {
        let Ok(payload) = self.payload.clone() else {
            return Err(AllocError);
        };
        Ok(Request {
            head: self.head,
            payload,
        })
    }
}

/// Reads a head: wrong magic first, and then a WRITE that is too long.
pub fn read_head(bytes: &[u8; 28]) -> Result<RequestHead, WireFault>
    ensures spelled { IfOk result (λ h. (bytes.now ≡ head_text h) × IsHead h × (IsTooLong h → ⊥)) }
    ensures bad_magic { IsErrOf result WireFault.BadMagic → take 4 bytes.now ≢ request_magic }
    ensures too_long { IsErrOf result WireFault.TooLong
        → ((h : RequestHead) × (bytes.now ≡ head_text h) × IsHead h × IsTooLong h) }
{
    if u32_at(bytes, 0) != REQUEST_MAGIC {
        return Err(WireFault::BadMagic);
    }
    let head = RequestHead {
        flags: u16_at(bytes, 4),
        kind: u16_at(bytes, 6),
        cookie: u64_at(bytes, 8),
        offset: u64_at(bytes, 16),
        length: u32_at(bytes, 24),
    };
    if head.kind == WRITE && head.length > MAX_PAYLOAD {
        return Err(WireFault::TooLong);
    }
    Ok(head)
}

/// The 28 bytes of a head.
#[tactic(auto, unfolding(crate::specs::Grammar::head_text))]
pub fn write_head(head: &RequestHead) -> [u8; 28]
    ensures { result ≡ head_text head.now }
{
    let mut bytes = [0; 28];
    bytes[0..4].copy_from_slice(&REQUEST_MAGIC.to_be_bytes());
    bytes[4..6].copy_from_slice(&head.flags.to_be_bytes());
    bytes[6..8].copy_from_slice(&head.kind.to_be_bytes());
    bytes[8..16].copy_from_slice(&head.cookie.to_be_bytes());
    bytes[16..24].copy_from_slice(&head.offset.to_be_bytes());
    bytes[24..28].copy_from_slice(&head.length.to_be_bytes());
    bytes
}
