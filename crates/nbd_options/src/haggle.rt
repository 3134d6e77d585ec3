use crate::answers::{Next, OptionReply, next_for, replies_for};
use crate::table::ExportTable;
use nbd_base::NoMemory;
use nbd_wire::read_option_head;
use std::alloc::Allocator;
use std::marker::Model;
use thiserror::Error;

const MAX_OPTIONS: u32 = 1000;

const MAX_CONTENT: u32 = 65_536;

/// Why the head of an option is refused. Each ends the session without a reply.
#[derive(Clone, Copy, Debug, PartialEq, Eq, Error)]
pub enum HeadFault {
    /// It doesn't begin with IHAVEOPT.
    #[error("wrong magic")]
    BadMagic,
    /// It is the 1,001st option of the session.
    #[error("too many")]
    TooMany,
    /// Its data is longer than 65,536 bytes.
    #[error("too long")]
    TooLong,
}

/// The haggling of one client over the exports of a table. It counts the client's options.
#[derive(Drop)]
pub struct Haggle<'a, A: Allocator + Copy> {
    table: &'a ExportTable<A>,
    seen: u32,
}

impl<'a, A: Allocator + Copy> Model for Haggle<'a, A> {
    ghost use Rattle.std.specs.Prelude.{◌≤◌};
    ghost use Rattle.nbd_options.specs.Counting.{Counting};

    ghost Value = { Counting };

    ghost view = { λ h. record { table = h.table.now; seen = h.seen } };

    ghost invariant = { λ h. h.seen ≤ 1000 };
}

impl<'a, A: Allocator + Copy> Haggle<'a, A> {
    ghost use Rattle.std.specs.Prelude.{◌≡◌, ◌≢◌, ◌+◌, ◌<◌, ◌≤◌, ◌^◌, ℕ, take, Some, None, IfOk, IfErr, IsErrOf, OnOk, OnErr};
    ghost use Rattle.nbd_wire.specs.Grammar.{option_head_text, option_magic};
    ghost use Rattle.nbd_options.specs.Replies.{replies_to, next_after, IsWithin};
    ghost use Rattle.nbd_options.specs.Haggled.{head_fault};

    /// A client that sent no option yet.
    pub fn new(table: &'a ExportTable<A>) -> Haggle<'a, A>
        ensures { result ≡ record { table = table.now; seen = 0 } }
    {
        Haggle { table, seen: 0 }
    }

    /// The number of an option and the length of its data in bytes. An option whose head is refused isn't counted.
    pub fn head(&mut self, bytes: &[u8; 16]) -> Result<(u32, u32), HeadFault>
        ensures ok { IfOk result (λ h. (bytes.now ≡ option_head_text h.0 h.1)
            × (head_fault self.old.seen bytes.now ≡ None)) }
        ensures err { IfErr result (λ e. head_fault self.old.seen bytes.now ≡ Some e) }
        ensures counted { OnOk result (self.new
            ≡ record { table = self.old.table; seen = self.old.seen + 1 }) }
        ensures kept { OnErr result (self.new ≡ self.old) }

        // what these say of the bytes
        ensures within { IfOk result (λ h. (h.0 < 2 ^ 32) × (h.1 ≤ 65536)
            × (self.old.seen < 1000)) }
        ensures bad_magic { IsErrOf result HeadFault.BadMagic → take 8 bytes.now ≢ option_magic }
        ensures too_many { IsErrOf result HeadFault.TooMany
            → ((number : ℕ) × (count : ℕ) × (bytes.now ≡ option_head_text number count)
            × (number < 2 ^ 32) × (count < 2 ^ 32) × (1000 ≤ self.old.seen)) }
        ensures too_long { IsErrOf result HeadFault.TooLong
            → ((number : ℕ) × (count : ℕ) × (bytes.now ≡ option_head_text number count)
            × (number < 2 ^ 32) × (count < 2 ^ 32) × (self.old.seen < 1000) × (65536 < count)) }
    {
        let Ok((number, count)) = read_option_head(bytes) else {
            return Err(HeadFault::BadMagic);
        };
        if self.seen >= MAX_OPTIONS {
            return Err(HeadFault::TooMany);
        }
        if count > MAX_CONTENT {
            return Err(HeadFault::TooLong);
        }
        self.seen += 1;
        Ok((number, count))
    }

    /// What comes after an option. This takes no memory, so that a session can be asked for before a reply is made.
    pub fn next(&self, number: u32, content: &[u8]) -> Next
        ensures value { result
            ≡ next_after self.now.table (record { number = number; content = content.now }) }
        ensures within { IsWithin self.now.table result }
    {
        next_for(self.table.exports(), number, content)
    }

    /// The replies to an option, and what comes after it. EXPORT_NAME has no replies: `said` gives its answer.
    pub fn option(
        &mut self,
        alloc: A,
        number: u32,
        content: &[u8],
    ) -> Result<(Vec<OptionReply<A>, A>, Next), NoMemory>
        ensures replies { IfOk result (λ r. r.0.items
            ≡ replies_to self.old.table (record { number = number; content = content.now })) }
        ensures next { IfOk result (λ r.
            r.1 ≡ next_after self.old.table (record { number = number; content = content.now })) }
        ensures within { IfOk result (λ r. IsWithin self.old.table r.1) }
        ensures kept { self.new ≡ self.old }
    {
        let table = self.table;
        let next = next_for(table.exports(), number, content);
        let replies = replies_for(alloc, table.exports(), number, content)?;
        Ok((replies, next))
    }
}
