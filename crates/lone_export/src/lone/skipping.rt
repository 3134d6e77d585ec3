//! A READ that is performed without its data: where its reply is taken at once, nobody looks at them.
ghost use Rattle.std.specs.Prelude.{◌≡◌, ◌==◌, ◌&&◌, [], ◌∷◌, true};
ghost use Rattle.std.specs.Bool.{OnTrue, OnFalse};
ghost use Rattle.nbd_commands.specs.Verdict.{is_read};
ghost use Rattle.reply_box.specs.Sessions.{is_quiet_at};
ghost use Rattle.lone_export.specs.Lone.{DoesAll, is_reading, is_read_next};
ghost use Rattle.lone_export.specs.declared.step.Step.TheVariants as step;

use crate::lone::{Lone, settle};
use crate::row::Row;
use export_store::Image;
use nbd_commands::Done;
use nbd_wire::protocol::READ;
use payload::Payload;
use reply_box::ReplyBox;
use std::alloc::Allocator;

impl<I: Image> Lone<I> {
    /// Whether the request that is in service under this number is a READ.
    pub fn is_reading(&self, number: u64) -> bool
        ensures { result ≡ is_reading self.now.state number }
    {
        let Some(slot) = self.queue.slot_of(number) else {
            return false;
        };
        let Some(row) = self.queue.held(slot, number) else {
            unreachable!();
        };
        row.request.head().kind == READ
    }

    /// Performs the READ that is in service under this number, with memory, and takes its reply for its session: two
    /// steps, in which no data are read, since the reply is dropped. It takes no memory.
    ///
    /// It is false, and nothing is done, where the request isn't such a READ of this session, or the session has a reply
    /// that is to be taken before.
    pub fn skip_read(&mut self, number: u64, session: u64) -> bool
        ensures told { result ≡ is_read_next self.old.state number session }
        ensures both { OnTrue result (DoesAll {A = I.Alloc} self.old self.new
            (step.Perform number true ∷ step.Take session ∷ [])) }
        ensures stays { OnFalse result (self.new ≡ self.old) }
    {
        let Some(slot) = self.queue.slot_of(number) else {
            return false;
        };
        let Some(row) = self.queue.held(slot, number) else {
            unreachable!();
        };
        if !is_next(row, &self.sessions, session) {
            return false;
        }
        let done = Done {
            error: 0,
            content: Payload::new(),
            memory: true,
        };
        settle(&mut self.queue, &mut self.sessions, slot, number, done);
        self.count += 1;
        let _ = self.sessions.take(session);
        self.count += 1;
        true
    }
}

/// Whether the request is a READ of this session, whose next reply would be its own.
fn is_next<A: Allocator + Copy>(row: &Row<A>, sessions: &ReplyBox<A>, session: u64) -> bool
    ensures { result ≡ (row.now.session == session && is_read row.now.request && is_quiet_at
        sessions.now.sessions session) }
{
    row.session == session && row.request.head().kind == READ && sessions.is_quiet(session)
}
