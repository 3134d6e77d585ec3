//! Steps of a request that comes to an export without any other, made at once.
ghost use Rattle.std.specs.Prelude.{◌≡◌, [], ◌∷◌, ◌↔◌, length, true, IsTrue, IfErr, OnOk};
ghost use Rattle.nbd_commands.specs.Verdict.{is_read};
ghost use Rattle.reply_box.specs.Sessions.{is_quiet_at};
ghost use Rattle.lone_export.specs.Lone.{DoesAll, IsIdleFor};
ghost use Rattle.lone_export.specs.declared.step.Step.TheVariants as step;

use crate::lone::Lone;
use export_store::Image;
use nbd_commands::apply_owned;
use nbd_wire::{Reply, Request};
use tag_clock::Moment;

impl<I: Image> Lone<I> {
    /// How many requests are in service.
    fn in_service(&self) -> usize
        ensures { result ≡ length self.now.state.out }
    {
        self.queue.in_service()
    }

    // Whether the session's next reply would be the next that it takes.
    fn is_quiet(&self, session: u64) -> bool
        ensures { result ≡ is_quiet_at self.now.state.sessions session }
    {
        self.sessions.is_quiet(session)
    }

    /// The number that the next request gets.
    pub fn next_number(&self) -> u64
        ensures { result ≡ self.now.state.next }
    {
        self.queue.next_number()
    }

    /// Whether no request waits or is in service, and one of the session would be the only one, if it arrived, and its reply the next that
    /// the session takes. Then `serve` and `serve_dropped_read` may make its steps.
    pub fn is_idle_for(&self, session: u64, request: &Request<I::Alloc>) -> bool
        ensures { IsTrue result ↔ IsIdleFor self.now.terms self.now.state session request.now }
    {
        if self.waiting() != 0 || self.in_service() != 0 {
            return false;
        }
        if !self.is_quiet(session) {
            return false;
        }
        self.admits(session, request)
    }

    /// Makes the first three steps of a request: it arrives, is picked, and is performed with memory.
    ///
    /// Where memory is refused no step is made, and the request comes back.
    pub fn serve(
        &mut self,
        session: u64,
        moment: Moment,
        request: Request<I::Alloc>,
    ) -> Result<(), Request<I::Alloc>>
        requires { IsIdleFor self.old.terms self.old.state session request }
        ensures ok { OnOk result (DoesAll {A = I.Alloc} self.old self.new
            (step.Arrive session moment request ∷ step.Pick ∷ step.Perform self.old.state.next true ∷ [])) }
        ensures err { IfErr result (λ back. (back ≡ request) × (self.new ≡ self.old)) }
    {
        let cookie = request.head().cookie;
        let content = match apply_owned(&mut self.image, request) {
            Ok(content) => content,
            Err(back) => return Err(back),
        };
        self.queue.skip();
        // A moment is below 2^62.
        let _ = moment.nanoseconds();
        let _ = self.clock.admit(moment);
        let _ = self.sessions.admit(session);
        self.sessions.put(session, Reply::done(cookie, content));
        self.count += 3;
        self.asked += 1;
        Ok(())
    }

    /// Makes all four steps of a READ: it arrives, is picked and performed with memory, and its reply is taken. No data are read, since
    /// the reply is dropped.
    pub fn serve_dropped_read(&mut self, session: u64, moment: Moment, request: &Request<I::Alloc>)
        requires idle { IsIdleFor self.old.terms self.old.state session request.now }
        requires read { is_read request.now ≡ true }
        ensures { DoesAll {A = I.Alloc} self.old self.new
            (step.Arrive session moment request.now ∷ step.Pick ∷ step.Perform self.old.state.next true ∷ step.Take session ∷ []) }
    {
        let _ = (session, request.head());
        self.queue.skip();
        // A moment is below 2^62.
        let _ = moment.nanoseconds();
        let _ = self.clock.admit(moment);
        self.count += 4;
        self.asked += 1;
    }
}
