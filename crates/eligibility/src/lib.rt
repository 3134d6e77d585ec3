//! The first waiting request of each active export, and the choice among them (mClock, the two phases of a dispatch).
//!
//! An export is active where a request of it waits, and else idle. After `new` nothing takes memory.
#![tactic(auto)]

mod heaped;
mod listed;
mod slots;
mod soonest;
mod walks;

ghost use Rattle.std.specs.Prelude.{◌≡◌, ℕ, ◌≤◌, List, Option, Some, None, slice_set, replicate, IfOk, IfSome, IfNone, pos};
ghost use Rattle.nbd_base.specs.Range.{InRange};
ghost use Rattle.tag_clock.specs.Tags.{AreInRange};
ghost use Rattle.tag_clock.specs.declared.Tags.{Tags};
ghost use Rattle.eligibility.specs.Choice.{choice, all_shifted, AllInRange, IsIdle, IsActive};
ghost use Rattle.eligibility.specs.NextDue.{IsNextDue, IsNeverDue};

pub use heaped::Heaped;
pub use listed::Listed;
use nbd_base::NoMemory;
use std::alloc::Allocator;
use tag_clock::{Moment, Phase, Tags};
pub use walks::{Op, walk};

/// The tags of the first waiting request of each active export.
///
/// The forms differ in speed alone: each gives the same answers, which `walk` shows.
pub trait Eligibility: Sized + Drop {
    type Alloc: Allocator + Copy;

    /// By export; none at an idle one.
    ghost contents: { Self → List (Option Tags) };

    /// No earlier moment than this may be chosen for.
    ghost asked: { Self → ℕ };

    /// `n` idle exports.
    fn new(alloc: Self::Alloc, n: u32) -> Result<Self, NoMemory>
        ensures contents { IfOk result (λ made. contents made ≡ replicate n None) }
        ensures asked { IfOk result (λ made. asked made ≡ 0) };

    /// An idle export has a first request, with these tags.
    fn enter(&mut self, export: u32, tags: Tags)
        requires idle { IsIdle (contents self.old) export }
        requires in_range { AreInRange tags }
        ensures asked { asked self.new ≤ asked self.old }
        ensures contents { contents self.new ≡ slice_set (contents self.old) export (Some tags) };

    /// An active export has no request any more.
    fn leave(&mut self, export: u32)
        requires active { IsActive (contents self.old) export }
        ensures asked { asked self.new ≤ asked self.old }
        ensures contents { contents self.new ≡ slice_set (contents self.old) export None };

    /// An active export has another first request, with these tags, or the same one has other tags.
    fn rekey(&mut self, export: u32, next: Tags)
        requires active { IsActive (contents self.old) export }
        requires in_range { AreInRange next }
        ensures asked { asked self.new ≤ asked self.old }
        ensures contents { contents self.new ≡ slice_set (contents self.old) export (Some next) };

    /// Subtracts `delta` nanoseconds from every P tag.
    fn shift(&mut self, delta: i128)
        requires delta { InRange delta }
        requires in_range { AllInRange (all_shifted delta (contents self.old)) }
        ensures asked { asked self.new ≤ asked self.old }
        ensures contents { contents self.new ≡ all_shifted delta (contents self.old) };

    /// The export of the least R tag that isn't above `now`, or else of the least P tag whose L tag isn't above it.
    fn choose(&mut self, now: Moment) -> Option<(u32, Phase)>
        requires { asked self.old ≤ now }
        ensures asked { asked self.new ≤ now }
        ensures chosen { result ≡ choice (pos now) (contents self.old) }
        ensures contents { contents self.new ≡ contents self.old };

    /// The least moment, from `now` on, at which `choose` would choose an export, as a tag; none where it never would.
    fn next_due(&self, now: Moment) -> Option<i128>
        requires { asked self.now ≤ now }
        ensures due { IfSome result (λ due. IsNextDue (pos now) (contents self.now) due) }
        ensures never { IfNone result (IsNeverDue (pos now) (contents self.now)) };
}
