//! How a session asks, by its latest holds, and what others may expect of it.

ghost use Rattle.std.specs.Prelude.{◌≡◌};
ghost use Rattle.nbd_policy.specs.Policy.{expectation_by, habit_by, in_a_row_by, is_interactive_by, is_old_by};

use crate::request_size::Load;
use tag_clock::Moment;

/// Behind how many in a row a session is known to be interactive. The first request of any other is alone too.
const INTERACTIVE_IN_A_ROW: u32 = 3;

/// Behind how many in a row it is known to have few requests at hand. Of what its client sent less may have come at times.
const FEW_IN_A_ROW: u32 = 8;

/// So many requests at hand aren't few.
const MANY_REQUESTS: u64 = 12;

/// Behind how many nanoseconds it is noted again that such a session asked: threads of all sessions read that.
const NOTED_NS: u64 = 1_000_000;

/// What others may expect of a session.
#[derive(Clone, Copy, Debug, PartialEq, Eq, Drop)]
pub enum Expectation {
    /// It asks for little at a time.
    Interactive,
    /// It has few requests at hand at a time.
    Few,
    /// Neither, or that isn't known yet.
    Nothing,
}

/// How a session asks: in how many of its latest holds in a row it was interactive, and had few requests at hand. Eight stand for more.
#[derive(Clone, Copy, Debug, PartialEq, Eq, Drop)]
pub struct Habit {
    pub interactive: u32,
    pub few: u32,
}

impl Habit {
    /// Of a session that hasn't asked.
    pub const UNKNOWN: Habit = Habit {
        interactive: 0,
        few: 0,
    };

    /// Behind one more hold, of this load and with so many requests at hand.
    pub fn with(self, load: Load, at_hand: u64) -> Habit
        ensures { result ≡ habit_by self load at_hand }
    {
        Habit {
            interactive: in_a_row(self.interactive, is_interactive(load)),
            few: in_a_row(self.few, at_hand < MANY_REQUESTS),
        }
    }

    /// What others may expect.
    pub fn expectation(self) -> Expectation
        ensures { result ≡ expectation_by self }
    {
        if self.interactive >= INTERACTIVE_IN_A_ROW {
            Expectation::Interactive
        } else if self.few >= FEW_IN_A_ROW {
            Expectation::Few
        } else {
            Expectation::Nothing
        }
    }
}

fn is_interactive(load: Load) -> bool
    ensures { result ≡ is_interactive_by load }
{
    match load {
        Load::Interactive => true,
        Load::Bulk => false,
    }
}

/// In how many holds in a row something was so, with one more, at which it was or wasn't.
fn in_a_row(before: u32, again: bool) -> u32
    ensures { result ≡ in_a_row_by before again }
{
    if !again {
        0
    } else if before < FEW_IN_A_ROW {
        before + 1
    } else {
        FEW_IN_A_ROW
    }
}

/// Whether it is noted again that a session asked, which was last noted at that moment, in nanoseconds.
pub fn is_old(latest: u64, now: Moment) -> bool
    ensures { result ≡ is_old_by latest now }
{
    now.nanoseconds().saturating_sub(latest) >= NOTED_NS
}
