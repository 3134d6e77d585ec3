//! Steps that follow another directly.
ghost use Rattle.std.specs.Prelude.{◌≡◌, [], ◌∷◌, ◌++◌, IfSome, IfNone, true};
ghost use Rattle.lone_export.specs.declared.step.Step.TheVariants as step;
ghost use Rattle.step_log.specs.Steps.{kept_step, payload_of};
ghost use Rattle.step_log.specs.Log.{rest_steps};

use lone_export::Step;
use std::alloc::Allocator;

/// What follows a step directly in a log: the first request that waits is picked, one is performed with memory, and a reply is
/// taken. Or what is left of that once the oldest of these are gone.
#[derive(Clone, Copy, Debug, PartialEq, Eq, Drop)]
pub enum Rest {
    /// No step.
    Nothing,
    /// A Pick.
    Pick,
    /// A Pick, and the Perform of the request of this number.
    PickPerform(u64),
    /// A Pick, the Perform of the request of this number, and a Take of this session.
    Serving { number: u64, session: u64 },
    /// The Perform of the request of this number.
    Perform(u64),
    /// The Perform of the request of this number, and a Take of this session.
    PerformTake { number: u64, session: u64 },
    /// A Take of this session.
    Take(u64),
}

impl Rest {
    /// The same with a step more behind it. None where those steps aren't kept together.
    pub(crate) fn with<A: Allocator>(self, step: &Step<A>) -> Option<Rest>
        ensures { IfSome result (λ longer.
            rest_steps longer ≡ rest_steps self ++ kept_step step.now ∷ []) }
    {
        match (self, step) {
            (Rest::Nothing, Step::Pick) => Some(Rest::Pick),
            (
                Rest::Pick,
                Step::Perform {
                    number,
                    memory: true,
                },
            ) => Some(Rest::PickPerform(*number)),
            (Rest::PickPerform(number), Step::Take { session }) => Some(Rest::Serving {
                number,
                session: *session,
            }),
            _ => None,
        }
    }

    /// Its first step, which has no payload, and those behind it. None where there is no step.
    pub fn split<A: Allocator>(self) -> Option<(Step<A>, Rest)>
        ensures some { IfSome result (λ parts.
            rest_steps self ≡ kept_step parts.0 ∷ rest_steps parts.1) }
        ensures light { IfSome result (λ parts. payload_of (kept_step parts.0) ≡ 0) }
        ensures none { IfNone result (rest_steps self ≡ []) }
    {
        match self {
            Rest::Nothing => None,
            Rest::Pick => Some((Step::Pick, Rest::Nothing)),
            Rest::PickPerform(number) => Some((Step::Pick, Rest::Perform(number))),
            Rest::Serving { number, session } => {
                Some((Step::Pick, Rest::PerformTake { number, session }))
            }
            Rest::Perform(number) => Some((performed(number), Rest::Nothing)),
            Rest::PerformTake { number, session } => {
                Some((performed(number), Rest::Take(session)))
            }
            Rest::Take(session) => Some((Step::Take { session }, Rest::Nothing)),
        }
    }
}

/// The Perform of a request, with memory.
fn performed<A: Allocator>(number: u64) -> Step<A>
    ensures { result ≡ step.Perform number true }
{
    Step::Perform {
        number,
        memory: true,
    }
}
