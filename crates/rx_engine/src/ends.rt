//! The ends of attempts with held outcomes: made of an end, and taken apart. Nothing here runs or
//! publishes.

ghost use Rattle.std.specs.Prelude.{◌≡◌};
ghost use Rattle.rx_engine.specs.Attempts.{Holds, kept_of, outcome_of, whole};

use crate::attempts::Won;
use crate::held::Held;
use rx_world::{End, KeptOutcome, Outcome, keep_outcome};
use std::alloc::Global;

/// Holds the outcome of an end. Where memory is wanting to keep it, the end is that cause.
pub(crate) fn hold<C: Drop>(alloc: Global, end: End<Outcome, C>, no_memory: C) -> End<Held, C>
    ensures { Holds no_memory end result }
{
    match end {
        End::Failed { cause } => End::Failed { cause },
        End::Done { outcome, origin } => match keep_outcome(alloc, &outcome) {
            Ok(short) => End::Done {
                outcome: Held { outcome, short },
                origin,
            },
            Err(_) => End::Failed { cause: no_memory },
        },
    }
}

/// The end of an attempt as a transcript keeps it, and its outcome, where it has one.
pub(crate) fn let_go<C>(end: Option<End<Held, C>>) -> (Option<End<KeptOutcome, C>>, Option<Won>)
    ensures kept { result.0 ≡ kept_of (whole end) }
    ensures outcome { result.1 ≡ outcome_of (whole end) }
{
    match end {
        None => (None, None),
        Some(End::Failed { cause }) => (Some(End::Failed { cause }), None),
        Some(
            End::Done {
                outcome: held,
                origin,
            },
        ) => {
            let Held { outcome, short } = held;
            let kept = End::Done {
                outcome: short,
                origin,
            };
            (Some(kept), Some(Won { outcome, origin }))
        }
    }
}
