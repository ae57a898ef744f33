//! What a plan has.

ghost use Rattle.std.specs.Prelude.{◌≡◌};
ghost use Rattle.rx_engine.specs.Plans.{has_both, has_remote};

use rx_world::Plan;

/// Whether a plan has a remote attempt.
pub(crate) fn has_remote(plan: Plan) -> bool
    ensures { result ≡ has_remote plan }
{
    match plan {
        Plan::LocalOnly => false,
        Plan::RemoteOnly => true,
        Plan::Fallback => true,
        Plan::Both => true,
    }
}

/// Whether a plan has both attempts at once.
pub(crate) fn has_both(plan: Plan) -> bool
    ensures { result ≡ has_both plan }
{
    matches!(plan, Plan::Both)
}
