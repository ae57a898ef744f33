//! Admissions: who serves a session has one, and there are as many as sessions may run at once.

ghost use Rattle.std.specs.Prelude.{◌≡◌};

use crate::runs::{Admissions, Run};
use std::sync::ledger::Share;

/// The right to serve one session at a time. It can't be copied or let go, and has to be given back.
pub(crate) struct Admission<K: Run> {
    pub(crate) share: Share<Admissions<K>>,
    ghost one_part: { share.parts ≡ 1 },
    ghost nothing: { share.amount ≡ 0 },
}
