//! Work that a thread does, or that was done here since no thread could be started.

ghost use Rattle.std.specs.Prelude.{◌≡◌};

use crate::line::NoteLine;
use std::marker::Model;
use std::snapshot::Snapshot;
use std::thread::{Promise, PromisedHandle, Scope, Threads};

/// Where the work is done.
#[derive(Drop)]
pub(crate) enum Place<T: Drop, P: Promise<T>> {
    There { child: PromisedHandle<T, P> },
    Here { back: T },
}

/// Work that has begun, and its promise.
#[derive(Drop)]
pub(crate) struct Work<T: Drop, P: Promise<T>> {
    place: Place<T, P>,
    promise: Snapshot<P>,
}

impl<T: Drop, P: Promise<T>> Model for Work<T, P> {
    ghost use Rattle.rx_notes.specs.Works.{IsWork};

    ghost Value = { P };

    ghost view = { λ w. w.promise.value };

    ghost invariant = { λ w. IsWork P.kept_by w.promise.value w.place };
}

impl<T: Drop, P: Promise<T>> Work<T, P> {
    /// Begins work in a thread of a scope, if it needs one. Where it doesn't, and where none can be started, the line is
    /// given up, which the work looks at, and the work is done here.
    pub(crate) fn begin<'s, E, F: FnOnce() -> T + Send + 's>(
        scope: &Scope<'s, E>,
        promise: P,
        line: &NoteLine,
        is_needed: bool,
        work: F,
    ) -> Work<T, P>
    where
        T: Send + 's,
        P: Drop,
        requires runs { F.pre work }
        requires keeps { (back : T) → F.post work back → P.kept_by promise back }
        ensures { result ≡ promise }
    {
        let kept = Snapshot::of(&promise);
        if !is_needed {
            line.give_up();
            return Work {
                place: Place::Here { back: work() },
                promise: kept,
            };
        }
        let place = match scope.spawn_with(promise, work) {
            Ok(child) => Place::There { child },
            Err(refused) => {
                line.give_up();
                Place::Here {
                    back: (refused.value)(),
                }
            }
        };
        Work {
            place,
            promise: kept,
        }
    }

    /// Whether a thread does it.
    pub(crate) fn is_there(&self) -> bool {
        match &self.place {
            Place::There { .. } => true,
            Place::Here { .. } => false,
        }
    }

    /// What the work gave.
    pub(crate) fn join<R: Threads>(self, rt: &R) -> T
        ensures { P.kept_by self result }
    {
        let Work { place, promise: _ } = self;
        match place {
            Place::There { child } => child.join(rt),
            Place::Here { back } => back,
        }
    }
}
