//! Work that a thread of its own does, or that is done at once where no thread can be started.

ghost use Rattle.std.specs.Prelude.{◌≡◌};

use std::marker::Model;
use std::snapshot::Snapshot;
use std::thread::{Promise, PromisedHandle, Scope, Threads};

/// Where the work is done.
#[derive(Drop)]
enum Work<T: Drop, P: Promise<T>> {
    InThread { child: PromisedHandle<T, P> },
    Done { value: T },
}

/// Work that was begun, and whose value keeps a promise. It is seen as the promise.
#[derive(Drop)]
pub struct Begun<T: Drop, P: Promise<T>> {
    work: Work<T, P>,
    promise: Snapshot<P>,
}

impl<T: Drop, P: Promise<T>> Model for Begun<T, P> {
    ghost use Rattle.rx_base.specs.Works.{IsWork};

    ghost Value = { P };

    ghost view = { λ b. b.promise.value };

    ghost invariant = { λ b. IsWork P.kept_by b.promise.value b.work };
}

impl<T: Drop, P: Promise<T>> Begun<T, P> {
    /// Begins work in a thread of the scope. Where no thread can be started, the work is done before
    /// this returns. Whatever the work does besides its value, it does once.
    pub fn new<'s, E, F: FnOnce() -> T + Send + 's>(
        scope: &Scope<'s, E>,
        promise: P,
        work: F,
    ) -> Begun<T, P>
    where
        T: Send + 's,
        P: Drop,
        requires runs { F.pre work }
        requires keeps { (value : T) → F.post work value → P.kept_by promise value }
        ensures { result ≡ promise }
    {
        let kept = Snapshot::of(&promise);
        let work = match scope.spawn_with(promise, work) {
            Ok(child) => Work::InThread { child },
            Err(refused) => Work::Done {
                value: (refused.value)(),
            },
        };
        Begun {
            work,
            promise: kept,
        }
    }

    /// The value of the work, for whose end this waits.
    pub fn join<R: Threads>(self, rt: &R) -> T
        ensures { P.kept_by self result }
    {
        let Begun { work, promise: _ } = self;
        match work {
            Work::InThread { child } => child.join(rt),
            Work::Done { value } => value,
        }
    }
}
