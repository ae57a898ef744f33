//! What a session owns.

ghost use Rattle.std.specs.Prelude.{◌≡◌};
ghost use Rattle.rx_engine.specs.declared.desk.Parts.{Parts};

use crate::halts::{Halt, NoHalt};
use rx_exec_messages::Caller;
use rx_world::{BenchMaker, Sink, Source, Sources, World};

/// The parts of a desk. They are a desk themselves.
#[derive(Drop)]
pub struct Parts<I, O, T, L, B, R, C> {
    /// Where the request comes from.
    pub input: I,
    /// Where the reply goes.
    pub output: O,
    /// The source tree that inputs are gathered from.
    pub tree: T,
    /// The source tree that local attempts read. It may be another view of the same files.
    pub tree_local: L,
    /// Where local attempts run.
    pub benches: B,
    /// The source tree that remote attempts read, another view like that of the local ones.
    pub tree_remote: R,
    /// The client by which remote attempts ask the farm.
    pub farm: C,
}

/// What one session owns. It is taken apart as the session begins and put together at its end.
pub trait Desk<W: World>: Sized {
    type I: Source + Send + Drop;

    type O: Sink + Send;

    type T: Sources<W> + Send;

    type L: Sources<W> + Send + Drop;

    type B: BenchMaker<W> + Send + Drop;

    type R: Sources<W> + Send + Drop;

    type C: Caller<W> + Send + Drop;

    type H: Halt + Send + Sync + Drop;

    /// The parts.
    ghost parts: { Self → Parts Self.I Self.O Self.T Self.L Self.B Self.R Self.C };

    /// What ends an attempt of the session early.
    fn halter(&self) -> Self::H;

    fn split(self) -> Parts<Self::I, Self::O, Self::T, Self::L, Self::B, Self::R, Self::C>
        ensures { result ≡ parts self };

    fn unite(of: Parts<Self::I, Self::O, Self::T, Self::L, Self::B, Self::R, Self::C>) -> Self
        ensures { parts result ≡ of };
}

impl<
    W: World,
    I: Source + Send + Drop,
    O: Sink + Send,
    T: Sources<W> + Send,
    L: Sources<W> + Send + Drop,
    B: BenchMaker<W> + Send + Drop,
    R: Sources<W> + Send + Drop,
    C: Caller<W> + Send + Drop,
> Desk<W> for Parts<I, O, T, L, B, R, C> {
    type I = I;

    type O = O;

    type T = T;

    type L = L;

    type B = B;

    type R = R;

    type C = C;

    type H = NoHalt;

    ghost parts = { λ parts. parts };

    fn halter(&self) -> NoHalt {
        NoHalt
    }

    fn split(self) -> Parts<I, O, T, L, B, R, C> {
        self
    }

    fn unite(of: Parts<I, O, T, L, B, R, C>) -> Parts<I, O, T, L, B, R, C>
        ensures { result ≡ of }
    {
        of
    }
}
