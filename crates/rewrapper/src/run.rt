//! A client over the machine.

ghost use Rattle.std.specs.Prelude.{◌≡◌};
ghost use Rattle.rx_world.specs.Causes.{Rose};
ghost use Rattle.rx_client.specs.Answering.{status_of};
ghost use Rattle.rx_client.specs.Said.{said};
ghost use Rattle.rx_client.specs.Wrapping.{Wraps, course};
ghost use Rattle.rx_client.specs.declared.answers.Answer.TheVariants.{Config as config_lost, Conversation as no_conversation};

use crate::configs::HostConfigs;
use crate::connect::HostConnect;
use crate::machine::HostMachine;
use rx_client::{Configs, Connect, Invocation, Machine, Standard, Wrapped, wrap};
use rx_streams::{HostSink, SocketSink, SocketSource};
use rx_world::{Sink, Source};
use std::alloc::Global;
use std::io::Print;

/// Does what the client was called for, over the files, sockets and programs of the machine and
/// over these streams.
pub(crate) fn run<O: Print, E: Print>(
    alloc: Global,
    invocation: &Invocation<'_>,
    configs: &mut HostConfigs<HostRuntime>,
    connect: &mut HostConnect<HostRuntime>,
    machine: &mut HostMachine<HostRuntime>,
    standard: &mut Standard<HostSink<O>, HostSink<E>>,
) -> Wrapped
    ensures status { result.status ≡ status_of result.answer }
    // What was asked for was said to the proxy, what was heard is told, and the answer says which.
    ensures wraps { Wraps ⟦<SocketSource as Source>⟧ ⟦<SocketSink as Sink>⟧
        (⟦<HostConfigs<HostRuntime> as Configs>⟧.held configs.old)
        (⟦<HostMachine<HostRuntime> as Machine>⟧.resolved machine.old) invocation.now
        (course ⟦<HostConnect<HostRuntime> as Connect>⟧ ⟦<HostMachine<HostRuntime> as Machine>⟧
        connect.old connect.new machine.old machine.new)
        (said ⟦<HostSink<O> as Sink>⟧ standard.old.out standard.new.out)
        (said ⟦<HostSink<E> as Sink>⟧ standard.old.err standard.new.err) result.answer }
    ensures config { result.answer ≡ config_lost → Rose
        (⟦<HostConfigs<HostRuntime> as Configs>⟧.faults configs.old)
        (⟦<HostConfigs<HostRuntime> as Configs>⟧.faults configs.new) }
    ensures conversation { result.answer ≡ no_conversation → Rose
        (⟦<HostConnect<HostRuntime> as Connect>⟧.faults connect.old)
        (⟦<HostConnect<HostRuntime> as Connect>⟧.faults connect.new) }
{
    wrap(alloc, invocation, configs, connect, machine, standard)
}
