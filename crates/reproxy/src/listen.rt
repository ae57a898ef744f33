//! A run of the proxy over the machine that serves the clients of a socket.

ghost use Rattle.std.specs.Prelude.{◌≡◌, ◌≤◌, ◌↔◌, [], IfOk, IfSome, None};
ghost use Rattle.rx_board.specs.Journal.{count_short};
ghost use Rattle.rx_daemon.specs.Words.{root_in, sessions_in};
ghost use Rattle.rx_engine.specs.Meanings.{meanings};
ghost use Rattle.reproxy.specs.Serves.{IsOfClient, ServesClients};

use crate::clients::ClientFront;
use crate::desk::Host;
use crate::session_words::HostLog;
use rx_board::JOURNAL_LIMIT;
use rx_daemon::{Options, RanInThreads, run_in_threads};
use rx_exec_messages::Caller;
use rx_host::{
    Hands, HostBench, HostBenches, HostFarm, HostListener, HostPlace, HostSources, HostWorld,
    PatientSink, PromptSource,
};
use rx_world::{Bench, BenchMaker, Place, Sink, Source, Sources, World};
use std::alloc::AllocError;
use std::process;

/// Serves the clients that connect, many at once, until no more can.
pub(crate) fn listen<'a, H: Hands + Send + Sync>(
    host: &'a Host<H>,
    words: &[String],
    options: Options<'a>,
    listener: HostListener,
) -> Result<RanInThreads<HostWorld, ClientFront<'a, H>, HostPlace<HostRuntime>>, AllocError>
    // The status is 2 exactly where the words aren't known, and then no session is served.
    ensures usage { IfOk result (λ ran. ran.status ≡ 2 ↔ (root_in words.now ≡ None)) }
    ensures unused { IfOk result (λ ran.
        root_in words.now ≡ None → ran.served.items ≡ []) }
    // Each client that was taken has its own session, and what was done of all of them is as a run of the
    // proxy in threads says.
    ensures served { IfOk result (λ ran. IfSome (root_in words.now) (λ root. ServesClients
        (meanings ⟦<HostWorld as World>⟧ ⟦<PromptSource<HostRuntime> as Source>⟧
        ⟦<PatientSink<H> as Sink>⟧
        ⟦<HostSources<HostRuntime> as Sources<HostWorld>>⟧
        ⟦<HostSources<HostRuntime> as Sources<HostWorld>>⟧
        ⟦<HostBenches<H> as BenchMaker<HostWorld>>⟧
        ⟦<HostBench<H> as Bench<HostWorld>>⟧
        ⟦<HostSources<HostRuntime> as Sources<HostWorld>>⟧
        ⟦<HostFarm<H> as Caller<HostWorld>>⟧)
        (λ desk. desk.parts)
        (λ n desk. IsOfClient n desk.parts.input.client desk.parts.output.client)
        root JOURNAL_LIMIT (⟦<HostPlace<HostRuntime> as Place>⟧.faults ran.place)
        (sessions_in words.now) listener ran.front.listener
        ran.status ran.journal.items ran.served.items)) }
    // There are at most as many short entries as the output tree had faults.
    ensures short { IfOk result (λ ran. count_short ran.journal.items ≤
        ⟦<HostPlace<HostRuntime> as Place>⟧.faults ran.place) }
{
    let (rt, alloc) = (host.rt, host.rt.alloc());
    let root = String::from_str(alloc, options.root)?;
    let place = HostPlace::new(rt, root, process::id(rt.process()));
    let front = ClientFront {
        host,
        listener,
        options,
    };
    let log = HostLog {
        rt,
        farm_share: &host.farm_share,
    };
    Ok(run_in_threads::<HostWorld, _, _, _, _>(&host.hands, alloc, words, front, place, &log))
}
