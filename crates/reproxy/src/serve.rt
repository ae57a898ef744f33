//! A run of the proxy over the machine that serves one request.

ghost use Rattle.std.specs.Prelude.{◌≡◌, ◌≤◌, ◌↔◌, [], IfOk, IfSome, MatchOption, None};
ghost use Rattle.rx_board.specs.Journal.{count_short};
ghost use Rattle.rx_daemon.specs.Proxy.{EndsWhereAsked};
ghost use Rattle.rx_daemon.specs.Words.{root_in};
ghost use Rattle.rx_engine.specs.Meanings.{meanings};
ghost use Rattle.reproxy.specs.Serves.{ServesDesk};

use crate::desk::{Host, HostDesk, HostFront, parts_over};
use crate::halts::HostHalt;
use rx_board::JOURNAL_LIMIT;
use rx_daemon::{Options, Ran, options_in, run_proxy};
use rx_exec_messages::Caller;
use rx_host::{
    Halting, Hands, HostBench, HostBenches, HostFarm, HostPlace, HostSink, HostSource, HostSources,
    HostWorld,
};
use rx_world::{Bench, BenchMaker, Place, Sink, Source, Sources, World};
use std::alloc::AllocError;
use std::io::{Print, Read};
use std::process;

/// The root of the place where the words name none. Nothing is placed there.
const NO_ROOT: &str = "/nonexistent";

/// What a run over the machine hands back.
pub(crate) type HostRan<H, I, O> = Ran<HostWorld, HostFront<H, I, O>, HostPlace<HostRuntime>>;

/// The directory of the place.
fn place_root<'a>(options: &Option<Options<'a>>) -> &'a str {
    match options {
        Some(options) => options.root,
        None => NO_ROOT,
    }
}

/// The one desk, where the words are known.
fn desk_of<H: Hands, I: Read + Drop, O: Print + Drop>(
    host: &Host<H>,
    options: &Option<Options<'_>>,
    seed: [u8; 32],
    input: I,
    output: O,
) -> Result<Option<HostDesk<H, I, O>>, AllocError>
    ensures { IfOk result (λ made. MatchOption made (options.now ≡ None)
        (λ desk. desk.parts.input.input ≡ input)) }
{
    let Some(options) = options else {
        return Ok(None);
    };
    let halting = Halting::new(&host.rt, host.rt.alloc())?;
    let input = HostSource::new(input);
    let output = HostSink::new(output);
    let parts = parts_over(host, options, seed, &halting, input, output)?;
    let halt = HostHalt::new(host.hands, halting);
    Ok(Some(HostDesk { parts, halt }))
}

/// Serves what the words ask for, by one desk over these streams. The names of what is sent to the farm are drawn
/// from `seed`.
pub(crate) fn serve<H: Hands + Send + Sync, I: Read + Send + Drop, O: Print + Send + Drop>(
    host: &Host<H>,
    words: &[String],
    seed: [u8; 32],
    input: I,
    output: O,
) -> Result<HostRan<H, I, O>, AllocError>
    // The status is 2 exactly where the words aren't known, and then no session is served.
    ensures usage { IfOk result (λ ran. ran.status ≡ 2 ↔ (root_in words.now ≡ None)) }
    ensures unused { IfOk result (λ ran.
        root_in words.now ≡ None → ran.transcripts.items ≡ []) }
    // One desk over this input is there, and what was served of it is as a run of the proxy says.
    ensures served { IfOk result (λ ran. IfSome (root_in words.now) (λ root. ServesDesk
        (meanings ⟦<HostWorld as World>⟧ ⟦<HostSource<I> as Source>⟧ ⟦<HostSink<O> as Sink>⟧
        ⟦<HostSources<HostRuntime> as Sources<HostWorld>>⟧
        ⟦<HostSources<HostRuntime> as Sources<HostWorld>>⟧
        ⟦<HostBenches<H> as BenchMaker<HostWorld>>⟧
        ⟦<HostBench<H> as Bench<HostWorld>>⟧
        ⟦<HostSources<HostRuntime> as Sources<HostWorld>>⟧
        ⟦<HostFarm<H> as Caller<HostWorld>>⟧)
        (λ desk. desk.parts) (λ desk. desk.parts.input.input ≡ input) root JOURNAL_LIMIT
        (⟦<HostPlace<HostRuntime> as Place>⟧.faults ran.place)
        ran.front.desk ran.status ran.journal.items ran.desks.items ran.transcripts.items)) }
    // There are at most as many short entries as the output tree had faults.
    ensures short { IfOk result (λ ran. count_short ran.journal.items ≤
        ⟦<HostPlace<HostRuntime> as Place>⟧.faults ran.place) }
    // Where the session was asked to end the run, the status tells of nothing else.
    ensures ended { IfOk result (λ ran. EndsWhereAsked ran.status ran.transcripts.items) }
{
    let (rt, alloc) = (host.rt, host.rt.alloc());
    let options = options_in(words);
    let desk = desk_of(host, &options, seed, input, output)?;
    let root = String::from_str(alloc, place_root(&options))?;
    let place = HostPlace::new(rt, root, process::id(rt.process()));
    Ok(run_proxy::<HostWorld, _, _, _>(&host.hands, alloc, words, HostFront { desk }, place))
}
