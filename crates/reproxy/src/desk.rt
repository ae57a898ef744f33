//! The parts of sessions over the machine, and the one desk of `exec`, over the standard streams.

ghost use Rattle.std.specs.Prelude.{◌≡◌, IfOk, Some, if◌then◌else◌, is_none};
ghost use Rattle.std.specs.Option.{option_to_list};

use crate::farm::farm_for;
use crate::halts::HostHalt;
use rx_daemon::{Front, Options};
use rx_engine::{Desk, Parts};
use rx_host::{
    Children, Contents, FarmShare, Halting, Hands, HostBenches, HostFarm, HostSink, HostSource,
    HostSources, HostWorld,
};
use rx_world::{Failed, Sink, Source};
use std::alloc::AllocError;
use std::io::{Print, Read};
use std::process;

/// What the desks of a run share.
#[derive(Drop)]
pub(crate) struct Host<H> {
    pub(crate) rt: HostRuntime,
    /// Starts threads and waits.
    pub(crate) hands: H,
    /// The programs that run, and the replies that are written, over all sessions.
    pub(crate) children: Children,
    /// Contents of files that sessions read, for those after them.
    pub(crate) contents: Contents,
    /// What sessions share of their farm.
    pub(crate) farm_share: FarmShare,
}

/// The parts of a session over the machine, with these ends of its conversation.
pub(crate) type HostParts<H, I, O> = Parts<
    I,
    O,
    HostSources<HostRuntime>,
    HostSources<HostRuntime>,
    HostBenches<H>,
    HostSources<HostRuntime>,
    HostFarm<H>,
>;

/// The files of the served root.
fn sources_over<H>(
    host: &Host<H>,
    options: &Options<'_>,
) -> Result<HostSources<HostRuntime>, AllocError> {
    let root = String::from_str(host.rt.alloc(), options.root)?;
    Ok(HostSources::new(host.rt, root, host.contents.share()?))
}

/// The parts of a session with these ends, whose waits are ended by `halting`.
pub(crate) fn parts_over<H: Hands, I: Source + Drop, O: Sink + Drop>(
    host: &Host<H>,
    options: &Options<'_>,
    seed: [u8; 32],
    halting: &Halting,
    input: I,
    output: O,
) -> Result<HostParts<H, I, O>, AllocError>
    ensures input { IfOk result (λ parts. parts.input ≡ input) }
    ensures output { IfOk result (λ parts. parts.output ≡ output) }
{
    let (rt, hands) = (host.rt, host.hands);
    let alloc = rt.alloc();
    let process = process::id(rt.process());
    let children = host.children.share()?;
    let scratch = String::from_str(alloc, options.scratch)?;
    Ok(Parts {
        input,
        output,
        tree: sources_over(host, options)?,
        tree_local: sources_over(host, options)?,
        benches: HostBenches::new(rt, hands, scratch, process, halting.share()?, children),
        tree_remote: sources_over(host, options)?,
        farm: farm_for(host, options, seed, halting.share()?)?,
    })
}

/// The one desk of `exec`. What comes in by a reader can't be halted: a client that may cancel is waited for until its
/// input ends or says something.
#[derive(Drop)]
pub(crate) struct HostDesk<H: Hands, I, O> {
    pub(crate) parts: HostParts<H, HostSource<I>, HostSink<O>>,
    pub(crate) halt: HostHalt<H>,
}

impl<H: Hands + Send + Sync, I: Read + Send + Drop, O: Print + Send + Drop> Desk<HostWorld>
    for HostDesk<H, I, O> {
    type I = HostSource<I>;

    type O = HostSink<O>;

    type T = HostSources<HostRuntime>;

    type L = HostSources<HostRuntime>;

    type B = HostBenches<H>;

    type R = HostSources<HostRuntime>;

    type C = HostFarm<H>;

    type H = HostHalt<H>;

    ghost parts = { λ desk. desk.parts };

    fn halter(&self) -> HostHalt<H> {
        self.halt.share()
    }

    fn split(self) -> HostParts<H, HostSource<I>, HostSink<O>> {
        self.parts
    }

    fn unite(of: HostParts<H, HostSource<I>, HostSink<O>>) -> HostDesk<H, I, O>
        ensures { result.parts ≡ of }
    {
        HostDesk {
            parts: of,
            halt: HostHalt::of_none(),
        }
    }
}

/// Gives its desk, if it has one, and then no more. It never fails.
#[derive(Drop)]
pub(crate) struct HostFront<H: Hands, I, O> {
    pub(crate) desk: Option<HostDesk<H, I, O>>,
}

impl<H: Hands + Send + Sync, I: Read + Send + Drop, O: Print + Send + Drop> Front<HostWorld>
    for HostFront<H, I, O> {
    type D = HostDesk<H, I, O>;

    ghost coming = { λ f. Some (option_to_list f.desk) };

    ghost given = { λ f. if is_none f.desk then 1 else 0 };

    ghost gives = { λ n desk. Unit {0} };

    ghost over = { λ f. is_none f.desk };

    ghost faults = { λ f. 0 };

    fn next(&mut self) -> Result<Option<HostDesk<H, I, O>>, Failed> {
        Ok(self.desk.take())
    }
}
