//! The desks of `serve`: one for each client that connects.

ghost use Rattle.std.specs.Prelude.{◌≡◌, IfOk, None, false};
ghost use Rattle.reproxy.specs.Serves.{IsOfClient};

use crate::desk::{Host, HostParts, parts_over};
use crate::halts::HostHalt;
use rx_daemon::{Front, Options};
use rx_engine::{Desk, Parts};
use rx_host::{
    Client, Halting, Hands, HostBenches, HostFarm, HostListener, HostSources, HostWorld,
    PatientSink, PromptSource, draw_seed,
};
use rx_world::Failed;
use std::io;

/// The parts of a client's session.
pub(crate) type ClientParts<H> = HostParts<H, PromptSource<HostRuntime>, PatientSink<H>>;

/// The desk of a client. Where it is put together again, at the end of its session, its connection to the client is
/// closed, and the one to the farm is left to the sessions after it.
#[derive(Drop)]
pub(crate) struct ClientDesk<H: Hands> {
    pub(crate) parts: ClientParts<H>,
    pub(crate) halt: HostHalt<H>,
}

impl<H: Hands + Send + Sync> Desk<HostWorld> for ClientDesk<H> {
    type I = PromptSource<HostRuntime>;

    type O = PatientSink<H>;

    type T = HostSources<HostRuntime>;

    type L = HostSources<HostRuntime>;

    type B = HostBenches<H>;

    type R = HostSources<HostRuntime>;

    type C = HostFarm<H>;

    type H = HostHalt<H>;

    ghost parts = { λ desk. desk.parts };

    fn halter(&self) -> HostHalt<H> {
        self.halt.share()
    }

    fn split(self) -> ClientParts<H> {
        self.parts
    }

    fn unite(of: ClientParts<H>) -> ClientDesk<H>
        ensures { result.parts ≡ of }
    {
        let Parts {
            input,
            output,
            tree,
            tree_local,
            benches,
            tree_remote,
            farm,
        } = of;
        ClientDesk {
            parts: Parts {
                input: input.close(),
                output: output.close(),
                tree,
                tree_local,
                benches,
                tree_remote,
                farm: farm.hang_up(),
            },
            halt: HostHalt::of_none(),
        }
    }
}

/// Gives a desk for each client.
#[derive(Drop)]
pub(crate) struct ClientFront<'a, H> {
    pub(crate) host: &'a Host<H>,
    pub(crate) listener: HostListener,
    pub(crate) options: Options<'a>,
}

impl<'a, H: Hands + Send + Sync> Front<HostWorld> for ClientFront<'a, H> {
    type D = ClientDesk<H>;

    ghost coming = { λ f. None };

    ghost given = { λ f. f.listener.accepted };

    // (both directions of the desk are those of one client, whose number is told)
    ghost gives = { λ n desk. IsOfClient n desk.parts.input.client desk.parts.output.client };

    // (clients come as long as the listener doesn't fail)
    ghost over = { λ f. false };

    ghost faults = { λ f. f.listener.faults };

    fn next(&mut self) -> Result<Option<ClientDesk<H>>, Failed> {
        let client = self.listener.accept(&self.host.rt)?;
        match desk_over(self.host, &self.options, client) {
            Ok(desk) => Ok(Some(desk)),
            Err(error) => {
                let _ = eprintln!(self.host.rt; "reproxy: no more clients: {error}");
                Err(self.listener.fail())
            }
        }
    }
}

/// The desk of a client.
fn desk_over<H: Hands>(
    host: &Host<H>,
    options: &Options<'_>,
    client: Client,
) -> io::Result<ClientDesk<H>>
    ensures { IfOk result (λ desk.
        IsOfClient client.number desk.parts.input.client desk.parts.output.client) }
{
    let Client {
        number,
        input,
        output,
        end,
    } = client;
    let seed = draw_seed(&host.rt)?;
    let halting = Halting::new(&host.rt, host.rt.alloc())?;
    halting.keep_client(&host.hands, end);
    let input = PromptSource::new(host.rt, number, input, halting.share()?);
    let output = PatientSink::new(host.rt, host.hands, number, output, host.children.share()?);
    let parts = parts_over(host, options, seed, &halting, input, output)?;
    let halt = HostHalt::new(host.hands, halting);
    Ok(ClientDesk { parts, halt })
}
