//! The farm's client of a desk, by the command line.

use crate::desk::Host;
use rx_base::Text;
use rx_daemon::Options;
use rx_grpc::GrpcCaller;
use rx_host::{FarmLimits, Halting, Hands, HostDial, HostFarm};
use std::alloc::AllocError;

/// The most bytes that the name of a farm may have.
const MOST_AUTHORITY: usize = 4_294_967_295;

/// A client of the farm that the options name, or of none: then each of its calls is a fault. The names of its
/// uploads are drawn from `seed`. It is halted by `halting`.
pub(crate) fn farm_for<H: Hands>(
    host: &Host<H>,
    options: &Options<'_>,
    seed: [u8; 32],
    halting: Halting,
) -> Result<HostFarm<H>, AllocError> {
    let alloc = host.rt.alloc();
    let address = match options.remote {
        Some(address) => Some(String::from_str(alloc, address)?),
        None => None,
    };
    let authority = Vec::from_slice(alloc, options.remote.unwrap_or("").as_bytes())?;
    if authority.len() > MOST_AUTHORITY {
        return Err(AllocError);
    }
    let name = options.instance;
    let (Ok(instance), Ok(probed)) = (Text::copy_of(alloc, name), Text::copy_of(alloc, name)) else {
        return Err(AllocError);
    };
    let limits = FarmLimits {
        call: options.call_timeout,
        silence: options.farm_silence,
    };
    let dial = HostDial::new(host.rt, host.hands, address, halting)
        .sharing(host.farm_share.share()?)
        .within(limits)
        .probing(probed)?;
    Ok(HostFarm::new(GrpcCaller::new(alloc, dial, authority, instance, seed)))
}
