//! Where a proxy listens.

ghost use Rattle.std.specs.Prelude.{◌≡◌, IfOk};
ghost use Rattle.rx_wrap.specs.Addresses.{address_of};

use crate::numbers::port_in;
use crate::strips::{begins, stripped};
use rx_base::{NoMemory, Text};
use std::alloc::Global;

/// Where a proxy listens on this machine.
#[derive(Debug, Drop)]
pub enum Address {
    /// A socket's file; the path begins with a slash.
    Unix(Text),
    /// A port of 127.0.0.1, not 0.
    Port(u16),
}

/// The address that a text is: `unix://PATH`, where PATH begins with a slash, or `127.0.0.1:PORT`.
#[tactic(auto, unfolding(crate::specs::Addresses::address_of))]
pub(crate) fn address_of(alloc: Global, text: &str) -> Result<Option<Address>, NoMemory>
    ensures { IfOk result (λ address. address ≡ address_of text.now) }
{
    if let Some(path) = stripped("unix://", text) {
        if !begins(path, b"/") {
            return Ok(None);
        }
        return Ok(Some(Address::Unix(Text::copy_of(alloc, path)?)));
    }
    match stripped("127.0.0.1:", text) {
        Some(port) => match port_in(port) {
            Some(port) => Ok(Some(Address::Port(port))),
            None => Ok(None),
        },
        None => Ok(None),
    }
}
