//! What is asked of the proxy.

use crate::addresses::Address;
use rx_session::Request;

/// What is asked of the proxy at an address.
#[derive(Debug, Drop)]
pub struct Asked {
    pub address: Address,
    pub errand: Errand,
}

/// What the proxy is to do.
#[derive(Debug, Drop)]
pub enum Errand {
    Run(Request),
    ShutDown,
}
