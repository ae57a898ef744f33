//! Why nothing was measured.

use rx_action::ActionFault;
use rx_base::PathFault;
use rx_h2conn::ConnFault;
use rx_hpack::HpackFault;
use rx_scan::GatherFault;
use rx_tree::TreeFault;
use rx_world::CallFault;
use std::alloc::{AllocError, AllocFailed};
use std::io;
use thiserror::Error;

#[derive(Debug, Drop, Error)]
pub enum Fault {
    /// The words that are taken.
    #[error("usage: bench {0}")]
    Words(&'static str),
    /// A text is not read, or an output fails.
    #[error("{0}")]
    Texts(io::Error),
    #[error("no such work")]
    NoSuchWork,
    #[error("the connection is refused")]
    Conn,
    #[error("the header block is refused")]
    Block,
    #[error("a path is refused")]
    Path,
    #[error("the list is refused")]
    Tree,
    #[error("the command is refused")]
    Command,
    #[error("the farm: {0}")]
    Farm(CallFault),
    #[error("the clock or an output failed")]
    Io,
    #[error("out of memory")]
    NoMemory,
}

impl From<ConnFault> for Fault {
    fn from(_fault: ConnFault) -> Fault {
        Fault::Conn
    }
}

impl From<HpackFault> for Fault {
    fn from(_fault: HpackFault) -> Fault {
        Fault::Block
    }
}

impl From<PathFault> for Fault {
    fn from(_fault: PathFault) -> Fault {
        Fault::Path
    }
}

impl From<TreeFault> for Fault {
    fn from(_fault: TreeFault) -> Fault {
        Fault::Tree
    }
}

impl From<ActionFault> for Fault {
    fn from(_fault: ActionFault) -> Fault {
        Fault::Command
    }
}

impl From<GatherFault> for Fault {
    fn from(_fault: GatherFault) -> Fault {
        Fault::Command
    }
}

impl From<CallFault> for Fault {
    fn from(fault: CallFault) -> Fault {
        Fault::Farm(fault)
    }
}

impl From<io::Error> for Fault {
    fn from(_error: io::Error) -> Fault {
        Fault::Io
    }
}

impl From<AllocError> for Fault {
    fn from(_error: AllocError) -> Fault {
        Fault::NoMemory
    }
}

impl<T: Drop> From<AllocFailed<T>> for Fault {
    fn from(_error: AllocFailed<T>) -> Fault {
        Fault::NoMemory
    }
}
