//! Configuration files of the machine.

ghost use Rattle.std.specs.Prelude.{None};

use rx_client::Configs;
use rx_streams::Faults;
use rx_world::Refused;
use std::fs;
use std::fs::Files;
use std::io::Eprint;

/// Reads files. Nothing is told of their bytes. Why one can't be read is told on standard error.
#[derive(Drop)]
pub(crate) struct HostConfigs<R> {
    rt: R,
    faults: Faults,
}

impl<R> HostConfigs<R> {
    pub(crate) fn new(rt: R) -> HostConfigs<R> {
        HostConfigs {
            rt,
            faults: Faults::new(),
        }
    }
}

impl<R: Files + AllocGlobal + Eprint> Configs for HostConfigs<R> {
    ghost held = { λ c path. None };

    ghost faults = { λ c. c.faults.count };

    fn read(&mut self, path: &str) -> Result<Vec<u8>, Refused> {
        match fs::read(&self.rt, path) {
            Ok(bytes) => Ok(bytes),
            Err(error) => {
                let _ = eprintln!(self.rt; "rewrapper: {path}: {error}");
                Err(self.faults.refused(error))
            }
        }
    }
}
