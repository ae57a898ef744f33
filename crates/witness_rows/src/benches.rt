//! Benches of the Toy world whose calls never fail, and a maker of them. Where memory is wanting, a bench
//! forgets its tree, and from then on each run of it says that memory is wanting.

ghost use Rattle.std.specs.Prelude.{None, Some};
ghost use Rattle.witness_rows.specs.Benches.{tree_in};

use crate::shown::Shown;
use rx_base::{Items, RelPath};
use rx_fakes::{Script, ToyBench};
use rx_world::{Bench, BenchMaker, Command, Contents, Exit, Failed, FileOut, Refused, Toy, Tree};
use std::alloc::Global;

/// A bench in memory, or what it would have if memory hadn't run out.
#[derive(Drop)]
pub enum QuietBench {
    Kept(ToyBench),
    Lost(Shown),
}

impl<K: Contents> Bench<Toy<K>> for QuietBench {
    ghost tree = { λ b. Some (tree_in b) };

    ghost runs = { λ b. None };

    ghost faults = { λ b. 0 };

    ghost failed_at = { λ b. None };

    fn make_dir(&mut self, path: &RelPath) -> Result<(), Failed> {
        match self {
            QuietBench::Kept(bench) => {
                let mut shown = Shown::of(&bench.tree);
                if <ToyBench as Bench<Toy<K>>>::make_dir(bench, path).is_err() {
                    shown.make_dir(path);
                    *self = QuietBench::Lost(shown);
                }
            }
            QuietBench::Lost(shown) => shown.make_dir(path),
        }
        Ok(())
    }

    fn put(
        &mut self,
        path: &RelPath,
        bytes: &[u8],
        executable: bool,
        mark: u128,
    ) -> Result<(), Failed> {
        match self {
            QuietBench::Kept(bench) => {
                let mut shown = Shown::of(&bench.tree);
                if <ToyBench as Bench<Toy<K>>>::put(bench, path, bytes, executable, mark).is_err() {
                    shown.put(path, bytes, executable);
                    *self = QuietBench::Lost(shown);
                }
            }
            QuietBench::Lost(shown) => shown.put(path, bytes, executable),
        }
        Ok(())
    }

    fn run(&mut self, command: &Command) -> Result<Exit, Refused> {
        match self {
            QuietBench::Kept(bench) => {
                match <ToyBench as Bench<Toy<K>>>::run(bench, command) {
                    Ok(exit) => Ok(exit),
                    Err(_) => Err(Refused::NoMemory),
                }
            }
            QuietBench::Lost(_) => Err(Refused::NoMemory),
        }
    }

    fn take(&mut self, path: &RelPath) -> Result<Option<FileOut>, Refused> {
        match self {
            QuietBench::Kept(bench) => {
                match <ToyBench as Bench<Toy<K>>>::take(bench, path) {
                    Ok(file) => Ok(file),
                    Err(_) => Err(Refused::NoMemory),
                }
            }
            QuietBench::Lost(_) => Err(Refused::NoMemory),
        }
    }
}

/// Makes such benches, and keeps none of them.
#[derive(Drop)]
pub struct QuietBenches {
    pub alloc: Global,
}

impl<K: Contents> BenchMaker<Toy<K>> for QuietBenches {
    type B = QuietBench;

    ghost faults = { λ m. 0 };

    ghost returned = { λ m. None };

    fn make(&mut self) -> Result<QuietBench, Failed> {
        Ok(QuietBench::Kept(ToyBench {
            alloc: self.alloc,
            tree: Tree {
                files: Items::new(self.alloc),
                directories: Items::new(self.alloc),
            },
            runs: Items::new(self.alloc),
            script: Script::empty(self.alloc),
            failed: None,
        }))
    }

    fn done(&mut self, bench: QuietBench) {
        let _ = bench;
    }
}
