//! A maker of benches of the Toy world.

ghost use Rattle.std.specs.Prelude.{◌≡◌, [], None, Some};
ghost use Rattle.rx_world.specs.Benches.{Returns};

use crate::{Script, ToyBench};
use rx_base::Items;
use rx_world::{BenchMaker, Contents, Failed, Toy, Tree};
use std::alloc::Global;

/// Makes benches, and keeps those that came back.
#[derive(Drop)]
pub struct ToyBenches {
    pub alloc: Global,
    /// Which calls on each bench fail.
    pub fails: Vec<u64>,
    /// The benches that came back, in order. None from the first on that memory was wanting to keep.
    pub returned: Option<Items<ToyBench>>,
    pub script: Script,
}

impl ToyBenches {
    /// A maker to which no bench came back, and on whose benches these calls fail.
    pub fn new(alloc: Global, fails: Vec<u64>, script: Script) -> ToyBenches
        ensures fails { result.fails ≡ fails }
        ensures returned { result.returned ≡ Some [] }
        ensures script { result.script ≡ script }
    {
        ToyBenches {
            alloc,
            fails,
            returned: Some(Items::new(alloc)),
            script,
        }
    }
}

impl<K: Contents> BenchMaker<Toy<K>> for ToyBenches {
    type B = ToyBench;

    ghost faults = { λ m. m.script.faults };

    ghost returned = { λ m. m.returned };

    fn make(&mut self) -> Result<ToyBench, Failed> {
        self.script.call()?;
        match self.fails.to_vec(self.alloc) {
            Ok(fails) => Ok(ToyBench {
                alloc: self.alloc,
                tree: Tree {
                    files: Items::new(self.alloc),
                    directories: Items::new(self.alloc),
                },
                runs: Items::new(self.alloc),
                script: Script::new(fails),
                failed: None,
            }),
            Err(_) => Err(self.script.fault()),
        }
    }

    fn done(&mut self, bench: ToyBench) {
        if bench.script.faults > 0 {
            self.script.fault();
        }
        self.returned = keep_bench(self.returned.take(), bench);
    }
}

/// The benches that came back before, and this one. None where one of them couldn't be kept.
fn keep_bench(returned: Option<Items<ToyBench>>, bench: ToyBench) -> Option<Items<ToyBench>>
    ensures { Returns returned result bench }
{
    let mut benches = returned?;
    match benches.push(bench) {
        Ok(()) => Some(benches),
        Err(_) => None,
    }
}
