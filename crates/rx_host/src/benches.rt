//! The bench maker of the host: fresh directories below a scratch directory.

ghost use Rattle.std.specs.Prelude.{◌≡◌, None, IfOk};

use crate::bench::HostBench;
use crate::children::Children;
use crate::halting::Halting;
use crate::hands::Hands;
use crate::names::FreshNames;
use crate::runs::Runner;
use crate::staged::{Staged, clear, give_up};
use crate::tells::tell;
use crate::world::HostWorld;
use rx_streams::Faults;
use rx_world::{BenchMaker, Failed};
use std::alloc::{AllocError, Global};
use std::fs::{DirBuilder, Files};
use std::io::{Error, ErrorKind};
use std::os::unix::fs::DirBuilderExt;
use std::sync::Arc;
use std::{io, thread};

/// How many names are tried for one directory.
const MAKE_TRIES: u32 = 4096;

/// The directory of a bench that has put more files is removed by a thread of its own. For fewer no thread is started,
/// which isn't free either.
const FEW_FILES: u64 = 32;

/// The owner alone may enter a staged directory.
const STAGED_MODE: u32 = 0o700;

/// Makes staged directories, and removes each with all below it once its bench has come back and no program
/// runs there.
#[derive(Drop)]
pub struct HostBenches<H> {
    rt: HostRuntime,
    hands: H,
    scratch: String,
    names: FreshNames,
    halting: Halting,
    children: Children,
    faults: Faults,
}

impl<H: Hands> HostBenches<H> {
    /// A maker of directories below this one, for the process with this number. What runs there is
    /// halted by `halting`, and counted in `children`.
    pub fn new(
        rt: HostRuntime,
        hands: H,
        scratch: String,
        process: u32,
        halting: Halting,
        children: Children,
    ) -> HostBenches<H> {
        HostBenches {
            rt,
            hands,
            scratch,
            names: FreshNames::new(process),
            halting,
            children,
            faults: Faults::new(),
        }
    }

    /// A bench in a directory that wasn't there.
    fn make_fresh(&mut self) -> io::Result<HostBench<H>>
        ensures bench { IfOk result (λ bench. bench.faults.count ≡ 0) }
        ensures unfailed { IfOk result (λ bench. bench.failed ≡ None) }
        ensures faults { self.new.faults ≡ self.old.faults }
    {
        let halting = self.halting.share()?;
        let children = self.children.share()?;
        let root = make_root(&self.rt, self.scratch.as_str(), &mut self.names)?;
        let staged = Staged::new(&self.rt, root.clone()?);
        let runner = Runner {
            rt: self.rt,
            hands: self.hands,
            staged: Arc::new(self.rt.alloc(), staged).map_err(AllocError::from)?,
            halting,
            children,
        };
        Ok(HostBench::new(root, runner))
    }
}

impl<H: Hands> HostBenches<H> {
    /// Has a thread give up a bench's use of its directory, so that nobody waits until all that is in it is removed.
    fn clear_aside(&self, staged: Arc<Staged, Global>) {
        let rt = self.rt;
        let Ok(children) = self.children.share() else {
            let _ = give_up(&rt, staged);
            return;
        };
        children.begin();
        let clearing = move || clear(rt, staged, children);
        if let Err(refused) = thread::spawn(&self.hands, clearing) {
            (refused.value)();
        }
    }
}

/// Makes a directory that wasn't there, and answers its path.
fn make_root<R: Files + AllocGlobal>(
    rt: &R,
    scratch: &str,
    names: &mut FreshNames,
) -> io::Result<String> {
    let before = format!(in rt.alloc(); "{scratch}/")?;
    for _ in 0..MAKE_TRIES {
        let root = names.next(rt.alloc(), before.as_str())?;
        let made = DirBuilder::new()
            .mode(STAGED_MODE)
            .create(rt, root.as_str());
        match made {
            Ok(()) => return Ok(root),
            Err(error) if error.kind() == ErrorKind::AlreadyExists => {}
            Err(error) => return Err(error),
        }
    }
    Err(Error::from(ErrorKind::AlreadyExists))
}

impl<H: Hands + Send> BenchMaker<HostWorld> for HostBenches<H> {
    type B = HostBench<H>;

    ghost faults = { λ s. s.faults.count };

    ghost returned = { λ s. None };

    fn make(&mut self) -> Result<HostBench<H>, Failed> {
        match self.make_fresh() {
            Ok(bench) => Ok(bench),
            Err(error) => {
                tell(
                    &self.rt,
                    "make a directory in",
                    self.scratch.as_str(),
                    &error,
                );
                Err(self.faults.failed(error))
            }
        }
    }

    fn done(&mut self, bench: HostBench<H>) {
        let faults = bench.faults.count;
        if bench.files > FEW_FILES {
            self.clear_aside(bench.into_staged());
        } else {
            let _ = give_up(&self.rt, bench.into_staged());
        }
        if faults > 0 {
            self.faults.raise();
        }
    }
}
