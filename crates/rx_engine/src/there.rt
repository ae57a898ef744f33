//! The remote attempt of a session: the tree of what was gathered, and the attempt on it, until its end
//! or what stops it.

ghost use Rattle.std.specs.Prelude.{◌≡◌, IfOk, None};
ghost use Rattle.rx_remote.specs.Actions.{AreNamed};
ghost use Rattle.rx_tree.specs.Refusals.{CanBeBuilt};
ghost use Rattle.rx_engine.specs.RemoteAttempts.{EndsThere, FitsFarm, IsTreeOf};
ghost use Rattle.rx_engine.specs.Attempts.{whole_end};

use crate::attempts::Job;
use crate::ends::hold;
use crate::held::Held;
use rx_base::NoMemory;
use rx_exec_messages::Caller;
use rx_local::Places;
use rx_remote::{RemoteJob, run_remote};
use rx_scan::Gathered;
use rx_tree::{Built, TreeFault, build};
use rx_world::{End, RemoteCause, Sources, Stop, World};
use std::alloc::{AllocError, Global};
use std::sync::Wait;

/// Makes the remote attempt on what was gathered. Want of memory is an end of it, also where its tree
/// can't be built or its outcome can't be kept for that.
pub(crate) fn run_there<W: World, H, N: Places, C: Caller<W>, S: Sources<W>, T: Stop>(
    rt: &impl Wait,
    job: &Job<'_, H, N>,
    farm: &mut C,
    sources: &mut S,
    stop: &mut T,
) -> End<Held, RemoteCause>
    requires fits { FitsFarm job.now.gathered.now }
    requires untold { T.told stop.old ≡ None }
    ensures ended { EndsThere W.World C.Caller S.Sources job.now.gathered.now
        job.now.accept_cached (T.told stop.new)
        farm.old farm.new sources.old sources.new (whole_end result) }
    ensures attempt { T.attempt stop.new ≡ T.attempt stop.old }
{
    let Ok(tree) = tree_of(job.alloc, job.gathered) else {
        return End::Failed {
            cause: RemoteCause::NoMemory,
        };
    };
    let remote = RemoteJob {
        command: &job.gathered.command,
        accept_cached: job.accept_cached,
        tree: &tree,
        files: job.gathered.files.as_slice(),
        presence: job.presence,
    };
    let end = run_remote::<W, C, S, T, _>(rt, job.alloc, &remote, farm, sources, stop);
    hold(job.alloc, end, RemoteCause::NoMemory)
}

/// The tree of what was gathered, of which nothing is to be refused.
fn tree_of(alloc: Global, gathered: &Gathered) -> Result<Built, NoMemory>
    requires { CanBeBuilt gathered.now.files gathered.now.dirs }
    ensures tree { IfOk result (λ tree. IsTreeOf gathered.now tree.root tree.blobs) }
    ensures named { IfOk result (λ tree. AreNamed tree.blobs) }
{
    match build(alloc, gathered.files.as_slice(), gathered.dirs.as_slice()) {
        Ok(tree) => Ok(tree),
        Err(TreeFault::NoMemory) => Err(AllocError),
        Err(_) => unreachable!(),
    }
}
