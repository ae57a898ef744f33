//! A whole remote attempt of a program of this machine, over a connection to a farm.

ghost use Rattle.std.specs.Prelude.{IfOk};
ghost use Rattle.rx_remote.specs.Actions.{AreNamed};

use crate::commands::command;
use rx_base::{Items, RelPath, Text, digest_of};
use rx_blobs::Presence;
use rx_farm_values::write_remote_cause;
use rx_grpc::GrpcCaller;
use rx_host::{Contents, FarmShare, Halting, Hands, HostDial, HostFarm, HostSources, HostWorld};
use rx_remote::{RemoteJob, run_remote};
use rx_row_values::path_of;
use rx_rows::{Answer, RowFault};
use rx_tree::{Built, TreeFault, build};
use rx_world::{Attempt, End, InputFile, Look, Origin, Outcome, RemoteCause, Sources, Unstopped};
use std::alloc::Global;
use std::fs;
use std::sync::atomic::{AtomicBool, Ordering};

/// The most blobs that are remembered as present.
const PRESENT: usize = 1000;

/// The most bytes of an address.
const MOST_ADDRESS: usize = 100;

/// What an attempt is about.
#[derive(Drop)]
pub(crate) struct Job {
    /// The directory of its one input `a`.
    pub(crate) root: String,
    /// The farm's address.
    pub(crate) address: String,
    /// What `a` holds.
    pub(crate) text: Vec<u8>,
    /// Whether a result of the farm's action cache is taken.
    pub(crate) accept_cached: bool,
}

/// How an attempt ends.
pub(crate) type Ended = Result<End<Outcome, RemoteCause>, RowFault>;

/// How an attempt ends. Its connection is closed then.
pub(crate) fn run<H: Hands>(rt: HostRuntime, hands: H, job: &Job) -> Ended {
    let share = FarmShare::new(&rt, rt.alloc())?;
    run_sharing(rt, hands, job, &share)
}

/// How each of two attempts ends, of which the second one goes on on the connection that the first one left, where that serves.
/// The mark is set between both.
pub(crate) fn run_twice<H: Hands>(
    rt: HostRuntime,
    hands: H,
    job: &Job,
    mark: &AtomicBool,
) -> (Ended, Ended) {
    match FarmShare::new(&rt, rt.alloc()) {
        Ok(share) => {
            let first = run_sharing(rt, hands, job, &share);
            mark.store(true, Ordering::SeqCst);
            (first, run_sharing(rt, hands, job, &share))
        }
        Err(_) => (Err(RowFault::NoMemory), Err(RowFault::NoMemory)),
    }
}

/// How an attempt ends. Its connection is left to the next one.
fn run_sharing<H: Hands>(rt: HostRuntime, hands: H, job: &Job, share: &FarmShare) -> Ended {
    let mut farm = client(rt, hands, job.address.as_str(), share)?;
    let end = run_over(rt, &hands, &mut farm, job);
    let _left = farm.hang_up();
    end
}

/// Writes the input, and looks at it. How the attempt on it ends.
fn run_over<H: Hands>(rt: HostRuntime, hands: &H, farm: &mut HostFarm<H>, job: &Job) -> Ended {
    let alloc = rt.alloc();
    let path = format!(in alloc; "{}/a", job.root)?;
    if fs::write(&rt, path.as_str(), job.text.as_slice()).is_err() {
        return Err(RowFault::BadCall);
    }
    let root = String::from_str(alloc, job.root.as_str())?;
    let mut sources = HostSources::new(rt, root, Contents::new(alloc)?);
    let mut files = Items::new(alloc);
    files.push(input(&mut sources, path_of(alloc, "a")?, &job.text)?)?;
    attempt(
        hands,
        alloc,
        farm,
        &mut sources,
        files.as_slice(),
        job.accept_cached,
    )
}

fn attempt<H: Hands>(
    hands: &H,
    alloc: Global,
    farm: &mut HostFarm<H>,
    sources: &mut HostSources<HostRuntime>,
    files: &[InputFile],
    accept_cached: bool,
) -> Ended {
    let tree = tree_of(alloc, files)?;
    let job = RemoteJob {
        command: &command(alloc)?,
        accept_cached,
        tree: &tree,
        files,
        presence: &Presence::new(alloc, PRESENT),
    };
    let mut stop = Unstopped {
        attempt: Attempt::Remote,
    };
    Ok(run_remote::<HostWorld, HostFarm<H>, HostSources<HostRuntime>, Unstopped, _>(
        hands, alloc, &job, farm, sources, &mut stop,
    ))
}

/// A client of the farm at an address. The names of its uploads are drawn from one seed.
fn client<H: Hands>(
    rt: HostRuntime,
    hands: H,
    address: &str,
    share: &FarmShare,
) -> Result<HostFarm<H>, RowFault> {
    let alloc = rt.alloc();
    let authority = Vec::from_slice(alloc, address.as_bytes())?;
    if authority.len() > MOST_ADDRESS {
        return Err(RowFault::BadCall);
    }
    let address = Some(String::from_str(alloc, address)?);
    let dial = HostDial::new(rt, hands, address, Halting::new(&rt, alloc)?).sharing(share.share()?);
    let instance = Text::new(alloc);
    let caller = GrpcCaller::new(alloc, dial, authority, instance, [7; 32]);
    Ok(HostFarm::new(caller))
}

/// The input at a path, as it is looked at.
fn input(
    sources: &mut HostSources<HostRuntime>,
    path: RelPath,
    text: &[u8],
) -> Result<InputFile, RowFault> {
    match sources.look(&path) {
        Ok(Look::File { stamp, executable }) => Ok(InputFile {
            path,
            digest: digest_of(text),
            stamp,
            executable,
        }),
        _ => Err(RowFault::BadCall),
    }
}

/// The tree of these files.
fn tree_of(alloc: Global, files: &[InputFile]) -> Result<Built, RowFault>
    ensures { IfOk result (λ tree. AreNamed tree.blobs) }
{
    match build(alloc, files, &[]) {
        Ok(tree) => Ok(tree),
        Err(TreeFault::NoMemory) => Err(RowFault::NoMemory),
        Err(_) => Err(RowFault::BadCall),
    }
}

/// Writes an end: `Done` with the outcome, or `Failed` with the cause.
pub(crate) fn write_end(
    alloc: Global,
    end: &End<Outcome, RemoteCause>,
    answer: &mut Answer,
) -> Result<(), RowFault> {
    match end {
        End::Done { outcome, origin } => write_done(outcome, *origin, answer),
        End::Failed { cause } => {
            answer.word("Failed")?;
            write_remote_cause(alloc, cause, answer)?;
            Ok(())
        }
    }
}

/// Writes where an outcome comes from, its code and texts, and each file.
fn write_done(outcome: &Outcome, origin: Origin, answer: &mut Answer) -> Result<(), RowFault> {
    answer.word("Done")?;
    answer.value(&origin)?;
    answer.value(&outcome.exit.code)?;
    answer.text(outcome.exit.stdout.as_slice())?;
    answer.text(outcome.exit.stderr.as_slice())?;
    for file in outcome.files.as_slice() {
        answer.text(file.path.as_str().as_bytes())?;
        answer.text(file.bytes.as_slice())?;
    }
    Ok(())
}
