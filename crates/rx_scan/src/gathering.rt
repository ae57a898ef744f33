//! The top of the crate: all that a command runs on, gathered from a source tree.

ghost use Rattle.std.specs.Prelude.{◌≡◌, ◌≢◌, ℕ, All, IfErr, IfOk, IfSome, List, None, OnOk, Some};
ghost use Rattle.rx_world.specs.declared.refusals.LocalCause.TheVariants.{Word as word_cause};
ghost use Rattle.rx_scan.specs.declared.gather_fault.GatherFault.TheVariants.{NoMemory as no_memory, NotRemotable as not_remotable};
ghost use Rattle.rx_reach.specs.Explored.{HaveDigests};
ghost use Rattle.rx_scan.specs.Digests.{IsAsListed};
ghost use Rattle.rx_scan.specs.Gathering.{Gathers, IsOrderly, asked_for};
ghost use Rattle.rx_scan.specs.Plans.{local_plan};

use crate::digests::with_digests;
use crate::gather_fault::GatherFault;
use crate::input_trees::{cause_of, take_tree};
use crate::plans::{Choice, local_plan};
use crate::scanned::scan;
use crate::words::{read_words, with_outputs, word_of};
use rx_base::{Items, RelPath, Text, TryClone};
use rx_digest_cache::DigestCache;
use rx_reach::Sights;
use rx_world::{Command, Found, InputFile, Kind, LocalCause, Plan, Sources, World};
use std::alloc::Global;
use std::sync::Wait;

/// What a command runs on.
#[derive(Debug, Drop)]
pub struct Gathered {
    /// The command, with the outputs that its words name.
    pub command: Command,
    /// Each path that was looked at with its first look, in the order of the paths.
    pub view: Items<Found>,
    /// The files of its input tree, in the order of their paths.
    pub files: Items<InputFile>,
    /// The directories that its input tree has beside those of its files: the working directory, the
    /// declared directories without files, and those that the name of an include passes and leaves
    /// again. In order, without the root.
    pub dirs: Items<RelPath>,
    /// Which attempts are made of it.
    pub plan: Plan,
}

/// Gathers what a command with these declared inputs, which are sorted, runs on.
///
/// A tool runs on its declared inputs: a directory stands for the files below it. A compile command
/// runs on these and on each file that its includes can reach, in whichever branch. One that has a
/// word that isn't a compile word, or reaches a file whose includes can't be followed, runs on all
/// that the source tree lists but its outputs, and on this machine alone.
///
/// Refused, in this order: a word that keeps a command here which has no plan then, since it is to
/// run remotely or its client runs it; a declared input at which there is nothing; the limits of a
/// scan; a path that keeps such a command here; the limits of a whole list; a file above another one,
/// which counts as changed; what stands in the way of the working directory or of an output. A fault
/// of the source tree, and a path that was seen in two ways, are refused where they are met.
pub fn gather<W: World, S: Sources<W>>(
    rt: &impl Wait,
    alloc: Global,
    command: &Command,
    kind: Kind,
    inputs: &[RelPath],
    choice: Choice,
    sources: &mut S,
    cache: &DigestCache<W>,
) -> Result<Gathered, GatherFault>
    // By what the source tree told this is what the command runs on, or why not.
    ensures gathered { Gathers W.World S.Sources sources.old sources.new
        (asked_for command.now kind inputs.now choice) result }
    // It can be staged, whatever the source tree told.
    ensures orderly { IfOk result
        (IsOrderly (asked_for command.now kind inputs.now choice)) }
    ensures digests { IfOk result (λ gathered. W.stamps_honest →
        HaveDigests W.content gathered.files) }
    // Of a source tree that tells its paths and keeps them, each file is as it is listed.
    ensures listed { IfOk result (λ gathered. W.stamps_honest → S.keeps sources.old →
        IfSome (S.listed sources.old) (λ entries. All (IsAsListed entries) gathered.files)) }
{
    let meaning = read_words(alloc, command, kind, inputs)?;
    refuse_word(alloc, choice, &meaning.word)?;
    let command = with_outputs(alloc, command, meaning.outputs.as_slice())?;
    let mut sights = Sights::new(alloc);
    let scanned = scan(rt, alloc, sources, &mut sights, cache, inputs, &meaning)?;
    let cause = cause_of(word_of(meaning), scanned.hard);
    let tree = take_tree::<W, S>(
        alloc,
        sources,
        &mut sights,
        &command,
        choice,
        cause,
        scanned.files,
        scanned.dirs,
    )?;
    let files = with_digests(
        rt,
        alloc,
        sources,
        &mut sights,
        cache,
        tree.files.as_slice(),
        scanned.known.as_slice(),
    )?;
    let view = sights.into_view(alloc)?;
    Ok(Gathered {
        command,
        view,
        files,
        dirs: tree.dirs,
        plan: tree.plan,
    })
}

/// Refuses a command that a word keeps here, and that has no plan then.
fn refuse_word(alloc: Global, choice: Choice, word: &Option<Text>) -> Result<(), GatherFault>
    ensures ok { OnOk result ((text : List ℕ) → word.now ≡ Some text → local_plan choice ≢ None) }
    ensures err { IfErr result (λ fault. fault ≢ no_memory → (text : List ℕ)
        × (word.now ≡ Some text) × (fault ≡ not_remotable (word_cause text))
        × (local_plan choice ≡ None)) }
{
    match word {
        Some(word) => match local_plan(choice) {
            Some(_) => Ok(()),
            None => Err(GatherFault::NotRemotable {
                cause: LocalCause::Word {
                    word: word.try_clone(alloc)?,
                },
            }),
        },
        None => Ok(()),
    }
}
