//! What rows say of a run before it begins. A plan is data alone, so that a run can be made of it.

ghost use Rattle.std.specs.Prelude.{◌≡◌, IfOk};

use crate::meetings::MeetingPlan;
use rx_base::{Bytes, NoMemory, RelPath};
use rx_exec_messages::ScriptLine;
use rx_fakes::Script;
use rx_world::Stamp;
use std::alloc::Global;

/// What stands at a path.
#[derive(Debug, Drop)]
pub(crate) enum Node {
    File {
        stamp: Stamp,
        executable: bool,
        bytes: Bytes,
    },
    Dir,
    /// Neither a file nor a directory.
    Other,
}

/// The source trees of a desk: which of them has a path.
#[derive(Clone, Copy, Debug, PartialEq, Eq)]
pub(crate) enum PlannedTree {
    /// Each of them, unless it is another one.
    All,
    /// The one that the local attempt reads, where it is another one.
    Local,
    /// The one that the remote attempt reads, where it is another one.
    Remote,
    /// What each becomes after some calls on it.
    Later,
}

/// A path of a source tree.
#[derive(Debug, Drop)]
pub(crate) struct PlannedPath {
    pub tree: PlannedTree,
    pub path: RelPath,
    pub node: Node,
}

/// What is made of calls that may fail.
#[derive(Clone, Copy, Debug, PartialEq, Eq)]
pub(crate) enum Part {
    Input,
    Output,
    Tree,
    TreeLocal,
    TreeRemote,
    /// The bench maker.
    Benches,
    /// Each bench.
    Bench,
    /// The farm's client.
    Farm,
    Place,
    Front,
}

/// A call that fails, by its number from 1 on.
#[derive(Clone, Copy, Debug)]
pub(crate) struct FailingCall {
    pub part: Part,
    pub number: u64,
}

/// A desk, and the trees and the farm behind it.
#[derive(Drop)]
pub(crate) struct DeskPlan {
    /// The bytes that come in.
    pub input: Vec<u8>,
    pub paths: Vec<PlannedPath>,
    /// Where a path goes that the next row names.
    pub filling: PlannedTree,
    /// Whether the local attempt reads a tree of its own.
    pub local_apart: bool,
    /// Whether the remote attempt reads a tree of its own.
    pub remote_apart: bool,
    /// After how many calls each tree changes.
    pub changes_after: Option<u64>,
    pub failing: Vec<FailingCall>,
    /// How many bytes a call on the input gives, and one on the output takes, at most.
    pub input_piece: usize,
    pub output_piece: usize,
    /// What the farm's client answers, call by call.
    pub lines: Vec<ScriptLine>,
    /// Which calls wait for others, and what benches and memory lack.
    pub meeting: MeetingPlan,
}

impl DeskPlan {
    /// No byte comes in, nothing stands in the trees, and the farm answers nothing.
    pub(crate) fn new(alloc: Global) -> DeskPlan {
        DeskPlan {
            input: Vec::new(alloc),
            paths: Vec::new(alloc),
            filling: PlannedTree::All,
            local_apart: false,
            remote_apart: false,
            changes_after: None,
            failing: Vec::new(alloc),
            input_piece: usize::MAX,
            output_piece: usize::MAX,
            lines: Vec::new(alloc),
            meeting: MeetingPlan::new(alloc),
        }
    }
}

/// The numbers of a part's calls that fail.
pub(crate) fn failing_calls(
    alloc: Global,
    failing: &[FailingCall],
    part: Part,
) -> Result<Vec<u64>, NoMemory> {
    let mut numbers = Vec::new(alloc);
    for call in failing {
        if call.part == part {
            numbers.push(call.number)?;
        }
    }
    Ok(numbers)
}

/// The script of a part.
pub(crate) fn script_for(
    alloc: Global,
    failing: &[FailingCall],
    part: Part,
) -> Result<Script, NoMemory>
    ensures { IfOk result (λ script. script.faults ≡ 0) }
{
    Ok(Script::new(failing_calls(alloc, failing, part)?))
}
