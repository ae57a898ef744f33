//! Source trees and desks, made of their plans.

use crate::benches::MeetingBenches;
use crate::clients::MeetingClient;
use crate::desks::{MeetingDesk, MemoryDesk, ScriptedDesk};
use crate::inputs::MeetingInput;
use crate::meetings::{Hall, Meeting};
use crate::plans::{DeskPlan, Node, Part, PlannedPath, PlannedTree, failing_calls, script_for};
use crate::seats::{Hands, Seat};
use crate::sources::MeetingSources;
use rx_base::{NoMemory, TryClone};
use rx_engine::Parts;
use rx_exec_messages::Script as FarmScript;
use rx_fakes::{Change, MemorySink, MemorySource, MemorySources, SourceEntries, ToyBenches, When};
use rx_world::Dialect;
use std::alloc::Global;
use std::marker::Brand;
use std::sync::Arc;

/// Adds what stands at a path.
fn add_path(
    alloc: Global,
    entries: &mut SourceEntries<Brand>,
    planned: &PlannedPath,
) -> Result<(), NoMemory> {
    let path = planned.path.try_clone(alloc)?;
    match &planned.node {
        Node::File {
            stamp,
            executable,
            bytes,
        } => {
            let bytes = bytes.try_clone(alloc)?;
            entries.add_stamped(path, *stamp, *executable, bytes)
        }
        Node::Dir => entries.add_dir(alloc, path),
        Node::Other => entries.add_other(alloc, path),
    }
}

/// What a tree has.
fn entries_of(
    alloc: Global,
    paths: &[PlannedPath],
    tree: PlannedTree,
) -> Result<SourceEntries<Brand>, NoMemory> {
    let mut entries = SourceEntries::new(alloc);
    for planned in paths {
        if planned.tree == tree {
            add_path(alloc, &mut entries, planned)?;
        }
    }
    Ok(entries)
}

/// What the trees become, where they change.
fn change_of(alloc: Global, plan: &DeskPlan) -> Result<Option<Change<Brand>>, NoMemory> {
    match plan.changes_after {
        None => Ok(None),
        Some(count) => Ok(Some(Change {
            when: When::AfterCalls(count),
            entries: entries_of(alloc, &plan.paths, PlannedTree::Later)?,
        })),
    }
}

fn sources_of(
    alloc: Global,
    plan: &DeskPlan,
    tree: PlannedTree,
    part: Part,
) -> Result<MemorySources<Brand>, NoMemory> {
    let entries = entries_of(alloc, &plan.paths, tree)?;
    let change = change_of(alloc, plan)?;
    let script = script_for(alloc, &plan.failing, part)?;
    Ok(MemorySources::new(alloc, entries, change, script))
}

fn benches_of(alloc: Global, plan: &DeskPlan) -> Result<ToyBenches, NoMemory> {
    let fails = failing_calls(alloc, &plan.failing, Part::Bench)?;
    let script = script_for(alloc, &plan.failing, Part::Benches)?;
    Ok(ToyBenches::new(alloc, fails, script))
}

fn input_of(alloc: Global, plan: &DeskPlan) -> Result<MemorySource, NoMemory> {
    let script = script_for(alloc, &plan.failing, Part::Input)?;
    let mut input = MemorySource::new(plan.input.to_vec(alloc)?, script);
    input.most = plan.input_piece;
    Ok(input)
}

fn output_of(alloc: Global, plan: &DeskPlan) -> Result<MemorySink, NoMemory> {
    let script = script_for(alloc, &plan.failing, Part::Output)?;
    let mut output = MemorySink::new(alloc, script);
    output.most = plan.output_piece;
    Ok(output)
}

/// The tree of an attempt: one of its own, or the one that inputs are gathered from.
fn tree_for(is_apart: bool, own: PlannedTree) -> PlannedTree {
    if is_apart { own } else { PlannedTree::All }
}

/// The trees of the attempts.
#[derive(Drop)]
struct AttemptTrees {
    local: MemorySources<Brand>,
    remote: MemorySources<Brand>,
}

fn attempt_trees(alloc: Global, plan: &DeskPlan) -> Result<AttemptTrees, NoMemory> {
    let local = tree_for(plan.local_apart, PlannedTree::Local);
    let remote = tree_for(plan.remote_apart, PlannedTree::Remote);
    Ok(AttemptTrees {
        local: sources_of(alloc, plan, local, Part::TreeLocal)?,
        remote: sources_of(alloc, plan, remote, Part::TreeRemote)?,
    })
}

/// What a desk has beside its trees.
#[derive(Drop)]
struct Rest {
    input: MemorySource,
    output: MemorySink,
    benches: ToyBenches,
}

fn rest_of(alloc: Global, plan: &DeskPlan) -> Result<Rest, NoMemory> {
    Ok(Rest {
        input: input_of(alloc, plan)?,
        output: output_of(alloc, plan)?,
        benches: benches_of(alloc, plan)?,
    })
}

/// The parts of a plan's desk. Its farm's client answers no call.
fn parts_of(alloc: Global, plan: &DeskPlan) -> Result<MemoryDesk, NoMemory> {
    let rest = rest_of(alloc, plan)?;
    let trees = attempt_trees(alloc, plan)?;
    let tree = sources_of(alloc, plan, PlannedTree::All, Part::Tree)?;
    Ok(Parts {
        input: rest.input,
        output: rest.output,
        tree,
        tree_local: trees.local,
        benches: rest.benches,
        tree_remote: trees.remote,
        farm: FarmScript::new(alloc, Vec::new(alloc), Dialect::New),
    })
}

/// The desk of a plan. Its meeting is the next one in the hall.
pub(crate) fn desk_of<H: Hands>(
    hands: H,
    alloc: Global,
    hall: &Arc<Hall, Global>,
    plan: DeskPlan,
) -> Result<ScriptedDesk<H>, NoMemory> {
    let mut parts = parts_of(alloc, &plan)?;
    parts.farm = FarmScript::new(alloc, plan.lines, Dialect::New);
    let meeting = Meeting::open(&hands, alloc, hall, plan.meeting)?;
    seated(hands, parts, &meeting)
}

/// The desks of a plan that stands for so many. They share one meeting, and their farm's clients answer no call.
pub(crate) fn crowd_of<H: Hands>(
    hands: H,
    alloc: Global,
    hall: &Arc<Hall, Global>,
    plan: DeskPlan,
    count: u64,
) -> Result<Vec<ScriptedDesk<H>>, NoMemory> {
    let mut parts = Vec::new(alloc);
    for _ in 0..count {
        parts.push(parts_of(alloc, &plan)?)?;
    }
    let meeting = Meeting::open(&hands, alloc, hall, plan.meeting)?;
    let mut desks = Vec::new(alloc);
    for own in parts {
        desks.push(seated(hands, own, &meeting)?)?;
    }
    Ok(desks)
}

/// The seats of the parts that may wait, in one meeting.
#[derive(Drop)]
struct Seats<H> {
    input: Seat<H>,
    tree: Seat<H>,
    tree_local: Seat<H>,
    benches: Seat<H>,
    tree_remote: Seat<H>,
    farm: Seat<H>,
}

fn seats_of<H: Hands>(hands: H, meeting: &Arc<Meeting, Global>) -> Result<Seats<H>, NoMemory> {
    Ok(Seats {
        input: Seat::new(hands, meeting, Part::Input)?,
        tree: Seat::new(hands, meeting, Part::Tree)?,
        tree_local: Seat::new(hands, meeting, Part::TreeLocal)?,
        benches: Seat::new(hands, meeting, Part::Benches)?,
        tree_remote: Seat::new(hands, meeting, Part::TreeRemote)?,
        farm: Seat::new(hands, meeting, Part::Farm)?,
    })
}

/// The desk of these parts. Each that may wait has its seat in one meeting.
fn seated<H: Hands>(
    hands: H,
    parts: MemoryDesk,
    meeting: &Arc<Meeting, Global>,
) -> Result<ScriptedDesk<H>, NoMemory> {
    let seats = seats_of(hands, meeting)?;
    Ok(MeetingDesk {
        parts: Parts {
            input: MeetingInput {
                source: parts.input,
                seat: seats.input,
            },
            output: parts.output,
            tree: MeetingSources {
                tree: parts.tree,
                seat: seats.tree,
            },
            tree_local: MeetingSources {
                tree: parts.tree_local,
                seat: seats.tree_local,
            },
            benches: MeetingBenches {
                benches: parts.benches,
                seat: seats.benches,
            },
            tree_remote: MeetingSources {
                tree: parts.tree_remote,
                seat: seats.tree_remote,
            },
            farm: MeetingClient {
                client: parts.farm,
                seat: seats.farm,
            },
        },
    })
}
