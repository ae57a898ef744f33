//! A directory with all below it (`remote_execution.proto`, Tree).

ghost use Rattle.std.specs.Prelude.{◌≡◌, IfOk};
ghost use Rattle.rx_base.specs.Texts.{texts as slices};
ghost use Rattle.rx_messages.specs.Trees.{each_has_one_form, root_has_one_form};

use crate::directories::Directory;
use crate::numbers::tree;
use rx_base::{Items, NoMemory};
use rx_codec::{
    FieldList, Message, MessageFault, Shape, Writer, check_message, chunks_of, join, read_fields,
};
use rx_wire::{Fields, Value, WireFault};
use std::alloc::Global;

/// A directory with all below it, each Directory in its one form.
#[derive(Debug, Drop)]
pub struct Tree {
    pub root: Option<Directory>,
    pub children: Items<Directory>,
}

impl Shape for Tree {
    ghost use Rattle.rx_messages.specs.Trees.{tree_parts};

    ghost parts = { tree_parts };
}

impl Message for Tree {
    ghost use Rattle.rx_messages.specs.Trees.{tree_fields, tree_from, tree_has_one_form, tree_is_readable};

    ghost fields = { tree_fields };

    ghost from = { tree_from };

    ghost is_canonical = { tree_has_one_form };

    ghost IsReadable = { tree_is_readable };

    #[tactic(auto, unfolding(rx_codec::specs::Parts::part_checked))]
    fn check_field(number: u32, value: Value<'_>, read: &Fields<'_>) -> Result<(), WireFault> {
        match number {
            tree::ROOT | tree::CHILDREN => check_message::<Directory>(number, value, read),
            _ => Ok(()),
        }
    }

    #[tactic(auto, unfolding(crate::specs::Trees::tree_from))]
    fn from_fields(alloc: Global, list: &FieldList<'_, Tree>) -> Result<Tree, MessageFault> {
        let root = list.message(alloc, tree::ROOT)?;
        let children = list.messages(alloc, tree::CHILDREN)?;
        Ok(Tree { root, children })
    }

    #[tactic(auto, unfolding(crate::specs::Trees::tree_fields))]
    fn write(&self, alloc: Global, out: &mut Writer<Tree>) -> Result<(), NoMemory> {
        out.message(alloc, tree::ROOT, &self.root)?;
        out.messages(alloc, tree::CHILDREN, &self.children)
    }

    #[tactic(auto, unfolding(crate::specs::Trees::tree_has_one_form))]
    fn has_one_form(&self, alloc: Global, bytes: &[u8]) -> Result<bool, NoMemory> {
        let fields = read_fields(alloc, bytes)?;
        let pieces = chunks_of(alloc, &fields, 1)?;
        if !root_has_one_form(alloc, &pieces, &self.root)? {
            return Ok(false);
        }
        let pieces = chunks_of(alloc, &fields, 2)?;
        each_has_one_form(alloc, &pieces, self.children.as_slice())
    }
}

/// Whether the Directory of these pieces is in its one form.
#[tactic(auto, unfolding(crate::specs::Trees::root_has_one_form))]
fn root_has_one_form(
    alloc: Global,
    pieces: &[&[u8]],
    root: &Option<Directory>,
) -> Result<bool, NoMemory>
    ensures { IfOk result (λ one. one ≡ root_has_one_form (slices pieces.now) root.now) }
{
    match root {
        None => Ok(true),
        Some(directory) => directory.has_one_form(alloc, &join(alloc, pieces)?),
    }
}

/// Whether each Directory is in the one form, which its piece has to be.
#[tactic(auto, unfolding(crate::specs::Trees::each_has_one_form))]
fn each_has_one_form(
    alloc: Global,
    pieces: &[&[u8]],
    directories: &[Directory],
) -> Result<bool, NoMemory>
    ensures { IfOk result (λ one. one ≡ each_has_one_form (slices pieces.now) directories.now) }
{
    for i in 0..pieces.len() {
        let Some(directory) = directories.get(i) else {
            return Ok(true);
        };
        if !directory.has_one_form(alloc, pieces[i])? {
            return Ok(false);
        }
    }
    Ok(true)
}
