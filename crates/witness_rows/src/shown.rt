//! Trees that contracts alone see.

ghost use Rattle.std.specs.Prelude.{◌≡◌};
ghost use Rattle.rx_world.specs.Trees.{tree_with_directory, tree_with_file};
ghost use Rattle.witness_rows.specs.Shown.{with_steps};

use crate::trace::Trace;
use rx_base::RelPath;
use rx_world::Tree;
use std::marker::Model;
use std::snapshot::Snapshot;

/// What is put into a tree.
#[derive(Drop)]
pub enum Step {
    Dir(Snapshot<RelPath>),
    File(Snapshot<RelPath>, Trace<u8>, bool),
}

/// A tree with what was put into it since it was shown. It takes no memory, and holds none of it.
#[derive(Drop)]
pub struct Shown {
    pub(crate) base: Snapshot<Tree>,
    pub(crate) steps: Trace<Step>,
}

impl Shown {
    /// This tree.
    pub(crate) fn of(tree: &Tree) -> Shown
        ensures { with_steps result.steps result.base.value ≡ tree.now }
    {
        Shown {
            base: Snapshot::of(tree),
            steps: Trace::new(),
        }
    }

    /// Shows one more directory.
    #[tactic(auto, using(crate::proofs::ShownLemmas::one_more))]
    pub(crate) fn make_dir(&mut self, path: &RelPath)
        ensures { with_steps self.new.steps self.new.base.value
            ≡ tree_with_directory path.now (with_steps self.old.steps self.old.base.value) }
    {
        self.steps.push(&Step::Dir(Snapshot::of(path)));
    }

    /// Shows one more file.
    #[tactic(auto, using(crate::proofs::ShownLemmas::one_more))]
    pub(crate) fn put(&mut self, path: &RelPath, bytes: &[u8], executable: bool)
        ensures { with_steps self.new.steps self.new.base.value ≡ tree_with_file
            (record { path = path.now; bytes = bytes.now; executable = executable })
            (with_steps self.old.steps self.old.base.value) }
    {
        let bytes = Trace::of(bytes);
        self.steps
            .push(&Step::File(Snapshot::of(path), bytes, executable));
    }
}
