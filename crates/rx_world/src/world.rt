//! What the outside means.

ghost use Rattle.std.specs.Prelude.{◌≡◌, ℕ, List};
ghost use Rattle.rx_base.specs.declared.digests.Digest.{Digest};
ghost use Rattle.rx_world.specs.declared.commands.Command.{Command};
ghost use Rattle.rx_world.specs.declared.looks.Stamp.{Stamp};
ghost use Rattle.rx_world.specs.declared.outcomes.Outcome.{Outcome};
ghost use Rattle.rx_world.specs.declared.trees.Tree.{Tree};
ghost use Rattle.rx_world.specs.Trees.{with_parents};

/// A world that the outside is a part of. It has no calls: it is what contracts speak of.
pub trait World {
    /// The bytes of a file at a path under a stamp.
    ghost content: { List ℕ → Stamp → List ℕ };

    /// The bytes that have a digest.
    ghost blob: { Digest → List ℕ };

    /// The action that the farm's operation of a name runs.
    ghost operation: { List ℕ → Digest };

    /// What a command makes of the tree that it runs in.
    ghost tool: { Command → Tree → Outcome };

    /// Both sides make the directories of the outputs before a run, so they change no outcome.
    ghost parents_made: { (command : Command) (tree : Tree) → tool command (with_parents command.outputs tree) ≡ tool command tree };

    /// Each read under a stamp gives `content`.
    ghost stamps_honest: { Type 0 };

    /// Each run is as `tool` says.
    ghost tools_honest: { Type 0 };
}
