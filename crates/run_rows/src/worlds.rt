//! The world of the rows.

ghost use Rattle.std.specs.Prelude.{[]};
ghost use Rattle.rx_world.specs.Toy.{toy_operation, toy_tool, toy_tool-with_parents};

use rx_world::{Toy, World};
use std::marker::Brand;

/// The world of the parts in memory: its tool is computed.
pub(crate) type ToyWorld = Toy<Brand>;

/// The same world for those whom rows may mislead: neither its source trees nor its tool are known to be
/// honest.
pub(crate) struct RowWorld;

impl World for RowWorld {
    ghost content = { λ path stamp. [] };

    ghost blob = { λ digest. [] };

    ghost operation = { toy_operation };

    ghost tool = { toy_tool };

    ghost parents_made = { toy_tool-with_parents };

    ghost stamps_honest = { ⊥ };

    ghost tools_honest = { ⊥ };
}
