//! The world of the machine, of which nothing is known.

ghost use Rattle.std.specs.Prelude.{[], pos, refl};

use rx_world::World;

/// The world that the host's files and programs are a part of. Neither its stamps nor its tools are
/// claimed to be honest, so its content and its tool say nothing.
#[derive(Debug, Drop)]
pub struct HostWorld;

impl World for HostWorld {
    ghost content = { λ path stamp. [] };

    ghost blob = { λ digest. [] };

    ghost operation = { λ name. record { hash = []; size = 0 } };

    ghost tool = { λ command tree. record { exit = record { code = pos 0; stdout = []; stderr = [] }; files = [] } };

    ghost parents_made = { λ command tree. refl };

    ghost stamps_honest = { ⊥ };

    ghost tools_honest = { ⊥ };
}
