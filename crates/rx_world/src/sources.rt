//! Source trees: what a scan looks at and reads.

ghost use Rattle.std.specs.Prelude.{◌≡◌, ℕ, [], ◌∷◌, ◌++◌, List, Option, None, Some, IfOk, IfErr, IfSome, OnErr};
ghost use Rattle.rx_base.specs.Told.{Told};
ghost use Rattle.rx_world.specs.declared.failures.Refused.TheVariants.{Failed as failed};
ghost use Rattle.rx_world.specs.declared.sources.Given.{Given};
ghost use Rattle.rx_world.specs.declared.sources.SourceEntry.{SourceEntry};
ghost use Rattle.rx_world.specs.Causes.{HasCause, HasCauseOf};
ghost use Rattle.rx_world.specs.Sources.{Adds, GivesContent, HasBytes, HoldContent, Lists, Looks, Reads, given_all, given_bytes, given_look};

use crate::{Failed, Look, Refused, World};
use rx_base::{Bytes, Items, RelPath};

/// A path of a source tree with what stands there.
#[derive(Debug, Drop)]
pub struct SourceEntry {
    pub path: RelPath,
    pub look: Look,
    pub bytes: Bytes,
}

/// One answer of a source tree: a path, what it was seen as and, for a read, its bytes.
#[derive(Debug, Drop)]
pub struct Given {
    pub path: RelPath,
    pub look: Look,
    pub bytes: Option<Bytes>,
}

/// A path that a source tree lists, and what stands there.
#[derive(Debug, Drop)]
pub struct Found {
    pub path: RelPath,
    pub look: Look,
}

/// A source tree. All paths are relative to its root, and every other path is Absent.
pub trait Sources<W: World> {
    /// Its paths with their looks and contents, where told. Each call answers by this list. Where
    /// stamps are honest, its files hold what the world has under their stamps.
    ghost listed: { Self → Option (List SourceEntry) };

    /// Calls keep that list.
    ghost keeps: { Self → Type 0 };

    /// What its calls answered, in order, where told.
    ghost given: { Self → Option (List Given) };

    /// How often a call failed.
    ghost faults: { Self → ℕ };

    /// What stands at a path.
    fn look(&mut self, path: &RelPath) -> Result<Look, Failed>
        ensures look { IfOk result (Looks (listed self.old) path.now) }
        ensures holds { W.stamps_honest → IfSome (listed self.new) (HoldContent W.content) }
        ensures kept { keeps self.old → keeps self.new × (listed self.new ≡ listed self.old) }
        ensures given { IfOk result (λ look.
            Adds (given self.old) (given self.new) (given_look path.now look ∷ [])) }
        ensures failed { OnErr result (Adds (given self.old) (given self.new) []) }
        ensures cause { HasCause (faults self.old) (faults self.new) result };

    /// What stands at a path, with the bytes of a file, and no bytes of anything else.
    fn read(&mut self, path: &RelPath) -> Result<(Look, Bytes), Refused>
        ensures read { IfOk result (λ read. Reads (listed self.old) path.now read.0 read.1) }
        ensures bytes { IfOk result (λ read. HasBytes read.0 read.1) }
        ensures honest { IfOk result (λ read. W.stamps_honest →
            GivesContent W.content path.now read.0 read.1) }
        ensures holds { W.stamps_honest → IfSome (listed self.new) (HoldContent W.content) }
        ensures kept { keeps self.old → keeps self.new × (listed self.new ≡ listed self.old) }
        ensures given { IfOk result (λ read.
            Adds (given self.old) (given self.new) (given_bytes path.now read.0 read.1 ∷ [])) }
        ensures failed { OnErr result (Adds (given self.old) (given self.new) []) }
        ensures cause { HasCauseOf failed (faults self.old) (faults self.new) result };

    /// The files at or below a path in the order of their paths' bytes: at most one more than `most`.
    fn list(&mut self, under: &RelPath, most: usize) -> Result<Items<Found>, Refused>
        ensures list { IfOk result (Lists (listed self.old) under.now most) }
        ensures holds { W.stamps_honest → IfSome (listed self.new) (HoldContent W.content) }
        ensures kept { keeps self.old → keeps self.new × (listed self.new ≡ listed self.old) }
        ensures given { IfOk result (λ found.
            Adds (given self.old) (given self.new) (given_all found)) }
        ensures failed { OnErr result (Adds (given self.old) (given self.new) []) }
        ensures cause { HasCauseOf failed (faults self.old) (faults self.new) result };
}
