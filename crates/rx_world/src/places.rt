//! Where the files of publications go.

ghost use Rattle.std.specs.Prelude.{◌≡◌, ℕ, List, Option, OnOk, OnErr};
ghost use Rattle.rx_world.specs.declared.outcomes.FileOut.{FileOut};
ghost use Rattle.rx_world.specs.Causes.{HasCause};
ghost use Rattle.rx_world.specs.Places.{Places};

use crate::Failed;
use rx_base::RelPath;

/// A place for files. All paths are relative to its root.
pub trait Place {
    /// The files that it holds, where told.
    ghost contents: { Self → Option (List FileOut) };

    /// The files that it held at first, where told. No call changes this.
    ghost opening: { Self → Option (List FileOut) };

    /// How often a call failed.
    ghost faults: { Self → ℕ };

    /// Puts a file there, in place of the one at its path, whole or not at all.
    fn place(&mut self, path: &RelPath, bytes: &[u8], executable: bool) -> Result<(), Failed>
        ensures placed { OnOk result
            (Places (contents self.old) (contents self.new) path.now bytes.now executable) }
        ensures kept { OnErr result (contents self.new ≡ contents self.old) }
        ensures opening { opening self.new ≡ opening self.old }
        ensures cause { HasCause (faults self.old) (faults self.new) result };
}
