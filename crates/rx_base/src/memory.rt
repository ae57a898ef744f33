//! Memory: the one error of a call that fails for want of it alone, and copies that take some.

ghost use Rattle.std.specs.Prelude.{◌≡◌, IfOk};

use std::alloc::{AllocError, Global};

/// Memory ran out. Calls that can fail in other ways have a variant of this name.
pub type NoMemory = AllocError;

/// A value of which a second one can be made, for which memory may be wanting.
pub trait TryClone: Sized {
    /// A copy: a value equal to this one.
    fn try_clone(&self, alloc: Global) -> Result<Self, NoMemory>
        ensures { IfOk result (λ copy. copy ≡ self.now) };
}
