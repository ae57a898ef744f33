//! Names for files and directories of the proxy's own.

ghost use Rattle.std.specs.Prelude.{◌≡◌, ◌++◌, IfOk, IfSome, string_bytes};
ghost use Rattle.rx_host.specs.Names.{own_name};

use std::alloc::{AllocError, Global};

/// Names `reproxy-PROCESS-NUMBER`, each once in this value. A name that is taken all the same is
/// passed over by its user, who makes the file anew or not at all.
#[derive(Debug, Drop)]
pub(crate) struct FreshNames {
    process: u32,
    number: u64,
}

impl FreshNames {
    /// The names of the process with this number.
    pub(crate) fn new(process: u32) -> FreshNames {
        FreshNames { process, number: 0 }
    }

    /// The next name, after this text.
    pub(crate) fn next(&mut self, alloc: Global, before: &str) -> Result<String, AllocError>
        ensures { IfOk result (λ name.
            string_bytes name ≡ before.now ++ own_name self.old.process self.old.number) }
    {
        let (process, number) = (self.process, self.number);
        self.number = number.wrapping_add(1);
        format!(in alloc; "{before}reproxy-{process}-{number}")
    }
}

/// The numbers in a name of a proxy's own.
#[derive(Debug, Clone, Copy, Drop)]
pub(crate) struct Owned {
    pub(crate) process: u32,
    pub(crate) number: u64,
}

/// The numbers in this name, where it is exactly one of a proxy's own.
pub(crate) fn owned_in(alloc: Global, name: &str) -> Result<Option<Owned>, AllocError>
    ensures { IfOk result (λ found. IfSome found (λ owned.
        name.now ≡ own_name owned.process owned.number)) }
{
    let Some(owned) = numbers_in(name) else {
        return Ok(None);
    };
    // (two texts can read as one number, as 7 and 07)
    let exact = name_of(alloc, owned)?;
    if exact.as_str() == name {
        Ok(Some(owned))
    } else {
        Ok(None)
    }
}

/// The name with these numbers.
fn name_of(alloc: Global, owned: Owned) -> Result<String, AllocError>
    ensures { IfOk result (λ name.
        string_bytes name ≡ own_name owned.process owned.number) }
{
    let Owned { process, number } = owned;
    format!(in alloc; "reproxy-{process}-{number}")
}

/// The numbers in a name that is nearly one of a proxy's own.
fn numbers_in(name: &str) -> Option<Owned> {
    let (process, number) = name.strip_prefix("reproxy-")?.split_once('-')?;
    Some(Owned {
        process: process.parse::<u32>().ok()?,
        number: number.parse::<u64>().ok()?,
    })
}
