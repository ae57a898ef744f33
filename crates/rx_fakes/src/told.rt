//! What a source tree answered, told in order.

ghost use Rattle.std.specs.Prelude.{◌≡◌, ◌++◌, ◌∷◌, [], IfOk, OnErr, OnOk};
ghost use Rattle.rx_world.specs.Sources.{given_all};

use rx_base::{Bytes, Items, NoMemory, RelPath, TryClone};
use rx_world::{Found, Given, Look};
use std::alloc::Global;
use std::mem::replace;

/// Tells one answer more. Where memory is wanting, all stays as it was.
pub(crate) fn tell(
    alloc: Global,
    given: &mut Items<Given>,
    path: &RelPath,
    look: Look,
    bytes: Option<Bytes>,
) -> Result<(), NoMemory>
    ensures ok { OnOk result
        (given.new ≡ given.old ++ record { path = path.now; look = look; bytes = bytes } ∷ []) }
    ensures err { OnErr result (given.new ≡ given.old) }
{
    let path = path.try_clone(alloc)?;
    given.push(Given { path, look, bytes })?;
    Ok(())
}

/// Tells a look at each of these. Where memory is wanting, all stays as it was.
pub(crate) fn tell_all(
    alloc: Global,
    given: &mut Items<Given>,
    found: &[Found],
) -> Result<(), NoMemory>
    ensures ok { OnOk result (given.new ≡ given.old ++ given_all found.now) }
    ensures err { OnErr result (given.new ≡ given.old) }
{
    let mut more = looks_of(alloc, found)?;
    let mut all = replace(given, Items::new(alloc)).into_vec();
    let told = all.append(&mut more);
    *given = Items::from_vec(all);
    told
}

fn looks_of(alloc: Global, found: &[Found]) -> Result<Vec<Given>, NoMemory>
    ensures { IfOk result (λ looks. looks.items ≡ given_all found.now) }
{
    let mut looks = Vec::with_capacity(alloc, found.len())?;
    for item in found {
        looks.push(Given {
            path: item.path.try_clone(alloc)?,
            look: item.look,
            bytes: None,
        })?;
    }
    Ok(looks)
}
