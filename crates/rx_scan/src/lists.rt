//! What a source tree lists. Each file of a list is one more look at its path.

ghost use Rattle.std.specs.Prelude.{◌≡◌, ◌≤◌, ℕ, ◌∷◌, [], All, IfErr, IfOk, MatchResult, OnOk, Some};
ghost use Rattle.rx_world.specs.Sources.{given_all};
ghost use Rattle.rx_scan.specs.Lists.{BlamesSight, Fails, IsListed, Learns};
ghost use Rattle.rx_reach.specs.Sights.{Blames, Notes, seen_at};

use rx_base::{Items, RelPath, TryClone};
use rx_reach::{SightFault, Sights};
use rx_world::{Found, Refused, Sources, World};
use std::alloc::Global;

/// The files that the source tree lists at or below a path, each noted: at most one more than `most`.
pub(crate) fn list_noted<W: World, S: Sources<W>>(
    alloc: Global,
    sources: &mut S,
    sights: &mut Sights,
    under: &RelPath,
    most: usize,
) -> Result<Items<Found>, SightFault>
    ensures listed { MatchResult result
        (λ found. Learns W.World S.Sources
        sources.old sources.new sights.old sights.new
        (λ scene. IsListed scene under.now most found))
        (λ fault. Fails W.World S.Sources
        sources.old sources.new sights.old sights.new (BlamesSight fault)) }
    ensures seen { IfOk result (λ found. All (λ f. seen_at sights.new f.path ≡ Some f.look) found) }
{
    match sources.list(under, most) {
        Ok(found) => {
            note_all(alloc, sights, found.as_slice())?;
            Ok(found)
        }
        Err(Refused::Failed) => Err(SightFault::SourceFault {
            path: under.try_clone(alloc)?,
        }),
        Err(Refused::NoMemory) => Err(SightFault::NoMemory),
    }
}

/// Notes each of these.
fn note_all(alloc: Global, sights: &mut Sights, found: &[Found]) -> Result<(), SightFault>
    ensures noted { OnOk result (Notes sights.old sights.new (given_all found.now)) }
    ensures changed { IfErr result (λ fault. (before now : ℕ) →
        Blames sights.old (given_all found.now) before now fault) }
{
    for item in found {
        sights.note(alloc, &item.path, item.look)?;
    }
    Ok(())
}
