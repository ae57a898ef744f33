//! Names with values in their order.

ghost use Rattle.std.specs.Prelude.{◌≡◌, IfOk};
ghost use Rattle.rx_action.specs.Pairs.{by_name, sorted_pairs};

use rx_base::{Items, NoMemory, TryClone};
use rx_world::Pair;
use std::alloc::Global;
use std::cmp::Ordering;

/// How two pairs stand by the bytes of their names, and then of their values.
fn compare_pairs(pair: &Pair, other: &Pair) -> Ordering
    ensures { result ≡ by_name pair.now other.now }
{
    let values = pair.value.cmp(&other.value);
    pair.name.cmp(&other.name).then(values)
}

/// Copies of these pairs in their order. Pairs that come twice stay.
pub(crate) fn sort_pairs(alloc: Global, pairs: &Items<Pair>) -> Result<Vec<Pair>, NoMemory>
    ensures { IfOk result (λ sorted. sorted.items ≡ sorted_pairs pairs.now) }
{
    let copies = pairs.try_clone(alloc)?;
    let mut sorted = copies.into_vec();
    sorted.sort_by(|pair, other| compare_pairs(pair, other))?;
    Ok(sorted)
}
