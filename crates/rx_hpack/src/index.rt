//! The index of a field in the static table and the dynamic one (RFC 7541 2.3.3).

ghost use Rattle.rx_hpack.specs.Answers.{Equals};
ghost use Rattle.rx_hpack.specs.Index.{field_at};

use crate::dynamic_table::DynamicTable;
use crate::fault::HpackFault;
use crate::static_table;
use crate::static_table::STATIC_LENGTH;

/// The field with an index: the static table comes first, and then the dynamic one, from 1 on
/// (RFC 7541 2.3.3).
#[tactic(auto, unfolding(crate::specs::Index::field_at))]
pub(crate) fn find(table: &DynamicTable, index: u32) -> Result<(&[u8], &[u8]), HpackFault>
    ensures { Equals (λ x. record { name = x.0.now; value = x.1.now }) result
        (field_at table.now index) }
{
    if index == 0 {
        return Err(HpackFault::BadIndex);
    }
    let place = index as usize - 1;
    if place < STATIC_LENGTH {
        return Ok(static_table::entry(place));
    }
    match table.get(place - STATIC_LENGTH) {
        Some(header) => Ok((&header.name, &header.value)),
        None => Err(HpackFault::BadIndex),
    }
}
