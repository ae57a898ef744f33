//! Rights to numbers. No two sessions have one number, since there is just one right to each.

ghost use Rattle.std.specs.Prelude.{◌≡◌, ◌<◌, IfOk, length};
ghost use Rattle.rx_daemon.specs.Rights.{AreLeft, IsRight, most_numbers};

use crate::runs::Run;
use std::alloc::{AllocError, Global};
use std::marker::Brand;
use std::sync::ledger::{Blank, Ledger};

/// How many numbers a run has. A right takes no memory, and a millionth of a millisecond to make.
const NUMBERS: u32 = 4_194_304;

/// A right to each number.
pub(crate) fn all_rights(alloc: Global) -> Result<Vec<Blank>, AllocError>
    ensures rights { IfOk result (λ rights. AreLeft rights.items rights.items) }
    ensures numbers { IfOk result (λ rights. length rights.items ≡ most_numbers) }
{
    let mut rights = Vec::new(alloc);
    rights.reserve(NUMBERS as usize)?;
    for _made in 0..NUMBERS {
        rights.push(Blank::new(1))?;
    }
    Ok(rights)
}

/// Two ledgers of one name can't be.
fn clash_of<L: Ledger>(one: Blank, other: Blank)
    requires one { (one.name ≡ L.name) × (one.parts ≡ L.parts) }
    requires other { (other.name ≡ L.name) × (other.parts ≡ L.parts) }
    requires some { 0 < L.parts }
    ensures { ⊥ }
{
    let (_book, mut share) = one.open::<L>();
    let (_second, twin) = other.open::<L>();
    share.merge(twin);
}

/// Two rights are not to the same number.
pub(crate) fn clash<K: Run>(number: u32, one: Blank, other: Blank)
    requires one { IsRight K.rights number one }
    requires other { IsRight K.rights number other }
    ensures { ⊥ }
{
    clash_of::<Brand>(one, other)
}
