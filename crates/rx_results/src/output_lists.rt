//! The outputs of a result all together: what is wrong with them, what has to be fetched for them,
//! and the files that come of them.

ghost use Rattle.std.specs.Prelude.{◌≡◌, ◌++◌, IfOk, OnOk, map, option_to_list};
ghost use Rattle.std.specs.List.{filter_map, list_any};
ghost use Rattle.rx_results.specs.Outcomes.{filled};
ghost use Rattle.rx_results.specs.ResultOutputs.{files_in, has_no_digest, is_absent, is_repeated, slot_at};
ghost use Rattle.rx_results.specs.Results.{are_files_too_large, first_of, wanted_for};
ghost use Rattle.rx_results.specs.Slots.{mismatch_of, wanted};

use crate::limits::{MAX_FILE_BYTES, MAX_FILES_BYTES};
use crate::result_outputs::ResultOutput;
use crate::slots::{DigestMismatch, Slot};
use rx_base::{Bytes, Digest, Items, NoMemory};
use rx_world::FileOut;
use std::alloc::Global;
use std::collections::VecDeque;

/// Whether the result has more than one thing at an output.
pub(crate) fn is_any_repeated(outputs: &[ResultOutput]) -> bool
    ensures { result ≡ list_any is_repeated outputs.now }
{
    outputs.iter().any(|output| output.is_repeated())
}

/// Whether the result has no file at an output.
pub(crate) fn is_any_absent(outputs: &[ResultOutput]) -> bool
    ensures { result ≡ list_any is_absent outputs.now }
{
    outputs.iter().any(|output| output.is_absent())
}

/// Whether the result has a file at an output and names no digest of it.
pub(crate) fn has_any_no_digest(outputs: &[ResultOutput]) -> bool
    ensures { result ≡ list_any has_no_digest outputs.now }
{
    outputs.iter().any(|output| output.has_no_digest())
}

/// Whether a file is too large, or all files together are, by their digests.
pub(crate) fn are_too_large(outputs: &[ResultOutput]) -> bool
    ensures { result ≡ are_files_too_large (map slot_at outputs.now) }
{
    let mut total: u64 = 0;
    for output in outputs {
        let size = output.size();
        if size > MAX_FILE_BYTES {
            return true;
        }
        total += size;
        if total > MAX_FILES_BYTES {
            return true;
        }
    }
    false
}

/// Of the first file whose contents haven't its digest: both digests.
pub(crate) fn first_mismatch(outputs: &[ResultOutput]) -> Option<DigestMismatch>
    ensures { result ≡ first_of (filter_map mismatch_of (map slot_at outputs.now)) }
{
    for output in outputs {
        if let Some(mismatch) = output.mismatch() {
            return Some(mismatch);
        }
    }
    None
}

/// Adds the digest that has to be fetched for a slot, if there is one.
pub(crate) fn add_wanted(digests: &mut Items<Digest>, slot: &Slot) -> Result<(), NoMemory>
    ensures { OnOk result (digests.new ≡ digests.old ++ option_to_list (wanted slot.now)) }
{
    if let Some(digest) = slot.wanted() {
        digests.push(digest)?;
    }
    Ok(())
}

/// Adds the digests that have to be fetched for the files.
pub(crate) fn add_all_wanted(
    digests: &mut Items<Digest>,
    outputs: &[ResultOutput],
) -> Result<(), NoMemory>
    ensures { OnOk result
        (digests.new ≡ digests.old ++ wanted_for (map slot_at outputs.now)) }
{
    for output in outputs {
        if let Some(file) = &output.file {
            add_wanted(digests, &file.source)?;
        }
    }
    Ok(())
}

/// The files at these outputs. Contents and texts are moved, and none is copied.
pub(crate) fn fill_outputs(
    alloc: Global,
    outputs: Items<ResultOutput>,
    texts: VecDeque<Bytes>,
) -> Result<Items<FileOut>, NoMemory>
    ensures { IfOk result (λ files.
        files ≡ files_in outputs (filled (map slot_at outputs) texts.items)) }
{
    let mut texts = texts;
    let mut files = Items::new(alloc);
    for output in outputs.into_vec() {
        files.push(output.fill(alloc, &mut texts))?;
    }
    Ok(files)
}
