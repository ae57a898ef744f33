//! What each digest that was asked for is answered, in the order asked. Digests are looked up in sets and maps, so that many may
//! be asked for.

ghost use Rattle.std.specs.Prelude.{◌≡◌, filter, is_some, IfOk};
ghost use Rattle.std.specs.BTreeMap.{get};
ghost use Rattle.std.specs.BTreeSet.{contains};
ghost use Rattle.std.specs.List.{list_all};
ghost use Rattle.std.specs.Map.{keys_of};
ghost use Rattle.std.specs.Option.{option_copied};
ghost use Rattle.rx_base.specs.Digests.{by_digest};
ghost use Rattle.rx_base.specs.Results.{Gives};
ghost use Rattle.rx_base.specs.declared.digests.Digest.{Digest};
ghost use Rattle.rx_world.specs.declared.call_faults.CallFault.TheVariants.{NoMemory as starved};
ghost use Rattle.rx_grpc.specs.Batches.{first_for, has, missing_of, text_by, texts_of};
ghost use Rattle.rx_grpc.specs.Each.{each};

use crate::blob_items::Given;
use rx_base::{Bytes, Digest, Items, NoMemory};
use rx_world::CallFault;
use std::alloc::Global;
use std::collections::{BTreeMap, BTreeSet};

/// The set of these digests.
fn set_of(alloc: Global, digests: &[Digest]) -> Result<BTreeSet<Digest>, NoMemory>
    ensures { IfOk result (λ set. (digest : Digest) →
        contains by_digest set digest ≡ has digests.now digest) }
{
    let mut set = BTreeSet::new(alloc);
    for digest in digests {
        set.insert(*digest)?;
    }
    Ok(set)
}

/// Whether all of these are in a set.
fn are_in(set: &BTreeSet<Digest>, digests: &[Digest]) -> bool
    ensures { result ≡ list_all (contains by_digest set.now) digests.now }
{
    for digest in digests {
        if !set.contains(digest) {
            return false;
        }
    }
    true
}

/// Those that are in a set, in order.
fn those_in(
    alloc: Global,
    set: &BTreeSet<Digest>,
    digests: &[Digest],
) -> Result<Items<Digest>, NoMemory>
    ensures { IfOk result (λ those. those ≡ filter (contains by_digest set.now) digests.now) }
{
    let mut those = Items::new(alloc);
    for digest in digests {
        if set.contains(digest) {
            those.push(*digest)?;
        }
    }
    Ok(those)
}

/// Whether all of these were asked for.
fn were_asked(alloc: Global, asked: &[Digest], digests: &[Digest]) -> Result<bool, NoMemory>
    ensures { IfOk result (λ were. were ≡ list_all (has asked.now) digests.now) }
{
    let set = set_of(alloc, asked)?;
    Ok(are_in(&set, digests))
}

/// Those that were asked for and are lacking, in the order asked.
#[tactic(auto, unfolding(crate::specs::Batches::missing_of))]
pub fn missing_of(
    alloc: Global,
    asked: &[Digest],
    lacking: &[Digest],
) -> Result<Items<Digest>, CallFault>
    ensures { Gives starved (λ x. x) result (missing_of asked.now lacking.now) }
{
    match were_asked(alloc, asked, lacking) {
        Ok(true) => match set_of(alloc, lacking) {
            Ok(set) => match those_in(alloc, &set, asked) {
                Ok(those) => Ok(those),
                Err(_) => Err(CallFault::NoMemory),
            },
            Err(_) => Err(CallFault::NoMemory),
        },
        Ok(false) => Err(CallFault::BadMessage(0)),
        Err(_) => Err(CallFault::NoMemory),
    }
}

/// Whether the blobs of all items are in a set.
fn items_are_in(set: &BTreeSet<Digest>, items: &[(Digest, Given)]) -> bool
    ensures { result ≡ list_all (contains by_digest set.now) (keys_of items.now) }
{
    for item in items {
        if !set.contains(&item.0) {
            return false;
        }
    }
    true
}

/// Whether the blobs of all items were asked for.
fn are_for(alloc: Global, asked: &[Digest], items: &[(Digest, Given)]) -> Result<bool, NoMemory>
    ensures { IfOk result (λ are. are ≡ list_all (has asked.now) (keys_of items.now)) }
{
    let set = set_of(alloc, asked)?;
    Ok(items_are_in(&set, items))
}

/// The first item of each blob.
fn firsts_of(
    alloc: Global,
    items: Vec<(Digest, Given)>,
) -> Result<BTreeMap<Digest, Given>, NoMemory>
    ensures { IfOk result (λ firsts. (digest : Digest) →
        get by_digest firsts digest ≡ first_for items.items digest) }
{
    let mut firsts = BTreeMap::new(alloc);
    for (digest, given) in items {
        if !firsts.contains_key(&digest) {
            firsts.insert(digest, given)?;
        }
    }
    Ok(firsts)
}

/// Whether each of these has an item.
fn have_items(firsts: &BTreeMap<Digest, Given>, digests: &[Digest]) -> bool
    ensures { result ≡ list_all (λ digest. is_some (get by_digest firsts.now digest)) digests.now }
{
    for digest in digests {
        if !firsts.contains_key(digest) {
            return false;
        }
    }
    true
}

/// What a blob is given: its bytes, or the status with which it was refused.
fn text_by(alloc: Global, digest: Digest, given: Option<&Given>) -> Result<Bytes, CallFault>
    ensures { Gives starved (λ x. x) result (text_by digest (option_copied given.entry)) }
{
    match given {
        None => Err(CallFault::BadMessage(0)),
        Some(given) => {
            if given.code != 0 {
                return Err(CallFault::BlobRefused(digest, given.code));
            }
            match Bytes::copy_of(alloc, given.body.as_slice()) {
                Ok(text) => Ok(text),
                Err(_) => Err(CallFault::NoMemory),
            }
        }
    }
}

/// What each of these is given, in order.
fn texts_by(
    alloc: Global,
    firsts: &BTreeMap<Digest, Given>,
    digests: &[Digest],
) -> Result<Items<Bytes>, CallFault>
    ensures { Gives starved (λ x. x) result
        (each (λ digest. text_by digest (get by_digest firsts.now digest)) digests.now) }
{
    let mut texts = Vec::new(alloc);
    for digest in digests {
        let text = text_by(alloc, *digest, firsts.get(digest))?;
        let Ok(()) = texts.push(text) else {
            return Err(CallFault::NoMemory);
        };
    }
    Ok(Items::from_vec(texts))
}

/// What each blob that was asked for is given by these items, in the order asked.
#[tactic(auto, unfolding(crate::specs::Batches::texts_of))]
pub fn texts_of(
    alloc: Global,
    asked: &[Digest],
    items: Vec<(Digest, Given)>,
) -> Result<Items<Bytes>, CallFault>
    ensures { Gives starved (λ x. x) result (texts_of asked.now items.items) }
{
    match are_for(alloc, asked, &items) {
        Ok(true) => {}
        Ok(false) => return Err(CallFault::BadMessage(0)),
        Err(_) => return Err(CallFault::NoMemory),
    }
    let Ok(firsts) = firsts_of(alloc, items) else {
        return Err(CallFault::NoMemory);
    };
    if !have_items(&firsts, asked) {
        return Err(CallFault::BadMessage(0));
    }
    texts_by(alloc, &firsts, asked)
}
