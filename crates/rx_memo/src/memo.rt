//! A map with a limit of bytes, which threads share.

use std::alloc::Global;
use std::collections::BTreeMap;
use std::collections::btree_map::Comparable;
use std::sync::{Arc, Mutex};

/// What an entry takes beside the bytes of its value, about.
const BYTES_BESIDE: usize = 256;

/// A value, and how many bytes its entry takes, about.
#[derive(Drop)]
struct Entry<V> {
    value: Arc<V, Global>,
    bytes: usize,
}

#[derive(Drop)]
struct Kept<K: Ord, V> {
    by_key: BTreeMap<K, Entry<V>>,
    /// How many bytes all entries take, about.
    bytes: usize,
}

/// Values by their keys. It is shared by reference. Nobody waits for its lock: where another thread has it, a value isn't
/// found, or isn't kept.
#[derive(Drop)]
pub struct Memo<K: Ord, V> {
    kept: Mutex<Kept<K, V>>,
    most_bytes: usize,
}

impl<K: Ord + Drop, V: Drop> Memo<K, V> {
    /// Nothing is kept yet, and so many bytes may be. It takes no memory.
    pub fn new(alloc: Global, most_bytes: usize) -> Memo<K, V> {
        Memo {
            kept: Mutex::new(Kept {
                by_key: BTreeMap::new(alloc),
                bytes: 0,
            }),
            most_bytes,
        }
    }

    /// The value of a key.
    pub fn find<Q: Comparable<K>>(&self, key: Q) -> Option<Arc<V, Global>> {
        let kept = self.kept.try_lock()?;
        Arc::try_clone(&kept.by_key.get(key)?.value).ok()
    }

    /// Keeps a value that takes so many bytes, in place of an older one of its key. Where all would take more than they may, all
    /// others are let go. Where memory is wanting it isn't kept.
    pub fn keep(&self, alloc: Global, key: K, value: Arc<V, Global>, bytes: usize) {
        let bytes = bytes.saturating_add(BYTES_BESIDE);
        if bytes > self.most_bytes {
            return;
        }
        let Some(mut kept) = self.kept.try_lock() else {
            return;
        };
        if kept.bytes > self.most_bytes - bytes {
            kept.by_key = BTreeMap::new(alloc);
            kept.bytes = 0;
        }
        if let Ok(before) = kept.by_key.insert(key, Entry { value, bytes }) {
            let freed = before.map_or(0, |before| before.bytes);
            kept.bytes = kept.bytes.saturating_sub(freed).saturating_add(bytes);
        }
    }
}
