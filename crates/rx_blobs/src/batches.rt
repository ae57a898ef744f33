//! Batches of blobs: how large one may be, and which blobs make one.

ghost use Rattle.std.specs.Prelude.{◌≡◌, ◌≢◌, ◌<◌, ◌≤◌, [], length};
ghost use Rattle.rx_blobs.specs.Batches.{batch_limit};

use rx_base::Digest;

/// The most bytes of one batch, where a farm allows as many.
pub const BATCH_BYTES: u64 = 3_000_000;

/// What is counted for each blob of a batch beside its bytes.
pub const BLOB_OVERHEAD: u64 = 100;

/// The most bytes of one batch on a farm that tells this number
/// (`CacheCapabilities.max_batch_total_size_bytes`; 0 sets no limit).
pub fn batch_limit(told: u64) -> u64
    ensures { result ≡ batch_limit told }
{
    if told == 0 || told > BATCH_BYTES {
        return BATCH_BYTES;
    }
    told
}

/// How many of these digests make the next batch: one, or as many as keep the sum of their sizes and
/// overheads within `most`.
pub(crate) fn batch_len(digests: &[Digest], most: u64) -> usize
    requires { digests.now ≢ [] }
    ensures some { 0 < result }
    ensures within { result ≤ length digests.now }
{
    let mut left = most;
    for (count, digest) in digests.iter().enumerate() {
        let size = digest.size.saturating_add(BLOB_OVERHEAD);
        if size > left {
            return count.max(1);
        }
        left -= size;
    }
    digests.len()
}
