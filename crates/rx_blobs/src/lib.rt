//! Blobs that are sent to a farm's store, where it lacks them, and blobs that are fetched from it, each
//! hashed. Nothing here knows of actions or results, or of the connection by which a client asks.
#![tactic(auto)]

mod batches;
mod blob_fault;
mod blobs;
mod fetches;
mod hashing;
mod presence;
mod sending;
mod uploads;

pub use batches::{BATCH_BYTES, BLOB_OVERHEAD, batch_limit};
pub use blob_fault::BlobFault;
pub use blobs::Blob;
pub use fetches::fetch;
pub use presence::{PRESENCE_LIMIT, Presence};
pub use uploads::{MOST_ASKED, ToUpload, upload};
