//! The messages of the Remote Execution API v2 that name content, trees, actions and results, and
//! their bytes. What is done with them stands in the crates above; how any message is read and
//! written, in `rx_codec`.
#![tactic(auto)]

mod actions;
mod batch_reads;
mod batch_updates;
mod blobs;
mod commands;
mod directories;
mod names;
mod nodes;
mod numbers;
mod outputs;
mod results;
mod statuses;
mod trees;

pub use actions::{Action, Duration};
pub use batch_reads::{BatchReadBlobsRequest, BatchReadBlobsResponse, BlobRead};
pub use batch_updates::{
    BatchUpdateBlobsRequest, BatchUpdateBlobsResponse, BlobUpdate, BlobUpdated,
};
pub use blobs::{FindMissingBlobsRequest, FindMissingBlobsResponse};
pub use commands::{Command, EnvironmentVariable, Platform, Property};
pub use directories::Directory;
pub use nodes::{DirectoryNode, FileNode, SymlinkNode};
pub use outputs::{OutputDirectory, OutputFile, OutputSymlink};
pub use results::ActionResult;
pub use rx_codec::{FieldList, Message, MessageFault, Shape, Writer};
pub use statuses::{Any, Status};
pub use trees::Tree;
