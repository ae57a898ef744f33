//! The numbers of the messages' fields, as `remote_execution.proto` has them, and those of
//! `google/protobuf/any.proto`, `duration.proto` and `google/rpc/status.proto`. No other file here has one.

/// FileNode.
pub(crate) mod file_node {
    pub(crate) const NAME: u32 = 1;

    pub(crate) const DIGEST: u32 = 2;

    pub(crate) const IS_EXECUTABLE: u32 = 4;
}

/// DirectoryNode.
pub(crate) mod directory_node {
    pub(crate) const NAME: u32 = 1;

    pub(crate) const DIGEST: u32 = 2;
}

/// SymlinkNode.
pub(crate) mod symlink_node {
    pub(crate) const NAME: u32 = 1;

    pub(crate) const TARGET: u32 = 2;
}

/// Directory.
pub(crate) mod directory {
    pub(crate) const FILES: u32 = 1;

    pub(crate) const DIRECTORIES: u32 = 2;

    pub(crate) const SYMLINKS: u32 = 3;
}

/// Tree.
pub(crate) mod tree {
    pub(crate) const ROOT: u32 = 1;

    pub(crate) const CHILDREN: u32 = 2;
}

/// Command.EnvironmentVariable.
pub(crate) mod environment_variable {
    pub(crate) const NAME: u32 = 1;

    pub(crate) const VALUE: u32 = 2;
}

/// Platform.Property.
pub(crate) mod property {
    pub(crate) const NAME: u32 = 1;

    pub(crate) const VALUE: u32 = 2;
}

/// Platform.
pub(crate) mod platform {
    pub(crate) const PROPERTIES: u32 = 1;
}

/// Command.
pub(crate) mod command {
    pub(crate) const ARGUMENTS: u32 = 1;

    pub(crate) const ENVIRONMENT_VARIABLES: u32 = 2;

    pub(crate) const OUTPUT_FILES: u32 = 3;

    pub(crate) const OUTPUT_DIRECTORIES: u32 = 4;

    pub(crate) const PLATFORM: u32 = 5;

    pub(crate) const WORKING_DIRECTORY: u32 = 6;

    pub(crate) const OUTPUT_PATHS: u32 = 7;
}

/// Duration (`google/protobuf/duration.proto`).
pub(crate) mod duration {
    pub(crate) const SECONDS: u32 = 1;
}

/// Action.
pub(crate) mod action {
    pub(crate) const COMMAND_DIGEST: u32 = 1;

    pub(crate) const INPUT_ROOT_DIGEST: u32 = 2;

    pub(crate) const TIMEOUT: u32 = 6;

    pub(crate) const DO_NOT_CACHE: u32 = 7;

    pub(crate) const SALT: u32 = 9;

    pub(crate) const PLATFORM: u32 = 10;
}

/// OutputFile.
pub(crate) mod output_file {
    pub(crate) const PATH: u32 = 1;

    pub(crate) const DIGEST: u32 = 2;

    pub(crate) const IS_EXECUTABLE: u32 = 4;

    pub(crate) const CONTENTS: u32 = 5;
}

/// OutputDirectory.
pub(crate) mod output_directory {
    pub(crate) const PATH: u32 = 1;

    pub(crate) const TREE_DIGEST: u32 = 3;
}

/// OutputSymlink.
pub(crate) mod output_symlink {
    pub(crate) const PATH: u32 = 1;

    pub(crate) const TARGET: u32 = 2;
}

/// ActionResult.
pub(crate) mod action_result {
    pub(crate) const OUTPUT_FILES: u32 = 2;

    pub(crate) const OUTPUT_DIRECTORIES: u32 = 3;

    pub(crate) const EXIT_CODE: u32 = 4;

    pub(crate) const STDOUT_RAW: u32 = 5;

    pub(crate) const STDOUT_DIGEST: u32 = 6;

    pub(crate) const STDERR_RAW: u32 = 7;

    pub(crate) const STDERR_DIGEST: u32 = 8;

    pub(crate) const EXECUTION_METADATA: u32 = 9;

    pub(crate) const OUTPUT_SYMLINKS: u32 = 12;
}

/// Any (`google/protobuf/any.proto`).
pub(crate) mod any {
    pub(crate) const TYPE_URL: u32 = 1;

    pub(crate) const VALUE: u32 = 2;
}

/// Status (`google/rpc/status.proto`).
pub(crate) mod status {
    pub(crate) const CODE: u32 = 1;

    pub(crate) const MESSAGE: u32 = 2;

    pub(crate) const DETAILS: u32 = 3;
}

/// FindMissingBlobsRequest.
pub(crate) mod find_missing_blobs_request {
    pub(crate) const INSTANCE_NAME: u32 = 1;

    pub(crate) const BLOB_DIGESTS: u32 = 2;
}

/// FindMissingBlobsResponse.
pub(crate) mod find_missing_blobs_response {
    pub(crate) const MISSING_BLOB_DIGESTS: u32 = 2;
}

/// BatchUpdateBlobsRequest.Request.
pub(crate) mod blob_update {
    pub(crate) const DIGEST: u32 = 1;

    pub(crate) const DATA: u32 = 2;
}

/// BatchUpdateBlobsRequest.
pub(crate) mod batch_update_blobs_request {
    pub(crate) const INSTANCE_NAME: u32 = 1;

    pub(crate) const REQUESTS: u32 = 2;
}

/// BatchUpdateBlobsResponse.Response.
pub(crate) mod blob_updated {
    pub(crate) const DIGEST: u32 = 1;

    pub(crate) const STATUS: u32 = 2;
}

/// BatchUpdateBlobsResponse.
pub(crate) mod batch_update_blobs_response {
    pub(crate) const RESPONSES: u32 = 1;
}

/// BatchReadBlobsRequest.
pub(crate) mod batch_read_blobs_request {
    pub(crate) const INSTANCE_NAME: u32 = 1;

    pub(crate) const DIGESTS: u32 = 2;
}

/// BatchReadBlobsResponse.Response.
pub(crate) mod blob_read {
    pub(crate) const DIGEST: u32 = 1;

    pub(crate) const DATA: u32 = 2;

    pub(crate) const STATUS: u32 = 3;
}

/// BatchReadBlobsResponse.
pub(crate) mod batch_read_blobs_response {
    pub(crate) const RESPONSES: u32 = 1;
}
