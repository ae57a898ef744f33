//! The numbers of the messages' fields, as `remote_execution.proto` has them, and those of
//! `build/bazel/semver/semver.proto`, `google/longrunning/operations.proto` and
//! `google/bytestream/bytestream.proto`. No other file here has one.

/// SemVer.
pub(crate) mod version {
    pub(crate) const MAJOR: u32 = 1;

    pub(crate) const MINOR: u32 = 2;

    pub(crate) const PATCH: u32 = 3;
}

/// CacheCapabilities.
pub(crate) mod cache_capabilities {
    pub(crate) const MAX_BATCH_TOTAL_SIZE_BYTES: u32 = 4;
}

/// GetCapabilitiesRequest.
pub(crate) mod get_capabilities_request {
    pub(crate) const INSTANCE_NAME: u32 = 1;
}

/// ServerCapabilities.
pub(crate) mod server_capabilities {
    pub(crate) const CACHE_CAPABILITIES: u32 = 1;

    pub(crate) const EXECUTION_CAPABILITIES: u32 = 2;

    pub(crate) const LOW_API_VERSION: u32 = 4;

    pub(crate) const HIGH_API_VERSION: u32 = 5;
}

/// GetActionResultRequest.
pub(crate) mod get_action_result_request {
    pub(crate) const INSTANCE_NAME: u32 = 1;

    pub(crate) const ACTION_DIGEST: u32 = 2;

    pub(crate) const INLINE_STDOUT: u32 = 3;

    pub(crate) const INLINE_STDERR: u32 = 4;

    pub(crate) const INLINE_OUTPUT_FILES: u32 = 5;
}

/// ExecuteRequest.
pub(crate) mod execute_request {
    pub(crate) const INSTANCE_NAME: u32 = 1;

    pub(crate) const SKIP_CACHE_LOOKUP: u32 = 3;

    pub(crate) const ACTION_DIGEST: u32 = 6;
}

/// ExecuteResponse.
pub(crate) mod execute_response {
    pub(crate) const RESULT: u32 = 1;

    pub(crate) const CACHED_RESULT: u32 = 2;

    pub(crate) const STATUS: u32 = 3;

    pub(crate) const MESSAGE: u32 = 5;
}

/// WaitExecutionRequest.
pub(crate) mod wait_execution_request {
    pub(crate) const NAME: u32 = 1;
}

/// Operation.
pub(crate) mod operation_message {
    pub(crate) const NAME: u32 = 1;

    pub(crate) const METADATA: u32 = 2;

    pub(crate) const DONE: u32 = 3;

    pub(crate) const ERROR: u32 = 4;

    pub(crate) const RESPONSE: u32 = 5;
}

/// WriteRequest.
pub(crate) mod write_request {
    pub(crate) const RESOURCE_NAME: u32 = 1;

    pub(crate) const WRITE_OFFSET: u32 = 2;

    pub(crate) const FINISH_WRITE: u32 = 3;

    pub(crate) const DATA: u32 = 10;
}

/// WriteResponse.
pub(crate) mod write_response {
    pub(crate) const COMMITTED_SIZE: u32 = 1;
}

/// ReadRequest.
pub(crate) mod read_request {
    pub(crate) const RESOURCE_NAME: u32 = 1;

    pub(crate) const READ_OFFSET: u32 = 2;

    pub(crate) const READ_LIMIT: u32 = 3;
}

/// ReadResponse.
pub(crate) mod read_response {
    pub(crate) const DATA: u32 = 10;
}
