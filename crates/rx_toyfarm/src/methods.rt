//! The methods of the farm, by their paths (PROTOCOL-HTTP2.md of gRPC, "Path").

/// A method of the farm.
#[derive(Clone, Copy, Debug, PartialEq, Eq)]
pub(crate) enum Method {
    GetCapabilities,
    GetActionResult,
    FindMissingBlobs,
    BatchUpdateBlobs,
    BatchReadBlobs,
    Execute,
    WaitExecution,
    ReadStream,
    WriteStream,
}

/// All methods.
const METHODS: [Method; 9] = [
    Method::GetCapabilities,
    Method::GetActionResult,
    Method::FindMissingBlobs,
    Method::BatchUpdateBlobs,
    Method::BatchReadBlobs,
    Method::Execute,
    Method::WaitExecution,
    Method::ReadStream,
    Method::WriteStream,
];

impl Method {
    /// The method of a path, if the farm has it.
    pub(crate) fn of_path(path: &[u8]) -> Option<Method> {
        for method in METHODS {
            if method.path().as_bytes() == path {
                return Some(method);
            }
        }
        None
    }

    /// Its path: `/SERVICE/METHOD`.
    fn path(self) -> &'static str {
        match self {
            Method::GetCapabilities => {
                "/build.bazel.remote.execution.v2.Capabilities/GetCapabilities"
            }
            Method::GetActionResult => {
                "/build.bazel.remote.execution.v2.ActionCache/GetActionResult"
            }
            Method::FindMissingBlobs => {
                "/build.bazel.remote.execution.v2.ContentAddressableStorage/FindMissingBlobs"
            }
            Method::BatchUpdateBlobs => {
                "/build.bazel.remote.execution.v2.ContentAddressableStorage/BatchUpdateBlobs"
            }
            Method::BatchReadBlobs => {
                "/build.bazel.remote.execution.v2.ContentAddressableStorage/BatchReadBlobs"
            }
            Method::Execute => "/build.bazel.remote.execution.v2.Execution/Execute",
            Method::WaitExecution => "/build.bazel.remote.execution.v2.Execution/WaitExecution",
            Method::ReadStream => "/google.bytestream.ByteStream/Read",
            Method::WriteStream => "/google.bytestream.ByteStream/Write",
        }
    }
}
