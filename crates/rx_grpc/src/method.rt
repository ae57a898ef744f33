//! The methods of a farm that are called, by their paths.

ghost use Rattle.std.specs.Prelude.{◌≡◌, ◌<◌};
ghost use Rattle.rx_grpc.specs.Methods.{path_of};

/// A method of a farm.
#[derive(Clone, Copy, Debug, PartialEq, Eq)]
pub enum Method {
    GetCapabilities,
    GetActionResult,
    FindMissingBlobs,
    BatchUpdateBlobs,
    BatchReadBlobs,
    Execute,
    WaitExecution,
    ReadStream,
    WriteStream,
}

impl Method {
    /// Its path (PROTOCOL-HTTP2.md of gRPC, "Path"): `/SERVICE/METHOD`.
    pub fn path(self) -> &'static [u8]
        ensures { result.now ≡ path_of self }
    {
        match self {
            Method::GetCapabilities => {
                b"/build.bazel.remote.execution.v2.Capabilities/GetCapabilities"
            }
            Method::GetActionResult => {
                b"/build.bazel.remote.execution.v2.ActionCache/GetActionResult"
            }
            Method::FindMissingBlobs => {
                b"/build.bazel.remote.execution.v2.ContentAddressableStorage/FindMissingBlobs"
            }
            Method::BatchUpdateBlobs => {
                b"/build.bazel.remote.execution.v2.ContentAddressableStorage/BatchUpdateBlobs"
            }
            Method::BatchReadBlobs => {
                b"/build.bazel.remote.execution.v2.ContentAddressableStorage/BatchReadBlobs"
            }
            Method::Execute => b"/build.bazel.remote.execution.v2.Execution/Execute",
            Method::WaitExecution => b"/build.bazel.remote.execution.v2.Execution/WaitExecution",
            Method::ReadStream => b"/google.bytestream.ByteStream/Read",
            Method::WriteStream => b"/google.bytestream.ByteStream/Write",
        }
    }
}
