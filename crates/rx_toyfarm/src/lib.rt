//! A farm in memory, for rows and tests: it keeps blobs by their digests, runs actions by the tool of the Toy world,
//! keeps their results, and answers the calls of a farm's client; and its end of a connection, on which it answers the
//! same calls as they come over gRPC. Nothing here opens a connection.
#![tactic(auto)]

mod answers;
mod batches;
mod blob_streams;
mod calls;
mod connection;
mod execution;
mod executions;
mod farm;
mod farm_fault;
mod framing;
mod jobs;
mod methods;
mod names;
mod open_calls;
mod operations;
mod replies;
mod results;
mod sender;
mod server;
mod store;

pub use connection::answer;
pub use farm::ToyFarm;
pub use farm_fault::FarmFault;
