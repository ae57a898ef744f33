//! What the client `rewrapper` makes of its words, its environment and its configuration file.
//! Nothing here opens a file or a socket.
#![tactic(auto)]

mod addresses;
mod asked;
mod called;
mod choices;
mod commas;
mod config_file;
mod directories;
mod environment;
mod flags;
mod jobs;
mod numbers;
mod relative_paths;
mod settings;
mod strips;
mod usage_fault;
mod values;
mod variables;
mod words;

pub use addresses::Address;
pub use asked::{Asked, Errand};
pub use called::Called;
pub use config_file::settings_in_file;
pub use environment::settings_in_environment;
pub use flags::Flag;
pub use jobs::{Job, Task, job_of};
pub use settings::{Setting, Settings};
pub use usage_fault::UsageFault;
pub use words::{Words, read_words};
