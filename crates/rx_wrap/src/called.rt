//! How a client was called.

use rx_base::Text;
use rx_world::Pair;
use std::marker::Model;

/// The command, and where it was called.
#[derive(Debug, Drop)]
pub struct Called<'a> {
    /// The program and its arguments, as they were given.
    pub command: &'a [Text],
    /// The whole environment.
    pub variables: &'a [Pair],
    /// The working directory.
    pub directory: &'a str,
    /// The path of `exec_root` as the system resolves it; none where it can't, or none is given.
    pub root: Option<Text>,
}

impl<'a> Model for Called<'a> {
    ghost use Rattle.rx_wrap.specs.Called.{Called};

    ghost Value = { Called };

    ghost view = { λ c. record {
      command = c.command.now;
      variables = c.variables.now;
      directory = c.directory.now;
      root = c.root;
    } };
}
