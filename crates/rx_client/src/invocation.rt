//! How a client was called.

use rx_base::Text;
use rx_world::Pair;
use std::marker::Model;

/// Its words behind the program's name, its environment and its working directory.
#[derive(Debug, Drop)]
pub struct Invocation<'a> {
    pub words: &'a [Text],
    pub environment: &'a [Pair],
    pub directory: &'a str,
}

impl<'a> Model for Invocation<'a> {
    ghost use Rattle.rx_client.specs.Invoked.{Invocation};

    ghost Value = { Invocation };

    ghost view = { λ i. record {
      words = i.words.now;
      environment = i.environment.now;
      directory = i.directory.now;
    } };
}
