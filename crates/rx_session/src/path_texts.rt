//! Paths in a reply, each as its own text.

ghost use Rattle.std.specs.Prelude.{◌≡◌, IfOk, Ok};
ghost use Rattle.rx_base.specs.Results.{Gives};
ghost use Rattle.rx_session.specs.PathTexts.{if_own, own_path};
ghost use Rattle.rx_session.specs.declared.reply_fault.ReplyFault.TheVariants.{NoMemory};

use crate::reply_fault::ReplyFault;
use rx_base::{NoMemory, PathFault, RelPath, Text};
use std::alloc::Global;

/// The path whose own text this is.
#[tactic(auto, unfolding(crate::specs::PathTexts::own_path))]
pub(crate) fn read_path(alloc: Global, text: &Text) -> Result<RelPath, ReplyFault>
    ensures { Gives NoMemory (λ path. path) result (own_path text.now) }
{
    if text.is_empty() {
        return Ok(RelPath::root(alloc));
    }
    match RelPath::read(alloc, text.as_str()) {
        Ok(path) => if_own(path, text),
        Err(PathFault::NoMemory) => Err(ReplyFault::NoMemory),
        Err(_) => Err(ReplyFault::BadReply),
    }
}

/// A path, where the text that it was read of is its own.
fn if_own(path: RelPath, text: &Text) -> Result<RelPath, ReplyFault>
    ensures { result ≡ if_own text.now (Ok path) }
{
    if path.as_str() == text.as_str() {
        Ok(path)
    } else {
        Err(ReplyFault::BadReply)
    }
}

/// A path as its text.
pub(crate) fn path_text(alloc: Global, path: &RelPath) -> Result<Text, NoMemory>
    ensures text { IfOk result (λ text. text ≡ path.now) }
    // It is read again.
    ensures again { own_path path.now ≡ Ok path.now }
{
    Text::copy_of(alloc, path.as_str())
}
