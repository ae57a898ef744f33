//! What is told of a reply, in words for standard error: why a client runs its compile step itself. Other replies tell all
//! by themselves.

use rx_session::{InPlaceCause, Reply};
use rx_world::{Limit, LocalCause};
use std::alloc::{AllocError, Global};

/// Why the client runs its step itself, if it does.
pub(crate) fn reply_in_words(alloc: Global, reply: &Reply) -> Result<Option<String>, AllocError> {
    match reply {
        Reply::InPlace { cause } => Ok(Some(in_place_in_words(alloc, cause)?)),
        _ => Ok(None),
    }
}

/// The word or the path that keeps a step where its client runs it, or the limit that it passes.
fn in_place_in_words(alloc: Global, cause: &InPlaceCause) -> Result<String, AllocError> {
    let what = match cause {
        InPlaceCause::Kept {
            cause: LocalCause::Word { word },
        } => word.as_str(),
        InPlaceCause::Kept {
            cause: LocalCause::Path { path },
        } => path.as_str(),
        InPlaceCause::TooLarge { limit } => limit_in_words(*limit),
    };
    format!(in alloc; "in place: {what}")
}

/// Which limit on what a command reads was passed.
fn limit_in_words(limit: Limit) -> &'static str {
    match limit {
        Limit::ScanFiles => "it reads more than 20,000 files",
        Limit::FileBytes => "it reads a file of more than 67,108,864 bytes",
        Limit::ScanBytes => "the files that it reads have more than 1,073,741,824 bytes",
        Limit::ListFiles => "more than 50,000 files are below its directories",
        Limit::ListBytes => "the files below its directories have more than 1,073,741,824 bytes",
    }
}
