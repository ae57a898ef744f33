//! What came over a link at one time.

ghost use Rattle.std.specs.Prelude.{◌≡◌};
ghost use Rattle.rx_grpc.specs.Came.{is_end, is_piece, judged};

use crate::transfer_fault::TransferFault;

/// What came over a link at one time.
#[derive(Clone, Copy)]
pub enum Came {
    /// The link's end.
    End,
    /// Bytes that break no rule.
    Piece,
    /// Bytes with which the server broke a rule; the code is that of RFC 9113 7.
    Broken(u32),
}

impl Came {
    /// Whether the link has ended.
    pub fn is_end(self) -> bool
        ensures { result ≡ is_end self }
    {
        match self {
            Came::End => true,
            Came::Piece => false,
            Came::Broken(_) => false,
        }
    }

    /// Whether bytes came that break no rule.
    pub fn is_piece(self) -> bool
        ensures { result ≡ is_piece self }
    {
        match self {
            Came::End => false,
            Came::Piece => true,
            Came::Broken(_) => false,
        }
    }
}

/// What is shown is the answer, and else a broken rule is the fault. `None` where more may come.
pub fn answer_or_fault<T: Drop>(shown: Option<T>, came: Came) -> Option<Result<T, TransferFault>>
    ensures { result ≡ judged shown came }
{
    match shown {
        Some(answer) => Some(Ok(answer)),
        None => match came {
            Came::End => None,
            Came::Piece => None,
            Came::Broken(code) => Some(Err(TransferFault::Protocol(code))),
        },
    }
}
