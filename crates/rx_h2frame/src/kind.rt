//! The kinds of frames, and the byte of each (RFC 9113 6).

ghost use Rattle.std.specs.Prelude.{◌≡◌};
ghost use Rattle.rx_h2frame.specs.Kind.{number_of};

/// What a frame is. A frame of an unknown kind is skipped by whoever reads it (RFC 9113 4.1).
#[derive(Clone, Copy, Debug, PartialEq, Eq)]
pub enum Kind {
    /// Bytes of a stream (RFC 9113 6.1).
    Data,
    /// A header block, or the front of one (RFC 9113 6.2).
    Headers,
    /// Advice that RFC 9113 6.3 gave up.
    Priority,
    /// The end of a stream by an error (RFC 9113 6.4).
    ResetStream,
    /// What the peer asks for, or that it took what was asked (RFC 9113 6.5).
    Settings,
    /// A stream that the server opens (RFC 9113 6.6).
    PushPromise,
    /// A sign of life, or the answer to one (RFC 9113 6.7).
    Ping,
    /// No new streams are taken (RFC 9113 6.8).
    GoAway,
    /// More may be sent (RFC 9113 6.9).
    WindowUpdate,
    /// More of a header block (RFC 9113 6.10).
    Continuation,
    /// Any other, by its byte.
    Unknown(u8),
}

impl From<u8> for Kind {
    ghost use Rattle.std.specs.Prelude.{◌≡◌};
    ghost use Rattle.rx_h2frame.specs.Kind.{kind_of};

    ghost from_gives = { λ byte kind. kind ≡ kind_of byte };

    #[tactic(auto, unfolding(crate::specs::Kind::kind_of))]
    fn from(byte: u8) -> Kind {
        match byte {
            0 => Kind::Data,
            1 => Kind::Headers,
            2 => Kind::Priority,
            3 => Kind::ResetStream,
            4 => Kind::Settings,
            5 => Kind::PushPromise,
            6 => Kind::Ping,
            7 => Kind::GoAway,
            8 => Kind::WindowUpdate,
            9 => Kind::Continuation,
            other => Kind::Unknown(other),
        }
    }
}

impl Kind {
    /// The byte that names this kind.
    pub fn number(self) -> u8
        ensures { result ≡ number_of self }
    {
        match self {
            Kind::Data => 0,
            Kind::Headers => 1,
            Kind::Priority => 2,
            Kind::ResetStream => 3,
            Kind::Settings => 4,
            Kind::PushPromise => 5,
            Kind::Ping => 6,
            Kind::GoAway => 7,
            Kind::WindowUpdate => 8,
            Kind::Continuation => 9,
            Kind::Unknown(byte) => byte,
        }
    }
}
