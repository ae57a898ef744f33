//! How much may still be sent on a stream (RFC 9113 6.9).
//!
//! A window is that of a new stream, more what WINDOW_UPDATE gave ahead, less what was sent behind. So a change of
//! the window of new streams, SETTINGS_INITIAL_WINDOW_SIZE, shifts the window of each stream without touching it,
//! also below 0 (RFC 9113 6.9.2).

ghost use Rattle.std.specs.Prelude.{◌≡◌, ◌≤◌, ◌+◌};
ghost use Rattle.rx_h2conn.specs.Window.{room, spent, granted, grows_past};

/// No window may be larger than 2^31 - 1 (RFC 9113 6.9.1).
pub const LARGEST_WINDOW: u32 = 2_147_483_647;

/// The window of a stream beside that of a new one.
#[derive(Clone, Copy, Debug, PartialEq, Eq)]
pub struct Window {
    pub ahead: u32,
    pub behind: u32,
}

impl Window {
    /// What there is room for, where this is the window of a new stream.
    pub fn room(self, initial: u32) -> u64
        ensures { result ≡ room initial self }
    {
        (initial as u64 + self.ahead as u64).saturating_sub(self.behind as u64)
    }

    /// The window after so many bytes were sent.
    pub fn spent(self, initial: u32, size: u32) -> Window
        requires { size ≤ room initial self }
        ensures { result ≡ spent self size }
    {
        Window {
            ahead: self.ahead.saturating_sub(size),
            behind: self.behind + size.saturating_sub(self.ahead),
        }
    }

    /// Whether so much more makes the window larger than any may be.
    pub fn grows_past(self, initial: u32, size: u32) -> bool
        ensures { result ≡ grows_past initial self size }
    {
        LARGEST_WINDOW as u64 + (self.behind as u64)
            < initial as u64 + self.ahead as u64 + size as u64
    }

    /// The window after the server allowed so much more.
    pub fn granted(self, size: u32) -> Window
        requires { self.ahead + size ≤ 2147483647 + self.behind }
        ensures { result ≡ granted self size }
    {
        Window {
            ahead: self.ahead + size.saturating_sub(self.behind),
            behind: self.behind.saturating_sub(size),
        }
    }
}
