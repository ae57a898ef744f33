//! SETTINGS (RFC 9113 6.5): what the server asks for.
//!
//! Of its entries SETTINGS_INITIAL_WINDOW_SIZE shifts the windows of all streams. SETTINGS_MAX_FRAME_SIZE is judged and
//! needs no more, since no frame that is sent has more than 16,384 bytes, the least that it may be.

ghost use Rattle.std.specs.Prelude.{◌≡◌, ◌%◌, length, None};
ghost use Rattle.std.specs.List.{list_any};
ghost use Rattle.rx_h2conn.specs.State.{state_of, DoesBy};
ghost use Rattle.rx_h2conn.specs.Settings.{settings_of, asks, asked, blank_asked, widens, asked_update, on_entries, on_settings};
ghost use Rattle.rx_h2conn.specs.Updates.{overflows};
ghost use Rattle.rx_h2frame.specs.Seen.{frame_view};

use crate::fault::ConnFault;
use crate::machine::{ENHANCE_YOUR_CALM, FLOW_CONTROL_ERROR, Machine, PROTOCOL_ERROR, number};
use crate::ping::MOST_ACKS;
use crate::stream::Stream;
use crate::window::LARGEST_WINDOW;
use rx_h2frame::{ACK, Frame, FrameOut, Kind, is_set, write_frame};

/// SETTINGS_HEADER_TABLE_SIZE, and what it is until the server says otherwise (RFC 9113 6.5.2).
const HEADER_TABLE_SIZE: u16 = 1;

const FIRST_TABLE_SIZE: u32 = 4096;

/// SETTINGS_INITIAL_WINDOW_SIZE (RFC 9113 6.5.2).
const INITIAL_WINDOW_SIZE: u16 = 4;

/// SETTINGS_MAX_FRAME_SIZE, and the least and largest that it may be (RFC 9113 6.5.2).
const MAX_FRAME_SIZE: u16 = 5;

const LEAST_FRAME_SIZE: u32 = 16_384;

const LARGEST_FRAME_SIZE: u32 = 16_777_215;

/// Whether a header block has to tell the server that this side keeps no dynamic table (RFC 7541 4.2).
#[derive(Clone, Copy, Debug, PartialEq, Eq)]
pub enum SizeUpdate {
    /// The server didn't ask for a smaller table.
    NotAsked,
    /// The next header block that is sent begins with it.
    Due,
    Told,
}

/// What the entries of a SETTINGS frame ask for together.
#[derive(Clone, Copy)]
pub struct Asked {
    /// The window of new streams after all of them.
    pub initial: u32,
    /// The largest that it was after any of them, 0 where none changes it.
    pub widest: u32,
    /// A dynamic table smaller than the first is asked for.
    pub shrinks: bool,
    /// A frame size is none that may be.
    pub is_wrong: bool,
}

impl Asked {
    /// What is asked for with one entry more.
    fn with(self, name: u16, value: u32) -> Asked
        ensures { result ≡ asks self (record { name = name; value = value }) }
    {
        match name {
            HEADER_TABLE_SIZE => Asked {
                shrinks: self.shrinks || value < FIRST_TABLE_SIZE,
                ..self
            },
            INITIAL_WINDOW_SIZE => Asked {
                initial: value,
                widest: self.widest.max(value),
                ..self
            },
            MAX_FRAME_SIZE => Asked {
                is_wrong: self.is_wrong || value < LEAST_FRAME_SIZE || LARGEST_FRAME_SIZE < value,
                ..self
            },
            _ => self,
        }
    }
}

/// Reads the entries.
///
/// ```text
/// +-------------------------------+
/// |           name (16)           |
/// +-------------------------------+-------------------------------+
/// |                          value (32)                           |
/// +---------------------------------------------------------------+
/// ```
fn read_settings(body: &[u8], initial: u32) -> Asked
    requires { length body.now % 6 ≡ 0 }
    ensures { result ≡ asked (blank_asked initial) (settings_of body.now) }
{
    let mut all = Asked {
        initial,
        widest: 0,
        shrinks: false,
        is_wrong: false,
    };
    let mut left = body;
    while !left.is_empty() {
        let name = left[0] as u16 * 256 + left[1] as u16;
        let (_, rest) = left.split_at(2);
        let value = number(rest);
        all = all.with(name, value);
        let (_, back) = rest.split_at(4);
        left = back;
    }
    all
}

impl SizeUpdate {
    fn asked(self, shrinks: bool) -> SizeUpdate
        ensures { result ≡ asked_update shrinks self }
    {
        match self {
            SizeUpdate::NotAsked if shrinks => SizeUpdate::Due,
            other => other,
        }
    }
}

/// Whether one of the windows would be too large, were this that of a new stream.
fn any_overflows(streams: &[Stream], initial: u32) -> bool
    ensures { result ≡ list_any (λ t. overflows initial t 0) streams.now }
{
    streams.iter().any(|t| t.overflows(initial, 0))
}

impl Machine {
    /// Whether a window would be too large after one of the entries.
    fn widens(&self, all: Asked) -> bool
        ensures { result ≡ widens (state_of self.now) all }
    {
        let widest = all.widest;
        LARGEST_WINDOW < widest
            || self.initial < widest && any_overflows(self.streams.as_slice(), widest)
    }

    /// Does what the entries ask for together, and acknowledges them.
    #[tactic(auto, unfolding(crate::specs::Settings::on_entries))]
    fn on_entries(&mut self, all: Asked) -> Result<(), ConnFault>
        requires none { self.old.fault ≡ None }
        ensures { DoesBy (λ s. on_entries s all) self.old self.new result }
    {
        if self.widens(all) {
            return self.fail(FLOW_CONTROL_ERROR);
        }
        if MOST_ACKS <= self.acks {
            return self.fail(ENHANCE_YOUR_CALM);
        }
        if self.is_interrupted() || all.is_wrong {
            return self.fail(PROTOCOL_ERROR);
        }
        let answer = FrameOut {
            kind: Kind::Settings,
            flags: ACK,
            stream: 0,
            payload: &[],
        };
        write_frame(&answer, &mut self.queued)?;
        self.acks += 1;
        self.initial = all.initial;
        self.size_update = self.size_update.asked(all.shrinks);
        Ok(())
    }

    /// SETTINGS, or the acknowledgement of this side's.
    #[tactic(auto, unfolding(crate::specs::Settings::on_settings))]
    pub fn on_settings(&mut self, f: &Frame) -> Result<(), ConnFault>
        requires none { self.old.fault ≡ None }
        requires body { length f.now.body.now % 6 ≡ 0 }
        ensures { DoesBy (λ s. on_settings s (frame_view f.now)) self.old self.new result }
    {
        if is_set(f.flags, ACK) {
            return self.pass();
        }
        let all = read_settings(f.body, self.initial);
        self.on_entries(all)
    }
}
