//! The modes of new files. A file is opened with its mode, and the process's mask takes bits from it, or a list of rights that the
//! directory hands on does.

use std::fs::{OpenFile, Permissions};
use std::io;
use std::os::unix::fs::PermissionsExt;

const EXECUTABLE_MODE: u32 = 0o755;

const PLAIN_MODE: u32 = 0o644;

/// The bits of a mode that aren't the file's type.
const MODE_BITS: u32 = 0o7777;

/// The mode of an executable file, or of any other.
pub(crate) fn mode_of(executable: bool) -> u32 {
    if executable {
        EXECUTABLE_MODE
    } else {
        PLAIN_MODE
    }
}

/// What becomes of a mode that files are opened with.
#[derive(Clone, Copy)]
enum Fate {
    /// No file was opened with it yet.
    Unknown,
    /// A new file has it.
    Kept,
    /// A new file may lack some of it.
    Cut,
}

/// What becomes of both modes, in directories that take the same bits.
#[derive(Clone, Copy)]
pub(crate) struct Modes {
    plain: Fate,
    executable: Fate,
}

impl Modes {
    /// The first new file of each mode tells it.
    pub(crate) fn unknown() -> Modes {
        Modes {
            plain: Fate::Unknown,
            executable: Fate::Unknown,
        }
    }

    /// Each file's mode has to be set.
    pub(crate) fn cut() -> Modes {
        Modes {
            plain: Fate::Cut,
            executable: Fate::Cut,
        }
    }

    /// Sets the mode of a new file that was opened with it, unless it has it anyway.
    pub(crate) fn settle<F: OpenFile>(&mut self, file: &F, executable: bool) -> io::Result<()> {
        let mode = mode_of(executable);
        let fate = if executable {
            self.executable
        } else {
            self.plain
        };
        match fate {
            Fate::Kept => Ok(()),
            Fate::Cut => file.set_permissions(Permissions::from_mode(mode)),
            Fate::Unknown => {
                let told = file.metadata()?.permissions().mode() & MODE_BITS;
                self.learn(executable, told == mode);
                file.set_permissions(Permissions::from_mode(mode))
            }
        }
    }

    /// Keeps whether a new file has its mode.
    fn learn(&mut self, executable: bool, is_kept: bool) {
        let fate = if is_kept { Fate::Kept } else { Fate::Cut };
        if executable {
            self.executable = fate;
        } else {
            self.plain = fate;
        }
    }
}
