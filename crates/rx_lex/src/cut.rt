//! What the code keeps of a piece.
ghost use Rattle.std.specs.Prelude.{◌≡◌, true, false};

#[derive(Clone, Copy)]
pub(crate) enum Kind {
    /// by `/*` or `//`
    Comment,
    /// a string or character literal
    Literal,
    /// a raw literal, and whether it goes over lines; that is told only where nothing else makes the file hard
    Raw(bool),
    Header,
    Number,
    Word,
    /// a run of blanks
    Blank,
    LineEnd,
    /// `#` or `%:`
    Hash,
    /// `(`
    Open,
    /// any other mark
    Mark,
}

#[derive(Clone, Copy)]
pub(crate) struct Cut {
    pub(crate) kind: Kind,
    /// false of a comment without end, of a literal without closing quote, and of a bad raw literal
    pub(crate) whole: bool,
    /// whether the piece makes the file hard wherever it stands
    pub(crate) hard: bool,
    /// the place behind it
    pub(crate) end: usize,
}

/// A piece that is whole and makes nothing hard.
#[inline(always)]
pub(crate) fn plain(kind: Kind, end: usize) -> Cut
    ensures { result ≡ (record { kind = kind; whole = true; hard = false; end = end }) }
{
    Cut {
        kind,
        whole: true,
        hard: false,
        end,
    }
}
