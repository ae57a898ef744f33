//! What a compile word can say, and where its value stands. Which words there are stands in `rows`.

/// Which words a row speaks of, and where their value stands.
#[derive(Clone, Copy, Debug, PartialEq, Eq)]
pub(crate) enum Form {
    /// The spelling itself, without a value.
    Alone,
    /// The spelling itself; the next word is the value.
    Next,
    /// Words that begin with the spelling; what follows it is the value.
    Joined,
    /// `Joined`, for values without a comma.
    JoinedWithoutComma,
    /// `Next` for the spelling itself, and `Joined` for longer words.
    JoinedOrNext,
    /// Words that end in the spelling and don't begin with `-`; the whole word is the value.
    Ending,
}

/// What a word says with its value.
#[derive(Clone, Copy, Debug, PartialEq, Eq)]
pub(crate) enum Meaning {
    /// The word isn't a compile word.
    Refused,
    /// Nothing that is read here.
    Nothing,
    /// The machine that is compiled for, by a word that begins with `-m`.
    Machine,
    /// The machine that is compiled for, as a whole.
    Target,
    /// The language of the source.
    Language,
    /// A way to compile, by a word that begins with `-f`.
    Feature,
    /// What the compiler prints.
    Print,
    /// Words for the assembler, between commas.
    Assembler,
    /// Words for the preprocessor, between commas, of which none names a file.
    Preprocessor,
    /// A source in C.
    CSource,
    /// A source in C++.
    CppSource,
    /// A source in another language, or one whose includes are known no more. The word isn't a
    /// compile word.
    OtherSource,
    /// A directory for quoted names alone.
    QuoteDir,
    /// A directory for quoted and angled names.
    Dir,
    /// Such a directory, sought in after those.
    SystemDir,
    /// Such a directory, sought in after these.
    AfterDir,
    /// A file that is included before the source's first line.
    Forced,
    /// The root of the system's own directories.
    Sysroot,
    /// The object, by its name.
    Output,
    /// The file that the dependencies are written to.
    DependencyFile,
    /// That file, by a word for the preprocessor.
    WrittenDependencies,
    /// That dependencies are written.
    Dependencies,
    /// That debug information goes to a file of its own beside the object.
    SplitDebug,
    /// That the size of each function's stack is written beside the object.
    StackUsage,
    /// That times are written beside the object.
    TimeTrace,
    /// That the object has another ending, where it has no name.
    Bitcode,
    /// A file that is made besides. No word of its own says it.
    Made,
    /// That the source is compiled and not linked.
    CompileOnly,
}

impl Meaning {
    ghost use Rattle.std.specs.Prelude.{◌≡◌};
    ghost use Rattle.rx_cppflags.specs.Meanings.{same, names_output, names_path, names_side, names_source};

    /// Whether it is this one.
    pub(crate) fn is(self, other: Meaning) -> bool
        ensures { result ≡ same self other }
    {
        self == other
    }

    /// Whether the value is a path that the compiler writes.
    pub(crate) fn names_output(self) -> bool
        ensures { result ≡ names_output self }
    {
        self.is(Meaning::Output) || self.is(Meaning::Made)
    }

    /// Whether the value is a path.
    pub(crate) fn names_path(self) -> bool
        ensures { result ≡ names_path self }
    {
        matches!(
            self,
            Meaning::CSource
                | Meaning::CppSource
                | Meaning::QuoteDir
                | Meaning::Dir
                | Meaning::SystemDir
                | Meaning::AfterDir
                | Meaning::Forced
                | Meaning::Sysroot
                | Meaning::Output
                | Meaning::Made
        )
    }

    /// Whether a file is made beside the object.
    pub(crate) fn names_side(self) -> bool
        ensures { result ≡ names_side self }
    {
        self.is(Meaning::SplitDebug) || self.is(Meaning::StackUsage) || self.is(Meaning::TimeTrace)
    }

    /// Whether the value is a source, of whatever language.
    pub(crate) fn names_source(self) -> bool
        ensures { result ≡ names_source self }
    {
        self.is(Meaning::CSource) || self.is(Meaning::CppSource) || self.is(Meaning::OtherSource)
    }
}
