//! The table of flags: the one place where a flag's name, form and default stand.

ghost use Rattle.std.specs.Prelude.{◌≡◌};
ghost use Rattle.rx_wrap.specs.Flags.{default_of, flag_named, is_same, is_switch};

/// What a flag sets.
#[derive(Clone, Copy, Debug, PartialEq, Eq)]
pub enum Flag {
    /// `cfg`: the configuration file's path; the file itself can't set it.
    Config,
    /// `server_address`: where the proxy listens.
    ServerAddress,
    /// `exec_root`: the served root.
    ExecRoot,
    /// `exec_strategy`: `local`, `remote`, `remote_local_fallback` or `racing`.
    ExecStrategy,
    /// `labels`: pairs by comma; `type=compile` makes the command a compile step.
    Labels,
    /// `inputs`: paths by comma, relative to the root, like those of the next two.
    Inputs,
    /// `toolchain_inputs`: paths by comma.
    ToolchainInputs,
    /// `output_files`: paths by comma.
    OutputFiles,
    /// `platform`: pairs by comma.
    Platform,
    /// `env_var_allowlist`: the names of environment variables by comma.
    EnvironmentAllowlist,
    /// `remote_accept_cache`: whether a result of the farm's action cache will do.
    AcceptCached,
    /// `exec_timeout`: a number of seconds, or digits and `s`, `m` or `h`.
    ExecTimeout,
    /// `shutdown_proxy`: ends the proxy and runs nothing.
    ShutdownProxy,
    /// `relative_paths`: makes absolute paths below the root relative to the working directory.
    RelativePaths,
    /// `in_place`: a compile step that the proxy can't take runs in place.
    InPlace,
    /// `without_proxy`: `refuse` or `in_place`, where there is no proxy.
    WithoutProxy,
    /// `verbose`: says why a command runs in place.
    Verbose,
}

impl Flag {
    /// Whether it is this one.
    pub fn is(self, other: Flag) -> bool
        ensures { result ≡ is_same self other }
    {
        self == other
    }

    /// The flag of this name.
    #[tactic(auto, unfolding(crate::specs::Flags::flag_named))]
    pub fn named(name: &str) -> Option<Flag>
        ensures { result ≡ flag_named name.now }
    {
        match name {
            "cfg" => Some(Flag::Config),
            "server_address" => Some(Flag::ServerAddress),
            "exec_root" => Some(Flag::ExecRoot),
            "exec_strategy" => Some(Flag::ExecStrategy),
            "labels" => Some(Flag::Labels),
            "inputs" => Some(Flag::Inputs),
            "toolchain_inputs" => Some(Flag::ToolchainInputs),
            "output_files" => Some(Flag::OutputFiles),
            "platform" => Some(Flag::Platform),
            "env_var_allowlist" => Some(Flag::EnvironmentAllowlist),
            "remote_accept_cache" => Some(Flag::AcceptCached),
            "exec_timeout" => Some(Flag::ExecTimeout),
            "shutdown_proxy" => Some(Flag::ShutdownProxy),
            "relative_paths" => Some(Flag::RelativePaths),
            "in_place" => Some(Flag::InPlace),
            "without_proxy" => Some(Flag::WithoutProxy),
            "verbose" => Some(Flag::Verbose),
            _ => None,
        }
    }

    /// Whether the flag alone is true, and takes a value only behind `=`.
    pub fn is_switch(self) -> bool
        ensures { result ≡ is_switch self }
    {
        matches!(
            self,
            Flag::AcceptCached
                | Flag::ShutdownProxy
                | Flag::RelativePaths
                | Flag::InPlace
                | Flag::Verbose
        )
    }

    /// The text of the flag's value where none is given; `exec_root` has none, and an empty text
    /// stands for it.
    pub fn default_text(self) -> &'static str
        ensures { result.now ≡ default_of self }
    {
        match self {
            Flag::ServerAddress => "unix:///tmp/reproxy.sock",
            Flag::ExecStrategy => "remote",
            Flag::Labels => "type=tool",
            Flag::AcceptCached | Flag::InPlace => "true",
            Flag::ExecTimeout => "0",
            Flag::ShutdownProxy | Flag::RelativePaths | Flag::Verbose => "false",
            Flag::WithoutProxy => "refuse",
            _ => "",
        }
    }
}
