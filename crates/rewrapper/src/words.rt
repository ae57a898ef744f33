//! The words that ask for help or for the version, and what is printed then.

ghost use Rattle.std.specs.Prelude.{◌≡◌};
ghost use Rattle.rewrapper.specs.Words.{are_alone};

use rx_base::Text;

/// What `--help` prints.
pub(crate) const USAGE: &str = "usage: rewrapper [FLAG ..] [--] COMMAND [WORD ..]
Has a command run by reproxy, writes what it wrote and ends with its code.
A flag is -name=value or -name value, with one dash or two. It may also be set by the environment
variable RBE_name, and by a line name=value of the configuration file.
  -cfg=PATH                 the configuration file
  -server_address=ADDRESS   where reproxy listens: unix://PATH or 127.0.0.1:PORT
                            (unix:///tmp/reproxy.sock)
  -exec_root=PATH           the root that reproxy serves; commands are called in it
  -exec_strategy=NAME       local, remote, remote_local_fallback or racing (remote)
  -labels=NAME=VALUE,..     type=compile for a compile step, whose inputs are found (type=tool)
  -inputs=PATH,..           files and directories that the command may read, relative to exec_root
  -toolchain_inputs=PATH,.. the same, of its tools
  -output_files=PATH,..     files that it writes, relative to exec_root
  -platform=NAME=VALUE,..   what the farm chooses a machine by
  -env_var_allowlist=NAME,..  variables of the environment that the command gets; it gets no others
  -remote_accept_cache[=TRUTH]  whether a result that the farm keeps will do (true)
  -exec_timeout=TIME        how long the farm may run it: seconds, or digits and s, m or h
  -relative_paths[=TRUTH]   makes absolute paths below exec_root in the words relative (false)
  -in_place[=TRUTH]         runs a compile step that reproxy can't take itself, as it was given (true)
  -without_proxy=NAME       where there is no reproxy: refuse, or in_place to run the command (refuse)
  -verbose[=TRUTH]          says why a command is run in place (false)
  -shutdown_proxy[=TRUTH]   asks reproxy to end, and runs nothing (false)
";

/// What `--version` prints. The version is the one that calls on a farm tell.
pub(crate) const VERSION: &str = "rewrapper 0.1\n";

/// Whether the words are this one alone.
pub(crate) fn are_alone(alone: &str, words: &[Text]) -> bool
    ensures { result ≡ are_alone alone.now words.now }
{
    match words {
        [word] => word.as_str() == alone,
        _ => false,
    }
}
