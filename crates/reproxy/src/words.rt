//! The words of the command line that ask for a text, and these texts.

ghost use Rattle.std.specs.Prelude.{◌≡◌};
ghost use Rattle.reproxy.specs.Words.{page_in};

/// What `--help` prints.
const USAGE: &str = "usage: reproxy exec --root PATH [OPTION]..
       reproxy serve --root PATH --listen ADDRESS [OPTION]..
exec serves one request: its frame comes from standard input, the reply goes to standard output.
serve serves the clients that connect, many at once, until one asks for its end (rewrapper
-shutdown_proxy) or a signal ends it.
reproxy exec --help and reproxy serve --help tell the options of each; reproxy --version tells the
version.
";

/// What `exec --help` prints.
const EXEC: &str = "usage: reproxy exec --root PATH [OPTION]..
Serves one request: its frame comes from standard input, the reply goes to standard output. The
reply to a request that watches waits until standard input has ended or said something more.
  --root PATH         the source tree, and the place for outputs: a directory, whose PATH begins
                      with a slash, and which the request names by the same words
  --remote HOST:PORT  the farm, without TLS; default: none, and each remote attempt fails
  --instance NAME     the farm's instance; default: the one without a name
  --scratch DIR       where sandboxes are made; DIR begins with a slash; default: /tmp
  --call-timeout SECONDS
                      how long a call on the farm may take in which no command runs, 1 to 3600;
                      default: 60
  --farm-silence SECONDS
                      how long the farm may be silent while a command runs, before it is asked
                      whether it still answers, 1 to 3600; default: 60
The options come in any order, each once at most, as two words or as --name=VALUE. A VALUE that
begins with a dash needs the second form. --sessions and --slots may stand there, and change nothing.
";

/// What `serve --help` prints.
const SERVE: &str = "usage: reproxy serve --root PATH --listen ADDRESS [OPTION]..
Serves the clients that connect, many at once, until one asks for its end (rewrapper
-shutdown_proxy) or a signal ends it.
  --root PATH         the source tree, and the place for outputs: a directory, whose PATH begins
                      with a slash; requests name it by its path without links
  --listen ADDRESS    where clients connect: unix://PATH, with a PATH that begins with a slash,
                      or 127.0.0.1:PORT
  --remote HOST:PORT  the farm, without TLS; default: none, and each remote attempt fails
  --instance NAME     the farm's instance; default: the one without a name
  --scratch DIR       where sandboxes are made; DIR begins with a slash; default: /tmp
  --sessions N        how many sessions run at once, 1 to 256; default: 16
  --slots N           how many commands run here at once, 1 to 256; default: as many as there are
                      processors
  --call-timeout SECONDS
                      how long a call on the farm may take in which no command runs, 1 to 3600;
                      default: 60
  --farm-silence SECONDS
                      how long the farm may be silent while a command runs, before it is asked
                      whether it still answers, 1 to 3600; default: 60
The options come in any order, each once at most, as two words or as --name=VALUE. A VALUE that
begins with a dash needs the second form.
";

/// What `--version` prints.
const VERSION: &str = "reproxy 0.1
";

/// A text that words ask for.
#[derive(Clone, Copy, Debug, PartialEq, Eq)]
pub(crate) enum Page {
    /// What the program does.
    Usage,
    /// The options of `exec`.
    Exec,
    /// The options of `serve`.
    Serve,
    Version,
}

impl Page {
    /// Its text.
    pub(crate) fn text(self) -> &'static str {
        match self {
            Page::Usage => USAGE,
            Page::Exec => EXEC,
            Page::Serve => SERVE,
            Page::Version => VERSION,
        }
    }
}

/// The text that the words ask for, if that is all they do.
pub(crate) fn page_in(words: &[String]) -> Option<Page>
    ensures { result ≡ page_in words.now }
{
    match words {
        [word] => match word.as_str() {
            "--help" => Some(Page::Usage),
            "--version" => Some(Page::Version),
            _ => None,
        },
        [command, word] if word.as_str() == "--help" => match command.as_str() {
            "exec" => Some(Page::Exec),
            "serve" => Some(Page::Serve),
            _ => None,
        },
        _ => None,
    }
}
