//! The table of compile words: the one place where a flag is added, in one line.

ghost use Rattle.std.specs.Prelude.{◌≡◌, ◌==◌, Some, map, option_map};
ghost use Rattle.std.specs.List.{list_any};
ghost use Rattle.rx_cppflags.specs.Rows.{behind, fits, first_fitting, own_value, row_for, row_of, rows, takes_next};

use crate::meanings::Form::{self, *};
use crate::meanings::Meaning::{self, *};

/// A spelling, the words that it stands for, and what they say.
pub(crate) type Row = (&'static str, Form, Meaning);

/// The compile words. The first row that fits a word counts, so a longer spelling stands before a
/// shorter one that it begins with.
pub(crate) static ROWS: [Row; 144] = [
    ("-I", JoinedOrNext, Dir),
    ("--include-directory", Next, Dir),
    ("--include-directory=", Joined, Dir),
    ("-iquote", JoinedOrNext, QuoteDir),
    ("-isystem-after", Next, AfterDir),
    ("-isystem", JoinedOrNext, SystemDir),
    ("-cxx-isystem", JoinedOrNext, SystemDir),
    ("-idirafter", JoinedOrNext, AfterDir),
    ("-include", Next, Forced),
    ("-imacros", Next, Forced),
    ("--include", Next, Forced),
    ("--imacros", Next, Forced),
    ("--include=", Joined, Forced),
    ("--imacros=", Joined, Forced),
    ("--sysroot", Next, Sysroot),
    ("--sysroot=", Joined, Sysroot),
    ("-o", JoinedOrNext, Output),
    ("-MF", JoinedOrNext, DependencyFile),
    ("-MD", Alone, Dependencies),
    ("-MMD", Alone, Dependencies),
    ("-c", Alone, CompileOnly),
    ("-x", JoinedOrNext, Language),
    ("-D", JoinedOrNext, Nothing),
    ("-U", JoinedOrNext, Nothing),
    ("--define-macro", Next, Nothing),
    ("--define-macro=", Joined, Nothing),
    ("--undefine-macro", Next, Nothing),
    ("--undefine-macro=", Joined, Nothing),
    ("-Wp,-MD,", JoinedWithoutComma, WrittenDependencies),
    ("-Wp,-MMD,", JoinedWithoutComma, WrittenDependencies),
    ("-Wp,-MT,", JoinedWithoutComma, Nothing),
    ("-Wp,-MQ,", JoinedWithoutComma, Nothing),
    ("-Wp,", Joined, Preprocessor),
    ("-Wa,", Joined, Assembler),
    ("-Xassembler", Next, Assembler),
    ("-w", Alone, Nothing),
    ("-v", Alone, Nothing),
    ("-p", Alone, Nothing),
    ("-pg", Alone, Nothing),
    ("-s", Alone, Nothing),
    ("-pipe", Alone, Nothing),
    ("-pthread", Alone, Nothing),
    ("-ansi", Alone, Nothing),
    ("-trigraphs", Alone, Nothing),
    ("-undef", Alone, Nothing),
    ("-pedantic", Alone, Nothing),
    ("-pedantic-errors", Alone, Nothing),
    ("-nostdinc", Alone, Nothing),
    ("-nostdinc++", Alone, Nothing),
    ("-nobuiltininc", Alone, Nothing),
    ("-nostdlib", Alone, Nothing),
    ("-nostdlib++", Alone, Nothing),
    ("-nodefaultlibs", Alone, Nothing),
    ("-nostartfiles", Alone, Nothing),
    ("-nolibc", Alone, Nothing),
    ("-no-canonical-prefixes", Alone, Nothing),
    ("-canonical-prefixes", Alone, Nothing),
    ("-static", Alone, Nothing),
    ("-shared", Alone, Nothing),
    ("-pie", Alone, Nothing),
    ("-no-pie", Alone, Nothing),
    ("-rdynamic", Alone, Nothing),
    ("-H", Alone, Nothing),
    ("-P", Alone, Nothing),
    ("-C", Alone, Nothing),
    ("-CC", Alone, Nothing),
    ("-Q", Alone, Nothing),
    ("-Qn", Alone, Nothing),
    ("-Qunused-arguments", Alone, Nothing),
    ("-integrated-as", Alone, Nothing),
    ("-no-integrated-as", Alone, Nothing),
    ("-emit-llvm", Alone, Bitcode),
    ("-MP", Alone, Nothing),
    ("--ansi", Alone, Nothing),
    ("--pedantic", Alone, Nothing),
    ("--pedantic-errors", Alone, Nothing),
    ("--verbose", Alone, Nothing),
    ("--no-warnings", Alone, Nothing),
    ("--all-warnings", Alone, Nothing),
    ("--extra-warnings", Alone, Nothing),
    ("--trigraphs", Alone, Nothing),
    ("--no-standard-includes", Alone, Nothing),
    ("-MT", Next, Nothing),
    ("-MQ", Next, Nothing),
    ("-mllvm", Next, Nothing),
    ("-mthread-model", Next, Nothing),
    ("-arch", Next, Nothing),
    ("--param", Next, Nothing),
    ("-Xlinker", Next, Nothing),
    ("-z", Next, Nothing),
    ("-u", Next, Nothing),
    ("-target", Next, Target),
    ("--target=", Joined, Target),
    ("-L", JoinedOrNext, Nothing),
    ("-l", JoinedOrNext, Nothing),
    ("-R", Joined, Nothing),
    ("-std=", Joined, Nothing),
    ("--std=", Joined, Nothing),
    ("-stdlib=", Joined, Nothing),
    ("-rtlib=", Joined, Nothing),
    ("-unwindlib=", Joined, Nothing),
    ("-static-", Joined, Nothing),
    ("-shared-", Joined, Nothing),
    ("--param=", Joined, Nothing),
    ("--optimize", Joined, Nothing),
    ("--warn-", Joined, Nothing),
    ("--no-warn-", Joined, Nothing),
    ("-W", Joined, Nothing),
    ("-Ob", Joined, Refused),
    ("-O", Joined, Nothing),
    ("-gsplit-dwarf", Alone, SplitDebug),
    ("-gsplit-dwarf=", Joined, Refused),
    ("-gcc", Joined, Refused),
    ("-gen", Joined, Refused),
    ("-gmodules", Joined, Refused),
    ("-g", Joined, Nothing),
    ("-march=native", Joined, Refused),
    ("-mcpu=native", Joined, Refused),
    ("-mtune=native", Joined, Refused),
    ("-mod", Joined, Refused),
    ("-mul", Joined, Refused),
    ("-m", Joined, Machine),
    ("-fstack-usage", Alone, StackUsage),
    ("-ftime-trace", Alone, TimeTrace),
    ("-finput-charset=UTF-8", Alone, Nothing),
    ("-finput-charset=utf-8", Alone, Nothing),
    ("-fopt-info", Joined, Print),
    ("-fdiagnostics-format=", Joined, Print),
    ("-f", Joined, Feature),
    ("@", Joined, Refused),
    (".c", Ending, CSource),
    (".cc", Ending, CppSource),
    (".cp", Ending, CppSource),
    (".cpp", Ending, CppSource),
    (".cxx", Ending, CppSource),
    (".c++", Ending, CppSource),
    (".C", Ending, CppSource),
    (".CPP", Ending, CppSource),
    (".m", Ending, OtherSource),
    (".mm", Ending, OtherSource),
    (".i", Ending, OtherSource),
    (".ii", Ending, OtherSource),
    (".s", Ending, OtherSource),
    (".S", Ending, OtherSource),
];

/// The table, in which each spelling finds its own row.
fn table() -> &'static [Row]
    ensures rows { map row_of result.now ≡ rows }
    ensures reached { map (λ row. first_fitting row.spelling rows) rows
        ≡ map (λ row. Some row) rows }
{
    &ROWS
}

/// The row that a word is read by.
#[tactic(auto, unfolding(crate::specs::Rows::row_for))]
pub(crate) fn row_for(word: &str) -> Option<Row>
    ensures { option_map row_of result ≡ row_for word.now }
{
    first_fitting(table(), word)
}

fn first_fitting(rows: &[Row], word: &str) -> Option<Row>
    ensures { option_map row_of result ≡ first_fitting word.now (map row_of rows.now) }
{
    for row in rows {
        if fits(*row, word) {
            return Some(*row);
        }
    }
    None
}

/// Whether a row speaks of a word.
fn fits(row: Row, word: &str) -> bool
    ensures { result ≡ fits word.now (row_of row.entry) }
{
    let (spelling, form, _) = row;
    let (start, bytes) = (spelling.as_bytes(), word.as_bytes());
    match form {
        Alone | Next => bytes == start,
        Joined | JoinedOrNext => bytes.starts_with(start),
        JoinedWithoutComma => bytes.starts_with(start) && !has_comma(behind(spelling, word)),
        Ending => bytes.ends_with(start) && !bytes.starts_with(b"-"),
    }
}

fn has_comma(text: &str) -> bool
    ensures { result ≡ list_any (λ b. b == 44) text.now }
{
    text.as_bytes().contains(&b',')
}

/// Whether the value of a word that a row speaks of is the next word.
pub(crate) fn takes_next(row: Row, word: &str) -> bool
    ensures { result ≡ takes_next word.now (row_of row.entry) }
{
    let (spelling, form, _) = row;
    match form {
        Next => true,
        JoinedOrNext => word.len() == spelling.len(),
        Alone | Joined | JoinedWithoutComma | Ending => false,
    }
}

/// The value that stands in a word that a row speaks of.
pub(crate) fn own_value(row: Row, word: &str) -> &str
    ensures { result.now ≡ own_value word.now (row_of row.entry) }
{
    let (spelling, form, _) = row;
    match form {
        Ending => word,
        _ => behind(spelling, word),
    }
}

/// What follows a spelling in a word that begins with it.
fn behind<'a>(spelling: &str, word: &'a str) -> &'a str
    ensures { result.now ≡ behind spelling.now word.now }
{
    match word.strip_prefix(spelling) {
        Some(rest) => rest,
        None => "",
    }
}
