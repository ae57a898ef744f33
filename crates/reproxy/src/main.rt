//! The proxy program: it reads its words, makes the parts of the outside and serves.
#![tactic(auto)]

mod bad_words;
mod clients;
mod desk;
mod farm;
mod halts;
mod listen;
mod local_words;
mod remote_words;
mod reply_words;
mod serve;
mod session_words;
mod settled;
mod words;

use crate::bad_words::bad_word;
use crate::desk::Host;
use crate::listen::listen;
use crate::serve::serve;
use crate::session_words::tell_sessions;
use crate::settled::{resolved, settled, slots_of};
use crate::words::{Page, page_in};
use rx_daemon::{Options, options_in};
use rx_host::{
    Children, Contents, FarmShare, Hands, HostListener, draw_seed, open_files_limit, open_files_of,
    remove_left_aside,
};
use std::alloc::AllocError;
use std::io::ErrorKind;
use std::process::ExitCode;
use std::{env, io, process};

/// The status of a command line that the program doesn't take.
const BAD_WORDS: u8 = 2;

/// The status where no client can connect, or there is no directory to serve.
const FRONT_LOST: u8 = 3;

/// The status where memory runs out outside a session, or the machine has no random numbers.
const NO_MEMORY: u8 = 4;

/// The status where as many clients were served as there are numbers.
const SPENT: u8 = 7;

/// The status where the journal isn't that of the sessions.
const DISAGREES: u8 = 8;

fn main(rt: HostRuntime) -> ExitCode {
    match read_words(&rt) {
        Ok(words) => match page_in(&words) {
            Some(page) => print_page(&rt, page),
            None => ExitCode::from(run_words(rt, rt, &words)),
        },
        Err(error) if error.kind() == ErrorKind::OutOfMemory => ExitCode::from(NO_MEMORY),
        Err(_) => {
            let _ = eprintln!(rt; "reproxy: bad command line: a word isn't UTF-8");
            ExitCode::from(BAD_WORDS)
        }
    }
}

/// Serves what the words ask for, or tells which of them is wrong.
fn run_words<H: Hands + Send + Sync>(rt: HostRuntime, hands: H, words: &[String]) -> u8 {
    match options_in(words) {
        Some(options) => run_options(rt, hands, words, &options),
        None => {
            if let Ok(word) = bad_word(rt.alloc(), words) {
                let _ = eprintln!(rt; "reproxy: bad command line: {word}");
            }
            BAD_WORDS
        }
    }
}

/// Serves what these options ask for, and waits for the programs that still run. The answer is the program's status.
fn run_options<H: Hands + Send + Sync>(
    rt: HostRuntime,
    hands: H,
    words: &[String],
    options: &Options<'_>,
) -> u8 {
    let Some(root) = root_of(&rt, options) else {
        return FRONT_LOST;
    };
    let (Ok(host), Ok(scratch)) = (
        host_of(rt, hands),
        String::from_str(rt.alloc(), options.scratch),
    ) else {
        return NO_MEMORY;
    };
    if let Ok(children) = host.children.share() {
        remove_left_aside(rt, &hands, scratch, children);
    }
    let status = match options.listen {
        Some(_) => run_settled(&host, words, options, root.as_str()),
        None => run_one(&host, words),
    };
    host.children.wait_for_all(&hands);
    status
}

/// The root, resolved. Where it is no directory, a line tells so.
fn root_of(rt: &HostRuntime, options: &Options<'_>) -> Option<String> {
    let root = options.root;
    match resolved(rt, root) {
        Ok(path) => Some(path),
        Err(error) => {
            let _ = eprintln!(rt; "reproxy: can't serve {root}: {error}");
            None
        }
    }
}

/// What the desks of the run share.
fn host_of<H: Hands>(rt: HostRuntime, hands: H) -> Result<Host<H>, AllocError> {
    Ok(Host {
        rt,
        hands,
        children: Children::new(rt.alloc())?,
        contents: Contents::new(rt.alloc())?,
        farm_share: FarmShare::new(&rt, rt.alloc())?,
    })
}

/// Serves clients by the words that are settled with the machine.
fn run_settled<H: Hands + Send + Sync>(
    host: &Host<H>,
    words: &[String],
    options: &Options<'_>,
    root: &str,
) -> u8 {
    let slots = slots_of(&host.hands, words, options);
    let Ok(words) = settled(host.rt.alloc(), options, root, slots) else {
        return NO_MEMORY;
    };
    match options_in(&words) {
        Some(options) => match options.listen {
            Some(address) => run_clients(host, &words, options, address),
            None => BAD_WORDS,
        },
        None => BAD_WORDS,
    }
}

/// Serves one request, and tells why its attempts failed.
fn run_one<H: Hands + Send + Sync>(host: &Host<H>, words: &[String]) -> u8 {
    let rt = host.rt;
    let seed = match draw_seed(&rt) {
        Ok(seed) => seed,
        Err(error) => {
            let _ = eprintln!(rt; "reproxy: the machine's random source: {error}");
            return NO_MEMORY;
        }
    };
    match serve(host, words, seed, rt.stdin(), rt.stdout()) {
        Ok(ran) => {
            tell_sessions(&rt, &ran.transcripts);
            ran.status
        }
        Err(_) => NO_MEMORY,
    }
}

/// Serves the clients that connect at an address.
fn run_clients<H: Hands + Send + Sync>(
    host: &Host<H>,
    words: &[String],
    options: Options<'_>,
    address: &str,
) -> u8 {
    let rt = host.rt;
    if !has_room(&rt, options.sessions) {
        return FRONT_LOST;
    }
    let listener = match HostListener::bind(&rt, address, process::id(rt.process())) {
        Ok(listener) => listener,
        Err(error) => {
            let _ = eprintln!(rt; "reproxy: can't listen at {address}: {error}");
            return FRONT_LOST;
        }
    };
    let root = options.root;
    let _ = eprintln!(rt; "reproxy: serving {root} at {address}");
    match listen(host, words, options, listener) {
        Ok(ran) => {
            tell_end(&rt, ran.status);
            ran.status
        }
        Err(_) => NO_MEMORY,
    }
}

/// Tells why the run ended, where no client asked for it and no line has told it.
fn tell_end(rt: &HostRuntime, status: u8) {
    let why = match status {
        NO_MEMORY => "memory ran out for one more session",
        SPENT => "4,194,304 clients were served, and there are no more numbers: start it again",
        DISAGREES => "the journal isn't that of the sessions: please report this, with the log",
        _ => return,
    };
    let _ = eprintln!(rt; "reproxy: the run ends: {why}");
}

/// Whether so many sessions at once may have the files open that they can need. Where not, it tells so.
fn has_room(rt: &HostRuntime, sessions: u16) -> bool {
    let needed = open_files_of(sessions);
    match open_files_limit(rt) {
        Some(limit) if limit < needed => {
            let _ = eprintln!(rt;
                "reproxy: {sessions} sessions at once need {needed} open files, and the limit is {limit}: raise it (ulimit -n), or lower --sessions"
            );
            false
        }
        _ => true,
    }
}

/// The words after the program's name.
fn read_words(rt: &HostRuntime) -> io::Result<Vec<String>> {
    Ok(env::args(rt)?.skip(1).collect(rt.alloc())?)
}

/// Prints a text that the words ask for.
fn print_page(rt: &HostRuntime, page: Page) -> ExitCode {
    let text = page.text();
    match print!(rt; "{text}") {
        Ok(()) => ExitCode::SUCCESS,
        Err(_) => ExitCode::FAILURE,
    }
}
