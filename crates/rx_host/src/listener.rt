//! Where the proxy listens: a Unix socket's file, or a port of this machine.

ghost use Rattle.std.specs.Prelude.{◌≡◌, ◌+◌, ◌≤◌, IfOk, OnErr, OnOk};
ghost use Rattle.rx_host.specs.Clients.{Accepts};
ghost use Rattle.rx_world.specs.Causes.{HasCause, Rose};

use rx_streams::{Faults, Socket, SocketEnd, SocketSink, SocketSource, ends_of};
use rx_world::Failed;
use std::fs::{File, Files, Permissions, TryLockError};
use std::io::{Eprint, Error, ErrorKind};
use std::marker::Model;
use std::net::{Net, TcpListener, TcpStream};
use std::os::unix::fs::{FileTypeExt, PermissionsExt};
use std::os::unix::net::{UnixListener, UnixStream};
use std::time::{Clock, Duration};
use std::{fs, io, thread};

/// How long a client may send nothing while its request is read, or take nothing of its reply. Then
/// its session is lost, so that a client that hangs doesn't hold up the others for longer.
const CLIENT_SILENCE_SECONDS: u64 = 60;

/// How long to wait where the machine lacks what a connection takes, before it is asked for again.
const LACK_MILLIS: u64 = 50;

/// What the machine may lack for a while (Linux, errno(3)): memory (ENOMEM), room for open files in all (ENFILE) or in this process
/// (EMFILE), and buffers (ENOBUFS).
const LACKS: [i32; 4] = [12, 23, 24, 105];

/// How often a proxy that starts looks whether it is its turn to put its socket in place, and how long it waits between two looks.
const TURN_TRIES: u32 = 500;

const TURN_MILLIS: u64 = 20;

/// The mode of the socket's file: its owner alone may connect.
const SOCKET_MODE: u32 = 0o600;

/// What an address of a Unix socket begins with.
const UNIX_SCHEME: &str = "unix://";

/// A socket that listens.
#[derive(Debug, Drop)]
enum Listening {
    Unix { listener: UnixListener },
    Tcp { listener: TcpListener },
}

/// The connection of a client: where its request comes from, where its reply goes, and another handle for whoever ends the wait for
/// what it says.
#[derive(Debug, Drop)]
pub struct Client {
    /// Which one it is of those that its listener took, from 1 on.
    pub number: u64,
    pub input: SocketSource,
    pub output: SocketSink,
    pub end: SocketEnd,
}

/// Takes the connections of clients. The value that contracts see is how often it failed, and how many
/// clients it took.
#[derive(Debug, Drop)]
pub struct HostListener {
    listening: Listening,
    faults: Faults,
    accepted: u64,
}

impl Model for HostListener {
    ghost Value = { Accepts };

    ghost view = { λ l. record { faults = l.faults.count; accepted = l.accepted } };
}

impl HostListener {
    /// Listens at `unix://PATH`, or at `127.0.0.1:PORT`. A socket's file that nobody listens at any
    /// more is replaced; where somebody does, or where another file stands, it is an error. The
    /// number tells this process from others.
    pub fn bind<
        R: Files<File = File>
            + AllocGlobal
            + Clock
            + Net<Stream = TcpStream, Listener = TcpListener>,
    >(rt: &R, address: &str, process: u32) -> io::Result<HostListener> {
        let listening = match address.strip_prefix(UNIX_SCHEME) {
            Some(path) => Listening::Unix {
                listener: bind_file(rt, path, process)?,
            },
            None => Listening::Tcp {
                listener: TcpListener::bind(rt, address)?,
            },
        };
        Ok(HostListener {
            listening,
            faults: Faults::new(),
            accepted: 0,
        })
    }

    /// Waits for the next client. A connection that ends before it is taken is left out. Where the machine
    /// lacks what a connection takes, it waits for that. It fails where the socket does, or where more
    /// clients came than 64 bits count.
    pub fn accept<R: Eprint + Clock>(&mut self, rt: &R) -> Result<Client, Failed>
        ensures cause { HasCause self.old.faults self.new.faults result }
        ensures counted { OnOk result (self.new.accepted ≡ self.old.accepted + 1) }
        ensures numbered { IfOk result (λ client. client.number ≡ self.new.accepted) }
        ensures kept { OnErr result (self.new.accepted ≡ self.old.accepted) }
    {
        if self.accepted == u64::MAX {
            return Err(self.fail());
        }
        match accept_any(rt, &self.listening) {
            Ok(client) => {
                self.accepted += 1;
                let number = self.accepted;
                Ok(Client { number, ..client })
            }
            Err(error) => {
                let _ = eprintln!(rt; "reproxy: no more clients: {error}");
                Err(self.faults.failed(error))
            }
        }
    }

    /// Counts a fault of what a client was to be served with.
    pub fn fail(&mut self) -> Failed
        ensures later { self.old.faults ≤ self.new.faults }
        ensures rose { Rose self.old.faults self.new.faults }
        ensures kept { self.new.accepted ≡ self.old.accepted }
    {
        self.faults.raise();
        Failed
    }
}

/// Whether only the one connection failed, and not the socket that listens.
fn is_of_client(kind: ErrorKind) -> bool {
    matches!(
        kind,
        ErrorKind::Interrupted | ErrorKind::ConnectionAborted | ErrorKind::ConnectionReset
    )
}

/// Whether the machine lacks something that others give back.
fn is_lack(error: &Error) -> bool {
    error
        .raw_os_error()
        .is_some_and(|number| LACKS.contains(&number))
}

/// The first connection that is taken whole. That something is lacking is told once.
fn accept_any<R: Eprint + Clock>(rt: &R, listening: &Listening) -> io::Result<Client> {
    let mut is_told = false;
    for _ in 0..u32::MAX {
        match accept_one(listening) {
            Ok(client) => return Ok(client),
            Err(error) if is_of_client(error.kind()) => {}
            Err(error) if is_lack(&error) => {
                if !is_told {
                    let _ = eprintln!(rt; "reproxy: clients have to wait: {error}");
                    is_told = true;
                }
                thread::sleep(rt, Duration::from_millis(LACK_MILLIS));
            }
            Err(error) => return Err(error),
        }
    }
    Err(Error::from(ErrorKind::Interrupted))
}

/// One connection, with its limits. It has no number yet.
fn accept_one(listening: &Listening) -> io::Result<Client> {
    let socket = match listening {
        Listening::Unix { listener } => {
            let (stream, _) = listener.accept()?;
            Socket::Unix { stream }
        }
        Listening::Tcp { listener } => {
            let (stream, _) = listener.accept()?;
            Socket::tcp(stream)?
        }
    };
    socket.limit_silence(Duration::from_secs(CLIENT_SILENCE_SECONDS))?;
    let (input, output) = ends_of(socket)?;
    let end = input.share_end()?;
    Ok(Client {
        number: 0,
        input,
        output,
        end,
    })
}

/// A Unix socket at a path. It is made beside the path, gets its mode, and is then renamed, so that
/// nobody else can connect at any time. Proxies that start at once do so one after the other, so that
/// none takes the place of another one that has just begun to listen.
fn bind_file<R: Files<File = File> + AllocGlobal + Clock + Net>(
    rt: &R,
    path: &str,
    process: u32,
) -> io::Result<UnixListener> {
    // (a directory that can't be read has no lock)
    let directory = fs::open(rt, directory_of(path)).ok();
    if let Some(directory) = &directory {
        wait_for_turn(rt, directory)?;
    }
    check_free(rt, path)?;
    let beside = format!(in rt.alloc(); "{path}.{process}")?;
    let listener = UnixListener::bind(rt, beside.as_str())?;
    let placed = put_in_place(rt, beside.as_str(), path);
    if let Err(error) = placed {
        let _ = fs::remove_file(rt, beside.as_str());
        return Err(error);
    }
    Ok(listener)
}

/// The directory of an absolute path.
fn directory_of(path: &str) -> &str {
    match path.rsplit_once('/') {
        Some((above, _)) if !above.is_empty() => above,
        _ => "/",
    }
}

/// Locks a directory, until its handle is dropped.
fn wait_for_turn(rt: &impl Clock, directory: &File) -> io::Result<()> {
    for _ in 0..TURN_TRIES {
        match directory.try_lock() {
            Ok(()) => return Ok(()),
            Err(TryLockError::WouldBlock) => {
                thread::sleep(rt, Duration::from_millis(TURN_MILLIS));
            }
            Err(TryLockError::Error(error)) => return Err(error),
        }
    }
    Err(Error::from(ErrorKind::WouldBlock))
}

fn put_in_place(rt: &impl Files, beside: &str, path: &str) -> io::Result<()> {
    fs::set_permissions(rt, beside, Permissions::from_mode(SOCKET_MODE))?;
    fs::rename(rt, beside, path)
}

/// Whether a socket may be put at a path: nothing stands there, or a socket that nobody listens at.
fn check_free<R: Files + Net>(rt: &R, path: &str) -> io::Result<()> {
    let metadata = match fs::symlink_metadata(rt, path) {
        Ok(metadata) => metadata,
        Err(error) if error.kind() == ErrorKind::NotFound => return Ok(()),
        Err(error) => return Err(error),
    };
    if !metadata.file_type().is_socket() {
        return Err(Error::from(ErrorKind::AlreadyExists));
    }
    match UnixStream::connect(rt, path) {
        Ok(_) => Err(Error::from(ErrorKind::AddrInUse)),
        Err(error) if error.kind() == ErrorKind::ConnectionRefused => Ok(()),
        Err(error) => Err(error),
    }
}
