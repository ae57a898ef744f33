//! How an attempt of a session that lost its race is told to wait no longer: for its connection to the farm, or for
//! the program that it runs. So is whoever waits for the client of the session, once its attempts have ended.

use crate::call_time::CallTime;
use crate::calls::Call;
use rx_streams::SocketEnd;
use std::alloc::{AllocError, Global};
use std::io;
use std::io::Error;
use std::net::{Shutdown, TcpStream};
use std::process::Output;
use std::sync::atomic::{AtomicBool, Ordering};
use std::sync::{Arc, Condvar, CondvarTimeouts, Mutex, Wait};
use std::time::{Clock, Duration};

/// A run of a program.
pub(crate) type Run = Call<io::Result<Output>>;

/// A connection that is being made.
pub(crate) type Connecting = Call<io::Result<TcpStream>>;

/// What a session waits for.
#[derive(Drop)]
struct Waits {
    connecting: Option<Arc<Connecting, Global>>,
    /// Another handle of the connection to the farm.
    connection: Option<TcpStream>,
    run: Option<Arc<Run, Global>>,
    /// Another handle of what comes in from the client, where it has a connection.
    client: Option<SocketEnd>,
}

/// What is halted, and the waits that this ends. A mark of what is halted is set before the lock is taken, and read under it, so
/// that no wait begins unseen.
#[derive(Drop)]
struct Marks {
    is_farm_halted: AtomicBool,
    are_runs_halted: AtomicBool,
    /// Whether the client may send nothing, or anything at any time.
    is_silence_allowed: AtomicBool,
    /// Until when the call on the farm is to be over.
    call: CallTime,
    waits: Mutex<Waits>,
    /// Tells that the farm was halted.
    farm_halted: Condvar,
}

/// What the parts of one session share, by which its waits are ended from another thread.
#[derive(Drop)]
pub struct Halting {
    marks: Arc<Marks, Global>,
}

impl Halting {
    /// Nothing is halted yet.
    pub fn new(clock: &impl Clock, alloc: Global) -> Result<Halting, AllocError> {
        let marks = Marks {
            is_farm_halted: AtomicBool::new(false),
            are_runs_halted: AtomicBool::new(false),
            is_silence_allowed: AtomicBool::new(false),
            call: CallTime::new(clock),
            waits: Mutex::new(Waits {
                connecting: None,
                connection: None,
                run: None,
                client: None,
            }),
            farm_halted: Condvar::new(),
        };
        Ok(Halting {
            marks: Arc::new(alloc, marks)?,
        })
    }

    /// Another handle of the same.
    pub fn share(&self) -> Result<Halting, AllocError> {
        Ok(Halting {
            marks: Arc::try_clone(&self.marks)?,
        })
    }

    /// Ends the connection to the farm and the pause between two calls on it, and lets no other connection be made.
    pub fn halt_farm(&self, hands: &impl Wait) {
        self.marks.is_farm_halted.store(true, Ordering::SeqCst);
        let mut waits = self.marks.waits.lock(hands);
        if let Some(connecting) = waits.connecting.take() {
            connecting.leave();
        }
        if let Some(connection) = waits.connection.take() {
            let _ = connection.shutdown(Shutdown::Both);
        }
        self.marks.farm_halted.notify_all();
    }

    /// Ends the wait for the program that runs, and lets no other one be started. The program itself runs on.
    pub fn halt_runs(&self, hands: &impl Wait) {
        self.marks.are_runs_halted.store(true, Ordering::SeqCst);
        let mut waits = self.marks.waits.lock(hands);
        if let Some(run) = waits.run.take() {
            run.leave();
        }
    }

    /// The client of the session is at this end.
    pub fn keep_client(&self, hands: &impl Wait, client: SocketEnd) {
        self.marks.waits.lock(hands).client = Some(client);
    }

    /// Lets the client send nothing, or anything at any time, for as long as it takes.
    pub fn allow_silence(&self, hands: &impl Wait) {
        self.marks.is_silence_allowed.store(true, Ordering::SeqCst);
        if let Some(client) = &self.marks.waits.lock(hands).client {
            client.allow_silence();
        }
    }

    /// Ends the wait for what the client sends, and each later one. What it sends isn't read any more.
    pub fn halt_input(&self, hands: &impl Wait) {
        if let Some(client) = self.marks.waits.lock(hands).client.take() {
            client.end_receiving();
        }
    }

    /// Lets go of the connections to the farm and to the client, so that they aren't kept open from here.
    pub(crate) fn let_go(&self, hands: &impl Wait) {
        let mut waits = self.marks.waits.lock(hands);
        waits.connection = None;
        waits.client = None;
    }

    /// Whether the farm was halted.
    pub(crate) fn is_farm_halted(&self) -> bool {
        self.marks.is_farm_halted.load(Ordering::SeqCst)
    }

    /// Waits for so long, or until the farm is halted.
    pub(crate) fn rest(&self, hands: &(impl Wait + Clock), pause: Duration) {
        let waits = self.marks.waits.lock(hands);
        let goes_on = |_: &mut Waits| !self.is_farm_halted();
        let _ = self
            .marks
            .farm_halted
            .wait_timeout_while(hands, waits, pause, goes_on);
    }

    /// The next call on the farm begins. It is to be over after this time, or may take as long as it takes.
    pub(crate) fn begin_call(&self, clock: &impl Clock, limit: Option<Duration>) {
        self.marks.call.begin(clock, limit);
    }

    /// How much of the call's time is left, where it has one.
    pub(crate) fn call_left(&self, clock: &impl Clock) -> Option<Duration> {
        self.marks.call.left(clock)
    }

    /// Whether the runs were halted.
    pub(crate) fn are_runs_halted(&self) -> bool {
        self.marks.are_runs_halted.load(Ordering::SeqCst)
    }

    /// Whether the client may send nothing, or anything at any time, for as long as it takes.
    pub(crate) fn is_silence_allowed(&self) -> bool {
        self.marks.is_silence_allowed.load(Ordering::SeqCst)
    }

    /// A connection is going to be made.
    pub(crate) fn begin_connecting(
        &self,
        hands: &impl Wait,
        alloc: Global,
    ) -> io::Result<Arc<Connecting, Global>> {
        let connecting = Arc::new(alloc, Connecting::new()).map_err(AllocError::from)?;
        let mut waits = self.marks.waits.lock(hands);
        if self.is_farm_halted() {
            return Err(halted());
        }
        waits.connecting = Some(Arc::try_clone(&connecting)?);
        Ok(connecting)
    }

    /// This connection was made.
    pub(crate) fn keep_connection(&self, hands: &impl Wait, stream: &TcpStream) -> io::Result<()> {
        let connection = stream.try_clone()?;
        let mut waits = self.marks.waits.lock(hands);
        waits.connecting = None;
        if self.is_farm_halted() {
            return Err(halted());
        }
        waits.connection = Some(connection);
        Ok(())
    }

    /// A program is going to be run.
    pub(crate) fn begin_run(
        &self,
        hands: &impl Wait,
        alloc: Global,
    ) -> io::Result<Arc<Run, Global>> {
        let run = Arc::new(alloc, Run::new()).map_err(AllocError::from)?;
        let mut waits = self.marks.waits.lock(hands);
        if self.are_runs_halted() {
            return Err(halted());
        }
        waits.run = Some(Arc::try_clone(&run)?);
        Ok(run)
    }
}

/// What a call of a halted attempt answers.
pub(crate) fn halted() -> Error {
    Error::other("the attempt was halted")
}
