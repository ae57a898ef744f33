//! How the parts of a desk wait for each other, and for other desks: what is said of that before a run, and what
//! of it has come. Nothing here knows what a call does.

use crate::plans::{FailingCall, Part};
use rx_base::{NoMemory, RelPath};
use rx_world::Attempt;
use std::alloc::Global;
use std::sync::{Arc, Condvar, Mutex, Wait};
use std::time::{Clock, Duration};

/// How long a call waits, in milliseconds, where no row says so.
const PATIENCE: u64 = 60_000;

/// Calls of a part: that of a number from 1 on, or each.
#[derive(Clone, Copy, Debug)]
pub(crate) struct PartCalls {
    pub part: Part,
    pub number: Option<u64>,
}

impl PartCalls {
    /// Whether the part's call of this number is one of these.
    fn has(&self, part: Part, number: u64) -> bool {
        self.part == part && self.number.is_none_or(|own| own == number)
    }
}

/// What calls wait for.
#[derive(Clone, Copy, Debug)]
pub(crate) enum Event {
    /// One of these calls has begun.
    Begun(PartCalls),
    /// One of these calls has begun in the desk of this number.
    BegunAt(u64, PartCalls),
    /// The session of the desk of this number has ended.
    EndedAt(u64),
    /// This attempt was told to end, since the other one won or the client cancelled.
    Halted(Attempt),
    /// The attempts have ended, and nobody waits for the client any more.
    InputHalted,
}

/// How a call goes on that was let in.
#[derive(Clone, Copy, Debug, PartialEq, Eq)]
pub(crate) enum Entry {
    /// It does what it is to do.
    Open,
    /// It finds its part at its end: the input, which was halted.
    Ended,
    /// It fails.
    Failed,
}

/// Calls that wait, what for, and whether that has come.
#[derive(Clone, Copy, Debug)]
pub(crate) struct Waiting {
    pub calls: PartCalls,
    pub until: Event,
    pub has_come: bool,
}

/// Desks that are all alike and share one meeting: the call of this part and number waits in each of them until it
/// has begun in all.
#[derive(Clone, Copy, Debug)]
pub(crate) struct Crowd {
    pub part: Part,
    pub number: u64,
    /// In how many desks it has yet to begin: at first, how many desks there are.
    pub missing: u64,
}

impl Crowd {
    /// Whether it is this call.
    fn has(&self, part: Part, number: u64) -> bool {
        self.part == part && self.number == number
    }
}

/// What rows say of the meeting of a desk.
#[derive(Drop)]
pub(crate) struct MeetingPlan {
    pub waits: Vec<Waiting>,
    /// The desk stands for so many.
    pub crowd: Option<Crowd>,
    /// The calls for which memory is wanting.
    pub starved: Vec<FailingCall>,
    /// The outputs that benches don't give.
    pub withheld: Vec<RelPath>,
    /// How long a call waits, in milliseconds.
    pub patience: u64,
}

impl MeetingPlan {
    /// No call waits.
    pub(crate) fn new(alloc: Global) -> MeetingPlan {
        MeetingPlan {
            waits: Vec::new(alloc),
            crowd: None,
            starved: Vec::new(alloc),
            withheld: Vec::new(alloc),
            patience: PATIENCE,
        }
    }
}

/// What of a meeting has come.
#[derive(Drop)]
struct Progress {
    waits: Vec<Waiting>,
    crowd: Option<Crowd>,
    is_input_halted: bool,
    /// Whether a call waited too long.
    has_given_up: bool,
}

impl Progress {
    /// A part's call of this number has begun.
    fn begin(&mut self, part: Part, number: u64) {
        for wait in self.waits.iter_mut() {
            if let Event::Begun(calls) = wait.until
                && calls.has(part, number)
            {
                wait.has_come = true;
            }
        }
        if let Some(crowd) = &mut self.crowd
            && crowd.has(part, number)
        {
            crowd.missing = crowd.missing.saturating_sub(1);
        }
    }

    /// A part's call of this number has begun in the desk of this number.
    fn hear_begin(&mut self, desk: u64, part: Part, number: u64) {
        for wait in self.waits.iter_mut() {
            if let Event::BegunAt(other, calls) = wait.until
                && other == desk
                && calls.has(part, number)
            {
                wait.has_come = true;
            }
        }
    }

    /// The session of the desk of this number has ended.
    fn hear_end(&mut self, desk: u64) {
        for wait in self.waits.iter_mut() {
            if let Event::EndedAt(other) = wait.until
                && other == desk
            {
                wait.has_come = true;
            }
        }
    }

    /// An attempt was told to end.
    fn halt(&mut self, attempt: Attempt) {
        for wait in self.waits.iter_mut() {
            if let Event::Halted(halted) = wait.until
                && halted == attempt
            {
                wait.has_come = true;
            }
        }
    }

    /// Nobody waits for the client any more, so its input doesn't wait for anything either.
    fn halt_input(&mut self) {
        self.is_input_halted = true;
        for wait in self.waits.iter_mut() {
            if wait.calls.part == Part::Input || matches!(wait.until, Event::InputHalted) {
                wait.has_come = true;
            }
        }
    }

    /// Whether a call has to wait now.
    fn holds(&self, part: Part, number: u64) -> bool {
        if self.has_given_up {
            return false;
        }
        let waits_for_all = self
            .crowd
            .is_some_and(|crowd| crowd.missing > 0 && crowd.has(part, number));
        waits_for_all
            || self
                .waits
                .iter()
                .any(|wait| !wait.has_come && wait.calls.has(part, number))
    }

    /// Whether a call fails, since it or one before it waited too long.
    fn fails(&self, part: Part, number: u64) -> bool {
        if !self.has_given_up {
            return false;
        }
        self.crowd.is_some_and(|crowd| crowd.has(part, number))
            || self.waits.iter().any(|wait| wait.calls.has(part, number))
    }

    /// How a call goes on that doesn't wait any more.
    fn entry_of(&self, part: Part, number: u64) -> Entry {
        if self.fails(part, number) {
            Entry::Failed
        } else if self.is_input_halted && part == Part::Input {
            Entry::Ended
        } else {
            Entry::Open
        }
    }
}

/// What of the meetings of a run has come, in the order of their desks.
#[derive(Drop)]
struct Course {
    desks: Vec<Progress>,
}

impl Course {
    /// A call begins in the desk at this index. All desks hear of it by that one's number.
    fn begin(&mut self, at: usize, part: Part, number: u64) {
        if let Some(own) = self.desks.get_mut(at) {
            own.begin(part, number);
        }
        let desk = number_of(at);
        for progress in self.desks.iter_mut() {
            progress.hear_begin(desk, part, number);
        }
    }

    /// An attempt of the desk at this index was told to end.
    fn halt(&mut self, at: usize, attempt: Attempt) {
        if let Some(own) = self.desks.get_mut(at) {
            own.halt(attempt);
        }
    }

    /// Nobody waits for the client of the desk at this index any more.
    fn halt_input(&mut self, at: usize) {
        if let Some(own) = self.desks.get_mut(at) {
            own.halt_input();
        }
    }

    /// The session of the desk at this index has ended.
    fn end(&mut self, at: usize) {
        let desk = number_of(at);
        for progress in self.desks.iter_mut() {
            progress.hear_end(desk);
        }
    }

    /// Whether a call has to wait now.
    fn holds(&self, at: usize, part: Part, number: u64) -> bool {
        self.desks
            .get(at)
            .is_some_and(|own| own.holds(part, number))
    }

    /// A call waited too long.
    fn give_up(&mut self, at: usize) {
        if let Some(own) = self.desks.get_mut(at) {
            own.has_given_up = true;
        }
    }

    /// How a call goes on that doesn't wait any more.
    fn entry_of(&self, at: usize, part: Part, number: u64) -> Entry {
        match self.desks.get(at) {
            Some(own) => own.entry_of(part, number),
            None => Entry::Open,
        }
    }
}

/// The number by which rows name the desk at an index.
fn number_of(at: usize) -> u64 {
    (at as u64).saturating_add(1)
}

/// What the meetings of a run share: what has come stands behind one lock, since calls of one desk may wait for
/// another desk.
#[derive(Drop)]
pub(crate) struct Hall {
    course: Mutex<Course>,
    news: Condvar,
}

impl Hall {
    /// A hall without a meeting.
    pub(crate) fn new(alloc: Global) -> Hall {
        Hall {
            course: Mutex::new(Course {
                desks: Vec::new(alloc),
            }),
            news: Condvar::new(),
        }
    }

    /// Takes one meeting more in, and answers its index.
    fn add<R: Wait>(&self, hands: &R, progress: Progress) -> Result<usize, NoMemory> {
        let mut course = self.course.lock(hands);
        let at = course.desks.len();
        course.desks.push(progress)?;
        Ok(at)
    }
}

/// What the parts of one desk share, or of a crowd of them.
#[derive(Drop)]
pub(crate) struct Meeting {
    hall: Arc<Hall, Global>,
    /// Which meeting of the hall it is.
    at: usize,
    patience: Duration,
    starved: Vec<FailingCall>,
    withheld: Vec<RelPath>,
}

impl Meeting {
    /// A meeting to which nothing has come: the next one in a hall.
    pub(crate) fn open<R: Wait>(
        hands: &R,
        alloc: Global,
        hall: &Arc<Hall, Global>,
        plan: MeetingPlan,
    ) -> Result<Arc<Meeting, Global>, NoMemory> {
        let MeetingPlan {
            waits,
            crowd,
            starved,
            withheld,
            patience,
        } = plan;
        let progress = Progress {
            waits,
            crowd,
            is_input_halted: false,
            has_given_up: false,
        };
        let meeting = Meeting {
            at: hall.add(hands, progress)?,
            hall: Arc::try_clone(hall)?,
            patience: Duration::from_millis(patience),
            starved,
            withheld,
        };
        Ok(Arc::new(alloc, meeting)?)
    }

    /// A call begins, and waits for what it is to wait for. It fails where that didn't come in time, or
    /// where it is to wait and another call gave up before.
    pub(crate) fn enter<R: Wait + Clock>(&self, hands: &R, part: Part, number: u64) -> Entry {
        let at = self.at;
        let news = &self.hall.news;
        let mut course = self.hall.course.lock(hands);
        course.begin(at, part, number);
        news.notify_all();
        let (mut course, ended) = news.wait_timeout_while(hands, course, self.patience, |now| {
            now.holds(at, part, number)
        });
        if ended.timed_out() {
            course.give_up(at);
            news.notify_all();
        }
        course.entry_of(at, part, number)
    }

    /// An attempt is told to end.
    pub(crate) fn halt(&self, hands: &impl Wait, attempt: Attempt) {
        self.hall.course.lock(hands).halt(self.at, attempt);
        self.hall.news.notify_all();
    }

    /// The client is waited for no longer.
    pub(crate) fn halt_input(&self, hands: &impl Wait) {
        self.hall.course.lock(hands).halt_input(self.at);
        self.hall.news.notify_all();
    }

    /// The desk's session has ended.
    pub(crate) fn end(&self, hands: &impl Wait) {
        self.hall.course.lock(hands).end(self.at);
        self.hall.news.notify_all();
    }

    /// Whether memory is wanting for a call.
    pub(crate) fn starves(&self, part: Part, number: u64) -> bool {
        self.starved
            .iter()
            .any(|call| call.part == part && call.number == number)
    }

    /// Whether benches don't give this output.
    pub(crate) fn withholds(&self, path: &RelPath) -> bool {
        self.withheld.contains(path)
    }
}
