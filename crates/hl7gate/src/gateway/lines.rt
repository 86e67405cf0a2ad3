//! The receivers' lines: what the program knows of each beside the log.
use crate::refused::Why;
use gw_ack::Ack;
use std::alloc::{AllocError, Global};
use std::sync::atomic::{AtomicUsize, Ordering};
use std::sync::{Arc, Condvar, CondvarTimeouts, Mutex, Wait};
use std::time::{Clock, Duration, Instant};

/// For how many milliseconds a forwarder sleeps where nobody rings for it.
const LOOK: u64 = 500;

/// How a line stands. The counts are those since the start: messages sent, repeats included, and answers by their code.
#[derive(Clone, Copy)]
pub(crate) struct Stand {
    pub(crate) is_held: bool,
    pub(crate) is_connected: bool,
    /// Whether the plan in force has this receiver.
    pub(crate) is_planned: bool,
    is_rung: bool,
    is_hurried: bool,
    is_late: bool,
    // since when its first has been the first, and since when it hasn't been connected
    since: Option<Instant>,
    away: Option<Instant>,
    /// What is to be passed over, and what came of it: the place that was.
    pub(crate) over: Option<Over>,
    passed: Option<Option<u64>>,
    pub(crate) sent: u64,
    pub(crate) aa: u64,
    pub(crate) ae: u64,
    pub(crate) ar: u64,
    /// Why it refused a message last.
    pub(crate) why: Option<Why>,
    /// How many messages lie refused by it.
    pub(crate) lying: u64,
}

/// For how many seconds something has been so.
fn seconds<R: Clock>(rt: &R, since: Option<Instant>) -> u64 {
    match since {
        Some(since) => since.elapsed(rt).unwrap_or(Duration::ZERO).as_secs(),
        None => 0,
    }
}

impl Stand {
    /// For how many seconds its first has been the first.
    pub(crate) fn stuck<R: Clock>(&self, rt: &R) -> u64 {
        seconds(rt, self.since)
    }

    /// For how many seconds it hasn't been connected.
    pub(crate) fn down<R: Clock>(&self, rt: &R) -> u64 {
        seconds(rt, self.away)
    }
}

/// What is first is to be passed over, where what is left still begins at this place: skipped, or parked.
#[derive(Clone, Copy)]
pub(crate) struct Over {
    pub(crate) is_parked: bool,
    pub(crate) from: u64,
}

/// A receiver's line: its number in the log and its name.
#[derive(Drop)]
pub(crate) struct Line {
    pub(crate) number: u32,
    pub(crate) name: Vec<u8>,
    stand: Mutex<Stand>,
    bell: Condvar,
}

impl Line {
    pub(crate) fn new(number: u32, name: Vec<u8>, is_planned: bool) -> Self {
        Line {
            number,
            name,
            stand: Mutex::new(Stand {
                is_held: false,
                is_connected: false,
                is_planned,
                is_rung: false,
                is_hurried: false,
                is_late: false,
                since: None,
                away: None,
                over: None,
                passed: None,
                sent: 0,
                aa: 0,
                ae: 0,
                ar: 0,
                why: None,
                lying: 0,
            }),
            bell: Condvar::new(),
        }
    }

    /// How it stands.
    pub(crate) fn stand<R: Wait>(&self, rt: &R) -> Stand {
        *self.stand.lock(rt)
    }

    /// Something is due, and on the disk.
    pub(crate) fn ring<R: Wait + Clock>(&self, rt: &R) {
        let now = Instant::now(rt).ok();
        let mut stand = self.stand.lock(rt);
        stand.is_rung = true;
        if stand.since.is_none() {
            stand.since = now;
        }
        self.bell.notify_all();
    }

    /// Sends nothing until `go`, or sends again, and tries at once.
    pub(crate) fn hold<R: Wait>(&self, rt: &R, is_held: bool) {
        let mut stand = self.stand.lock(rt);
        stand.is_held = is_held;
        stand.is_hurried = !is_held;
        // (its forwarder may have looked already, and not wait yet)
        stand.is_rung = true;
        self.bell.notify_all();
    }

    /// What is first is to be passed over by its forwarder.
    pub(crate) fn set_over<R: Wait>(&self, rt: &R, over: Over) {
        let mut stand = self.stand.lock(rt);
        stand.over = Some(over);
        stand.passed = None;
        stand.is_hurried = true;
        stand.is_rung = true;
        self.bell.notify_all();
    }

    /// What is to be passed over: whoever takes it out does it, or has it not be done.
    pub(crate) fn take_over<R: Wait>(&self, rt: &R) -> Option<Over> {
        self.stand.lock(rt).over.take()
    }

    /// What was first was passed over, at this place; or it wasn't.
    pub(crate) fn set_passed<R: Wait>(&self, rt: &R, place: Option<u64>) {
        self.stand.lock(rt).passed = Some(place);
    }

    /// What came of it.
    pub(crate) fn passed<R: Wait>(&self, rt: &R) -> Option<Option<u64>> {
        self.stand.lock(rt).passed
    }

    /// Whether it isn't to wait for the next try.
    pub(crate) fn take_hurry<R: Wait>(&self, rt: &R) -> bool {
        let mut stand = self.stand.lock(rt);
        let is_hurried = stand.is_hurried;
        stand.is_hurried = false;
        is_hurried
    }

    /// Whether the plan in force has the receiver, from here on.
    pub(crate) fn set_planned<R: Wait>(&self, rt: &R, is_planned: bool) {
        self.stand.lock(rt).is_planned = is_planned;
    }

    /// Whether the receiver is connected, from here on.
    pub(crate) fn set_connected<R: Wait + Clock>(&self, rt: &R, is_connected: bool) {
        let now = Instant::now(rt).ok();
        let mut stand = self.stand.lock(rt);
        stand.is_connected = is_connected;
        if is_connected {
            stand.away = None;
        } else if stand.away.is_none() {
            stand.away = now;
        }
    }

    /// Waits until it is rung for, for half a second at most.
    pub(crate) fn wait<R: Wait + Clock>(&self, rt: &R) {
        let mut stand = self.stand.lock(rt);
        if stand.is_rung {
            stand.is_rung = false;
            return;
        }
        let (mut stand, _) = self
            .bell
            .wait_timeout(rt, stand, Duration::from_millis(LOOK));
        stand.is_rung = false;
    }

    /// As many are left for it now. `is_next`: another is the first.
    pub(crate) fn set_left<R: Wait + Clock>(&self, rt: &R, left: u64, is_next: bool) {
        let now = Instant::now(rt).ok();
        let mut stand = self.stand.lock(rt);
        if left == 0 {
            stand.since = None;
        } else if is_next || stand.since.is_none() {
            stand.since = now;
        }
    }

    /// As many messages lie refused by it now.
    pub(crate) fn set_lying<R: Wait>(&self, rt: &R, lying: u64) {
        self.stand.lock(rt).lying = lying;
    }

    /// A message is sent.
    pub(crate) fn count_sent<R: Wait>(&self, rt: &R) {
        let mut stand = self.stand.lock(rt);
        stand.sent = stand.sent.saturating_add(1);
    }

    /// An acknowledgment came, with this content.
    pub(crate) fn count<R: Wait>(&self, rt: &R, ack: Ack, answer: &[u8]) {
        let why = Why::new(ack, answer);
        let mut stand = self.stand.lock(rt);
        if ack != Ack::AA {
            stand.why = Some(why);
        }
        match ack {
            Ack::AA => stand.aa = stand.aa.saturating_add(1),
            Ack::AE => stand.ae = stand.ae.saturating_add(1),
            Ack::AR => stand.ar = stand.ar.saturating_add(1),
        }
    }

    /// Whether the first has come to wait for more than these seconds since the last look, or doesn't any more. None: neither.
    pub(crate) fn turn_late<R: Wait + Clock>(&self, rt: &R, seconds: u64) -> Option<bool> {
        let is_late = self.stand(rt).stuck(rt) > seconds;
        let mut stand = self.stand.lock(rt);
        if is_late == stand.is_late {
            return None;
        }
        stand.is_late = is_late;
        Some(is_late)
    }
}

/// The lines, in the order in which they were added, and how many of them have a forwarder. None is ever taken out.
#[derive(Drop)]
pub(crate) struct Lines {
    all: Mutex<Vec<Arc<Line>>>,
    begun: AtomicUsize,
}

impl Lines {
    pub(crate) fn new(alloc: Global) -> Self {
        Lines {
            all: Mutex::new(Vec::new(alloc)),
            begun: AtomicUsize::new(0),
        }
    }

    /// The next line that gets a forwarder, where one is new.
    pub(crate) fn next_new<R: Wait>(&self, rt: &R) -> Option<Arc<Line>> {
        let all = self.all.lock(rt);
        let next = all.get(self.begun.load(Ordering::SeqCst))?.clone().ok()?;
        self.begun.fetch_add(1, Ordering::SeqCst);
        Some(next)
    }

    pub(crate) fn add<R: Wait>(&self, rt: &R, line: Arc<Line>) -> Result<(), AllocError> {
        self.all.lock(rt).push(line)?;
        Ok(())
    }

    /// The line of this number.
    pub(crate) fn find<R: Wait>(&self, rt: &R, number: u32) -> Option<Arc<Line>> {
        let all = self.all.lock(rt);
        match all.iter().find(|line| line.number == number) {
            Some(line) => line.clone().ok(),
            None => None,
        }
    }

    /// The line of the receiver of this name.
    pub(crate) fn named<R: Wait>(&self, rt: &R, name: &[u8]) -> Option<Arc<Line>> {
        let all = self.all.lock(rt);
        match all.iter().find(|line| line.name.as_slice() == name) {
            Some(line) => line.clone().ok(),
            None => None,
        }
    }

    /// A copy of the list.
    pub(crate) fn all<R: Wait>(&self, rt: &R, alloc: Global) -> Result<Vec<Arc<Line>>, AllocError> {
        let mut copies = Vec::new(alloc);
        for line in self.all.lock(rt).iter() {
            copies.push(line.clone()?)?;
        }
        Ok(copies)
    }
}
