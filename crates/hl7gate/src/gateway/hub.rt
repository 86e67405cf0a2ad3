//! What the threads of a gateway share.
use crate::gateway::folder::Folder;
use crate::gateway::lines::Lines;
use crate::gateway::resend::Asks;
use crate::gateway::watch::Watch;
use crate::noted::numbered;
use crate::serve::Limits;
use gw_ack::Stamp;
use gw_delivery::{Plans, Tail};
use gw_gateway::Office;
use gw_journal::{Journal, Naming, Storage};
use gw_stream::RunFault;
use std::alloc::{AllocError, Global};
use std::sync::atomic::{AtomicBool, AtomicU64, Ordering};
use std::sync::{Mutex, Wait};

/// How many messages that are long are read at once.
const TURNS: u64 = 64;

/// The log, the receivers' lines, and how the gateway stands.
#[derive(Drop)]
pub(crate) struct Hub<'f, J: Naming, S: Storage + Drop, R: Wait> {
    pub(crate) rt: &'f R,
    pub(crate) start: Stamp,
    /// After how many seconds a receiver is late.
    pub(crate) late: u64,
    /// For how many days messages stay that all receivers have passed.
    pub(crate) days: u64,
    pub(crate) folder: &'f Folder,
    pub(crate) journal: Journal<J, Office<J, S>>,
    pub(crate) plans: Plans,
    pub(crate) lines: Lines,
    pub(crate) watch: Watch,
    pub(crate) asks: Asks,
    /// How many connections are open; and how many there were, how many messages were accepted, and how many plans were taken since the start.
    pub(crate) open: AtomicU64,
    pub(crate) sessions: AtomicU64,
    pub(crate) accepted: AtomicU64,
    pub(crate) taken: AtomicU64,
    // how many sessions have a turn for a long message
    turns: AtomicU64,
    /// How many sessions wait for a turn.
    pub(crate) waiting: AtomicU64,
    /// How many bytes the files of the log took when they were looked at last.
    pub(crate) bytes: AtomicU64,
    /// Whether the disk is short of room; and whether it is full. Nothing is sent then: no acknowledgment could be kept.
    pub(crate) is_short: AtomicBool,
    pub(crate) is_full: AtomicBool,
    has_ended: AtomicBool,
    fault: Mutex<Option<RunFault>>,
}

impl<'f, J: Naming, S: Storage + Drop, R: Wait> Hub<'f, J, S, R> {
    pub(crate) fn new(
        rt: &'f R,
        alloc: Global,
        start: Stamp,
        limits: Limits,
        folder: &'f Folder,
        journal: Journal<J, Office<J, S>>,
    ) -> Result<Self, AllocError> {
        Ok(Hub {
            rt,
            start,
            late: limits.late,
            days: limits.days,
            folder,
            journal,
            plans: Plans::new(alloc),
            lines: Lines::new(alloc),
            watch: Watch::new(alloc)?,
            asks: Asks::new(alloc),
            open: AtomicU64::new(0),
            sessions: AtomicU64::new(0),
            accepted: AtomicU64::new(0),
            taken: AtomicU64::new(0),
            turns: AtomicU64::new(0),
            waiting: AtomicU64::new(0),
            bytes: AtomicU64::new(0),
            is_short: AtomicBool::new(false),
            is_full: AtomicBool::new(false),
            has_ended: AtomicBool::new(false),
            fault: Mutex::new(None),
        })
    }

    /// The gateway is to end.
    pub(crate) fn stop(&self) {
        self.has_ended.store(true, Ordering::SeqCst);
    }

    /// Whether the gateway ends: it was stopped, or can't go on.
    pub(crate) fn has_ended(&self) -> bool {
        self.has_ended.load(Ordering::SeqCst)
    }

    /// The gateway can't go on: the first fault is its own. No answer goes out any more, and nothing more is sent.
    pub(crate) fn fail(&self, fault: RunFault) {
        let mut first = self.fault.lock(self.rt);
        if first.is_none() {
            *first = Some(fault);
        }
        self.stop();
    }

    /// Why the gateway can't go on, where it can't.
    pub(crate) fn fault(&self) -> Option<RunFault> {
        *self.fault.lock(self.rt)
    }

    /// A connection was taken: its number, from 1, or None where there are `most` already.
    pub(crate) fn admit(&self, most: u64) -> Option<u64> {
        if self.open.fetch_add(1, Ordering::SeqCst) >= most {
            self.leave();
            return None;
        }
        let before = self.sessions.fetch_add(1, Ordering::SeqCst);
        Some(before.saturating_add(1))
    }

    /// A connection has ended.
    pub(crate) fn leave(&self) {
        self.open.fetch_sub(1, Ordering::SeqCst);
    }

    /// A session has a turn for a long message. False: none is left.
    pub(crate) fn take_turn(&self) -> bool {
        if self.turns.fetch_add(1, Ordering::SeqCst) < TURNS {
            return true;
        }
        self.give_turn();
        false
    }

    /// A session gives its turn back.
    pub(crate) fn give_turn(&self) {
        self.turns.fetch_sub(1, Ordering::SeqCst);
    }

    /// How many messages are left for a receiver.
    pub(crate) fn left_for(&self, receiver: u32) -> u64 {
        let office = self.journal.lock(self.rt);
        let receivers = office.ledger.state().receivers();
        match numbered(receivers, receiver) {
            Some(receiver) => receiver.left(),
            None => 0,
        }
    }

    /// From where on something is left for a receiver, where that is so.
    pub(crate) fn first_of(&self, receiver: u32) -> Option<u64> {
        let office = self.journal.lock(self.rt);
        let receivers = office.ledger.state().receivers();
        match numbered(receivers, receiver) {
            Some(receiver) if receiver.left() > 0 => Some(receiver.from()),
            _ => None,
        }
    }

    /// Up to where the log counts.
    pub(crate) fn tail(&self) -> Tail {
        let (segment, end) = self.journal.lock(self.rt).ledger.tail();
        Tail { segment, end }
    }
}
