//! Ways to the gate that report where its journal fills up.
use gw_gate::{Chapter, Event, MAX_ENTRIES, Reply};
use gw_run::{Door, Note, Pass, Phase};
use std::io::Eprint;
use std::sync::ledger::Ledger;
use std::sync::{Mutex, Wait};

/// The last entry of three quarters of a journal, by its number from 0.
const WARNING: usize = MAX_ENTRIES / 4 * 3 - 1;

/// Who steps the gate.
#[derive(Clone, Copy)]
pub(crate) enum Who<'n> {
    Session(u64),
    Worker(u64),
    Receiver(&'n [u8]),
    Main,
    Swaps,
}

/// A pass that reports on standard error, at once, that whoever has it meets a full journal, and that three quarters of the journal are used.
#[derive(Drop)]
pub(crate) struct Reporter<'a, 'n, L: Ledger, R: Wait + Eprint> {
    pass: Pass<'a, L, R>,
    rt: &'a R,
    chapters: &'a Mutex<Vec<Chapter>>,
    // how many entries were closed before the service began
    begun: usize,
    who: Who<'n>,
    met_full: bool,
}

impl<'a, 'n, L: Ledger, R: Wait + Eprint> Reporter<'a, 'n, L, R> {
    pub(crate) fn new(
        pass: Pass<'a, L, R>,
        rt: &'a R,
        chapters: &'a Mutex<Vec<Chapter>>,
        begun: usize,
        who: Who<'n>,
    ) -> Self {
        Reporter {
            pass,
            rt,
            chapters,
            begun,
            who,
            met_full: false,
        }
    }

    /// The pass alone.
    pub(crate) fn into_pass(self) -> Pass<'a, L, R> {
        let Reporter { pass, .. } = self;
        pass
    }

    /// Whether a reply was that the journal is full.
    pub(crate) fn met_full(&self) -> bool {
        self.met_full
    }

    /// Whether the entry of this number ends three quarters of the open journal. It is counted over all chapters, so those that were closed are taken off.
    fn is_warning(&self, at: usize) -> bool {
        at >= WARNING
            && at.checked_sub(closed_in(&self.chapters.lock(self.rt)).max(self.begun))
                == Some(WARNING)
    }
}

impl<'a, 'n, L: Ledger, R: Wait + Eprint> Door for Reporter<'a, 'n, L, R> {
    ghost noted = { λ r. r.pass.notes };

    fn call(&mut self, event: Event) -> Result<Reply, Event> {
        let earlier = self.pass.notes().len();
        let answer = self.pass.call(event);
        if let Some(Note::Added(receipt)) = self.pass.notes().get(earlier)
            && self.is_warning(receipt.at)
        {
            let used = WARNING + 1;
            let _ = eprintln!(self.rt;
                "the journal has {used} of {MAX_ENTRIES} entries: end the service before it is full"
            );
        }
        if matches!(&answer, Ok(Reply::Full(_))) && !self.met_full {
            self.met_full = true;
            print_full(self.rt, self.who);
        }
        answer
    }

    fn wait(&mut self, phase: Phase) -> bool {
        self.pass.wait(phase)
    }

    fn notes(&self) -> &[Note] {
        self.pass.notes()
    }
}

/// How many entries the chapters have in all.
fn closed_in(chapters: &[Chapter]) -> usize {
    match chapters.last() {
        Some(chapter) => (chapter.start().entries as usize).saturating_add(chapter.entries().len()),
        None => 0,
    }
}

/// Reports who meets a full journal, and what comes of it.
fn print_full<R: Eprint>(rt: &R, who: Who<'_>) {
    let _ = match who {
        Who::Session(number) => {
            eprintln!(rt; "session {number} meets a full journal: its messages are refused")
        }
        Who::Worker(number) => {
            eprintln!(rt;
                "worker {number} meets a full journal: what isn't translated yet is not sent"
            )
        }
        Who::Receiver(name) => {
            eprintln!(rt;
                "receiver {} meets a full journal: what isn't sent yet is not sent",
                name.escape_ascii()
            )
        }
        Who::Main => {
            eprintln!(rt;
                "the main thread meets a full journal: what isn't translated yet is not sent"
            )
        }
        // (the line of the refused swap says it)
        Who::Swaps => Ok(()),
    };
}
