//! What passes wait for at a locked gate.
use gw_crew::{Note, Phase};
use gw_gate::{Event, Reply, receiver_count};

// How many conditions there are for passes that wait for results. Receivers whose numbers leave the same rest share one.
pub(crate) const ROW: usize = 16;

// What a step means to passes that wait.
#[derive(Clone, Copy)]
pub(crate) enum News {
    // This many pairs were issued.
    Issued(usize),
    Taken,
    // Every pair was taken.
    Idle,
    // A result was kept for this receiver.
    Kept(usize),
    // Nothing was to be given out for this receiver.
    Nothing(usize),
    Other,
}

impl News {
    // The news of an answer to an event that issues this many pairs, if it issues any, and names this receiver.
    pub(crate) fn of(
        answer: &Result<(Reply, Option<Note>), Event>,
        pairs: usize,
        receiver: usize,
    ) -> Self {
        match answer {
            Ok((Reply::Accepted { .. } | Reply::Issued, _)) => News::Issued(pairs),
            Ok((Reply::Job { .. }, _)) => News::Taken,
            Ok((Reply::Idle, _)) => News::Idle,
            Ok((Reply::Kept, _)) => News::Kept(receiver),
            Ok((Reply::Nothing, _)) => News::Nothing(receiver),
            _ => News::Other,
        }
    }
}

// How many pairs an event issues, where it issues any.
pub(crate) fn pairs_of(event: &Event) -> usize {
    match event {
        Event::Arrive(conforming) => receiver_count(conforming),
        _ => 1,
    }
}

// The receiver that an event names, 0 where it names none.
pub(crate) fn receiver_of(event: &Event) -> usize {
    match event {
        Event::Put { translated, .. } => translated.receiver(),
        Event::Release(receiver) => *receiver,
        _ => 0,
    }
}

// The last `Nothing` of a pass: its receiver, and how many results had been kept for that receiver's condition by then.
#[derive(Clone, Copy)]
pub(crate) struct Missed {
    pub(crate) receiver: usize,
    kept: u64,
}

impl Missed {
    pub(crate) fn none() -> Self {
        Missed {
            receiver: 0,
            kept: 0,
        }
    }
}

// How many pairs were issued and not taken since the last `Idle`, and how many results were kept for each condition.
#[derive(Drop)]
pub(crate) struct Awaited {
    pairs: usize,
    kept: [u64; ROW],
}

impl Awaited {
    pub(crate) fn nothing() -> Self {
        Awaited {
            pairs: 0,
            kept: [0; ROW],
        }
    }

    // Counts one step of a pass, and keeps its last `Nothing`.
    pub(crate) fn enter(&mut self, news: News, missed: &mut Missed) {
        match news {
            News::Issued(pairs) => self.pairs = self.pairs.saturating_add(pairs),
            News::Taken => self.pairs = self.pairs.saturating_sub(1),
            News::Idle => self.pairs = 0,
            News::Kept(receiver) => {
                let kept = self.kept[receiver % ROW];
                self.kept[receiver % ROW] = kept.wrapping_add(1);
            }
            News::Nothing(receiver) => {
                let kept = self.kept[receiver % ROW];
                *missed = Missed { receiver, kept };
            }
            News::Other => {}
        }
    }

    // Whether there may be something for a pass with this last `Nothing`, which waits until the phase.
    pub(crate) fn has(&self, missed: Missed, phase: Phase) -> bool {
        if phase == Phase::NoArrivals {
            return self.pairs > 0;
        }
        self.kept[missed.receiver % ROW] != missed.kept
    }
}
