//! Words that read the log's files. A thread of its own answers them. It looks which files are needed too: so no look comes between what it reads and puts.
use crate::asked::answer_to;
use crate::gateway::hub::Hub;
use crate::retention::{Age, look_at_files};
use crate::runtime::Runtime;
use crate::store::Unanswered;
use gw_delivery::PageFault;
use gw_journal::{Naming, Storage};
use std::alloc::{AllocError, Global};
use std::collections::VecDeque;
use std::io::Write;
use std::os::unix::net::UnixStream;
use std::sync::{Mutex, Wait};
use std::time::Duration;
use std::{io, thread};

/// After how many milliseconds the thread looks whether somebody asks, and after how many of these looks it looks at the files.
const LOOK: u64 = 50;

const FILES: u64 = 100;

/// A line that came in, and who waits for its answer.
#[derive(Drop)]
pub(crate) struct Ask {
    pub(crate) line: String,
    pub(crate) stream: UnixStream,
}

/// Who asks, in order.
#[derive(Drop)]
pub(crate) struct Asks {
    all: Mutex<VecDeque<Ask>>,
}

impl Asks {
    pub(crate) fn new(alloc: Global) -> Self {
        Asks {
            all: Mutex::new(VecDeque::new(alloc)),
        }
    }

    /// One more asks.
    pub(crate) fn put<R: Wait>(&self, rt: &R, ask: Ask) -> Result<(), AllocError> {
        self.all.lock(rt).push_back(ask)?;
        Ok(())
    }

    fn take<R: Wait>(&self, rt: &R) -> Option<Ask> {
        self.all.lock(rt).pop_front()
    }
}

/// Whether a line is a word that reads the log.
pub(crate) fn reads_log(line: &str) -> bool {
    match line.split_once(' ') {
        Some(("status", rest)) => rest.starts_with("--refused "),
        Some(("find" | "show" | "resend" | "replay" | "skip" | "park", rest)) => !rest.is_empty(),
        _ => line == "seal",
    }
}

/// Answers who asks.
fn attend<J: Naming, S: Storage + Drop, R: Runtime + Wait>(
    hub: &Hub<'_, J, S, R>,
    ask: Ask,
) -> io::Result<()> {
    let Ask { line, stream } = ask;
    let alloc = hub.rt.alloc();
    let text = match answer_to(hub, line.trim_end()) {
        Ok(text) => text,
        Err(Unanswered::Page(PageFault::Memory)) => return Err(io::Error::from(AllocError)),
        Err(why) => format!(in alloc; "refused: {why}\n")?,
    };
    let mut writer = stream;
    writer.write_all(text.as_bytes())
}

/// Answers one after another who asks, and looks from time to time which files nobody needs, until the gateway ends.
pub(crate) fn resend_all<J: Naming, S: Storage + Drop, R: Runtime + Wait>(hub: &Hub<'_, J, S, R>) {
    let mut keeper = None;
    let mut age = Age::new();
    let mut looks = 0_u64;
    for _ in hub.rt.forever() {
        if hub.has_ended() {
            return;
        }
        if looks == 0 {
            keeper = look_at_files(hub, keeper, &mut age);
        }
        looks = looks.wrapping_add(1) % FILES;
        match hub.asks.take(hub.rt) {
            Some(ask) => drop(attend(hub, ask)),
            None => thread::sleep(hub.rt, Duration::from_millis(LOOK)),
        }
    }
}
