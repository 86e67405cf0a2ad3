//! The figures of a gateway at one moment. Nothing of a message is in them.

/// A receiver: its name and address, whether it is connected, for how many seconds it isn't, and whether it is held.
/// `waiting` messages wait for it, the first of them for `oldest` seconds. It was sent `sent` messages, repeats included, and answered each code so often.
/// `refused` messages are all that it refused; `lying` of these lie refused, and weren't sent again. `why` says how it refused the last, by codes alone.
pub struct Receiver {
    pub name: Vec<u8>,
    pub address: Vec<u8>,
    pub is_connected: bool,
    pub is_held: bool,
    pub down: u64,
    pub waiting: u64,
    pub oldest: u64,
    pub sent: u64,
    pub aa: u64,
    pub ae: u64,
    pub ar: u64,
    pub refused: u64,
    pub lying: u64,
    pub why: Vec<u8>,
}

// (by hand, so that no crate above proves again how its fields are dropped)
impl Drop for Receiver {
    fn drop(self) {
        let Receiver {
            name: _,
            address: _,
            is_connected: _,
            is_held: _,
            down: _,
            waiting: _,
            oldest: _,
            sent: _,
            aa: _,
            ae: _,
            ar: _,
            refused: _,
            lying: _,
            why: _,
        } = self;
    }
}

/// An answer that isn't AA: its time (UTC, YYYYMMDDHHMMSS), the session, who sent the message, the answer's control id, MSA-1, and the code and place of ERR.
pub struct Refusal {
    pub time: [u8; 14],
    pub session: u64,
    pub from: Vec<u8>,
    pub number: Vec<u8>,
    pub answer: Vec<u8>,
    pub code: Vec<u8>,
    pub place: Vec<u8>,
}

// (by hand, so that no crate above proves again how its fields are dropped)
impl Drop for Refusal {
    fn drop(self) {
        let Refusal {
            time: _,
            session: _,
            from: _,
            number: _,
            answer: _,
            code: _,
            place: _,
        } = self;
    }
}

/// How many answers had this condition code (HL7 table 0357).
#[derive(Clone, Copy)]
pub struct Refused {
    pub code: u64,
    pub count: u64,
}

/// The gateway: its version, the name of its machine, the time (UTC, YYYYMMDDHHMMSS), and after how many seconds a receiver is late;
/// the number of its plan, how many messages it accepted and refused, how many connections are open and how many there were,
/// how many records its log has, and how many bytes its files take, whether its disk is short of room, whether it can't go on,
/// its receivers, how often each code refused, and its last refusals.
pub struct Figures {
    pub version: Vec<u8>,
    pub host: Vec<u8>,
    pub time: [u8; 14],
    pub late: u64,
    pub plan: u64,
    pub accepted: u64,
    pub refused: u64,
    pub open: u64,
    pub sessions: u64,
    pub entries: u64,
    pub bytes: u64,
    pub is_short: bool,
    pub has_failed: bool,
    pub receivers: Vec<Receiver>,
    pub codes: Vec<Refused>,
    pub refusals: Vec<Refusal>,
}

// (by hand, so that no crate above proves again how its fields are dropped)
impl Drop for Figures {
    fn drop(self) {
        let Figures {
            version: _,
            host: _,
            time: _,
            late: _,
            plan: _,
            accepted: _,
            refused: _,
            open: _,
            sessions: _,
            entries: _,
            bytes: _,
            is_short: _,
            has_failed: _,
            receivers: _,
            codes: _,
            refusals: _,
        } = self;
    }
}
