//! What a log's records say, and the state that they leave.
use gw_due::{Entry, Event, How, State, StateFault, read, spell};
use std::alloc::Global;
use std::test::Fail;

// A log of a receiver, a margin, and a message for the receiver, at place 2.
pub(crate) fn accepted(alloc: Global) -> Result<State, StateFault> {
    let mut to = Vec::new(alloc);
    to.push(0)?;
    let events = [
        Event::Named {
            receiver: 0,
            name: b"LAB",
            address: b"lab:2575",
        },
        Event::Margin { number: 10 },
        Event::Accepted {
            number: 1,
            to,
            bytes: b"MSH|^~\\&",
        },
    ];
    let mut state = State::new(alloc);
    for event in &events {
        state.after(alloc, event)?;
    }
    Ok(state)
}

fn passed(place: u64) -> Event<'static> {
    Event::Passed {
        receiver: 0,
        place,
        how: How::Taken,
    }
}

// Whether the receiver passes what is first for it, and nothing else, and that once.
fn passes_once(alloc: Global, state: &mut State) -> Result<bool, StateFault> {
    let early = state.may_follow(&passed(1));
    state.after(alloc, &passed(2))?;
    Ok(!early && !state.may_follow(&passed(2)) && state.next() == 4)
}

#[test]
fn what_is_left_is_passed_once(rt: HostRuntime) -> Result<(), Fail> {
    let mut state = accepted(rt.alloc())?;
    assert!(rt; passes_once(rt.alloc(), &mut state)?);
    Ok(())
}

// Whether these bytes are a margin of 3.
fn is_margin(alloc: Global, bytes: &[u8]) -> bool {
    match read(alloc, bytes) {
        Ok(entry) => matches!(entry.event, Event::Margin { number: 3 }),
        Err(_) => false,
    }
}

#[test]
fn a_record_is_read_as_it_was_written(rt: HostRuntime) -> Result<(), Fail> {
    let alloc = rt.alloc();
    let mut bytes = Vec::new(alloc);
    let entry = Entry {
        time: 258,
        event: Event::Margin { number: 3 },
    };
    spell(&entry, &mut bytes)?;
    let want = [0, 0, 0, 0, 0, 0, 1, 2, 6, 0, 0, 0, 0, 0, 0, 0, 3];
    let is_spelled = bytes.as_slice() == want.as_slice();
    assert!(rt; is_spelled && is_margin(alloc, &bytes) && !is_margin(alloc, &bytes[..16]));
    Ok(())
}
