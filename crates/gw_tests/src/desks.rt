//! The calls on a desk, with their answers.
use gw_reorder::laws::values_are_given_in_order;
use gw_reorder::{Desk, Held, Status};
use std::test::Fail;

/// What the answer of `hold` says of the number, and whether a value that isn't kept is the one that was brought.
fn told(held: &Held<u64>, value: u64) -> (Status, bool) {
    match held {
        Held::Kept => (Status::Waiting, true),
        Held::Repeat(back) => (Status::Repeat, *back == value),
        Held::Stranger(back) => (Status::Stranger, *back == value),
    }
}

/// Brings a value of ten times the number: `status` and `hold` say the same.
fn brings(desk: &mut Desk<u64>, number: u64, value: u64, want: Status) -> bool {
    let before = desk.status(number);
    let held = desk.hold(number, value);
    before == want && told(&held, value) == (want, true)
}

/// Gives the next one: `peek` and `release` say the same.
fn gives(desk: &mut Desk<u64>, want: Option<(u64, u64)>) -> bool {
    let before = match desk.peek() {
        Some((number, value)) => Some((number, *value)),
        None => None,
    };
    before == want && desk.release() == want
}

/// A call on a desk, with its answer.
#[derive(Clone, Copy)]
enum Call {
    Brings(u64, u64, Status),
    Gives(Option<(u64, u64)>),
}

/// Calls on a desk at which 0, 3 and 4 are due.
const CALLS: [Call; 13] = [
    Call::Brings(4, 40, Status::Waiting),
    Call::Brings(4, 41, Status::Repeat),
    Call::Brings(1, 10, Status::Stranger),
    Call::Brings(0, 5, Status::Waiting),
    Call::Gives(Some((0, 5))),
    Call::Brings(0, 6, Status::Repeat),
    Call::Brings(2, 20, Status::Stranger),
    Call::Gives(None),
    Call::Brings(3, 30, Status::Waiting),
    Call::Gives(Some((3, 30))),
    Call::Gives(Some((4, 40))),
    Call::Gives(None),
    Call::Brings(3, 31, Status::Repeat),
];

fn answers(desk: &mut Desk<u64>, call: Call) -> bool {
    match call {
        Call::Brings(number, value, want) => brings(desk, number, value, want),
        Call::Gives(want) => gives(desk, want),
    }
}

#[test]
fn numbers_with_gaps(rt: HostRuntime) -> Result<(), Fail> {
    values_are_given_in_order::<u64>();
    let mut desk = Desk::new(rt.alloc());
    assert!(rt; !desk.has_room());
    desk.reserve()?;
    assert!(rt; desk.has_room());
    desk.due(0);
    desk.reserve()?;
    desk.due(3);
    desk.reserve()?;
    desk.due(4);
    for (at, call) in CALLS.iter().enumerate() {
        assert!(rt; answers(&mut desk, *call), "call {at}");
    }
    Ok(())
}
