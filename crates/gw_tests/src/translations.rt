//! A message whose places no one counts up to, and what a map makes of it.
ghost use Rattle.std.specs.Prelude.{◌≡◌};

use crate::worked;
use crate::worked::{profile, tree};
use gw_check::{CheckedMap, check};
use gw_er7::{Builder, Message, Place};
use gw_interp::translate;
use gw_validate::Tree;
use std::alloc::{AllocError, Global};
use std::test::Fail;

const P: &str =
    "profile P\nsegment MSH R 1..1\n  field 10 R 1..1\nsegment PID R 1..1\n  field 3 R 1..*\n";

const M: &[u8] =
    b"map M from P to P\nsegment MSH from MSH\n  copy 10 from MSH-10\nsegment PID from PID\n  first 2 from PID-3\n  copy 3 from PID-3\n";

// A place of a field that no one counts up to.
fn far_away(field: usize) -> Place
    ensures { result ≡ record { field = field; rep = 1; comp = 1000000000000; sub = 1000000000000 } }
{
    Place {
        field,
        rep: 1,
        comp: 1_000_000_000_000,
        sub: 1_000_000_000_000,
    }
}

// A message with one value, far away in PID-3, beside the one that MSH must have.
fn far(alloc: Global) -> Result<Message, AllocError> {
    let mut builder = Builder::new(alloc);
    builder.begin(*b"MSH")?;
    let sender = Place {
        field: 10,
        rep: 1,
        comp: 1,
        sub: 1,
    };
    builder.put(sender, b"7")?;
    builder.begin(*b"PID")?;
    builder.put(far_away(3), b"A")?;
    Ok(builder.finish())
}

fn checked(alloc: Global) -> Result<CheckedMap, Fail> {
    let source = profile(alloc, P)?;
    let target = source.clone()?;
    let map = worked::map(alloc, M)?;
    match check(alloc, source, target, map) {
        Ok(map) => Ok(map),
        Err(_) => Err("the map is refused".into()),
    }
}

fn made(alloc: Global, map: &CheckedMap, tree: &Tree) -> Result<Message, Fail> {
    if !map.takes(tree) {
        return Err("another profile".into());
    }
    let made = translate(alloc, map, tree)?;
    Ok(made)
}

// Whether the value is in PID-2 and PID-3, as far away, and nothing else is.
fn is_copied(made: &Message) -> bool {
    if made.segment_count() != 2 {
        return false;
    }
    let patient = made.segment(1);
    patient.value_count() == 2
        && patient.text(far_away(2)) == b"A".as_slice()
        && patient.text(far_away(3)) == b"A".as_slice()
}

// Only the values that are there are copied, however far the last one is.
#[test]
fn values_far_away(rt: HostRuntime) -> Result<(), Fail> {
    let alloc = rt.alloc();
    let map = checked(alloc)?;
    let tree = tree(alloc, map.source().clone()?, far(alloc)?)?;
    let made = made(alloc, &map, &tree)?;
    assert!(rt; is_copied(&made));
    Ok(())
}
