//! What the checker returns, and maps that it always allows.
use crate::worked::{ORU, P1, map, profile};
use gw_check::{CheckFault, check};
use gw_leaves::{Presence, Shape, Values, included};
use gw_maplang::Map;
use gw_profile::{Count, Profile, SubShape, Usage};
use std::alloc::Global;
use std::sync::Arc;
use std::test::Fail;

const T1: &str =
    "profile T1\ntable ISO 1 2 9\nsegment MSH R 1..1\n  field 10 R 1..1\nsegment PID R 1..1\n  field 8 R 1..1 len 1 table ISO\n";

const M1: &[u8] =
    b"map M1 from P1 to T1\ntable SEXMAP\n  row M 1\n  row F 2\n  else 9\nsegment MSH from MSH\n  copy 10 from MSH-10\nsegment PID from PID\n  build 8 lookup SEXMAP PID-8\ndrop PID-3\ndrop PID-5\n";

/// A field, a component and a segment that are forbidden, beside what is required and what may be absent.
const CLINIC: &str =
    "profile CLINIC\ntable SEX M F U\nsegment MSH R 1..1\n  field 10 R 1..1\nsegment ZPI X 0..0\nsegment PID R 1..1\n  field 3 R 1..2\n  field 4 X 0..0\n  field 5 RE 0..1\n    comp 1 R len 4\n    comp 2 X\ngroup VISIT O 0..9\n  segment PV1 R 1..1\n  segment NTE RE 0..1\n    field 3 RE 0..1\nend\n";

// The rule that refuses a map, its line, and the map.
fn refusal(
    alloc: Global,
    source: Arc<Profile>,
    target: Arc<Profile>,
    map: Map,
) -> Result<(u8, u32, Map), Fail> {
    match check(alloc, source, target, map) {
        Err(CheckFault::Rule { rule, line, map }) => Ok((rule, line, map)),
        _ => Err("a rule refuses it".into()),
    }
}

/// A map that is refused comes back, with the least rule that fails and its line.
#[test]
fn refused(rt: HostRuntime) -> Result<(), Fail> {
    let alloc = rt.alloc();
    let source = profile(alloc, P1)?;
    let target = profile(alloc, T1)?;
    let given = map(alloc, M1)?;
    let (rule, line, map) = refusal(alloc, source, target, given)?;
    assert_eq!(rt; (rule, line), (5, 9));
    assert_eq!(rt; map.name(), b"M1".as_slice());
    Ok(())
}

/// The map that leaves all as it is.
#[test]
fn identities(rt: HostRuntime) -> Result<(), Fail> {
    let alloc = rt.alloc();
    for text in &[P1, ORU, CLINIC] {
        let both = profile(alloc, text)?;
        let map = gw_maplang::identity(alloc, &both)?;
        let target = profile(alloc, text)?;
        assert!(rt; check(alloc, both, target, map).is_ok(), "{text}");
    }
    Ok(())
}

/// Whether a text up to a length always fits a subcomponent that takes twenty octets or characters.
#[test]
fn shapes(rt: HostRuntime) -> Result<(), Fail> {
    let sub = SubShape {
        number: 1,
        usage: Usage::R,
        len: Some(20),
        table: None,
    };
    let rows = [
        (Some(20), Count::Octets, Count::Octets, true),
        (Some(21), Count::Octets, Count::Octets, false),
        (None, Count::Octets, Count::Octets, false),
        (Some(20), Count::Octets, Count::Characters, true),
        (Some(20), Count::Characters, Count::Characters, true),
        (Some(5), Count::Characters, Count::Octets, false),
    ];
    for (len, from, to, expected) in rows {
        let shape = Shape {
            presence: Presence::Always,
            values: Values::Any(len, from),
        };
        assert_eq!(rt; included(&shape, &sub, None, to), expected);
    }
    Ok(())
}
