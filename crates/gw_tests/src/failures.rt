//! All failures of maps, in the order of the definition.
use crate::worked;
use crate::worked::profile;
use gw_check::failures;
use std::alloc::Global;
use std::test::Fail;

const SOURCE: &str =
    "profile S\nsegment MSH R 1..1\nsegment PID R 1..1\n  field 3 R 1..2\n  field 5 RE 0..1\n";

const TARGET: &str =
    "profile T\nsegment MSH R 1..1\nsegment PID R 1..1\n  field 3 R 1..1\n  field 4 RE 0..1\n  field 5 R 1..1\nsegment NK1 RE 0..1\n";

/// Maps from SOURCE to TARGET, and their failures: rules with lines.
const CASES: &[(&str, &[(u8, u32)])] = &[
    (
        "map M from S to T\nsegment MSH from MSH\nsegment PID from PID\n  copy 3 from PID-3\n  copy 5 from PID-5\n",
        &[(8, 1), (4, 4), (8, 3), (5, 5)],
    ),
    (
        "map M from S to T\nsegment MSH from MSH\nsegment PID from PID\n  copy 3 from NOPE-3\nsegment ZZZ always\n",
        &[(1, 4), (3, 5)],
    ),
    (
        "map M from S to T\nsegment MSH from MSH\nsegment PID from PID\n  first 3 from PID-3\n",
        &[(8, 1), (8, 3), (5, 3), (9, 1)],
    ),
];

fn found(alloc: Global, source: &str, target: &str, map: &str) -> Result<Vec<(u8, u32)>, Fail> {
    let source = profile(alloc, source)?;
    let target = profile(alloc, target)?;
    let map = worked::map(alloc, map.as_bytes())?;
    let mut found = Vec::new(alloc);
    for failure in &failures(alloc, &source, &target, &map)? {
        found.push((failure.rule, failure.mark.line))?;
    }
    Ok(found)
}

#[test]
fn in_order(rt: HostRuntime) -> Result<(), Fail> {
    let alloc = rt.alloc();
    for (map, expected) in CASES {
        let found = found(alloc, SOURCE, TARGET, map)?;
        assert_eq!(rt; found.as_slice(), *expected, "{map}");
    }
    Ok(())
}
