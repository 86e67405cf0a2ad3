//! Profiles, looked at.
use gw_profile::parse;
use std::test::Fail;

/// Profiles, and whether they are the first of them.
const TEXTS: [(&[u8], bool); 5] = [
    (
        b"profile A\ntable T a\nsegment MSH R 1..1\nfield 3 R 1..1 len 4 table T\n",
        true,
    ),
    (
        b"# A\nprofile A\ntable T \"a\"\nsegment MSH R 1..1\nfield 3 R 1..1\ncomp 1 R\nsub 1 R len 4 table T",
        true,
    ),
    (
        b"profile A\ntable T a\nsegment MSH R 1..1\nfield 3 R 1..1 len 5 table T\n",
        false,
    ),
    (
        b"profile A\ntable T a b\nsegment MSH R 1..1\nfield 3 R 1..1 len 4 table T\n",
        false,
    ),
    (
        b"profile A\ncount characters\ntable T a\nsegment MSH R 1..1\nfield 3 R 1..1 len 4 table T\n",
        false,
    ),
];

#[test]
fn values(rt: HostRuntime) -> Result<(), Fail> {
    let profile = parse(rt.alloc(), TEXTS[0].0)?;
    assert!(rt; profile.name() == b"A".as_slice());
    assert!(rt; profile.nodes().len() == 1 && profile.tables().len() == 1);
    assert!(rt; profile.knows(*b"MSH") && !profile.knows(*b"PID"));
    let table = profile.table(b"T").ok_or("T")?;
    assert!(rt; table.contains(b"a") && !table.contains(b"b") && table.values().len() == 1);
    Ok(())
}

#[test]
fn same(rt: HostRuntime) -> Result<(), Fail> {
    let profile = parse(rt.alloc(), TEXTS[0].0)?;
    for (text, want) in TEXTS {
        let other = parse(rt.alloc(), text)?;
        assert_eq!(rt; profile.same(&other), want);
    }
    Ok(())
}
