//! A map, looked at.
use gw_maplang::parse;
use std::test::Fail;

#[test]
fn values(rt: HostRuntime) -> Result<(), Fail> {
    let text = b"map M from A to B\ntable T\nrow F 2\nelse 9\nsegment MSH from MSH\ndrop PID\n";
    let map = parse(rt.alloc(), text)?;
    assert!(rt; map.name() == b"M".as_slice() && map.line() == 1);
    assert!(rt; map.source() == b"A".as_slice() && map.target() == b"B".as_slice());
    assert!(rt; map.items().len() == 1 && map.drops().len() == 1 && map.tables().len() == 1);
    let table = map.table(b"T").ok_or("T")?;
    assert!(rt; table.rows().len() == 1 && table.second(b"F") == Some(b"2".as_slice()));
    assert!(rt; table.other() == Some(b"9".as_slice()));
    Ok(())
}
