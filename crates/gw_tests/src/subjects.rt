//! What the lines of a map make, and of what.
use crate::worked::{P1, map, profile};
use gw_check::{
    Origin, Refusal, Site, Taker, comp_at, examine, field_at, site_at, sub_at, untaken,
};
use gw_maplang::Map;
use gw_profile::{Profile, Usage};
use std::test::Fail;

const T1: &str =
    "profile T1\ntable ISO 1 2 9\nsegment MSH R 1..1\n  field 10 R 1..1\nsegment PID R 1..1\n  field 8 R 1..1 len 1 table ISO\n";

const M1: &[u8] =
    b"map M1 from P1 to T1\ntable SEXMAP\n  row M 1\n  row F 2\nsegment MSH from MSH\n  copy 10 from MSH-10\nsegment PID from PID\n  build 8 lookup SEXMAP PID-8\ndrop PID-3\ndrop PID-5\n";

/// What the lookup of line 8 reads: the usage of the field, the number of the component and the length of the subcomponent; and the texts in its way,
/// the first that the target's table lacks and the first that has no row.
type Lookup<'a> = (Usage, u32, Option<u32>, Option<&'a [u8]>, Option<&'a [u8]>);

fn lookup<'a>(
    source: &'a Profile,
    target: &'a Profile,
    map: &'a Map,
    made: &'a [Site],
) -> Option<Lookup<'a>> {
    let Origin::LookedUp(name, from) = &site_at(made, 8)?.origin else {
        return None;
    };
    let field = field_at(source, &from.at, from.field)?;
    let comp = comp_at(source, &from.at, from.field, from.comp)?;
    let sub = sub_at(source, &from.at, from.field, from.comp, from.sub)?;
    let strange = untaken(source, sub, Taker::Table(target.table(b"ISO")?));
    let unrowed = untaken(source, sub, Taker::Rows(map.table(name)?));
    Some((field.usage, comp.number, sub.len, strange, unrowed))
}

/// What the lookup reads, and the texts that it can't look up.
#[test]
fn lookups(rt: HostRuntime) -> Result<(), Fail> {
    let alloc = rt.alloc();
    let source = profile(alloc, P1)?;
    let target = profile(alloc, T1)?;
    let examined = examine(alloc, source.clone()?, target.clone()?, map(alloc, M1)?);
    let Err(Refusal::Rules { used, map, .. }) = examined else {
        return Err("no rule refuses it".into());
    };
    let found = lookup(&source, &target, &map, &used.sites);
    let want = (
        Usage::RE,
        1,
        Some(1),
        Some(b"M".as_slice()),
        Some(b"U".as_slice()),
    );
    assert!(rt; found == Some(want));
    Ok(())
}
