//! Profiles and maps that are parsed, and messages that are validated.
use crate::sweeps::{Call, holds, refuse, sweep};
use gw_er7::{Message, read};
use gw_maplang::{Map, MapFault, identity};
use gw_profile::{Profile, ProfileFault};
use gw_validate::{Verdict, validate};
use std::alloc::Global;
use std::sync::Arc;
use std::test::Fail;

pub(crate) const P1: &str =
    "profile P1\ntable SEX M F U\nsegment MSH R 1..1\n  field 10 R 1..1\nsegment PID R 1..1\n  field 3 R 1..2\n  field 5 RE 0..1\n  \
    field 8 RE 0..1 len 1 table SEX\nsegment NK1 O 0..2\n";

const ORU: &str =
    "profile ORU\nsegment MSH R 1..1\ngroup PATIENT_RESULT R 1..*\n  group PATIENT R 1..1\n    segment PID R 1..1\n  end\n  \
    group ORDER R 1..*\n    segment OBR R 1..1\n      field 1 RE 0..1\n  end\nend\n";

pub(crate) const M2: &[u8] =
    b"map M2 from P2 to T1\ntable SEXMAP\n  row M 1\n  row F 2\n  else 9\nsegment MSH from MSH\n  copy 10 from MSH-10\n\
    segment PID from PID\n  build 8 lookup SEXMAP PID-8\ndrop PID-3\ndrop PID-5\n";

// The profile by which messages are validated.
fn profile(alloc: Global) -> Result<Arc<Profile>, Fail> {
    let shared = Arc::new(alloc, gw_profile::parse(alloc, P1.as_bytes())?)?;
    Ok(shared)
}

#[derive(Clone, Copy)]
enum Text {
    Profile,
    Map,
    Identity,
}

impl Call for Text {
    fn is_refused(&self, alloc: Global, growth: u32) -> Result<bool, Fail> {
        match self {
            Text::Profile => profile_refused(alloc, growth),
            Text::Map => map_refused(alloc, growth),
            Text::Identity => identity_refused(alloc, growth),
        }
    }
}

fn profile_refused(alloc: Global, growth: u32) -> Result<bool, Fail> {
    refuse(alloc, growth);
    let (refused, profile) = match gw_profile::parse(alloc, ORU.as_bytes()) {
        Err(ProfileFault::Memory) => (true, gw_profile::parse(alloc, ORU.as_bytes())?),
        result => (false, result?),
    };
    refuse(alloc, 0);
    holds(
        profile.name() == b"ORU".as_slice() && profile.nodes().len() == 2,
        "another profile",
    )?;
    Ok(refused)
}

// Whether a map has this name, and this many items and `drop` lines.
pub(crate) fn is_map(map: &Map, name: &[u8], items: usize, drops: usize) -> bool {
    map.name() == name && map.items().len() == items && map.drops().len() == drops
}

fn map_refused(alloc: Global, growth: u32) -> Result<bool, Fail> {
    refuse(alloc, growth);
    let (refused, map) = match gw_maplang::parse(alloc, M2) {
        Err(MapFault::Memory) => (true, gw_maplang::parse(alloc, M2)?),
        result => (false, result?),
    };
    refuse(alloc, 0);
    holds(is_map(&map, b"M2", 2, 2), "another map")?;
    Ok(refused)
}

fn identity_refused(alloc: Global, growth: u32) -> Result<bool, Fail> {
    let profile = profile(alloc)?;
    refuse(alloc, growth);
    let (refused, map) = match identity(alloc, &profile) {
        Err(_) => (true, identity(alloc, &profile)?),
        Ok(map) => (false, map),
    };
    refuse(alloc, 0);
    holds(is_map(&map, b"P1", 3, 0), "another map")?;
    Ok(refused)
}

#[test]
fn texts_refused(rt: HostRuntime) -> Result<(), Fail> {
    for call in [Text::Profile, Text::Map, Text::Identity] {
        sweep(rt.alloc(), &call)?;
    }
    Ok(())
}

/// Message bytes, and the code of their breach; 0 if they conform.
#[derive(Clone, Copy)]
struct Validated {
    content: &'static [u8],
    code: u16,
}

// The code of the breach; 0 if there is none.
fn code_of(verdict: &Verdict) -> u16 {
    match verdict {
        Verdict::Fits(_) => 0,
        Verdict::Breaks(breach, _) => breach.code(),
    }
}

// Validates a message, and validates it again after a failure, which returns it. Returns whether it failed.
fn validate_again(
    alloc: Global,
    profile: &Arc<Profile>,
    message: Message,
    copy: &Message,
) -> Result<(bool, Verdict), Fail> {
    match validate(alloc, profile.clone()?, message) {
        Ok(verdict) => Ok((false, verdict)),
        Err(back) => {
            holds(back.same(copy), "another message comes back")?;
            match validate(alloc, profile.clone()?, back) {
                Ok(verdict) => Ok((true, verdict)),
                Err(_) => Err("it is refused again".into()),
            }
        }
    }
}

impl Call for Validated {
    fn is_refused(&self, alloc: Global, growth: u32) -> Result<bool, Fail> {
        let profile = profile(alloc)?;
        let message = read(alloc, self.content)?;
        let copy = message.copy(alloc)?;
        refuse(alloc, growth);
        let (refused, verdict) = validate_again(alloc, &profile, message, &copy)?;
        refuse(alloc, 0);
        holds(code_of(&verdict) == self.code, "another verdict")?;
        Ok(refused)
    }
}

/// A message that conforms, one without its patient's identifier, and one without its patient.
const VALIDATED: [Validated; 3] = [
    Validated {
        content: b"MSH|^~\\&||||||||7\rPID|||123||DOE^JOHN\r",
        code: 0,
    },
    Validated {
        content: b"MSH|^~\\&||||||||7\rPID|||||DOE\r",
        code: 101,
    },
    Validated {
        content: b"MSH|^~\\&||||||||7\r",
        code: 100,
    },
];

#[test]
fn validate_refused(rt: HostRuntime) -> Result<(), Fail> {
    for call in VALIDATED {
        sweep(rt.alloc(), &call)?;
    }
    Ok(())
}
