//! Plans that are parsed, maps that are checked, and messages that are translated.
use crate::sweeps::{Call, holds, refuse, sweep};
use crate::texts::{M2, P1, is_map};
use gw_check::{CheckFault, CheckedMap, check};
use gw_er7::{Message, read, write};
use gw_interp::translate;
use gw_maplang::Map;
use gw_plan::{Conforming, Plan, PlanFault, Refusal, Translated, admit, translate_for};
use gw_profile::Profile;
use gw_validate::{Tree, Verdict, validate};
use std::alloc::{AllocError, Global};
use std::sync::Arc;
use std::test::Fail;

const P2: &str =
    "profile P2\ntable SEX M F U\nsegment MSH R 1..1\n  field 10 R 1..1\nsegment PID R 1..1\n  field 3 R 1..2\n  field 5 RE 0..1\n  field 8 R 1..1 len 1 table SEX\nsegment NK1 O 0..2\n";

const T1: &str =
    "profile T1\ntable ISO 1 2 9\nsegment MSH R 1..1\n  field 10 R 1..1\nsegment PID R 1..1\n  field 8 R 1..1 len 1 table ISO\n";

const M1: &[u8] =
    b"map M1 from P1 to T1\ntable SEXMAP\n  row M 1\n  row F 2\n  else 9\nsegment MSH from MSH\n  copy 10 from MSH-10\nsegment PID from PID\n  build 8 lookup SEXMAP PID-8\ndrop PID-3\ndrop PID-5\n";

/// A message for the plan.
const ARRIVED: &[u8] =
    b"MSH|^~\\&|LAB|H1|GW|H2|20240102030405||ADT^A01^ADT_A01|7|P|2.5.1\rPID|||123|||||F\r";

/// A plan of one receiver, in the parts before and after its name.
const PLAN: [&str; 2] = [
    "plan G\nreceiver ",
    " 127.0.0.1:7001\naccept version 2.5.1\naccept processing P\nbegin profile\nprofile P2\ntable SEX M F U\nsegment MSH R 1..1\n  field 10 R 1..1\n\
    segment PID R 1..1\n  field 3 R 1..2\n  field 5 RE 0..1\n  field 8 R 1..1 len 1 table SEX\nsegment NK1 O 0..2\nstop\nbegin profile\nprofile T1\n\
    table ISO 1 2 9\nsegment MSH R 1..1\n  field 10 R 1..1\nsegment PID R 1..1\n  field 8 R 1..1 len 1 table ISO\nstop\nbegin map\n\
    map M2 from P2 to T1\ntable SEXMAP\n  row M 1\n  row F 2\n  else 9\nsegment MSH from MSH\n  copy 10 from MSH-10\n\
    segment PID from PID\n  build 8 lookup SEXMAP PID-8\ndrop PID-3\ndrop PID-5\nstop\nroute ADT A01 from P2\n",
];

// A profile of this text.
fn profile(alloc: Global, text: &str) -> Result<Arc<Profile>, Fail> {
    let Ok(profile) = gw_profile::parse(alloc, text.as_bytes()) else {
        return Err("no profile".into());
    };
    let shared = Arc::new(alloc, profile)?;
    Ok(shared)
}

// The plan's text, with a receiver of this name.
fn plan_text(alloc: Global, name: &str) -> Result<String, AllocError> {
    let [before, behind] = PLAN;
    format!(in alloc; "{before}{name}{behind}to {name} by M2\n")
}

// The plan with the receiver ARCHIVE.
fn archive(alloc: Global) -> Result<Arc<Plan>, Fail> {
    let text = plan_text(alloc, "ARCHIVE")?;
    let shared = Arc::new(alloc, Plan::parse(alloc, text.as_bytes())?)?;
    Ok(shared)
}

// A map of this text.
fn map(alloc: Global, text: &[u8]) -> Result<Map, Fail> {
    match gw_maplang::parse(alloc, text) {
        Ok(map) => Ok(map),
        Err(_) => Err("no map".into()),
    }
}

// The tree of a message that conforms.
fn tree(alloc: Global, profile: Arc<Profile>, message: Message) -> Result<Tree, Fail> {
    match validate(alloc, profile, message) {
        Ok(Verdict::Fits(tree)) => Ok(tree),
        _ => Err("it breaks".into()),
    }
}

// A message that is admitted under this version of the plan.
fn admitted(
    alloc: Global,
    plan: &Arc<Plan>,
    version: u64,
    content: &[u8],
) -> Result<Arc<Conforming>, Fail> {
    let message = read(alloc, content)?;
    match admit(alloc, plan, version, message) {
        Ok(conforming) => Ok(conforming),
        Err(_) => Err("it is refused".into()),
    }
}

#[derive(Clone, Copy)]
struct Text;

impl Call for Text {
    fn is_refused(&self, alloc: Global, growth: u32) -> Result<bool, Fail> {
        plan_refused(alloc, growth)
    }
}

fn plan_refused(alloc: Global, growth: u32) -> Result<bool, Fail> {
    let text = plan_text(alloc, "ARCHIVE")?;
    refuse(alloc, growth);
    let (refused, plan) = match Plan::parse(alloc, text.as_bytes()) {
        Err(PlanFault::Memory) => (true, Plan::parse(alloc, text.as_bytes())?),
        result => (false, result?),
    };
    refuse(alloc, 0);
    holds(
        plan.receivers().len() == 1 && plan.text() == text.as_bytes(),
        "another plan",
    )?;
    Ok(refused)
}

#[test]
fn plans_refused(rt: HostRuntime) -> Result<(), Fail> {
    sweep(rt.alloc(), &Text)
}

/// A map between two profiles, and whether it is allowed.
#[derive(Clone, Copy)]
enum Checked {
    Refused,
    Allowed,
}

// Checks a map. What is answered, with a map that comes back for a refused growth.
fn examined(
    alloc: Global,
    source: &Arc<Profile>,
    target: &Arc<Profile>,
    map: Map,
) -> Result<Result<(u8, u32), Map>, Fail> {
    match check(alloc, source.clone()?, target.clone()?, map) {
        Ok(_) => Ok(Ok((0, 0))),
        Err(CheckFault::Rule { rule, line, map: _ }) => Ok(Ok((rule, line))),
        Err(CheckFault::Memory(map)) => Ok(Err(map)),
    }
}

fn check_refused_at(
    alloc: Global,
    texts: (&str, &[u8], &[u8]),
    want: (u8, u32),
    growth: u32,
) -> Result<bool, Fail> {
    let source = profile(alloc, texts.0)?;
    let target = profile(alloc, T1)?;
    let map = map(alloc, texts.1)?;
    refuse(alloc, growth);
    let (refused, found) = match examined(alloc, &source, &target, map)? {
        Ok(found) => (false, Ok(found)),
        Err(back) => {
            holds(is_map(&back, texts.2, 2, 2), "another map comes back")?;
            (true, examined(alloc, &source, &target, back)?)
        }
    };
    refuse(alloc, 0);
    match found {
        Ok(found) => holds(found == want, "another answer")?,
        Err(_) => return Err("it is refused again".into()),
    }
    Ok(refused)
}

impl Call for Checked {
    fn is_refused(&self, alloc: Global, growth: u32) -> Result<bool, Fail> {
        match self {
            Checked::Refused => check_refused_at(alloc, (P1, M1, b"M1"), (5, 9), growth),
            Checked::Allowed => check_refused_at(alloc, (P2, M2, b"M2"), (0, 0), growth),
        }
    }
}

#[test]
fn check_refused(rt: HostRuntime) -> Result<(), Fail> {
    for call in [Checked::Refused, Checked::Allowed] {
        sweep(rt.alloc(), &call)?;
    }
    Ok(())
}

/// What is made of a message that arrived, and of the plan's map.
#[derive(Clone, Copy)]
enum Made {
    Translate,
    Admit,
    TranslateFor,
}

/// What the archive is sent.
const SENT: &[u8] = b"MSH|^~\\&||||||||7\rPID||||||||2\r";

impl Call for Made {
    fn is_refused(&self, alloc: Global, growth: u32) -> Result<bool, Fail> {
        match self {
            Made::Translate => translate_refused_at(alloc, growth),
            Made::Admit => admit_refused(alloc, growth),
            Made::TranslateFor => translate_for_refused(alloc, growth),
        }
    }
}

// The map that is allowed.
fn allowed(alloc: Global) -> Result<CheckedMap, Fail> {
    let map = map(alloc, M2)?;
    match check(alloc, profile(alloc, P2)?, profile(alloc, T1)?, map) {
        Ok(checked) => Ok(checked),
        Err(_) => Err("the map is refused".into()),
    }
}

fn translate_refused_at(alloc: Global, growth: u32) -> Result<bool, Fail> {
    let map = allowed(alloc)?;
    let tree = tree(alloc, map.source().clone()?, read(alloc, ARRIVED)?)?;
    if !map.takes(&tree) {
        return Err("another profile".into());
    }
    refuse(alloc, growth);
    let (refused, made) = match translate(alloc, &map, &tree) {
        Err(_) => (true, translate(alloc, &map, &tree)?),
        Ok(made) => (false, made),
    };
    refuse(alloc, 0);
    holds(write(alloc, &made)?.as_slice() == SENT, "another message")?;
    Ok(refused)
}

// Admits a message, and admits it again after a failure, which returns it. Returns whether it failed.
fn admit_again(
    alloc: Global,
    plan: &Arc<Plan>,
    message: Message,
    copy: &Message,
) -> Result<(bool, Arc<Conforming>), Fail> {
    match admit(alloc, plan, 0, message) {
        Ok(conforming) => Ok((false, conforming)),
        Err(Refusal::Memory(back)) => {
            holds(back.same(copy), "another message comes back")?;
            match admit(alloc, plan, 0, back) {
                Ok(conforming) => Ok((true, conforming)),
                Err(_) => Err("it is refused again".into()),
            }
        }
        Err(_) => Err("it is refused".into()),
    }
}

fn admit_refused(alloc: Global, growth: u32) -> Result<bool, Fail> {
    let plan = archive(alloc)?;
    let message = read(alloc, ARRIVED)?;
    let copy = message.copy(alloc)?;
    refuse(alloc, growth);
    let (refused, conforming) = admit_again(alloc, &plan, message, &copy)?;
    refuse(alloc, 0);
    holds(
        conforming.goes_to(0) && conforming.message().same(&copy),
        "another message",
    )?;
    Ok(refused)
}

// Translates for the receiver, and translates again after a failure. Returns whether it failed.
fn made_again(
    alloc: Global,
    conforming: &Arc<Conforming>,
    growth: u32,
) -> Result<(bool, Arc<Translated>), Fail> {
    if !conforming.goes_to(0) {
        return Err("no receiver".into());
    }
    refuse(alloc, growth);
    match translate_for(alloc, conforming, 0) {
        Err(_) => Ok((true, translate_for(alloc, conforming, 0)?)),
        Ok(made) => Ok((false, made)),
    }
}

fn translate_for_refused(alloc: Global, growth: u32) -> Result<bool, Fail> {
    let plan = archive(alloc)?;
    let conforming = admitted(alloc, &plan, 0, ARRIVED)?;
    let (refused, made) = made_again(alloc, &conforming, growth)?;
    refuse(alloc, 0);
    holds(
        write(alloc, made.message())?.as_slice() == SENT,
        "another message",
    )?;
    Ok(refused)
}

#[test]
fn translate_refused(rt: HostRuntime) -> Result<(), Fail> {
    for call in [Made::Translate, Made::Admit, Made::TranslateFor] {
        sweep(rt.alloc(), &call)?;
    }
    Ok(())
}
