//! Worked profiles and a worked plan, and what is read by them.
use gw_er7::{Message, read};
use gw_maplang::Map;
use gw_plan::{Conforming, Plan, admit};
use gw_profile::Profile;
use gw_validate::{Tree, Verdict, validate};
use std::alloc::{AllocError, Global};
use std::sync::Arc;
use std::test::Fail;

pub const P1: &str =
    "profile P1\ntable SEX M F U\nsegment MSH R 1..1\n  field 10 R 1..1\nsegment PID R 1..1\n  field 3 R 1..2\n  field 5 RE 0..1\n  field 8 RE 0..1 len 1 table SEX\nsegment NK1 O 0..2\n";

pub const ORU: &str =
    "profile ORU\nsegment MSH R 1..1\ngroup PATIENT_RESULT R 1..*\n  group PATIENT R 1..1\n    segment PID R 1..1\n  end\n  group ORDER R 1..*\n    segment OBR R 1..1\n      field 1 RE 0..1\n  end\nend\n";

/// A profile of this text.
pub fn profile(alloc: Global, text: &str) -> Result<Arc<Profile>, Fail> {
    let Ok(profile) = gw_profile::parse(alloc, text.as_bytes()) else {
        return Err("no profile".into());
    };
    let shared = Arc::new(alloc, profile)?;
    Ok(shared)
}

/// A message for the plan.
pub const ARRIVED: &[u8] =
    b"MSH|^~\\&|LAB|H1|GW|H2|20240102030405||ADT^A01^ADT_A01|7|P|2.5.1\rPID|||123|||||F\r";

/// A plan of one receiver, in the parts before its name and behind it.
const PLAN: [&str; 2] = [
    "plan G\nreceiver ",
    " 127.0.0.1:7001\naccept version 2.5.1\naccept processing P\nbegin profile\nprofile P2\ntable SEX M F U\nsegment MSH R 1..1\n  field 10 R 1..1\n\
    segment PID R 1..1\n  field 3 R 1..2\n  field 5 RE 0..1\n  field 8 R 1..1 len 1 table SEX\nsegment NK1 O 0..2\nstop\nbegin profile\nprofile T1\n\
    table ISO 1 2 9\nsegment MSH R 1..1\n  field 10 R 1..1\nsegment PID R 1..1\n  field 8 R 1..1 len 1 table ISO\nstop\nbegin map\n\
    map M2 from P2 to T1\ntable SEXMAP\n  row M 1\n  row F 2\n  else 9\nsegment MSH from MSH\n  copy 10 from MSH-10\n\
    segment PID from PID\n  build 8 lookup SEXMAP PID-8\ndrop PID-3\ndrop PID-5\nstop\nroute ADT A01 from P2\n",
];

/// The plan's text, with a receiver of this name.
pub fn plan_text(alloc: Global, name: &str) -> Result<String, AllocError> {
    let [before, behind] = PLAN;
    format!(in alloc; "{before}{name}{behind}to {name} by M2\n")
}

/// A plan of this text.
pub fn plan(alloc: Global, text: &[u8]) -> Result<Plan, Fail> {
    match Plan::parse(alloc, text) {
        Ok(plan) => Ok(plan),
        Err(_) => Err("no plan".into()),
    }
}

/// The plan with the receiver ARCHIVE.
pub fn archive(alloc: Global) -> Result<Plan, Fail> {
    let text = plan_text(alloc, "ARCHIVE")?;
    plan(alloc, text.as_bytes())
}

/// A map of this text.
pub fn map(alloc: Global, text: &[u8]) -> Result<Map, Fail> {
    match gw_maplang::parse(alloc, text) {
        Ok(map) => Ok(map),
        Err(_) => Err("no map".into()),
    }
}

/// The tree of a message that conforms.
pub fn tree(alloc: Global, profile: Arc<Profile>, message: Message) -> Result<Tree, Fail> {
    match validate(alloc, profile, message) {
        Ok(Verdict::Fits(tree)) => Ok(tree),
        _ => Err("it breaks".into()),
    }
}

/// A message that is admitted under this version of the plan.
pub fn admitted(
    alloc: Global,
    plan: &Arc<Plan>,
    version: u64,
    content: &[u8],
) -> Result<Arc<Conforming>, Fail> {
    let message = read(alloc, content)?;
    match admit(alloc, plan, version, message) {
        Ok(conforming) => Ok(conforming),
        Err(_) => Err("it is refused".into()),
    }
}
