//! How the log of a folder is opened, or begun, and which plan a start takes.
use crate::ended::Ended;
use crate::plans::parse_plan;
use crate::runtime::Runtime;
use clap::ArgMatches;
use gw_delivery::{PageFault, Past, Tail};
use gw_due::{StartFault, State};
use gw_folder::{FolderView, RealFolder};
use gw_gateway::ByPlans;
use gw_log::LogFault;
use gw_opening::{Begun, Found, OpenFault};
use gw_plan::Plan;
use gw_stream::RunFault;
use std::alloc::Global;
use std::fmt::Display;
use std::random::RandomSource;
use std::sync::Arc;

/// That this was said of the folder at a path.
fn unlisted<'a, F: Display + Drop>(
    alloc: Global,
    path: &str,
    fault: F,
    is_memory: bool,
) -> Ended<'a> {
    if is_memory {
        return Ended::Run(RunFault::Memory);
    }
    match format!(in alloc; "{path}: {fault}\n{path}: `hl7gate log {path}` says more") {
        Ok(said) => Ended::Unlisted { said },
        Err(_) => Ended::Run(RunFault::Memory),
    }
}

/// What a fault of a folder is to who asked.
fn unopened<'a>(alloc: Global, path: &'a str, fault: gw_folder::OpenFault) -> Ended<'a> {
    match fault {
        gw_folder::OpenFault::Memory => Ended::Run(RunFault::Memory),
        gw_folder::OpenFault::Taken => Ended::Taken { path },
        fault => unlisted(alloc, path, fault, false),
    }
}

/// A number for a new log.
fn new_id<'a, R: Runtime>(rt: &R) -> Result<u64, Ended<'a>> {
    let mut bytes = [0u8; 8];
    match rt.fill_bytes(&mut bytes) {
        Ok(()) => Ok(u64::from_be_bytes(bytes)),
        Err(_) => Err(Ended::Run(RunFault::Read)),
    }
}

/// What a fault of the log in a folder is to who asked.
fn unread<'a>(alloc: Global, path: &str, fault: OpenFault) -> Ended<'a> {
    let is_memory = matches!(
        fault,
        OpenFault::Log(LogFault::Memory) | OpenFault::Start(StartFault::Memory)
    );
    unlisted(alloc, path, fault, is_memory)
}

/// The log of a folder, opened, or begun where there is none.
pub(crate) fn open<'r, 'a, F: Found<ByPlans>, R: Runtime>(
    rt: &'r R,
    path: &'a str,
) -> Result<Begun<F, ByPlans, RealFolder<'r, R>>, Ended<'a>> {
    let folder = match RealFolder::open(rt, path) {
        Ok(folder) => folder,
        Err(fault) => return Err(unopened(rt.alloc(), path, fault)),
    };
    let id = new_id(rt)?;
    match gw_opening::open(rt.alloc(), folder, id) {
        Ok(begun) => Ok(begun),
        Err((fault, _disk)) => Err(unread(rt.alloc(), path, fault)),
    }
}

/// Why what is left can't be sent: the plan at this place is none to this program.
fn unreadable<'a>(alloc: Global, path: &str, place: u64) -> Ended<'a> {
    match format!(in alloc;
        "{path}: this hl7gate refuses the plan at place {place} of the log, under which messages wait\n{path}: start the hl7gate that took it, and let it deliver first"
    ) {
        Ok(said) => Ended::Unlisted { said },
        Err(_) => Ended::Run(RunFault::Memory),
    }
}

/// Why what is left can't be sent.
fn unsent<'a>(alloc: Global, path: &str, fault: PageFault) -> Ended<'a> {
    if let PageFault::Plan { place } = fault {
        return unreadable(alloc, path, place);
    }
    unlisted(alloc, path, fault, fault == PageFault::Memory)
}

/// The text of the plan in force by the log, where it has one. All that is left was looked at: it is under plans that this program takes.
fn text_in_force<'a, R: Runtime>(
    rt: &R,
    path: &str,
    state: &State,
    (segment, end): (u64, usize),
) -> Result<Option<(u64, Vec<u8>)>, Ended<'a>> {
    let alloc = rt.alloc();
    let (Ok(view), Ok(other)) = (FolderView::beside(rt, path), FolderView::beside(rt, path)) else {
        return Err(Ended::Run(RunFault::Read));
    };
    let mut past = Past::new(alloc, (view, other), Tail { segment, end });
    if let Err(fault) = past.look_at_left(state) {
        return Err(unsent(alloc, path, fault));
    }
    let Some(place) = state.plan() else {
        return Ok(None);
    };
    match past.text_at(place) {
        Ok(text) => Ok(Some((place, text))),
        Err(fault) => Err(unsent(alloc, path, fault)),
    }
}

/// The plan that a start takes: PLAN, or the one in force by the log. Where they differ, the words have to choose.
pub(crate) fn plan_of<'a, R: Runtime>(
    rt: &R,
    words: &ArgMatches<'a>,
    plan: Plan,
    state: &State,
    tail: (u64, usize),
) -> Result<Arc<Plan>, Ended<'a>> {
    let alloc = rt.alloc();
    let path = words.get_str("FOLDER").unwrap_or("");
    let Some((place, text)) = text_in_force(rt, path, state, tail)? else {
        return Ok(Arc::new(alloc, plan)?);
    };
    if text.as_slice() == plan.text() || words.get_flag("take-plan") {
        return Ok(Arc::new(alloc, plan)?);
    }
    if words.get_flag("keep-plan") {
        return Ok(Arc::new(alloc, parse_plan(alloc, path, &text)?)?);
    }
    let name = words.get_str("PLAN").unwrap_or("");
    let said = format!(in alloc;
        "{name} isn't the plan in force in {path}, which stands at place {place} of its log\nstart with --take-plan to take {name}, or with --keep-plan to go on with the plan in force"
    )?;
    Err(Ended::Unlisted { said })
}
