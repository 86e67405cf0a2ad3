//! The command `gateway`: its words, its folder, its threads.
ghost use Rattle.std.specs.Prelude.{◌≡◌};
ghost use Rattle.std.specs.Thread.{IsSend, IsSync};

use crate::ended::Ended;
use crate::gateway::control::attend_all;
use crate::gateway::folder::{Folder, Room, refuse_spools};
use crate::gateway::forwarders::forward_all;
use crate::gateway::hub::Hub;
use crate::gateway::late::look_at_all;
use crate::gateway::opening::plan_of;
use crate::gateway::page::{Pages, SHOWN, show_all};
use crate::gateway::plans::begin_lines;
use crate::gateway::resend::resend_all;
use crate::gateway::senders::{attend, next_sender};
use crate::gateway::{control, opening};
use crate::noted::print_waiting;
use crate::plans::read_plan;
use crate::report::DONE;
use crate::runtime::Runtime;
use crate::serve::{Limits, limits_of};
use crate::sockets::{listen, listen_briefly};
use crate::stamps::{microseconds, stamp_of};
use clap::ArgMatches;
use gw_ack::Stamp;
use gw_folder::RealFolder;
use gw_gateway::{ByPlans, Office, PutFault};
use gw_journal::{Journal, Naming, Opened, Storage, Stored};
use gw_ledger::{Checkpoints, Ledger};
use gw_log::Disk;
use gw_opening::{Begun, Found};
use gw_plan::Plan;
use gw_stream::RunFault;
use std::alloc::Global;
use std::io::Eprint;
use std::marker::Brand;
use std::net::{Net, TcpListener, TcpStream};
use std::os::fd::AsRawFd;
use std::os::unix::net::UnixListener;
use std::sync::atomic::Ordering;
use std::sync::{Arc, Wait};
use std::thread;
use std::thread::Threads;
use std::time::{Clock, Duration};

/// After how many fifths of a second the room on the disk is looked at again.
const LOOK: u64 = 25;

/// How many bytes a file of the log has at least before the next is begun.
const LONG: usize = 67_108_864;

/// Looks whether the disk has room.
fn look_at_disk<J: Naming, S: Storage + Drop, R: Wait + Clock + Eprint>(hub: &Hub<'_, J, S, R>) {
    let room = hub.folder.room();
    let (is_short, is_full) = (room != Room::Enough, room == Room::Nothing);
    let was_short = hub.is_short.swap(is_short, Ordering::SeqCst);
    let was_full = hub.is_full.swap(is_full, Ordering::SeqCst);
    if is_short && !was_short {
        let _ = eprintln!(hub.rt;
            "the disk is short of room: messages are answered AR until 64 MB are free\n{}: free some room",
            hub.folder.path
        );
    }
    if was_short && !is_short {
        let _ = eprintln!(hub.rt; "the disk has room again: messages are taken");
    }
    if is_full && !was_full {
        let _ = eprintln!(hub.rt; "the disk is full: nothing is sent until there is some room");
    }
}

/// Has the log of refusals go on in a new file where it is long.
fn look_at_log<J: Naming, S: Storage + Drop, R: Runtime + Wait>(hub: &Hub<'_, J, S, R>) {
    if let Ok(true) = hub.folder.turn_logs(hub.rt) {
        let _ = eprintln!(hub.rt;
            "{}/refusals.log had 64 MB: it is refusals.log.1 now",
            hub.folder.path
        );
    }
}

/// Looks from time to time whether the disk has room, and which receivers are late, until the gateway ends.
fn watch_all<J: Naming, S: Storage + Drop, R: Runtime + Wait>(hub: &Hub<'_, J, S, R>) {
    for _ in hub.rt.forever() {
        look_at_disk(hub);
        look_at_all(hub);
        for _fifth in 0..LOOK {
            if hub.has_ended() {
                return;
            }
            look_at_log(hub);
            thread::sleep(hub.rt, Duration::from_millis(200));
        }
    }
}

/// Goes on until it is stopped, or can't go on. Each sender and each receiver has a thread.
fn go_on<
    J: Naming + Send + Sync,
    S: Storage + Drop + Send + Sync,
    R: Runtime + Threads + Wait + Net<Stream = TcpStream, Listener = TcpListener>,
>(
    hub: &Hub<'_, J, S, R>,
    control: &UnixListener,
    senders: TcpListener,
    pages: Option<&Pages>,
    most: u64,
) {
    listen_briefly(senders.as_raw_fd());
    thread::scope(
        thread::scope_env(),
        hub.rt,
        |scope|
            requires { IsSend S.row × IsSync S.row × IsSync R.row }
        {
            let look = move ||
                requires { IsSend S.row × IsSync S.row × IsSync R.row }
            { watch_all(hub) };
            let hear = move ||
                requires { IsSend S.row × IsSync S.row × IsSync R.row }
            { attend_all(hub, control) };
            let again = move ||
                requires { IsSend S.row × IsSync S.row × IsSync R.row }
            { resend_all(hub) };
            let has_all = scope.spawn(look).is_ok()
                && scope.spawn(hear).is_ok()
                && scope.spawn(again).is_ok();
            if !has_all {
                hub.fail(RunFault::Memory);
            }
            for _ in 0..SHOWN {
                let show = move ||
                    requires { IsSend S.row × IsSync S.row × IsSync R.row }
                { show_all(hub, pages) };
                if pages.is_some() && scope.spawn(show).is_err() {
                    hub.fail(RunFault::Memory);
                }
            }
            for _ in hub.rt.forever() {
                if hub.has_ended() {
                    break;
                }
                if let Some(line) = hub.lines.next_new(hub.rt) {
                    let send = move ||
                        requires { IsSend S.row × IsSync S.row × IsSync R.row }
                    { forward_all(hub, line) };
                    if scope.spawn(send).is_err() {
                        hub.fail(RunFault::Memory);
                    }
                    continue;
                }
                if let Some(sender) = next_sender(hub, &senders, most) {
                    let attend_one = move ||
                        requires { IsSend S.row × IsSync S.row × IsSync R.row }
                    { attend(hub, sender) };
                    if scope.spawn(attend_one).is_err() {
                        let _ = eprintln!(hub.rt;
                            "no thread can be started for a connection: it is closed"
                        );
                        hub.leave();
                    }
                }
            }
            drop(senders);
        },
    );
}

/// That the log of a folder can't be written.
fn unwritten<'a>(alloc: Global, folder: &Folder) -> Ended<'a> {
    match String::from_str(alloc, &folder.path) {
        Ok(file) => Ended::Unwritten { file },
        Err(_) => Ended::Run(RunFault::Memory),
    }
}

/// What the threads share, once the plan is in force, and on the disk.
fn begin<'f, 'a, J: Naming, S: Storage + Drop, R: Runtime + Wait>(
    rt: &'f R,
    ledger: Ledger<J, S, ByPlans>,
    plan: Arc<Plan>,
    start: Stamp,
    limits: Limits,
    folder: &'f Folder,
) -> Result<Hub<'f, J, S, R>, Ended<'a>> {
    let alloc = rt.alloc();
    let (office, ticket) = match Office::begin(alloc, ledger, microseconds(rt), plan.clone()?) {
        Ok(begun) => begun,
        Err(PutFault::Memory) => return Err(Ended::Run(RunFault::Memory)),
        Err(_) => return Err(unwritten(alloc, folder)),
    };
    let hub = Hub::new(
        rt,
        alloc,
        start,
        limits,
        folder,
        Journal::new(alloc, office),
    )?;
    if hub.journal.settle(rt, &ticket).is_err() {
        return Err(unwritten(alloc, folder));
    }
    hub.plans.keep(rt, plan)?;
    Ok(hub)
}

/// Listens where the words say, goes on until it is stopped, and answers the status.
fn work<
    'a,
    J: Naming + Send + Sync,
    S: Storage + Drop + Send + Sync,
    R: Runtime + Threads + Wait + Net<Stream = TcpStream, Listener = TcpListener>,
>(hub: &Hub<'_, J, S, R>, words: &ArgMatches<'a>, most: u64) -> Result<u8, Ended<'a>> {
    let path = words.get_str("FOLDER").unwrap_or("");
    begin_lines(hub)?;
    look_at_disk(hub);
    let control = control::listen(hub.rt, path)?;
    let senders = listen(hub.rt, words)?;
    let pages = Pages::listen(hub.rt, words)?;
    go_on(hub, &control, senders, pages.as_ref(), most);
    let Some(fault) = hub.fault() else {
        return Ok(DONE);
    };
    if fault == RunFault::Write {
        let _ = eprintln!(hub.rt;
            "{path}: the log can't be written any more: look at its disk, and whether it is where it was"
        );
    }
    Err(Ended::Run(fault))
}

/// Keeps what it accepts in the log of a ledger, and answers the status.
fn keep<
    'a,
    J: Naming + Send + Sync,
    D: Disk + Drop + Send + Sync,
    R: Runtime + Threads + Wait + Net<Stream = TcpStream, Listener = TcpListener>,
>(
    rt: &R,
    words: &ArgMatches<'a>,
    limits: Limits,
    start: Stamp,
    plan: Arc<Plan>,
    ledger: Ledger<J, Stored<Checkpoints, D>, ByPlans>,
) -> Result<u8, Ended<'a>> {
    let path = words.get_str("FOLDER").unwrap_or("");
    let folder = Folder::open(rt, path, words.get_flag("keep-unreadable"))?;
    let hub = begin(rt, ledger, plan, start, limits, &folder)?;
    print_waiting(&hub);
    work(&hub, words, limits.connections)
}

/// The same of a log that was opened.
fn run<
    'a,
    J: Naming + Send + Sync,
    F: Found<ByPlans> + Send + Sync,
    R: Runtime + Threads + Wait + Net<Stream = TcpStream, Listener = TcpListener>,
>(
    rt: &R,
    words: &ArgMatches<'a>,
    limits: Limits,
    start: Stamp,
    plan: Arc<Plan>,
    opened: Opened,
    begun: Begun<F, ByPlans, RealFolder<'_, R>>,
) -> Result<u8, Ended<'a>>
    requires book { opened.seen.book ≡ J.book }
    requires before { J.before ≡ begun.before }
{
    let ledger = begun.into_ledger::<J>(rt.alloc(), opened, LONG);
    keep(rt, words, limits, start, plan, ledger)
}

/// Keeps what it accepts in FOLDER, under the plan of the file PLAN, at ADDRESS, and answers the status. It does so for each log that the folder may have.
pub(crate) fn gateway<
    'a,
    F: Found<ByPlans> + Send + Sync,
    R: Runtime + Threads + Wait + Net<Stream = TcpStream, Listener = TcpListener>,
>(rt: &R, words: &ArgMatches<'a>) -> Result<u8, Ended<'a>> {
    let limits = limits_of(words)?;
    let Some(start) = stamp_of(rt, None) else {
        return Err(Ended::Stamp);
    };
    let plan = read_plan(rt, words)?;
    let path = words.get_str("FOLDER").unwrap_or("");
    refuse_spools(rt, path)?;
    let begun = opening::open::<F, R>(rt, path)?;
    let plan = plan_of(rt, words, plan, begun.state(), begun.tail())?;
    run::<Brand, F, R>(rt, words, limits, start, plan, Opened::new(), begun)
}
