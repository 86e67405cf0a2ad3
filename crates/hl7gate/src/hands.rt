//! The threads of a service, each within the one that waits for it.
ghost use Rattle.std.specs.Thread.{IsSend, IsSync};

use crate::runtime::Runtime;
use crate::sockets::pause;
use crate::swaps::swap_all;
use crate::threads::{Connection, Line, Service};
use gw_run::Phase;
use gw_stream::RunFault;
use std::io::{Eprint, Read};
use std::net::TcpListener;
use std::sync::Wait;
use std::sync::ledger::Ledger;
use std::thread;
use std::thread::Threads;
use std::time::Clock;

/// How many connections are taken, and how many threads work on jobs.
#[derive(Clone, Copy)]
pub(crate) struct Sizes {
    pub(crate) sessions: u64,
    pub(crate) workers: u64,
}

/// The connection of this number. One that can't be taken is a session that ended, and the next isn't tried at once.
fn take<L: Ledger, R: Wait + Clock + Eprint + AllocGlobal>(
    service: &Service<'_, L, R>,
    listener: &TcpListener,
    number: u64,
) -> Option<Connection> {
    match listener.accept() {
        Ok((stream, peer)) => Some(Connection {
            number,
            stream,
            peer,
        }),
        Err(_) => {
            service.end_session(number, RunFault::Read);
            pause(service.rt);
            None
        }
    }
}

/// Accepts `sessions` connections, a thread each, and waits for their end. One whose thread can't be started is served here.
fn take_sessions<L: Ledger + Send, R: Runtime + Threads + Wait>(
    service: &Service<'_, L, R>,
    listener: TcpListener,
    sessions: u64,
) {
    thread::scope(
        thread::scope_env(),
        service.rt,
        |scope|
            requires { IsSend L.row × IsSync R.row }
        {
            for taken in 0..sessions {
                if let Some(connection) = take(service, &listener, taken + 1) {
                    let attend = move ||
                        requires { IsSend L.row × IsSync R.row }
                    { service.attend(connection) };
                    if let Err(refused) = scope.spawn(attend) {
                        (refused.value)()
                    }
                }
            }
            // (who connects from here on is refused)
            drop(listener);
            let _ = eprintln!(service.rt; "not listening any more: all sessions were taken");
        },
    );
}

/// Has workers work, a thread each, while connections are taken, and waits for their end.
fn with_workers<L: Ledger + Send, R: Runtime + Threads + Wait>(
    service: &Service<'_, L, R>,
    listener: TcpListener,
    sizes: Sizes,
) {
    thread::scope(
        thread::scope_env(),
        service.rt,
        |scope|
            requires { IsSend L.row × IsSync R.row }
        {
            for started in 0..sizes.workers {
                let number = started + 1;
                let work = move ||
                    requires { IsSend L.row × IsSync R.row }
                { service.work(number) };
                if scope.spawn(work).is_err() {
                    service.give_up();
                    return;
                }
            }
            take_sessions(service, listener, sizes.sessions);
            service.close(Phase::NoArrivals);
        },
    );
    service.finish(sizes.workers);
    service.close(Phase::NoResults);
}

/// Has plans swapped in and couriers carry, a thread each, while the others work, and waits for their end.
pub(crate) fn with_couriers<L: Ledger + Send, R: Runtime + Threads + Wait, I: Read + Drop + Send>(
    service: &Service<'_, L, R>,
    paths: I,
    lines: Vec<Line<'_>>,
    listener: TcpListener,
    sizes: Sizes,
) {
    thread::scope(
        thread::scope_env(),
        service.rt,
        |scope|
            requires { IsSend L.row × IsSync R.row × IsSend I.row }
        {
            let swap = move ||
                requires { IsSend L.row × IsSync R.row × IsSend I.row }
            { swap_all(service, paths) };
            if scope.spawn(swap).is_err() {
                service.give_up();
                return;
            }
            for line in lines {
                let carry = move ||
                    requires { IsSend L.row × IsSync R.row }
                { service.carry(line) };
                if scope.spawn(carry).is_err() {
                    service.give_up();
                    return;
                }
            }
            with_workers(service, listener, sizes);
        },
    );
}
