//! The command that serves on the network.
ghost use Rattle.std.specs.Prelude.{◌≡◌};

use crate::ended::Ended;
use crate::hands::{Sizes, with_couriers};
use crate::plans::read_plan;
use crate::report::{print_if_full, print_report};
use crate::runtime::Runtime;
use crate::sockets::{connect, listen};
use crate::stamps::stamp_of;
use crate::threads::{Line, PARTS, Served, Service};
use clap::ArgMatches;
use gw_ack::Stamp;
use gw_gate::Gate;
use gw_plan::Plan;
use gw_stream::RunFault;
use std::io::{Eprint, Read, Write};
use std::marker::Brand;
use std::net::{Net, TcpListener, TcpStream};
use std::sync::ledger::{Blank, Ledger};
use std::sync::{Arc, Wait};
use std::thread::Threads;

/// How many connections there are at most, and how many workers.
const MOST: u64 = 1_000;

/// The most seconds after which a receiver is late: a day.
const LATEST: u64 = 86_400;

/// The most days for which messages stay that all receivers have passed: ten years.
const DAYS: u64 = 3_650;

/// The number that a word gives, or else this one: from `least` to `most`, in decimal digits.
fn count_or<'a>(
    words: &ArgMatches<'a>,
    name: &'static str,
    other: &'static str,
    (least, most): (u64, u64),
) -> Result<u64, Ended<'a>> {
    let word = words.get_str(name).unwrap_or(other);
    // (a number that is parsed may have a sign)
    match word.parse::<u64>() {
        Ok(number) if !word.starts_with('+') && least <= number && number <= most => Ok(number),
        _ => Err(Ended::Count { name, least, most }),
    }
}

/// The limits of a gateway: how many connections are open at once, after how many seconds a receiver is late,
/// and for how many days messages stay that all receivers have passed.
#[derive(Clone, Copy)]
pub(crate) struct Limits {
    pub(crate) connections: u64,
    pub(crate) late: u64,
    pub(crate) days: u64,
}

/// The limits that the words give, or else 1,000 connections, a minute and no day.
pub(crate) fn limits_of<'a>(words: &ArgMatches<'a>) -> Result<Limits, Ended<'a>> {
    Ok(Limits {
        connections: count_or(words, "connections", "1000", (1, MOST))?,
        late: count_or(words, "late", "60", (1, LATEST))?,
        days: count_or(words, "keep", "0", (0, DAYS))?,
    })
}

/// The lines to the receivers of a plan, in its order.
fn connect_all<'p, R: Net<Stream = TcpStream, Listener = TcpListener> + Eprint + AllocGlobal>(
    rt: &R,
    plan: &'p Plan,
) -> Result<Vec<Line<'p>>, RunFault> {
    let mut lines = Vec::new(rt.alloc());
    for (number, receiver) in plan.receivers().iter().enumerate() {
        let name = receiver.name.as_slice();
        let Some(stream) = connect(rt, &receiver.address, None) else {
            let _ = eprintln!(rt;
                "receiver {} unreachable\n{}: can't be connected",
                name.escape_ascii(),
                receiver.address.escape_ascii()
            );
            return Err(RunFault::Write);
        };
        let _ = eprintln!(rt;
            "receiver {} at {} connected",
            name.escape_ascii(),
            receiver.address.escape_ascii()
        );
        lines.push(Line {
            receiver: number,
            name,
            stream,
        })?;
    }
    Ok(lines)
}

/// Serves under a plan, and under those that are swapped in, until the stated number of connections has ended and no path comes any more.
fn serve_with<
    L: Ledger + Send,
    R: Runtime + Threads + Wait + Net<Stream = TcpStream, Listener = TcpListener>,
    I: Read + Drop + Send,
>(
    rt: &R,
    blank: Blank,
    plan: &Arc<Plan>,
    start: Stamp,
    paths: I,
    listener: TcpListener,
    sizes: Sizes,
) -> Result<Served, RunFault>
    requires name { blank.name ≡ L.name }
    requires parts { blank.parts ≡ L.parts }
    requires many { blank.parts ≡ 1000000 }
{
    let (book, share) = blank.open::<L>();
    let Ok(gate) = Gate::begin(rt.alloc(), Arc::clone(plan)?) else {
        return Err(RunFault::Memory);
    };
    let service = Service::new(rt, start, gate, book, share);
    let lines = connect_all(rt, plan)?;
    with_couriers(&service, paths, lines, listener, sizes);
    service.end()
}

/// Serves under the plan of the file PLAN at ADDRESS, and prints what the gate did.
fn serve<
    'a,
    R: Runtime + Threads + Wait + Net<Stream = TcpStream, Listener = TcpListener>,
    I: Read + Drop + Send,
>(rt: &R, words: &ArgMatches<'a>, paths: I) -> Result<Served, Ended<'a>> {
    // (neither word may be left out)
    let sizes = Sizes {
        sessions: count_or(words, "SESSIONS", "", (1, MOST))?,
        workers: count_or(words, "WORKERS", "", (1, MOST))?,
    };
    let Some(start) = stamp_of(rt, None) else {
        return Err(Ended::Stamp);
    };
    let plan = Arc::new(rt.alloc(), read_plan(rt, words)?)?;
    let listener = listen(rt, words)?;
    let blank = Blank::new(PARTS);
    let served = serve_with::<Brand, _, _>(rt, blank, &plan, start, paths, listener, sizes)?;
    Ok(served)
}

/// Serves as the words say, and answers the status.
pub(crate) fn serving<
    'a,
    R: Runtime + Threads + Wait + Net<Stream = TcpStream, Listener = TcpListener>,
    I: Read + Drop + Send,
    O: Write,
    E: Write,
>(
    rt: &R,
    words: &ArgMatches<'a>,
    paths: I,
    output: &mut O,
    errors: &mut E,
) -> Result<u8, Ended<'a>> {
    let Served { report, is_full } = serve(rt, words, paths)?;
    print_if_full(errors, is_full);
    Ok(print_report(output, errors, report))
}
