//! The message gateway's program: it reads a command line, and does what it says.
//!
//! `program::command` does it over any reader and two writers, but for `serve`, `gateway` and `tell`, which also take the network or threads; here are the process's own.
#![tactic(auto)]

mod again;
mod answers;
mod arguments;
mod asked;
mod breaches;
mod came;
mod contents;
mod doors;
mod ended;
mod explain;
mod files;
mod framing;
mod gateway;
mod hands;
mod heap;
mod heard;
mod identity;
mod listing;
mod maps;
mod noted;
mod outcome;
mod plans;
mod program;
mod progress;
mod refusals;
mod refused;
mod report;
mod retention;
mod runtime;
mod sample;
mod serve;
mod sockets;
mod stamps;
mod stand;
mod store;
mod streams;
mod swaps;
mod tell;
mod threads;
mod tickets;
mod unlisted;

use arguments::{parse, process_words};
use clap::ArgMatches;
use ended::Ended;
use gateway::gateway;
use heap::keep_freed;
use program::command;
use report::{USAGE, print_unread_words, print_words, status_of};
use runtime::Runtime;
use serve::serving;
use std::io::{IsTerminal, Read, Write};
use std::marker::Brand;
use std::net::{Net, TcpListener, TcpStream};
use std::process::ExitCode;
use std::sync::Wait;
use std::thread::Threads;
use streams::open_closed;
use tell::send;

/// Whether a command takes the network, or threads.
fn is_networked(name: &str) -> bool {
    matches!(name, "gateway" | "serve" | "tell")
}

/// Does the command of these words, and answers the status: 0 done, 1 refused, 2 usage, 3 a fault of a device, a frame or a run, 4 allocation failure.
fn done<
    'a,
    R: Runtime + Threads + Wait + Net<Stream = TcpStream, Listener = TcpListener>,
    I: Read + Drop + Send,
    O: Write + IsTerminal,
    E: Write + IsTerminal,
>(
    rt: &R,
    words: &ArgMatches<'a>,
    input: I,
    output: &mut O,
    errors: &mut E,
) -> Result<u8, Ended<'a>> {
    let mut input = input;
    match words.subcommand() {
        // The compiler puts functions in the order of their first calls. This call comes first, so a run's functions lie together, in few pages.
        Some((name, _)) if !is_networked(name) => {
            keep_freed(rt);
            command(rt, words, &mut input, output, errors)
        }
        Some(("gateway", words)) => gateway::<Brand, R>(rt, words),
        Some(("tell", words)) => send(rt, words, output),
        Some(("serve", words)) => serving(rt, words, input, output, errors),
        _ => Ok(USAGE),
    }
}

fn main(rt: HostRuntime) -> ExitCode {
    open_closed(&rt);
    let (mut output, mut errors) = (rt.stdout(), rt.stderr());
    let status = match process_words(&rt) {
        Err(error) => print_unread_words(&mut errors, &error),
        Ok(words) => match parse(rt.alloc(), &words) {
            Err(error) => print_words(&mut output, &mut errors, &error),
            Ok(matches) => {
                let ended = done(&rt, &matches, rt.stdin(), &mut output, &mut errors);
                status_of(&mut errors, &ended)
            }
        },
    };
    ExitCode::from(status)
}
