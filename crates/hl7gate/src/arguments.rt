//! The words of a command line.
use clap::{Arg, ArgAction, ArgMatches, Command, Error};
use std::alloc::{AllocError, Global};
use std::env::{Env, args};
use std::io;

/// The program's version.
pub(crate) const VERSION: &str = "0.1.0";

/// The words that the process was started with.
pub(crate) fn process_words<R: Env + AllocGlobal>(rt: &R) -> io::Result<Vec<String>> {
    let words: Vec<String> = args(rt)?.collect(rt.alloc())?;
    Ok(words)
}

/// A command: its name, what it does, the words that it needs and the word that it may have, each with its help,
/// and its options, each with its value's name, if it has one, and its help.
#[derive(Clone, Copy)]
struct Form {
    name: &'static str,
    about: &'static str,
    words: &'static [(&'static str, &'static str)],
    optional: &'static [(&'static str, &'static str)],
    options: &'static [(&'static str, &'static str, &'static str)],
}

/// `[--stamp DIGITS]`.
const STAMP: &[(&str, &str, &str)] = &[(
    "stamp",
    "DIGITS",
    "The time stamp of the answers, YYYYMMDDHHMMSS [default: now, in UTC]",
)];

/// The options of `gateway`.
const ON_GATEWAY: &[(&str, &str, &str)] = &[
    (
        "connections",
        "N",
        "How many connections are open at once, from 1 to 1000 [default: 1000]",
    ),
    (
        "status",
        "ADDRESS",
        "The address of a page, metrics and health over HTTP; without a host it is on this machine alone [default: none]",
    ),
    (
        "late",
        "SECONDS",
        "After how many seconds a receiver that takes nothing, or isn't connected, is late, from 1 to 86400 [default: 60]",
    ),
    (
        "keep",
        "DAYS",
        "For how many days messages stay that all receivers have passed, from 0 to 3650 [default: 0, so they go within minutes]",
    ),
    (
        "take-plan",
        "",
        "Takes PLAN where another plan is in force in FOLDER",
    ),
    (
        "keep-plan",
        "",
        "Goes on with the plan in force in FOLDER where PLAN is another",
    ),
    (
        "keep-unreadable",
        "",
        "Keeps messages that can't be read in FOLDER/unreadable.mllp: they may be a patient's",
    ),
];

/// Two options of which a call has one at most.
const EITHER: (&str, &str) = ("take-plan", "keep-plan");

/// What `check` and `translate` need.
const ON_MAP: &[(&str, &str)] = &[
    ("SOURCE", "The file of the sender's message profile"),
    ("TARGET", "The file of the receiver's message profile"),
    ("MAP", "The file of the map"),
];

/// What `serve` does.
const ON_SERVE: &str =
    "Answers the messages of a number of connections (MLLP) by a plan, and sends each receiver the translations that its routes name; each line on standard input is the path of a plan to swap in";

/// All commands, in the order in which the help lists them.
const FORMS: &[Form] = &[
    Form {
        name: "validate",
        about: "Answers each message of a stream on standard input (MLLP) by a profile",
        words: &[("PROFILE", "The file of the message profile")],
        optional: &[],
        options: STAMP,
    },
    Form {
        name: "report",
        about: "Prints every breach of each message of a stream on standard input (MLLP) by a profile, and how often each place is broken",
        words: &[("PROFILE", "The file of the message profile")],
        optional: &[],
        options: &[
            ("json", "", "Prints each breach as JSON"),
            (
                "values",
                "",
                "Prints the values that break the profile too: they may be a patient's",
            ),
            (
                "unlisted",
                "",
                "Prints too what messages have that the profile doesn't list, and in how many messages",
            ),
        ],
    },
    Form {
        name: "identity",
        about: "Prints the map from a profile to itself, to start another map from",
        words: &[("PROFILE", "The file of the message profile")],
        optional: &[],
        options: &[],
    },
    Form {
        name: "sample",
        about: "Prints a message that conforms to a profile, made up from the profile alone, without a frame",
        words: &[("PROFILE", "The file of the message profile")],
        optional: &[],
        options: &[
            (
                "least",
                "",
                "Has what has to be there alone; this is so where neither is given",
            ),
            (
                "most",
                "",
                "Has each element that may be there, and twice what may come twice",
            ),
        ],
    },
    Form {
        name: "check",
        about: "Says whether the rules allow a map: whether each message that conforms to SOURCE has a translation that conforms to TARGET",
        words: ON_MAP,
        optional: &[],
        options: &[(
            "hints",
            "",
            "Prints of an allowed map too what may not be meant: a drop of what is read, a source without MSH-18",
        )],
    },
    Form {
        name: "explain",
        about: "Does as check, and prints made-up messages that show why a map is refused, or what an accepted map leaves out",
        words: ON_MAP,
        optional: &[],
        options: &[],
    },
    Form {
        name: "translate",
        about: "Translates the message on standard input, which has no frame, by a map that the rules allow",
        words: ON_MAP,
        optional: &[],
        options: &[],
    },
    Form {
        name: "profile",
        about: "Prints what a profile has, or why it is refused",
        words: &[("FILE", "The file of the message profile")],
        optional: &[],
        options: &[],
    },
    Form {
        name: "map",
        about: "Prints what a map has, or why its text is refused; the rules of the checker are for check",
        words: &[("FILE", "The file of the map")],
        optional: &[],
        options: &[],
    },
    Form {
        name: "plan",
        about: "Prints what a plan has, or what is wrong with it: of a refused map all that check prints",
        words: &[("PLAN", "The file of the plan")],
        optional: &[],
        options: &[],
    },
    Form {
        name: "run",
        about: "Answers each message of a stream on standard input (MLLP) by a plan, and writes what each receiver is sent to FOLDER/NAME.mllp",
        words: &[
            ("PLAN", "The file of the plan"),
            (
                "FOLDER",
                "The folder in which a file is made anew for each receiver",
            ),
        ],
        optional: &[],
        options: STAMP,
    },
    Form {
        name: "serve",
        about: ON_SERVE,
        words: &[
            ("PLAN", "The file of the plan"),
            (
                "ADDRESS",
                "The address to listen on, HOST:PORT; port 0 is any that is free",
            ),
            (
                "SESSIONS",
                "How many connections are taken in all, from 1 to 1000",
            ),
            ("WORKERS", "How many threads translate, from 1 to 1000"),
        ],
        optional: &[],
        options: &[],
    },
    Form {
        name: "gateway",
        about: "Answers messages (MLLP) by a plan until it is stopped, keeps what it accepts in a folder, and sends it to the receivers of the plan",
        words: &[
            ("PLAN", "The file of the plan"),
            (
                "ADDRESS",
                "The address to listen on, HOST:PORT; port 0 is any that is free",
            ),
            (
                "FOLDER",
                "The folder in which what is accepted is kept until its receivers have it",
            ),
        ],
        optional: &[],
        options: ON_GATEWAY,
    },
    Form {
        name: "tell",
        about: "Sends a word to the gateway that works in a folder, and prints its answer: status, swap PATH, \
            install PATH, hold NAME, go NAME, find CONTROL-ID, show PLACE, resend NAME or PLACE, \
            replay NAME FROM TO, skip NAME, park NAME, seal, stop",
        words: &[
            ("FOLDER", "The folder of the gateway"),
            ("WORD", "The word"),
        ],
        optional: &[
            (
                "ARGUMENT",
                "A plan's path, a receiver's name, a control id, or a place of the log",
            ),
            (
                "NEXT",
                "Behind a place a receiver's name; behind a name the first second, YYYYMMDDHHMMSS in UTC",
            ),
            ("LAST", "The last second"),
        ],
        options: &[
            ("json", "", "Prints the status as JSON"),
            (
                "refused",
                "NAME",
                "Of status: what lies refused by this receiver, and by which codes",
            ),
            (
                "values",
                "",
                "Shows the message too, or what the receiver answered: it may have a patient's values",
            ),
        ],
    },
    Form {
        name: "log",
        about: "Checks the log that is kept in a folder, and prints a line for each record, or one message",
        words: &[("FOLDER", "The folder in which the log is kept")],
        optional: &[],
        options: &[
            (
                "place",
                "N",
                "Prints the message that was accepted at this place, without a frame",
            ),
            (
                "values",
                "",
                "Prints messages and the texts of refusals too: they may be a patient's",
            ),
        ],
    },
];

/// A word that a command needs, or may have.
fn word<'a>(alloc: Global, name: &'a str, help: &'a str, is_needed: bool) -> Arg<'a> {
    Arg::new(alloc, name)
        .help(help)
        .required(is_needed)
        .action(ArgAction::Set)
}

/// An option with a value, or without one.
fn option<'a>(alloc: Global, name: &'a str, value: &'a str, help: &'a str) -> Arg<'a> {
    let option = Arg::new(alloc, name).long(name).help(help);
    if value.is_empty() {
        return option.action(ArgAction::SetTrue);
    }
    option.value_name(value).action(ArgAction::Set)
}

/// The command of a form.
fn command<'a>(alloc: Global, form: &Form) -> Result<Command<'a>, AllocError> {
    let mut command = Command::new(alloc, form.name).about(form.about);
    for (name, help) in form.words {
        command = command.arg(word(alloc, name, help, true))?;
    }
    for (name, help) in form.optional {
        command = command.arg(word(alloc, name, help, false))?;
    }
    for (name, value, help) in form.options {
        let mut option = option(alloc, name, value, help);
        if *name == EITHER.0 {
            option = option.conflicts_with(EITHER.1)?;
        }
        command = command.arg(option)?;
    }
    Ok(command)
}

/// The program without its commands.
fn program<'a>(alloc: Global) -> Result<Command<'a>, AllocError> {
    let program = Command::new(alloc, "hl7gate")
        .bin_name("hl7gate")?
        .version(VERSION)
        .about("A message gateway for HL7 v2.5.1")
        .after_help(
            "Statuses: 0 done, 1 refused, 2 usage, 3 read, write or frame fault, 4 out of memory\nThe numbers on standard error are explained in docs/PROGRAM.md",
        )
        .subcommand_required(true);
    Ok(program)
}

/// The program with all its commands.
fn grammar<'a>(alloc: Global) -> Result<Command<'a>, AllocError> {
    let mut program = program(alloc)?;
    for form in FORMS {
        program = program.subcommand(command(alloc, form)?)?;
    }
    Ok(program)
}

/// The command that the words ask for.
pub(crate) fn parse<'a>(alloc: Global, words: &'a [String]) -> Result<ArgMatches<'a>, Error> {
    let grammar: Command<'a> = grammar(alloc)?;
    grammar.try_get_matches_from(words)
}
