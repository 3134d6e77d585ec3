//! The words that the program is called with.

ghost use Rattle.std.specs.Prelude.{◌≡◌, false, true, map, option_map, string_bytes, IfOk};
ghost use Rattle.clap.specs.declared.builder.command.Command.TheViews.{out-Command as fields_of};
ghost use Rattle.clap.specs.Words.{app_of, found_of, new_app, rows_of, rule_of, subcommand_name_of, subcommand_rows_of, with_subcommand, FailsBy};
ghost use Rattle.nbdq_cli.specs.Asked.{faults_in, number_faults, sessions_text, wants_number, AsksFor, IsControl, IsJob, IsServe, IsSessions};
ghost use Rattle.nbdq_cli.specs.Commands.{control_command, number_rule, numbers_up_to, option_rule, program_with, serve_command, serving_program};

use crate::crew::{Crew, Sessions};
use clap::builder::ValueParser;
use clap::error::ErrorKind;
use clap::{Arg, ArgMatches, Command, Error, value_parser};
use std::alloc::{AllocError, Global};
use std::convert::AsStr;
use std::env::Env;
use std::io;

/// How many workers serve, and how many connections each listener accepts, where the words don't say.
const CREW: Crew = Crew {
    workers: 4,
    sessions: Sessions::Count(100_000),
};

/// The word that stands in place of a count of connections.
const FOREVER: &str = "forever";

const VERSION: &str = "0.1.0";

// What help says of the program, of its commands, and of the options of `serve`.
const PROGRAM: &str = "A Network Block Device server for disks held in memory";

const CHECK: &str = "Say what the configuration on standard input sets up";

const TALK: &str = "Hold the conversation of the script on standard input";

const REPLAY: &str = "Make the events of the script on standard input";

const SERVE: &str =
    "Serve the disks of the configuration on standard input, over TCP, a Unix socket or both";

const CONTROL: &str = "Ask a server that runs, by the lines on standard input";

const TCP: &str = "Listen on an IP address and a port, as 127.0.0.1:10809";

const UNIX: &str = "Listen on a Unix socket, whose file is made";

const CONTROL_SOCKET: &str = "Listen for `nbdq control` on a Unix socket, whose file is made";

const CONTROLLED: &str = "The control socket of the server; it is needed";

const WORKERS: &str =
    "Threads that perform requests beside those of connections, 1 to 64 [default: 4]";

const SESSIONS: &str =
    "Connections that each listener accepts, 1 to 1000000, or forever [default: 100000]";

/// What the program is asked to do.
#[derive(Debug, Drop)]
pub enum Job {
    Task(Task),
    /// Serve the disks of a configuration file.
    Serve(ServeTask),
    /// Ask a server that runs.
    Control(ControlTask),
}

/// A command that reads all of standard input, and then writes.
#[derive(Clone, Copy, Debug, PartialEq, Eq)]
pub enum Task {
    /// Read a configuration file, and tell what it configures.
    Check,
    /// Hold the conversation of a script.
    Talk,
    /// Make the events of a script on a server.
    Replay,
}

/// Where `serve` listens, and with how many threads.
#[derive(Debug, Drop)]
pub struct ServeTask {
    /// An IP address and a port, as they were written.
    pub tcp: Option<String>,
    /// The path of a Unix socket.
    pub unix: Option<String>,
    /// The path of the control socket, a Unix socket.
    pub control: Option<String>,
    pub crew: Crew,
}

/// Which server is asked.
#[derive(Debug, Drop)]
pub struct ControlTask {
    /// The path of its control socket.
    pub unix: Option<String>,
}

/// Reads the words that the program was called with. They must ask for one of its commands.
pub fn read_command_line(rt: &(impl Env + AllocGlobal)) -> Result<Job, Error> {
    let alloc = rt.alloc();
    match std::env::args(rt) {
        Ok(words) => {
            let words: Vec<String> = words.collect(alloc)?;
            asked_job(alloc, words.as_slice())
        }
        Err(error) if error.kind() == io::ErrorKind::OutOfMemory => Err(Error::from(AllocError)),
        Err(_) => Err(command(alloc, sessions())?.error(
            ErrorKind::UnknownArgument,
            "invalid UTF-8 was detected in one or more arguments",
        )?),
    }
}

/// What the words ask for, of which the first is the program's name.
pub fn asked_job<S: AsStr>(alloc: Global, words: &[S]) -> Result<Job, Error>
    ensures asked { IfOk result (AsksFor (map S.text words.now)) }
    ensures refused { FailsBy (faults_in (map S.text words.now)) result }
{
    let matches = command(alloc, ValueParser::String)?.try_get_matches_from(words)?;
    check_sessions(alloc, &matches, words)?;
    Ok(job_of(alloc, &matches)?)
}

/// Refuses what is behind `--sessions` where it is neither the word nor a number that is taken.
///
/// `clap` has no parser for a word or a number: the words were read with any text there, and are read again with a number alone.
fn check_sessions<S: AsStr>(
    alloc: Global,
    matches: &ArgMatches<'_>,
    words: &[S],
) -> Result<(), Error>
    ensures { FailsBy (number_faults (wants_number (sessions_text (subcommand_rows_of matches.now)))
        (map S.text words.now)) result }
{
    if wants_number(matches) {
        read_again(alloc, words)
    } else {
        Ok(())
    }
}

/// Reads the words with a number alone behind `--sessions`.
fn read_again<S: AsStr>(alloc: Global, words: &[S]) -> Result<(), Error>
    ensures { FailsBy (number_faults true (map S.text words.now)) result }
{
    match command(alloc, sessions())?.try_get_matches_from(words) {
        Ok(_) => Ok(()),
        Err(error) => Err(error),
    }
}

/// Whether something stands behind `--sessions` that has to be a number.
fn wants_number(matches: &ArgMatches<'_>) -> bool
    ensures { result ≡ wants_number (sessions_text (subcommand_rows_of matches.now)) }
{
    match matches.subcommand() {
        Some((_, given)) => is_no_word(given.get_str("sessions")),
        None => false,
    }
}

fn is_no_word(text: Option<&str>) -> bool
    ensures { result ≡ wants_number (option_map (λ text. text.now) text.entry) }
{
    match text {
        Some(text) => text != FOREVER,
        None => false,
    }
}

/// What a command and its options ask for.
fn job_of(alloc: Global, matches: &ArgMatches<'_>) -> Result<Job, AllocError>
    ensures { IfOk result (IsJob (subcommand_name_of matches.now) (option_map (λ said.
        said.1) (subcommand_rows_of matches.now))) }
{
    match matches.subcommand() {
        Some(("check", _)) => Ok(Job::Task(Task::Check)),
        Some(("replay", _)) => Ok(Job::Task(Task::Replay)),
        Some(("serve", given)) => Ok(Job::Serve(serve_task(alloc, given)?)),
        Some(("control", given)) => Ok(Job::Control(control_task(alloc, given)?)),
        _ => Ok(Job::Task(Task::Talk)),
    }
}

/// What follows the word `serve`.
fn serve_task(alloc: Global, given: &ArgMatches<'_>) -> Result<ServeTask, AllocError>
    ensures { IfOk result (IsServe (rows_of (found_of given.now))) }
{
    Ok(ServeTask {
        tcp: kept(alloc, given.get_str("tcp"))?,
        unix: kept(alloc, given.get_str("unix"))?,
        control: kept(alloc, given.get_str("control"))?,
        crew: Crew {
            workers: given.get_one::<u64>("workers").unwrap_or(CREW.workers),
            sessions: sessions_of(given.get_str("sessions")),
        },
    })
}

/// What follows the word `control`.
fn control_task(alloc: Global, given: &ArgMatches<'_>) -> Result<ControlTask, AllocError>
    ensures { IfOk result (IsControl (rows_of (found_of given.now))) }
{
    Ok(ControlTask {
        unix: kept(alloc, given.get_str("unix"))?,
    })
}

/// How many connections are accepted, by what is behind `--sessions`.
fn sessions_of(text: Option<&str>) -> Sessions
    ensures { IsSessions (option_map (λ text. text.now) text.entry) result }
{
    match text {
        Some("forever") => Sessions::Forever,
        Some(text) => match text.parse::<u64>() {
            Ok(count) => Sessions::Count(count),
            Err(_) => CREW.sessions,
        },
        None => CREW.sessions,
    }
}

fn kept(alloc: Global, word: Option<&str>) -> Result<Option<String>, AllocError>
    ensures { IfOk result (λ kept.
        option_map string_bytes kept ≡ option_map (λ text. text.now) word.entry) }
{
    match word {
        Some(word) => Ok(Some(String::from_str(alloc, word)?)),
        None => Ok(None),
    }
}

/// The program, whose `--sessions` takes what this parser does.
fn command<'a>(alloc: Global, sessions: ValueParser<'a>) -> Result<Command<'a>, AllocError>
    ensures { IfOk result (λ command. app_of command ≡ program_with sessions.entry) }
{
    let program = serving_program(alloc, sessions)?;
    with_control(alloc, program)
}

/// The same without its command `control`.
fn serving_program<'a>(alloc: Global, sessions: ValueParser<'a>) -> Result<Command<'a>, AllocError>
    ensures { IfOk result (λ command. app_of command ≡ serving_program sessions.entry) }
{
    let program = new_command(alloc, "nbdq", PROGRAM)
        .version(VERSION)
        .subcommand_required(true)
        .subcommand(new_command(alloc, "check", CHECK))?
        .subcommand(new_command(alloc, "talk", TALK))?
        .subcommand(new_command(alloc, "replay", REPLAY))?;
    with_serve(alloc, program, sessions)
}

/// The program with its command `serve`.
fn with_serve<'a>(
    alloc: Global,
    program: Command<'a>,
    sessions: ValueParser<'a>,
) -> Result<Command<'a>, AllocError>
    ensures { IfOk result (λ command. app_of command
        ≡ with_subcommand (app_of program.entry) (serve_command sessions.entry).top) }
{
    let serve = new_command(alloc, "serve", SERVE)
        .arg(option(alloc, "tcp", "ADDR", TCP))?
        .arg(option(alloc, "unix", "PATH", UNIX))?
        .arg(option(alloc, "control", "PATH", CONTROL_SOCKET))?
        .arg(number(alloc, "workers", WORKERS, workers()))?
        .arg(number(alloc, "sessions", SESSIONS, sessions))?;
    program.subcommand(serve)
}

/// The program with its command `control`.
fn with_control<'a>(alloc: Global, program: Command<'a>) -> Result<Command<'a>, AllocError>
    ensures { IfOk result (λ command.
        app_of command ≡ with_subcommand (app_of program.entry) control_command.top) }
{
    let control = new_command(alloc, "control", CONTROL).arg(option(
        alloc, "unix", "PATH", CONTROLLED,
    ))?;
    program.subcommand(control)
}

/// A command, and what help says of it.
fn new_command<'a>(alloc: Global, name: &'a str, about: &'a str) -> Command<'a>
    ensures app { app_of result ≡ new_app name.entry.now }
    ensures local { (fields_of result).has_globals ≡ false }
{
    Command::new(alloc, name).about(about)
}

/// `--NAME VALUE`, and what help says of it.
fn option<'a>(alloc: Global, name: &'a str, value: &'a str, help: &'a str) -> Arg<'a>
    ensures rule { rule_of result ≡ option_rule name.entry.now }
    ensures local { result.global ≡ false }
{
    Arg::new(alloc, name)
        .long(name)
        .value_name(value)
        .help(help)
}

/// `--NAME N`, of a number that this parser takes.
fn number<'a>(alloc: Global, name: &'a str, help: &'a str, parser: ValueParser<'a>) -> Arg<'a>
    ensures rule { rule_of result ≡ number_rule name.entry.now parser.entry }
    ensures local { result.global ≡ false }
{
    option(alloc, name, "N", help).value_parser(parser)
}

fn workers<'a>() -> ValueParser<'a>
    ensures { result ≡ numbers_up_to 64 }
{
    value_parser!(u64).range(1..=64)
}

fn sessions<'a>() -> ValueParser<'a>
    ensures { result ≡ numbers_up_to 1000000 }
{
    value_parser!(u64).range(1..=1_000_000)
}
