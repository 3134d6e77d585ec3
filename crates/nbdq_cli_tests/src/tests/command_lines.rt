//! What command lines ask for, and what the shell is told.

use clap::error::ErrorKind;
use nbdq_cli::{
    Crew, Ending, Job, Outcome, Sessions, Task, asked_job, end_of_refusal, status, status_of_end,
    text, text_of_end,
};
use std::alloc::Global;
use std::test::Fail;

#[test]
fn statuses_and_texts(rt: HostRuntime) {
    for (outcome, code, line) in [
        (Outcome::Done, 0, None),
        (Outcome::Refused, 1, None),
        (Outcome::NoMemory, 3, Some("no memory")),
        (Outcome::ReadFailed, 4, Some("read failed")),
        (Outcome::WriteFailed, 4, Some("write failed")),
    ] {
        assert_eq!(rt; status(outcome), code);
        assert_eq!(rt; text(outcome), line);
    }
}

#[test]
fn statuses_and_texts_of_ends(rt: HostRuntime) {
    for (end, code, line) in [
        (Ending::Ran(Outcome::Refused), 1, None),
        (Ending::Ran(Outcome::NoMemory), 3, Some("no memory")),
        (Ending::Version, 0, None),
        (Ending::Usage, 2, None),
        (Ending::NoListener, 2, Some("serve: no listener")),
        (Ending::BadAddress, 2, Some("serve: bad address")),
        (Ending::CannotListen, 4, Some("cannot listen")),
        (Ending::NoSocket, 2, Some("control: no socket")),
        (Ending::SocketFailed, 4, Some("control: socket failed")),
    ] {
        assert_eq!(rt; status_of_end(end), code);
        assert_eq!(rt; text_of_end(end), line);
    }
}

/// How the program ends where the words ask for no command, and what it shows.
fn shown(alloc: Global, words: &[&str]) -> Option<(Ending, String)> {
    let error = asked_job(alloc, words).err()?;
    let text = format!(in alloc; "{error}").ok()?;
    Some((end_of_refusal(&error), text))
}

#[test]
fn the_version_is_shown(rt: HostRuntime) -> Result<(), Fail> {
    for word in ["--version", "-V"] {
        let (end, text) = shown(rt.alloc(), &["nbdq", word]).ok_or("a text")?;
        assert_eq!(rt; end, Ending::Version);
        assert_eq!(rt; text.as_str(), "nbdq 0.1.0\n");
    }
    Ok(())
}

#[test]
fn a_refusal_is_shown(rt: HostRuntime) -> Result<(), Fail> {
    let (end, text) = shown(rt.alloc(), &["nbdq", "serve", "--sessions", "1000001"]).ok_or(
        "a text",
    )?;
    assert_eq!(rt; end, Ending::Usage);
    assert_eq!(rt;
        text.as_str(),
        "error: invalid value '1000001' for '--sessions <N>': 1000001 is not in 1..=1000000\n\nFor more information, try '--help'.\n"
    );
    let (end, _) = shown(rt.alloc(), &["nbdq", "--help"]).ok_or("a text")?;
    assert_eq!(rt; end, Ending::Usage);
    Ok(())
}

/// The crew that `serve` is asked for with these words behind it.
fn crew_of(alloc: Global, words: &[&str]) -> Option<Crew> {
    match asked_job(alloc, words) {
        Ok(Job::Serve(task)) => Some(task.crew),
        _ => None,
    }
}

#[test]
fn crews(rt: HostRuntime) {
    let alloc = rt.alloc();
    for (words, workers, sessions) in [
        (["nbdq", "serve"].as_slice(), 4, Sessions::Count(100_000)),
        (
            &["nbdq", "serve", "--sessions", "forever"],
            4,
            Sessions::Forever,
        ),
        (
            &["nbdq", "serve", "--workers", "64", "--sessions=forever"],
            64,
            Sessions::Forever,
        ),
        (&["nbdq", "serve", "--sessions", "1"], 4, Sessions::Count(1)),
        (
            &["nbdq", "serve", "--sessions", "1000000"],
            4,
            Sessions::Count(1_000_000),
        ),
        (
            &["nbdq", "serve", "--unix", "forever", "--sessions", "5"],
            4,
            Sessions::Count(5),
        ),
    ] {
        assert_eq!(rt; crew_of(alloc, words), Some(Crew { workers, sessions }));
    }
}

/// The paths of the control socket and of that for clients, as `serve` is asked for them.
fn paths_of(alloc: Global, words: &[&str]) -> Option<(Option<String>, Option<String>)> {
    match asked_job(alloc, words) {
        Ok(Job::Serve(task)) => Some((task.control, task.unix)),
        Ok(Job::Control(task)) => Some((task.unix, None)),
        _ => None,
    }
}

fn is_path(told: &Option<String>, path: Option<&str>) -> bool {
    match told {
        Some(text) => path == Some(text.as_str()),
        None => path.is_none(),
    }
}

#[test]
fn control_sockets(rt: HostRuntime) {
    for (words, control, unix) in [
        (["nbdq", "control"].as_slice(), None, None),
        (&["nbdq", "control", "--unix", "c"], Some("c"), None),
        (&["nbdq", "serve", "--control=c"], Some("c"), None),
        (
            &["nbdq", "serve", "--unix", "u", "--control", "c"],
            Some("c"),
            Some("u"),
        ),
    ] {
        let paths = paths_of(rt.alloc(), words).expect(&rt, "a job");
        assert!(rt; is_path(&paths.0, control) && is_path(&paths.1, unix));
    }
}

#[test]
fn without_end_is_the_greatest_count(rt: HostRuntime) {
    assert_eq!(rt; Sessions::Count(7).most(), 7);
    assert_eq!(rt; Sessions::Forever.most(), 18_446_744_073_709_551_615);
}

#[test]
fn command_lines(rt: HostRuntime) {
    let alloc = rt.alloc();
    assert!(rt;
        matches!(
            asked_job(alloc, &["nbdq", "talk"]),
            Ok(Job::Task(Task::Talk))
        )
    );
    assert!(rt;
        matches!(
            asked_job(alloc, &["nbdq", "replay"]),
            Ok(Job::Task(Task::Replay))
        )
    );
}

#[test]
fn command_lines_that_are_refused(rt: HostRuntime) {
    let alloc = rt.alloc();
    for (words, kind) in [
        (["nbdq"].as_slice(), ErrorKind::MissingSubcommand),
        (&["nbdq", "--help"], ErrorKind::DisplayHelp),
        (&["nbdq", "help"], ErrorKind::DisplayHelp),
        (&["nbdq", "talk", "--help"], ErrorKind::DisplayHelp),
        (&["nbdq", "fly"], ErrorKind::InvalidSubcommand),
        (&["nbdq", "serve", "--tcp"], ErrorKind::InvalidValue),
        (&["nbdq", "control", "--unix"], ErrorKind::InvalidValue),
        (
            &["nbdq", "control", "--tcp", "x"],
            ErrorKind::UnknownArgument,
        ),
        (
            &["nbdq", "serve", "--workers", "65"],
            ErrorKind::ValueValidation,
        ),
        (
            &["nbdq", "serve", "--workers", "0"],
            ErrorKind::ValueValidation,
        ),
        (
            &["nbdq", "serve", "--sessions", "1000001"],
            ErrorKind::ValueValidation,
        ),
        (
            &["nbdq", "serve", "--sessions", "x"],
            ErrorKind::ValueValidation,
        ),
        (
            &["nbdq", "serve", "--sessions", "0"],
            ErrorKind::ValueValidation,
        ),
        (
            &["nbdq", "serve", "--sessions", "Forever"],
            ErrorKind::ValueValidation,
        ),
        (
            &["nbdq", "serve", "--sessions", ""],
            ErrorKind::ValueValidation,
        ),
        (
            &["nbdq", "serve", "--sessions", "forever", "--workers", "65"],
            ErrorKind::ValueValidation,
        ),
        (&["nbdq", "--version"], ErrorKind::DisplayVersion),
        (&["nbdq", "serve", "--version"], ErrorKind::UnknownArgument),
        (&["nbdq", "talk", "more"], ErrorKind::UnknownArgument),
        (&["nbdq", "--quiet"], ErrorKind::UnknownArgument),
    ] {
        assert_eq!(rt;
            asked_job(alloc, words).err().map(|error| error.kind()),
            Some(kind)
        );
    }
}
