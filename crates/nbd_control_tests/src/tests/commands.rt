//! Lines, and what they ask for.

use nbd_control::{Command, CommandError, Name, read_command};
use refusing::Refusing;
use std::alloc::Global;
use std::str;

/// Lines, and what each asks for; of a refused one the cause.
const LINES: [(&[u8], &[u8]); 46] = [
    (b"stats", b"stats"),
    (b"  stats  ", b"stats"),
    (b"stats prometheus", b"metrics"),
    (b"stats   prometheus ", b"metrics"),
    (b"sessions", b"sessions"),
    (b"stop", b"stop"),
    (b"stop now", b"stop now"),
    (b"retune a 0 0 1", b"retune [a] 0 0 1"),
    (
        b"retune a 1000000 1000000 1000000",
        b"retune [a] 1000000 1000000 1000000",
    ),
    (b"  retune   a  007 10  2  ", b"retune [a] 7 10 2"),
    (b"retune \"a\" 1 2 3", b"retune [a] 1 2 3"),
    (b"retune \"a b\" 1 2 3", b"retune [a b] 1 2 3"),
    (b"retune 'a \\ b' 1 2 3", b"retune [a \\ b] 1 2 3"),
    (
        b"retune \"a\\\"\\\\\\n\\u00e9\" 1 2 3",
        b"retune [a\"\\\n\xc3\xa9] 1 2 3",
    ),
    (b"retune \"\"\"a\"\"\" 1 2 3", b"retune [a] 1 2 3"),
    (b"retune \"\" 1 2 3", b"retune [] 1 2 3"),
    (b"retune a\"b 1 2 3", b"retune [a\"b] 1 2 3"),
    (b"retune \xc3\xa9 1 2 3", b"retune [\xc3\xa9] 1 2 3"),
    (b"drop a 0", b"drop [a] 0"),
    (
        b"drop \"a b\" 18446744073709551615",
        b"drop [a b] 18446744073709551615",
    ),
    (b"", b"UnknownCommand"),
    (b"   ", b"UnknownCommand"),
    (b"stat", b"UnknownCommand"),
    (b"STATS", b"UnknownCommand"),
    (b"stats\tprometheus", b"UnknownCommand"),
    (b"stats json", b"UnknownCommand"),
    (b"stop later", b"UnknownCommand"),
    (b"stats prometheus now", b"FieldCount"),
    (b"stop now now", b"FieldCount"),
    (b"sessions a", b"FieldCount"),
    (b"retune", b"FieldCount"),
    (b"retune   ", b"FieldCount"),
    (b"retune a 1 2", b"FieldCount"),
    (b"retune a 1 2 3 4", b"FieldCount"),
    (b"drop a", b"FieldCount"),
    (b"drop \"a\"", b"FieldCount"),
    (b"retune a x 2 3", b"NotANumber"),
    (b"retune a 1 -2 3", b"NotANumber"),
    (b"drop a 18446744073709551616", b"NotANumber"),
    (b"retune \"a 1 2 3", b"BadQuotes"),
    (b"retune \"a\"1 2 3", b"BadQuotes"),
    (b"retune \"\\q\" 1 2 3", b"BadQuotes"),
    (b"retune \xff 1 2 3", b"NotUtf8"),
    (b"retune a 1000001 0 1", b"Rates(BadReservation)"),
    (b"retune a 0 0 0", b"Rates(BadWeight)"),
    (b"retune a 6 5 1", b"Rates(ReservationAboveLimit)"),
];

/// What a line asks for, in words.
fn told(alloc: Global, line: &[u8]) -> Option<String> {
    match read_command(alloc, alloc, line) {
        Ok(command) => in_words(alloc, &command),
        Err(CommandError::Refused(cause)) => format!(in alloc; "{cause:?}").ok(),
        Err(CommandError::NoMemory) => None,
    }
}

fn in_words(alloc: Global, command: &Command<Global>) -> Option<String> {
    match command {
        Command::Stats => String::from_str(alloc, "stats").ok(),
        Command::Metrics => String::from_str(alloc, "metrics").ok(),
        Command::Sessions => String::from_str(alloc, "sessions").ok(),
        Command::Stop => String::from_str(alloc, "stop").ok(),
        Command::StopNow => String::from_str(alloc, "stop now").ok(),
        Command::Retune { export, rates } => {
            let name = text_of(export);
            let r = rates.reservation;
            let l = rates.limit;
            let w = rates.weight;
            format!(in alloc; "retune [{name}] {r} {l} {w}").ok()
        }
        Command::DropSession { export, session } => {
            let name = text_of(export);
            format!(in alloc; "drop [{name}] {session}").ok()
        }
    }
}

fn text_of(name: &Name<Global>) -> &str {
    str::from_utf8(name.as_bytes()).unwrap_or("not UTF-8")
}

#[test]
fn lines_and_what_they_ask_for(rt: HostRuntime) {
    for (line, expected) in LINES {
        let words = told(rt.alloc(), line).expect(&rt, "memory");
        assert!(rt; words.as_bytes() == expected, "{words}");
    }
}

/// What a line of `stats` and so many spaces asks for.
fn told_of_spaces(alloc: Global, spaces: usize) -> Option<String> {
    let mut line = Vec::from_slice(alloc, b"stats").ok()?;
    for _ in 0..spaces {
        line.push(b' ').ok()?;
    }
    told(alloc, &line)
}

#[test]
fn longest_lines(rt: HostRuntime) {
    let longest = told_of_spaces(rt.alloc(), 4091).expect(&rt, "memory");
    assert!(rt; longest.as_str() == "stats");
    let longer = told_of_spaces(rt.alloc(), 4092).expect(&rt, "memory");
    assert!(rt; longer.as_str() == "LineTooLong");
}

/// Whether the line is read as it is, or want of memory is told, where the nth growth is refused.
fn tells_of_growth(alloc: Global, nth: u64) -> bool {
    let refusing = Refusing::new(alloc, nth);
    match read_command(alloc, &refusing, b"drop \"a b\" 7") {
        Ok(Command::DropSession { export, session }) => {
            nth > 1 && export.as_bytes() == b"a b".as_slice() && session == 7
        }
        Ok(_) => false,
        Err(CommandError::NoMemory) => !refusing.is_armed(),
        Err(CommandError::Refused(_)) => false,
    }
}

#[test]
fn want_of_memory_is_told(rt: HostRuntime) {
    for nth in 1..8 {
        assert!(rt; tells_of_growth(rt.alloc(), nth), "growth {nth}");
    }
}
