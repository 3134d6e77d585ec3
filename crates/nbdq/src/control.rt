//! `nbdq control`: asks a server that runs.

use nbdq_cli::{ControlTask, Ending, Outcome};
use std::alloc::Global;
use std::io;
use std::io::{BufRead, BufReader, BufWriter, Read, Write};
use std::net::Net;
use std::os::unix::net::UnixStream;

/// How a line was answered.
#[derive(Clone, Copy, Debug, PartialEq, Eq)]
enum LineOutcome {
    Answered,
    /// The line was refused.
    Refused,
    /// The socket ended before the answer did.
    Cut,
    NoOutput,
}

/// Sends the lines of standard input to the control socket of a server one by one, and writes what each is answered.
pub fn control<R: Input + Print + AllocGlobal + Net>(rt: &R, task: &ControlTask) -> Ending {
    let Some(path) = &task.unix else {
        return Ending::NoSocket;
    };
    let Ok(peer) = UnixStream::connect(rt, path.as_str()) else {
        return Ending::SocketFailed;
    };
    let alloc = rt.alloc();
    let Ok(output) = BufWriter::new(alloc, io::writer(rt)) else {
        return Ending::Ran(Outcome::NoMemory);
    };
    let Ok(input) = BufReader::new(alloc, rt.reader()) else {
        return Ending::Ran(Outcome::NoMemory);
    };
    let Ok(answers) = BufReader::new(alloc, &peer) else {
        return Ending::Ran(Outcome::NoMemory);
    };
    converse(alloc, input, &peer, answers, output)
}

/// Asks each line of an input, and writes the answers.
fn converse<I: Read + Drop, A: Read + Drop, S: Write + Drop, O: Write + Drop>(
    alloc: Global,
    mut input: BufReader<I>,
    mut server: S,
    mut answers: BufReader<A>,
    mut output: BufWriter<O>,
) -> Ending {
    let mut refused = false;
    let mut line = Vec::new(alloc);
    for _ in 0..u64::MAX {
        line.clear();
        match input.read_until(b'\n', &mut line) {
            Ok(0) => break,
            Ok(_) => {}
            Err(_) => return Ending::Ran(Outcome::ReadFailed),
        }
        if line.last() != Some(&b'\n') && line.push(b'\n').is_err() {
            return Ending::Ran(Outcome::NoMemory);
        }
        if server.write_all(line.as_slice()).is_err() {
            return Ending::SocketFailed;
        }
        match copy_answer(&mut answers, &mut line, &mut output) {
            LineOutcome::Answered => {}
            LineOutcome::Refused => refused = true,
            LineOutcome::Cut => return Ending::SocketFailed,
            LineOutcome::NoOutput => return Ending::Ran(Outcome::WriteFailed),
        }
    }
    match refused {
        true => Ending::Ran(Outcome::Refused),
        false => Ending::Ran(Outcome::Done),
    }
}

/// Copies an answer, up to the empty line that ends it.
fn copy_answer<A: Read + Drop, O: Write + Drop>(
    answers: &mut BufReader<A>,
    line: &mut Vec<u8>,
    output: &mut BufWriter<O>,
) -> LineOutcome {
    let mut refused = false;
    for _ in 0..u64::MAX {
        line.clear();
        match answers.read_until(b'\n', line) {
            Ok(0) | Err(_) => return LineOutcome::Cut,
            Ok(_) => {}
        }
        if output.write_all(line.as_slice()).is_err() {
            return LineOutcome::NoOutput;
        }
        if line.as_slice() == b"\n".as_slice() {
            break;
        }
        refused = refused || is_refused(line.as_slice());
    }
    match output.flush() {
        Err(_) => LineOutcome::NoOutput,
        Ok(()) if refused => LineOutcome::Refused,
        Ok(()) => LineOutcome::Answered,
    }
}

/// Whether a line of an answer says that nothing was done.
fn is_refused(line: &[u8]) -> bool {
    line.starts_with(b"refused ") || line == b"busy\n".as_slice()
}

#[cfg(test)]
mod tests {
    use super::*;

    /// What comes of these lines, where the server answers so: the end, what was sent, and what was written.
    fn told(alloc: Global, lines: &[u8], answers: &[u8]) -> Option<(Ending, Vec<u8>, Vec<u8>)> {
        let mut sent = Vec::new(alloc);
        let mut written = Vec::new(alloc);
        let input = BufReader::new(alloc, lines).ok()?;
        let answers = BufReader::new(alloc, answers).ok()?;
        let output = BufWriter::new(alloc, &mut written).ok()?;
        let end = converse(alloc, input, &mut sent, answers, output);
        Some((end, sent, written))
    }

    /// Whether that comes of it, and as much of the answers is written as came.
    fn is_told(alloc: Global, lines: &[u8], answers: &[u8], sent: &[u8], end: Ending) -> bool {
        match told(alloc, lines, answers) {
            Some((told, text, written)) => {
                told == end && text.as_slice() == sent && written.as_slice() == answers
            }
            None => false,
        }
    }

    #[test]
    fn lines_and_answers(rt: HostRuntime) {
        let done = Ending::Ran(Outcome::Done);
        let refused = Ending::Ran(Outcome::Refused);
        let alloc = rt.alloc();
        assert!(rt; is_told(alloc, b"", b"", b"", done));
        assert!(rt; is_told(alloc, b"sessions\n", b"\n", b"sessions\n", done));
        assert!(rt; is_told(alloc, b"stop", b"stopping\n\n", b"stop\n", done));
        assert!(rt;
            is_told(
                alloc,
                b"fly\nstop\n",
                b"refused unknown command\n\nstopping\n\n",
                b"fly\nstop\n",
                refused
            )
        );
    }

    #[test]
    fn a_retune_that_is_not_made(rt: HostRuntime) {
        let alloc = rt.alloc();
        let lines = b"retune a 0 0 1\n".as_slice();
        let refused = Ending::Ran(Outcome::Refused);
        assert!(rt;
            is_told(
                alloc,
                lines,
                b"retuned\n\n",
                lines,
                Ending::Ran(Outcome::Done)
            )
        );
        assert!(rt; is_told(alloc, lines, b"busy\n\n", lines, refused));
    }

    #[test]
    fn answers_that_are_cut(rt: HostRuntime) {
        let alloc = rt.alloc();
        let first = told(alloc, b"stop\nstop\n", b"stopping\n\n").expect(&rt, "memory");
        assert!(rt; first.0 == Ending::SocketFailed);
        let half = told(alloc, b"stats\n", b"server ").expect(&rt, "memory");
        assert!(rt; half.0 == Ending::SocketFailed);
    }
}
