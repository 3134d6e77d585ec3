//! Whole configuration files by `check`, and the whole output of each.

use nbd_stream::Counted;
use nbdq_cli::{Job, Outcome, Task, asked_job, check_text};
use refusing::Refusing;
use std::alloc::Global;
use std::io;
use std::io::{ErrorKind, Read, Write};
use std::test::Fail;

const EXAMPLE: &[u8] = b"inflight = 8\n[[export]]\nname = \"a\"\nsize = 4096\nlimit = 10\n\
[[export]]\nname = \"bb\"\nsize = 8192\nread_only = true\n";

const WRITTEN: &[u8] = b"inflight 8\n\
0 4096 rw r=0 l=10 w=1 depth=1024 window=256 a\n\
1 8192 ro r=0 l=0 w=1 depth=1024 window=256 bb\n";

/// What the example is changed to, and the line that refuses it.
const REFUSED: [(&[u8], &[u8]); 10] = [
    (b"", b"C3 top\n"),
    (
        b"inflight = 8\n[[export]]\nname = \"a\"\nsize = 4096\nlimit = 10\n[[export]]\nname = \"bb\"\nsize = 0\nread_only = true\n",
        b"C5 export 1\n",
    ),
    (
        b"inflight = 8\n[[export]]\nname = \"a\"\nsize = 4096\nlimit = 10\n[[export]]\nname = \"a\"\nsize = 8192\nread_only = true\n",
        b"C4 export 1\n",
    ),
    (
        b"inflight = 8\n[[export]]\nname = \"a\"\nsize = 4096\nlimit = 10\n[[export]]\nname = \"bb\"\nsize = 1099511627777\nread_only = true\n",
        b"C5 export 1\n",
    ),
    (
        b"inflight = 8\n[[export]]\nname = \"a\"\nsize = 4096\nlimit = 10\nreservation = 11\n[[export]]\nname = \"bb\"\nsize = 8192\nread_only = true\n",
        b"C9 export 0\n",
    ),
    (
        b"inflight = 8\n[[export]]\nname = \"a\"\nsize = 4096\nlimit = 10\nspeed = 1\n[[export]]\nname = \"bb\"\nsize = 8192\nread_only = true\n",
        b"C2 export 0\n",
    ),
    (
        b"inflight = 8\n[[export]]\nname = \"a\"\nsize = \"x\"\nlimit = 10\n[[export]]\nname = \"bb\"\nsize = 8192\nread_only = true\n",
        b"C2 export 0\n",
    ),
    (b"inflight = 8\ninflight = 8\n", b"C1 top\n"),
    (b"# \xff\n", b"C1 top\n"),
    (b"inflight = 4097\nexport = [1]\n", b"C8 top\n"),
];

/// How the check of a configuration file goes, and what is written.
fn checked(alloc: Global, text: &[u8]) -> (Outcome, Vec<u8>) {
    let mut input = Counted::new(text);
    let mut output = Counted::new(Vec::new(alloc));
    let outcome = check_text(alloc, alloc, &mut input, &mut output);
    (outcome, output.into_inner())
}

#[test]
fn what_is_configured_is_written(rt: HostRuntime) {
    let (outcome, output) = checked(rt.alloc(), EXAMPLE);
    assert_eq!(rt; outcome, Outcome::Done);
    assert_eq!(rt; output.as_slice(), WRITTEN);
}

#[test]
fn names_and_numbers_are_written_as_they_are(rt: HostRuntime) {
    let text =
        b"[[export]]\nname = \"a b \\u00e9\"\nsize = 0x100_0000_0000\nreservation = 3\nlimit = 1_000\nweight = 7\ndepth = 1\nwindow = 4096\ndescription = \"d\"\n";
    let (outcome, output) = checked(rt.alloc(), text);
    assert_eq!(rt; outcome, Outcome::Done);
    assert_eq!(rt;
        output.as_slice(),
        b"inflight 32\n0 1099511627776 rw r=3 l=1000 w=7 depth=1 window=4096 a b \xc3\xa9\n".as_slice()
    );
}

#[test]
fn a_refusal_is_the_only_line(rt: HostRuntime) {
    for (text, line) in REFUSED {
        let (outcome, output) = checked(rt.alloc(), text);
        assert_eq!(rt; outcome, Outcome::Refused, "{line:?}");
        assert_eq!(rt; output.as_slice(), line);
    }
}

#[test]
fn the_command_is_asked_for_by_its_name(rt: HostRuntime) {
    assert!(rt;
        matches!(
            asked_job(rt.alloc(), &["nbdq", "check"]),
            Ok(Job::Task(Task::Check))
        )
    );
    assert!(rt; asked_job(rt.alloc(), &["nbdq", "check", "file"]).is_err());
}

/// A reader and a writer that fail.
#[derive(Drop)]
struct Broken(ErrorKind);

impl Read for Broken {
    fn read(&mut self, _: &mut [u8]) -> io::Result<usize> {
        Err(io::Error::from(self.0))
    }
}

impl Write for Broken {
    fn write(&mut self, _: &[u8]) -> io::Result<usize> {
        Err(io::Error::from(self.0))
    }

    fn flush(&mut self) -> io::Result<()> {
        Ok(())
    }
}

#[test]
fn failures_are_told_apart(rt: HostRuntime) {
    let alloc = rt.alloc();
    for kind in [ErrorKind::BrokenPipe, ErrorKind::OutOfMemory] {
        let mut input = Counted::new(Broken(kind));
        let mut output = Counted::new(Vec::new(alloc));
        let outcome = check_text(alloc, alloc, &mut input, &mut output);
        assert_eq!(rt; outcome, Outcome::ReadFailed);
        assert_eq!(rt; input.failures(), 1);
        assert_eq!(rt; output.into_inner().len(), 0);
        for text in [EXAMPLE, b"".as_slice()] {
            let mut output = Counted::new(Broken(kind));
            let outcome = check_text(alloc, alloc, &mut Counted::new(text), &mut output);
            assert_eq!(rt; outcome, Outcome::WriteFailed);
            assert_eq!(rt; output.failures(), 1);
        }
    }
}

#[test]
fn each_growth_is_refused_in_turn(rt: HostRuntime) {
    let mut met = false;
    for nth in 1..100u64 {
        let heap = Refusing::new(rt.alloc(), nth);
        let mut written = Counted::new(Vec::new(rt.alloc()));
        let outcome = check_text(rt.alloc(), &heap, &mut Counted::new(EXAMPLE), &mut written);
        let output = written.into_inner();
        if heap.is_armed() {
            assert_eq!(rt; outcome, Outcome::Done);
            assert_eq!(rt; output.as_slice(), WRITTEN);
            assert!(rt; met);
            return;
        }
        met = true;
        assert_eq!(rt; outcome, Outcome::NoMemory, "at {nth}");
        assert_eq!(rt; output.len(), 0, "at {nth}");
    }
    assert!(rt; false, "no end");
}
