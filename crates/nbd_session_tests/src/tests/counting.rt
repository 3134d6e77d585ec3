//! What is counted of a writer, and what it gets.

use super::*;

/// Takes all bytes, and can't pass them on.
#[derive(Drop)]
struct Stuck;

impl Write for Stuck {
    fn write(&mut self, buf: &[u8]) -> io::Result<usize> {
        Ok(buf.len())
    }

    fn flush(&mut self) -> io::Result<()> {
        Err(io::Error::from(io::ErrorKind::BrokenPipe))
    }
}

#[test]
fn a_failed_flush_is_counted(rt: HostRuntime) {
    let mut writer = Counted::new(Stuck);
    assert!(rt; writer.write(b"a").is_ok());
    assert!(rt; writer.failures() == 0);
    assert!(rt; writer.flush().is_err());
    assert!(rt; writer.failures() == 1);
}

#[test]
fn a_refusal_is_written(rt: HostRuntime) {
    let mut writer = Counted::new(Vec::new(rt.alloc()));
    assert!(rt; put_reply(&Reply::<Global>::bare(28, 258), &mut writer).is_ok());
    let wanted = b"\x67\x44\x66\x98\x00\x00\x00\x1c\x00\x00\x00\x00\x00\x00\x01\x02";
    assert!(rt; writer.into_inner().as_slice() == wanted.as_slice());
}
