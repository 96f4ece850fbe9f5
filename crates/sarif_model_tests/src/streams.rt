//! Readers and writers that fail, and the limit of a source.
use sarif_model::Refusal;
use sarif_streams::{Counted, Failed, SourceFault, read_source, write_out};
use std::io;
use std::io::{Read, Write};
use std::test::Fail;

/// The log of one result without a level, merged: a new warning.
const MERGED: &str = concat!(
    r#"{"properties":{"gate":{"counts":{"#,
    r#""absent":{"active":[0,0,0,0],"suppressed":[0,0,0,0]},"new":{"active":[0,1,0,0],"#,
    r#""suppressed":[0,0,0,0]},"unchanged":{"active":[0,0,0,0],"suppressed":[0,0,0,0]},"#,
    r#""updated":{"active":[0,0,0,0],"suppressed":[0,0,0,0]}},"failOn":"error","hits":0,"max":0,"#,
    r#""runsWithoutResults":0,"states":["new","updated"],"unusedSuppressions":0,"#,
    r#""verdict":"pass"}},"runs":[{"results":[{"baselineState":"new","level":"warning","#,
    r#""message":{"text":"m"},"suppressions":[]}],"tool":{"driver":{"name":"lint"}}}],"#,
    r#""version":"2.1.0"}"#
);

/// Returns this many bytes per read, and fails at the read after `good` of them.
#[derive(Drop)]
struct Failing {
    piece: usize,
    good: u32,
}

impl Read for Failing {
    fn read(&mut self, buf: &mut [u8]) -> io::Result<usize> {
        if self.good == 0 {
            return Err(io::ErrorKind::Interrupted.into());
        }
        self.good -= 1;
        Ok(self.piece.min(buf.len()))
    }
}

/// Takes at most `piece` bytes a write and `room` in all, and then fails, or takes nothing.
#[derive(Drop)]
struct NarrowWriter {
    got: Vec<u8>,
    piece: usize,
    room: usize,
    fails: bool,
}

impl Write for NarrowWriter {
    fn write(&mut self, buf: &[u8]) -> io::Result<usize> {
        let most = buf.len().min(self.piece).min(self.room);
        if most == 0 && self.fails {
            return Err(io::ErrorKind::Other.into());
        }
        self.got.extend_from_slice(&buf[..most])?;
        self.room -= most;
        Ok(most)
    }

    fn flush(&mut self) -> io::Result<()> {
        Ok(())
    }
}

#[test]
fn read_that_fails_after_ten_bytes(rt: HostRuntime) {
    let mut source = Counted::new(Failing { piece: 10, good: 1 });
    let read = read_source(rt.alloc(), &mut source);
    assert!(rt; matches!(read, Err(Refusal::Fault(SourceFault::ReadFailed))));
    assert_eq!(rt; source.faults(), 1);
    assert_eq!(rt; source.read(&mut [0; 4]), Err(Failed));
    assert_eq!(rt; source.faults(), 2);
}

#[test]
fn whole_source_is_read(rt: HostRuntime) -> Result<(), Fail> {
    let mut source = Counted::new(MERGED.as_bytes());
    let bytes = read_source(rt.alloc(), &mut source)?;
    assert_eq!(rt; bytes.as_slice(), MERGED.as_bytes());
    assert_eq!(rt; source.faults(), 0);
    let mut buffer = [7; 4];
    assert_eq!(rt; source.read(&mut buffer), Ok(0));
    Ok(())
}

#[test]
fn sources_end_at_the_limit(rt: HostRuntime) -> Result<(), Fail> {
    let mut endless = Counted::new(io::repeat(b'x'));
    let read = read_source(rt.alloc(), &mut endless);
    assert!(rt; matches!(read, Err(Refusal::Fault(SourceFault::TooLong))));
    assert_eq!(rt; endless.faults(), 0);
    let mut full = Counted::new(io::repeat(b'x').take(67_108_864));
    let bytes = read_source(rt.alloc(), &mut full)?;
    assert_eq!(rt; bytes.len(), 67_108_864);
    let mut past = Counted::new(io::repeat(b'x').take(67_108_865));
    let read = read_source(rt.alloc(), &mut past);
    assert!(rt; matches!(read, Err(Refusal::Fault(SourceFault::TooLong))));
    Ok(())
}

#[test]
fn write_that_fails_after_ten_bytes(rt: HostRuntime) {
    for fails in [true, false] {
        let mut writer = NarrowWriter {
            got: Vec::new(rt.alloc()),
            piece: 100,
            room: 10,
            fails,
        };
        let mut out = Counted::new(&mut writer);
        assert_eq!(rt; write_out(&mut out, MERGED.as_bytes()), Err(10));
        assert_eq!(rt; out.faults(), 1);
        assert_eq!(rt; out.write(b"x"), Err(Failed));
        assert_eq!(rt; out.faults(), 2);
        assert_eq!(rt; writer.got.as_slice(), b"{\"properti".as_slice());
    }
}

#[test]
fn one_byte_a_write(rt: HostRuntime) {
    let mut writer = NarrowWriter {
        got: Vec::new(rt.alloc()),
        piece: 1,
        room: 10_000,
        fails: false,
    };
    let mut out = Counted::new(&mut writer);
    assert_eq!(rt; write_out(&mut out, MERGED.as_bytes()), Ok(()));
    assert_eq!(rt; out.faults(), 0);
    assert_eq!(rt; out.write(b""), Ok(0));
    assert_eq!(rt; writer.got.as_slice(), MERGED.as_bytes());
}
