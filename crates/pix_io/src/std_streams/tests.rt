use super::*;
use crate::{Got, read_whole, write_all};
use std::io::{self, ErrorKind};

// A reader and a writer that refuse each call.
#[derive(Drop)]
struct Broken;

impl Read for Broken {
    fn read(&mut self, _buf: &mut [u8]) -> io::Result<usize> {
        Err(io::Error::from(ErrorKind::BrokenPipe))
    }
}

impl Write for Broken {
    fn write(&mut self, _buf: &[u8]) -> io::Result<usize> {
        Err(io::Error::from(ErrorKind::BrokenPipe))
    }

    fn flush(&mut self) -> io::Result<()> {
        Ok(())
    }
}

// A writer that takes nothing.
#[derive(Drop)]
struct Stuck;

impl Write for Stuck {
    fn write(&mut self, _buf: &[u8]) -> io::Result<usize> {
        Ok(0)
    }

    fn flush(&mut self) -> io::Result<()> {
        Ok(())
    }
}

#[test]
fn reads_from_a_reader(rt: HostRuntime) {
    let bytes = [1u8, 2, 3, 4, 5, 6];
    let mut source = ReadSource::new(&bytes[..]);
    let mut buf = [0; 4];
    assert_eq!(rt; read_whole(&mut source, &mut buf), Ok(Got::Whole));
    assert_eq!(rt; buf, [1, 2, 3, 4]);
    assert_eq!(rt; read_whole(&mut source, &mut buf), Ok(Got::Short(2)));
    assert_eq!(rt; buf, [5, 6, 3, 4]);
    assert_eq!(rt; read_whole(&mut source, &mut buf), Ok(Got::End));
    assert_eq!(rt; source.faults, 0);

    let mut broken = ReadSource::new(Broken);
    assert_eq!(rt; broken.read(&mut buf), Err(Failed));
    assert_eq!(rt; broken.faults, 1);
    broken.faults = u64::MAX;
    assert_eq!(rt; broken.read(&mut buf), Err(Failed));
    assert_eq!(rt; broken.faults, u64::MAX);
}

#[test]
fn writes_to_a_writer(rt: HostRuntime) {
    let mut sink = WriteSink::new(Vec::new(rt.alloc()));
    assert_eq!(rt; write_all(&mut sink, &[1, 2, 3]), Ok(()));
    assert_eq!(rt; sink.write(&[]), Ok(0));
    assert_eq!(rt; write_all(&mut sink, &[4]), Ok(()));
    assert_eq!(rt; sink.inner.as_slice(), [1, 2, 3, 4].as_slice());
    assert_eq!(rt; sink.faults, 0);

    let mut stuck = WriteSink::new(Stuck);
    assert_eq!(rt; stuck.write(&[]), Ok(0));
    assert_eq!(rt; stuck.faults, 0);
    assert_eq!(rt; stuck.write(&[1]), Err(Failed));
    assert_eq!(rt; stuck.faults, 1);

    let mut broken = WriteSink::new(Broken);
    broken.faults = u64::MAX;
    assert_eq!(rt; broken.write(&[1]), Err(Failed));
    assert_eq!(rt; broken.faults, u64::MAX);
}
