//! Devices over readers and writers that work, that fail, and that take nothing: t1_io. No chapter of a standard
//! speaks of them.

use std::io;
use std::io::{Read, Write};
use t1_io::{In, Out, Sink, Source, put_all, put_parts};
use t1_samples::{Fuse, Limit};

/// A device whose calls all fail.
#[derive(Drop)]
struct Dead;

impl Read for Dead {
    fn read(&mut self, _buffer: &mut [u8]) -> io::Result<usize> {
        Err(io::Error::from(io::ErrorKind::BrokenPipe))
    }
}

impl Write for Dead {
    fn write(&mut self, _bytes: &[u8]) -> io::Result<usize> {
        Err(io::Error::from(io::ErrorKind::BrokenPipe))
    }

    fn flush(&mut self) -> io::Result<()> {
        Err(io::Error::from(io::ErrorKind::BrokenPipe))
    }
}

/// A writer that takes nothing and returns no error.
#[derive(Drop)]
struct Full;

impl Write for Full {
    fn write(&mut self, _bytes: &[u8]) -> io::Result<usize> {
        Ok(0)
    }

    fn flush(&mut self) -> io::Result<()> {
        Ok(())
    }
}

/// How many bytes a source returns; more than any buffer has where it fails.
fn taken<S: Source>(source: &mut S, buffer: &mut [u8]) -> usize {
    source.take(buffer).unwrap_or(usize::MAX)
}

#[test]
fn returns_the_bytes_of_a_reader(rt: HostRuntime) {
    let bytes = [1u8, 2, 3];
    let mut source = In::new(&bytes[..]);
    let mut buffer = [0u8; 2];
    assert_eq!(rt; taken(&mut source, &mut buffer), 2);
    assert_eq!(rt; buffer[1], 2);
    assert_eq!(rt; taken(&mut source, &mut buffer), 1);
    assert_eq!(rt; buffer[0], 3);
    assert_eq!(rt; taken(&mut source, &mut buffer), 0);
    assert!(rt; !source.has_failed());
}

#[test]
fn remembers_a_failure(rt: HostRuntime) {
    let mut source = In::new(Dead);
    let mut buffer = [0u8; 2];
    assert!(rt; source.take(&mut buffer).is_err());
    assert!(rt; source.has_failed());
    let mut sink = Out::new(Dead);
    assert!(rt; sink.flush().is_err());
    assert!(rt; sink.has_failed());
    let mut full = Out::new(Full);
    assert!(rt; put_all(&mut full, b"x").is_err());
    assert!(rt; full.has_failed());
}

/// Writes parts and flushes, and returns whether no call failed.
fn puts_parts<W: Sink>(sink: &mut W, parts: &[&[u8]]) -> bool {
    put_parts(sink, parts).is_ok() && sink.flush().is_ok() && !sink.has_failed()
}

#[test]
fn writes_parts_a_byte_a_call(rt: HostRuntime) {
    let mut text = Vec::new(rt.alloc());
    let mut sink = Fuse::sink(Out::new(&mut text), Limit::BytesPerCall(1));
    assert!(rt; puts_parts(&mut sink, &[b"ab".as_slice(), b"", b"c\n"]));
    assert_eq!(rt; text.as_slice(), b"abc\n".as_slice());
}

#[test]
fn a_fuse_fails_after_its_bytes(rt: HostRuntime) {
    let mut text = Vec::new(rt.alloc());
    let mut sink = Fuse::sink(Out::new(&mut text), Limit::Bytes(3));
    assert!(rt; put_all(&mut sink, b"abcd").is_err());
    assert!(rt; sink.flush().is_err());
    assert_eq!(rt; text.as_slice(), b"abc".as_slice());
}

#[test]
fn a_fuse_fails_after_its_calls(rt: HostRuntime) {
    let bytes = [7u8; 5];
    let mut source = Fuse::source(In::new(&bytes[..]), Limit::Calls(1));
    let mut buffer = [0u8; 4];
    assert_eq!(rt; taken(&mut source, &mut buffer), 4);
    assert!(rt; source.take(&mut buffer).is_err());
    assert!(rt; source.has_failed());
}
