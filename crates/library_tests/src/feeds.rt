// Readers and writers that fail in mid-stream, over memory. Where a read or a write of the system fails, it is a row of
// `tests/tables/failed.tsv`.

ghost use Rattle.std.specs.Prelude.{◌≡◌, length, IfOk, IfSome};
ghost use Rattle.hashes.specs.Digest.{digest};
ghost use Rattle.source.specs.Faults.{PumpCounts};

use source::{Alg, AnyHash, Bytes, Device, Feed, Sink, SourceFault, WriteFailed, digest_of};
use std::io;
use std::io::{ErrorKind, Read, Write};
use std::test::Fail;
use words::Tag;

// The caller of CALLING.md: the BLAKE3 digest of all that a feed gives.
fn blake3_of<F: Feed>(feed: &mut F) -> Result<Tag, SourceFault>
    ensures tag { IfOk result (λ tag. IfSome (F.remaining feed.old)
        (λ xs. tag ≡ digest Alg.Blake3 xs)) }
    ensures length { IfOk result (λ tag. length tag ≡ 32) }
    ensures count { PumpCounts result (F.failure_count feed.old) (F.failure_count feed.new) }
{
    let hasher = AnyHash::new(Alg::Blake3).unwrap();
    digest_of(hasher, feed)
}

// The digest of "abc" begins as that of `b3sum`.
#[test]
fn the_digest_of_a_feed(rt: HostRuntime) -> Result<(), Fail> {
    let tag = blake3_of(&mut Bytes::new(b"abc", 2))?;
    assert!(rt; tag.bytes().starts_with(b"\x64\x37\xb3\xac"));
    let fault = blake3_of(&mut Bytes::failing(b"abc", 2, 3)).err();
    assert_eq!(rt; fault, Some(SourceFault::Read));
    Ok(())
}

// Gives two bytes per read, and fails the third read.
#[derive(Drop)]
struct Breaking(u8);

impl Read for Breaking {
    fn read(&mut self, buf: &mut [u8]) -> io::Result<usize> {
        self.0 = self.0.wrapping_add(1);
        if self.0 == 3 {
            return Err(io::Error::from(ErrorKind::TimedOut));
        }
        let count = buf.len().min(2);
        buf[..count].fill(self.0);
        Ok(count)
    }
}

// No read comes after the one that fails.
#[test]
fn a_read_that_fails_is_not_the_end(rt: HostRuntime) {
    let mut device = Device::new(Breaking(0));
    assert_eq!(rt; blake3_of(&mut device).err(), Some(SourceFault::Read));
    assert_eq!(rt; device.failures(), 1);
    let mut buf = [0; 4];
    assert_eq!(rt; device.read(&mut buf), Ok(2));
    assert_eq!(rt; buf, [4, 4, 0, 0]);
}

// Takes one byte, is interrupted, takes the rest, then nothing, fails, and takes the rest again.
#[derive(Drop)]
struct Narrow(u8);

impl Write for Narrow {
    fn write(&mut self, bytes: &[u8]) -> io::Result<usize> {
        self.0 = self.0.wrapping_add(1);
        match self.0 {
            1 => Ok(bytes.len().min(1)),
            2 => Err(io::Error::from(ErrorKind::Interrupted)),
            4 => Ok(0),
            5 => Err(io::Error::from(ErrorKind::TimedOut)),
            _ => Ok(bytes.len()),
        }
    }

    fn flush(&mut self) -> io::Result<()> {
        Ok(())
    }
}

// An interrupted write is repeated, and one that takes nothing has failed.
#[test]
fn a_device_writes_all_or_has_failed(rt: HostRuntime) {
    let mut sink = Device::new(Narrow(0));
    assert_eq!(rt; sink.write(b"ab"), Ok(2));
    assert_eq!(rt; sink.write(b"b"), Err(WriteFailed));
    assert_eq!(rt; sink.write(b"b"), Err(WriteFailed));
    assert_eq!(rt; sink.write(b"b"), Ok(1));
    assert_eq!(rt; sink.write(b""), Ok(0));
    assert_eq!(rt; sink.into_inner().0, 6);
}
