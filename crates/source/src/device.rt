// A reader or a writer of std as a feed or a sink.

ghost use Rattle.std.specs.Prelude.{◌≡◌, None, length, IfOk, OnOk};
ghost use Rattle.std.specs.Io.KnownBytes.{Appends, ReadConsumes};
ghost use Rattle.source.specs.Counts.{CountsFailure};
ghost use Rattle.source.specs.Read.{IsRead};
ghost use Rattle.source.specs.Written.{IsWrite};
ghost use Rattle.source.specs.inside.Device.{device_failures, device_inner};

use crate::{Feed, ReadFailed, Sink, WriteFailed};
use std::io::{Read, Write};

/// A reader or a writer, such as a file or a standard stream. It shows neither what is still to come nor what
/// was written. If the reader or writer itself shows its bytes, each read and write agrees with them. A read
/// is one read of the reader, and a fault of any kind is a failure: an interrupted read is not repeated.
#[derive(Drop)]
pub struct Device<R> {
    inner: R,
    failures: u64,
}

impl<R> Device<R> {
    /// A device over `inner`, with no failure yet.
    pub fn new(inner: R) -> Device<R>
        ensures inner { device_inner result ≡ inner }
        ensures fresh { device_failures result ≡ 0 }
    {
        Device { inner, failures: 0 }
    }

    /// Gives the reader or writer back, for example for a last flush.
    pub fn into_inner(self) -> R
        ensures { result ≡ device_inner self }
    {
        self.inner
    }
}

impl<R: Read> Feed for Device<R> {
    ghost failure_count = { λ s. device_failures s };

    ghost remaining = { λ _. None };

    fn read(&mut self, buf: &mut [u8]) -> Result<usize, ReadFailed>
        ensures read { IsRead result ⟦<Device<R> as Feed>⟧.remaining ⟦<Device<R> as Feed>⟧.failure_count
            self.old self.new buf.new }

        // What the reader had to come, if it shows that, is what was read.
        ensures reader { ReadConsumes (R.remaining (device_inner self.old))
            (R.remaining (device_inner self.new)) result buf.new }
        ensures counted { CountsFailure result (device_failures self.old) (device_failures self.new) }
    {
        match self.inner.read(buf) {
            Ok(count) => Ok(count),
            Err(_) => {
                self.failures = self.failures.saturating_add(1);
                Err(ReadFailed)
            }
        }
    }

    fn failures(&self) -> u64
        ensures feed { result ≡ ⟦<Device<R> as Feed>⟧.failure_count self.now }
        ensures device { result ≡ device_failures self.now }
    {
        self.failures
    }
}

impl<W: Write> Sink for Device<W> {
    ghost use Rattle.source.specs.inside.Device.{device_shown};

    ghost shown = { λ s. device_shown s };

    /// Passes all of `bytes` to the writer's `write_all`, so that a writer that gathers lines sends each in
    /// one write: an `Ok` is their length. After an `Err` the writer may have taken a beginning of them;
    /// std's `write_all` says nothing about that.
    fn write(&mut self, bytes: &[u8]) -> Result<usize, WriteFailed>
        ensures write { IsWrite result (⟦<Device<W> as Sink>⟧.shown self.old)
            (⟦<Device<W> as Sink>⟧.shown self.new) bytes.now }

        // All of it is written, and what the writer holds, if it shows that, grows by it.
        ensures whole { IfOk result (λ n. n ≡ length bytes.now) }
        ensures writer { OnOk result (Appends (W.contents (device_inner self.old))
            (W.contents (device_inner self.new)) bytes.now) }
        ensures counted { CountsFailure result (device_failures self.old) (device_failures self.new) }
    {
        match self.inner.write_all(bytes) {
            Ok(()) => Ok(bytes.len()),
            Err(_) => {
                self.failures = self.failures.saturating_add(1);
                Err(WriteFailed)
            }
        }
    }
}

/// Does nothing. Its contract says what each device shows as a feed: how many of its reads have failed, and
/// not which bytes are to come.
pub fn device_feed_laws<R: Read>(device: &Device<R>)
    ensures untold { ⟦<Device<R> as Feed>⟧.remaining device.now ≡ None }
    ensures failures { ⟦<Device<R> as Feed>⟧.failure_count device.now ≡ device_failures device.now }
{}

/// Does nothing. Its contract says what each device shows as a sink: how many of its writes have failed, and
/// not which bytes were written.
pub fn device_sink_laws<W: Write>(device: &Device<W>)
    ensures untold { (⟦<Device<W> as Sink>⟧.shown device.now).contents ≡ None }
    ensures failures { (⟦<Device<W> as Sink>⟧.shown device.now).failures ≡ device_failures device.now }
{}
