// A slice as a sink.

ghost use Rattle.std.specs.Prelude.{◌≡◌, ◌≤◌, ◌<◌, ◌+◌, ◌↔◌, [], Some, drop, length, min, IsErr, IfOk, OnErr};
ghost use Rattle.source.specs.Written.{IsWrite};

use crate::{Sink, WriteFailed};

/// A lent slice that is filled from its front. A write takes as many bytes as fit, and fails if it has bytes
/// and none fits.
#[derive(Drop)]
pub struct FixedSink<'a> {
    buffer: &'a mut [u8],
    len: usize,
    failures: u64,
    ghost within: { len ≤ length buffer.now },
}

impl<'a> FixedSink<'a> {
    ghost use Rattle.source.specs.inside.FixedSink.{fixed_rest, fixed_room};

    /// A sink with room for as many bytes as `buffer` has, and none written.
    pub fn new(buffer: &'a mut [u8]) -> FixedSink<'a>
        ensures empty { (⟦<FixedSink<'a> as Sink>⟧.shown result).contents ≡ Some [] }
        ensures fresh { (⟦<FixedSink<'a> as Sink>⟧.shown result).failures ≡ 0 }
        ensures room { fixed_room result ≡ length buffer.entry.now }
        ensures rest { fixed_rest result ≡ buffer.entry.now }
    {
        FixedSink {
            buffer,
            len: 0,
            failures: 0,
        }
    }

    /// The bytes written.
    pub fn written(&self) -> &[u8]
        ensures { Some result.now ≡ (⟦<FixedSink<'a> as Sink>⟧.shown self.now).contents }
    {
        &self.buffer[..self.len]
    }
}

impl<'a> Sink for FixedSink<'a> {
    ghost use Rattle.source.specs.inside.FixedSink.{fixed_rest, fixed_room, fixed_shown};

    ghost shown = { λ s. fixed_shown s };

    fn write(&mut self, bytes: &[u8]) -> Result<usize, WriteFailed>
        ensures write { IsWrite result (⟦<FixedSink<'a> as Sink>⟧.shown self.old)
            (⟦<FixedSink<'a> as Sink>⟧.shown self.new) bytes.now }

        // When it fails, how much it takes, and what room is left.
        ensures full { IsErr result ↔ ((fixed_room self.old ≡ 0) × (0 < length bytes.now)) }
        ensures takes { IfOk result (λ n. n ≡ min (fixed_room self.old) (length bytes.now)) }
        ensures room { IfOk result (λ n. fixed_room self.new + n ≡ fixed_room self.old) }

        // What is in the slice after the bytes written stays, except where the new bytes were put.
        ensures rest { IfOk result (λ n. fixed_rest self.new ≡ drop n (fixed_rest self.old)) }
        ensures refused { OnErr result ((fixed_room self.new ≡ fixed_room self.old)
            × (fixed_rest self.new ≡ fixed_rest self.old)) }
    {
        let count = (self.buffer.len() - self.len).min(bytes.len());
        if count == 0 && !bytes.is_empty() {
            self.failures = self.failures.saturating_add(1);
            return Err(WriteFailed);
        }
        self.buffer[self.len..self.len + count].copy_from_slice(&bytes[..count]);
        self.len += count;
        Ok(count)
    }
}
