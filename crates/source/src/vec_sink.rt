// A list that grows as a sink.

ghost use Rattle.std.specs.Prelude.{◌≡◌, [], Some, length, IfOk};
ghost use Rattle.source.specs.Written.{IsWrite};

use crate::{Sink, WriteFailed};
use std::alloc::Global;

/// A list that grows as bytes are written. A write takes all of its bytes, or fails if memory for them is
/// refused.
#[derive(Drop)]
pub struct VecSink {
    bytes: Vec<u8>,
    failures: u64,
}

impl VecSink {
    /// An empty list, which takes no memory before the first write.
    pub fn new(alloc: Global) -> VecSink
        ensures empty { (⟦<VecSink as Sink>⟧.shown result).contents ≡ Some [] }
        ensures fresh { (⟦<VecSink as Sink>⟧.shown result).failures ≡ 0 }
    {
        VecSink {
            bytes: Vec::new(alloc),
            failures: 0,
        }
    }

    /// The bytes written.
    pub fn written(&self) -> &[u8]
        ensures { Some result.now ≡ (⟦<VecSink as Sink>⟧.shown self.now).contents }
    {
        &self.bytes
    }
}

impl Sink for VecSink {
    ghost use Rattle.source.specs.inside.VecSink.{vec_shown};

    ghost shown = { λ s. vec_shown s };

    fn write(&mut self, bytes: &[u8]) -> Result<usize, WriteFailed>
        ensures write { IsWrite result (⟦<VecSink as Sink>⟧.shown self.old)
            (⟦<VecSink as Sink>⟧.shown self.new) bytes.now }

        // No write stops short.
        ensures takes { IfOk result (λ n. n ≡ length bytes.now) }
    {
        match self.bytes.extend_from_slice(bytes) {
            Ok(()) => Ok(bytes.len()),
            Err(_) => {
                self.failures = self.failures.saturating_add(1);
                Err(WriteFailed)
            }
        }
    }
}
