// Where bytes go.

ghost use Rattle.source.specs.Pumped.{joined};
ghost use Rattle.source.specs.Written.{IsWrite, Shown, Writes};

use thiserror::Error;

/// A write failed.
#[derive(Clone, Copy, Debug, PartialEq, Eq, Drop, Error)]
#[error("a write failed")]
pub struct WriteFailed;

/// What takes bytes piece by piece; any write may fail.
pub trait Sink {
    // How many writes have failed, up to `u64::MAX`, and the bytes written, if they are known.
    ghost shown: { Self → Shown };

    /// Writes a beginning of `bytes` and returns its length: at least 1, unless `bytes` is empty. If it
    /// returns an `Err`, nothing was written, and the failure is counted.
    fn write(&mut self, bytes: &[u8]) -> Result<usize, WriteFailed>
        ensures { IsWrite result (shown self.old) (shown self.new) bytes.now };
}

/// Writes all of `bytes`, with as many writes as it takes. If it returns an `Err`, a beginning of `bytes` was
/// written, and one write failed.
pub fn write_all<W: Sink>(out: &mut W, bytes: &[u8]) -> Result<(), WriteFailed>
    ensures { Writes result (W.shown out.old) (W.shown out.new) bytes.now }
{
    let mut rest = bytes;
    while !rest.is_empty() {
        let count = out.write(rest)?;
        let (_, after) = rest.split_at(count);
        rest = after;
    }
    Ok(())
}

/// Writes the pieces, one after another and each whole. If it returns an `Err`, a beginning of all pieces
/// together was written, and one write failed.
pub fn write_pieces<W: Sink>(out: &mut W, pieces: &[&[u8]]) -> Result<(), WriteFailed>
    ensures { Writes result (W.shown out.old) (W.shown out.new) (joined pieces.now) }
{
    for piece in pieces {
        write_all(out, piece)?;
    }
    Ok(())
}
