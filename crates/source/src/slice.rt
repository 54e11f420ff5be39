// A lent slice as a feed.

ghost use Rattle.std.specs.Prelude.{◌≡◌, Some};

use crate::{Feed, ReadFailed};

/// The bytes of the slice, as many at a time as there is room for. No read of it fails.
impl<'a> Feed for &'a [u8] {
    ghost failure_count = { λ _. 0 };

    ghost remaining = { λ s. Some s.now };

    fn read(&mut self, buf: &mut [u8]) -> Result<usize, ReadFailed> {
        let count = self.len().min(buf.len());
        let (piece, rest) = self.split_at(count);
        buf[..count].copy_from_slice(piece);
        *self = rest;
        Ok(count)
    }

    fn failures(&self) -> u64 {
        0
    }
}

/// Does nothing. Its contract says what each slice shows as a feed: all of it is to come, and no read of it
/// has failed.
pub fn slice_laws<'a>(slice: &'a [u8])
    ensures told { ⟦<&'a [u8] as Feed>⟧.remaining slice.entry ≡ Some slice.now }
    ensures failures { ⟦<&'a [u8] as Feed>⟧.failure_count slice.entry ≡ 0 }
{}
