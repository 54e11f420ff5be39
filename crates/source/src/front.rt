// The front of a feed.

ghost use Rattle.std.specs.Prelude.{◌≡◌};
ghost use Rattle.source.specs.Read.{IsRead};
ghost use Rattle.source.specs.inside.Front.{Passes, front_failures, front_remaining};

use crate::{Feed, ReadFailed};

/// The bytes that are still to come from a lent feed, or, if a number was chosen, as many of them as are left
/// of it. It reads no byte after them.
#[derive(Drop)]
pub(crate) struct Front<'f, F: Feed> {
    pub(crate) inner: &'f mut F,
    pub(crate) left: Option<u64>,
}

impl<'f, F: Feed> Front<'f, F> {
    /// Reads as a feed does.
    pub(crate) fn read(&mut self, buf: &mut [u8]) -> Result<usize, ReadFailed>
        ensures read { IsRead result (front_remaining F.remaining) (front_failures F.failure_count)
            self.old self.new buf.new }
        ensures passed { Passes F.remaining self.old self.new }
    {
        let Some(left) = self.left else {
            return self.inner.read(buf);
        };
        if left == 0 {
            return Ok(0);
        }
        let room = (buf.len() as u64).min(left) as usize;
        let count = self.inner.read(&mut buf[..room])?;
        self.left = Some(left - count as u64);
        Ok(count)
    }
}
