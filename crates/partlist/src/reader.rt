// The lines of parts that a feed gives, one by one.

ghost use Rattle.std.specs.Prelude.{◌≡◌, ◌+◌, ◌<◌, ◌≤◌, ◌++◌, [], ℕ, List, Some, false, true, length};
ghost use Rattle.std.specs.Prelude.{IfOk, IfSome, OnErr, OnOk};
ghost use Rattle.arrayvec.specs.ArrayVec.{array_vec_len};
ghost use Rattle.source.specs.Counts.{CountsFailure};
ghost use Rattle.std.specs.Io.KnownBytes.{IsAtEnd};
ghost use Rattle.source.specs.Pumped.{Gives};
ghost use Rattle.partlist.specs.declared.reader.Found.TheVariants.{End};
ghost use Rattle.sumlist.specs.inside.Cut.{HasNo};

use crate::PartFault;
use crate::joining::{PART_LINE_LIMIT, hold};
use arrayvec::ArrayVec;
use source::{Feed, ReadFailed};
use sumlist::split_at_byte;

/// Reads the lines of parts that a feed gives, one after another. It keeps one read of 4,096 bytes and one
/// line.
#[derive(Drop)]
pub struct PartReader {
    buffer: [u8; 4096],
    // what has been read and is yet to be taken
    start: usize,
    end: usize,
    // what has been taken of the line
    held: ArrayVec<u8, PART_LINE_LIMIT>,
    ghost order: { start ≤ end },
    ghost within: { end ≤ 4096 },
    ghost size: { length buffer ≡ 4096 },
}

// What comes next in a feed: a line that may be a part's, one that is too long for that, or nothing.
#[derive(Clone, Copy)]
pub(crate) enum Found {
    Line,
    Long,
    End,
}

impl PartReader {
    ghost use Rattle.partlist.specs.inside.Reader.{IsAhead, IsBegun, IsFound, TakesLine, ahead};

    /// No line yet, and nothing read.
    pub fn new() -> PartReader
        ensures { ahead result ≡ [] }
    {
        PartReader {
            buffer: [0; 4096],
            start: 0,
            end: 0,
            held: ArrayVec::new(),
        }
    }

    // The line that was read last.
    pub(crate) fn line(&self) -> &[u8]
        ensures { result.now ≡ self.now.held.items }
    {
        self.held.as_slice()
    }

    // Reads the next line. LF ends it; the last line may lack it.
    pub(crate) fn read_line<F: Feed>(&mut self, feed: &mut F) -> Result<Found, ReadFailed>
        ensures found { IfOk result (λ found. IfSome (F.remaining feed.old) (λ bytes. (left : List ℕ)
            × (F.remaining feed.new ≡ Some left)
            × IsFound found self.new.held.items (ahead self.old ++ bytes) (ahead self.new ++ left))) }
        ensures failed { OnErr result ((ahead self.new ≡ []) × IfSome (F.remaining feed.old) (λ bytes. (left : List ℕ)
            × (F.remaining feed.new ≡ Some left) × IsBegun (ahead self.old ++ bytes) left)) }
        ensures gave { Gives (F.remaining feed.old) (F.remaining feed.new) }
        ensures count { CountsFailure result (F.failure_count feed.old) (F.failure_count feed.new) }
        ensures end { IfOk result (λ found. found ≡ End → IsAtEnd (F.remaining feed.new)) }
    {
        self.held.clear();
        'pieces: loop {
            if !self.has_more(feed)? {
                return Ok(self.found_at_end());
            }
            match self.take() {
                Ok(true) => return Ok(Found::Line),
                Ok(false) => {}
                Err(_) => return Ok(Found::Long),
            }
        }
    }

    // Reads more if nothing is ahead, and answers whether something is ahead now.
    fn has_more<F: Feed>(&mut self, feed: &mut F) -> Result<bool, ReadFailed>
        ensures ahead { IfOk result (λ has. IfSome (F.remaining feed.old)
            (IsAhead has (ahead self.old) (ahead self.new) (F.remaining feed.new))) }
        ensures some { IfOk result (λ has. has ≡ true → 0 < length (ahead self.new)) }
        ensures held { self.new.held ≡ self.old.held }
        ensures gave { Gives (F.remaining feed.old) (F.remaining feed.new) }
        ensures count { CountsFailure result (F.failure_count feed.old) (F.failure_count feed.new) }
        ensures refused { OnErr result ((ahead self.old ≡ []) × (ahead self.new ≡ [])
            × (F.remaining feed.new ≡ F.remaining feed.old)) }
        ensures end { IfOk result (λ has. has ≡ false → IsAtEnd (F.remaining feed.new)) }
    {
        if self.start < self.end {
            return Ok(true);
        }
        let count = feed.read(&mut self.buffer)?;
        self.start = 0;
        self.end = count;
        Ok(count > 0)
    }

    // What was found when the feed has ended.
    fn found_at_end(&self) -> Found
        requires { HasNo 10 self.now.held.items }
        ensures { IsFound result self.now.held.items self.now.held.items [] }
    {
        if self.held.is_empty() {
            Found::End
        } else {
            Found::Line
        }
    }

    // Holds what is ahead up to its first LF, without that LF, and answers whether there was one.
    fn take(&mut self) -> Result<bool, PartFault>
        requires { array_vec_len self.old.held ≤ 256 }
        ensures line { TakesLine self.old.held.items (ahead self.old) self.new.held.items (ahead self.new) result }
        ensures bound { OnOk result (array_vec_len self.new.held ≤ 256) }
        ensures forth { IfOk result (λ ended. ended ≡ false → array_vec_len self.new.held
            ≡ array_vec_len self.old.held + length (ahead self.old)) }
        ensures refused { OnErr result (self.new ≡ self.old) }
    {
        let (_, ahead) = self.buffer[..self.end].split_at(self.start);
        let Some((front, _)) = split_at_byte(ahead, b'\n') else {
            hold(ahead, &mut self.held)?;
            self.start = self.end;
            return Ok(false);
        };
        let start = self.start + front.len() + 1;
        hold(front, &mut self.held)?;
        self.start = start;
        Ok(true)
    }
}
