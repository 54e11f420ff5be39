// Lines of a feed, one after another, each ended by a byte of the caller's: LF, or NUL between names.

ghost use Rattle.std.specs.Io.KnownBytes.{Consumes, IsAtEnd};
ghost use Rattle.std.specs.Prelude.{◌≡◌, ◌+◌, ◌-◌, ◌<◌, ◌≤◌, ◌^◌, ◌↔◌, ◌++◌, ℕ, List, Option, Some, None, true, false};
ghost use Rattle.std.specs.Prelude.{IfOk, IfSome, IsErrOf, IsTrue, MatchOption, OnOk, [], length};
ghost use Rattle.source.specs.Faults.{PumpCounts};
ghost use Rattle.sumlist.specs.inside.Taking.{IsNextPiece, IsTaken, none_taken};

use crate::line_buffer::LineBuffer;
use crate::lines::split_at_byte;
use source::{Feed, SourceFault};
use std::alloc::{AllocError, Global};
use std::marker::Model;

// Keeps one read of 4,096 bytes, and at most 65,536 bytes of a line, whatever comes. A line that came in one
// read is not copied.
#[derive(Drop)]
pub(crate) struct LineReader {
    buffer: [u8; 4096],
    // what is read and yet to be taken
    start: usize,
    end: usize,
    // where the last line lies, if it is whole in the buffer
    is_whole: bool,
    from: usize,
    len: usize,
    // what is kept of the line otherwise
    held: LineBuffer,
    // how many bytes were read
    total: u64,
    is_at_end: bool,
    ghost order: { start ≤ end },
    ghost within: { end ≤ 4096 },
    ghost size: { length buffer ≡ 4096 },
    ghost range: { total < 2 ^ 64 },
    ghost lies: { is_whole ≡ true → from + len ≤ end },
}

impl Model for LineReader {
    ghost use Rattle.sumlist.specs.inside.Taking.{Cutting};
    ghost use Rattle.sumlist.specs.inside.LineView.{seen};

    ghost Value = { Cutting };

    ghost view = { seen };
}

impl LineReader {
    // No line yet, and nothing read. Memory grows only here.
    pub(crate) fn new(alloc: Global) -> Result<LineReader, AllocError>
        ensures { IfOk result (λ reader. reader ≡ none_taken) }
    {
        Ok(LineReader {
            buffer: [0; 4096],
            start: 0,
            end: 0,
            is_whole: false,
            from: 0,
            len: 0,
            held: LineBuffer::new(alloc)?,
            total: 0,
            is_at_end: false,
        })
    }

    // Restarts the count of bytes read at those that are ahead, and asks the feed again after its end.
    pub(crate) fn count_anew(&mut self)
        ensures ahead { self.new.ahead ≡ self.old.ahead }
        ensures kept { self.new.kept ≡ self.old.kept }
        ensures total { self.new.total ≡ length self.old.ahead }
        ensures going { self.new.is_at_end ≡ false }
    {
        self.is_at_end = false;
        self.total = (self.end - self.start) as u64;
    }

    // Reads the next line that ends at this byte, and answers whether there was one; the last line may lack
    // the byte. A line longer than 65,536 bytes is skipped, and not kept. After its end the feed is not read
    // again. `TooLong` comes exactly if the count of bytes read exceeds 2^64 - 1.
    pub(crate) fn next<F: Feed>(&mut self, end: u8, feed: &mut F) -> Result<bool, SourceFault>
        requires { self.old.is_at_end ≡ true → (self.old.ahead ≡ []) × IsAtEnd (F.remaining feed.old) }
        ensures line { IfOk result (λ found. IfSome (F.remaining feed.old) (λ bytes.
            (left : List ℕ) × (F.remaining feed.new ≡ Some left)
            × IsNextPiece end found self.new.kept (self.old.ahead ++ bytes) (self.new.ahead ++ left))) }
        ensures forth { IfOk result (λ found. found ≡ true
            → self.old.total + length self.new.ahead < self.new.total + length self.old.ahead) }
        ensures last { IfOk result (λ found. found ≡ false → self.new.is_at_end ≡ true) }
        ensures end { OnOk result (self.new.is_at_end ≡ true
            → (self.new.ahead ≡ []) × IsAtEnd (F.remaining feed.new)) }
        ensures gave { (given : List ℕ) × Consumes (F.remaining feed.old) (F.remaining feed.new) given
            × (IsErrOf result SourceFault.TooLong ↔ (2 ^ 64 - 1 < self.old.total + length given))
            × OnOk result (self.new.total ≡ self.old.total + length given) }
        ensures count { PumpCounts result (F.failure_count feed.old) (F.failure_count feed.new) }
    {
        if self.is_at_end {
            return Ok(false);
        }
        self.held.clear();
        self.is_whole = false;
        'lines: loop {
            if self.take(end) {
                return Ok(true);
            }
            if !self.fill(feed)? {
                return Ok(!self.is_empty());
            }
        }
    }

    // Reads more if nothing is ahead, and answers whether there was more.
    fn fill<F: Feed>(&mut self, feed: &mut F) -> Result<bool, SourceFault>
        requires { self.old.is_whole ≡ false }
        ensures kept { (self.new.kept ≡ self.old.kept) × (self.new.is_whole ≡ false) }
        ensures gave { (given : List ℕ) × Consumes (F.remaining feed.old) (F.remaining feed.new) given
            × (IsErrOf result SourceFault.TooLong ↔ (2 ^ 64 - 1 < self.old.total + length given))
            × IfOk result (λ more. (self.new.total ≡ self.old.total + length given)
            × (self.new.ahead ≡ given) × (more ≡ true → (0 < length given) × (self.new.is_at_end ≡ false))
            × (more ≡ false → (given ≡ []) × IsAtEnd (F.remaining feed.new) × (self.new.is_at_end ≡ true))) }
        ensures count { PumpCounts result (F.failure_count feed.old) (F.failure_count feed.new) }
    {
        let read = feed.read(&mut self.buffer);
        let count = read.map_err(|_| SourceFault::Read)?;
        self.start = 0;
        self.end = count;
        self.is_at_end = count == 0;
        let total = self.total.checked_add(count as u64);
        self.total = total.ok_or(SourceFault::TooLong)?;
        Ok(count != 0)
    }

    // The line that was read last, unless it is longer than 65,536 bytes.
    pub(crate) fn line(&self) -> Option<&[u8]>
        ensures { MatchOption result (self.now.kept ≡ None) (λ line. self.now.kept ≡ Some line.now) }
    {
        if !self.is_whole {
            return self.held.line();
        }
        let (_, read) = self.buffer[..self.end].split_at(self.from);
        Some(&read[..self.len])
    }

    // Whether the line that was read last has no bytes.
    fn is_empty(&self) -> bool
        ensures { IsTrue result ↔ (self.now.kept ≡ Some []) }
    {
        self.line().is_some_and(|line| line.is_empty())
    }

    // Takes what is ahead up to and including the first byte of this value, or all if there is none.
    fn take(&mut self, end: u8) -> bool
        requires { self.old.is_whole ≡ false }
        ensures { IsTaken end result self.old self.new }
    {
        let (_, ahead) = self.buffer[..self.end].split_at(self.start);
        let Some((line, _)) = split_at_byte(ahead, end) else {
            self.held.append(ahead);
            self.start = self.end;
            return false;
        };
        let start = self.start;
        self.start += line.len() + 1;
        if !self.held.is_empty() {
            self.held.append(line);
            return true;
        }
        self.is_whole = true;
        self.from = start;
        self.len = line.len();
        true
    }
}
