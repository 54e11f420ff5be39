// A report that is read beside the lists that it is of.

ghost use Rattle.std.specs.Prelude.{◌≡◌, ◌<◌, ◌≤◌, ◌++◌, ◌∷◌, [], ℕ, IfOk, IfSome, List, None, Some, drop, length};
ghost use Rattle.std.specs.Prelude.{option_map, slice_index, true};
ghost use Rattle.source.specs.Counts.{CountsFailure};
ghost use Rattle.source.specs.Pumped.{joined};
ghost use Rattle.sumlist.specs.Escape.{escaped};
ghost use Rattle.sumlist.specs.Report.{malformed, text, verdict_text as verdict_text_of};

use crate::Verdict;
use crate::escaping::escape;
use crate::report::verdict_text;
use itoa::Buffer;
use source::{Feed, ReadFailed};

/// Reads a report line by line. It keeps one read of 4,096 bytes.
#[derive(Drop)]
pub struct ReportReader<'f, F> {
    feed: &'f mut F,
    buffer: [u8; 4096],
    // what has been read and is yet to be taken
    start: usize,
    end: usize,
    ghost order: { start ≤ end },
    ghost within: { end ≤ 4096 },
    ghost size: { length buffer ≡ 4096 },
}

impl<'f, F: Feed> ReportReader<'f, F> {
    ghost use Rattle.sumlist.specs.inside.Telling.{HasMore, Takes, TakesVerdict, left};

    /// No line yet, and nothing read.
    pub fn new(feed: &'f mut F) -> ReportReader<'f, F>
        ensures left { left F.remaining result ≡ F.remaining feed.entry.now }
        ensures counted { F.failure_count result.feed.now ≡ F.failure_count feed.entry.now }
        ensures same { result.feed.ghost_name ≡ feed.entry.ghost_name }
    {
        ReportReader {
            feed,
            buffer: [0; 4096],
            start: 0,
            end: 0,
        }
    }

    /// Whether something is left.
    pub fn has_more(&mut self) -> Result<bool, ReadFailed>
        ensures more { IfSome (left F.remaining self.old) (λ bytes.
            IfOk result (HasMore bytes (left F.remaining self.new))) }
        ensures ahead { IfOk result (λ more. more ≡ true → self.new.start < self.new.end) }
        ensures counted { CountsFailure result (F.failure_count self.old.feed.now) (F.failure_count self.new.feed.now) }
        ensures same { self.new.feed.ghost_name ≡ self.old.feed.ghost_name }
    {
        if self.start < self.end {
            return Ok(true);
        }
        let count = self.feed.read(&mut self.buffer)?;
        self.start = 0;
        self.end = count;
        Ok(count > 0)
    }

    // Takes the line of an entry of this name, and answers its verdict. If another line comes, a beginning of it is
    // taken that is alike.
    pub(crate) fn take_verdict(&mut self, name: &str) -> Result<Option<Verdict>, ReadFailed>
        ensures taken { IfSome (left F.remaining self.old) (λ bytes.
            IfOk result (TakesVerdict name.now bytes (left F.remaining self.new))) }
        ensures counted { CountsFailure result (F.failure_count self.old.feed.now) (F.failure_count self.new.feed.now) }
        ensures same { self.new.feed.ghost_name ≡ self.old.feed.ghost_name }
    {
        if !self.take_name(name)? {
            return Ok(None);
        }
        if !self.take(b": ")? {
            return Ok(None);
        }
        let Some(verdict) = self.verdict_ahead()? else {
            return Ok(None);
        };
        let (_, rest) = verdict_text(verdict).as_bytes().split_at(2);
        Ok(self.take(rest)?.then_some(verdict))
    }

    // Takes the line of a malformed line with this number, and answers whether it came.
    pub(crate) fn take_malformed(
        &mut self,
        list: Option<&str>,
        number: u64,
    ) -> Result<bool, ReadFailed>
        ensures taken { IfSome (left F.remaining self.old) (λ bytes. IfOk result
            (Takes (text (option_map (λ n. n.now) list.entry) number malformed) bytes (left F.remaining self.new))) }
        ensures counted { CountsFailure result (F.failure_count self.old.feed.now) (F.failure_count self.new.feed.now) }
        ensures same { self.new.feed.ghost_name ≡ self.old.feed.ghost_name }
    {
        let mut digits = Buffer::new();
        let digits = digits.format(number).as_bytes();
        let Some(name) = list else {
            return self.take_pieces(&[b"line ", digits, b": MALFORMED\n"]);
        };
        if !self.take_name(name)? {
            return Ok(false);
        }
        self.take_pieces(&[b": line ", digits, b": MALFORMED\n"])
    }

    // Takes the escaped form of a name, and answers whether it came.
    fn take_name(&mut self, name: &str) -> Result<bool, ReadFailed>
        ensures taken { IfSome (left F.remaining self.old) (λ bytes.
            IfOk result (Takes (escaped name.now) bytes (left F.remaining self.new))) }
        ensures counted { CountsFailure result (F.failure_count self.old.feed.now) (F.failure_count self.new.feed.now) }
        ensures same { self.new.feed.ghost_name ≡ self.old.feed.ghost_name }
    {
        for byte in name.as_bytes() {
            if !self.take(escape(byte))? {
                return Ok(false);
            }
        }
        Ok(true)
    }

    // The verdict whose text, without the first two bytes, begins what is left.
    fn verdict_ahead(&mut self) -> Result<Option<Verdict>, ReadFailed>
        ensures verdict { IfSome (left F.remaining self.old) (λ bytes. IfOk result (λ found.
            (left F.remaining self.new ≡ Some bytes) × ((v : Verdict) (rest : List ℕ)
            → bytes ≡ drop 2 (verdict_text_of v) ++ rest → found ≡ Some v))) }
        ensures counted { CountsFailure result (F.failure_count self.old.feed.now) (F.failure_count self.new.feed.now) }
        ensures same { self.new.feed.ghost_name ≡ self.old.feed.ghost_name }
    {
        if !self.has_more()? {
            return Ok(None);
        }
        Ok(verdict_of(self.buffer[self.start]))
    }

    // Takes these pieces, one after another, and answers whether they came.
    fn take_pieces(&mut self, pieces: &[&[u8]]) -> Result<bool, ReadFailed>
        ensures taken { IfSome (left F.remaining self.old) (λ bytes.
            IfOk result (Takes (joined pieces.now) bytes (left F.remaining self.new))) }
        ensures counted { CountsFailure result (F.failure_count self.old.feed.now) (F.failure_count self.new.feed.now) }
        ensures same { self.new.feed.ghost_name ≡ self.old.feed.ghost_name }
    {
        for piece in pieces {
            if !self.take(piece)? {
                return Ok(false);
            }
        }
        Ok(true)
    }

    // Takes a text, and answers whether it came.
    fn take(&mut self, text: &[u8]) -> Result<bool, ReadFailed>
        ensures taken { IfSome (left F.remaining self.old) (λ bytes.
            IfOk result (Takes text.now bytes (left F.remaining self.new))) }
        ensures counted { CountsFailure result (F.failure_count self.old.feed.now) (F.failure_count self.new.feed.now) }
        ensures same { self.new.feed.ghost_name ≡ self.old.feed.ghost_name }
    {
        for byte in text {
            if !self.take_byte(*byte)? {
                return Ok(false);
            }
        }
        Ok(true)
    }

    // Takes a byte, and answers whether it came.
    fn take_byte(&mut self, byte: u8) -> Result<bool, ReadFailed>
        ensures taken { IfSome (left F.remaining self.old) (λ bytes.
            IfOk result (Takes (byte ∷ []) bytes (left F.remaining self.new))) }
        ensures counted { CountsFailure result (F.failure_count self.old.feed.now) (F.failure_count self.new.feed.now) }
        ensures same { self.new.feed.ghost_name ≡ self.old.feed.ghost_name }
    {
        if !self.has_more()? {
            return Ok(false);
        }
        if self.buffer[self.start] != byte {
            return Ok(false);
        }
        self.start += 1;
        Ok(true)
    }
}

// The verdict whose text, without the first two bytes, begins with this byte.
fn verdict_of(byte: u8) -> Option<Verdict>
    ensures { (v : Verdict) → slice_index (verdict_text_of v) 2 ≡ byte → result ≡ Some v }
{
    match byte {
        b'O' => Some(Verdict::Matches),
        b'F' => Some(Verdict::Differs),
        b'M' => Some(Verdict::Missing),
        b'U' => Some(Verdict::Unreadable),
        b'T' => Some(Verdict::TooLong),
        _ => None,
    }
}
