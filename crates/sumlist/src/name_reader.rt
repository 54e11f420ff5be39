// Names that are separated by NUL, one after another.

ghost use Rattle.std.specs.Io.KnownBytes.{Consumes};
ghost use Rattle.std.specs.Prelude.{◌≡◌, ◌≢◌, ◌≤◌, ◌<◌, ◌↔◌, ◌++◌, ◌-◌, ◌^◌, List, ℕ, [], length, IfOk, IfSome};
ghost use Rattle.std.specs.Prelude.{Err, IsErrOf, IsUtf8, MatchOption, None, Some};
ghost use Rattle.std.specs.Result.{result_err};
ghost use Rattle.source.specs.Faults.{PumpCounts};
ghost use Rattle.sumlist.specs.Naming.{IsNextName};

use crate::line_reader::LineReader;
use source::{Feed, SourceFault};
use std::alloc::{AllocError, Global};
use std::marker::Model;

/// Names that are separated by NUL, as `find -print0` writes them, read one by one. It keeps one read of
/// 4,096 bytes, and at most 65,536 bytes of a name, whatever comes.
#[derive(Drop)]
pub struct NameReader {
    lines: LineReader,
    // the first fault, which is also the last
    fault: Option<SourceFault>,
}

impl Model for NameReader {
    ghost use Rattle.sumlist.specs.Naming.{Reading};
    ghost use Rattle.sumlist.specs.inside.ReaderView.{seen};

    ghost Value = { Reading };

    ghost view = { seen };
}

impl NameReader {
    /// No name yet, and nothing read. Memory grows only here.
    pub fn new(alloc: Global) -> Result<NameReader, AllocError>
        ensures { IfOk result (λ reader. reader ≡ record { ahead = []; name = Some []; fault = None }) }
    {
        Ok(NameReader {
            lines: LineReader::new(alloc)?,
            fault: None,
        })
    }

    /// Reads the next name, and answers whether there was one; the last name needs no NUL after it. A name
    /// longer than 65,536 bytes is skipped, and not kept. `TooLong` comes exactly if more than 2^64 - 1 bytes
    /// were read for one name. A fault is final: each further call answers it again, and reads nothing.
    pub fn next<F: Feed>(&mut self, feed: &mut F) -> Result<bool, SourceFault>
        ensures name { IfOk result (λ found. IfSome (F.remaining feed.old) (λ bytes.
            (left : List ℕ) × (F.remaining feed.new ≡ Some left)
            × IsNextName found self.new.name (self.old.ahead ++ bytes) (self.new.ahead ++ left))) }
        ensures fault { self.new.fault ≡ result_err result }
        ensures again { IfSome self.old.fault (λ fault. (result ≡ Err fault) × (self.new ≡ self.old)
            × (feed.new ≡ feed.old)) }

        // When a fault first comes.
        ensures too_long { self.old.fault ≡ None → IsErrOf result SourceFault.TooLong
            → IfSome (F.remaining feed.old) (λ bytes. 2 ^ 64 - 1 < length (self.old.ahead ++ bytes)) }
        ensures gave { self.old.fault ≡ None → IfSome (F.remaining feed.old) (λ _. (given : List ℕ)
            × Consumes (F.remaining feed.old) (F.remaining feed.new) given
            × (IsErrOf result SourceFault.TooLong ↔ (2 ^ 64 - 1 < length (self.old.ahead ++ given)))) }
        ensures count { self.old.fault ≡ None
            → PumpCounts result (F.failure_count feed.old) (F.failure_count feed.new) }
    {
        if let Some(fault) = self.fault {
            return Err(fault);
        }
        self.lines.count_anew();
        let found = self.lines.next(0, feed);
        self.fault = found.err();
        found
    }

    /// The name that was read last, unless it is empty, longer than 65,536 bytes or not UTF-8.
    pub fn name(&self) -> Option<&str>
        ensures { MatchOption result
            ((name : List ℕ) → self.now.name ≡ Some name → IsUtf8 name → name ≡ [])
            (λ name. (self.now.name ≡ Some name.now) × (name.now ≢ [])) }
    {
        let bytes = self.lines.line()?;
        if bytes.is_empty() {
            return None;
        }
        str::from_utf8(bytes).ok()
    }
}
