// A list that is read in pieces, as plain numbers.

ghost use Rattle.std.specs.Prelude.{◌≡◌, ◌≢◌, ◌<◌, ◌≤◌, ◌+◌, ◌-◌, ◌^◌, ◌++◌, ◌↔◌, [], ℕ, List, Option, length};
ghost use Rattle.std.specs.Prelude.{IsTrue, IsErrOf, OnOk, OnErr, MatchResult};
ghost use Rattle.hashes.specs.declared.kind.Kind.{Kind};
ghost use Rattle.sumlist.specs.Lines.{IsKept};
ghost use Rattle.sumlist.specs.inside.Held.{held_after};
ghost use Rattle.listing.specs.Numbers.{number_of};
ghost use Rattle.listing.specs.Line.{KeepsEntry, Means};
ghost use Rattle.listing.specs.Read.{EndsLine, IsBegun, ReadsPiece};
ghost use Rattle.listing.specs.inside.State.{HoldsAfter, ListHolds, held};

use crate::line::{LINE_ENTRY, LINE_MALFORMED, LINE_NONE, LINE_SKIPPED, ListLine, read_line};
use crate::numbers::{kind_number, kind_numbered};
use sumlist::{Kind, LINE_LIMIT, split_at_byte};

// The most bytes that a line may have.
const MOST: u64 = 65_536;

/// Why a piece of a list was not read.
#[derive(Clone, Copy, Debug, PartialEq, Eq, Drop)]
pub enum ListFault {
    /// These numbers are not the state of a list.
    NotBegun,
    /// The list has more than 2^64 - 1 lines.
    TooLong,
}

/// A list that is read in pieces, as plain numbers of a fixed layout. Whatever this memory holds, a call
/// refuses it or takes it for some list, and reads nothing outside it. It holds no pointer and may be copied.
/// It is for the memory of one process, not a format: its fields can change.
#[repr(C)]
#[derive(Clone, Copy)]
pub struct ListState {
    // how many lines have ended
    lines: u64,
    // how many bytes of the next line are held, or a number above the limit of a line
    held: u64,
    // the number of the hash of untagged lines, plus one; 0 if the list was never begun
    mark: u64,
    line: [u8; 65536],
}

impl ListState {
    /// Zeros, which are the state of no list.
    pub fn zeros() -> ListState
        ensures { result.mark ≡ 0 }
    {
        ListState {
            lines: 0,
            held: 0,
            mark: 0,
            line: [0; 65536],
        }
    }

    /// Begins a list whose untagged lines have this kind. Without a kind they are malformed.
    pub fn begin(&mut self, kind: Option<Kind>)
        ensures { ListHolds self.new kind 0 [] }
    {
        self.lines = 0;
        self.held = 0;
        self.mark = 1 + u64::from(kind_number(kind));
    }

    /// Whether these numbers can be the state of a list.
    pub fn is_begun(&self) -> bool
        ensures { IsTrue result ↔ IsBegun self.now }
    {
        1 <= self.mark && self.mark <= 6
    }

    /// Reads the piece up to and including its first LF, and what the line that ends there means. Without LF
    /// it reads the whole piece, and no line has ended.
    pub fn read(&mut self, piece: &[u8], line: &mut ListLine) -> Result<(), ListFault>
        ensures read { OnOk result ((k : Option Kind) (n : ℕ) (b : List ℕ) → ListHolds self.old k n b
            → ReadsPiece k n b piece.now line.new) }
        ensures held { OnOk result ((k : Option Kind) (n : ℕ) (b : List ℕ) → ListHolds self.old k n b
            → HoldsAfter self.new k n b piece.now line.new) }
        ensures number { OnOk result (line.new.kind ≡ LINE_NONE → line.new.number ≡ line.old.number) }
        ensures entry { OnOk result (line.new.kind ≢ LINE_ENTRY → KeepsEntry line.old line.new) }
        ensures not_begun { IsErrOf result ListFault.NotBegun ↔ (IsBegun self.old → ⊥) }
        ensures too_long { IsErrOf result ListFault.TooLong
            ↔ (IsBegun self.old × (self.old.lines ≡ 2 ^ 64 - 1)) }
        ensures refused { OnErr result ((self.new ≡ self.old) × (line.new ≡ line.old)) }
    {
        self.takes_line()?;
        let Some((front, _)) = split_at_byte(piece, b'\n') else {
            self.keep(piece);
            line.kind = LINE_NONE;
            line.taken = piece.len() as u64;
            return Ok(());
        };
        line.taken = front.len() as u64 + 1;
        self.end_line(front, line);
        Ok(())
    }

    /// Ends the list: reads the last line, if no LF ended it. If the list goes on after that, it begins with
    /// a new line.
    pub fn end(&mut self, line: &mut ListLine) -> Result<(), ListFault>
        ensures none { OnOk result ((k : Option Kind) (n : ℕ) → ListHolds self.old k n []
            → (line.new.kind ≡ LINE_NONE) × ListHolds self.new k n []) }
        ensures line { OnOk result ((k : Option Kind) (n : ℕ) (b : List ℕ) → ListHolds self.old k n b → b ≢ []
            → EndsLine k n b line.new) }
        ensures next { OnOk result ((k : Option Kind) (n : ℕ) (b : List ℕ) → ListHolds self.old k n b → b ≢ []
            → ListHolds self.new k (n + 1) []) }
        ensures taken { OnOk result (line.new.taken ≡ 0) }
        ensures number { OnOk result (line.new.kind ≡ LINE_NONE → line.new.number ≡ line.old.number) }
        ensures entry { OnOk result (line.new.kind ≢ LINE_ENTRY → KeepsEntry line.old line.new) }
        ensures not_begun { IsErrOf result ListFault.NotBegun ↔ (IsBegun self.old → ⊥) }
        ensures too_long { IsErrOf result ListFault.TooLong
            ↔ (IsBegun self.old × (self.old.lines ≡ 2 ^ 64 - 1)) }
        ensures refused { OnErr result ((self.new ≡ self.old) × (line.new ≡ line.old)) }
    {
        self.takes_line()?;
        line.taken = 0;
        if self.held == 0 {
            line.kind = LINE_NONE;
            return Ok(());
        }
        self.end_line(&[], line);
        Ok(())
    }

    // Refuses numbers that are not the state of a list, and a list that can have no further line.
    fn takes_line(&self) -> Result<(), ListFault>
        ensures going { OnOk result (IsBegun self.now × (self.now.lines < 2 ^ 64 - 1)) }
        ensures not_begun { IsErrOf result ListFault.NotBegun ↔ (IsBegun self.now → ⊥) }
        ensures too_long { IsErrOf result ListFault.TooLong ↔ (IsBegun self.now × (self.now.lines ≡ 2 ^ 64 - 1)) }
    {
        if !self.is_begun() {
            return Err(ListFault::NotBegun);
        }
        if self.lines == u64::MAX {
            return Err(ListFault::TooLong);
        }
        Ok(())
    }

    // Ends the begun line with these bytes, and reads it.
    fn end_line(&mut self, front: &[u8], line: &mut ListLine)
        requires begun { IsBegun self.old }
        requires few { self.old.lines < 2 ^ 64 - 1 }
        ensures ended { (k : Option Kind) (n : ℕ) (b : List ℕ) → ListHolds self.old k n b
            → EndsLine k n (b ++ front.now) line.new }
        ensures next { (k : Option Kind) (n : ℕ) (b : List ℕ) → ListHolds self.old k n b
            → ListHolds self.new k (n + 1) [] }
        ensures taken { line.new.taken ≡ line.old.taken }
        ensures some { LINE_SKIPPED ≤ line.new.kind }
        ensures entry { line.new.kind ≢ LINE_ENTRY → KeepsEntry line.old line.new }
    {
        self.read_with(front, line);
        self.held = 0;
        self.lines += 1;
        line.number = self.lines;
    }

    // Reads the line that these bytes end.
    fn read_with(&mut self, front: &[u8], line: &mut ListLine)
        requires { IsBegun self.old }
        ensures means { (k : Option Kind) (b : List ℕ) → self.old.mark ≡ 1 + number_of k → IsKept (held self.old) b
            → Means (b ++ front.now) k line.new }
        ensures same { (self.new.mark ≡ self.old.mark) × (self.new.lines ≡ self.old.lines) }
        ensures taken { line.new.taken ≡ line.old.taken }
        ensures some { LINE_SKIPPED ≤ line.new.kind }
        ensures entry { line.new.kind ≢ LINE_ENTRY → KeepsEntry line.old line.new }
    {
        if self.held == 0 {
            read_line(front, self.kind(), line);
        } else {
            self.keep(front);
            self.read_held(line);
        }
    }

    // Reads the line that is held.
    fn read_held(&self, line: &mut ListLine)
        requires { IsBegun self.now }
        ensures means { (k : Option Kind) (b : List ℕ) → self.now.mark ≡ 1 + number_of k → IsKept (held self.now) b
            → Means b k line.new }
        ensures taken { line.new.taken ≡ line.old.taken }
        ensures some { LINE_SKIPPED ≤ line.new.kind }
        ensures entry { line.new.kind ≢ LINE_ENTRY → KeepsEntry line.old line.new }
    {
        if self.held > MOST {
            line.kind = LINE_MALFORMED;
        } else {
            read_line(&self.line[..self.held as usize], self.kind(), line);
        }
    }

    // The hash of the untagged lines.
    fn kind(&self) -> Option<Kind>
        requires { IsBegun self.now }
        ensures { self.now.mark ≡ 1 + number_of result }
    {
        kind_numbered((self.mark - 1) as u32).unwrap()
    }

    // Holds one more piece of the line.
    fn keep(&mut self, piece: &[u8])
        ensures held { held self.new ≡ held_after (held self.old) piece.now }
        ensures same { (self.new.mark ≡ self.old.mark) × (self.new.lines ≡ self.old.lines) }
    {
        if self.held > MOST {
            return;
        }
        let held = self.held as usize;
        if piece.len() > LINE_LIMIT - held {
            self.held = MOST + 1;
            return;
        }
        self.line[held..held + piece.len()].copy_from_slice(piece);
        self.held = (held + piece.len()) as u64;
    }
}
