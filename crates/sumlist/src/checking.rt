// Lists checked against the files that they name.

ghost use Rattle.std.specs.Prelude.{◌≡◌, ◌+◌, ◌-◌, ◌<◌, ◌≤◌, ◌^◌, ◌↔◌, ℕ, List};
ghost use Rattle.std.specs.Prelude.{length, None, Some, option_map, IfOk, IfSome, IsErrOf, MatchBool};
ghost use Rattle.std.specs.Prelude.{MatchResult, OnOk};
ghost use Rattle.std.specs.Io.KnownBytes.{Consumes, IsAtEnd};
ghost use Rattle.source.specs.Counts.{count_after};
ghost use Rattle.sumlist.specs.Checked.{CountsOnly, ListChecked};
ghost use Rattle.sumlist.specs.Line.{IsSkipped};
ghost use Rattle.sumlist.specs.Lines.{IsKept, lines};
ghost use Rattle.sumlist.specs.Report.{maker_of, unkeyed};
ghost use Rattle.sumlist.specs.inside.Stepped.{IsAllowed, LineChecked, LineShared, StepCounts, meaning_of};
ghost use Rattle.sumlist.specs.inside.Stepped.{stop_of};
ghost use Rattle.sumlist.specs.Tally.{entries_of};
ghost use Rattle.sumlist.specs.inside.Marks.{entry_by, part, unreadable_by};
ghost use Rattle.sumlist.specs.declared.checking.CheckFault.TheVariants.{OutOfMemory, Write};

use crate::line::is_skipped;
use crate::line_reader::LineReader;
use crate::report::{write_malformed, write_verdict};
use crate::summary::Mark;
use crate::verdict::{Verdict, check_entry};
use crate::{Entries, Entry, Kind, Line, LineFault, MakesTag, Share, Summary, Tree};
use source::{Feed, Sink, SourceFault, WriteFailed};
use std::alloc::{AllocError, Global};
use thiserror::Error;

/// Why a check ended before the end of its list. What was written is a beginning of the report.
#[derive(Clone, Copy, Debug, PartialEq, Eq, Drop, Error)]
pub enum CheckFault {
    /// A read of the list failed.
    #[error("cannot read the list")]
    ListRead,
    /// A write of the report failed.
    #[error("cannot write")]
    Write,
    /// A growth was refused: that of the buffer of a line, before anything was read or written, that
    /// of an entry's name, or one in opening a file.
    #[error("out of memory")]
    OutOfMemory,
    /// The list gave more than 2^64 - 1 bytes.
    #[error("the list is too long")]
    ListTooLong,
}

impl From<SourceFault> for CheckFault {
    ghost from_gives = { λ fault told. told ≡ stop_of fault };

    fn from(fault: SourceFault) -> CheckFault {
        match fault {
            SourceFault::Read => CheckFault::ListRead,
            SourceFault::TooLong => CheckFault::ListTooLong,
        }
    }
}

impl From<WriteFailed> for CheckFault {
    ghost from_gives = { λ _ fault. fault ≡ Write };

    fn from(_failed: WriteFailed) -> CheckFault {
        CheckFault::Write
    }
}

impl From<AllocError> for CheckFault {
    ghost from_gives = { λ _ fault. fault ≡ OutOfMemory };

    fn from(_error: AllocError) -> CheckFault {
        CheckFault::OutOfMemory
    }
}

/// Checks a list: reads it to its end, compares the file of each entry with the entry's tag, and
/// writes the report, which has a line for each line that is not skipped. Each line whose LF was read
/// is checked, and its report written, before the next read of the list. Of the list it keeps one read
/// of 4,096 bytes and one line of at most 65,536; a longer line is malformed.
///
/// `name: OK` is written only where the digest of the file's content is the tag, and `name:
/// UNREADABLE` exactly as often as opening or reading a file failed, which ends nothing. No more files
/// are opened than the list has lines, whatever ends the check, and where no fault does, no more than it
/// has entries.
pub fn check<L: Feed, T: Tree, W: Sink>(
    alloc: Global,
    list: &mut L,
    kind: Kind,
    tree: &mut T,
    out: &mut W,
) -> Result<Summary, CheckFault>
    ensures checked { IfSome (L.remaining list.old) (λ bytes. IfSome (T.files tree.old) (λ files.
        ListChecked files (unkeyed (Some kind)) None bytes
        (record { others = 0; waiting = 0 }) (record { others = 0; waiting = 0 }) result
        (T.failure_count tree.old) (T.failure_count tree.new)
        (W.shown out.old).contents (W.shown out.new).contents)) }
    ensures end { OnOk result (IsAtEnd (L.remaining list.new)) }

    // When each fault comes.
    ensures reads { CountsOnly CheckFault.ListRead result (L.failure_count list.old) (L.failure_count list.new) }
    ensures writes { CountsOnly CheckFault.Write result (W.shown out.old).failures (W.shown out.new).failures }
    ensures gave { IfSome (L.remaining list.old) (λ _. (given : List ℕ)
        × Consumes (L.remaining list.old) (L.remaining list.new) given
        × (IsErrOf result CheckFault.ListTooLong ↔ (2 ^ 64 - 1 < length given))) }

    // What is opened.
    ensures unreadable { IfOk result (λ s. T.failure_count tree.new
        ≡ count_after (T.failure_count tree.old) s.unreadable) }
    ensures opens { IfOk result (λ s. T.opens tree.new ≤ T.opens tree.old + entries_of s) }
    ensures once { IfSome (L.remaining list.old) (λ bytes.
        T.opens tree.new ≤ T.opens tree.old + length (lines bytes)) }
    ensures kept { T.files tree.new ≡ T.files tree.old }
{
    let entries: Entries<'_, Entry> = Entries::Digests(Some(kind));
    check_list(alloc, list, &entries, None, &mut Share::whole(), tree, out)
}

/// Checks a share of a list of any entries as `check` does: a line that is not skipped counts, and those of other
/// shares are passed over, and counted with the skipped ones. If the list is read to its end, the share goes on after
/// it; if not, it stays as it was. If a name of the list is given, the report has it in front of malformed lines:
/// `NAME: line N: MALFORMED`, the name in its escaped form.
pub fn check_list<L: Feed, M: MakesTag, T: Tree, W: Sink>(
    alloc: Global,
    list: &mut L,
    entries: &Entries<'_, M>,
    name: Option<&str>,
    share: &mut Share,
    tree: &mut T,
    out: &mut W,
) -> Result<Summary, CheckFault>
    ensures checked { IfSome (L.remaining list.old) (λ bytes. IfSome (T.files tree.old) (λ files.
        ListChecked files (meaning_of M.limit M.makes entries.now) (option_map (λ n. n.now) name.entry) bytes
        share.old share.new result
        (T.failure_count tree.old) (T.failure_count tree.new)
        (W.shown out.old).contents (W.shown out.new).contents)) }
    ensures unreadable { IfOk result (λ s. T.failure_count tree.new
        ≡ count_after (T.failure_count tree.old) s.unreadable) }
    ensures opens { IfOk result (λ s. T.opens tree.new ≤ T.opens tree.old + entries_of s) }
    ensures once { IfSome (L.remaining list.old) (λ bytes.
        T.opens tree.new ≤ T.opens tree.old + length (lines bytes)) }
    ensures kept { T.files tree.new ≡ T.files tree.old }

    ensures end { OnOk result (IsAtEnd (L.remaining list.new)) }

    // When each fault comes.
    ensures reads { CountsOnly CheckFault.ListRead result (L.failure_count list.old) (L.failure_count list.new) }
    ensures writes { CountsOnly CheckFault.Write result (W.shown out.old).failures (W.shown out.new).failures }
    ensures gave { IfSome (L.remaining list.old) (λ _. (given : List ℕ)
        × Consumes (L.remaining list.old) (L.remaining list.new) given
        × (IsErrOf result CheckFault.ListTooLong ↔ (2 ^ 64 - 1 < length given))) }
{
    let mut reader = LineReader::new(alloc)?;
    let mut summary = Summary::default();
    let mut number: u64 = 0;
    let mut checker = Checker {
        alloc,
        entries,
        name,
        share: *share,
    };
    while reader.next(b'\n', list)? {
        number += 1;
        let mark = checker.next_mark(reader.line(), number, tree, out)?;
        summary.count(mark);
    }
    *share = checker.share;
    Ok(summary)
}

// Whether a line is not skipped. One that was not kept is too long for that.
fn has_entry(line: Option<&[u8]>) -> bool
    ensures { (whole : List ℕ) → IsKept (option_map (λ l. l.now) line.entry) whole
        → MatchBool result (IsSkipped whole → ⊥) (IsSkipped whole) }
{
    match line {
        Some(line) => !is_skipped(line),
        None => true,
    }
}

// What the lines of a list are checked by.
#[derive(Drop)]
struct Checker<'e, 'k, 'n, M> {
    alloc: Global,
    entries: &'e Entries<'k, M>,
    name: Option<&'n str>,
    // which of the entries that are left are checked
    share: Share,
}

impl<'e, 'k, 'n, M: MakesTag> Checker<'e, 'k, 'n, M> {
    // What became of the line with this number: another share's is passed over as a skipped one is. A line that was not
    // kept is too long.
    fn next_mark<T: Tree, W: Sink>(
        &mut self,
        line: Option<&[u8]>,
        number: u64,
        tree: &mut T,
        out: &mut W,
    ) -> Result<Mark, CheckFault>
        ensures checked { IfSome (T.files tree.old) (λ files. (whole : List ℕ)
            → IsKept (option_map (λ l. l.now) line.entry) whole
            → LineShared files (meaning_of M.limit M.makes self.old.entries.now)
            (option_map (λ n. n.now) self.old.name) self.old.share self.new.share whole number result
            (T.failure_count tree.old) (T.failure_count tree.new)
            (W.shown out.old).contents (W.shown out.new).contents) }
        ensures unreadable { IfOk result (λ mark. T.failure_count tree.new
            ≡ count_after (T.failure_count tree.old) (part (Mark.Told Verdict.Unreadable) mark)) }
        ensures opens { IfOk result (λ mark. T.opens tree.new ≤ T.opens tree.old + entry_by mark) }
        ensures once { T.opens tree.new ≤ T.opens tree.old + 1 }
        ensures kept { (T.files tree.new ≡ T.files tree.old)
            × (self.new.entries ≡ self.old.entries) × (self.new.name ≡ self.old.name) }
        ensures writes { StepCounts result (W.shown out.old).failures (W.shown out.new).failures }
    {
        if !has_entry(line) {
            return Ok(Mark::Skipped);
        }
        if !self.share.takes_next() {
            return Ok(Mark::Skipped);
        }
        self.check(line, number, tree, out)
    }

    // Checks the line, and writes its part of the report.
    fn check<T: Tree, W: Sink>(
        &self,
        line: Option<&[u8]>,
        number: u64,
        tree: &mut T,
        out: &mut W,
    ) -> Result<Mark, CheckFault>
        ensures checked { IfSome (T.files tree.old) (λ files. (whole : List ℕ)
            → IsKept (option_map (λ l. l.now) line.entry) whole
            → LineChecked files (meaning_of M.limit M.makes self.now.entries.now)
            (option_map (λ n. n.now) self.now.name) whole number result
            (T.failure_count tree.old) (T.failure_count tree.new)
            (W.shown out.old).contents (W.shown out.new).contents) }
        ensures unreadable { IfOk result (λ mark. T.failure_count tree.new
            ≡ count_after (T.failure_count tree.old) (part (Mark.Told Verdict.Unreadable) mark)) }
        ensures opens { IfOk result (λ mark. T.opens tree.new ≤ T.opens tree.old + entry_by mark) }
        ensures once { T.opens tree.new ≤ T.opens tree.old + 1 }
        ensures kept { T.files tree.new ≡ T.files tree.old }
        ensures writes { StepCounts result (W.shown out.old).failures (W.shown out.new).failures }
    {
        let Some(line) = line else {
            write_malformed(self.name, number, out)?;
            return Ok(Mark::Malformed);
        };
        match self.entries.read(self.alloc, line) {
            Ok(Line::Skipped) => Ok(Mark::Skipped),
            Ok(Line::Entry(entry)) => {
                let verdict = self.check_entry(&entry, tree)?;
                write_verdict(entry.name(), verdict, out)?;
                Ok(Mark::Told(verdict))
            }
            Err(LineFault::Malformed) => {
                let mark = self.entries.malformed_mark(line);
                write_malformed(self.name, number, out)?;
                Ok(mark)
            }
            Err(LineFault::OutOfMemory) => Err(CheckFault::OutOfMemory),
        }
    }

    // The verdict on an entry.
    fn check_entry<T: Tree>(&self, entry: &Entry, tree: &mut T) -> Result<Verdict, AllocError>
        ensures verdict { IfSome (T.files tree.old) (λ files. IfOk result (IsAllowed
            (maker_of (meaning_of M.limit M.makes self.now.entries.now) entry.now) entry.now.tag
            (files entry.now.name))) }
        ensures counted { MatchResult result
            (λ v. T.failure_count tree.new ≡ count_after (T.failure_count tree.old) (unreadable_by v))
            (λ _. T.failure_count tree.new ≡ T.failure_count tree.old) }
        ensures opens { T.opens tree.new ≤ T.opens tree.old + 1 }
        ensures kept { T.files tree.new ≡ T.files tree.old }
    {
        match self.entries {
            Entries::Digests(_) => check_entry(entry, entry, tree),
            Entries::Tags(_, maker) => check_entry(entry, *maker, tree),
        }
    }
}
