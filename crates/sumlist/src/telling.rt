// Lists read beside a report on them.

ghost use Rattle.std.specs.Prelude.{◌≡◌, ◌-◌, ◌<◌, ◌^◌, ℕ, IfSome, IsErrOf, List, OnOk, length, option_map};
ghost use Rattle.std.specs.Io.KnownBytes.{Consumes, IsAtEnd};
ghost use Rattle.sumlist.specs.Checked.{CountsOnly};
ghost use Rattle.sumlist.specs.declared.telling.TellFault.TheVariants.{OutOfMemory, ReportRead};
ghost use Rattle.sumlist.specs.Lines.{IsKept};
ghost use Rattle.sumlist.specs.inside.Marks.{part};
ghost use Rattle.sumlist.specs.inside.Stepped.{meaning_of};
ghost use Rattle.sumlist.specs.inside.Telling.{ListBeside, TellCounts, Tells, left, of_list};

use crate::line_reader::LineReader;
use crate::report_reader::ReportReader;
use crate::summary::Mark;
use crate::{Entries, Line, LineFault, MakesTag, Summary};
use source::{Feed, ReadFailed, SourceFault};
use std::alloc::{AllocError, Global};

/// Why a list was not read to its end.
#[derive(Clone, Copy, Debug, PartialEq, Eq, Drop)]
pub enum TellFault {
    /// A read of the list failed.
    ListRead,
    /// The list gave more than 2^64 - 1 bytes.
    ListTooLong,
    /// A read of the report failed.
    ReportRead,
    /// The report has more than 2^64 - 1 lines.
    ReportTooLong,
    /// The next line of the report is not that of the next entry.
    OtherLine,
    /// A growth was refused.
    OutOfMemory,
}

impl TellFault {
    // The fault of a list that was not read to its end.
    fn of_list(fault: SourceFault) -> TellFault
        ensures { result ≡ of_list fault }
    {
        match fault {
            SourceFault::Read => TellFault::ListRead,
            SourceFault::TooLong => TellFault::ListTooLong,
        }
    }
}

impl From<ReadFailed> for TellFault {
    ghost from_gives = { λ _ fault. fault ≡ ReportRead };

    fn from(_failed: ReadFailed) -> TellFault {
        TellFault::ReportRead
    }
}

/// Sums up a list by the lines that a report has of it, which come next there, and opens no file. `lines` counts those
/// lines: after `OtherLine` it is the number of those before the line that is none of this list.
pub fn tell_list<L: Feed, M: MakesTag, F: Feed>(
    alloc: Global,
    list: &mut L,
    entries: &Entries<'_, M>,
    name: Option<&str>,
    report: &mut ReportReader<'_, F>,
    lines: &mut u64,
) -> Result<Summary, TellFault>
    ensures told { IfSome (L.remaining list.old) (λ bytes. IfSome (left F.remaining report.old) (λ text.
        ListBeside (meaning_of M.limit M.makes entries.now) (option_map (λ n. n.now) name.entry) bytes text lines.old
        lines.new (left F.remaining report.new) result)) }
    ensures end { OnOk result (IsAtEnd (L.remaining list.new)) }
    ensures gave { IfSome (L.remaining list.old) (λ _. (given : List ℕ)
        × Consumes (L.remaining list.old) (L.remaining list.new) given
        × (IsErrOf result TellFault.ListTooLong → 2 ^ 64 - 1 < length given)) }
    ensures reads { CountsOnly TellFault.ListRead result (L.failure_count list.old) (L.failure_count list.new) }
    ensures report_reads { CountsOnly TellFault.ReportRead result (F.failure_count report.old.feed.now)
        (F.failure_count report.new.feed.now) }
    ensures same { report.new.feed.ghost_name ≡ report.old.feed.ghost_name }
{
    let mut reader = LineReader::new(alloc).map_err(|_| TellFault::OutOfMemory)?;
    let mut summary = Summary::default();
    let mut number: u64 = 0;
    while reader.next(b'\n', list).map_err(TellFault::of_list)? {
        number += 1;
        let mark = tell_line(alloc, reader.line(), entries, name, number, report)?;
        let more = lines.checked_add(line_count(mark));
        *lines = more.ok_or(TellFault::ReportTooLong)?;
        summary.count(mark);
    }
    Ok(summary)
}

// How many lines a report has of a line with this mark.
fn line_count(mark: Mark) -> u64
    ensures { result ≡ 1 - part Mark.Skipped mark }
{
    if mark == Mark::Skipped { 0 } else { 1 }
}

// What became of a line, by the report. A line that was not kept is too long.
fn tell_line<M: MakesTag, F: Feed>(
    alloc: Global,
    line: Option<&[u8]>,
    entries: &Entries<'_, M>,
    name: Option<&str>,
    number: u64,
    report: &mut ReportReader<'_, F>,
) -> Result<Mark, TellFault>
    ensures told { (whole : List ℕ) → IsKept (option_map (λ l. l.now) line.entry) whole
        → IfSome (left F.remaining report.old) (λ bytes. Tells (meaning_of M.limit M.makes entries.now)
        (option_map (λ n. n.now) name.entry) whole number bytes (left F.remaining report.new) result) }
    ensures counted { TellCounts result (F.failure_count report.old.feed.now)
        (F.failure_count report.new.feed.now) }
    ensures same { report.new.feed.ghost_name ≡ report.old.feed.ghost_name }
{
    let Some(line) = line else {
        let came = report.take_malformed(name, number)?;
        return came.then_some(Mark::Malformed).ok_or(TellFault::OtherLine);
    };
    match entries.read(alloc, line) {
        Ok(Line::Skipped) => Ok(Mark::Skipped),
        Ok(Line::Entry(entry)) => match report.take_verdict(entry.name())? {
            Some(verdict) => Ok(Mark::Told(verdict)),
            None => Err(TellFault::OtherLine),
        },
        Err(LineFault::Malformed) => {
            let came = report.take_malformed(name, number)?;
            came.then_some(entries.malformed_mark(line))
                .ok_or(TellFault::OtherLine)
        }
        Err(LineFault::OutOfMemory) => Err(TellFault::OutOfMemory),
    }
}
