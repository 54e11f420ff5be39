// A line of a list, and a list.

use crate::calls::Lack;
use crate::files::files;
use source::{Bytes, Sink, VecSink, write_all};
use std::alloc::Global;
use sumlist::{CheckFault, Kind, Line, LineFault, MemoryTree, check, parse_line, write_entry};

/// Writes what the line means: the entry's own line, or the line's kind.
pub(crate) fn parse<W: Sink>(alloc: Global, line: &[u8], out: &mut W) -> Result<u8, Lack> {
    match parse_line(alloc, line, Kind::Sha256) {
        Ok(Line::Entry(entry)) => {
            write_entry(&entry, out)?;
            Ok(0)
        }
        Ok(Line::Skipped) => write_word(b"skipped\n", out),
        Err(LineFault::Malformed) => write_word(b"malformed\n", out),
        Err(LineFault::OutOfMemory) => Err(Lack::Memory),
    }
}

fn write_word<W: Sink>(word: &[u8], out: &mut W) -> Result<u8, Lack> {
    write_all(out, word)?;
    Ok(0)
}

/// The report on the list.
pub(crate) fn check_into<W: Sink>(alloc: Global, list: &[u8], out: &mut W) -> Result<u8, Lack> {
    let files = files(alloc)?;
    let mut tree = MemoryTree::new(&files, 4096);
    let mut feed = Bytes::new(list, 7);
    match check(alloc, &mut feed, Kind::Sha256, &mut tree, out) {
        Ok(_) => Ok(0),
        Err(CheckFault::OutOfMemory) => Err(Lack::Memory),
        Err(CheckFault::Write) => Err(Lack::Output),
        Err(_) => Err(Lack::Other),
    }
}

/// The report on the list, by way of a buffer that grows with it.
pub(crate) fn check_growing<W: Sink>(alloc: Global, list: &[u8], out: &mut W) -> Result<u8, Lack> {
    let mut report = VecSink::new(alloc);
    let answer = check_into(alloc, list, &mut report);
    write_all(out, report.written())?;
    answer
}
