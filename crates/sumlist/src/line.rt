// Lines as they are read.

ghost use Rattle.std.specs.Prelude.{◌≡◌, ◌≤◌, ◌↔◌, ℕ, List, Some, length, IsTrue, MatchOption};
ghost use Rattle.sumlist.specs.Entry.{Listing};
ghost use Rattle.sumlist.specs.inside.Body.{name_of};
ghost use Rattle.sumlist.specs.inside.Reading.{IsStated, is_slashed, unslashed};
ghost use Rattle.sumlist.specs.Line.{IsLine, IsMalformed, IsSkipped, IsUntagged, core as core_of};
ghost use Rattle.sumlist.specs.Parsed.{Answers};
ghost use Rattle.sumlist.specs.inside.Looks.{IsUntaggedOf};
ghost use Rattle.sumlist.specs.inside.Said.{IsSaid};
ghost use Rattle.sumlist.specs.declared.line.LineFault.TheVariants.{OutOfMemory};

use crate::body::{NameText, build_name, name_text};
use crate::fields::split_text;
use crate::fitting::LINE_LIMIT;
use crate::{Entry, Kind};
use source::Alg;
use std::alloc::Global;
use thiserror::Error;
use words::Tag;

/// What a line states.
#[derive(Drop)]
pub enum Line {
    /// Nothing: the line is empty or a comment, which begins with `#`.
    Skipped,
    /// That a file has a digest.
    Entry(Entry),
}

/// What a line states, with the name as it is written there.
#[derive(Drop)]
pub enum Said<'a> {
    /// Nothing: the line is empty or a comment.
    Skipped,
    /// The line is not skipped, and spells no entry.
    Malformed,
    /// The line is malformed only because its kind is missing: with another kind it would spell an entry.
    Untagged,
    /// That a file has a digest.
    Entry(Alg, Tag, NameText<'a>),
}

/// Why a line states nothing.
#[derive(Clone, Copy, Debug, PartialEq, Eq, Drop, Error)]
pub enum LineFault {
    /// The line is not skipped, and spells no entry.
    #[error("malformed line")]
    Malformed,
    /// A growth for the name was refused.
    #[error("out of memory")]
    OutOfMemory,
}

/// Reads one line of a list, handed in without its LF; one CR at its end is ignored. It has at most 65,536
/// bytes, and one of two forms:
///
/// - the digits of a digest, a space, a space or `*`, and the name; the number of digits and the kind
///   determine the algorithm;
/// - `LABEL (name) = digits`; the label determines the algorithm, whatever the kind is.
///
/// If the line begins with a backslash, `\\`, `\n` and `\r` in its name stand for a backslash, LF and CR,
/// and any other backslash is malformed. Only the name of an entry takes memory.
pub fn parse_line(alloc: Global, line: &[u8], kind: Kind) -> Result<Line, LineFault>
    ensures { Answers line.now (Some kind) result }
{
    read_line(alloc, line, Some(kind))
}

/// Reads one line as `parse_line` does, but builds no name, so it takes no memory. Without a kind, untagged
/// lines are malformed.
pub fn split_line(line: &[u8], kind: Option<Kind>) -> Said<'_>
    ensures { IsSaid line.now kind result }
{
    if is_skipped(line) {
        return Said::Skipped;
    }
    if !is_line(line) {
        return Said::Malformed;
    }
    match read_core(without_cr(line), kind) {
        Some((alg, tag, name)) => Said::Entry(alg, tag, name),
        None if untagged_len(line, kind).is_some() => Said::Untagged,
        None => Said::Malformed,
    }
}

/// Reads one line in this way, in a list whose untagged lines have this kind; without a kind they are
/// malformed.
pub(crate) fn read_line(alloc: Global, line: &[u8], kind: Option<Kind>) -> Result<Line, LineFault>
    ensures { Answers line.now kind result }
{
    match split_line(line, kind) {
        Said::Skipped => Ok(Line::Skipped),
        Said::Malformed | Said::Untagged => Err(LineFault::Malformed),
        Said::Entry(alg, tag, given) => {
            let name = build_name(alloc, given).map_err(|_| LineFault::OutOfMemory)?;
            Ok(Line::Entry(Entry::from_parts(name, alg, tag)))
        }
    }
}

// How many bytes the digest has of a malformed line that is so only for want of its kind: of some other kind it would
// spell an entry.
pub(crate) fn untagged_len(line: &[u8], kind: Option<Kind>) -> Option<u8>
    requires malformed { IsMalformed line.now kind }
    requires line { IsLine line.now }
    ensures { MatchOption result (IsUntagged line.now kind → ⊥) (IsUntaggedOf line.now) }
{
    // BLAKE2b has digests of each length that those of another kind have
    let (_, tag, _) = read_core(without_cr(line), Some(Kind::Blake2b))?;
    Some(tag.bytes().len() as u8)
}

pub(crate) fn is_line(line: &[u8]) -> bool
    ensures { IsTrue result ↔ IsLine line.now }
{
    line.len() <= LINE_LIMIT && !line.contains(&b'\n')
}

// Whether a line is empty or a comment.
pub(crate) fn is_skipped(line: &[u8]) -> bool
    ensures { IsTrue result ↔ IsSkipped line.now }
{
    let core = without_cr(line);
    (core.is_empty() || core[0] == b'#') && is_line(line)
}

fn without_cr(line: &[u8]) -> &[u8]
    ensures { result.now ≡ core_of line.now }
{
    match line.split_last() {
        Some((b'\r', front)) => front,
        _ => line,
    }
}

// The algorithm and tag of the entry that a core states, and the text that stands for its name.
fn read_core(core: &[u8], kind: Option<Kind>) -> Option<(Alg, Tag, NameText<'_>)>
    requires { length core.now ≤ LINE_LIMIT }
    ensures { MatchOption result ((e : Listing) → IsStated kind core.now e → ⊥)
        (λ p. (name : List ℕ) × IsStated kind core.now record { name = name; alg = p.0; tag = p.1 }
        × (name_of p.2.is_escaped p.2.text.now ≡ Some name)) }
{
    let (is_escaped, text) = unslash(core);
    let (alg, tag, body) = split_text(text, kind)?;
    let given = name_text(body, is_escaped, 2 * tag.bytes().len())?;
    Some((alg, tag, given))
}

// Whether a core begins with the backslash of escaped lines, and the text without that backslash.
fn unslash(core: &[u8]) -> (bool, &[u8])
    ensures core { (result.0 ≡ is_slashed core.now) × (result.1.now ≡ unslashed core.now) }
    ensures bound { length result.1.now ≤ length core.now }
{
    match core.split_first() {
        Some((b'\\', rest)) => (true, rest),
        _ => (false, core),
    }
}
