// Lines that are written into the caller's memory.

ghost use Rattle.std.specs.Prelude.{◌≡◌, ◌≤◌, ◌+◌, ◌*◌, ◌++◌, length, take, IsTrue, MatchOption, IsUtf8};
ghost use Rattle.hashes.specs.Digest.{IsInRange};
ghost use Rattle.source.specs.Pumped.{joined};
ghost use Rattle.sumlist.specs.Entry.{IsSized};
ghost use Rattle.sumlist.specs.Escape.{escaped};
ghost use Rattle.sumlist.specs.Filled.{HasLine, line_text};
ghost use Rattle.sumlist.specs.inside.Filling.{FillsEntry, line_len};
ghost use Rattle.sumlist.specs.Lines.{line_limit};
ghost use Rattle.sumlist.specs.Report.{verdict_text as verdict_text_of};

use crate::Verdict;
use crate::escaping::{escape, escaped_len, lead, plain_len};
use crate::fitting::{LINE_LIMIT, fits, label_len, tagged_fits};
use crate::labels::label;
use crate::report::verdict_text;
use crate::writing::tag_digits;
use itoa::Buffer;
use source::Alg;
use thiserror::Error;
use words::Tag;

/// The length in bytes of the line of an entry with this algorithm and name, tagged or not, with its LF, or
/// `None` if there is no such line: the name is not UTF-8, is empty, holds NUL, or is too long.
pub fn entry_len(alg: Alg, is_tagged: bool, name: &[u8]) -> Option<usize>
    requires { IsInRange alg }
    ensures { MatchOption result (HasLine is_tagged alg name.now → ⊥)
        (λ n. HasLine is_tagged alg name.now × (n ≡ line_len is_tagged alg name.now)) }
{
    let name = str::from_utf8(name).ok()?;
    if !fits(2 * alg.digest_len(), name) || is_tagged && !tagged_fits(alg, name) {
        return None;
    }
    Some(counted(alg, is_tagged, name))
}

// The sum of its parts.
fn counted(alg: Alg, is_tagged: bool, name: &str) -> usize
    requires range { IsInRange alg }
    requires small { length name.now ≤ line_limit }
    ensures { result ≡ line_len is_tagged alg name.now }
{
    let (front, digits) = (lead(name).len(), 2 * alg.digest_len());
    let name = escaped_len(name.as_bytes());
    if is_tagged {
        front + label_len(alg) + 2 + name + 4 + digits + 1
    } else {
        front + digits + 2 + name + 1
    }
}

/// Why a line was not written. Then nothing was.
#[derive(Clone, Copy, Debug, PartialEq, Eq, Drop, Error)]
pub enum FillFault {
    /// The tag is not as long as those of the algorithm.
    #[error("bad tag")]
    BadTag,
    /// The name has no such line.
    #[error("no line")]
    NoLine,
    /// The line is not as long as the memory for it.
    #[error("another length")]
    Length,
}

/// Fills `out` with the line of an entry with this algorithm, name and tag, tagged or not, and its LF.
pub fn fill_entry(
    alg: Alg,
    is_tagged: bool,
    name: &[u8],
    tag: &[u8],
    out: &mut [u8],
) -> Result<(), FillFault>
    requires { IsInRange alg }
    ensures { FillsEntry result alg is_tagged name.now tag.now out.old out.new }
{
    if tag.len() != alg.digest_len() {
        return Err(FillFault::BadTag);
    }
    let len = entry_len(alg, is_tagged, name).ok_or(FillFault::NoLine)?;
    if len != out.len() {
        return Err(FillFault::Length);
    }
    let (name, tag) = (str::from_utf8(name).unwrap(), Tag::of(tag).unwrap());
    fill_line(alg, is_tagged, name, &tag, out);
    Ok(())
}

// Fills `out` with such a line.
fn fill_line(alg: Alg, is_tagged: bool, name: &str, tag: &Tag, out: &mut [u8])
    requires sized { IsSized alg tag.now }
    requires room { length out.old ≡ line_len is_tagged alg name.now }
    ensures { out.new ≡ line_text is_tagged (record { name = name.now; alg = alg; tag = tag.now }) }
{
    let (mut room, mut number) = ([0; 128], Buffer::new());
    let (lead, digits) = (lead(name).as_bytes(), tag_digits(tag, &mut room));
    if is_tagged {
        let (front, bits) = label(alg, &mut number);
        fill_between(
            &[lead, front.as_bytes(), bits.as_bytes(), b" ("],
            name,
            &[b") = ", digits, b"\n"],
            out,
        );
    } else {
        fill_between(&[lead, digits, b"  "], name, &[b"\n"], out);
    }
}

/// The length in bytes of a report's line for this name and verdict, with its LF, or `None` if the name is
/// not UTF-8 or longer than a line may be.
pub fn verdict_len(name: &[u8], verdict: Verdict) -> Option<usize>
    ensures { MatchOption result (IsUtf8 name.now × (length name.now ≤ line_limit) → ⊥)
        (λ n. IsUtf8 name.now × (length name.now ≤ line_limit)
        × (n ≡ length (escaped name.now ++ verdict_text_of verdict))) }
{
    if name.len() > LINE_LIMIT || str::from_utf8(name).is_err() {
        return None;
    }
    Some(escaped_len(name) + verdict_text(verdict).len())
}

/// Fills `out` with a report's line for this name and verdict.
pub fn fill_verdict(name: &str, verdict: Verdict, out: &mut [u8])
    requires { length out.old ≡ length (escaped name.now ++ verdict_text_of verdict) }
    ensures { out.new ≡ escaped name.now ++ verdict_text_of verdict }
{
    fill_between(&[], name, &[verdict_text(verdict).as_bytes()], out);
}

// Fills `out` with the escaped form of a name between other pieces.
fn fill_between(before: &[&[u8]], name: &str, after: &[&[u8]], out: &mut [u8])
    requires { length out.old ≡ length (joined before.now ++ (escaped name.now ++ joined after.now)) }
    ensures { out.new ≡ joined before.now ++ (escaped name.now ++ joined after.now) }
{
    let at = put_pieces(out, 0, before);
    let at = put_escaped(out, at, name.as_bytes());
    put_pieces(out, at, after);
}

// Writes these bytes from a place on, and answers the place after them.
fn put(out: &mut [u8], at: usize, bytes: &[u8]) -> usize
    requires { at + length bytes.now ≤ length out.old }
    ensures end { result ≡ at + length bytes.now }
    ensures front { take result out.new ≡ take at out.old ++ bytes.now }
{
    let end = at + bytes.len();
    out[at..end].copy_from_slice(bytes);
    end
}

// Writes pieces in this way, one after another.
fn put_pieces(out: &mut [u8], at: usize, pieces: &[&[u8]]) -> usize
    requires { at + length (joined pieces.now) ≤ length out.old }
    ensures end { result ≡ at + length (joined pieces.now) }
    ensures front { take result out.new ≡ take at out.old ++ joined pieces.now }
{
    let mut end = at;
    for piece in pieces {
        end = put(out, end, piece);
    }
    end
}

// Writes the escaped form of a name in this way; the bytes between two escapes go in one piece.
fn put_escaped(out: &mut [u8], at: usize, name: &[u8]) -> usize
    requires { at + length (escaped name.now) ≤ length out.old }
    ensures end { result ≡ at + length (escaped name.now) }
    ensures front { take result out.new ≡ take at out.old ++ escaped name.now }
{
    let mut rest = name;
    let mut end = at;
    loop {
        let (plain, after) = rest.split_at(plain_len(rest));
        end = put(out, end, plain);
        let Some((first, left)) = after.split_first() else {
            return end;
        };
        end = put(out, end, escape(first));
        rest = left;
    }
}
