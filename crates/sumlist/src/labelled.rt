// Tagged lines as they are written.

ghost use Rattle.std.specs.Prelude.{OnOk, Option};
ghost use Rattle.hashes.specs.Digest.{IsInRange};
ghost use Rattle.hashes.specs.declared.kind.Kind.{Kind};
ghost use Rattle.source.specs.Written.{Writes};
ghost use Rattle.sumlist.specs.Line.{Spells};
ghost use Rattle.sumlist.specs.Tagged.{tagged, tagged_line};
ghost use Rattle.sumlist.specs.TaggedFaults.{WritesTagged};

use crate::Entry;
use crate::escaping::{lead, write_name};
use crate::fitting::tagged_fits;
use crate::labels::label;
use crate::writing::tag_digits;
use itoa::Buffer;
use source::{Alg, Sink, WriteFailed};
use thiserror::Error;
use words::Tag;

/// Why a tagged line was not written whole.
#[derive(Clone, Copy, Debug, PartialEq, Eq, Drop, Error)]
pub enum TaggedFault {
    /// A write failed. What was written is a beginning of the line.
    #[error("cannot write")]
    Write,
    /// The line would have more than 65,536 bytes without the LF; nothing was written.
    #[error("the line is too long")]
    TooLong,
}

/// Writes the entry's one tagged line, with its LF: `LABEL (name) = digits`, the name in its escaped form and
/// the digits in lower case, after a backslash if the name needs escapes. It takes no memory.
pub fn write_tagged<W: Sink>(entry: &Entry, out: &mut W) -> Result<(), TaggedFault>
    ensures writes { WritesTagged result entry.now (W.shown out.old) (W.shown out.new) }
    ensures spells { OnOk result ((kind : Option Kind) → Spells (tagged_line entry.now) kind entry.now) }
{
    if !tagged_fits(entry.alg(), entry.name()) {
        return Err(TaggedFault::TooLong);
    }
    write_tagged_line(entry.alg(), entry.name(), entry.tag(), out).map_err(|_| TaggedFault::Write)
}

/// Writes the tagged line of an entry with this algorithm, name and tag, and its LF, however long it is. The
/// name is borrowed, so no memory is taken.
pub fn write_tagged_line<W: Sink>(
    alg: Alg,
    name: &str,
    tag: &Tag,
    out: &mut W,
) -> Result<(), WriteFailed>
    requires { IsInRange alg }
    ensures { Writes result (W.shown out.old) (W.shown out.new)
        (tagged (record { name = name.now; alg = alg; tag = tag.now })) }
{
    let (mut room, mut number) = ([0; 128], Buffer::new());
    let (front, bits) = label(alg, &mut number);
    let (lead, digits) = (lead(name).as_bytes(), tag_digits(tag, &mut room));
    write_name(
        &[lead, front.as_bytes(), bits.as_bytes(), b" ("],
        name,
        &[b") = ", digits, b"\n"],
        out,
    )
}
