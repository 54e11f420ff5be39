// A digest or tag that is printed, in bytes or digits, or compared with the one that is wanted.

ghost use Rattle.std.specs.Prelude.{◌≡◌, ◌+◌, ◌-◌, ◌^◌, ◌≤◌, ◌↔◌, IsTrue, length, MatchResult, IsErrOf, option_map};
ghost use Rattle.b3.specs.Bytes.{slice};
ghost use Rattle.b3.specs.inside.Output.{output_position, output_root};
ghost use Rattle.source.specs.Written.{Writes};
ghost use Rattle.command.specs.inside.Keys.{HasBytes, IsWanted, made_bytes, PrintsSaid, verdict};
ghost use Rattle.command.specs.inside.Making.{made_len};
ghost use Rattle.command.specs.inside.Printing.{printed, printed_beside};
ghost use Rattle.command.specs.declared.fault.Fault.TheVariants.{BadName};
ghost use Rattle.sumlist.specs.Entry.{Fits};
ghost use Rattle.task.specs.declared.hashing.Stretch.{Stretch};
ghost use Rattle.command.specs.Joining.{output_line};
ghost use Rattle.command.specs.Keying.{answer};

use crate::fault::Fault;
use b3::Output;
use source::{Sink, WriteFailed, write_all};
use sumlist::{Verdict, fits, write_end, write_lead, write_verdict};
use words::Tag;

// This many bytes of an output are written, or compared, at a time.
const PIECE: usize = 4096;

/// Bytes of a digest or tag.
#[derive(Drop)]
pub(crate) enum Made {
    /// These bytes.
    Tag(Tag),
    /// This many bytes of an output of BLAKE3, from its position on.
    Output(Output, u64),
}

impl Made {
    /// The bytes, if there are no more than a tag may have.
    pub(crate) fn into_tag(self) -> Tag
        requires has { HasBytes self }
        requires few { made_len self ≤ 64 }
        ensures value { result ≡ made_bytes self }
        ensures length { length result ≡ made_len self }
    {
        match self {
            Made::Tag(tag) => tag,
            Made::Output(mut output, length) => {
                let mut buffer = [0; 64];
                let (bytes, _) = buffer.split_at_mut(length as usize);
                output.fill(bytes).unwrap();
                Tag::of(bytes).unwrap()
            }
        }
    }
}

/// Writes the bytes themselves, or the line of their digits and a name.
pub(crate) fn write_beside<W: Sink>(
    made: Made,
    is_raw: bool,
    name: &str,
    out: &mut W,
) -> Result<(), WriteFailed>
    requires { HasBytes made }
    ensures { Writes result (W.shown out.old) (W.shown out.new) (printed_beside is_raw name.now (made_bytes made)) }
{
    if is_raw {
        return write_made(made, true, out);
    }
    write_lead(name, out)?;
    write_made(made, false, out)?;
    write_end(name, out)
}

/// Writes the bytes themselves, or their digits, those of an output piece by piece.
#[inline(never)] // its buffer is on the stack only while it is used
pub(crate) fn write_made<W: Sink>(made: Made, is_raw: bool, out: &mut W) -> Result<(), WriteFailed>
    requires { HasBytes made }
    ensures { Writes result (W.shown out.old) (W.shown out.new) (printed is_raw (made_bytes made)) }
{
    let (mut output, mut left) = match made {
        Made::Tag(tag) => return write_bytes(tag.bytes(), is_raw, out),
        Made::Output(output, length) => (output, length),
    };
    let mut buffer = [0; PIECE];
    while left > 0 {
        let count = left.min(PIECE as u64);
        let (piece, _) = buffer.split_at_mut(count as usize);
        output.fill(piece).unwrap();
        write_bytes(piece, is_raw, out)?;
        left -= count;
    }
    Ok(())
}

/// Whether the bytes are those that are wanted.
pub(crate) fn is_made(made: Made, wanted: &[u8]) -> bool
    requires { HasBytes made }
    ensures { IsWanted wanted.now (made_bytes made) result }
{
    match made {
        Made::Tag(tag) => tag.bytes() == wanted,
        Made::Output(output, length) => {
            if length != wanted.len() as u64 {
                return false;
            }
            is_output(output, wanted)
        }
    }
}

// Whether the next bytes of an output are these, compared piece by piece.
fn is_output(mut output: Output, wanted: &[u8]) -> bool
    requires { output_position output + length wanted.now ≤ 2 ^ 64 - 1 }
    ensures { IsWanted wanted.now (slice (output_root output) (output_position output) (length wanted.now)) result }
{
    let mut rest = wanted;
    while !rest.is_empty() {
        let (piece, after) = rest.split_at(rest.len().min(PIECE));
        if !is_next(&mut output, piece) {
            return false;
        }
        rest = after;
    }
    true
}

// Compares one piece, and moves the output past it.
fn is_next(output: &mut Output, wanted: &[u8]) -> bool
    requires few { length wanted.now ≤ PIECE }
    requires within { output_position output.old + length wanted.now ≤ 2 ^ 64 - 1 }
    ensures is { IsTrue result
        ↔ (slice (output_root output.old) (output_position output.old) (length wanted.now) ≡ wanted.now) }
    ensures moved { output_position output.new ≡ output_position output.old + length wanted.now }
    ensures root { output_root output.new ≡ output_root output.old }
{
    let mut bytes = [0; PIECE];
    let (bytes, _) = bytes.split_at_mut(wanted.len());
    output.fill(bytes).unwrap();
    &*bytes == wanted
}

// The digits of so many bytes are written at a time: those of the longest tag at once.
const SHORT_PIECE: usize = 256;

/// Refuses a name that cannot stand after this many digits.
pub(crate) fn named(digits: usize, name: &str) -> Result<(), Fault<'_>>
    ensures { MatchResult result (λ _. Fits digits name.entry.now)
        (λ fault. (fault ≡ BadName name.entry) × (Fits digits name.entry.now → ⊥)) }
{
    fits(digits, name).then_some(()).ok_or(Fault::BadName(name))
}

/// Writes the bytes themselves, or their lower-case hexadecimal digits.
pub(crate) fn write_bytes<W: Sink>(
    bytes: &[u8],
    is_raw: bool,
    out: &mut W,
) -> Result<(), WriteFailed>
    ensures { Writes result (W.shown out.old) (W.shown out.new) (printed is_raw bytes.now) }
{
    if is_raw {
        return write_all(out, bytes);
    }
    let mut buffer = [0; 2 * SHORT_PIECE];
    let mut rest = bytes;
    while !rest.is_empty() {
        let (piece, after) = rest.split_at(rest.len().min(SHORT_PIECE));
        let (digits, _) = buffer.split_at_mut(2 * piece.len());
        hex::encode_to_slice(piece, digits).unwrap();
        write_all(out, digits)?;
        rest = after;
    }
    Ok(())
}

/// Prints the line of a digest in digits, or if one is wanted, whether it is that one, and answers the
/// status.
pub(crate) fn print_made<'f, W: Sink>(
    made: Made,
    wanted: Option<&[u8]>,
    name: &str,
    out: &mut W,
) -> Result<u8, Fault<'f>>
    requires { HasBytes made }
    ensures said { (stretch : Stretch) → PrintsSaid (answer (option_map (λ tag. tag.now) wanted.entry)
        (output_line stretch) name.now (made_bytes made)) result (W.shown out.old) (W.shown out.new) }
    ensures memory { IsErrOf result Fault.OutOfMemory → ⊥ }
{
    let Some(digest) = wanted else {
        write_beside(made, false, name, out)?;
        return Ok(0);
    };
    print_verdict(is_made(made, digest), name, out)
}

/// Prints whether a digest or tag is the one that is wanted, and answers the status.
pub(crate) fn print_verdict<'f, W: Sink>(
    right: bool,
    name: &str,
    out: &mut W,
) -> Result<u8, Fault<'f>>
    ensures said { PrintsSaid (verdict name.now right) result (W.shown out.old) (W.shown out.new) }
    ensures memory { IsErrOf result Fault.OutOfMemory → ⊥ }
{
    let verdict = if right {
        Verdict::Matches
    } else {
        Verdict::Differs
    };
    write_verdict(name, verdict, out)?;
    Ok(u8::from(!right))
}
