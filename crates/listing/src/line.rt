// A line of a list as plain numbers.

ghost use Rattle.std.specs.Prelude.{◌≡◌, ◌≢◌, ◌≤◌, ℕ, List, Some, length};
ghost use Rattle.sumlist.specs.inside.Body.{name_of};
ghost use Rattle.listing.specs.Line.{HasEntry, KeepsEntry, Means};

use crate::numbers::kind_number;
use source::Alg;
use sumlist::{Kind, NameText, Said, fill_name, split_line};
use words::Tag;

/// No line ended.
pub const LINE_NONE: u32 = 0;

/// The line is empty or a comment.
pub const LINE_SKIPPED: u32 = 1;

/// The line is not skipped, and spells no entry.
pub const LINE_MALFORMED: u32 = 2;

/// The line is malformed only because its kind is missing: with another kind it would spell an entry.
pub const LINE_UNTAGGED: u32 = 3;

/// The line spells an entry.
pub const LINE_ENTRY: u32 = 4;

// Does nothing. Its contract gives the number of each kind of line, by which a caller in C knows it.
fn line_kind_laws()
    ensures none { LINE_NONE ≡ 0 }
    ensures skipped { LINE_SKIPPED ≡ 1 }
    ensures malformed { LINE_MALFORMED ≡ 2 }
    ensures untagged { LINE_UNTAGGED ≡ 3 }
    ensures entry { LINE_ENTRY ≡ 4 }
{}

/// What a line of a list says, as plain numbers of a fixed layout.
#[repr(C)]
#[derive(Clone, Copy)]
pub struct ListLine {
    /// The number of the line, from 1. It stays if no line has ended.
    pub number: u64,
    /// How many bytes of the piece were read: none at the end.
    pub taken: u64,
    /// What the line is: one of the five constants above.
    pub kind: u32,
    /// For an entry, the number of its hash.
    pub hash: u32,
    /// For an entry, the length of its digest in bytes.
    pub digest_len: u32,
    /// For an entry, the length of its name in bytes.
    pub name_len: u32,
    /// For an entry, its digest, at the front.
    pub digest: [u8; 64],
    /// For an entry, its name, unescaped, at the front.
    pub name: [u8; 65536],
}

impl ListLine {
    /// Zeros.
    pub fn zeros() -> ListLine
        ensures { result.kind ≡ 0 }
    {
        ListLine {
            number: 0,
            taken: 0,
            kind: 0,
            hash: 0,
            digest_len: 0,
            name_len: 0,
            digest: [0; 64],
            name: [0; 65536],
        }
    }
}

/// Writes into `line` what this line means in a list whose untagged lines have this kind.
pub(crate) fn read_line(text: &[u8], kind: Option<Kind>, line: &mut ListLine)
    ensures means { Means text.now kind line.new }
    ensures entry { line.new.kind ≢ LINE_ENTRY → KeepsEntry line.old line.new }
    ensures kept { (line.new.number ≡ line.old.number) × (line.new.taken ≡ line.old.taken) }
{
    match split_line(text, kind) {
        Said::Skipped => line.kind = LINE_SKIPPED,
        Said::Malformed => line.kind = LINE_MALFORMED,
        Said::Untagged => line.kind = LINE_UNTAGGED,
        Said::Entry(alg, tag, name) => put_entry(alg, &tag, name, line),
    }
}

// Writes the numbers of an entry with this algorithm, tag and name.
fn put_entry(alg: Alg, tag: &Tag, name: NameText, line: &mut ListLine)
    requires { (n : List ℕ) × (name_of name.is_escaped name.text.now ≡ Some n) × (length n ≤ 65536) }
    ensures entry { (n : List ℕ) → name_of name.entry.is_escaped name.entry.text.now ≡ Some n
        → HasEntry line.new (record { name = n; alg = alg; tag = tag.now }) }
    ensures kind { line.new.kind ≡ LINE_ENTRY }
    ensures kept { (line.new.number ≡ line.old.number) × (line.new.taken ≡ line.old.taken) }
{
    let Some(len) = fill_name(name, &mut line.name) else {
        unreachable!()
    };
    line.name_len = len as u32;
    let bytes = tag.bytes();
    line.digest[..bytes.len()].copy_from_slice(bytes);
    line.digest_len = bytes.len() as u32;
    line.hash = kind_number(Some(Kind::of(alg)));
    line.kind = LINE_ENTRY;
}
