// What the entries of a list are, and how its lines are read.

ghost use Rattle.std.specs.Prelude.{◌≡◌, ℕ, List, Err, MatchOption, None, IfSome, length};
ghost use Rattle.hashes.specs.Digest.{digest, input_limit};
ghost use Rattle.source.specs.Faults.{PumpCounts};
ghost use Rattle.sumlist.specs.Entry.{Listing};
ghost use Rattle.sumlist.specs.Line.{Spells};
ghost use Rattle.sumlist.specs.Report.{IsEntryIn, keyed};
ghost use Rattle.sumlist.specs.declared.line.LineFault.TheVariants as fault;
ghost use Rattle.sumlist.specs.declared.look.Look.TheVariants.{Digest};
ghost use Rattle.sumlist.specs.inside.Looks.{IsLook};
ghost use Rattle.sumlist.specs.inside.Stepped.{Makes, MarksMalformed, Reads, meaning_of};

use crate::line::{Said, read_line, split_line};
use crate::look::Look;
use crate::summary::Mark;
use crate::{Entry, Kind, Line, LineFault};
use source::{AnyHash, Feed, SourceFault, digest_of};
use std::alloc::Global;
use words::Tag;

/// What makes the digest or tag of a file's bytes: a hash, or a function of a key.
pub trait MakesTag {
    // The most bytes that it takes.
    ghost limit: { Self → ℕ };

    // What it makes of bytes.
    ghost makes: { Self → List ℕ → List ℕ };

    /// The digest or tag of all that a feed still gives. `Read` comes exactly if a read failed, and
    /// `TooLong` if what comes is longer than it takes.
    fn tag_of<F: Feed>(&self, feed: &mut F) -> Result<Tag, SourceFault>
        ensures made { IfSome (F.remaining feed.old) (λ bytes. Makes (limit self.now, makes self.now) bytes result) }
        ensures counted { PumpCounts result (F.failure_count feed.old) (F.failure_count feed.new) };
}

/// What the entries of a list are.
#[derive(Drop)]
pub enum Entries<'k, M> {
    /// Digests: those of untagged lines are of this kind. Without one such lines are malformed.
    Digests(Option<Kind>),
    /// The tags of so many bytes, at most 64, that this makes, on untagged lines. Tagged lines name digests
    /// that anybody can make, and are malformed.
    Tags(usize, &'k M),
}

impl MakesTag for Entry {
    ghost limit = { λ e. input_limit e.alg };

    ghost makes = { λ e. digest e.alg };

    fn tag_of<F: Feed>(&self, feed: &mut F) -> Result<Tag, SourceFault> {
        digest_of(AnyHash::new(self.alg()).unwrap(), feed)
    }
}

impl<'k, M: MakesTag> Entries<'k, M> {
    // Reads one line, which is handed in without its LF.
    pub(crate) fn read(&self, alloc: Global, line: &[u8]) -> Result<Line, LineFault>
        ensures { Reads (meaning_of M.limit M.makes self.now) line.now result }
    {
        match self {
            Entries::Digests(kind) => read_line(alloc, line, *kind),
            Entries::Tags(length, _) => read_tag(alloc, line, *length),
        }
    }

    // The mark of a malformed line.
    pub(crate) fn malformed_mark(&self, line: &[u8]) -> Mark
        requires { Reads (meaning_of M.limit M.makes self.now) line.now (Err fault.Malformed) }
        ensures { MarksMalformed (meaning_of M.limit M.makes self.now) line.now result }
    {
        match self.look_of(line) {
            Some(look) => Mark::Foreign(look),
            None => Mark::Malformed,
        }
    }

    // What a malformed line looks like, if that can be told.
    fn look_of(&self, line: &[u8]) -> Option<Look>
        requires { Reads (meaning_of M.limit M.makes self.now) line.now (Err fault.Malformed) }
        ensures { IsLook (meaning_of M.limit M.makes self.now) line.now result }
    {
        match self {
            Entries::Digests(kind) => Look::of(line, *kind),
            Entries::Tags(_, _) => tagged_look(line),
        }
    }
}

// Reads one line of a list of tags of so many bytes.
fn read_tag(alloc: Global, line: &[u8], length: usize) -> Result<Line, LineFault>
    ensures { (limit : ℕ) (makes : List ℕ → List ℕ) → Reads (keyed length limit makes) line.now result }
{
    if tagged_look(line).is_some() {
        return Err(LineFault::Malformed);
    }
    match read_line(alloc, line, Some(Kind::Blake2b))? {
        Line::Entry(entry) if entry.tag().bytes().len() != length => Err(LineFault::Malformed),
        Line::Entry(entry) => Ok(Line::Entry(entry)),
        Line::Skipped => Ok(Line::Skipped),
    }
}

// What a line looks like that spells an entry in a list of no kind: it is tagged.
fn tagged_look(line: &[u8]) -> Option<Look>
    ensures { MatchOption result ((e : Listing) → Spells line.now None e → ⊥)
        (λ look. (e : Listing) × Spells line.now None e × (look ≡ Digest (length e.tag))) }
{
    match split_line(line, None) {
        Said::Entry(_, tag, _) => Some(Look::Digest(tag.bytes().len() as u8)),
        _ => None,
    }
}
