// Parts that lines describe, joined in the order in which they come.

ghost use Rattle.std.specs.Prelude.{◌≡◌, ℕ, ◌+◌, ◌-◌, ◌*◌, ◌<◌, ◌≤◌, List, [], ◌∷◌, ◌++◌, length, MatchResult};
ghost use Rattle.std.specs.Prelude.{MatchOption, None, Some};
ghost use Rattle.std.specs.Prelude.{OnOk, OnErr, IfErr, IfOk, IfSome};
ghost use Rattle.std.specs.Io.KnownBytes.{IsAtEnd};
ghost use Rattle.arrayvec.specs.ArrayVec.{array_vec_len};
ghost use Rattle.b3.specs.Modes.{hash_root};
ghost use Rattle.b3.specs.declared.row.PartValue.{PartValue};
ghost use Rattle.b3.specs.inside.Output.{output_position, output_root};
ghost use Rattle.source.specs.Pumped.{Gives};
ghost use Rattle.partlist.specs.Joined.{AllTell, AreValuesOf, EndsWrong, IsAsked, IsWrongBehind, TellsPart, bytes_of};
ghost use Rattle.sumlist.specs.Lines.{lines};
ghost use Rattle.partlist.specs.declared.fault.JoinFault.TheVariants.{Line};
ghost use Rattle.partlist.specs.declared.fault.PartFault.TheVariants.{NotAPart};
ghost use Rattle.partlist.specs.inside.Few.{most_parts};

use crate::reader::{Found, PartReader};
use crate::{EndFault, JoinFault, PartFault, parse_part};
use arrayvec::ArrayVec;
use b3::{CHUNK_LEN, Mode, NotNext, Output, PartValue, Row};
use source::Feed;

// No line of a part is longer than this.
pub(crate) const PART_LINE_LIMIT: usize = 256;

/// Parts of one message under the mode `Hash`, each beginning where the one before it ends, from the first
/// chunk on. It holds at most 54 chaining values, however many parts there were.
#[derive(Drop)]
pub struct Joiner {
    row: Option<Row>,
    // how many parts there are
    parts: u64,
    ghost few: { parts ≤ most_parts row },
}

impl Joiner {
    ghost use Rattle.partlist.specs.inside.Joiner.{HasJoined, IsOfLine, JoinCounts, LeavesJoined, StopsSo};
    ghost use Rattle.partlist.specs.inside.Joiner.{joined_count};
    ghost use Rattle.partlist.specs.inside.Reader.{JoinsNext, Leaves, ahead};

    /// No part yet.
    pub fn new() -> Joiner
        ensures { HasJoined result [] }
    {
        Joiner {
            row: None,
            parts: 0,
        }
    }

    /// How many bytes the parts have together.
    pub fn count(&self) -> u64
        ensures { (parts : List PartValue) → HasJoined self.now parts → result ≡ bytes_of parts }
    {
        match &self.row {
            None => 0,
            Some(row) => row.count(),
        }
    }

    /// Joins the next part. A part that does not follow is refused, and nothing changes.
    pub fn add(&mut self, part: PartValue) -> Result<(), PartFault>
        ensures added { (parts : List PartValue) → HasJoined self.old parts → MatchResult result
            (λ _. HasJoined self.new (parts ++ part ∷ []))
            (λ fault. (line : List ℕ) → TellsPart line part → IsWrongBehind parts line fault) }
        ensures count { OnOk result (joined_count self.new ≡ joined_count self.old + 1) }
        ensures refused { OnErr result (self.new ≡ self.old) }
    {
        let start = CHUNK_LEN as u64 * part.first_chunk();
        let end = self.count();
        if start > end {
            return Err(PartFault::BytesMissing);
        }
        if start < end {
            return Err(PartFault::Overlaps);
        }
        if let Some(row) = &mut self.row {
            match row.push(part) {
                Ok(()) => {}
                Err(NotNext) => return Err(PartFault::NotWhole),
            }
        } else {
            self.row = Some(Row::of(Mode::Hash, part));
        }
        self.parts += 1;
        Ok(())
    }

    /// Joins the parts that all lines of a feed describe, one after another, after the parts that were joined
    /// before. LF ends a line; the last line may lack it. It ends at the first wrong line, and the lines
    /// before it have then been joined; if a read failed, those whose LF was read. It keeps one read of 4,096
    /// bytes of the feed, and one line.
    pub fn add_lines<F: Feed>(&mut self, feed: &mut F) -> Result<(), JoinFault>
        ensures joined { IfSome (F.remaining feed.old) (λ text. (parts : List PartValue) → HasJoined self.old parts
            → MatchResult result
            (λ _. (more : List PartValue) × AllTell (lines text) more × HasJoined self.new (parts ++ more))
            (λ fault. StopsSo text parts fault)) }
        ensures stopped { IfSome (F.remaining feed.old) (λ text. (parts : List PartValue) → HasJoined self.old parts
            → IfErr result (LeavesJoined text parts self.new (F.remaining feed.new))) }
        ensures end { OnOk result (IsAtEnd (F.remaining feed.new)) }
        ensures gave { Gives (F.remaining feed.old) (F.remaining feed.new) }
        ensures count { JoinCounts result (F.failure_count feed.old) (F.failure_count feed.new) }
    {
        let start = self.parts;
        let mut reader = PartReader::new();
        'lines: loop {
            match self.add_next(&mut reader, feed) {
                Ok(Some(_)) => {}
                Ok(None) => return Ok(()),
                Err(JoinFault::Read) => return Err(JoinFault::Read),
                Err(JoinFault::Line(number, fault)) => {
                    return Err(JoinFault::Line(number - start, fault));
                }
            }
        }
    }

    /// Joins the part that the next line of a feed describes to those joined before, and answers it, or
    /// `None` if no line is left. A line that cannot be joined is refused with its number, if each part
    /// before it had a line. Then nothing changes but the reader, which is after that line, or within it if
    /// it is longer than the line of any part. After a failed read, what was read of a line is lost.
    pub fn add_next<F: Feed>(
        &mut self,
        reader: &mut PartReader,
        feed: &mut F,
    ) -> Result<Option<PartValue>, JoinFault>
        ensures joined { IfSome (F.remaining feed.old) (λ bytes. (left : List ℕ) × (F.remaining feed.new ≡ Some left)
            × ((parts : List PartValue) → HasJoined self.old parts
            → JoinsNext (ahead reader.old ++ bytes) parts self.new (ahead reader.new ++ left) result)) }
        ensures left { IfSome (F.remaining feed.old) (λ bytes. (left : List ℕ) × (F.remaining feed.new ≡ Some left)
            × Leaves (ahead reader.old ++ bytes) (ahead reader.new) left result) }
        ensures gave { Gives (F.remaining feed.old) (F.remaining feed.new) }
        ensures count { JoinCounts result (F.failure_count feed.old) (F.failure_count feed.new) }
        ensures forth { IfOk result (λ found. IfSome found
            (λ _. joined_count self.new ≡ joined_count self.old + 1)) }
        ensures refused { OnErr result (self.new ≡ self.old) }
        ensures place { IfErr result (IsOfLine (joined_count self.old + 1)) }
        ensures end { IfOk result (λ found. found ≡ None → IsAtEnd (F.remaining feed.new)) }
    {
        match reader.read_line(feed)? {
            Found::End => Ok(None),
            Found::Long => Err(self.fault_of_next(PartFault::NotAPart)),
            Found::Line => match self.add_told(reader.line()) {
                Ok(part) => Ok(Some(part)),
                Err(fault) => Err(self.fault_of_next(fault)),
            },
        }
    }

    // What is wrong with the line after those that were joined.
    fn fault_of_next(&self, fault: PartFault) -> JoinFault
        ensures { result ≡ Line (joined_count self.now + 1) fault }
    {
        JoinFault::Line(self.parts + 1, fault)
    }

    // Joins the part that the line describes, and answers it.
    fn add_told(&mut self, line: &[u8]) -> Result<PartValue, PartFault>
        ensures added { (parts : List PartValue) → HasJoined self.old parts → MatchResult result
            (λ part. TellsPart line.now part × HasJoined self.new (parts ++ part ∷ []))
            (λ fault. IsWrongBehind parts line.now fault) }
        ensures short { OnOk result (length line.now ≤ 256) }
        ensures count { OnOk result (joined_count self.new ≡ joined_count self.old + 1) }
        ensures refused { OnErr result (self.new ≡ self.old) }
    {
        let Some(part) = parse_part(line) else {
            return Err(PartFault::NotAPart);
        };
        self.add(part)?;
        Ok(part)
    }

    /// The output of the message that consists of the parts, at position 0. It is refused exactly if there
    /// are no parts, or only one, or they have not as many bytes as were asked for, if any were. Nothing else
    /// notices a missing end.
    pub fn output(&self, bytes: Option<u64>) -> Result<Output, EndFault>
        ensures root { (parts : List PartValue) → HasJoined self.now parts → MatchResult result
            (λ output. (1 < length parts) × IsAsked bytes (bytes_of parts)
            × ((m : List ℕ) → AreValuesOf parts m → output_root output ≡ hash_root m))
            (λ fault. EndsWrong parts bytes fault) }
        ensures position { IfOk result (λ output. output_position output ≡ 0) }
    {
        let Some(row) = &self.row else {
            return Err(EndFault::NoParts);
        };
        let Ok(output) = row.output() else {
            return Err(EndFault::Alone);
        };
        if bytes.is_some_and(|asked| asked != row.count()) {
            return Err(EndFault::EndsAfter(row.count()));
        }
        Ok(output)
    }
}

// Holds these bytes of a line too, unless it would then be longer than the line of any part.
pub(crate) fn hold(bytes: &[u8], held: &mut ArrayVec<u8, PART_LINE_LIMIT>) -> Result<(), PartFault>
    ensures held { OnOk result ((held.new.items ≡ held.old.items ++ bytes.now)
        × (array_vec_len held.new ≡ array_vec_len held.old + length bytes.now)) }
    ensures fits { MatchResult result (λ _. array_vec_len held.old + length bytes.now ≤ 256)
        (λ fault. (fault ≡ NotAPart) × (256 < array_vec_len held.old + length bytes.now)) }
    ensures refused { OnErr result (held.new ≡ held.old) }
{
    match held.try_extend_from_slice(bytes) {
        Ok(()) => Ok(()),
        Err(_) => Err(PartFault::NotAPart),
    }
}
