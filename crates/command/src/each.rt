// The command `part` with `--each` and `--verify`: the lines of the parts of a file, or whether the parts that lines
// describe are those of a file.

ghost use Rattle.std.specs.Prelude.{◌≡◌, ℕ, ◌*◌, ◌^◌, ◌≤◌, ◌⊎◌, [], List, Option, Some, true, length, IsErrOf, ◌+◌};
ghost use Rattle.std.specs.Prelude.{◌++◌, ◌∷◌, IfSome, OnOk, if◌then◌else◌, nat_lt};
ghost use Rattle.command.specs.Cutting.{EachRuns};
ghost use Rattle.command.specs.Lines.{opens_of, part_opens, content_of};
ghost use Rattle.command.specs.inside.Cutting.{PrintsEach, part_numbers};
ghost use Rattle.command.specs.inside.Seen.{DoesRun, OpensAtMost, DoesBeside, IfTold};
ghost use Rattle.command.specs.inside.Streams.{IfContent, SameStreams};
ghost use Rattle.task.specs.inside.Possible.{IsPartLength};
ghost use Rattle.std.specs.Fmt.{decimal};
ghost use Rattle.std.specs.Option.{option_map_or};
ghost use Rattle.source.specs.Counts.{count_after};
ghost use Rattle.source.specs.Written.{Writes};
ghost use Rattle.sumlist.specs.Lines.{lines};
ghost use Rattle.sumlist.specs.Report.{verdict_text};
ghost use Rattle.sumlist.specs.declared.verdict.Verdict.TheVariants.{Missing};
ghost use Rattle.command.specs.Verifying.{VerifyRuns};
ghost use Rattle.command.specs.inside.Reading.{behind_answer};
ghost use Rattle.command.specs.inside.Troubles.{Counted};
ghost use Rattle.command.specs.inside.Verifying.{ComparesName, ComparesParts, IsRoomOf, JudgesAt, same_value};
ghost use Rattle.command.specs.inside.Verifying.{status_of};

use crate::cutting::{RUN, chunk_bytes, room_for_run};
use crate::digests::part_buffer;
use crate::fault::Fault;
use crate::places::{AtPlaces, Going, Places, Wanted, end_at};
use crate::session::{Session, Streams, open_file};
use b3::{CHUNK_LEN, MOST_CHUNKS, PartValue};
use itoa::Buffer;
use partlist::{Joiner, PartReader, write_part};
use source::{Feed, Sink, WriteFailed, write_pieces};
use sumlist::{Tree, Verdict, write_verdict};
use task::{PartLength, SharedFile};

impl<'i, 't, 'o, L: Feed, T: Tree, W: Sink> Session<'i, 't, 'o, L, T, W> {
    /// Prints the lines of all parts of a file, or of a share of them, one after another, as `print_part` prints
    /// them. Each part but the last has `parts.chunks` chunks; an empty file has one part. Answers 0. The file is
    /// read once; where there are other shares, it is opened at the place of each part, and only that is read.
    /// Each line is written before the bytes of the next part are read. The faults are `CannotRead`, `TooLong`
    /// above 2^64 - 1 bytes, `CannotWrite`, and `OutOfMemory`, which comes before the file is opened, or with an
    /// open.
    pub fn print_parts<'n>(
        &mut self,
        parts: PartLength,
        file: SharedFile<'n>,
    ) -> Result<u8, Fault<'n>>
        ensures run { DoesRun (λ bytes files. EachRuns file.entry.share parts.chunks file.entry.name.now files bytes)
            (λ notes. notes ≡ []) result
            (⟦<Self as Streams>⟧.seen self.old) (⟦<Self as Streams>⟧.seen self.new) }
        ensures opens { IfContent file.entry.name.now (⟦<Self as Streams>⟧.seen self.old) (λ content. OpensAtMost
            (part_opens file.entry.share file.entry.name.now (part_numbers parts.chunks content))
            (⟦<Self as Streams>⟧.seen self.old) (⟦<Self as Streams>⟧.seen self.new)) }
        ensures opens_once { file.entry.share.others ≡ 0 → OpensAtMost (opens_of file.entry.name.now)
            (⟦<Self as Streams>⟧.seen self.old) (⟦<Self as Streams>⟧.seen self.new) }
        ensures same { SameStreams self.old self.new }
        ensures memory { IsErrOf result Fault.OutOfMemory → (T.wants_memory ≡ true) ⊎ (self.new ≡ self.old) }
        ensures unwritten { file.entry.share.others ≡ 0 → IsErrOf result Fault.OutOfMemory
            → self.new.out.now ≡ self.old.out.now }
    {
        let chunks = parts.chunks;
        let mut run = room_for_run(self.alloc, chunks)?;
        let run = run.as_mut_slice();
        if file.share.others > 0 {
            let mut places = AtPlaces { tree: self.tree };
            return write_parts(chunks, run, file, self.out, &mut places);
        }
        let name = file.name;
        read_named!(self, name, 0, write_parts(chunks, run, file, self.out) in Going)
    }
}

// Writes the lines of the parts that a share takes. The file ends with a part that is not full, or before a part.
fn write_parts<'n, P: Places, W: Sink>(
    chunks: u64,
    run: &mut [u8],
    file: SharedFile<'n>,
    out: &mut W,
    places: &mut P,
) -> Result<u8, Fault<'n>>
    requires chunks { IsPartLength chunks }
    requires run { (e : ℕ) × (length run.old ≡ 1024 * 2 ^ e) }
    requires within { length run.old ≤ 1024 * chunks }
    requires share { (file.share.others ≡ 0) ⊎ (P.is_anywhere ≡ true) }
    ensures printed { (content : Option (List ℕ)) → P.gives places.old 0 file.entry.name.now content
        → PrintsEach file.entry.share chunks file.entry.name.now content result (W.shown out.old) (W.shown out.new)
        (P.opens places.old) (P.opens places.new) (P.failures places.old) (P.failures places.new) }
    ensures same { P.lender places.new ≡ P.lender places.old }
    ensures memory { IsErrOf result Fault.OutOfMemory → P.wants_memory ≡ true }
{
    let (room, bytes) = (chunks, chunk_bytes(Some(chunks)));
    let count = (MOST_CHUNKS - 1) / chunks + 1;
    let mut number = file.share.waiting;
    'parts: while number < count {
        let first = chunks * number;
        let Some(part) = places.part(Wanted { first, room, bytes }, run, file.name)? else {
            return Ok(0);
        };
        write_part(&part, out)?;
        let whole = part.len() / (CHUNK_LEN as u64);
        if whole < chunks {
            return Ok(0);
        }
        number = number.saturating_add(file.share.others).saturating_add(1);
    }
    end_at(0, u64::MAX, file.name, Fault::TooLong(file.name), places)
}

impl<'i, 't, 'o, L: Feed, T: Tree, W: Sink> Session<'i, 't, 'o, L, T, W> {
    /// Prints, for each part that the lines of the file `parts` describe, one after another from the first
    /// chunk on, or for a share of them, whether it is that of another file. Answers 0 if all are and the file
    /// ends with the last one, and 1 if one is not. Both are read once and side by side; where there are other
    /// shares, the other file is opened at the place of each part, and only that is read. `-` is a file of parts.
    /// The faults are `CannotRead` for either, `BadLine` for the first line that describes no part after those
    /// before it, `BytesBehind` if the file does not end with the last part, `CannotWrite`, and `OutOfMemory`,
    /// which comes before anything is printed, or with an open.
    pub fn print_verified<'n>(
        &mut self,
        parts: &'n str,
        file: SharedFile<'n>,
    ) -> Result<u8, Fault<'n>>
        ensures run { DoesRun (λ bytes files.
            VerifyRuns file.entry.share parts.entry.now file.entry.name.now files bytes) (λ notes. notes ≡ [])
            result (⟦<Self as Streams>⟧.seen self.old) (⟦<Self as Streams>⟧.seen self.new) }
        ensures opens { IfTold (⟦<Self as Streams>⟧.seen self.old) (λ bytes files. OpensAtMost
            (1 + part_opens file.entry.share file.entry.name.now (option_map_or lines (files parts.entry.now) []))
            (⟦<Self as Streams>⟧.seen self.old) (⟦<Self as Streams>⟧.seen self.new)) }
        ensures opens_once { file.entry.share.others ≡ 0 → OpensAtMost (1 + opens_of file.entry.name.now)
            (⟦<Self as Streams>⟧.seen self.old) (⟦<Self as Streams>⟧.seen self.new) }
        ensures same { SameStreams self.old self.new }
        ensures memory { IsErrOf result Fault.OutOfMemory → (T.wants_memory ≡ true) ⊎ (self.new ≡ self.old) }
        ensures unwritten { file.entry.share.others ≡ 0 → IsErrOf result Fault.OutOfMemory
            → self.new.out.now ≡ self.old.out.now }
    {
        let mut run = part_buffer(self.alloc, RUN)?;
        let mut list = open_file(parts, 0, self.tree)?;
        let answer = self.verify_by(run.as_mut_slice(), parts, &mut list, file);
        self.tree.close(list);
        answer
    }

    // Prints this by the lines that a feed gives.
    fn verify_by<'n, P: Feed>(
        &mut self,
        run: &mut [u8],
        parts: &'n str,
        list: &mut P,
        file: SharedFile<'n>,
    ) -> Result<u8, Fault<'n>>
        requires { length run.old ≡ 1024 * RUN }
        ensures run { IfSome (P.remaining list.old) (λ text. IfTold (⟦<Self as Streams>⟧.seen self.old) (λ bytes files.
            DoesBeside (ComparesName file.entry.share parts.entry.now file.entry.name.now text
            (content_of file.entry.name.now bytes files)) result
            (⟦<Self as Streams>⟧.seen self.old).out (⟦<Self as Streams>⟧.seen self.new).out
            (P.failure_count list.old) (P.failure_count list.new)
            (λ f. Counted f
            (⟦<Self as Streams>⟧.seen self.old).input_failures (⟦<Self as Streams>⟧.seen self.new).input_failures
            (⟦<Self as Streams>⟧.seen self.old).file_failures (⟦<Self as Streams>⟧.seen self.new).file_failures))) }
        ensures opens { IfSome (P.remaining list.old) (λ text. IfSome (⟦<Self as Streams>⟧.seen self.old).files
            (λ files. OpensAtMost (part_opens file.entry.share file.entry.name.now (lines text))
            (⟦<Self as Streams>⟧.seen self.old) (⟦<Self as Streams>⟧.seen self.new))) }
        ensures opens_once { file.entry.share.others ≡ 0 → OpensAtMost (opens_of file.entry.name.now)
            (⟦<Self as Streams>⟧.seen self.old) (⟦<Self as Streams>⟧.seen self.new) }
        ensures same { SameStreams self.old self.new }
        ensures memory { IsErrOf result Fault.OutOfMemory → T.wants_memory ≡ true }
        ensures unwritten { file.entry.share.others ≡ 0 → IsErrOf result Fault.OutOfMemory
            → self.new.out.now ≡ self.old.out.now }
    {
        let name = file.name;
        if file.share.others > 0 {
            // The file is opened before a line is read, as if all parts were compared.
            let feed = open_file(name, 0, self.tree)?;
            self.tree.close(feed);
            let mut places = AtPlaces { tree: self.tree };
            return compare_parts(run, parts, list, file, self.out, &mut places);
        }
        read_named!(self, name, 0, compare_parts(run, parts, list, file, self.out) in Going)
    }
}

// Writes, for each part that a share takes of those that the lines of a feed describe, whether it is that of a file,
// which has to end with the last.
fn compare_parts<'n, L: Feed, P: Places, W: Sink>(
    run: &mut [u8],
    parts: &'n str,
    list: &mut L,
    file: SharedFile<'n>,
    out: &mut W,
    places: &mut P,
) -> Result<u8, Fault<'n>>
    requires run { length run.old ≡ 1024 * RUN }
    requires share { (file.share.others ≡ 0) ⊎ (P.is_anywhere ≡ true) }
    ensures compared { (text m : List ℕ) → L.remaining list.old ≡ Some text
        → P.gives places.old 0 file.entry.name.now (Some m)
        → ComparesParts file.entry.share parts.entry.now file.entry.name.now text m result
        (W.shown out.old) (W.shown out.new) (L.failure_count list.old) (L.failure_count list.new)
        (P.opens places.old) (P.opens places.new) (P.failures places.old) (P.failures places.new) }
    ensures same { P.lender places.new ≡ P.lender places.old }
    ensures memory { IsErrOf result Fault.OutOfMemory → P.wants_memory ≡ true }
{
    let (mut joiner, mut reader) = (Joiner::new(), PartReader::new());
    let (mut left, mut status) = (file.share, 0);
    'parts: loop {
        let told = match joiner.add_next(&mut reader, list) {
            Ok(Some(told)) => told,
            Ok(None) => break,
            Err(fault) => return Err(Fault::of_join(fault, parts)),
        };
        if left.takes_next() {
            let verdict = verdict_on(&told, run, file.name, places)?;
            write_told(&told, verdict, out)?;
            status = status.max(status_of(verdict));
        }
    }
    let longer = Fault::BytesBehind(file.name);
    end_at(status, joiner.count(), file.name, longer, places)
}

// The verdict on a part, by the bytes at its place.
fn verdict_on<'n, P: Places>(
    told: &PartValue,
    run: &mut [u8],
    name: &'n str,
    places: &mut P,
) -> Result<Verdict, Fault<'n>>
    requires { length run.old ≡ 1024 * RUN }
    ensures verdict { (m : List ℕ) → P.gives places.old (1024 * told.now.first_chunk) name.entry.now (Some m)
        → JudgesAt told.now name.entry.now m result }
    ensures left { (m : List ℕ) → P.gives places.old (1024 * told.now.first_chunk) name.entry.now (Some m)
        → OnOk result (P.gives places.new (1024 * told.now.first_chunk + told.now.len) name.entry.now (Some m)) }
    ensures counted { (m : List ℕ) → P.gives places.old (1024 * told.now.first_chunk) name.entry.now (Some m)
        → P.failures places.new ≡ count_after (P.failures places.old) (behind_answer (Some m) result) }
    ensures opens { P.opens places.new ≤ P.opens places.old + 1 }
    ensures same { P.lender places.new ≡ P.lender places.old }
    ensures memory { IsErrOf result Fault.OutOfMemory → P.wants_memory ≡ true }
{
    let (first, room, bytes) = (told.first_chunk, room_of(told), Some(told.len));
    let run = &mut run[..CHUNK_LEN * room.min(RUN) as usize];
    match places.part(Wanted { first, room, bytes }, run, name)? {
        Some(found) => Ok(verdict_of(told, &found)),
        None => Ok(Verdict::Missing),
    }
}

// The least power of two of chunks with room for a part.
fn room_of(part: &PartValue) -> u64
    ensures { IsRoomOf part.now result }
{
    let chunks = part.len().saturating_sub(1) / CHUNK_LEN as u64 + 1;
    chunks.next_power_of_two()
}

// The verdict on a part, given the part of as many of its bytes as there are.
fn verdict_of(told: &PartValue, found: &PartValue) -> Verdict
    ensures { result ≡ (if nat_lt found.now.len told.now.len then Missing
        else same_value told.now.value found.now.value) }
{
    if found.len() < told.len() {
        Verdict::Missing
    } else if told.bytes() == found.bytes() {
        Verdict::Matches
    } else {
        Verdict::Differs
    }
}

// The status of a verdict.
fn status_of(verdict: Verdict) -> u8
    ensures { result ≡ status_of verdict }
{
    u8::from(verdict != Verdict::Matches)
}

// Writes a verdict after the numbers of its part.
fn write_told<W: Sink>(told: &PartValue, verdict: Verdict, out: &mut W) -> Result<(), WriteFailed>
    ensures { Writes result (W.shown out.old) (W.shown out.new)
        (decimal told.now.first_chunk ++ 32 ∷ (decimal told.now.len ++ verdict_text verdict)) }
{
    let (mut first, mut len) = (Buffer::new(), Buffer::new());
    let first = first.format(told.first_chunk()).as_bytes();
    write_pieces(out, &[first, b" ", len.format(told.len()).as_bytes()])?;
    write_verdict("", verdict, out)
}
