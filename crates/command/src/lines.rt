// The commands `hash` and `mac`: the digest of each file, or its tag under a key, as a line of a list, or
// whether that of one is the one that is wanted.

ghost use Rattle.std.specs.Prelude.{◌≡◌, ◌≤◌, ◌+◌, ◌⊎◌, ℕ, List, [], false, map, nat_lt, true, ⊤};
ghost use Rattle.std.specs.Prelude.{IfOk, IfSome, IsErr, IsErrOf, MatchResult, None, Some, length, option_map, vec_len};
ghost use Rattle.std.specs.List.{sum_by};
ghost use Rattle.source.specs.Counts.{count_after};
ghost use Rattle.source.specs.Written.{Writes};
ghost use Rattle.request.specs.CommandLine.{Text};
ghost use Rattle.sumlist.specs.Shared.{every};
ghost use Rattle.task.specs.inside.Views.{sum_shown};
ghost use Rattle.command.specs.Hashing.{LinesGiven};
ghost use Rattle.command.specs.Keying.{LineRuns, SumRuns};
ghost use Rattle.command.specs.Lines.{FitsPlace, is_input, key_opens, opens_of};
ghost use Rattle.command.specs.Run.{Counted, TellsAll};
ghost use Rattle.command.specs.inside.Hashed.{PrintsName, given_of, given_state};
ghost use Rattle.command.specs.inside.Items.{names_left};
ghost use Rattle.command.specs.inside.Keys.{HasBytes, PrintsAnswer, made_bytes};
ghost use Rattle.command.specs.inside.Reading.{Leaves, Reads, failed};
ghost use Rattle.command.specs.inside.Rules.{IsRoomFor, IsSized, TakesRoom, WantsRoom, line_by};
ghost use Rattle.command.specs.inside.Seen.{DoesRun, IfTold, OpensAtMost};
ghost use Rattle.command.specs.inside.Streams.{AfterReading, IfContent, SameStreams};
ghost use Rattle.command.specs.declared.fault.Fault.TheVariants.{BadName};

use crate::digests::{digest_of_feed, part_buffer, tag_digits, tag_of_feed};
use crate::fault::Fault;
use crate::items::{Items, Names, pass_over, walk};
use crate::keying::rule_of;
use crate::making::{Made, is_made, named, print_verdict, write_beside};
use crate::rule::Rule;
use crate::session::{Session, Streams, open_file};
use source::{Feed, Sink, WriteFailed};
use std::alloc::{AllocError, Global};
use sumlist::{Share, Tree, tagged_fits, write_tagged_line};
use task::{Form, Sum};

// Names that the words give, and the rule of their lines.
#[derive(Drop)]
struct Given<'i, 't, 'o, 'r, 'a, 'n, L: Feed, T: Tree, W: Sink> {
    alloc: Global,
    input: &'i mut L,
    tree: &'t mut T,
    out: &'o mut W,
    rule: &'r Rule,
    names: Names<'a, 'n>,
}

impl<'i, 't, 'o, 'r, 'a, 'n, L: Feed, T: Tree, W: Sink> Items<'n>
    for Given<'i, 't, 'o, 'r, 'a, 'n, L, T, W> {
    ghost State = { List ℕ };

    ghost Item = { Text };

    ghost walk = { λ s. given_of (line_by s.rule.now) (T.files s.tree.now) };

    ghost state = { λ s. given_state (L.remaining s.input.now) (T.files s.tree.now) };

    ghost items = { λ s. Some (names_left s.names) };

    ghost out = { λ s. W.shown s.out.now };

    ghost at = { λ s i. i ≡ s.names.name.now };

    ghost most = { λ s. length (names_left s.names) };

    ghost counted = { λ f a b. Counted f (L.failure_count a.input.now) (L.failure_count b.input.now)
        (T.failure_count a.tree.now) (T.failure_count b.tree.now) };

    ghost same = { λ a b. (b.rule ≡ a.rule) × (b.input.ghost_name ≡ a.input.ghost_name)
        × (b.tree.ghost_name ≡ a.tree.ghost_name) × (b.out.ghost_name ≡ a.out.ghost_name)
        × (T.files b.tree.now ≡ T.files a.tree.now) };

    ghost keeps = { λ i a b. T.opens b.tree.now ≤ T.opens a.tree.now + sum_by opens_of i };

    ghost wants = { λ s. TakesRoom s.rule.now ⊎ (T.wants_memory ≡ true) };

    ghost GOES_ON = { true };

    ghost takes = { λ _. ⊤ };

    fn next(&mut self) -> Result<bool, Fault<'n>> {
        Ok(self.names.next())
    }

    fn print<E: Sink>(&mut self, share: Share, err: &mut E) -> Result<u8, Fault<'n>> {
        let mut session = session_of!(self);
        session.print_one(self.rule, self.names.name, share, err)
    }

    fn end(&mut self, status: u8) -> Result<u8, Fault<'n>> {
        Ok(status)
    }

    fn laws(&self) {}
}

impl<'i, 't, 'o, L: Feed, T: Tree, W: Sink> Session<'i, 't, 'o, L, T, W> {
    /// Prints the line of each file in a share of them, and goes on with the next after a file that can't be
    /// read or named, which is told on `err`: where there are other shares, an empty line stands for its own.
    /// Answers the status: 1 where one had no line, else 0. A key is read
    /// and judged first, once: the faults are `KeyFileTooLong`, `KeyLength` and `CannotRead` of its file.
    /// Then come `CannotWrite` and `OutOfMemory`, after which no further file is read.
    pub fn print_lines<'n, E: Sink>(
        &mut self,
        sum: Sum<'n>,
        names: &[&'n str],
        share: Share,
        err: &mut E,
    ) -> Result<u8, Fault<'n>>
        ensures run { DoesRun (λ bytes files. SumRuns (sum_shown sum.entry) files
            (λ l. LinesGiven share l files (map (λ n. n.now) names.entry.now) bytes))
            (λ notes. TellsAll (E.shown err.old) (E.shown err.new) notes)
            result (⟦<Self as Streams>⟧.seen self.old) (⟦<Self as Streams>⟧.seen self.new) }
        ensures opens { OpensAtMost
            (key_opens (sum_shown sum.entry)
            + sum_by opens_of (every share.others share.waiting (map (λ n. n.now) names.entry.now)))
            (⟦<Self as Streams>⟧.seen self.old) (⟦<Self as Streams>⟧.seen self.new) }
        ensures same { SameStreams self.old self.new }
        ensures memory { IsErrOf result Fault.OutOfMemory
            → WantsRoom sum.entry ⊎ (T.wants_memory ≡ true) }
    {
        let rule = rule_of(self.alloc, sum, self.tree)?;
        let mut given = Given {
            alloc: self.alloc,
            input: self.input,
            tree: self.tree,
            out: self.out,
            rule: &rule,
            names: Names::new(names),
        };
        walk(&mut given, share, err)
    }

    /// Prints the line of a file under a name, or where a digest or tag is wanted whether it is the file's,
    /// and answers the status: 1 where it is not, else 0. The key comes first, with the faults that it
    /// has in `print_lines`. Then come `BadName` of the name, `CannotRead` and `TooLong` of the file,
    /// `CannotWrite` and `OutOfMemory`.
    pub fn print_line<'n>(
        &mut self,
        sum: Sum<'n>,
        wanted: Option<Vec<u8>>,
        name: &'n str,
        file: &'n str,
    ) -> Result<u8, Fault<'n>>
        ensures run { DoesRun (λ bytes files. SumRuns (sum_shown sum.entry) files
            (λ l. LineRuns (option_map (λ v. v.items) wanted) l name.entry.now file.entry.now bytes files))
            (λ notes. notes ≡ [])
            result (⟦<Self as Streams>⟧.seen self.old) (⟦<Self as Streams>⟧.seen self.new) }
        ensures opens { OpensAtMost (key_opens (sum_shown sum.entry) + opens_of file.entry.now)
            (⟦<Self as Streams>⟧.seen self.old) (⟦<Self as Streams>⟧.seen self.new) }
        ensures same { SameStreams self.old self.new }
        ensures memory { IsErrOf result Fault.OutOfMemory
            → WantsRoom sum.entry ⊎ (T.wants_memory ≡ true) }
    {
        let rule = rule_of(self.alloc, sum, self.tree)?;
        self.print_compared(&rule, wanted.as_deref(), name, file)
    }

    /// Prints the line of a file, or reports why it has none, and answers the status of either. Only a
    /// failed write and want of memory end a run.
    pub(crate) fn print_one<'f, E: Sink>(
        &mut self,
        rule: &Rule,
        name: &str,
        share: Share,
        err: &mut E,
    ) -> Result<u8, Fault<'f>>
        ensures name { IfTold (⟦<Self as Streams>⟧.seen self.old) (λ bytes files. PrintsName
            (nat_lt 0 share.others) (line_by rule.now) name.entry.now bytes files result
            (⟦<Self as Streams>⟧.seen self.old) (⟦<Self as Streams>⟧.seen self.new)
            (E.shown err.old) (E.shown err.new)) }
        ensures gave { is_input name.entry.now ≡ false
            → (⟦<Self as Streams>⟧.seen self.new).bytes ≡ (⟦<Self as Streams>⟧.seen self.old).bytes }
        ensures files { (⟦<Self as Streams>⟧.seen self.new).files ≡ (⟦<Self as Streams>⟧.seen self.old).files }
        ensures opens { OpensAtMost (opens_of name.entry.now) (⟦<Self as Streams>⟧.seen self.old)
            (⟦<Self as Streams>⟧.seen self.new) }
        ensures same { SameStreams self.old self.new }
        ensures memory { IsErrOf result Fault.OutOfMemory
            → TakesRoom rule.now ⊎ (T.wants_memory ≡ true) }
    {
        match self.print_compared(rule, None, name, name) {
            Ok(status) => Ok(status),
            Err(fault) => pass_over(share, fault, self.out, err),
        }
    }

    // Prints the line of a file under a name, which is judged before the file is opened, or whether its digest or
    // tag is the one that is wanted.
    fn print_compared<'n>(
        &mut self,
        rule: &Rule,
        wanted: Option<&[u8]>,
        name: &'n str,
        file: &'n str,
    ) -> Result<u8, Fault<'n>>
        ensures answer { IfContent file.entry.now (⟦<Self as Streams>⟧.seen self.old) (λ content.
            PrintsAnswer (option_map (λ tag. tag.now) wanted.entry) (line_by rule.now) name.entry.now
            file.entry.now content result (W.shown self.old.out.now) (W.shown self.new.out.now)) }
        ensures read { AfterReading file.entry.now result (⟦<Self as Streams>⟧.seen self.old)
            (⟦<Self as Streams>⟧.seen self.new) }
        ensures same { SameStreams self.old self.new }
        ensures memory { IsErrOf result Fault.OutOfMemory
            → TakesRoom rule.now ⊎ (T.wants_memory ≡ true) }
    {
        named_by(rule, name)?;
        let made = self.made_of_file(rule, file)?;
        let Some(bytes) = wanted else {
            write_sum(rule, made, name, self.out)?;
            return Ok(0);
        };
        print_verdict(is_made(made, bytes), name, self.out)
    }

    // The digest or tag of a file; the buffer of its parts is made before it is opened.
    fn made_of_file<'n>(&mut self, rule: &Rule, name: &'n str) -> Result<Made, Fault<'n>>
        ensures made { IfContent name.entry.now (⟦<Self as Streams>⟧.seen self.old) (λ content.
            Reads (line_by rule.now).limit (λ m made. made_bytes made ≡ (line_by rule.now).bytes m)
            name.entry.now content result) }
        ensures has { IfOk result HasBytes }
        ensures sized { IfOk result (IsSized rule.now) }
        ensures read { AfterReading name.entry.now result (⟦<Self as Streams>⟧.seen self.old)
            (⟦<Self as Streams>⟧.seen self.new) }
        ensures out { (⟦<Self as Streams>⟧.seen self.new).out ≡ (⟦<Self as Streams>⟧.seen self.old).out }
        ensures same { SameStreams self.old self.new }
        ensures memory { IsErrOf result Fault.OutOfMemory
            → TakesRoom rule.now ⊎ (T.wants_memory ≡ true) }
    {
        let mut buffer = buffer_of(self.alloc, rule)?;
        read_named!(
            self,
            name,
            0,
            made_of_feed(rule, buffer.as_mut_slice(), name)
        )
    }
}

// Room for a part of a file, where files are hashed in parts.
fn buffer_of(alloc: Global, rule: &Rule) -> Result<Vec<u8>, AllocError>
    ensures room { IfOk result (λ buffer. IsRoomFor rule.now (vec_len buffer)) }
    ensures memory { IsErr result → TakesRoom rule.now }
{
    let chunks = match rule {
        Rule::Digest(hashing) => hashing.chunks,
        Rule::Tag(_) => None,
    };
    match chunks {
        Some(chunks) => part_buffer(alloc, chunks),
        None => Ok(Vec::new(alloc)),
    }
}

// The digest or tag of all that the feed with this name gives.
fn made_of_feed<'n, F: Feed>(
    rule: &Rule,
    buffer: &mut [u8],
    name: &'n str,
    feed: &mut F,
) -> Result<Made, Fault<'n>>
    requires { IsRoomFor rule.now (length buffer.old) }
    ensures made { IfSome (F.remaining feed.old) (λ bytes.
        Reads (line_by rule.now).limit (λ m made. made_bytes made ≡ (line_by rule.now).bytes m)
        name.entry.now (Some bytes) result) }
    ensures has { IfOk result HasBytes }
    ensures sized { IfOk result (IsSized rule.now) }
    ensures counted { F.failure_count feed.new
        ≡ count_after (F.failure_count feed.old) (failed true (Some []) result).input }
    ensures gave { Leaves true result (F.remaining feed.old) (F.remaining feed.new) }
    ensures memory { IsErrOf result Fault.OutOfMemory → ⊥ }
{
    let made = match rule {
        Rule::Digest(hashing) => digest_of_feed(hashing.requested, buffer, feed),
        Rule::Tag(keyed) => tag_of_feed(keyed, feed),
    };
    made.map_err(|fault| Fault::of_source(fault, name))
}

// Refuses a name that cannot stand on a line of this rule.
fn named_by<'n>(rule: &Rule, name: &'n str) -> Result<(), Fault<'n>>
    ensures { MatchResult result (λ _. FitsPlace (line_by rule.now).place name.now)
        (λ fault. (fault ≡ BadName name.entry) × (FitsPlace (line_by rule.now).place name.now → ⊥)) }
{
    match rule {
        Rule::Digest(hashing) => {
            let alg = hashing.requested.alg();
            if hashing.requested.form == Form::Tagged && !tagged_fits(alg, name) {
                return Err(Fault::BadName(name));
            }
            named(2 * alg.digest_len(), name)
        }
        Rule::Tag(keyed) => named(tag_digits(keyed.tagging), name),
    }
}

// Writes a digest or tag as it is, or its line with a name.
fn write_sum<W: Sink>(rule: &Rule, made: Made, name: &str, out: &mut W) -> Result<(), WriteFailed>
    requires has { HasBytes made }
    requires sized { IsSized rule.now made }
    ensures { Writes result (W.shown out.old) (W.shown out.new)
        ((line_by rule.now).text name.now (made_bytes made)) }
{
    match rule {
        Rule::Digest(hashing) => match hashing.requested.form {
            Form::Plain => write_beside(made, false, name, out),
            Form::Raw => write_beside(made, true, name, out),
            Form::Tagged => {
                write_tagged_line(hashing.requested.alg(), name, &made.into_tag(), out)
            }
        },
        Rule::Tag(keyed) => write_beside(made, keyed.tagging.is_raw, name, out),
    }
}
