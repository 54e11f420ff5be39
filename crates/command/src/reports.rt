// The command `check`: the reports on lists.

ghost use Rattle.std.specs.Prelude.{◌≡◌, ◌==◌, ◌≤◌, ◌+◌, ◌++◌, ◌∷◌, [], map, IfSome, MatchOption, Some, codes, true};
ghost use Rattle.std.specs.Prelude.{List, MatchResult, None, false, ℕ, if◌then◌else◌, length, option_map, ⊤};
ghost use Rattle.source.specs.Counts.{count_after};
ghost use Rattle.source.specs.Written.{Writes};
ghost use Rattle.sumlist.specs.Lines.{lines};
ghost use Rattle.sumlist.specs.Report.{unkeyed};
ghost use Rattle.sumlist.specs.Tally.{is_clean, summary_text};
ghost use Rattle.task.specs.Tasks.{tags, these};
ghost use Rattle.task.specs.inside.Views.{key_shown, verdicts_shown};
ghost use Rattle.command.specs.Checking as spec;
ghost use Rattle.command.specs.Checking.{ListRuns, ListsRun, list_opens, notes_of};
ghost use Rattle.command.specs.Visible.{visible};
ghost use Rattle.command.specs.Lines.{content_of, is_input, opens_of};
ghost use Rattle.command.specs.Run.{Counted, TellsAll};
ghost use Rattle.request.specs.CommandLine.{Text};
ghost use Rattle.hashes.specs.declared.share.Share.{Share};
ghost use Rattle.command.specs.inside.Faults.{IfRemarked, graded, heading, hinted, of_check};
ghost use Rattle.command.specs.inside.Messages.{message_text};
ghost use Rattle.command.specs.inside.Listing.{ListTaken};
ghost use Rattle.command.specs.inside.Reading.{Leaves, failed};
ghost use Rattle.command.specs.inside.Keys.{key_content};
ghost use Rattle.command.specs.inside.Items.{names_left};
ghost use Rattle.command.specs.inside.Reported.{KeepsLists, PrintsReport, checked_of, checked_state};
ghost use Rattle.command.specs.inside.Rules.{EntriesRun, HasRule, MayRefuseSum, entries_opens, keyed_line, meaning};
ghost use Rattle.command.specs.inside.Seen.{IfTold, OpensAtMost, DoesRun, opens_from, source_opens};
ghost use Rattle.command.specs.inside.Troubles.{trouble_of};
ghost use Rattle.command.specs.inside.Streams.{SameStreams};

use crate::fault::{Fault, Message, write_message};
use crate::items::{Items, Names, pass_over, walk};
use crate::keying::keyed_of;
use crate::rule::ShortKeyed;
use crate::session::{Session, Streams, open_file};
use crate::visible::write_visible;
use source::{Feed, Sink, WriteFailed, write_all};
use std::alloc::Global;
use sumlist::{CheckFault, Kind, Look, Share, Summary, Tree, check_list, write_summary};
use task::{Entries, Key, Reporting, ShortMac, Tagging, Verdicts};

impl<'i, 't, 'o, L: Feed, T: Tree, W: Sink> Session<'i, 't, 'o, L, T, W> {
    /// Prints the report of a share of each list, and goes on with the next after a list that can't be read to its
    /// end, which is told on `err`. An entry is a line that is not skipped, and they are counted over all lists that
    /// are read to their end. A key is read and judged first, once: the faults are `KeyFileTooLong`, `KeyLength` and
    /// `CannotRead` of its file. Of several lists, a malformed line is told with its list's name. Where there are no
    /// other shares, tells how many lines of each list had each outcome, if that is asked for, and what the report of
    /// a list does not say: what malformed lines look like, that all lines are skipped, or that all others are FAILED,
    /// as those of another hash are, or MISSING. Answers 0 where every line of the share is OK, else 1. Then come the
    /// faults `CannotWrite` and `OutOfMemory`, after which no further list is read; what was written before is a
    /// beginning of the reports.
    ///
    /// With the report of a run that printed it, reports on `err` what that run reported, and answers its status, and
    /// opens no file of a list. The faults that end it are `CannotRead` and `TooLong` of a list or of the report,
    /// `OtherLine` for the first line of the report that is not that of its entry, and `OutOfMemory`.
    pub fn print_reports<'n, E: Sink>(
        &mut self,
        entries: Entries<'n>,
        reporting: Reporting,
        verdicts: Verdicts<'n>,
        lists: &[&'n str],
        err: &mut E,
    ) -> Result<u8, Fault<'n>>
        ensures run { DoesRun (λ bytes files. EntriesRun entries.entry reporting (verdicts_shown verdicts.entry) files
            (map (λ n. n.now) lists.entry.now) bytes)
            (λ notes. TellsAll (E.shown err.old) (E.shown err.new) notes)
            result (⟦<Self as Streams>⟧.seen self.old) (⟦<Self as Streams>⟧.seen self.new) }
        ensures opens { IfTold (⟦<Self as Streams>⟧.seen self.old) (λ bytes files. OpensAtMost
            (entries_opens entries.entry
            + list_opens (verdicts_shown verdicts.entry) (map (λ n. n.now) lists.entry.now) files bytes)
            (⟦<Self as Streams>⟧.seen self.old) (⟦<Self as Streams>⟧.seen self.new)) }
        ensures same { SameStreams self.old self.new }
    {
        match entries {
            Entries::Digests(kind) => {
                let entries = sumlist::Entries::Digests(kind);
                self.print_by(&entries, reporting, verdicts, lists, err)
            }
            Entries::Tags(short, key) => {
                let keyed = short_keyed(self.alloc, short, key, self.tree)?;
                let entries = sumlist::Entries::Tags(short.mac.tag_len() as usize, &keyed);
                self.print_by(&entries, reporting, verdicts, lists, err)
            }
        }
    }

    // Prints this of lists whose entries are these.
    fn print_by<'n, E: Sink>(
        &mut self,
        entries: &sumlist::Entries<'_, ShortKeyed>,
        reporting: Reporting,
        verdicts: Verdicts<'n>,
        lists: &[&'n str],
        err: &mut E,
    ) -> Result<u8, Fault<'n>>
        ensures run { DoesRun (λ bytes files. ListsRun (meaning entries.now) reporting (verdicts_shown verdicts.entry)
            files (map (λ n. n.now) lists.entry.now) bytes)
            (λ notes. TellsAll (E.shown err.old) (E.shown err.new) notes)
            result (⟦<Self as Streams>⟧.seen self.old) (⟦<Self as Streams>⟧.seen self.new) }
        ensures opens { IfTold (⟦<Self as Streams>⟧.seen self.old) (λ bytes files. OpensAtMost
            (list_opens (verdicts_shown verdicts.entry) (map (λ n. n.now) lists.entry.now) files bytes)
            (⟦<Self as Streams>⟧.seen self.old) (⟦<Self as Streams>⟧.seen self.new)) }
        ensures same { SameStreams self.old self.new }
    {
        match verdicts {
            Verdicts::Files(share) => {
                let mut checked = Checked {
                    alloc: self.alloc,
                    input: self.input,
                    tree: self.tree,
                    out: self.out,
                    entries,
                    reporting,
                    lists: Names::new(lists),
                    share,
                };
                walk(&mut checked, Share::whole(), err)
            }
            Verdicts::Report(name) => self.tell_lists(entries, reporting, name, lists, err),
        }
    }

    // Prints the report of a list, or reports why it was not read to its end, and answers the status of
    // either.
    fn print_report<'f, E: Sink>(
        &mut self,
        entries: &sumlist::Entries<'_, ShortKeyed>,
        title: Option<&str>,
        reporting: Reporting,
        name: &str,
        share: &mut Share,
        err: &mut E,
    ) -> Result<u8, Fault<'f>>
        ensures report { IfTold (⟦<Self as Streams>⟧.seen self.old) (λ bytes files. PrintsReport reporting
            (meaning entries.now) (option_map (λ n. n.now) title.entry) name.entry.now share.old share.new bytes files
            result (⟦<Self as Streams>⟧.seen self.old) (⟦<Self as Streams>⟧.seen self.new)
            (E.shown err.old) (E.shown err.new)) }
        ensures files { (⟦<Self as Streams>⟧.seen self.new).files ≡ (⟦<Self as Streams>⟧.seen self.old).files }
        ensures opens { IfTold (⟦<Self as Streams>⟧.seen self.old) (λ bytes files. OpensAtMost
            (opens_of name.entry.now + opens_from lines (content_of name.entry.now bytes files))
            (⟦<Self as Streams>⟧.seen self.old) (⟦<Self as Streams>⟧.seen self.new)) }
        ensures same { SameStreams self.old self.new }
    {
        let is_alone = share.others == 0;
        match self.check_named(entries, title, name, share) {
            Ok(summary) => {
                if is_alone {
                    remark(title, reporting, name, entries, &summary, err);
                }
                Ok(status_of(&summary))
            }
            Err(fault) => pass_over(Share::whole(), fault, self.out, err),
        }
    }

    // Checks the list of this name, and answers its numbers.
    fn check_named<'n>(
        &mut self,
        entries: &sumlist::Entries<'_, ShortKeyed>,
        title: Option<&str>,
        name: &'n str,
        share: &mut Share,
    ) -> Result<Summary, Fault<'n>>
        ensures run { IfRemarked (share.old.others == 0) (option_map (λ n. n.now) title.entry) name.entry.now
            (meaning entries.now) result (λ reporting before after. DoesRun (λ bytes files run.
            ListRuns reporting files (meaning entries.now) (option_map (λ n. n.now) title.entry) name.entry.now
            share.old (content_of name.entry.now bytes files) run share.new) (λ notes. TellsAll before after notes)
            (graded result) (⟦<Self as Streams>⟧.seen self.old) (⟦<Self as Streams>⟧.seen self.new)) }
        ensures gave { Leaves (is_input name.entry.now) result
            (⟦<Self as Streams>⟧.seen self.old).bytes (⟦<Self as Streams>⟧.seen self.new).bytes }
        ensures files { (⟦<Self as Streams>⟧.seen self.new).files ≡ (⟦<Self as Streams>⟧.seen self.old).files }
        ensures opens { IfTold (⟦<Self as Streams>⟧.seen self.old) (λ bytes files. OpensAtMost
            (opens_of name.entry.now + opens_from lines (content_of name.entry.now bytes files))
            (⟦<Self as Streams>⟧.seen self.old) (⟦<Self as Streams>⟧.seen self.new)) }
        ensures same { SameStreams self.old self.new }
    {
        read_as_input!(self, name, check_input(entries, title, name, share))
    }

    // Checks the list of this name, which is the session's input.
    fn check_input<'n>(
        &mut self,
        entries: &sumlist::Entries<'_, ShortKeyed>,
        title: Option<&str>,
        name: &'n str,
        share: &mut Share,
    ) -> Result<Summary, Fault<'n>>
        ensures list { IfRemarked (share.old.others == 0) (option_map (λ n. n.now) title.entry) name.entry.now
            (meaning entries.now) result (λ reporting before after. IfTold (⟦<Self as Streams>⟧.seen self.old)
            (λ bytes files. ListTaken (λ run. ListRuns reporting files (meaning entries.now) (option_map (λ n. n.now) title.entry)
            name.entry.now share.old (Some bytes) run share.new) name.entry.now (graded result)
            (W.shown self.old.out.now) (W.shown self.new.out.now) before after
            (L.failure_count self.old.input.now) (L.failure_count self.new.input.now)
            (T.failure_count self.old.tree.now) (T.failure_count self.new.tree.now))) }
        ensures gave { Leaves true result (L.remaining self.old.input.now) (L.remaining self.new.input.now) }
        ensures files { T.files self.new.tree.now ≡ T.files self.old.tree.now }
        ensures opens { IfTold (⟦<Self as Streams>⟧.seen self.old) (λ bytes _. OpensAtMost
            (opens_from lines (Some bytes)) (⟦<Self as Streams>⟧.seen self.old) (⟦<Self as Streams>⟧.seen self.new)) }
        ensures same { SameStreams self.old self.new }
    {
        let answer = check_list(
            self.alloc, self.input, entries, title, share, self.tree, self.out,
        );
        settled(answer, name)
    }
}

// Lists that are checked, with the share of the entries to come.
#[derive(Drop)]
struct Checked<'i, 't, 'o, 'e, 'k, 'a, 'n, L: Feed, T: Tree, W: Sink> {
    alloc: Global,
    input: &'i mut L,
    tree: &'t mut T,
    out: &'o mut W,
    entries: &'e sumlist::Entries<'k, ShortKeyed>,
    reporting: Reporting,
    lists: Names<'a, 'n>,
    share: Share,
}

impl<'i, 't, 'o, 'e, 'k, 'a, 'n, L: Feed, T: Tree, W: Sink> Items<'n>
    for Checked<'i, 't, 'o, 'e, 'k, 'a, 'n, L, T, W> {
    ghost State = { Share × List ℕ };

    ghost Item = { Text };

    ghost walk = { λ s. checked_of (meaning s.entries.now) s.reporting (T.files s.tree.now)
        (map (λ n. n.now) s.lists.names.now) };

    ghost state = { λ s. checked_state s.share (L.remaining s.input.now) (T.files s.tree.now) };

    ghost items = { λ s. Some (names_left s.lists) };

    ghost out = { λ s. W.shown s.out.now };

    ghost at = { λ s i. i ≡ s.lists.name.now };

    ghost most = { λ s. length (names_left s.lists) };

    ghost counted = { λ f a b. Counted f (L.failure_count a.input.now) (L.failure_count b.input.now)
        (T.failure_count a.tree.now) (T.failure_count b.tree.now) };

    ghost same = { λ a b. (b.entries ≡ a.entries) × (b.reporting ≡ a.reporting) × (b.lists.names ≡ a.lists.names)
        × (T.files b.tree.now ≡ T.files a.tree.now) × (b.input.ghost_name ≡ a.input.ghost_name)
        × (b.tree.ghost_name ≡ a.tree.ghost_name) × (b.out.ghost_name ≡ a.out.ghost_name) };

    ghost keeps = { λ i a b. KeepsLists i (L.remaining a.input.now) (L.remaining b.input.now) (T.files a.tree.now)
        (T.files b.tree.now) (T.opens a.tree.now) (T.opens b.tree.now) };

    ghost wants = { λ _. ⊤ };

    ghost GOES_ON = { true };

    ghost takes = { λ share. share.others ≡ 0 };

    fn next(&mut self) -> Result<bool, Fault<'n>> {
        Ok(self.lists.next())
    }

    fn print<E: Sink>(&mut self, _share: Share, err: &mut E) -> Result<u8, Fault<'n>> {
        let (title, name) = (self.lists.title(), self.lists.name);
        let (entries, reporting) = (self.entries, self.reporting);
        let mut session = session_of!(self);
        session.print_report(entries, title, reporting, name, &mut self.share, err)
    }

    fn end(&mut self, status: u8) -> Result<u8, Fault<'n>> {
        Ok(status)
    }

    fn laws(&self) {}
}

// The keyed function of the tags in lists, with its key.
pub(crate) fn short_keyed<'n, T: Tree>(
    alloc: Global,
    short: ShortMac,
    key: Key<'n>,
    tree: &mut T,
) -> Result<ShortKeyed, Fault<'n>>
    ensures keyed { IfSome (T.files tree.old) (λ files. MatchResult result
        (λ keyed. HasRule files (tags short.mac false (key_shown key.entry)) (keyed_line keyed.keyed))
        (λ fault. MayRefuseSum files (tags short.mac false (key_shown key.entry)) (trouble_of fault))) }
    ensures counted { IfSome (T.files tree.old) (λ files. T.failure_count tree.new
        ≡ count_after (T.failure_count tree.old)
        (failed false (key_content files (key_shown key.entry)) result).files) }
    ensures opens { T.opens tree.new ≤ T.opens tree.old + source_opens (key_shown key.entry) }
    ensures files { T.files tree.new ≡ T.files tree.old }
{
    let (mac, is_raw) = (short.mac, false);
    let keyed = keyed_of(alloc, Tagging { mac, is_raw }, key, tree)?;
    Ok(ShortKeyed { keyed })
}

// Reports on standard error what there is to say of a list: its numbers, and what its report does not say, each in one
// text of which what is not taken is dropped.
pub(crate) fn remark<E: Sink>(
    list: Option<&str>,
    reporting: Reporting,
    name: &str,
    entries: &sumlist::Entries<'_, ShortKeyed>,
    summary: &Summary,
    err: &mut E,
)
    ensures { TellsAll (E.shown err.old) (E.shown err.new) (notes_of reporting (meaning entries.now)
        (option_map (λ n. n.now) list.entry) name.now summary.now) }
{
    if reporting.is_summed {
        let _ = write_note(list, summary, err);
    }
    if let Some(hint) = hint_of(name, entries, summary) {
        let _ = write_message(err, hint);
    }
}

// Writes the numbers of a list behind the name that it has in its report.
fn write_note<E: Sink>(
    list: Option<&str>,
    summary: &Summary,
    err: &mut E,
) -> Result<(), WriteFailed>
    ensures { Writes result (E.shown err.old) (E.shown err.new)
        (codes "sums: " ++ (heading (option_map (λ n. n.now) list.entry) ++ summary_text summary.now)) }
{
    write_all(err, b"sums: ")?;
    let Some(name) = list else {
        return write_summary(summary, err);
    };
    write_visible(name, err)?;
    write_all(err, b": ")?;
    write_summary(summary, err)
}

// What the report of a list does not say.
//
// Without `-a`, or with one of another length, a good list has malformed lines alone. A message on standard
// error says so, once for each list. The first malformed line with a known look decides: that of MD5, SHA-1,
// a byte order mark, a signed text or digits alone, by its bytes, or of an entry of another hash. BLAKE2b has
// digests of each length, so one more reading decides that. A file that is no list at all has malformed lines
// alone, maybe millions. Lines that are all `FAILED` get a message under each `-a`, though the files may be
// damaged. Malformed lines are read twice, and a list with several faults gets one message.
fn hint_of<'n>(
    name: &'n str,
    entries: &sumlist::Entries<'_, ShortKeyed>,
    summary: &Summary,
) -> Option<Message<'n>>
    ensures { MatchOption result (hinted name.entry.now (meaning entries.now) summary.now ≡ [])
        (λ hint. hinted name.entry.now (meaning entries.now) summary.now ≡ (codes "sums: " ++ message_text hint) ∷ []) }
{
    if let Some(look) = summary.look {
        return Some(match entries {
            sumlist::Entries::Digests(kind) => untagged_hint(name, *kind, look),
            sumlist::Entries::Tags(_, _) => {
                let text = ": tagged lines, which anyone can make: ";
                Message::of_number(name, text, summary.foreign, "\n")
            }
        });
    }
    if summary.is_empty() {
        Some(Message::of(name, ": no entries\n"))
    } else if summary.is_all_malformed() {
        Some(Message::of(name, ": no line is an entry\n"))
    } else if summary.is_all_failed() {
        Some(Message::of(name, failed_hint(entries)?))
    } else if summary.is_all_missing() {
        Some(Message::of(name, ": all MISSING, names count from the current folder\n"))
    } else {
        None
    }
}

fn failed_hint(entries: &sumlist::Entries<'_, ShortKeyed>) -> Option<&'static str>
    ensures { MatchOption result (spec.failed_hint (meaning entries.now) ≡ [])
        (λ hint. spec.failed_hint (meaning entries.now) ≡ hint.now ∷ []) }
{
    match entries {
        sumlist::Entries::Digests(None) => None,
        sumlist::Entries::Digests(Some(_)) => {
            Some(": all FAILED, untagged lines may need another -a\n")
        }
        sumlist::Entries::Tags(_, _) => Some(": all FAILED, -a or the key may be another\n"),
    }
}

// What malformed lines look like in a list of digests.
fn untagged_hint<'n>(name: &'n str, kind: Option<Kind>, look: Look) -> Message<'n>
    ensures { (count : ℕ) → message_text result
        ≡ visible name.entry.now ++ spec.foreign_hint (unkeyed kind) look count }
{
    match look {
        Look::Marked => Message::of(name, ": a line begins with a byte order mark\n"),
        Look::Nameless => Message::of(name, ": a line has digits and no name\n"),
        Look::Signed => {
            Message::of(name, ": is signed, 'gpg -o LIST --verify' gives its text\n")
        }
        Look::Digest(16) => Message::of(name, ": looks like MD5, which sums does not have\n"),
        Look::Digest(20) => Message::of(name, ": looks like SHA-1, which sums does not have\n"),
        Look::Digest(_) if kind.is_some() => {
            Message::of(name, ": digests of another length than those of -a\n")
        }
        Look::Digest(len) => Message::of_number(
            name,
            ": untagged lines need -a; ",
            2 * u64::from(len),
            fitting(len),
        ),
    }
}

// The hashes that untagged digests of so many bytes are of.
fn fitting(len: u8) -> &'static str
    ensures { result.now ≡ spec.fitting len }
{
    match len {
        32 => " digits fit sha256, blake2b, blake2s or blake3\n",
        64 => " digits fit sha512 or blake2b\n",
        0..=31 => " digits fit blake2b or blake2s\n",
        _ => " digits fit blake2b\n",
    }
}

// The status of a list with these numbers.
pub(crate) fn status_of(summary: &Summary) -> u8
    ensures { result ≡ (if is_clean summary.now then 0 else 1) }
{
    u8::from(!summary.is_clean())
}

// What the list of this name came to.
fn settled(answer: Result<Summary, CheckFault>, name: &str) -> Result<Summary, Fault<'_>>
    ensures { result ≡ of_check answer name.entry }
{
    match answer {
        Ok(summary) => Ok(summary),
        Err(CheckFault::ListRead) => Err(Fault::CannotRead(name)),
        Err(CheckFault::ListTooLong) => Err(Fault::TooLong(name)),
        Err(CheckFault::Write) => Err(Fault::CannotWrite),
        Err(CheckFault::OutOfMemory) => Err(Fault::OutOfMemory),
    }
}
