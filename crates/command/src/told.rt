// The command `check` with `--report`: what a report on lists does not say.

ghost use Rattle.std.specs.Prelude.{◌≡◌, ◌≤◌, ◌<◌, ◌+◌, ◌⊎◌, [], IfSome, List, MatchResult, Ok, Some, ℕ};
ghost use Rattle.std.specs.Prelude.{false, length, map, option_map, true, ⊤};
ghost use Rattle.request.specs.CommandLine.{Text};
ghost use Rattle.std.specs.List.{sum_by};
ghost use Rattle.source.specs.Counts.{count_after};
ghost use Rattle.sumlist.specs.inside.Telling.{left};
ghost use Rattle.task.specs.Tasks.{in_file};
ghost use Rattle.command.specs.Checking.{Beside, ListsRun};
ghost use Rattle.command.specs.Lines.{is_input, opens_of};
ghost use Rattle.command.specs.Run.{TellsAll};
ghost use Rattle.command.specs.inside.Faults.{IfRemarked, graded, of_tell};
ghost use Rattle.command.specs.inside.Reading.{Leaves, failed};
ghost use Rattle.command.specs.inside.Rules.{meaning};
ghost use Rattle.command.specs.inside.Seen.{DoesRun, OpensAtMost};
ghost use Rattle.command.specs.inside.Streams.{SameStreams};
ghost use Rattle.command.specs.inside.Hashed.{ListCounted};
ghost use Rattle.command.specs.inside.Items.{names_left};
ghost use Rattle.command.specs.inside.Told.{BesideRuns, HasRoom, IsTold, KeepsReport, ReportCounted, ToldOver};
ghost use Rattle.command.specs.inside.Told.{by_report_of, told_state};
ghost use Rattle.command.specs.inside.Troubles.{cannot_read, other_line, trouble_of};

use crate::fault::Fault;
use crate::items::{Items, Names, walk};
use crate::reports::{remark, status_of};
use crate::rule::ShortKeyed;
use crate::session::{Session, Streams, open_file};
use source::{Feed, Sink};
use std::alloc::Global;
use sumlist::{ReportReader, Share, Summary, TellFault, Tree, tell_list};
use task::Reporting;

impl<'i, 't, 'o, L: Feed, T: Tree, W: Sink> Session<'i, 't, 'o, L, T, W> {
    /// Reports on `err` of each list what the run reported that printed the report of this name on them, and answers
    /// its status. The lists and the report are read once, side by side, and no file of a list is opened.
    pub(crate) fn tell_lists<'n, E: Sink>(
        &mut self,
        entries: &sumlist::Entries<'_, ShortKeyed>,
        reporting: Reporting,
        report: &'n str,
        lists: &[&'n str],
        err: &mut E,
    ) -> Result<u8, Fault<'n>>
        ensures run { DoesRun (λ bytes files. ListsRun (meaning entries.now) reporting (in_file report.entry.now) files
            (map (λ n. n.now) lists.entry.now) bytes)
            (λ notes. TellsAll (E.shown err.old) (E.shown err.new) notes)
            result (⟦<Self as Streams>⟧.seen self.old) (⟦<Self as Streams>⟧.seen self.new) }
        ensures opens { OpensAtMost (1 + sum_by opens_of (map (λ n. n.now) lists.entry.now))
            (⟦<Self as Streams>⟧.seen self.old) (⟦<Self as Streams>⟧.seen self.new) }
        ensures same { SameStreams self.old self.new }
    {
        let mut feed = open_file(report, 0, self.tree)?;
        let mut lists = ByReport {
            alloc: self.alloc,
            input: self.input,
            tree: self.tree,
            out: self.out,
            told: Telling {
                alloc: self.alloc,
                entries,
                report: ReportReader::new(&mut feed),
                name: report,
                next: 1,
            },
            reporting,
            lists: Names::new(lists),
        };
        let answer = walk(&mut lists, Share::whole(), err);
        self.tree.close(feed);
        answer
    }

    // The numbers of the list of this name.
    fn tell_named<'n, F: Feed>(
        &mut self,
        told: &mut Telling<'_, '_, '_, 'n, F>,
        title: Option<&str>,
        name: &'n str,
    ) -> Result<Summary, Fault<'n>>
        ensures list { IfRemarked true (option_map (λ n. n.now) title.entry) name.entry.now
            (meaning told.old.entries.now) result (λ reporting before after. ToldOver reporting
            (meaning told.old.entries.now) (option_map (λ n. n.now) title.entry) name.entry.now told.old.name.now
            (left F.remaining told.old.report) told.old.next (left F.remaining told.new.report) told.new.next (graded result)
            (⟦<Self as Streams>⟧.seen self.old) (⟦<Self as Streams>⟧.seen self.new) before after
            (F.failure_count told.old.report.feed.now) (F.failure_count told.new.report.feed.now)) }
        ensures gave { Leaves (is_input name.entry.now) result
            (⟦<Self as Streams>⟧.seen self.old).bytes (⟦<Self as Streams>⟧.seen self.new).bytes }
        ensures kept { KeepsReport told.old told.new (⟦<Self as Streams>⟧.seen self.old)
            (⟦<Self as Streams>⟧.seen self.new) }
        ensures opens { OpensAtMost (opens_of name.entry.now) (⟦<Self as Streams>⟧.seen self.old)
            (⟦<Self as Streams>⟧.seen self.new) }
        ensures same { SameStreams self.old self.new }
    {
        read_named!(self, name, 0, tell_feed(told, title, name))
    }
}

// Lists whose verdicts are taken from a report.
#[derive(Drop)]
struct ByReport<'i, 't, 'o, 'e, 'k, 'f, 'a, 'n, L: Feed, T: Tree, W: Sink, F: Feed> {
    alloc: Global,
    input: &'i mut L,
    tree: &'t mut T,
    out: &'o mut W,
    told: Telling<'e, 'k, 'f, 'n, F>,
    reporting: Reporting,
    lists: Names<'a, 'n>,
}

impl<'i, 't, 'o, 'e, 'k, 'f, 'a, 'n, L: Feed, T: Tree, W: Sink, F: Feed> Items<'n>
    for ByReport<'i, 't, 'o, 'e, 'k, 'f, 'a, 'n, L, T, W, F> {
    ghost State = { Beside };

    ghost Item = { Text };

    ghost walk = { λ s. by_report_of (meaning s.told.entries.now) s.reporting (T.files s.tree.now)
        (map (λ n. n.now) s.lists.names.now) s.told.name.now };

    ghost state = { λ s. told_state s.told.name.now (left F.remaining s.told.report) s.told.next
        (L.remaining s.input.now) (T.files s.tree.now) };

    ghost items = { λ s. Some (names_left s.lists) };

    ghost out = { λ s. W.shown s.out.now };

    ghost at = { λ s i. i ≡ s.lists.name.now };

    ghost most = { λ s. length (names_left s.lists) };

    ghost counted = { λ f a b. ReportCounted f (L.failure_count a.input.now) (L.failure_count b.input.now)
        (T.failure_count a.tree.now) (T.failure_count b.tree.now)
        (F.failure_count a.told.report.feed.now) (F.failure_count b.told.report.feed.now) };

    ghost same = { λ a b. (b.told.entries ≡ a.told.entries) × (b.reporting ≡ a.reporting)
        × (b.lists.names ≡ a.lists.names) × (T.files b.tree.now ≡ T.files a.tree.now)
        × (b.told.name ≡ a.told.name) × (b.input.ghost_name ≡ a.input.ghost_name)
        × (b.tree.ghost_name ≡ a.tree.ghost_name) × (b.out.ghost_name ≡ a.out.ghost_name)
        × (b.told.report.feed.ghost_name ≡ a.told.report.feed.ghost_name) };

    ghost keeps = { λ i a b. T.opens b.tree.now ≤ T.opens a.tree.now + sum_by opens_of i };

    ghost wants = { λ _. ⊤ };

    ghost GOES_ON = { false };

    ghost takes = { λ _. ⊤ };

    fn next(&mut self) -> Result<bool, Fault<'n>> {
        Ok(self.lists.next())
    }

    fn print<E: Sink>(&mut self, _share: Share, err: &mut E) -> Result<u8, Fault<'n>> {
        let (title, name, entries) = (self.lists.title(), self.lists.name, self.told.entries);
        let mut session = session_of!(self);
        let summary = session.tell_named(&mut self.told, title, name)?;
        remark(title, self.reporting, name, entries, &summary, err);
        Ok(status_of(&summary))
    }

    fn end(&mut self, status: u8) -> Result<u8, Fault<'n>> {
        self.told.end()?;
        Ok(status)
    }

    fn laws(&self) {}
}

// Lists that are read beside their report.
#[derive(Drop)]
struct Telling<'e, 'k, 'f, 'n, F: Feed> {
    alloc: Global,
    entries: &'e sumlist::Entries<'k, ShortKeyed>,
    report: ReportReader<'f, F>,
    // the name of the report
    name: &'n str,
    // the number of its next line
    next: u64,
}

impl<'e, 'k, 'f, 'n, F: Feed> Telling<'e, 'k, 'f, 'n, F> {
    // Refuses a line after those of all lists.
    fn end(&mut self) -> Result<(), Fault<'n>>
        ensures ends { IfSome (left F.remaining self.old.report) (λ text. MatchResult result (λ _. text ≡ [])
            (λ fault. (trouble_of fault ≡ cannot_read self.old.name.now)
            ⊎ ((0 < length text) × (trouble_of fault ≡ other_line self.old.name.now self.old.next)))) }
        ensures counted { F.failure_count self.new.report.feed.now
            ≡ count_after (F.failure_count self.old.report.feed.now) (failed true (Some []) result).input }
        ensures kept { (self.new.name ≡ self.old.name) × (self.new.entries ≡ self.old.entries) }
        ensures same { self.new.report.feed.ghost_name ≡ self.old.report.feed.ghost_name }
    {
        match self.report.has_more() {
            Ok(false) => Ok(()),
            Ok(true) => Err(Fault::OtherLine(self.name, self.next)),
            Err(_) => Err(Fault::CannotRead(self.name)),
        }
    }

    // What the list of this name came to.
    fn settled(
        &self,
        answer: Result<Summary, TellFault>,
        list: &'n str,
    ) -> Result<Summary, Fault<'n>>
        ensures { result ≡ of_tell answer list.entry self.now.name self.now.next }
    {
        match answer {
            Ok(summary) => Ok(summary),
            Err(TellFault::ListRead) => Err(Fault::CannotRead(list)),
            Err(TellFault::ListTooLong) => Err(Fault::TooLong(list)),
            Err(TellFault::ReportRead) => Err(Fault::CannotRead(self.name)),
            Err(TellFault::ReportTooLong) => Err(Fault::TooLong(self.name)),
            Err(TellFault::OtherLine) => Err(Fault::OtherLine(self.name, self.next)),
            Err(TellFault::OutOfMemory) => Err(Fault::OutOfMemory),
        }
    }
}

// What a list that a feed gives came to.
fn tell_feed<'n, F: Feed, L: Feed>(
    told: &mut Telling<'_, '_, '_, 'n, F>,
    title: Option<&str>,
    name: &'n str,
    list: &mut L,
) -> Result<Summary, Fault<'n>>
    ensures list { IfRemarked true (option_map (λ n. n.now) title.entry) name.entry.now
        (meaning told.old.entries.now) result (λ reporting before after. (bytes coming whole : List ℕ)
        → L.remaining list.old ≡ Some bytes
        → left F.remaining told.old.report ≡ Some coming → HasRoom whole coming told.old.next
        → IsTold (BesideRuns reporting (meaning told.old.entries.now) (option_map (λ n. n.now) title.entry)
        name.entry.now told.old.name.now (Some bytes) whole coming told.old.next
        (left F.remaining told.new.report) told.new.next) (graded result) before after
        (λ f. ListCounted (is_input name.entry.now) f (L.failure_count list.old) (L.failure_count list.new)
        (F.failure_count told.old.report.feed.now) (F.failure_count told.new.report.feed.now))) }
    ensures gave { Leaves true result (L.remaining list.old) (L.remaining list.new) }
    ensures kept { (told.new.name ≡ told.old.name) × (told.new.entries ≡ told.old.entries)
        × (told.new.report.feed.ghost_name ≡ told.old.report.feed.ghost_name) }
{
    let (alloc, entries, next) = (told.alloc, told.entries, &mut told.next);
    let answer = tell_list(alloc, list, entries, title, &mut told.report, next);
    told.settled(answer, name)
}
