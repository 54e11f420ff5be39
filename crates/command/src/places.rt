// Where the parts of a file are read: one after another from a feed, or each at its place in a file.

ghost use Rattle.std.proofs.lemmas.Bool.{false≢true};
ghost use Rattle.std.specs.Borrow.{GName};
ghost use Rattle.std.specs.Prelude.{◌≡◌, ◌⊎◌, ℕ, ◌+◌, ◌*◌, ◌≤◌, Bool, List, OnOk, Option, IsErrOf, Some, false, true};
ghost use Rattle.request.specs.CommandLine.{Text};
ghost use Rattle.source.specs.Counts.{count_after};
ghost use Rattle.command.specs.inside.Cutting.{TellsByte};
ghost use Rattle.command.specs.inside.Places.{EndsAt, GoesOn, HoldsFile, IsAsked, TakesAt, after_part, ends_by};
ghost use Rattle.command.specs.inside.Reading.{behind_answer};
ghost use Rattle.command.specs.inside.Troubles.{out_of_memory, trouble_of};

use crate::cutting::{gives_byte, has_byte, next_part};
use crate::fault::Fault;
use crate::session::open_file;
use b3::{CHUNK_LEN, PartValue};
use source::Feed;
use sumlist::Tree;

/// The part that is asked for: the bytes from a chunk on in a room of so many chunks, at most so many.
#[derive(Clone, Copy)]
pub(crate) struct Wanted {
    pub(crate) first: u64,
    pub(crate) room: u64,
    pub(crate) bytes: Option<u64>,
}

/// A file whose parts are asked for one after another. `Going` reads them from a feed, and `AtPlaces` opens the file at
/// the place of each.
pub(crate) trait Places {
    // It is known that a name gives this content, and what is asked for next may begin at this byte.
    ghost gives: { Self → ℕ → Text → Option (List ℕ) → Type 0 };

    // Whether it may begin at any byte.
    ghost is_anywhere: { Bool };

    // How many reads and opens have failed, and how many files were opened.
    ghost failures: { Self → ℕ };

    ghost opens: { Self → ℕ };

    // Whether an open may need memory.
    ghost wants_memory: { Bool };

    // Which reference it reads through.
    ghost lender: { Self → GName };

    /// The part that is wanted: `None` if there are no bytes there.
    fn part<'n>(
        &mut self,
        wanted: Wanted,
        run: &mut [u8],
        name: &'n str,
    ) -> Result<Option<PartValue>, Fault<'n>>
        requires { IsAsked wanted.first wanted.room wanted.bytes run.old }
        ensures part { (content : Option (List ℕ)) → gives self.old (1024 * wanted.first) name.entry.now content
            → TakesAt wanted.first wanted.room wanted.bytes name.entry.now content result }
        ensures left { (content : Option (List ℕ)) → gives self.old (1024 * wanted.first) name.entry.now content
            → OnOk result (gives self.new (after_part wanted.first wanted.room wanted.bytes) name.entry.now content) }
        ensures counted { (content : Option (List ℕ)) → gives self.old (1024 * wanted.first) name.entry.now content
            → failures self.new ≡ count_after (failures self.old) (behind_answer content result) }
        ensures opens { opens self.new ≤ opens self.old + 1 }
        ensures same { lender self.new ≡ lender self.old }
        ensures memory { IsErrOf result Fault.OutOfMemory → wants_memory ≡ true };

    /// Whether there is a byte at a position, after the parts that were asked for.
    fn has_byte<'n>(&mut self, position: u64, name: &'n str) -> Result<bool, Fault<'n>>
        ensures byte { (content : Option (List ℕ)) → gives self.old position name.entry.now content
            → TellsByte name.entry.now position content result }
        ensures counted { (content : Option (List ℕ)) → gives self.old position name.entry.now content
            → failures self.new ≡ count_after (failures self.old) (behind_answer content result) }
        ensures opens { opens self.new ≤ opens self.old + 1 }
        ensures same { lender self.new ≡ lender self.old }
        ensures memory { IsErrOf result Fault.OutOfMemory → wants_memory ≡ true };

    ghost moves: { (s : Self) (i j : ℕ) (name : Text) (content : Option (List ℕ)) → is_anywhere ≡ true
        → gives s i name content → gives s j name content };
}

/// The status of a run that has come to a position, where the file has to end; `longer` is the fault if it does not.
pub(crate) fn end_at<'n, P: Places>(
    status: u8,
    position: u64,
    name: &'n str,
    longer: Fault<'n>,
    places: &mut P,
) -> Result<u8, Fault<'n>>
    ensures end { (content : Option (List ℕ)) → P.gives places.old position name.entry.now content
        → EndsAt status position name.entry.now (trouble_of longer.entry) content result
        (P.failures places.old) (P.failures places.new) }
    ensures opens { P.opens places.new ≤ P.opens places.old + 1 }
    ensures same { P.lender places.new ≡ P.lender places.old }
    ensures memory { IsErrOf result Fault.OutOfMemory
        → (P.wants_memory ≡ true) ⊎ (trouble_of longer.entry ≡ out_of_memory) }
{
    if places.has_byte(position, name)? {
        Err(longer)
    } else {
        Ok(status)
    }
}

/// All parts of what a feed gives: it is read once, and no more after its end.
#[derive(Drop)]
pub(crate) struct Going<'f, F> {
    feed: &'f mut F,
    has_ended: bool,
}

impl<'f, F: Feed> Going<'f, F> {
    /// The parts of all that a feed gives.
    pub(crate) fn new(feed: &'f mut F) -> Going<'f, F>
        ensures feed { result.feed ≡ feed.entry }
        ensures gives { (m : List ℕ) → F.remaining feed.entry.now ≡ Some m
            → GoesOn result.has_ended (F.remaining result.feed.now) 0 (Some m) }
    {
        let has_ended = false;
        Going { feed, has_ended }
    }
}

impl<'f, F: Feed> Places for Going<'f, F> {
    ghost gives = { λ s i name content. GoesOn s.has_ended (F.remaining s.feed.now) i content };

    ghost is_anywhere = { false };

    ghost failures = { λ s. F.failure_count s.feed.now };

    ghost opens = { λ s. 0 };

    ghost wants_memory = { false };

    ghost lender = { λ s. s.feed.ghost_name };

    fn part<'n>(
        &mut self,
        wanted: Wanted,
        run: &mut [u8],
        name: &'n str,
    ) -> Result<Option<PartValue>, Fault<'n>> {
        if self.has_ended {
            return Ok(None);
        }
        let found = next_part(wanted, run, name, self.feed)?;
        self.has_ended = ends_by(&found, wanted.bytes);
        Ok(found)
    }

    fn has_byte<'n>(&mut self, _position: u64, name: &'n str) -> Result<bool, Fault<'n>> {
        if self.has_ended {
            return Ok(false);
        }
        gives_byte(name, self.feed)
    }

    ghost moves = { λ s i j name content any gives. absurd (false≢true any) };
}

// Whether a feed has ended if this was found where so many bytes were asked for.
fn ends_by(found: &Option<PartValue>, bytes: Option<u64>) -> bool
    ensures { result ≡ ends_by found.now bytes }
{
    match (found, bytes) {
        (Some(part), Some(bytes)) => part.len() < bytes,
        _ => true,
    }
}

/// Parts of a file that is opened at the place of each.
#[derive(Drop)]
pub(crate) struct AtPlaces<'t, T> {
    pub(crate) tree: &'t mut T,
}

impl<'t, T: Tree> Places for AtPlaces<'t, T> {
    ghost gives = { λ s i name content. HoldsFile (T.files s.tree.now) name content };

    ghost is_anywhere = { true };

    ghost failures = { λ s. T.failure_count s.tree.now };

    ghost opens = { λ s. T.opens s.tree.now };

    ghost wants_memory = { T.wants_memory };

    ghost lender = { λ s. s.tree.ghost_name };

    fn part<'n>(
        &mut self,
        wanted: Wanted,
        run: &mut [u8],
        name: &'n str,
    ) -> Result<Option<PartValue>, Fault<'n>> {
        let mut feed = open_file(name, CHUNK_LEN as u64 * wanted.first, self.tree)?;
        let answer = next_part(wanted, run, name, &mut feed);
        self.tree.close(feed);
        answer
    }

    fn has_byte<'n>(&mut self, position: u64, name: &'n str) -> Result<bool, Fault<'n>> {
        has_byte(name, position, self.tree)
    }

    ghost moves = { λ s i j name content any gives. gives };
}
