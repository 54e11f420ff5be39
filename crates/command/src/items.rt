// What a run goes through, one after another, and the one loop that does so.

ghost use Rattle.std.specs.Prelude.{◌≡◌, ◌<◌, ◌≤◌, ◌++◌, ◌∷◌, ℕ, Bool, List, Option, [], IfOk, IfSome, IsErrOf};
ghost use Rattle.std.specs.Prelude.{MatchBool, MatchResult, None, OnOk, Some, if◌then◌else◌, length, map, nat_lt};
ghost use Rattle.std.specs.Prelude.{option_map, true, ⊤};
ghost use Rattle.hashes.specs.declared.share.Share.{Share};
ghost use Rattle.source.specs.Written.{Shown};
ghost use Rattle.command.specs.Run.{Run};
ghost use Rattle.command.specs.Walks.{Walk};
ghost use Rattle.command.specs.inside.Items.{Breaks, DoesWalk, EndsBy, MovesOn, Once, Passes, Within, names_left};

use crate::fault::{Fault, tell};
use source::{Sink, write_all};
use sumlist::Share;

/// What a run goes through, one after another.
pub(crate) trait Items<'n> {
    // A state, what an item is, and how they are gone through.
    ghost State: { Type 0 };

    ghost Item: { Type 0 };

    ghost walk: { Self → Walk State Item };

    // The state and the items to come, if they are known; and whether an item was moved to.
    ghost state: { Self → Option State };

    ghost items: { Self → Option (List Item) };

    // What standard output shows.
    ghost out: { Self → Shown };

    ghost at: { Self → Item → Type 0 };

    // How many more there can be.
    ghost most: { Self → ℕ };

    // Whether failures were counted, what is always kept, what is kept of the account of items, and why memory may
    // run out.
    ghost counted: { List Bool → Self → Self → Type 0 };

    ghost same: { Self → Self → Type 0 };

    ghost keeps: { List Item → Self → Self → Type 0 };

    ghost wants: { Self → Type 0 };

    // Whether the run goes on after the fault of an item, which is then reported; and of which items it may be: a
    // share of them, or all.
    ghost GOES_ON: { Bool };

    ghost takes: { Share → Type 0 };

    /// Moves to the next item, if there is one.
    fn next(&mut self) -> Result<bool, Fault<'n>>
        ensures moved { IfSome (items self.old) (λ l. MovesOn l (items self.new) (at self.new) result) }
        ensures had { IfSome (state self.old) (λ x. OnOk result ((state self.new ≡ Some x)
            × counted [] self.old self.new)) }
        ensures broken { (start : Self) → same start self.old → IfSome (state start) (λ _. IfSome (state self.old) (λ _.
            MatchResult result (λ _. ⊤) (λ fault. Breaks (walk start).broken fault
            (λ failures. counted failures self.old self.new)))) }
        ensures unwritten { out self.new ≡ out self.old }
        ensures same { same self.old self.new }
        ensures kept { keeps [] self.old self.new }
        ensures memory { IsErrOf result Fault.OutOfMemory → wants self.old }
        ensures fewer { IfOk result (λ found. found ≡ true → most self.new < most self.old) };

    /// Writes the line of the item, reports what there is to say of it, and answers its status.
    fn print<E: Sink>(&mut self, share: Share, err: &mut E) -> Result<u8, Fault<'n>>
        requires { takes share }
        ensures printed { IfSome (state self.old) (λ x. (i : Item) → at self.old i → Once (λ run. (y : State)
            × (walk self.old).step x i run y × OnOk result (state self.new ≡ Some y)) GOES_ON (nat_lt 0 share.others)
            (λ failures. counted failures self.old self.new) result (out self.old) (out self.new)
            (E.shown err.old) (E.shown err.new)) }
        ensures items { items self.new ≡ items self.old }
        ensures same { same self.old self.new }
        ensures kept { (i : Item) → at self.old i → keeps (i ∷ []) self.old self.new }
        ensures memory { IsErrOf result Fault.OutOfMemory → wants self.old }
        ensures fewer { most self.new ≤ most self.old };

    /// What comes after the last item, by the status so far.
    fn end(&mut self, status: u8) -> Result<u8, Fault<'n>>
        ensures ended { IfSome (state self.old) (λ x.
            EndsBy ((walk self.old).ending x status) result (λ failures. counted failures self.old self.new)) }
        ensures unwritten { out self.new ≡ out self.old }
        ensures same { same self.old self.new }
        ensures kept { keeps [] self.old self.new }
        ensures memory { IsErrOf result Fault.OutOfMemory → wants self.old };

    /// Does nothing. Its contract says that what is kept from one state to the next is kept over several.
    fn laws(&self)
        ensures step_same { (a b : Self) → same a b → (x : State) (i : Item) (run : Run) (y : State)
            → (walk b).step x i run y → (walk a).step x i run y }
        ensures ending_same { (a b : Self) → same a b → (x : State) (status : ℕ) (run : Run)
            → (walk b).ending x status run → (walk a).ending x status run }
        ensures counted_more { (f g : List Bool) (a b c : Self) → counted f a b → counted g b c → counted (f ++ g) a c }
        ensures same_none { (s : Self) → same s s }
        ensures same_both { (a b c : Self) → same a b → same b c → same a c }
        ensures same_wants { (a b : Self) → same a b → wants b → wants a }
        ensures keeps_none { (s : Self) → keeps [] s s }
        ensures keeps_both { (x y : List Item) (a b c : Self) → keeps x a b → keeps y b c → keeps (x ++ y) a c };
}

/// Goes through a share of the items, and answers the greatest status.
pub(crate) fn walk<'n, I: Items<'n>, E: Sink>(
    items: &mut I,
    share: Share,
    err: &mut E,
) -> Result<u8, Fault<'n>>
    requires { I.takes share }
    ensures run { IfSome (I.state items.old) (λ x. IfSome (I.items items.old) (λ l. DoesWalk I.GOES_ON
        (I.walk items.old) share x l (λ failures. I.counted failures items.old items.new) result
        (I.out items.old) (I.out items.new) (E.shown err.old) (E.shown err.new))) }
    ensures same { I.same items.old items.new }
    ensures kept { IfSome (I.items items.old) (λ l. Within I.keeps share l items.old items.new) }
    ensures memory { IsErrOf result Fault.OutOfMemory → I.wants items.old }
{
    items.laws();
    let mut left = share;
    let mut status: u8 = 0;
    'items: while items.next()? {
        if left.takes_next() {
            status = status.max(items.print(share, err)?);
        }
    }
    items.end(status)
}

/// Reports the fault of an item, and answers its status. Where there are other shares, an empty line stands for the
/// one of the item, so that each item of a share has one. Only `CannotWrite` and `OutOfMemory` end a run.
pub(crate) fn pass_over<'f, W: Sink, E: Sink>(
    share: Share,
    fault: Fault<'_>,
    out: &mut W,
    err: &mut E,
) -> Result<u8, Fault<'f>>
    ensures passes { Passes (nat_lt 0 share.others) fault.entry result (W.shown out.old) (W.shown out.new)
        (E.shown err.old) (E.shown err.new) }
    ensures memory { IsErrOf result Fault.OutOfMemory → fault.entry ≡ Fault.OutOfMemory }
{
    match fault {
        Fault::CannotWrite => Err(Fault::CannotWrite),
        Fault::OutOfMemory => Err(Fault::OutOfMemory),
        fault => {
            if share.others > 0 && fault.status() == 1 {
                write_all(out, b"\n")?;
            }
            Ok(tell(err, fault))
        }
    }
}

/// Names that are given, one after another.
#[derive(Drop)]
pub(crate) struct Names<'a, 'n> {
    names: &'a [&'n str],
    next: usize,
    /// The name that comes before the next.
    pub(crate) name: &'n str,
}

impl<'a, 'n> Names<'a, 'n> {
    pub(crate) fn new(names: &'a [&'n str]) -> Names<'a, 'n>
        ensures names { result.names ≡ names.entry }
        ensures left { names_left result ≡ map (λ n. n.now) names.entry.now }
    {
        Names {
            names,
            next: 0,
            name: "",
        }
    }

    /// Moves to the next name, and answers whether there is one.
    pub(crate) fn next(&mut self) -> bool
        ensures moved { MatchBool result (names_left self.old ≡ self.new.name.now ∷ names_left self.new)
            ((names_left self.old ≡ []) × (self.new ≡ self.old)) }
        ensures names { self.new.names ≡ self.old.names }
    {
        let Some(name) = self.names.get(self.next) else {
            return false;
        };
        self.name = name;
        self.next += 1;
        true
    }

    /// The name as that of a list in its report, if there are several.
    pub(crate) fn title(&self) -> Option<&str>
        ensures { option_map (λ n. n.now) result ≡ (if nat_lt 1 (length (map (λ n. n.now) self.now.names.now))
            then Some self.now.name.now else None) }
    {
        (self.names.len() > 1).then_some(self.name)
    }
}
