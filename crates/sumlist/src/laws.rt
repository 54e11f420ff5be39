// What holds of lines and of reports.

ghost use Rattle.std.specs.Prelude.{◌≡◌, ℕ, ◌+◌, ◌*◌, List};
ghost use Rattle.std.specs.List.{slice_get};
ghost use Rattle.sumlist.specs.Meanings.{NoOtherMeaning, OneMeaning};
ghost use Rattle.sumlist.specs.Settled.{NoneCounted, OneSettled};
ghost use Rattle.sumlist.specs.Shared.{every};

/// Does nothing. Its contract says what the lines of lists mean: each is skipped, or spells an entry, or is
/// malformed; no line spells two entries, and one that is skipped or malformed spells none.
pub fn line_laws()
    ensures some { OneMeaning }
    ensures no_other { NoOtherMeaning }
{}

/// Does nothing. Its contract says what the report of `check` is where nothing failed: the lines of a
/// list have outcomes of which none is unreadable, and no others; and a tree whose count of failures
/// stayed the same tells of no unreadable file.
pub fn report_laws()
    ensures one { OneSettled }
    ensures none { NoneCounted }
{}

/// Does nothing. Its contract says that things in a row are those of their shares, one of each in turn: number i
/// of share k of n + 1 is number k + (n + 1) * i of them, and a share has no others.
pub fn share_laws<A>()
    ensures { (n k i : ℕ) (xs : List A) → slice_get (every n k xs) i ≡ slice_get xs (k + (n + 1) * i) }
{}
