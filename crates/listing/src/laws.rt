// What the lines of a list are: it is cut at each LF.

ghost use Rattle.listing.specs.Cut.{EndsAtLf, LastLine, NoLines};

/// Does nothing. Its contract says what the lines of a list are: the bytes up to its first LF, then the lines
/// of the rest. Bytes without LF are one line, and no bytes have no line.
pub fn list_laws()
    ensures first { EndsAtLf }
    ensures last { LastLine }
    ensures none { NoLines }
{}
