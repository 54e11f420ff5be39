// Why parts cannot be joined.

ghost use Rattle.std.specs.Prelude.{◌≡◌};
ghost use Rattle.partlist.specs.declared.fault.JoinFault.TheVariants.{Read};

use source::ReadFailed;
use thiserror::Error;

/// What is wrong with the line of a part.
#[derive(Clone, Copy, Debug, PartialEq, Eq, Drop, Error)]
pub enum PartFault {
    /// It is not spelt as `write_part` spells a part.
    #[error("not a part")]
    NotAPart,
    /// The part begins after the place where the parts before it end.
    #[error("bytes are missing before it")]
    BytesMissing,
    /// The part begins before that place.
    #[error("begins before the part before it ends")]
    Overlaps,
    /// The part begins at that place, but the part before it is not a power of two of full chunks.
    #[error("the part before it is not whole")]
    NotWhole,
}

/// Why lines were not joined.
#[derive(Clone, Copy, Debug, PartialEq, Eq, Drop, Error)]
pub enum JoinFault {
    /// A read failed.
    #[error("a read failed")]
    Read,
    /// The line with this number, the first being 1, is wrong.
    #[error("line {0}: {1}")]
    Line(u64, PartFault),
}

impl From<ReadFailed> for JoinFault {
    ghost from_gives = { λ _ fault. fault ≡ Read };

    fn from(_failed: ReadFailed) -> JoinFault {
        JoinFault::Read
    }
}

/// Why joined parts are no whole message.
#[derive(Clone, Copy, Debug, PartialEq, Eq, Drop, Error)]
pub enum EndFault {
    /// There are no parts.
    #[error("no parts")]
    NoParts,
    /// There is only one part, and its chaining value does not determine the root.
    #[error("one part alone")]
    Alone,
    /// They have this many bytes, which is not what was asked for.
    #[error("the parts end after {0} bytes")]
    EndsAfter(u64),
}
