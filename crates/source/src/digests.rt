// The digest of all that comes.

ghost use Rattle.std.specs.Prelude.{◌≡◌, ◌<◌, ◌≤◌, ◌++◌, ◌↔◌, ℕ, List, length, IfOk, IfSome, IsErr, IsErrOf, IsOk};
ghost use Rattle.std.specs.Prelude.{IsOkUnless, OnOk};
ghost use Rattle.std.specs.Io.KnownBytes.{IsAtEnd};
ghost use Rattle.hashes.specs.Digest.{digest, digest_len};
ghost use Rattle.source.specs.Faults.{PumpCounts};
ghost use Rattle.source.specs.Pumped.{Appended, Gives, IsLongerThan, joined};
ghost use Rattle.source.specs.inside.AnyHash.{parameters_of};

use crate::{Alg, AnyHash, Feed, SourceFault, pump};
use words::{Absorb, InputTooLong, Tag};

/// The digest of what the hasher has taken, followed by all that the feed still gives. The fault is `Read`
/// exactly if a read failed; if none did, it is `TooLong` exactly if what was to come is longer than the
/// hasher's room.
pub fn digest_of<F: Feed>(mut hasher: AnyHash, feed: &mut F) -> Result<Tag, SourceFault>
    ensures digest { IfOk result (λ tag. IfSome (F.remaining feed.old) (λ xs. (alg : Alg) (m : List ℕ)
        → ⟦<AnyHash as Absorb>⟧.parameters hasher ≡ parameters_of alg
        → ⟦<AnyHash as Absorb>⟧.holds hasher m → tag ≡ digest alg (m ++ xs))) }
    ensures length { IfOk result (λ tag. (alg : Alg)
        → ⟦<AnyHash as Absorb>⟧.parameters hasher ≡ parameters_of alg → length tag ≡ digest_len alg) }
    ensures end { OnOk result (IsAtEnd (F.remaining feed.new)) }

    // The refusals.
    ensures fits { OnOk result (IfSome (F.remaining feed.old)
        (λ xs. length xs ≤ ⟦<AnyHash as Absorb>⟧.room_left hasher)) }
    ensures too_long { IsErrOf result SourceFault.TooLong
        → IsLongerThan (F.remaining feed.old) (⟦<AnyHash as Absorb>⟧.room_left hasher) }
    ensures gave { Gives (F.remaining feed.old) (F.remaining feed.new) }
    ensures count { PumpCounts result (F.failure_count feed.old) (F.failure_count feed.new) }
{
    pump(&mut hasher, feed)?;
    Ok(hasher.finish())
}

/// The digest of what the hasher has taken, followed by the pieces, one after another. The fault is `TooLong`
/// exactly if they are together longer than the hasher's room, and never `Read`.
pub fn pieces(mut hasher: AnyHash, pieces: &[&[u8]]) -> Result<Tag, SourceFault>
    ensures digest { IfOk result (λ tag. (alg : Alg) (m : List ℕ)
        → ⟦<AnyHash as Absorb>⟧.parameters hasher ≡ parameters_of alg
        → ⟦<AnyHash as Absorb>⟧.holds hasher m → tag ≡ digest alg (m ++ joined pieces.now)) }
    ensures length { IfOk result (λ tag. (alg : Alg)
        → ⟦<AnyHash as Absorb>⟧.parameters hasher ≡ parameters_of alg → length tag ≡ digest_len alg) }

    // The only refusal.
    ensures too_long { IsErr result
        ↔ (⟦<AnyHash as Absorb>⟧.room_left hasher < length (joined pieces.now)) }
    ensures only { IsOkUnless result SourceFault.TooLong }
{
    match take_each(&mut hasher, pieces) {
        Ok(()) => Ok(hasher.finish()),
        Err(InputTooLong) => Err(SourceFault::TooLong),
    }
}

// Feeds the pieces one after another, up to the first that does not fit.
fn take_each<A: Absorb>(hasher: &mut A, pieces: &[&[u8]]) -> Result<(), InputTooLong>
    ensures appended { OnOk result (Appended A.holds hasher.old hasher.new (joined pieces.now)) }
    ensures kept { A.parameters hasher.new ≡ A.parameters hasher.old }
    ensures fits { IsOk result ↔ (length (joined pieces.now) ≤ A.room_left hasher.old) }
{
    for piece in pieces {
        hasher.update(piece)?;
    }
    Ok(())
}
