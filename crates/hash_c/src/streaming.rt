// A message that comes in pieces, over the plain numbers of any hasher.

ghost use Rattle.std.specs.Prelude.{◌≡◌, ◌≢◌, ◌+◌, ◌++◌, ◌↔◌, ℕ, List, length};
ghost use Rattle.hash_c.specs.Statuses.{input_status, length_status};

use crate::statuses::{SUMS_NOT_BEGUN, SUMS_OK};
use crate::tags::{state_status, tag_into};
use mac::BlockHash;
use states::StateOf;

/// Adds a piece to the message.
pub fn update_state<H: BlockHash, S: StateOf<H>>(state: &mut S, piece: &[u8]) -> u32
    ensures status { (m : List ℕ) → S.holds state.old m
        → result ≡ input_status H.LIMIT (length m + length piece.now) }
    ensures appended { (m : List ℕ) → S.holds state.old m → result ≡ SUMS_OK
        → S.holds state.new (m ++ piece.now) }
    ensures not_begun { (result ≡ SUMS_NOT_BEGUN) ↔ (S.is_begun state.old → ⊥) }
    ensures kept { result ≢ SUMS_OK → state.new ≡ state.old }
{
    match state.update(piece) {
        Ok(()) => SUMS_OK,
        Err(fault) => state_status(fault),
    }
}

/// Fills `out` with the digest of the message.
pub fn finish_state<H: BlockHash, S: StateOf<H>>(state: &S, out: &mut [u8]) -> u32
    ensures status { (m : List ℕ) → S.holds state.now m → result ≡ length_status H.OUT (length out.old) }
    ensures digest { (m : List ℕ) → S.holds state.now m → result ≡ SUMS_OK → out.new ≡ H.hash_of m }
    ensures not_begun { (result ≡ SUMS_NOT_BEGUN) ↔ (S.is_begun state.now → ⊥) }
    ensures kept { result ≢ SUMS_OK → out.new ≡ out.old }
{
    match state.finish() {
        Some(tag) => tag_into(&tag, out),
        None => SUMS_NOT_BEGUN,
    }
}
