// Lists of digests as they are read, in pieces of any size. The state lies in the caller's memory.

ghost use Rattle.std.specs.Prelude.{◌≡◌, ◌≢◌, ◌+◌, ◌-◌, ◌<◌, ◌^◌, ◌↔◌, [], ℕ, List, Option};
ghost use Rattle.hashes.specs.declared.kind.Kind.{Kind};
ghost use Rattle.listing.specs.Line.{KeepsEntry};
ghost use Rattle.listing.specs.Numbers.{number_of};
ghost use Rattle.listing.specs.Read.{EndsLine, IsBegun, ReadsPiece};
ghost use Rattle.listing.specs.inside.State.{HoldsAfter, ListHolds};
ghost use Rattle.listing.specs.declared.line.TheConstants.{LINE_ENTRY, LINE_NONE};
ghost use Rattle.hash_c.specs.declared.statuses.TheConstants.{SUMS_INPUT_TOO_LONG, SUMS_NOT_BEGUN};
ghost use Rattle.hash_c.specs.declared.statuses.TheConstants.{SUMS_NO_HASH, SUMS_OK};

use crate::statuses::{SUMS_INPUT_TOO_LONG, SUMS_NO_HASH, SUMS_NOT_BEGUN, SUMS_OK};
use listing::{ListFault, ListLine, ListState, kind_numbered};

/// Begins a list with untagged lines of the hash with this number, or of no hash for 0: `SUMS_NO_HASH` if no
/// hash has the number.
#[unsafe(no_mangle)]
pub extern "C" fn sums_list_init(state: &mut ListState, hash: u32) -> u32
    ensures begun { (kind : Option Kind) → hash ≡ number_of kind
        → (result ≡ SUMS_OK) × ListHolds state.new kind 0 [] }
    ensures no_hash { (result ≡ SUMS_NO_HASH) ↔ (5 < hash) }
    ensures kept { result ≢ SUMS_OK → state.new ≡ state.old }
{
    let Some(kind) = kind_numbered(hash) else {
        return SUMS_NO_HASH;
    };
    state.begin(kind);
    SUMS_OK
}

/// Reads a piece of the list up to and including its first LF, and what the line that ends there means.
/// Without LF it reads the whole piece, and no line has ended. `SUMS_NOT_BEGUN` if `state` was never begun,
/// else `SUMS_INPUT_TOO_LONG` if 2^64 - 1 lines have ended.
#[unsafe(no_mangle)]
pub extern "C" fn sums_list_read(state: &mut ListState, line: &mut ListLine, piece: &[u8]) -> u32
    ensures read { (kind : Option Kind) (n : ℕ) (begun : List ℕ) → ListHolds state.old kind n begun
        → result ≡ SUMS_OK → ReadsPiece kind n begun piece.now line.new }
    ensures held { (kind : Option Kind) (n : ℕ) (begun : List ℕ) → ListHolds state.old kind n begun
        → result ≡ SUMS_OK → HoldsAfter state.new kind n begun piece.now line.new }
    ensures number { result ≡ SUMS_OK → line.new.kind ≡ LINE_NONE → line.new.number ≡ line.old.number }
    ensures entry { result ≡ SUMS_OK → line.new.kind ≢ LINE_ENTRY → KeepsEntry line.old line.new }
    ensures fits { IsBegun state.old → state.old.lines < 2 ^ 64 - 1 → result ≡ SUMS_OK }
    ensures not_begun { (result ≡ SUMS_NOT_BEGUN) ↔ (IsBegun state.old → ⊥) }
    ensures too_long { (result ≡ SUMS_INPUT_TOO_LONG) ↔ (IsBegun state.old × (state.old.lines ≡ 2 ^ 64 - 1)) }
    ensures kept { result ≢ SUMS_OK → (state.new ≡ state.old) × (line.new ≡ line.old) }
{
    match state.read(piece, line) {
        Ok(()) => SUMS_OK,
        Err(ListFault::NotBegun) => SUMS_NOT_BEGUN,
        Err(ListFault::TooLong) => SUMS_INPUT_TOO_LONG,
    }
}

/// Ends the list: reads the last line, if no LF ended it. The statuses are those of `sums_list_read`.
#[unsafe(no_mangle)]
pub extern "C" fn sums_list_end(state: &mut ListState, line: &mut ListLine) -> u32
    ensures none { (kind : Option Kind) (n : ℕ) → ListHolds state.old kind n [] → result ≡ SUMS_OK
        → (line.new.kind ≡ LINE_NONE) × ListHolds state.new kind n [] }
    ensures last { (kind : Option Kind) (n : ℕ) (begun : List ℕ) → ListHolds state.old kind n begun
        → begun ≢ [] → result ≡ SUMS_OK → EndsLine kind n begun line.new × ListHolds state.new kind (n + 1) [] }
    ensures taken { result ≡ SUMS_OK → line.new.taken ≡ 0 }
    ensures number { result ≡ SUMS_OK → line.new.kind ≡ LINE_NONE → line.new.number ≡ line.old.number }
    ensures entry { result ≡ SUMS_OK → line.new.kind ≢ LINE_ENTRY → KeepsEntry line.old line.new }
    ensures fits { IsBegun state.old → state.old.lines < 2 ^ 64 - 1 → result ≡ SUMS_OK }
    ensures not_begun { (result ≡ SUMS_NOT_BEGUN) ↔ (IsBegun state.old → ⊥) }
    ensures too_long { (result ≡ SUMS_INPUT_TOO_LONG) ↔ (IsBegun state.old × (state.old.lines ≡ 2 ^ 64 - 1)) }
    ensures kept { result ≢ SUMS_OK → (state.new ≡ state.old) × (line.new ≡ line.old) }
{
    match state.end(line) {
        Ok(()) => SUMS_OK,
        Err(ListFault::NotBegun) => SUMS_NOT_BEGUN,
        Err(ListFault::TooLong) => SUMS_INPUT_TOO_LONG,
    }
}
