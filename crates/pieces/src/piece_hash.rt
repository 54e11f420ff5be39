// What a hash function has to provide, so that the pieces of a buffer can go side by side.

ghost use Rattle.std.specs.Prelude.{◌≡◌, ◌<◌, ◌≤◌, ◌+◌, [], ℕ, List, length, take, drop, slice_index, slice_index_or};

/// A hash function, with digests of up to `MOST` bytes, that takes `LANES` messages side by side.
pub(crate) trait PieceHash<const LANES: usize, const MOST: usize> {
    // The number of bytes in a digest.
    ghost size: { Self → ℕ };

    // The digest of a message.
    ghost digest: { Self → List ℕ → List ℕ };

    /// The number of bytes in a digest.
    fn digest_len(&self) -> usize
        ensures value { result ≡ size self.now }
        ensures most { result ≤ MOST };

    /// The number of pieces of `piece_len` bytes from which on they go side by side; fewer are hashed one by
    /// one.
    fn fewest(&self, piece_len: usize) -> usize
        ensures { 0 < result };

    /// The digests of the `LANES` messages of `lens` bytes that begin at `starts`, each at the front of its row.
    /// They may overlap.
    fn rows(
        &self,
        bytes: &[u8],
        starts: &[usize; LANES],
        lens: &[usize; LANES],
    ) -> [[u8; MOST]; LANES]
        requires { (i : ℕ) → i < LANES → slice_index starts.now i + slice_index lens.now i ≤ length bytes.now }
        ensures value { (i : ℕ) → i < LANES → take (size self.now) (slice_index_or result i [])
            ≡ digest self.now (take (slice_index lens.now i) (drop (slice_index starts.now i) bytes.now)) }
        ensures whole { (i : ℕ) → i < LANES → length (slice_index_or result i []) ≡ MOST };

    /// The digest of one piece, at the front of a row.
    fn one(&self, piece: &[u8]) -> [u8; MOST]
        ensures value { take (size self.now) result ≡ digest self.now piece.now }
        ensures whole { length result ≡ MOST };

    ghost two_lanes: { 1 < LANES };

    ghost few_lanes: { LANES ≤ 8 };

    ghost small: { MOST ≤ 64 };
}
