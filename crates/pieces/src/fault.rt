// Why no digests are written.

/// Why no digests are written. If more than one reason holds, the first of these is reported.
#[derive(Clone, Copy, Debug, PartialEq, Eq, Drop)]
pub enum Fault {
    /// The hash function has no digest of that length: BLAKE2b has 1 to 64 bytes, BLAKE2s 1 to 32.
    DigestLength,
    /// A piece has 0 bytes.
    PieceLength,
    /// The output does not have the length of all digests together.
    OutputLength,
}
