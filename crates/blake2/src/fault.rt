// Why a hasher is refused.

/// No hasher has these parameters. If both lengths are wrong, the digest's is reported.
#[derive(Clone, Copy, Debug, PartialEq, Eq, Drop)]
pub enum ParameterFault {
    /// The digest has no bytes, or more than the function gives: 64 for BLAKE2b, 32 for BLAKE2s.
    DigestLength,
    /// The key has more bytes than the function takes: 64 for BLAKE2b, 32 for BLAKE2s.
    KeyLength,
}

/// Why the plain numbers of a hasher refuse a piece.
#[derive(Clone, Copy, Debug, PartialEq, Eq, Drop)]
pub enum StateFault {
    /// They are not those of a hasher.
    NotBegun,
    /// The message would exceed its limit.
    TooLong,
}
