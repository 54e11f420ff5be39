// The statuses that the calls answer, with their names in the C header.

ghost use Rattle.std.specs.Prelude.{◌≡◌};

/// All is done.
pub const SUMS_OK: u32 = 0;

/// The function has no output of that length.
pub const SUMS_DIGEST_LENGTH: u32 = 1;

/// The function takes no key or salt of that length.
pub const SUMS_KEY_LENGTH: u32 = 2;

/// The message is longer than the function takes.
pub const SUMS_INPUT_TOO_LONG: u32 = 3;

/// The state was never begun, or holds numbers that no call leaves.
pub const SUMS_NOT_BEGUN: u32 = 4;

/// The output has no such bytes.
pub const SUMS_END_OF_OUTPUT: u32 = 5;

/// A piece has 0 bytes.
pub const SUMS_PIECE_LENGTH: u32 = 6;

/// The output is not as long as the digests of all pieces, or as the line.
pub const SUMS_OUTPUT_LENGTH: u32 = 7;

/// No hash has that number.
pub const SUMS_NO_HASH: u32 = 8;

/// No line has that name.
pub const SUMS_NO_LINE: u32 = 9;

/// No verdict has that number.
pub const SUMS_NO_VERDICT: u32 = 10;

// Does nothing. Its contract gives the number of each status, by which a caller in C knows it.
fn status_laws()
    ensures ok { SUMS_OK ≡ 0 }
    ensures digest_length { SUMS_DIGEST_LENGTH ≡ 1 }
    ensures key_length { SUMS_KEY_LENGTH ≡ 2 }
    ensures input_too_long { SUMS_INPUT_TOO_LONG ≡ 3 }
    ensures not_begun { SUMS_NOT_BEGUN ≡ 4 }
    ensures end_of_output { SUMS_END_OF_OUTPUT ≡ 5 }
    ensures piece_length { SUMS_PIECE_LENGTH ≡ 6 }
    ensures output_length { SUMS_OUTPUT_LENGTH ≡ 7 }
    ensures no_hash { SUMS_NO_HASH ≡ 8 }
    ensures no_line { SUMS_NO_LINE ≡ 9 }
    ensures no_verdict { SUMS_NO_VERDICT ≡ 10 }
{}
