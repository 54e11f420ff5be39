// The numbers of refusals, and tags in the caller's memory.

ghost use Rattle.std.specs.Prelude.{◌≡◌, ◌≢◌, Some, length};
ghost use Rattle.hash_c.specs.Statuses.{length_status, parameter_status};
ghost use Rattle.hash_c.specs.inside.Streams.{fault_status};

use crate::statuses::{
    SUMS_DIGEST_LENGTH, SUMS_INPUT_TOO_LONG, SUMS_KEY_LENGTH, SUMS_NOT_BEGUN, SUMS_OK,
};
use blake2::{ParameterFault, StateFault};
use words::Tag;

/// The number of a refusal of BLAKE2's parameters.
pub fn status_of(fault: ParameterFault) -> u32
    ensures { result ≡ parameter_status (Some fault) }
{
    match fault {
        ParameterFault::DigestLength => SUMS_DIGEST_LENGTH,
        ParameterFault::KeyLength => SUMS_KEY_LENGTH,
    }
}

/// The number of a refusal of a piece.
pub fn state_status(fault: StateFault) -> u32
    ensures { result ≡ fault_status fault }
{
    match fault {
        StateFault::NotBegun => SUMS_NOT_BEGUN,
        StateFault::TooLong => SUMS_INPUT_TOO_LONG,
    }
}

/// Fills `out` with a tag: `SUMS_DIGEST_LENGTH` if it has another length.
pub fn tag_into(tag: &Tag, out: &mut [u8]) -> u32
    ensures status { result ≡ length_status (length tag.now) (length out.old) }
    ensures tag { result ≡ SUMS_OK → out.new ≡ tag.now }
    ensures kept { result ≢ SUMS_OK → out.new ≡ out.old }
{
    let bytes = tag.bytes();
    if bytes.len() != out.len() {
        return SUMS_DIGEST_LENGTH;
    }
    out.copy_from_slice(bytes);
    SUMS_OK
}
