// SHA-256 and SHA-512 of a message that lies in memory as a whole.

ghost use Rattle.std.specs.Prelude.{◌≡◌};
ghost use Rattle.sha2.specs.Sha256.{sha256};
ghost use Rattle.sha2.specs.Sha512.{sha512};

use sha_blocks::{digest256, digest512};

/// The SHA-256 digest of `input` (FIPS 180-4, section 6.2).
#[unsafe(no_mangle)]
pub extern "C" fn sums_sha256(out: &mut [u8; 32], input: &[u8])
    ensures { out.new ≡ sha256 input.now }
{
    *out = digest256(input);
}

/// The SHA-512 digest of `input` (FIPS 180-4, section 6.4).
#[unsafe(no_mangle)]
pub extern "C" fn sums_sha512(out: &mut [u8; 64], input: &[u8])
    ensures { out.new ≡ sha512 input.now }
{
    *out = digest512(input);
}
