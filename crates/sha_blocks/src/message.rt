// SHA-256 and SHA-512 of a message that is in memory as a whole.

ghost use Rattle.std.specs.Prelude.{◌≡◌};
ghost use Rattle.sha2.specs.Sha256;
ghost use Rattle.sha2.specs.Sha512;

use crate::pieces;
use crate::value::{Value256, Value512};

/// The SHA-256 digest of `message` (FIPS 180-4, section 6.2).
pub fn digest256(message: &[u8]) -> [u8; 32]
    ensures { result ≡ Sha256.sha256 message.now }
{
    let (mut value, mut buffer) = pieces::begin::<Value256, 64>();
    pieces::update(&mut value, &mut buffer, 0, message);
    let taken = message.len() as u64;
    let bits = taken.wrapping_mul(8).to_be_bytes();
    pieces::finish(&mut value, &mut buffer, u128::from(taken), &bits);
    value.bytes()
}

/// The SHA-512 digest of `message` (FIPS 180-4, section 6.4).
pub fn digest512(message: &[u8]) -> [u8; 64]
    ensures { result ≡ Sha512.sha512 message.now }
{
    let (mut value, mut buffer) = pieces::begin::<Value512, 128>();
    pieces::update(&mut value, &mut buffer, 0, message);
    let taken = message.len() as u128;
    let bits = (8 * taken).to_be_bytes();
    pieces::finish(&mut value, &mut buffer, taken, &bits);
    value.bytes()
}
