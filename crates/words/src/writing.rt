// Words as bytes, and bytes into a buffer.

ghost use Rattle.std.specs.Prelude.{◌≡◌, ◌≤◌, ◌+◌, ◌++◌, length, take, drop};
ghost use Rattle.words.specs.Words.{word_bytes, words};

use byteorder::{ByteOrder, LittleEndian};

/// The bytes of eight words of 32 bits, the lowest byte of each first (RFC 7693, section 2.4).
pub fn bytes32(value: &[u32; 8]) -> [u8; 32]
    ensures written { result ≡ word_bytes 4 value.now }
    ensures read { words 4 8 result ≡ value.now }
{
    let mut bytes = [0; 32];
    LittleEndian::write_u32_into(value, &mut bytes);
    bytes
}

/// The bytes of eight words of 64 bits, the lowest byte of each first (RFC 7693, section 2.4).
pub fn bytes64(value: &[u64; 8]) -> [u8; 64]
    ensures { result ≡ word_bytes 8 value.now }
{
    let mut bytes = [0; 64];
    LittleEndian::write_u64_into(value, &mut bytes);
    bytes
}

/// Writes `bytes` into the buffer from place `at` on. The caller has to ensure that they fit.
pub fn write_at<const N: usize>(buffer: &mut [u8; N], at: usize, bytes: &[u8])
    requires { at + length bytes.now ≤ N }
    ensures front { take (at + length bytes.now) buffer.new ≡ take at buffer.old ++ bytes.now }
    ensures rest { drop (at + length bytes.now) buffer.new ≡ drop (at + length bytes.now) buffer.old }
{
    let buffer = &mut buffer[..];
    buffer[at..at + bytes.len()].copy_from_slice(bytes);
}
