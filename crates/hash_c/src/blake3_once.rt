// BLAKE3 of a message that lies in memory as a whole.

ghost use Rattle.std.specs.Prelude.{◌≡◌, ◌≢◌, ℕ, List, length};
ghost use Rattle.b3.specs.Bytes.{slice};
ghost use Rattle.b3.specs.Modes.{derive_root, hash_root, keyed_root, root_of};
ghost use Rattle.b3.specs.Parts.{mode_parameters};
ghost use Rattle.hash_c.specs.Statuses.{output_status};

use crate::statuses::{SUMS_END_OF_OUTPUT, SUMS_OK};
use b3::{Blake3, Mode, output_of};
use words::Absorb;

/// Fills `out` with the bytes of the hasher's output from `position` on: `SUMS_END_OF_OUTPUT` if they would
/// end after position 2^64 - 1 (the BLAKE3 paper, section 2.6).
pub fn output_into(hasher: &Blake3, position: u64, out: &mut [u8]) -> u32
    ensures status { result ≡ output_status position (length out.old) }
    ensures bytes { (m : List ℕ) → ⟦<Blake3 as Absorb>⟧.holds hasher.now m → result ≡ SUMS_OK
        → out.new ≡ slice (root_of (⟦<Blake3 as Absorb>⟧.parameters hasher.now) m) position (length out.old) }
    ensures kept { result ≢ SUMS_OK → out.new ≡ out.old }
{
    let mut output = hasher.output();
    output.seek(position);
    match output.fill(out) {
        Ok(()) => SUMS_OK,
        Err(_) => SUMS_END_OF_OUTPUT,
    }
}

// Fills `out` with the bytes of the output of `input` from `position` on.
fn message_into(mode: Mode, position: u64, input: &[u8], out: &mut [u8]) -> u32
    ensures status { result ≡ output_status position (length out.old) }
    ensures bytes { result ≡ SUMS_OK
        → out.new ≡ slice (root_of (mode_parameters mode) input.now) position (length out.old) }
    ensures kept { result ≢ SUMS_OK → out.new ≡ out.old }
{
    let mut output = output_of(mode, input);
    output.seek(position);
    match output.fill(out) {
        Ok(()) => SUMS_OK,
        Err(_) => SUMS_END_OF_OUTPUT,
    }
}

/// Fills `out` with the bytes of BLAKE3's hash of `input` from `position` on (the BLAKE3 paper, sections 2.3
/// and 2.6): `SUMS_END_OF_OUTPUT` if they would end after position 2^64 - 1.
#[unsafe(no_mangle)]
pub extern "C" fn sums_blake3(out: &mut [u8], position: u64, input: &[u8]) -> u32
    ensures status { result ≡ output_status position (length out.old) }
    ensures bytes { result ≡ SUMS_OK → out.new ≡ slice (hash_root input.now) position (length out.old) }
    ensures kept { result ≢ SUMS_OK → out.new ≡ out.old }
{
    message_into(Mode::Hash, position, input, out)
}

/// The BLAKE3 digest of `input`: the first 32 bytes of its output (the BLAKE3 paper, sections 2.3 and 2.6).
#[unsafe(no_mangle)]
pub extern "C" fn sums_blake3_hash(out: &mut [u8; 32], input: &[u8])
    ensures { out.new ≡ slice (hash_root input.now) 0 32 }
{
    output_of(Mode::Hash, input).fill(out).unwrap();
}

/// As `sums_blake3`, under a key of 32 bytes.
#[unsafe(no_mangle)]
pub extern "C" fn sums_blake3_keyed(
    out: &mut [u8],
    position: u64,
    input: &[u8],
    key: &[u8; 32],
) -> u32
    ensures status { result ≡ output_status position (length out.old) }
    ensures bytes { result ≡ SUMS_OK → out.new ≡ slice (keyed_root key.now input.now) position (length out.old) }
    ensures kept { result ≢ SUMS_OK → out.new ≡ out.old }
{
    message_into(Mode::Keyed(*key), position, input, out)
}

/// Fills `out` in the same way with bytes derived from key material under a context, a text that is meant for
/// one use only.
#[unsafe(no_mangle)]
pub extern "C" fn sums_blake3_derive(
    out: &mut [u8],
    position: u64,
    material: &[u8],
    context: &[u8],
) -> u32
    ensures status { result ≡ output_status position (length out.old) }
    ensures bytes { result ≡ SUMS_OK
        → out.new ≡ slice (derive_root context.now material.now) position (length out.old) }
    ensures kept { result ≢ SUMS_OK → out.new ≡ out.old }
{
    message_into(Mode::derive(context), position, material, out)
}
