// BLAKE3's key derivation in one call.

ghost use Rattle.std.specs.Prelude.{◌≡◌, length};
ghost use Rattle.b3.specs.Bytes.{slice};
ghost use Rattle.b3.specs.Modes.{derive_root};

use b3::Blake3;
use words::Absorb;

/// Fills `out` with the first bytes that BLAKE3's mode `derive_key` derives from key material under a context
/// (the BLAKE3 paper, section 2.3). The context is a text that is meant for one use only. Nothing is refused:
/// no slice is long enough to reach BLAKE3's limits.
pub fn derive_b3(context: &[u8], material: &[u8], out: &mut [u8])
    ensures { out.new ≡ slice (derive_root context.now material.now) 0 (length out.old) }
{
    let mut hasher = Blake3::derive(context);
    hasher.update(material).unwrap();
    hasher.output().fill(out).unwrap();
}
