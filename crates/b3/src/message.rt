// A message that is in memory as a whole.

ghost use Rattle.std.specs.Prelude.{◌≡◌};
ghost use Rattle.b3.specs.Modes.{root_of};
ghost use Rattle.b3.specs.Parts.{mode_parameters};
ghost use Rattle.b3.specs.inside.Output.{output_root, output_position};

use crate::chunk::CHUNK_LEN;
use crate::hasher::Blake3;
use crate::mode::Mode;
use crate::output::Output;
use crate::tree::{chunk_over, tree_over};
use words::Absorb;

// The longest message whose tree is taken from its top, 1 MiB: each doubling takes more of the stack.
const MOST: usize = 0x10_0000;

// The output of a message, by a hasher. Not inlined, so that shorter messages do not pay for its stack space.
#[inline(never)]
fn by_hasher(mode: Mode, message: &[u8]) -> Output
    ensures root { output_root result ≡ root_of (mode_parameters mode) message.now }
    ensures position { output_position result ≡ 0 }
{
    let mut hasher = Blake3::under(mode.parameters());
    hasher.update(message).unwrap();
    hasher.output()
}

// The output of a message by its tree, if that is not too high. Not inlined either, for messages of one chunk.
#[inline(never)]
fn by_tree(mode: Mode, message: &[u8]) -> Output
    ensures root { output_root result ≡ root_of (mode_parameters mode) message.now }
    ensures position { output_position result ≡ 0 }
{
    if message.len() > MOST {
        return by_hasher(mode, message);
    }
    Output::of(tree_over(&mode.parameters(), 0, message))
}

/// The output of a message, at position 0 (the BLAKE3 paper, section 2.6): what a hasher that has taken it
/// gives, sooner.
pub fn output_of(mode: Mode, message: &[u8]) -> Output
    ensures root { output_root result ≡ root_of (mode_parameters mode) message.now }
    ensures position { output_position result ≡ 0 }
{
    if message.len() > CHUNK_LEN {
        return by_tree(mode, message);
    }
    Output::of(chunk_over(&mode.parameters(), 0, message))
}
