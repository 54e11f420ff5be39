// The modes (the BLAKE3 paper, section 2.3): their key words and flags.

ghost use Rattle.std.specs.Prelude.{◌≡◌};
ghost use Rattle.words.specs.Words.{words};
ghost use Rattle.b3.specs.Modes.{context_key};

use crate::hasher::Blake3;
use byteorder::{ByteOrder, LittleEndian};
use std::fmt;
use std::fmt::{Debug, Write};
use words::{Absorb, IV32};

const KEYED_HASH: u8 = 16;

const DERIVE_KEY_CONTEXT: u8 = 32;

const DERIVE_KEY_MATERIAL: u8 = 64;

/// The parameters of a message's compressions: the eight key words, and the mode's flag.
#[derive(Clone, Copy)]
pub(crate) struct Parameters {
    pub(crate) key: [u32; 8],
    pub(crate) flags: u8,
}

/// The eight words of a key of 32 bytes, the lowest byte first.
pub(crate) fn words_of_key(key: &[u8; 32]) -> [u32; 8]
    ensures { result ≡ words 4 8 key.now }
{
    let mut words = [0; 8];
    LittleEndian::read_u32_into(key, &mut words);
    words
}

/// The first pass of `derive_key`: the key that a context stands for.
pub(crate) fn key_of_context(context: &[u8]) -> [u8; 32]
    ensures { result ≡ context_key context.now }
{
    let mut hasher = Blake3::under(Parameters {
        key: IV32,
        flags: DERIVE_KEY_CONTEXT,
    });
    hasher.update(context).unwrap();
    let mut key = [0; 32];
    hasher.output().fill(&mut key).unwrap();
    key
}

/// How a part is hashed: in one of the three modes, with its key.
#[derive(Clone, Copy, PartialEq, Eq)]
pub enum Mode {
    /// `hash`.
    Hash,
    /// `keyed_hash`, under a key.
    Keyed([u8; 32]),
    /// The second pass of `derive_key`, under the key that a context stands for.
    Material([u8; 32]),
}

impl Mode {
    ghost use Rattle.b3.specs.Parts.{mode_parameters};
    ghost use Rattle.std.specs.Prelude.{drop, slice_index};
    ghost use Rattle.b3.specs.declared.mode.Mode.TheVariants.{Material as MaterialMode};

    /// The mode `derive_key` under a context: a text that is meant for one use only.
    pub fn derive(context: &[u8]) -> Mode
        ensures { result ≡ MaterialMode (context_key context.now) }
    {
        Mode::Material(key_of_context(context))
    }

    /// The parameters of the mode.
    pub(crate) fn parameters(&self) -> Parameters
        ensures key { result.key ≡ drop 1 (mode_parameters self.now) }
        ensures flags { result.flags ≡ slice_index (mode_parameters self.now) 0 }
    {
        match self {
            Mode::Hash => Parameters {
                key: IV32,
                flags: 0,
            },
            Mode::Keyed(key) => Parameters {
                key: words_of_key(key),
                flags: KEYED_HASH,
            },
            Mode::Material(key) => Parameters {
                key: words_of_key(key),
                flags: DERIVE_KEY_MATERIAL,
            },
        }
    }
}

// The state of a part of one block holds the key, so `Debug` of a mode and of a part is written by hand and
// shows no key, with a clause on what it writes. No contract of std can say what is written before a write
// fails.
impl Debug for Mode {
    ghost use Rattle.b3.specs.Parts.{mode_name};
    ghost use Rattle.std.specs.Fmt.{DisplaysOnOk, WritesStyledOnOk};
    ghost use Rattle.std.specs.Prelude.{Some};

    ghost debug_output = { λ mode. Some (mode_name mode) };

    /// Writes the mode's name, whatever the options. The key is not shown.
    fn fmt<W: Write>(&self, f: &mut fmt::Formatter<W>) -> fmt::Result
        ensures writes { DisplaysOnOk W.write_str_gives f.old result
            (⟦<Mode as Debug>⟧.debug_output self.now) f.new }

        // The text is this, whatever `debug_output` says.
        ensures name { WritesStyledOnOk W.write_str_gives f.old result (mode_name self.now) f.new }
    {
        match self {
            Mode::Hash => f.write_str("Hash"),
            Mode::Keyed(_) => f.write_str("Keyed"),
            Mode::Material(_) => f.write_str("Material"),
        }
    }
}
