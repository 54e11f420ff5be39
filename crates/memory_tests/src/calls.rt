// The calls by their names.

use crate::hashing::{Way, write_tags};
use crate::lists::{check_growing, check_into, parse};
use crate::runs::run_words;
use source::{Sink, WriteFailed};
use std::alloc::Global;

/// What was lacking.
#[derive(Clone, Copy, Debug, Drop)]
pub(crate) enum Lack {
    /// Memory in the call.
    Memory,
    /// Room for what the call writes.
    Output,
    /// Memory for the files.
    Files,
    /// A call of this name, or any other result.
    Other,
}

impl From<WriteFailed> for Lack {
    fn from(_failed: WriteFailed) -> Lack {
        Lack::Output
    }
}

/// Makes the call of this name.
pub(crate) fn call<W: Sink, E: Sink>(
    alloc: Global,
    name: &str,
    out: &mut W,
    err: &mut E,
) -> Result<u8, Lack> {
    match name {
        "parse_line" => parse(alloc, ESCAPED, out),
        "parse_line, skipped" => parse(alloc, b"# end\r", out),
        "parse_line, malformed" => parse(alloc, UNKNOWN_ESCAPE, out),
        "parse_line, LF in a comment" => parse(alloc, b"#\n", out),
        "parse_line, LF in a name" => parse(alloc, LF_IN_NAME, out),
        "check" => check_into(alloc, LIST, out),
        "check, VecSink" => check_growing(alloc, LIST, out),
        "pump" => write_tags(Way::Pump, out),
        "digest_of" => write_tags(Way::DigestOf, out),
        "pieces" => write_tags(Way::Pieces, out),
        "run hash" => run_words(alloc, &HASH, b"abc", out, err),
        "run check" => run_words(alloc, &CHECK, LIST, out, err),
        "run check, one line" => run_words(alloc, &CHECK, LINE, out, err),
        "run mac" => run_words(alloc, &MAC, b"Hi There", out, err),
        "run kdf" => run_words(alloc, &KDF, b"", out, err),
        _ => Err(Lack::Other),
    }
}

// A name of four bytes, one of them an LF.
const ESCAPED: &[u8] =
    b"\\ba7816bf8f01cfea414140de5dae2223b00361a396177a9cb410ff61f20015ad  a\\\\b\\n";

const UNKNOWN_ESCAPE: &[u8] =
    b"\\ba7816bf8f01cfea414140de5dae2223b00361a396177a9cb410ff61f20015ad  a\\x";

const LF_IN_NAME: &[u8] = b"ba7816bf8f01cfea414140de5dae2223b00361a396177a9cb410ff61f20015ad  a\nb";

const LINE: &[u8] = b"ba7816bf8f01cfea414140de5dae2223b00361a396177a9cb410ff61f20015ad  abc.txt\n";

// A match, another digest, a missing file, a digit too few, and a comment.
const LIST: &[u8] = b"\
ba7816bf8f01cfea414140de5dae2223b00361a396177a9cb410ff61f20015ad  abc.txt\n\
ba7816bf8f01cfea414140de5dae2223b00361a396177a9cb410ff61f20015ae  abc.txt\n\
ba7816bf8f01cfea414140de5dae2223b00361a396177a9cb410ff61f20015ad  none.txt\n\
a7816bf8f01cfea414140de5dae2223b00361a396177a9cb410ff61f20015ad  abc.txt\n\
# end\n";

const HASH: [&str; 4] = ["sums", "hash", "-a", "blake2s"];

const CHECK: [&str; 5] = ["sums", "check", "-a", "sha256", "-"];

const MAC: [&str; 6] = ["sums", "mac", "-a", "hmac-sha256", "--key-file", "key"];

const KDF: [&str; 12] = [
    "sums",
    "kdf",
    "-a",
    "sha256",
    "--ikm-file",
    "material",
    "--salt",
    "000102030405060708090a0b0c",
    "--info",
    "f0f1f2f3f4f5f6f7f8f9",
    "-l",
    "42",
];
