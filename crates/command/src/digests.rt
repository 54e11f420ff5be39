// The digest of a file, or its tag under a key.

ghost use Rattle.std.specs.Prelude.{◌≡◌, ◌<◌, ◌≤◌, ◌+◌, ◌-◌, ◌*◌, ◌^◌, ℕ, length, vec_len, IfOk, IfSome};
ghost use Rattle.std.specs.Prelude.{OnOk, ◌/◌, take};
ghost use Rattle.std.specs.Io.KnownBytes.{IsAtEnd};
ghost use Rattle.b3.specs.Bytes.{slice};
ghost use Rattle.b3.specs.inside.Output.{output_root};
ghost use Rattle.source.specs.Faults.{PumpCounts};
ghost use Rattle.source.specs.Pumped.{Gives};
ghost use Rattle.task.specs.inside.Possible.{HasDigest, IsPartSize, mac_len};
ghost use Rattle.command.specs.Lines.{digest_line, beside};
ghost use Rattle.command.specs.inside.Keys.{HasBytes, made_bytes};
ghost use Rattle.command.specs.inside.Making.{Makes, made_len};
ghost use Rattle.command.specs.Keying.{mac_line};
ghost use Rattle.command.specs.inside.Rules.{keyed_line};
ghost use Rattle.mac.specs.Hmac as spec;

use crate::making::Made;
use crate::rule::{Keyed, ShortKeyed};
use b3::{Blake3, CHUNK_LEN, Mode, Output};
use blake2::{Blake2b, Blake2s};
use mac::{Blake2b512, Blake2s256, BlockHash, Hmac, Sha256Stream, Sha512Stream, hash_laws};
use source::{AnyHash, BLAKE3_LEN, Feed, SourceFault, digest_of, output_in_parts, pump};
use std::alloc::{AllocError, Global};
use sumlist::MakesTag;
use task::{Hash, HmacHash, Mac, Requested, Stretch, Tagging};
use words::Tag;

/// Room for a part of this many chunks.
pub(crate) fn part_buffer(alloc: Global, chunks: u64) -> Result<Vec<u8>, AllocError>
    requires { IsPartSize chunks }
    ensures power { IfOk result (λ buffer. (e : ℕ) × (vec_len buffer ≡ 1024 * 2 ^ e)) }
    ensures length { IfOk result (λ buffer. vec_len buffer ≡ 1024 * chunks) }
{
    vec![in alloc; 0u8; CHUNK_LEN * chunks as usize]
}

/// The digest of all that a feed gives. By BLAKE3 it is hashed in parts as long as the buffer, unless that is empty.
pub(crate) fn digest_of_feed<F: Feed>(
    requested: Requested,
    buffer: &mut [u8],
    feed: &mut F,
) -> Result<Made, SourceFault>
    requires digest { HasDigest requested }
    requires buffer { 0 < length buffer.old → (e : ℕ) × (length buffer.old ≡ 1024 * 2 ^ e) }
    ensures made { IfSome (F.remaining feed.old) (λ bytes. Makes (digest_line requested).limit
        (λ m made. made_bytes made ≡ (digest_line requested).bytes m) bytes result) }
    ensures has { IfOk result HasBytes }
    ensures sized { IfOk result (λ made. made_len made ≡ requested.stretch.length) }
    ensures end { OnOk result (IsAtEnd (F.remaining feed.new)) }
    ensures gave { Gives (F.remaining feed.old) (F.remaining feed.new) }
    ensures count { PumpCounts result (F.failure_count feed.old) (F.failure_count feed.new) }
{
    let length = requested.stretch.length as usize;
    match requested.hash {
        Hash::Whole(kind) => {
            let hasher = AnyHash::new(kind.longest()).unwrap();
            Ok(Made::Tag(digest_of(hasher, feed)?))
        }
        Hash::Blake2b(salt, personal) => {
            let mut hasher = Blake2b::with_parameters(length, &[], &salt, &personal).unwrap();
            pump(&mut hasher, feed)?;
            Ok(Made::Tag(hasher.finish()))
        }
        Hash::Blake2s(salt, personal) => {
            let mut hasher = Blake2s::with_parameters(length, &[], &salt, &personal).unwrap();
            pump(&mut hasher, feed)?;
            Ok(Made::Tag(hasher.finish()))
        }
        Hash::Blake3 if !buffer.is_empty() => {
            let output = output_in_parts(Mode::Hash, feed, buffer)?;
            Ok(stretch_of(output, requested.stretch))
        }
        Hash::Blake3 => {
            let mut hasher = Blake3::new();
            pump(&mut hasher, feed)?;
            Ok(stretch_of(hasher.output(), requested.stretch))
        }
    }
}

// A stretch of an output.
fn stretch_of(mut output: Output, stretch: Stretch) -> Made
    requires { stretch.position + stretch.length ≤ 2 ^ 64 - 1 }
    ensures bytes { made_bytes result ≡ slice (output_root output) stretch.position stretch.length }
    ensures has { HasBytes result }
    ensures length { made_len result ≡ stretch.length }
{
    output.seek(stretch.position);
    Made::Output(output, stretch.length)
}

/// The number of digits of a tag beside which a name has to fit.
pub(crate) fn tag_digits(tagging: Tagging) -> usize
    ensures { (key : _) → (mac_line tagging.is_raw tagging.mac key).place ≡ beside result }
{
    match tagging.mac {
        Mac::Hmac(_, length) | Mac::Blake2b(length) | Mac::Blake2s(length) => 2 * length,
        Mac::Blake3(_) => 2 * BLAKE3_LEN,
    }
}

/// The tag of all that a feed gives.
pub(crate) fn tag_of_feed<F: Feed>(keyed: &Keyed, feed: &mut F) -> Result<Made, SourceFault>
    ensures made { IfSome (F.remaining feed.old) (λ bytes. Makes (keyed_line keyed.now).limit
        (λ m made. made_bytes made ≡ (keyed_line keyed.now).bytes m) bytes result) }
    ensures has { IfOk result HasBytes }
    ensures sized { IfOk result (λ made. made_len made ≡ mac_len keyed.now.tagging.mac) }
    ensures end { OnOk result (IsAtEnd (F.remaining feed.new)) }
    ensures gave { Gives (F.remaining feed.old) (F.remaining feed.new) }
    ensures count { PumpCounts result (F.failure_count feed.old) (F.failure_count feed.new) }
{
    hash_laws();
    let key = keyed.key.as_slice();
    match keyed.tagging.mac {
        Mac::Hmac(hash, length) => match hash {
            HmacHash::Sha256 => hmac::<Sha256Stream, F>(length, key, feed),
            HmacHash::Sha512 => hmac::<Sha512Stream, F>(length, key, feed),
            HmacHash::Blake2b => hmac::<Blake2b512, F>(length, key, feed),
            HmacHash::Blake2s => hmac::<Blake2s256, F>(length, key, feed),
        },
        Mac::Blake2b(length) => {
            let mut hasher = Blake2b::keyed(length, key).unwrap();
            pump(&mut hasher, feed)?;
            Ok(Made::Tag(hasher.finish()))
        }
        Mac::Blake2s(length) => {
            let mut hasher = Blake2s::keyed(length, key).unwrap();
            pump(&mut hasher, feed)?;
            Ok(Made::Tag(hasher.finish()))
        }
        Mac::Blake3(length) => {
            let Some((key, [])) = key.split_first_chunk::<32>() else {
                unreachable!()
            };
            let mut hasher = Blake3::keyed(key);
            pump(&mut hasher, feed)?;
            Ok(Made::Output(hasher.output(), length))
        }
    }
}

impl MakesTag for ShortKeyed {
    ghost limit = { λ k. (keyed_line k.keyed).limit };

    ghost makes = { λ k. (keyed_line k.keyed).bytes };

    fn tag_of<F: Feed>(&self, feed: &mut F) -> Result<Tag, SourceFault> {
        Ok(tag_of_feed(&self.keyed, feed)?.into_tag())
    }
}

// The first `count` bytes of HMAC over a hash.
fn hmac<H: BlockHash, F: Feed>(count: usize, key: &[u8], feed: &mut F) -> Result<Made, SourceFault>
    requires half { H.OUT / 2 ≤ count }
    requires whole { count ≤ H.OUT }
    requires key { length key.now ≤ H.LIMIT }
    ensures made { IfSome (F.remaining feed.old) (λ bytes. Makes (H.LIMIT - H.BLOCK)
        (λ m made. made_bytes made ≡ take count (spec.hmac H.hash_of H.BLOCK key.now m)) bytes result) }
    ensures has { IfOk result HasBytes }
    ensures sized { IfOk result (λ made. made_len made ≡ count) }
    ensures end { OnOk result (IsAtEnd (F.remaining feed.new)) }
    ensures gave { Gives (F.remaining feed.old) (F.remaining feed.new) }
    ensures count { PumpCounts result (F.failure_count feed.old) (F.failure_count feed.new) }
{
    let mut hmac = Hmac::<H>::new(key).unwrap();
    pump(&mut hmac, feed)?;
    Ok(Made::Tag(hmac.finish_left(count).unwrap()))
}
