// The callers of the hashes' CALLING.md, word for word, and what else no other crate calls. The digests are told by
// their first bytes; whole ones stand in tests/tables/vectors, for the same inputs.

ghost use Rattle.std.specs.Prelude.{◌≡◌, ◌≤◌, ◌+◌, ◌++◌, ◌↔◌, [], ℕ, List, length, Some, IsOk, IfOk, OnOk};
ghost use Rattle.words.specs.Blake2.{blake2s};
ghost use Rattle.blake2.specs.Blake2.{blake2, unsalted};
ghost use Rattle.b3.specs.Bytes.{slice};
ghost use Rattle.b3.specs.Modes.{keyed_root};
ghost use Rattle.mac.specs.Hmac.{hmac};
ghost use Rattle.kdf.specs.Hkdf as spec;

use b3::{Blake3, EndOfOutput, output_laws, tree_laws};
use blake2::{Blake2s, parameter_laws};
use kdf::{ExpandFault, Extract, derive_b3, expand};
use mac::{BlockHash, Hmac, Sha256Stream, TagLength, hash_laws};
use std::test::Fail;
use words::{Absorb, InputTooLong, Tag};

/// Takes both pieces, one after the other.
fn take_both<A: Absorb>(hasher: &mut A, first: &[u8], second: &[u8]) -> Result<(), InputTooLong>
    ensures taken { OnOk result ((m : List ℕ) → A.holds hasher.old m
        → A.holds hasher.new (m ++ first.now ++ second.now)) }
    ensures kept { A.parameters hasher.new ≡ A.parameters hasher.old }
    ensures fits { (m : List ℕ) → A.holds hasher.old m → IsOk result
        ↔ (length m + length first.now + length second.now ≤ A.limit (A.parameters hasher.old)) }
{
    hasher.update(first)?;
    hasher.update(second)
}

/// BLAKE2s-256 of `message`.
fn blake2s_256(message: &[u8]) -> Tag
    ensures { result ≡ blake2 blake2s (unsalted blake2s 32 []) message.now }
{
    let _len = message.len();
    let Ok(mut hasher) = Blake2s::new(32) else {
        unreachable!()
    };
    match hasher.update(message) {
        Ok(()) => hasher.finish(),
        Err(_) => unreachable!(),
    }
}

/// The keyed BLAKE3 digest of a head and a body.
fn digest_of(key: &[u8; 32], head: &[u8], body: &[u8]) -> Result<[u8; 32], InputTooLong>
    ensures { IfOk result (λ digest. digest ≡ slice (keyed_root key.now (head.now ++ body.now)) 0 32) }
{
    let mut hasher = Blake3::keyed(key);
    hasher.update(head)?;
    hasher.update(body)?;
    let mut digest = [0; 32];
    hasher.output().fill(&mut digest).unwrap();
    Ok(digest)
}

/// The tag of two pieces, taken as one text.
fn tag_of_both<H: BlockHash>(
    key: &[u8; 32],
    first: &[u8],
    second: &[u8],
) -> Result<Tag, InputTooLong>
    ensures fits { IsOk result ↔ (H.BLOCK + length first.now + length second.now ≤ H.LIMIT) }
    ensures tag { IfOk result
        (λ tag. tag ≡ hmac H.hash_of H.BLOCK key.now (first.now ++ second.now)) }
{
    let mut mac = Hmac::<H>::new(key).unwrap();
    mac.update(first)?;
    mac.update(second)?;
    Ok(mac.finish())
}

/// Fills `out` with keying material from a secret, under a salt and for one use.
fn derive<H: BlockHash>(
    secret: &[u8; 32],
    salt: &[u8; 32],
    info: &[u8],
    out: &mut [u8],
) -> Result<(), ExpandFault>
    ensures { OnOk result (out.new ≡ spec.expand H.hash_of H.BLOCK
        (spec.extract H.hash_of H.BLOCK H.OUT (Some salt.now) secret.now) info.now (length out.old)) }
{
    let mut extract = Extract::<H>::new(Some(salt)).unwrap();
    extract.update(secret).unwrap();
    expand::<H>(extract.finish().bytes(), info, out)
}

#[test]
fn two_pieces_are_one_message(rt: HostRuntime) -> Result<(), Fail> {
    let mut hasher = Blake2s::new(32)?;
    take_both(&mut hasher, b"a", b"bc")?;
    let tag = blake2s_256(b"abc");
    assert_eq!(rt; hasher.finish().bytes(), tag.bytes());
    assert!(rt; tag.bytes().starts_with(b"\x50\x8c\x5e\x8c"));
    Ok(())
}

// As `b3sum --keyed` and the official vectors of BLAKE3 have them.
#[test]
fn a_keyed_digest_and_a_derived_key(rt: HostRuntime) -> Result<(), Fail> {
    let digest = digest_of(b"whats the Elvish word for friend", &[0], &[1, 2])?;
    assert!(rt; digest.starts_with(b"\x39\xe6\x7b\x76"));
    let mut key = [0; 32];
    let context = b"BLAKE3 2019-12-27 16:29:52 test vectors context";
    derive_b3(context, b"", &mut key);
    assert!(rt; key.starts_with(b"\x2c\xc3\x97\x83"));
    Ok(())
}

// As Python's `hmac.new(bytes(32), b"abc", "sha256")`, and RFC 5869, sections 2.2 and 2.3, over it.
#[test]
fn a_tag_and_a_key(rt: HostRuntime) -> Result<(), Fail> {
    let tag = tag_of_both::<Sha256Stream>(&[0; 32], b"a", b"bc")?;
    assert!(rt; tag.bytes().starts_with(b"\xfd\x7a\xdb\x15"));
    let mut key = [0; 16];
    derive::<Sha256Stream>(&[1; 32], &[2; 32], b"one use", &mut key)?;
    assert!(rt; key.starts_with(b"\x77\x9e\xc3\x8d"));
    Ok(())
}

// A refused length hands the MAC back, which still has its tag.
#[test]
fn a_mac_is_handed_back_and_verifies(rt: HostRuntime) -> Result<(), Fail> {
    let tag = Hmac::<Sha256Stream>::new(b"key")?.finish();
    let Err((mac, TagLength)) = Hmac::<Sha256Stream>::new(b"key")?.finish_left(15) else {
        panic!(rt; "15 bytes are fewer than half a digest");
    };
    assert!(rt; mac.verify(tag.bytes()));
    let other = Hmac::<Sha256Stream>::new(b"")?;
    assert!(rt; !other.verify(tag.bytes()));
    Ok(())
}

// As many chaining values are held as the number of chunks before the last has one bits.
#[test]
fn what_a_hasher_and_its_output_say(rt: HostRuntime) -> Result<(), Fail> {
    let mut hasher = Blake3::new();
    hasher.update(&[0; 3073])?;
    assert_eq!(rt; (hasher.held(), hasher.count()), (2, 3073));
    let mut output = hasher.output();
    output.seek(u64::MAX);
    let mut kept = [7];
    assert_eq!(rt; output.fill(&mut kept), Err(EndOfOutput));
    assert_eq!(rt; (kept, output.position()), ([7], u64::MAX));
    Ok(())
}

#[test]
fn the_laws_can_be_cited() {
    tree_laws();
    output_laws();
    parameter_laws();
    hash_laws();
}
