// A hasher with its parameters, for the chaining value of either function.

ghost use Rattle.std.specs.Prelude.{◌≡◌, ◌≤◌, ◌<◌, ◌+◌, ◌-◌, ◌*◌, ◌++◌, ◌↔◌, [], ℕ, List, length, Some, None};
ghost use Rattle.std.specs.Prelude.{MatchResult};
ghost use Rattle.std.specs.Prelude.{IsOk, OnOk, OnErr};
ghost use Rattle.blake2.specs.Blake2.{Parameters, blake2, salted, start, word_len};
ghost use Rattle.blake2.specs.Faults.{parameter_fault};
ghost use Rattle.blake2.specs.inside.Held.{HoldsMessage, IsHeld};

use crate::ParameterFault;
use crate::chain::Chain;
use crate::stream::{Stream, padded_block};
use words::{InputTooLong, Tag, write_at};

// The state before any input.
fn empty_stream<C: Chain<N>, const N: usize>(
    digest_length: usize,
    key: &[u8],
    salt: &[u8],
    personal: &[u8],
) -> Stream<C, N>
    requires digest { digest_length ≤ C.OUT }
    requires key { length key.now ≤ C.OUT }
    requires salt { length salt.now ≡ 2 * word_len C.variant }
    requires personal { length personal.now ≡ 2 * word_len C.variant }
    ensures held { IsHeld C.variant
        (start C.variant (salted digest_length key.now salt.now personal.now)) []
        (C.value result.chain) result.buffer result.used result.compressed }
    ensures count { result.compressed + result.used ≡ 0 }
{
    // The parameter block is half a block: digest length, key length, fanout, depth, zeros up to the middle
    // of it, then salt and personalization.
    let mut block: [u8; N] = padded_block(&[digest_length as u8, key.len() as u8, 1, 1]);
    write_at(&mut block, N / 4, salt);
    write_at(&mut block, N / 4 + N / 8, personal);
    let block = &block[..];
    Stream::new(C::start(&block[..N / 2]))
}

// The state before a message: the key's block is taken, if there is a key.
fn start_stream<C: Chain<N>, const N: usize>(
    digest_length: usize,
    key: &[u8],
    salt: &[u8],
    personal: &[u8],
) -> Stream<C, N>
    requires digest { digest_length ≤ C.OUT }
    requires key { length key.now ≤ C.OUT }
    requires salt { length salt.now ≡ 2 * word_len C.variant }
    requires personal { length personal.now ≡ 2 * word_len C.variant }
    ensures { HoldsMessage C.variant (salted digest_length key.now salt.now personal.now)
        (C.value result.chain) result.buffer result.used result.compressed [] }
{
    let mut stream = empty_stream(digest_length, key, salt, personal);
    if key.is_empty() {
        return stream;
    }
    let block: [u8; N] = padded_block(key);
    stream.update(&block);
    stream
}

// `S` is the number of bytes of the salt, and of the personalization.
#[derive(Drop)]
pub(crate) struct Hasher<C: Chain<N>, const N: usize, const S: usize> {
    pub(crate) stream: Stream<C, N>,
    pub(crate) digest_length: usize,
    pub(crate) key: Tag,
    pub(crate) salt: [u8; S],
    pub(crate) personal: [u8; S],
    ghost digest_some: { 0 < digest_length },
    ghost digest_fits: { digest_length ≤ C.OUT },
    ghost key_fits: { length key ≤ C.OUT },
    ghost salt_whole: { length salt ≡ 2 * word_len C.variant },
    ghost personal_whole: { length personal ≡ 2 * word_len C.variant },
}

impl<C: Chain<N>, const N: usize, const S: usize> Hasher<C, N, S> {
    ghost use Rattle.blake2.specs.inside.Hashers.{hasher_parameters};

    pub(crate) fn with_parameters(
        digest_length: usize,
        key: &[u8],
        salt: &[u8; S],
        personal: &[u8; S],
    ) -> Result<Hasher<C, N, S>, ParameterFault>
        requires { S ≡ 2 * word_len C.variant }
        ensures { MatchResult result
            (λ h. (parameter_fault C.OUT digest_length (length key.now) ≡ None)
            × (hasher_parameters h ≡ salted digest_length key.now salt.now personal.now)
            × HoldsMessage C.variant (hasher_parameters h)
            (C.value h.stream.chain) h.stream.buffer h.stream.used h.stream.compressed [])
            (λ e. parameter_fault C.OUT digest_length (length key.now) ≡ Some e) }
    {
        if digest_length == 0 || digest_length > C::OUT {
            return Err(ParameterFault::DigestLength);
        }
        if key.len() > C::OUT {
            return Err(ParameterFault::KeyLength);
        }
        Ok(Hasher {
            stream: start_stream(digest_length, key, salt, personal),
            digest_length,
            key: Tag::of(key).unwrap(),
            salt: *salt,
            personal: *personal,
        })
    }

    pub(crate) fn update(&mut self, piece: &[u8]) -> Result<(), InputTooLong>
        ensures fits { IsOk result
            ↔ (length piece.now ≤ C.LIMIT - (self.old.stream.compressed + self.old.stream.used)) }
        ensures count { OnOk result (self.new.stream.compressed + self.new.stream.used
            ≡ self.old.stream.compressed + self.old.stream.used + length piece.now) }
        ensures held { OnOk result ((p : Parameters) (m : List ℕ)
            → HoldsMessage C.variant p (C.value self.old.stream.chain)
            self.old.stream.buffer self.old.stream.used self.old.stream.compressed m
            → HoldsMessage C.variant p (C.value self.new.stream.chain)
            self.new.stream.buffer self.new.stream.used self.new.stream.compressed (m ++ piece.now)) }
        ensures kept { hasher_parameters self.new ≡ hasher_parameters self.old }
        ensures refused { OnErr result (self.new ≡ self.old) }
    {
        if piece.len() as u128 > self.stream.room() {
            return Err(InputTooLong);
        }
        self.stream.update(piece);
        Ok(())
    }

    pub(crate) fn finish(self) -> Tag
        ensures digest { (m : List ℕ) → HoldsMessage C.variant (hasher_parameters self)
            (C.value self.stream.chain) self.stream.buffer self.stream.used self.stream.compressed m
            → result ≡ blake2 C.variant (hasher_parameters self) m }
        ensures length { length result ≡ (hasher_parameters self).digest_length }
    {
        self.stream.finish().tag(self.digest_length)
    }
}
