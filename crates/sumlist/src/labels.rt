// The elements of texts that name their algorithm: a label, and the end after a body.

ghost use Rattle.std.specs.Prelude.{◌≡◌, ℕ, ◌*◌, ◌+◌, ◌<◌, ◌≤◌, ◌↔◌, ◌++◌, IsTrue, MatchOption, length};
ghost use Rattle.std.specs.Fmt.{decimal};
ghost use Rattle.hashes.specs.Digest.{IsInRange};
ghost use Rattle.hashes.specs.Kinds.{label_of};
ghost use Rattle.sumlist.specs.Tagged.{IsLabel};
ghost use Rattle.sumlist.specs.inside.Labels.{Ended, IsNumbered, NotEnded, NotNamed, NotNumbered};

use crate::Kind;
use itoa::Buffer;
use source::{Alg, BLAKE2B_LEN, BLAKE2S_LEN};

// The label of an algorithm, and the number of the tag's bits if it ends in one.
pub(crate) fn label(alg: Alg, number: &mut Buffer) -> (&'static str, &str)
    requires { IsInRange alg }
    ensures value { result.0.now ++ result.1.now ≡ label_of alg }
    ensures bound { length result.0.now + length result.1.now ≤ 28 }
{
    match alg {
        Alg::Blake2b(len) if len < BLAKE2B_LEN => ("BLAKE2b-", number.format(8 * len)),
        Alg::Blake2s(len) if len < BLAKE2S_LEN => ("BLAKE2s-", number.format(8 * len)),
        alg => (Kind::of(alg).label(), ""),
    }
}

// What stands before the last `) = ` that this many digits follow, and the digits.
pub(crate) fn cut_end(rest: &[u8], digits: usize) -> Option<(&[u8], &[u8])>
    requires { digits ≤ 128 }
    ensures { MatchOption result (NotEnded rest.now digits)
        (λ p. Ended rest.now digits p.0.now p.1.now) }
{
    if rest.len() < digits + 4 {
        return None;
    }
    let (body, back) = rest.split_at(rest.len() - (digits + 4));
    let (close, end) = back.split_at(4);
    (close == b") = ".as_slice()).then_some((body, end))
}

// The algorithm that a label names.
pub(crate) fn label_alg(label: &[u8]) -> Option<Alg>
    ensures { MatchOption result (NotNamed label.now) (λ a. IsInRange a × IsLabel label.now a) }
{
    if let Some(kind) = Kind::labelled(label) {
        return Some(kind.longest());
    }
    if let Some(n) = find_number(label, b"BLAKE2b-", BLAKE2B_LEN) {
        return Some(Alg::Blake2b(n));
    }
    find_number(label, b"BLAKE2s-", BLAKE2S_LEN).map(Alg::Blake2s)
}

// The length of a tag in bytes, up to a bound, if its number of bits follows the front, without a leading
// zero.
fn find_number(label: &[u8], front: &[u8], most: usize) -> Option<usize>
    requires { most ≤ 64 }
    ensures { MatchOption result (NotNumbered label.now front.now most)
        (λ n. IsNumbered label.now front.now most n) }
{
    let digits = label.strip_prefix(front)?;
    let mut buffer = Buffer::new();
    let mut n = 0;
    while n < most {
        n += 1;
        if buffer.format(8 * n).as_bytes() == digits {
            return Some(n);
        }
    }
    None
}
