// Hashes and verdicts by their numbers.

ghost use Rattle.std.specs.Prelude.{◌≡◌, ◌≤◌, ◌<◌, Some, MatchOption};
ghost use Rattle.hashes.specs.declared.alg.Alg.{Alg};
ghost use Rattle.listing.specs.Numbers.{IsAlg, number_of, verdict_number};
ghost use Rattle.sumlist.specs.declared.verdict.Verdict.{Verdict};

use source::Alg;
use sumlist::{Kind, Verdict};

/// The number of a hash, or 0 for none.
pub fn kind_number(kind: Option<Kind>) -> u32
    ensures value { result ≡ number_of kind }
    ensures bound { result ≤ 5 }
{
    match kind {
        None => 0,
        Some(Kind::Sha256) => 1,
        Some(Kind::Sha512) => 2,
        Some(Kind::Blake2b) => 3,
        Some(Kind::Blake2s) => 4,
        Some(Kind::Blake3) => 5,
    }
}

/// The hash with this number (`Some(None)` for 0), or `None` if there is none.
pub fn kind_numbered(number: u32) -> Option<Option<Kind>>
    ensures { MatchOption result (5 < number) (λ kind. number ≡ number_of kind) }
{
    match number {
        0 => Some(None),
        1 => Some(Some(Kind::Sha256)),
        2 => Some(Some(Kind::Sha512)),
        3 => Some(Some(Kind::Blake2b)),
        4 => Some(Some(Kind::Blake2s)),
        5 => Some(Some(Kind::Blake3)),
        _ => None,
    }
}

/// The algorithm of the hash with this number and digests of `len` bytes, if there is one.
pub fn alg_numbered(number: u32, len: usize) -> Option<Alg>
    ensures { MatchOption result ((alg : Alg) → IsAlg number len alg → ⊥) (λ alg. IsAlg number len alg) }
{
    let alg = match number {
        1 => Alg::Sha256,
        2 => Alg::Sha512,
        3 => Alg::Blake2b(len),
        4 => Alg::Blake2s(len),
        5 => Alg::Blake3,
        _ => return None,
    };
    if alg.is_in_range() && alg.digest_len() == len {
        Some(alg)
    } else {
        None
    }
}

/// The verdict with this number, if there is one.
pub fn verdict_numbered(number: u32) -> Option<Verdict>
    ensures { MatchOption result ((verdict : Verdict) → number ≡ verdict_number verdict → ⊥)
        (λ verdict. number ≡ verdict_number verdict) }
{
    match number {
        1 => Some(Verdict::Matches),
        2 => Some(Verdict::Differs),
        3 => Some(Verdict::Missing),
        4 => Some(Verdict::Unreadable),
        5 => Some(Verdict::TooLong),
        _ => None,
    }
}
