// Lines of lists and of reports as they are written.

ghost use Rattle.std.specs.Prelude.{◌≡◌, ◌≢◌, ◌+◌, ◌++◌, ◌⊎◌, ℕ, List, length, not, nat_eq, MatchResult};
ghost use Rattle.hashes.specs.declared.alg.Alg.{Alg};
ghost use Rattle.sumlist.specs.Escape.{escaped};
ghost use Rattle.sumlist.specs.Filled.{HasLine, line_text};
ghost use Rattle.sumlist.specs.Report.{verdict_text};
ghost use Rattle.sumlist.specs.declared.verdict.Verdict.{Verdict};
ghost use Rattle.listing.specs.Numbers.{IsAlg, verdict_number};
ghost use Rattle.hash_c.specs.Lists.{CanStand, IsNoHash, WritesLine, WritesReport};
ghost use Rattle.hash_c.specs.declared.statuses.TheConstants.{SUMS_DIGEST_LENGTH, SUMS_NO_HASH};

use crate::statuses::{
    SUMS_DIGEST_LENGTH, SUMS_NO_HASH, SUMS_NO_LINE, SUMS_NO_VERDICT, SUMS_OK, SUMS_OUTPUT_LENGTH,
};
use listing::{alg_numbered, verdict_numbered};
use source::Alg;
use sumlist::{FillFault, entry_len, fill_entry, fill_verdict, verdict_len};

/// The length in bytes of the line of an entry, with its LF: for the hash with this number, a digest of
/// `digest_len` bytes, and this name; tagged unless `is_tagged` is 0. 0 if there is no such hash, digest or
/// line.
#[unsafe(no_mangle)]
pub extern "C" fn sums_list_line_length(
    hash: u32,
    is_tagged: u32,
    digest_len: usize,
    name: &[u8],
) -> usize
    ensures line { (alg : Alg) (digest : List ℕ) → IsAlg hash (length digest) alg → length digest ≡ digest_len
        → HasLine (not (nat_eq is_tagged 0)) alg name.now
        → result ≡ length (line_text (not (nat_eq is_tagged 0)) (record { name = name.now; alg = alg; tag = digest })) }
    ensures none { result ≢ 0 → (alg : Alg) × IsAlg hash digest_len alg
        × HasLine (not (nat_eq is_tagged 0)) alg name.now }
{
    let Some(alg) = alg_numbered(hash, digest_len) else {
        return 0;
    };
    entry_len(alg, is_tagged != 0, name).unwrap_or(0)
}

/// Fills `out` with the line of an entry, and its LF: `SUMS_NO_HASH` if no hash has this number, else
/// `SUMS_DIGEST_LENGTH` if it has no digests of that length, else `SUMS_NO_LINE` if the name has no line,
/// else `SUMS_OUTPUT_LENGTH` if the line is not as long as `out`.
#[unsafe(no_mangle)]
pub extern "C" fn sums_list_line(
    out: &mut [u8],
    hash: u32,
    is_tagged: u32,
    digest: &[u8],
    name: &[u8],
) -> u32
    ensures { WritesLine hash (not (nat_eq is_tagged 0)) digest.now name.now out.old out.new result }
{
    let alg = match alg_of(hash, digest.len()) {
        Ok(alg) => alg,
        Err(status) => return status,
    };
    match fill_entry(alg, is_tagged != 0, name, digest, out) {
        Ok(()) => SUMS_OK,
        Err(FillFault::BadTag) => SUMS_DIGEST_LENGTH,
        Err(FillFault::NoLine) => SUMS_NO_LINE,
        Err(FillFault::Length) => SUMS_OUTPUT_LENGTH,
    }
}

// The algorithm of the hash with this number and digests of this length, or the status if there is none.
fn alg_of(hash: u32, digest_len: usize) -> Result<Alg, u32>
    ensures { MatchResult result (λ alg. IsAlg hash digest_len alg)
        (λ status. ((status ≡ SUMS_NO_HASH) × IsNoHash hash) ⊎ ((status ≡ SUMS_DIGEST_LENGTH)
        × (IsNoHash hash → ⊥) × ((alg : Alg) → IsAlg hash digest_len alg → ⊥))) }
{
    if hash == 0 || hash > 5 {
        return Err(SUMS_NO_HASH);
    }
    match alg_numbered(hash, digest_len) {
        Some(alg) => Ok(alg),
        None => Err(SUMS_DIGEST_LENGTH),
    }
}

/// The length in bytes of the report's line for this name and the verdict with this number, with its LF. 0 if
/// there is no such verdict or line.
#[unsafe(no_mangle)]
pub extern "C" fn sums_list_report_length(verdict: u32, name: &[u8]) -> usize
    ensures line { (v : Verdict) → verdict ≡ verdict_number v → CanStand name.now
        → result ≡ length (escaped name.now ++ verdict_text v) }
    ensures none { result ≢ 0 → (v : Verdict) × (verdict ≡ verdict_number v) × CanStand name.now }
{
    let Some(verdict) = verdict_numbered(verdict) else {
        return 0;
    };
    verdict_len(name, verdict).unwrap_or(0)
}

/// Fills `out` with the line of a report, and its LF: `SUMS_NO_VERDICT` if no verdict has this number, else
/// `SUMS_NO_LINE` if the name is not UTF-8 or longer than a line may be, else `SUMS_OUTPUT_LENGTH` if the
/// line is not as long as `out`.
#[unsafe(no_mangle)]
pub extern "C" fn sums_list_report(out: &mut [u8], verdict: u32, name: &[u8]) -> u32
    ensures { WritesReport verdict name.now out.old out.new result }
{
    let Some(verdict) = verdict_numbered(verdict) else {
        return SUMS_NO_VERDICT;
    };
    let Some(len) = verdict_len(name, verdict) else {
        return SUMS_NO_LINE;
    };
    if len != out.len() {
        return SUMS_OUTPUT_LENGTH;
    }
    fill_verdict(str::from_utf8(name).unwrap(), verdict, out);
    SUMS_OK
}
