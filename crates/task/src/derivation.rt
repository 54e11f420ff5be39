// What `kdf` is to print.

ghost use Rattle.std.specs.Prelude.{◌≡◌, ◌*◌, ◌≤◌};
ghost use Rattle.hashes.specs.Digest.{digest_len};
ghost use Rattle.hashes.specs.declared.kind.Kind.TheVariants as kind;
ghost use Rattle.request.specs.CommandLine.{given_of};
ghost use Rattle.task.specs.Tasks.{derived, hmac_alg};
ghost use Rattle.task.specs.inside.Seen.{IsAsDefined, seen};
ghost use Rattle.task.specs.inside.Steps as steps;
ghost use Rattle.task.specs.inside.Steps.{derivation_of};

use crate::fault::{TaskFault, UsageFault};
use crate::parameters::{HmacHash, NOT_FOR, absent, given_bytes, needed, needed_kind, number_in};
use hashes::Kind;
use request::Request;
use std::alloc::Global;

/// How a key is derived from its material.
#[derive(Drop)]
pub enum Derivation<'a> {
    /// By HKDF.
    Hkdf(Hkdf),
    /// By BLAKE3's own derivation: a key of at least one byte.
    Blake3 { context: &'a str, length: u64 },
}

/// HKDF (RFC 5869) over a hash: a key of at most 255 times the length of the hash's digest.
#[derive(Drop)]
pub struct Hkdf {
    pub hash: HmacHash,
    pub length: usize,
    pub salt: Option<Vec<u8>>,
    pub info: Vec<u8>,
    ghost most: { length ≤ 255 * digest_len (hmac_alg hash) },
}

impl<'a> Derivation<'a> {
    ghost use Rattle.task.specs.inside.Views.{derivation_shown};

    /// The derivation that a `kdf` request names, or the first fault of its settings.
    pub(crate) fn of(alloc: Global, request: &Request<'a>) -> Result<Derivation<'a>, TaskFault>
        ensures { IsAsDefined derivation_shown (derivation_of (given_of request.now)) result }
    {
        match needed_kind(request)? {
            Kind::Sha256 => Derivation::hkdf(alloc, request, HmacHash::Sha256),
            Kind::Sha512 => Derivation::hkdf(alloc, request, HmacHash::Sha512),
            Kind::Blake2b => Derivation::hkdf(alloc, request, HmacHash::Blake2b),
            Kind::Blake2s => Derivation::hkdf(alloc, request, HmacHash::Blake2s),
            Kind::Blake3 => Ok(Derivation::blake3(request)?),
        }
    }

    fn hkdf(
        alloc: Global,
        request: &Request<'a>,
        hash: HmacHash,
    ) -> Result<Derivation<'a>, TaskFault>
        ensures { IsAsDefined derivation_shown (steps.hkdf (hmac_alg hash) (given_of request.now)) result }
    {
        absent(request, NOT_FOR, &["--context"])?;
        let length = needed(request, "-l")?;
        let most = 255 * hash.digest_len();
        let length = number_in("-l", 1, most, length)? as usize;
        let salt = given_bytes(alloc, request, "--salt")?;
        let info = given_bytes(alloc, request, "--info")?;
        Ok(Derivation::Hkdf(Hkdf {
            hash,
            length,
            salt,
            info: info.unwrap_or(Vec::new(alloc)),
        }))
    }

    fn blake3(request: &Request<'a>) -> Result<Derivation<'a>, UsageFault>
        ensures { seen derivation_shown result ≡ derived kind.Blake3 (given_of request.now) }
    {
        absent(request, NOT_FOR, &["--salt", "--info"])?;
        let context = needed(request, "--context")?;
        let length = needed(request, "-l")?;
        let length = number_in("-l", 1, u64::MAX, length)?;
        Ok(Derivation::Blake3 { context, length })
    }
}
