// What `part` and `join` read and print.

ghost use Rattle.std.specs.Prelude.{◌≡◌, ◌+◌, ◌-◌, ◌<◌, ◌≤◌, ◌^◌, ◌%◌, ◌↔◌, false, true, IfSome, IsTrue};
ghost use Rattle.std.specs.Prelude.{MatchResult, codes, count_ones, nat_lt};
ghost use Rattle.std.proofs.Props.{props};
ghost use Rattle.std.specs.Option.{option_map_or};
ghost use Rattle.request.specs.CommandLine.{given_of};
ghost use Rattle.task.specs.Settings.{out_of_range};
ghost use Rattle.task.specs.Tasks.{least_power};
ghost use Rattle.task.specs.inside.Possible.{HasRoom};
ghost use Rattle.task.specs.inside.Seen.{fault_text, judged};
ghost use Rattle.task.specs.inside.Steps.{names_blake3};

use crate::fault::UsageFault;
use crate::hashing::Stretch;
use crate::parameters::{needed_kind, unless};
use hashes::Kind;
use request::Request;

/// Where a part of a file begins, and the most chunks that it has, if given.
#[derive(Clone, Copy)]
pub struct Place {
    pub first: u64,
    pub chunks: Option<u64>,
    ghost below: { first < 2 ^ 54 },
    ghost room: { IfSome chunks (HasRoom first) } by { Prim.hlevel props },
}

/// How many chunks each part of a file has, except the last: a power of two.
#[derive(Clone, Copy)]
pub struct PartLength {
    pub chunks: u64,
    ghost some: { 1 ≤ chunks },
    ghost most: { chunks ≤ 2 ^ 54 },
    ghost power: { count_ones chunks ≡ 1 },
}

/// Bytes of the output of joined parts, and how many bytes the parts must have, if given.
#[derive(Clone, Copy)]
pub struct Joining {
    pub stretch: Stretch,
    pub bytes: Option<u64>,
    ghost within: { stretch.position + stretch.length ≤ 2 ^ 64 - 1 },
}

/// Refuses every hash but BLAKE3, the only one with parts.
pub(crate) fn names_blake3(request: &Request<'_>) -> Result<(), UsageFault>
    ensures { judged result ≡ names_blake3 (given_of request.now) }
{
    let kind = needed_kind(request)?;
    unless(kind != Kind::Blake3, "-a", ": not for this command\n")
}

impl Place {
    /// The place of a part from this chunk on, if there is room for this many chunks.
    pub(crate) fn of(first: u64, chunks: Option<u64>) -> Result<Place, UsageFault>
        requires first { first < 2 ^ 54 }
        requires chunks { IfSome chunks (λ n. (1 ≤ n) × (n ≤ 2 ^ 54)) }
        ensures { let is_wrong = option_map_or (λ n. nat_lt 0 (first % least_power n)) chunks false in
            MatchResult result (λ place. (is_wrong ≡ false) × (place.first ≡ first) × (place.chunks ≡ chunks))
            (λ fault. (is_wrong ≡ true) × (fault_text fault ≡ out_of_range (codes "--first"))) }
    {
        match chunks {
            None => Ok(Place { first, chunks }),
            Some(most) if has_room(first, most) => Ok(Place { first, chunks }),
            Some(_) => Err(UsageFault::out_of_range("--first")),
        }
    }
}

// Whether this many chunks from there on can be one subtree.
fn has_room(first: u64, chunks: u64) -> bool
    requires low { 1 ≤ chunks }
    requires high { chunks ≤ 2 ^ 54 }
    ensures value { IsTrue result ↔ (first % least_power chunks ≡ 0) }
    ensures room { IsTrue result → HasRoom first chunks }
{
    first % chunks.next_power_of_two() == 0
}
