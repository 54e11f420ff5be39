// The rule of the lines that a command prints: if it needs a key, that is read first, once.

ghost use Rattle.std.specs.Prelude.{◌≡◌, ◌≤◌, ◌+◌, [], false, length, true, IfOk, IfSome, IsErrOf, MatchResult, Some};
ghost use Rattle.source.specs.Counts.{count_after};
ghost use Rattle.command.specs.inside.Keys.{takes_key};
ghost use Rattle.command.specs.Lines.{key_opens};
ghost use Rattle.command.specs.inside.Keys.{IsKey, MayRefuseFile, MayRefuseKey, key_content, key_file_limit};
ghost use Rattle.command.specs.inside.Reading.{failed};
ghost use Rattle.command.specs.inside.Rules.{HasRule, MayRefuseSum, TakesRoom, WantsRoom, keyed_line, line_by};
ghost use Rattle.command.specs.inside.Rules.{sum_content};
ghost use Rattle.task.specs.Tasks.{tags};
ghost use Rattle.command.specs.inside.Seen.{source_opens};
ghost use Rattle.command.specs.inside.Troubles.{trouble_of};
ghost use Rattle.task.specs.inside.Views.{key_shown, sum_shown};

use crate::fault::Fault;
use crate::rule::{Keyed, Rule};
use crate::session::open_file;
use mac::{Blake2b512, Blake2s256, BlockHash, Sha256Stream, Sha512Stream, hash_laws};
use source::{BLAKE2B_LEN, BLAKE2S_LEN, Feed, ReadFailed};
use std::alloc::Global;
use sumlist::Tree;
use task::{HmacHash, Key, Mac, Sum, Tagging};

// A key file has at most this many bytes.
pub(crate) const KEY_FILE_LIMIT: usize = 65_536;

/// The rule of the lines of a sum. If it needs a key, the faults are `KeyFileTooLong` and `CannotRead` for
/// its file, `KeyLength` (RFC 2104, 2; RFC 7693, 2.1 and 3.3) and `OutOfMemory`.
pub(crate) fn rule_of<'n, T: Tree>(
    alloc: Global,
    sum: Sum<'n>,
    tree: &mut T,
) -> Result<Rule, Fault<'n>>
    ensures rule { IfSome (T.files tree.old) (λ files. MatchResult result
        (λ rule. HasRule files (sum_shown sum.entry) (line_by rule))
        (λ fault. MayRefuseSum files (sum_shown sum.entry) (trouble_of fault))) }
    ensures counted { IfSome (T.files tree.old) (λ files. T.failure_count tree.new
        ≡ count_after (T.failure_count tree.old)
        (failed false (sum_content files (sum_shown sum.entry)) result).files) }
    ensures opens { T.opens tree.new ≤ T.opens tree.old + key_opens (sum_shown sum.entry) }
    ensures files { T.files tree.new ≡ T.files tree.old }
    ensures memory { IsErrOf result Fault.OutOfMemory → WantsRoom sum.entry }
    ensures room { IfOk result (λ rule. TakesRoom rule → WantsRoom sum.entry) }
{
    match sum {
        Sum::Digest(hashing) => Ok(Rule::Digest(hashing)),
        Sum::Tag(tagging, key) => Ok(Rule::Tag(keyed_of(alloc, tagging, key, tree)?)),
    }
}

/// What makes tags under a key. The key is read and checked here, with the faults of `rule_of`.
pub(crate) fn keyed_of<'n, T: Tree>(
    alloc: Global,
    tagging: Tagging,
    key: Key<'n>,
    tree: &mut T,
) -> Result<Keyed, Fault<'n>>
    ensures keyed { IfSome (T.files tree.old) (λ files. MatchResult result
        (λ keyed. HasRule files (tags tagging.mac tagging.is_raw (key_shown key.entry)) (keyed_line keyed))
        (λ fault. MayRefuseSum files (tags tagging.mac tagging.is_raw (key_shown key.entry)) (trouble_of fault))) }
    ensures same { IfOk result (λ keyed. keyed.tagging ≡ tagging) }
    ensures counted { IfSome (T.files tree.old) (λ files. T.failure_count tree.new
        ≡ count_after (T.failure_count tree.old)
        (failed false (key_content files (key_shown key.entry)) result).files) }
    ensures opens { T.opens tree.new ≤ T.opens tree.old + source_opens (key_shown key.entry) }
    ensures files { T.files tree.new ≡ T.files tree.old }
    ensures memory { IsErrOf result Fault.OutOfMemory → source_opens (key_shown key.entry) ≡ 1 }
{
    let key = key_of(alloc, key, tree)?;
    if takes(tagging.mac, key.as_slice()) {
        Ok(Keyed { tagging, key })
    } else {
        Err(Fault::KeyLength)
    }
}

// Whether the function takes a key of this length: BLAKE2 with an empty key is a plain hash.
fn takes(mac: Mac, key: &[u8]) -> bool
    ensures { result ≡ takes_key mac key.now }
{
    hash_laws();
    let length = key.len();
    match mac {
        Mac::Hmac(hash, _) => match hash {
            HmacHash::Sha256 => length as u128 <= Sha256Stream::LIMIT,
            HmacHash::Sha512 => length as u128 <= Sha512Stream::LIMIT,
            HmacHash::Blake2b => length as u128 <= Blake2b512::LIMIT,
            HmacHash::Blake2s => length as u128 <= Blake2s256::LIMIT,
        },
        Mac::Blake2b(_) => 1 <= length && length <= BLAKE2B_LEN,
        Mac::Blake2s(_) => 1 <= length && length <= BLAKE2S_LEN,
        Mac::Blake3(_) => length == 32,
    }
}

// The bytes of a key, given or in a file.
fn key_of<'n, T: Tree>(alloc: Global, key: Key<'n>, tree: &mut T) -> Result<Vec<u8>, Fault<'n>>
    ensures key { IfSome (T.files tree.old) (λ files. MatchResult result
        (λ bytes. IsKey files (key_shown key.entry) bytes.items)
        (λ fault. MayRefuseKey files (key_shown key.entry) (trouble_of fault))) }
    ensures counted { IfSome (T.files tree.old) (λ files. T.failure_count tree.new
        ≡ count_after (T.failure_count tree.old)
        (failed false (key_content files (key_shown key.entry)) result).files) }
    ensures opens { T.opens tree.new ≤ T.opens tree.old + source_opens (key_shown key.entry) }
    ensures files { T.files tree.new ≡ T.files tree.old }
    ensures memory { IsErrOf result Fault.OutOfMemory → source_opens (key_shown key.entry) ≡ 1 }
{
    let name = match key {
        Key::Given(key) => return Ok(key),
        Key::File(name) => name,
    };
    let mut feed = open_file(name, 0, tree)?;
    let answer = read_key(alloc, name, &mut feed);
    tree.close(feed);
    answer
}

// Reads a whole key file. Its buffer is not on the stack while a file is hashed.
#[inline(never)]
fn read_key<'n, F: Feed>(alloc: Global, name: &'n str, feed: &mut F) -> Result<Vec<u8>, Fault<'n>>
    ensures key { IfSome (F.remaining feed.old) (λ bytes. MatchResult result
        (λ key. (key.items ≡ bytes) × (length bytes ≤ key_file_limit))
        (λ fault. MayRefuseFile name.entry.now (Some bytes) (trouble_of fault))) }
    ensures counted { F.failure_count feed.new
        ≡ count_after (F.failure_count feed.old) (failed true (Some []) result).input }
{
    let mut key = Vec::new(alloc);
    let mut piece = [0; 4096];
    while key.len() <= KEY_FILE_LIMIT {
        match feed.read(&mut piece) {
            Ok(0) => return Ok(key),
            Ok(count) => key.extend_from_slice(&piece[..count])?,
            Err(ReadFailed) => return Err(Fault::CannotRead(name)),
        }
    }
    Err(Fault::KeyFileTooLong)
}
