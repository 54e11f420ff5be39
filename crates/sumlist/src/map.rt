// A borrowed map as files.

ghost use Rattle.std.specs.Prelude.{◌≡◌, Some, IfErr, false};
ghost use Rattle.sumlist.specs.Named.{map_content};
ghost use Rattle.sumlist.specs.Opening.{IsOpened};

use crate::{OpenFault, Tree};
use source::Feed;
use std::collections::BTreeMap;

/// The files of a map from names to contents. Opening and reading them never fails, and takes no memory.
impl<'a> Tree for &'a BTreeMap<String, Vec<u8>> {
    type F = &'a [u8];

    ghost failure_count = { λ _. 0 };

    ghost opens = { λ _. 0 };

    ghost wants_memory = { false };

    ghost files = { λ t. Some (map_content t.now) };

    fn open(&mut self, name: &str) -> Result<&'a [u8], OpenFault>
        ensures opened { IsOpened ⟦<&'a BTreeMap<String, Vec<u8>> as Tree>⟧.files
            ⟦<&'a BTreeMap<String, Vec<u8>> as Tree>⟧.failure_count
            ⟦<&'a BTreeMap<String, Vec<u8>> as Tree>⟧.opens ⟦<&'a BTreeMap<String, Vec<u8>> as Tree>⟧.wants_memory
            result self.old self.new name.now 0
            ⟦<&'a [u8] as Feed>⟧.remaining ⟦<&'a [u8] as Feed>⟧.failure_count }
        ensures only_missing { IfErr result (λ fault. fault ≡ OpenFault.Missing) }
    {
        self.open_at(name, 0)
    }

    fn open_at(&mut self, name: &str, position: u64) -> Result<&'a [u8], OpenFault>
        ensures opened { IsOpened ⟦<&'a BTreeMap<String, Vec<u8>> as Tree>⟧.files
            ⟦<&'a BTreeMap<String, Vec<u8>> as Tree>⟧.failure_count
            ⟦<&'a BTreeMap<String, Vec<u8>> as Tree>⟧.opens ⟦<&'a BTreeMap<String, Vec<u8>> as Tree>⟧.wants_memory
            result self.old self.new name.now position
            ⟦<&'a [u8] as Feed>⟧.remaining ⟦<&'a [u8] as Feed>⟧.failure_count }
        ensures only_missing { IfErr result (λ fault. fault ≡ OpenFault.Missing) }
    {
        let content = self.get(name).ok_or(OpenFault::Missing)?;
        let start = position as usize;
        Ok(&content[start.min(content.len())..])
    }

    fn close(&mut self, _feed: &'a [u8]) {}
}

/// Does nothing. Its contract says what each map is as files: their contents, that none has failed, that it
/// counts no opens, and that no open needs memory.
pub fn map_laws<'a>(files: &'a BTreeMap<String, Vec<u8>>)
    ensures told { ⟦<&'a BTreeMap<String, Vec<u8>> as Tree>⟧.files files.entry ≡ Some (map_content files.now) }
    ensures failures { ⟦<&'a BTreeMap<String, Vec<u8>> as Tree>⟧.failure_count files.entry ≡ 0 }
    ensures opens { ⟦<&'a BTreeMap<String, Vec<u8>> as Tree>⟧.opens files.entry ≡ 0 }
    ensures memory { ⟦<&'a BTreeMap<String, Vec<u8>> as Tree>⟧.wants_memory ≡ false }
{}
