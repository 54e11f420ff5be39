// The command `kdf`: a key that is derived from key material.

ghost use Rattle.std.specs.Prelude.{◌≡◌, ◌*◌, ◌-◌, ◌≤◌, [], length, option_map, true, IfOk, IfSome, IsErrOf};
ghost use Rattle.command.specs.Keying.{KdfRuns};
ghost use Rattle.command.specs.inside.Keys as spec;
ghost use Rattle.command.specs.inside.Printing as printing;
ghost use Rattle.command.specs.inside.Keys.{Extracts, PrintsDerived, PrintsKey, function_with, derived_by, expanded};
ghost use Rattle.command.specs.inside.Seen.{OpensAtMost, DoesRun};
ghost use Rattle.command.specs.inside.Streams.{AfterFile, SameStreams};
ghost use Rattle.task.specs.Tasks.{by_blake3};
ghost use Rattle.task.specs.inside.Views.{derivation_shown};

use crate::fault::Fault;
use crate::making::{Made, write_bytes, write_made};
use crate::session::{Session, Streams, absorb_named};
use b3::Blake3;
use kdf::{Extract, expand};
use mac::{Blake2b512, Blake2s256, BlockHash, Sha256Stream, Sha512Stream, hash_laws};
use source::{Feed, Sink, write_all};
use sumlist::Tree;
use task::{Derivation, Hkdf, HmacHash, UsageFault};
use words::Tag;

// The longest output of HKDF: 255 times 64 bytes.
const OUTPUT_LIMIT: usize = 16320;

impl<'i, 't, 'o, L: Feed, T: Tree, W: Sink> Session<'i, 't, 'o, L, T, W> {
    /// Prints the key that is derived from a file (RFC 5869, 2; BLAKE3's derive_key): its digits and LF, or
    /// only its bytes. Answers 0; `-` is a file's name here. The faults are `CannotRead` and `TooLong` for
    /// the file, `Usage` if the salt or the info is longer than the hash takes (a command line is too short
    /// for that), `CannotWrite` and `OutOfMemory`.
    pub fn print_key<'n>(
        &mut self,
        derivation: &Derivation<'n>,
        is_raw: bool,
        material: &'n str,
    ) -> Result<u8, Fault<'n>>
        ensures run { DoesRun
            (λ bytes files. KdfRuns (derivation_shown derivation.now) is_raw material.entry.now files)
            (λ notes. notes ≡ [])
            result (⟦<Self as Streams>⟧.seen self.old) (⟦<Self as Streams>⟧.seen self.new) }
        ensures opens { OpensAtMost 1 (⟦<Self as Streams>⟧.seen self.old)
            (⟦<Self as Streams>⟧.seen self.new) }
        ensures same { SameStreams self.old self.new }
        ensures memory { IsErrOf result Fault.OutOfMemory → T.wants_memory ≡ true }
    {
        self.print_bytes(derivation, is_raw, material)?;
        write_all(self.out, line_end(is_raw))?;
        Ok(0)
    }

    fn print_bytes<'n>(
        &mut self,
        derivation: &Derivation<'n>,
        is_raw: bool,
        material: &'n str,
    ) -> Result<(), Fault<'n>>
        ensures key { IfSome (T.files self.old.tree.now) (λ files.
            PrintsDerived is_raw (derived_by (derivation_shown derivation.now))
            material.entry.now (files material.entry.now) result
            (W.shown self.old.out.now) (W.shown self.new.out.now)) }
        ensures read { AfterFile material.entry.now result (⟦<Self as Streams>⟧.seen self.old)
            (⟦<Self as Streams>⟧.seen self.new) }
        ensures same { SameStreams self.old self.new }
        ensures memory { IsErrOf result Fault.OutOfMemory → T.wants_memory ≡ true }
    {
        hash_laws();
        match derivation {
            Derivation::Hkdf(hkdf) => match hkdf.hash {
                HmacHash::Sha256 => self.print_hkdf::<Sha256Stream>(hkdf, is_raw, material),
                HmacHash::Sha512 => self.print_hkdf::<Sha512Stream>(hkdf, is_raw, material),
                HmacHash::Blake2b => self.print_hkdf::<Blake2b512>(hkdf, is_raw, material),
                HmacHash::Blake2s => self.print_hkdf::<Blake2s256>(hkdf, is_raw, material),
            },
            Derivation::Blake3 { context, length } => {
                self.print_derived(context, *length, is_raw, material)
            }
        }
    }

    fn print_hkdf<'n, H: BlockHash>(
        &mut self,
        hkdf: &Hkdf,
        is_raw: bool,
        material: &'n str,
    ) -> Result<(), Fault<'n>>
        requires { hkdf.now.length ≤ 255 * H.OUT }
        ensures key { IfSome (T.files self.old.tree.now) (λ files.
            PrintsDerived is_raw (spec.hkdf (function_with H.BLOCK H.OUT H.LIMIT H.hash_of) hkdf.now.length
            (option_map (λ v. v.items) hkdf.now.salt) hkdf.now.info.items)
            material.entry.now (files material.entry.now) result
            (W.shown self.old.out.now) (W.shown self.new.out.now)) }
        ensures read { AfterFile material.entry.now result (⟦<Self as Streams>⟧.seen self.old)
            (⟦<Self as Streams>⟧.seen self.new) }
        ensures same { SameStreams self.old self.new }
        ensures memory { IsErrOf result Fault.OutOfMemory → T.wants_memory ≡ true }
    {
        let prk = self.extracted::<H>(hkdf, material)?;
        write_expanded::<H, W>(hkdf, prk.bytes(), is_raw, self.out)
    }

    // The pseudorandom key of a file's bytes.
    fn extracted<'n, H: BlockHash>(
        &mut self,
        hkdf: &Hkdf,
        material: &'n str,
    ) -> Result<Tag, Fault<'n>>
        ensures prk { IfSome (T.files self.old.tree.now) (λ files.
            Extracts (function_with H.BLOCK H.OUT H.LIMIT H.hash_of) (option_map (λ v. v.items) hkdf.now.salt)
            material.entry.now (files material.entry.now) result) }
        ensures length { IfOk result (λ prk. length prk ≡ H.OUT) }
        ensures read { AfterFile material.entry.now result (⟦<Self as Streams>⟧.seen self.old)
            (⟦<Self as Streams>⟧.seen self.new) }
        ensures out { self.new.out.now ≡ self.old.out.now }
        ensures same { SameStreams self.old self.new }
        ensures memory { IsErrOf result Fault.OutOfMemory → T.wants_memory ≡ true }
    {
        let extract = Extract::<H>::new(hkdf.salt.as_deref());
        let mut extract = extract.map_err(|_| UsageFault::out_of_range("--salt"))?;
        absorb_named(&mut extract, material, self.tree)?;
        Ok(extract.finish())
    }

    fn print_derived<'n>(
        &mut self,
        context: &str,
        length: u64,
        is_raw: bool,
        material: &'n str,
    ) -> Result<(), Fault<'n>>
        ensures key { IfSome (T.files self.old.tree.now) (λ files.
            PrintsDerived is_raw (derived_by (by_blake3 context.now length))
            material.entry.now (files material.entry.now) result
            (W.shown self.old.out.now) (W.shown self.new.out.now)) }
        ensures read { AfterFile material.entry.now result (⟦<Self as Streams>⟧.seen self.old)
            (⟦<Self as Streams>⟧.seen self.new) }
        ensures same { SameStreams self.old self.new }
        ensures memory { IsErrOf result Fault.OutOfMemory → T.wants_memory ≡ true }
    {
        let mut hasher = Blake3::derive(context.as_bytes());
        absorb_named(&mut hasher, material, self.tree)?;
        let made = Made::Output(hasher.output(), length);
        Ok(write_made(made, is_raw, self.out)?)
    }
}

// What is printed after a key.
fn line_end(is_raw: bool) -> &'static [u8]
    ensures { result.now ≡ printing.line_end is_raw }
{
    if is_raw { b"" } else { b"\n" }
}

// Writes the key that is expanded from a pseudorandom key. Its buffer is not on the stack while a file is
// hashed.
#[inline(never)]
fn write_expanded<H: BlockHash, W: Sink>(
    hkdf: &Hkdf,
    prk: &[u8],
    is_raw: bool,
    out: &mut W,
) -> Result<(), Fault<'static>>
    requires length { hkdf.now.length ≤ 255 * H.OUT }
    requires prk { length prk.now ≡ H.OUT }
    ensures key { PrintsKey is_raw (expanded (function_with H.BLOCK H.OUT H.LIMIT H.hash_of)
        hkdf.now.length hkdf.now.info.items prk.now)
        result (W.shown out.old) (W.shown out.new) }
    ensures memory { IsErrOf result Fault.OutOfMemory → ⊥ }
{
    let mut key = [0; OUTPUT_LIMIT];
    let (key, _) = key.split_at_mut(hkdf.length);
    let expanded = expand::<H>(prk, hkdf.info.as_slice(), key);
    expanded.map_err(|_| UsageFault::out_of_range("--info"))?;
    Ok(write_bytes(key, is_raw, out)?)
}
