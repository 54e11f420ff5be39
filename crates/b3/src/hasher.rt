// The hasher (the BLAKE3 paper, section 5.1).

ghost use Rattle.std.specs.Prelude.{◌≡◌, ℕ, ◌+◌, ◌-◌, ◌*◌, ◌%◌, ◌^◌, ◌<◌, ◌≤◌, List, [], ◌∷◌, ◌++◌, length};
ghost use Rattle.std.specs.Prelude.{slice_index_or, take, drop, count_ones, Some};
ghost use Rattle.b3.specs.inside.Chunks.{IsChunkValue};

use crate::chunk::{CHUNK_LEN, Chunk};
use crate::lanes::{chunk_values, open_lefts, subtree_of};
use crate::mode::{Mode, Parameters};
use crate::node::BLOCK_LEN;
use crate::output::Output;
use crate::stack::Stack;
use words::Absorb;

// The bytes of eight chunks.
pub(crate) const GROUP_LEN: usize = 8192;

// The level of the longest run of 8 * 2 ^ level chunks, at most 1024 of them, that lies within `left` bytes
// and begins at chunk `closed`, a multiple of its length.
fn run_level(closed: u64, left: usize) -> u32
    requires aligned { closed % 8 ≡ 0 }
    requires some { 8192 ≤ left }
    ensures aligned { closed % (8 * 2 ^ result) ≡ 0 }
    ensures run { 8192 * 2 ^ result ≤ left }
    ensures bound { result ≤ 7 }
{
    let aligned = (closed / 8).trailing_zeros();
    let longest = (left / GROUP_LEN).ilog2();
    aligned.min(longest).min(7)
}

// The bytes of a run of 8 * 2 ^ level chunks.
fn run_len(level: u32) -> usize
    requires { level ≤ 7 }
    ensures { result ≡ 8192 * 2 ^ level }
{
    8192usize << level
}

// The chunks of a subtree of 2 ^ level chunks.
fn subtree_chunks(level: u32) -> u64
    requires { level ≤ 10 }
    ensures { result ≡ 2 ^ level }
{
    1u64 << level
}

// The bytes of the chunks up to the next multiple of eight, without the chunk that holds the last of `left`
// bytes.
fn whole_chunks(closed: u64, left: usize) -> usize
    requires { 1024 < left }
    ensures some { 0 < result }
    ensures bound { result ≤ 8192 }
    ensures whole { result % 1024 ≡ 0 }
    ensures more { result < left }
{
    let aligned = 8 - (closed % 8) as usize;
    aligned.min((left - 1) / CHUNK_LEN) * CHUNK_LEN
}

/// A BLAKE3 hasher, in one of the three modes. It takes its input by `Absorb`, at most 2^64 - 1 bytes in all,
/// allocates nothing, and holds at most 54 chaining values.
#[derive(Drop)]
pub struct Blake3 {
    // the closed chunks; how many they are is the open chunk's number
    pub(crate) stack: Stack,
    pub(crate) chunk: Chunk,
    // the chaining value of the open chunk, if it was computed with those of the chunks before it
    pub(crate) made: Option<[u32; 8]>,
    ghost length_fits: { 1024 * stack.closed + chunk.len ≤ 2 ^ 64 - 1 },
    ghost made_fits: { (v : List ℕ) → made ≡ Some v
        → IsChunkValue stack.parameters.key stack.parameters.flags stack.closed chunk v },
}

impl Blake3 {
    ghost use Rattle.b3.specs.inside.Hasher.{Adds, Holds, IsSplit, hasher_count, hasher_room, hasher_parameters};
    ghost use Rattle.b3.specs.inside.Output.{output_root, output_position};
    ghost use Rattle.b3.specs.Modes.{hash_parameters, keyed_parameters, derive_parameters, root_of};
    ghost use Rattle.b3.specs.Tree.{chunk_count, tree};
    ghost use Rattle.b3.specs.Node.{cv};
    ghost use Rattle.b3.specs.Chunk.{chunk, value_before};
    ghost use Rattle.b3.specs.inside.Runs.{run_cv};

    /// A hasher of the empty input in the mode `hash` (section 2.3).
    pub fn new() -> Blake3
        ensures parameters { ⟦<Blake3 as Absorb>⟧.parameters result ≡ hash_parameters }
        ensures room { ⟦<Blake3 as Absorb>⟧.room_left result ≡ 2 ^ 64 - 1 }
        ensures holds { ⟦<Blake3 as Absorb>⟧.holds result [] }
    {
        Blake3::under(Mode::Hash.parameters())
    }

    /// A hasher of the empty input in the mode `keyed_hash`, under a key of 32 bytes (section 2.3).
    pub fn keyed(key: &[u8; 32]) -> Blake3
        ensures parameters { ⟦<Blake3 as Absorb>⟧.parameters result ≡ keyed_parameters key.now }
        ensures room { ⟦<Blake3 as Absorb>⟧.room_left result ≡ 2 ^ 64 - 1 }
        ensures holds { ⟦<Blake3 as Absorb>⟧.holds result [] }
    {
        Blake3::under(Mode::Keyed(*key).parameters())
    }

    /// A hasher in the mode `derive_key`, under a context, without key material yet (section 2.3). The
    /// context is a text that is meant for one use only; what the hasher then takes is the material.
    pub fn derive(context: &[u8]) -> Blake3
        ensures parameters { ⟦<Blake3 as Absorb>⟧.parameters result ≡ derive_parameters context.now }
        ensures room { ⟦<Blake3 as Absorb>⟧.room_left result ≡ 2 ^ 64 - 1 }
        ensures holds { ⟦<Blake3 as Absorb>⟧.holds result [] }
    {
        Blake3::under(Mode::derive(context).parameters())
    }

    /// Forgets the input. The mode stays, and so does its key or context.
    pub fn reset(&mut self)
        ensures parameters { ⟦<Blake3 as Absorb>⟧.parameters self.new ≡ ⟦<Blake3 as Absorb>⟧.parameters self.old }
        ensures room { ⟦<Blake3 as Absorb>⟧.room_left self.new ≡ 2 ^ 64 - 1 }
        ensures holds { ⟦<Blake3 as Absorb>⟧.holds self.new [] }
    {
        *self = Blake3::under(self.stack.parameters);
    }

    /// A hasher of the empty input under a mode's key words and flag.
    pub(crate) fn under(parameters: Parameters) -> Blake3
        ensures parameters { hasher_parameters result ≡ parameters.flags ∷ parameters.key }
        ensures room { hasher_room result ≡ 2 ^ 64 - 1 }
        ensures holds { Holds result [] }
    {
        Blake3 {
            stack: Stack::new(parameters),
            chunk: Chunk::new(&parameters.key),
            made: None,
        }
    }

    /// How many bytes the hasher has taken.
    pub fn count(&self) -> u64
        ensures value { result + ⟦<Blake3 as Absorb>⟧.room_left self.now ≡ 2 ^ 64 - 1 }
        ensures message { (m : List ℕ) → ⟦<Blake3 as Absorb>⟧.holds self.now m → result ≡ length m }
    {
        CHUNK_LEN as u64 * self.stack.closed + self.chunk.len() as u64
    }

    /// How many chaining values of subtrees before the open chunk the hasher holds: for n chunks of input, as
    /// many as n - 1 has one-bits, and at most 54. The open chunk's own, which may be kept if that chunk is
    /// full, is not counted; together they are then at most 54.
    pub fn held(&self) -> usize
        ensures value { (m : List ℕ) → ⟦<Blake3 as Absorb>⟧.holds self.now m
            → result ≡ count_ones (chunk_count m - 1) }
        ensures bound { result ≤ 54 }
        ensures together { (m : List ℕ) → ⟦<Blake3 as Absorb>⟧.holds self.now m → length m ≡ 1024 * chunk_count m
            → result + 1 ≤ 54 }
    {
        self.stack.values.len()
    }

    /// The output of what the hasher has taken, at position 0. The hasher can be continued.
    pub fn output(&self) -> Output
        ensures root { (m : List ℕ) → ⟦<Blake3 as Absorb>⟧.holds self.now m
            → output_root result ≡ root_of (⟦<Blake3 as Absorb>⟧.parameters self.now) m }
        ensures position { output_position result ≡ 0 }
    {
        if self.stack.closed == 0 {
            let flags = self.stack.parameters.flags;
            return Output::of(self.chunk.node(self.stack.closed, flags));
        }
        Output::of(self.stack.fold(&self.chunk_value()))
    }

    // The chaining value of the open chunk.
    fn chunk_value(&self) -> [u32; 8]
        ensures { IsChunkValue self.now.stack.parameters.key self.now.stack.parameters.flags self.now.stack.closed
            self.now.chunk result }
    {
        if let Some(value) = self.made {
            return value;
        }
        let flags = self.stack.parameters.flags;
        self.chunk.node(self.stack.closed, flags).chaining_value()
    }

    /// Closes the open chunk if it is full, since more bytes follow.
    pub(crate) fn make_room(&mut self)
        requires { hasher_count self.old + 1 < 2 ^ 64 }
        ensures room { self.new.chunk.len < 1024 }
        ensures kept { hasher_parameters self.new ≡ hasher_parameters self.old }
        ensures count { hasher_count self.new ≡ hasher_count self.old }
        ensures split { (m : List ℕ) → IsSplit self.old m → IsSplit self.new m }
    {
        if self.chunk.len() < CHUNK_LEN {
            return;
        }
        let value = self.chunk_value();
        self.stack.push(1, value);
        self.chunk = Chunk::new(&self.stack.parameters.key);
        self.made = None;
    }

    // Adds a subtree of 2 ^ level chunks by its chaining value; more bytes follow it.
    fn push_value(&mut self, level: u32, value: [u32; 8])
        requires empty { self.old.chunk.len ≡ 0 }
        requires bound { level ≤ 10 }
        requires aligned { self.old.stack.closed % 2 ^ level ≡ 0 }
        requires more { 1024 * self.old.stack.closed + 1024 * 2 ^ level + 1 < 2 ^ 64 }
        ensures parameters { self.new.stack.parameters ≡ self.old.stack.parameters }
        ensures closed { self.new.stack.closed ≡ self.old.stack.closed + 2 ^ level }
        ensures chunk { self.new.chunk.len ≡ 0 }
        ensures split { (m y : List ℕ) → IsSplit self.old m → length y ≡ 1024 * 2 ^ level
            → value ≡ cv (tree self.old.stack.parameters.key self.old.stack.parameters.flags self.old.stack.closed y)
            → IsSplit self.new (m ++ y) }
    {
        self.stack.push(subtree_chunks(level), value);
        self.made = None;
    }

    // Adds a run of 8 * 2 ^ level chunks; more bytes follow it.
    fn push_run(&mut self, level: u32, bytes: &[u8])
        requires empty { self.old.chunk.len ≡ 0 }
        requires bound { level ≤ 7 }
        requires aligned { self.old.stack.closed % (8 * 2 ^ level) ≡ 0 }
        requires length { length bytes.now ≡ 8192 * 2 ^ level }
        requires more { 1024 * self.old.stack.closed + length bytes.now + 1 < 2 ^ 64 }
        ensures { Adds self.old self.new bytes.now 0 }
    {
        let value = subtree_of(&self.stack.parameters, self.stack.closed, level, bytes);
        self.push_value(level + 3, value);
    }

    // Adds a run of 8 * 2 ^ level chunks, of which the last stays open.
    fn open_run(&mut self, level: u32, bytes: &[u8])
        requires empty { self.old.chunk.len ≡ 0 }
        requires bound { level ≤ 7 }
        requires aligned { self.old.stack.closed % (8 * 2 ^ level) ≡ 0 }
        requires length { length bytes.now ≡ 8192 * 2 ^ level }
        requires more { 1024 * self.old.stack.closed + length bytes.now < 2 ^ 64 }
        ensures { Adds self.old self.new bytes.now 1024 }
    {
        let (lefts, before) = open_lefts(&self.stack.parameters, self.stack.closed, level, bytes);
        let mut left = level + 3;
        'lefts: while left > 0 {
            left -= 1;
            self.push_value(left, lefts[left as usize]);
        }
        self.open_chunk(before, None, &bytes[bytes.len() - CHUNK_LEN..]);
    }

    // Adds the first `n` of at most eight whole chunks by their chaining values; more bytes follow them.
    fn push_values(&mut self, values: &[[u32; 8]; 8], n: usize)
        requires empty { self.old.chunk.len ≡ 0 }
        requires bound { n ≤ 8 }
        requires more { 1024 * self.old.stack.closed + 1024 * n + 1 < 2 ^ 64 }
        ensures parameters { self.new.stack.parameters ≡ self.old.stack.parameters }
        ensures closed { self.new.stack.closed ≡ self.old.stack.closed + n }
        ensures chunk { self.new.chunk.len ≡ 0 }
        ensures split { (m y : List ℕ) → IsSplit self.old m → length y ≡ 1024 * n
            → ((i : ℕ) → i < n
            → slice_index_or values.now i []
            ≡ run_cv self.old.stack.parameters.key self.old.stack.parameters.flags self.old.stack.closed y 0 i)
            → IsSplit self.new (m ++ y) }
    {
        'chunks: for i in 0..n {
            self.push_value(0, values[i]);
        }
    }

    // Adds a whole chunk, which stays open, by the chaining value before its last block, and the chunk's own
    // if it has been computed.
    fn open_chunk(&mut self, before: [u32; 8], made: Option<[u32; 8]>, bytes: &[u8])
        requires empty { self.old.chunk.len ≡ 0 }
        requires whole { length bytes.now ≡ 1024 }
        requires made { (v : List ℕ) → made ≡ Some v → (before ≡ value_before self.old.stack.parameters.key
            self.old.stack.parameters.flags self.old.stack.closed bytes.now 15)
            × (v ≡ cv (chunk self.old.stack.parameters.key self.old.stack.parameters.flags self.old.stack.closed
            bytes.now)) }
        requires bound { 1024 * self.old.stack.closed + 1024 < 2 ^ 64 }
        ensures parameters { self.new.stack.parameters ≡ self.old.stack.parameters }
        ensures closed { self.new.stack.closed ≡ self.old.stack.closed }
        ensures chunk { self.new.chunk.len ≡ 1024 }
        ensures split { (m : List ℕ) → IsSplit self.old m
            → before ≡ value_before self.old.stack.parameters.key self.old.stack.parameters.flags self.old.stack.closed
            bytes.now 15
            → IsSplit self.new (m ++ bytes.now) }
    {
        self.chunk = Chunk::full(before, &bytes[CHUNK_LEN - BLOCK_LEN..]);
        self.made = made;
    }

    // Adds at most eight whole chunks; more bytes follow them. Not inlined, so that shorter messages do not
    // pay for its stack buffers.
    #[inline(never)]
    fn push_chunks(&mut self, bytes: &[u8])
        requires empty { self.old.chunk.len ≡ 0 }
        requires some { 0 < length bytes.now }
        requires whole { length bytes.now % 1024 ≡ 0 }
        requires bound { length bytes.now ≤ 8192 }
        requires more { 1024 * self.old.stack.closed + length bytes.now + 1 < 2 ^ 64 }
        ensures { Adds self.old self.new bytes.now 0 }
    {
        let mut made = [[0; 8]; 8];
        let mut before = made;
        let first = self.stack.closed;
        chunk_values(&self.stack.parameters, first, bytes, &mut made, &mut before);
        self.push_values(&made, bytes.len() / CHUNK_LEN);
    }

    // Adds at most eight whole chunks, of which the last stays open. Not inlined either.
    #[inline(never)]
    fn open_chunks(&mut self, bytes: &[u8])
        requires empty { self.old.chunk.len ≡ 0 }
        requires some { 0 < length bytes.now }
        requires whole { length bytes.now % 1024 ≡ 0 }
        requires bound { length bytes.now ≤ 8192 }
        requires more { 1024 * self.old.stack.closed + length bytes.now < 2 ^ 64 }
        ensures { Adds self.old self.new bytes.now 1024 }
    {
        let mut made = [[0; 8]; 8];
        let mut before = made;
        let first = self.stack.closed;
        chunk_values(&self.stack.parameters, first, bytes, &mut made, &mut before);
        let last = bytes.len() / CHUNK_LEN - 1;
        self.push_values(&made, last);
        self.open_chunk(before[last], Some(made[last]), &bytes[CHUNK_LEN * last..]);
    }

    /// Takes a beginning of `rest`, and returns its length: whole chunks, if no chunk is begun and two or
    /// more have come, or what the open chunk has room for.
    pub(crate) fn take_front(&mut self, rest: &[u8]) -> usize
        requires some { 0 < length rest.now }
        requires room { self.old.chunk.len < 1024 }
        requires bound { hasher_count self.old + length rest.now < 2 ^ 64 }
        ensures bound { result ≤ length rest.now }
        ensures some { 0 < result }
        ensures kept { hasher_parameters self.new ≡ hasher_parameters self.old }
        ensures count { hasher_count self.new ≡ hasher_count self.old + result }
        ensures split { (m : List ℕ) → IsSplit self.old m
            → IsSplit self.new (m ++ take result rest.now) }
        ensures last { result ≡ length rest.now → 0 < self.new.chunk.len }
    {
        if self.chunk.len() == 0 && rest.len() >= 2 * CHUNK_LEN {
            if self.stack.closed % 8 == 0 && rest.len() >= GROUP_LEN {
                let level = run_level(self.stack.closed, rest.len());
                let n = run_len(level);
                if n == rest.len() {
                    self.open_run(level, rest);
                    return n;
                }
                self.push_run(level, &rest[..n]);
                return n;
            }
            if rest.len() <= GROUP_LEN && rest.len() % CHUNK_LEN == 0 {
                self.open_chunks(rest);
                return rest.len();
            }
            let n = whole_chunks(self.stack.closed, rest.len());
            if n >= 2 * CHUNK_LEN {
                self.push_chunks(&rest[..n]);
                return n;
            }
        }
        let n = (CHUNK_LEN - self.chunk.len()).min(rest.len());
        let flags = self.stack.parameters.flags;
        self.chunk.update(self.stack.closed, flags, &rest[..n]);
        self.made = None;
        n
    }
}
