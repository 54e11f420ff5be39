// A row of parts that were hashed elsewhere and are known only by their chaining values.

ghost use Rattle.std.specs.Prelude.{◌≡◌, ℕ, ◌+◌, ◌*◌, ◌^◌, ◌<◌, ◌≤◌, ◌↔◌, List, ◌∷◌, ◌++◌, length, count_ones, IsOk};
ghost use Rattle.std.specs.Prelude.{OnOk, OnErr, IfOk, IsTrue};
ghost use Rattle.words.specs.Words.{words, word_bytes};
ghost use Rattle.b3.specs.Node.{cv};
ghost use Rattle.b3.specs.Parts.{IsPlacedAt};

use crate::chunk::CHUNK_LEN;
use crate::mode::{Mode, words_of_key};
use crate::node::Node;
use crate::output::Output;
use crate::part::NotWhole;
use crate::place::{Misplaced, is_placed, is_whole};
use crate::stack::Stack;
use words::bytes32;

/// A part, by its chaining value.
#[derive(Clone, Copy, Debug)]
pub struct PartValue {
    /// The number of its first chunk.
    pub first_chunk: u64,
    /// How many bytes it has.
    pub len: u64,
    /// Its chaining value.
    pub value: [u32; 8],
    ghost placed: { IsPlacedAt first_chunk len },
}

impl PartValue {
    /// A part as reported by others. It is refused exactly if `Part::of` refuses that many bytes at that
    /// chunk; nothing guarantees that the value is the one of such bytes.
    pub fn of(first_chunk: u64, len: u64, value: [u32; 8]) -> Result<PartValue, Misplaced>
        ensures placed { IsOk result ↔ IsPlacedAt first_chunk len }
        ensures first { IfOk result (λ part. part.first_chunk ≡ first_chunk) }
        ensures len { IfOk result (λ part. part.len ≡ len) }
        ensures value { IfOk result (λ part. part.value ≡ value) }
    {
        if !is_placed(first_chunk, len) {
            return Err(Misplaced);
        }
        Ok(PartValue {
            first_chunk,
            len,
            value,
        })
    }

    /// Like `of`, from a chaining value in bytes.
    pub fn of_bytes(first_chunk: u64, len: u64, value: &[u8; 32]) -> Result<PartValue, Misplaced>
        ensures placed { IsOk result ↔ IsPlacedAt first_chunk len }
        ensures first { IfOk result (λ part. part.first_chunk ≡ first_chunk) }
        ensures len { IfOk result (λ part. part.len ≡ len) }
        ensures value { IfOk result (λ part. part.value ≡ words 4 8 value.now) }
    {
        PartValue::of(first_chunk, len, words_of_key(value))
    }

    /// The number of its first chunk.
    pub fn first_chunk(&self) -> u64
        ensures { result ≡ self.now.first_chunk }
    {
        self.first_chunk
    }

    /// How many bytes it has.
    pub fn len(&self) -> u64
        ensures { result ≡ self.now.len }
    {
        self.len
    }

    /// Its chaining value.
    pub fn value(&self) -> [u32; 8]
        ensures { result ≡ self.now.value }
    {
        self.value
    }

    /// Its chaining value in bytes, each word little-endian.
    pub fn bytes(&self) -> [u8; 32]
        ensures written { result ≡ word_bytes 4 self.now.value }
        ensures read { words 4 8 result ≡ self.now.value }
    {
        bytes32(&self.value)
    }
}

/// The part does not begin where the row ends, the part before it does not have a power of two of full
/// chunks, or the row with it would not be a part.
#[derive(Clone, Copy, Debug, PartialEq, Eq, Drop)]
pub struct NotNext;

/// Parts that follow each other, and together are one part.
#[derive(Drop)]
pub struct Row {
    first_chunk: u64,
    // the chunks of all parts but the last
    stack: Stack,
    // the last part: its chaining value, and how many bytes it has
    value: [u32; 8],
    len: u64,
    ghost placed: { IsPlacedAt first_chunk (1024 * stack.closed + len) },
    ghost last: { IsPlacedAt stack.closed len },
}

impl Row {
    ghost use Rattle.b3.specs.Modes.{root_of, tree_of};
    ghost use Rattle.b3.specs.inside.Output.{output_root, output_position};
    ghost use Rattle.b3.specs.Parts.{IsNextInRow, mode_parameters};
    ghost use Rattle.b3.specs.Values.{IsValueOf};
    ghost use Rattle.b3.specs.inside.Rows.{HoldsRow, row_parameters, row_first, row_count, row_closed, row_open};

    /// The row of one part.
    pub fn of(mode: Mode, part: PartValue) -> Row
        ensures parameters { row_parameters result ≡ mode_parameters mode }
        ensures first { row_first result ≡ part.first_chunk }
        ensures count { row_count result ≡ part.len }
        ensures closed { row_closed result ≡ 0 }
        ensures open { row_open result ≡ part.len }
        ensures holds { (m : List ℕ) → IsValueOf (mode_parameters mode) part m → HoldsRow result m }
    {
        let value = part.value;
        Row {
            first_chunk: part.first_chunk,
            stack: Stack::new(mode.parameters()),
            value,
            len: part.len,
        }
    }

    /// How many bytes its parts have.
    pub fn count(&self) -> u64
        ensures value { result ≡ row_count self.now }
        ensures message { (m : List ℕ) → HoldsRow self.now m → result ≡ length m }
    {
        CHUNK_LEN as u64 * self.stack.closed + self.len
    }

    /// Adds the part that comes next. It is refused exactly if it does not begin where the row ends, if the
    /// row's last part does not have a power of two of full chunks, or if the bytes of both cannot be a part;
    /// then nothing changes.
    pub fn push(&mut self, part: PartValue) -> Result<(), NotNext>
        ensures next { IsOk result ↔ IsNextInRow (row_first self.old) (row_count self.old) (row_open self.old)
            part.first_chunk part.len }
        ensures holds { OnOk result ((m x : List ℕ) → HoldsRow self.old m
            → IsValueOf (row_parameters self.old) part x → HoldsRow self.new (m ++ x)) }
        ensures count { OnOk result (row_count self.new ≡ row_count self.old + part.len) }
        ensures closed { OnOk result (0 < row_closed self.new) }
        ensures open { OnOk result (row_open self.new ≡ part.len) }
        ensures first { row_first self.new ≡ row_first self.old }
        ensures kept { row_parameters self.new ≡ row_parameters self.old }
        ensures refused { OnErr result (self.new ≡ self.old) }
    {
        if !self.is_next(&part) {
            return Err(NotNext);
        }
        self.close(&part);
        Ok(())
    }

    // Whether `part` comes next.
    fn is_next(&self, part: &PartValue) -> bool
        ensures { IsTrue result ↔ IsNextInRow (row_first self.now) (row_count self.now) (row_open self.now)
            part.now.first_chunk part.now.len }
    {
        if CHUNK_LEN as u64 * part.first_chunk
            != CHUNK_LEN as u64 * self.first_chunk + self.count()
        {
            return false;
        }
        is_whole(self.len) && is_placed(self.first_chunk, self.count() + part.len)
    }

    // Closes the last part, since another one follows it.
    fn close(&mut self, part: &PartValue)
        requires { IsNextInRow (row_first self.old) (row_count self.old) (row_open self.old)
            part.now.first_chunk part.now.len }
        ensures holds { (m x : List ℕ) → HoldsRow self.old m
            → IsValueOf (row_parameters self.old) part.now x → HoldsRow self.new (m ++ x) }
        ensures count { row_count self.new ≡ row_count self.old + part.now.len }
        ensures closed { 0 < row_closed self.new }
        ensures open { row_open self.new ≡ part.now.len }
        ensures first { row_first self.new ≡ row_first self.old }
        ensures kept { row_parameters self.new ≡ row_parameters self.old }
    {
        self.stack.push(self.len / CHUNK_LEN as u64, self.value);
        self.value = part.value;
        self.len = part.len;
    }

    // The node over the parts, of which there are at least two.
    fn node(&self) -> Node
        requires { 0 < row_closed self.now }
        ensures { (m : List ℕ) → HoldsRow self.now m
            → result ≡ tree_of (row_parameters self.now) (row_first self.now) m }
    {
        self.stack.fold(&self.value)
    }

    /// The row as one part.
    pub fn told(&self) -> PartValue
        ensures first { result.first_chunk ≡ row_first self.now }
        ensures len { result.len ≡ row_count self.now }
        ensures value { (m : List ℕ) → HoldsRow self.now m
            → IsValueOf (row_parameters self.now) result m }
    {
        let value = self.top_value();
        PartValue {
            first_chunk: self.first_chunk,
            len: self.count(),
            value,
        }
    }

    // The chaining value of the row as one part.
    fn top_value(&self) -> [u32; 8]
        ensures { (m : List ℕ) → HoldsRow self.now m
            → result ≡ cv (tree_of (row_parameters self.now) (row_first self.now) m) }
    {
        if self.stack.closed == 0 {
            self.value
        } else {
            self.node().chaining_value()
        }
    }

    /// The output, at position 0, of the message that consists of this row. It is refused exactly if the row
    /// does not begin at the first chunk, or has only one part, since a chaining value says nothing about the
    /// root.
    pub fn output(&self) -> Result<Output, NotWhole>
        ensures whole { IsOk result ↔ (row_first self.now ≡ 0) × (0 < row_closed self.now) }
        ensures root { IfOk result (λ output. (m : List ℕ) → HoldsRow self.now m
            → output_root output ≡ root_of (row_parameters self.now) m) }
        ensures position { IfOk result (λ output. output_position output ≡ 0) }
    {
        if self.first_chunk != 0 || self.stack.closed == 0 {
            return Err(NotWhole);
        }
        Ok(Output::of(self.node()))
    }
}
