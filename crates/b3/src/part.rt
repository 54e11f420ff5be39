// Parts of a message, which are hashed apart and then joined.

ghost use Rattle.std.specs.Prelude.{◌≡◌, ℕ, ◌↔◌, List, ◌++◌, length, IsOk, IfOk, IfErr, IsTrue};
ghost use Rattle.b3.specs.Parts.{IsPlacedAt};

use crate::chunk::CHUNK_LEN;
use crate::mode::Mode;
use crate::node::Node;
use crate::output::Output;
use crate::place::{Misplaced, is_placed, is_whole};
use crate::row::PartValue;
use crate::tree::tree_over;
use std::fmt;
use std::fmt::{Debug, Write};

/// The part does not begin at the start of the message.
#[derive(Clone, Copy, Debug, PartialEq, Eq, Drop)]
pub struct NotWhole;

/// Two parts that are not the two halves of a part; they are handed back.
#[derive(Debug, Drop)]
pub struct NotNeighbours {
    pub left: Part,
    pub right: Part,
}

/// The tree over an aligned run of chunks of a message.
#[derive(Drop)]
pub struct Part {
    mode: Mode,
    first_chunk: u64,
    // how many bytes it has
    len: u64,
    node: Node,
    ghost placed: { IsPlacedAt first_chunk len },
}

impl Part {
    ghost use Rattle.b3.specs.Modes.{root_of};
    ghost use Rattle.b3.specs.Parts.{AreNeighbours, mode_parameters};
    ghost use Rattle.b3.specs.inside.Output.{output_root, output_position};
    ghost use Rattle.b3.specs.inside.Parts.{IsPart, part_mode, part_first, part_len};
    ghost use Rattle.b3.specs.Values.{IsValueOf};

    /// The part of the bytes from a chunk on. It is refused exactly if the chunk's number is not a multiple
    /// of the least power of two that is at least the number of chunks of `bytes` (one for no bytes), if
    /// there are no bytes and the chunk is not the first, or if they would end after 2^64 - 1 bytes.
    pub fn of(mode: Mode, first_chunk: u64, bytes: &[u8]) -> Result<Part, Misplaced>
        ensures placed { IsOk result ↔ IsPlacedAt first_chunk (length bytes.now) }
        ensures part { IfOk result (λ part. IsPart part bytes.now) }
        ensures mode { IfOk result (λ part. part_mode part ≡ mode) }
        ensures first { IfOk result (λ part. part_first part ≡ first_chunk) }
    {
        let len = bytes.len() as u64;
        if !is_placed(first_chunk, len) {
            return Err(Misplaced);
        }
        let node = tree_over(&mode.parameters(), first_chunk, bytes);
        Ok(Part {
            mode,
            first_chunk,
            len,
            node,
        })
    }

    /// Joins two parts, one after the other: `left` has p full chunks, where p is a power of two, and begins
    /// at a multiple of 2 p; `right` has the same mode, begins where `left` ends, and has at most p chunks.
    /// Any other two are refused, and handed back.
    pub fn join(left: Part, right: Part) -> Result<Part, NotNeighbours>
        ensures neighbours { IsOk result ↔ (part_mode left ≡ part_mode right)
            × AreNeighbours (part_first left) (part_len left) (part_first right) (part_len right) }
        ensures joined { IfOk result (λ part. (m1 m2 : List ℕ) → IsPart left m1 → IsPart right m2
            → IsPart part (m1 ++ m2)) }
        ensures mode { IfOk result (λ part. part_mode part ≡ part_mode left) }
        ensures first { IfOk result (λ part. part_first part ≡ part_first left) }
        ensures back { IfErr result (λ e. (e.left ≡ left) × (e.right ≡ right)) }
    {
        if !left.is_before(&right) {
            return Err(NotNeighbours { left, right });
        }
        let node = Node::parent(
            &left.mode.parameters(),
            &left.node.chaining_value(),
            &right.node.chaining_value(),
        );
        Ok(Part {
            mode: left.mode,
            first_chunk: left.first_chunk,
            len: left.len + right.len,
            node,
        })
    }

    // Whether `right` can be joined to `self`.
    fn is_before(&self, right: &Part) -> bool
        ensures { IsTrue result ↔ (part_mode self.now ≡ part_mode right.now)
            × AreNeighbours (part_first self.now) (part_len self.now) (part_first right.now) (part_len right.now) }
    {
        if self.mode != right.mode {
            return false;
        }
        if !is_whole(self.len) {
            return false;
        }
        let chunks = self.len / CHUNK_LEN as u64;
        if self.first_chunk % (2 * chunks) != 0 || right.first_chunk != self.first_chunk + chunks {
            return false;
        }
        right.len <= self.len
    }

    /// The part by its chaining value, in a form that can be passed on to others.
    pub fn told(&self) -> PartValue
        ensures first { result.first_chunk ≡ part_first self.now }
        ensures len { result.len ≡ part_len self.now }
        ensures value { (m : List ℕ) → IsPart self.now m
            → IsValueOf (mode_parameters (part_mode self.now)) result m }
    {
        PartValue {
            first_chunk: self.first_chunk,
            len: self.len,
            value: self.node.chaining_value(),
        }
    }

    /// The output, at position 0, of the message that consists of this part. It is refused exactly if the
    /// part does not begin at the message's first chunk.
    pub fn root(&self) -> Result<Output, NotWhole>
        ensures whole { IsOk result ↔ (part_first self.now ≡ 0) }
        ensures root { IfOk result (λ output. (m : List ℕ) → IsPart self.now m
            → output_root output ≡ root_of (mode_parameters (part_mode self.now)) m) }
        ensures position { IfOk result (λ output. output_position output ≡ 0) }
    {
        if self.first_chunk != 0 {
            return Err(NotWhole);
        }
        Ok(Output::of(self.node))
    }
}

impl Debug for Part {
    ghost use Rattle.b3.specs.Parts.{part_text};
    ghost use Rattle.b3.specs.inside.Parts.{part_first, part_len, part_mode};
    ghost use Rattle.std.specs.Fmt.{DisplaysOnOk, WritesOnOk};
    ghost use Rattle.std.specs.Prelude.{Some};

    ghost debug_output = { λ part. Some (part_text (part_mode part) (part_first part) (part_len part)) };

    /// Writes the mode's name, where the part stands and how many bytes it has. It shows neither the key nor
    /// what the bytes were hashed to.
    fn fmt<W: Write>(&self, f: &mut fmt::Formatter<W>) -> fmt::Result
        ensures writes { DisplaysOnOk W.write_str_gives f.old result
            (⟦<Part as Debug>⟧.debug_output self.now) f.new }

        // The text is this, whatever `debug_output` says.
        ensures text { WritesOnOk W.write_str_gives f.old result
            (part_text (part_mode self.now) (part_first self.now) (part_len self.now)) f.new }
    {
        write!(
            f,
            "Part {{ mode: {:?}, first_chunk: {}, len: {} }}",
            self.mode, self.first_chunk, self.len
        )
    }
}
