// BLAKE3 of eight messages of one chunk, side by side: each lane has one message (the BLAKE3 paper, sections
// 2.2 and 2.4).

ghost use Rattle.std.specs.Prelude.{◌≡◌, ◌<◌, ◌≤◌, ◌+◌, [], ℕ, length, take, drop, slice_index, slice_index_or};
ghost use Rattle.words.specs.Blake3.{compress3};
ghost use Rattle.words.specs.inside.Lanes.{lane8};
ghost use Rattle.b3.specs.Bytes.{slice};
ghost use Rattle.b3.specs.Chunk.{start_flag};
ghost use Rattle.b3.specs.Modes.{hash_root};

use crate::last_blocks::last_lanes;
use b3::{BLOCK_LEN, CHUNK_END, CHUNK_START, ROOT, tree_laws};
use std::simd::prelude::*;
use words::lanes::{BLOCKS, LAST_BLOCKS, Turns, lane_rows, message_lanes, next_lanes, same_lanes};
use words::{IV32, bytes32};

// The flag of the first block of a chunk, at block `j`.
fn flag_of_start(j: usize) -> u32
    ensures value { result ≡ start_flag j }
    ensures bound { result ≤ 1 }
{
    if j == 0 { u32::from(CHUNK_START) } else { 0 }
}

// The first eight words of output of the messages of `len` bytes that begin at `starts`.
fn root_lanes(bytes: &[u8], starts: &[usize; 8], len: usize) -> [u32x8; 8]
    requires some { 0 < len }
    requires chunk { len ≤ 1024 }
    requires fits { (i : ℕ) → i < 8 → slice_index starts.now i + len ≤ length bytes.now }
    ensures { (i : ℕ) → i < 8 → let root = hash_root (take len (drop (slice_index starts.now i) bytes.now)) in
        lane8 i result ≡ take 8 (compress3 root.h root.m 0 root.b (root.d + 8)) }
{
    tree_laws();
    let last = (len - 1) / BLOCK_LEN;
    let turns = Turns::new();
    let mut values = same_lanes(&IV32);
    'each_block: for j in 0..last {
        let message = message_lanes(bytes, starts, BLOCK_LEN * j);
        let next = next_lanes::<BLOCKS>(turns, values, message, &[0; 8], 64, flag_of_start(j));
        values = next;
    }
    let left = len - BLOCK_LEN * last;
    let message = last_lanes(bytes, starts, BLOCK_LEN * last, left);
    let d = flag_of_start(last) + u32::from(CHUNK_END) + u32::from(ROOT);
    next_lanes::<LAST_BLOCKS>(turns, values, message, &[0; 8], left as u32, d)
}

/// The digests of the messages of `len` bytes, at most a chunk each, that begin at `starts`.
pub(crate) fn chunk_digests(bytes: &[u8], starts: &[usize; 8], len: usize) -> [[u8; 32]; 8]
    requires some { 0 < len }
    requires chunk { len ≤ 1024 }
    requires fits { (i : ℕ) → i < 8 → slice_index starts.now i + len ≤ length bytes.now }
    ensures value { (i : ℕ) → i < 8 → slice_index_or result i []
        ≡ slice (hash_root (take len (drop (slice_index starts.now i) bytes.now))) 0 32 }
    ensures whole { (i : ℕ) → i < 8 → length (slice_index_or result i []) ≡ 32 }
{
    let rows = lane_rows(root_lanes(bytes, starts, len));
    let mut digests = [[0; 32]; 8];
    'lanes: for i in 0..8 {
        digests[i] = bytes32(&rows[i]);
    }
    digests
}
