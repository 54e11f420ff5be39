// The tree over bytes that are all in memory, from the top (the BLAKE3 paper, section 2.1): in lanes if there
// are enough bytes.

ghost use Rattle.std.specs.Prelude.{◌≡◌, ℕ, ◌+◌, ◌-◌, ◌*◌, ◌/◌, ◌%◌, ◌^◌, ◌<◌, ◌≤◌, List, [], length, slice_index_or};
ghost use Rattle.std.specs.Prelude.{IfSome};
ghost use Rattle.b3.specs.Node.{cv};
ghost use Rattle.b3.specs.Tree.{tree, chunk_count, IsGreatestPowerBelow};
ghost use Rattle.b3.specs.inside.Runs.{run_cv};

use crate::chunk::{CHUNK_LEN, Chunk};
use crate::hasher::GROUP_LEN;
use crate::lanes::{chunk_values, subtree_halves, subtree_of};
use crate::mode::Parameters;
use crate::node::Node;

// The greatest power of two below `n`.
fn greatest_power_below(n: usize) -> usize
    requires some { 1 < n }
    requires bound { n ≤ 2 ^ 63 }
    ensures { IsGreatestPowerBelow result n }
{
    n.next_power_of_two() / 2
}

// The level of the run of 8 * 2 ^ level chunks that has this many bytes.
fn level_of(len: usize) -> Option<u32>
    ensures { IfSome result (λ level. len ≡ 8192 * 2 ^ level) }
{
    let groups = len / GROUP_LEN;
    if len % GROUP_LEN == 0 && groups.is_power_of_two() {
        Some(groups.ilog2())
    } else {
        None
    }
}

/// The node of the chunk of these bytes.
pub(crate) fn chunk_over(parameters: &Parameters, number: u64, bytes: &[u8]) -> Node
    requires { length bytes.now ≤ 1024 }
    ensures { result ≡ tree parameters.now.key parameters.now.flags number bytes.now }
{
    let mut chunk = Chunk::new(&parameters.key);
    chunk.update(number, parameters.flags, bytes);
    chunk.node(number, parameters.flags)
}

// The chaining value of the tree over chunks that have these chaining values.
fn joined_value(parameters: &Parameters, values: &[[u32; 8]]) -> [u32; 8]
    requires { 0 < length values.now }
    ensures { (c : ℕ) (m : List ℕ) → chunk_count m ≡ length values.now
        → ((i : ℕ) → i < length values.now → slice_index_or values.now i []
        ≡ run_cv parameters.now.key parameters.now.flags c m 0 i)
        → result ≡ cv (tree parameters.now.key parameters.now.flags c m) }
{
    if values.len() == 1 {
        return values[0];
    }
    let middle = greatest_power_below(values.len());
    let left = joined_value(parameters, &values[..middle]);
    let right = joined_value(parameters, &values[middle..]);
    Node::parent(parameters, &left, &right).chaining_value()
}

// The chaining values of two to eight chunks, of which at least two are whole. The first has the number `first`.
fn group_values(parameters: &Parameters, first: u64, bytes: &[u8]) -> [[u32; 8]; 8]
    requires some { 2048 ≤ length bytes.now }
    requires bound { length bytes.now ≤ 8192 }
    requires numbers { 1024 * first + length bytes.now ≤ 2 ^ 64 - 1 }
    ensures { (i : ℕ) → i < chunk_count bytes.now
        → slice_index_or result i [] ≡ run_cv parameters.now.key parameters.now.flags first bytes.now 0 i }
{
    let last = bytes.len() / CHUNK_LEN;
    let whole = &bytes[..CHUNK_LEN * last];
    let mut values = [[0; 8]; 8];
    chunk_values(parameters, first, whole, &mut values, &mut [[0; 8]; 8]);
    if bytes.len() % CHUNK_LEN == 0 {
        return values;
    }
    let rest = chunk_over(parameters, first + last as u64, &bytes[CHUNK_LEN * last..]);
    values[last] = rest.chaining_value();
    values
}

// The tree over two to eight chunks, of which at least two are whole. The first has the number `first`.
fn group_over(parameters: &Parameters, first: u64, bytes: &[u8]) -> Node
    requires some { 2048 ≤ length bytes.now }
    requires bound { length bytes.now ≤ 8192 }
    requires numbers { 1024 * first + length bytes.now ≤ 2 ^ 64 - 1 }
    ensures { result ≡ tree parameters.now.key parameters.now.flags first bytes.now }
{
    let values = group_values(parameters, first, bytes);
    let chunks = (bytes.len() - 1) / CHUNK_LEN + 1;
    let middle = greatest_power_below(chunks);
    let left = joined_value(parameters, &values[..middle]);
    let right = joined_value(parameters, &values[middle..chunks]);
    Node::parent(parameters, &left, &right)
}

// The tree over a run of 8 * 2 ^ level chunks.
fn run_over(parameters: &Parameters, first: u64, level: u32, bytes: &[u8]) -> Node
    requires length { length bytes.now ≡ 8192 * 2 ^ level }
    requires numbers { 1024 * first + length bytes.now ≤ 2 ^ 64 - 1 }
    ensures { result ≡ tree parameters.now.key parameters.now.flags first bytes.now }
{
    let [left, right] = subtree_halves(parameters, first, level, bytes);
    Node::parent(parameters, &left, &right)
}

// The tree over a whole chunk and the beginning of another, which need no lanes.
fn two_over(parameters: &Parameters, first: u64, bytes: &[u8]) -> Node
    requires some { 1024 < length bytes.now }
    requires bound { length bytes.now < 2048 }
    requires numbers { 1024 * first + length bytes.now ≤ 2 ^ 64 - 1 }
    ensures { result ≡ tree parameters.now.key parameters.now.flags first bytes.now }
{
    let (whole, rest) = bytes.split_at(CHUNK_LEN);
    let left = chunk_over(parameters, first, whole).chaining_value();
    let right = chunk_over(parameters, first + 1, rest).chaining_value();
    Node::parent(parameters, &left, &right)
}

// The chaining value of the tree over `bytes`.
#[cycle(tree)]
fn value_over(parameters: &Parameters, first: u64, bytes: &[u8]) -> [u32; 8]
    requires { 1024 * first + length bytes.now ≤ 2 ^ 64 - 1 }
    ensures { result ≡ cv (tree parameters.now.key parameters.now.flags first bytes.now) }
{
    match level_of(bytes.len()) {
        Some(level) => subtree_of(parameters, first, level, bytes),
        None => tree_over(parameters, first, bytes).chaining_value(),
    }
}

/// The tree over `bytes`, the first chunk of which has the number `first`.
#[cycle(tree)]
pub(crate) fn tree_over(parameters: &Parameters, first: u64, bytes: &[u8]) -> Node
    requires { 1024 * first + length bytes.now ≤ 2 ^ 64 - 1 }
    ensures { result ≡ tree parameters.now.key parameters.now.flags first bytes.now }
{
    if bytes.len() <= CHUNK_LEN {
        return chunk_over(parameters, first, bytes);
    }
    if bytes.len() < 2 * CHUNK_LEN {
        return two_over(parameters, first, bytes);
    }
    if bytes.len() < GROUP_LEN {
        return group_over(parameters, first, bytes);
    }
    if let Some(level) = level_of(bytes.len()) {
        return run_over(parameters, first, level, bytes);
    }
    let chunks = greatest_power_below((bytes.len() - 1) / CHUNK_LEN + 1);
    let middle = CHUNK_LEN * chunks;
    let left = value_over(parameters, first, &bytes[..middle]);
    let right = value_over(parameters, first + chunks as u64, &bytes[middle..]);
    Node::parent(parameters, &left, &right)
}
