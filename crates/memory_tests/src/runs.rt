// Whole runs of the program in memory.

use crate::calls::Lack;
use crate::files::files;
use program::run;
use source::{Bytes, Sink};
use std::alloc::Global;
use sumlist::MemoryTree;

/// A run with these words, which begin with the program's name, and its status.
pub(crate) fn run_words<W: Sink, E: Sink>(
    alloc: Global,
    words: &[&str],
    input: &[u8],
    out: &mut W,
    err: &mut E,
) -> Result<u8, Lack> {
    let files = files(alloc)?;
    let mut input = Bytes::new(input, 7);
    let mut tree = MemoryTree::new(&files, 4096);
    Ok(run(alloc, words, &mut input, &mut tree, out, err))
}
