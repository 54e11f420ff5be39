// Files in memory.

use crate::calls::Lack;
use std::alloc::{AllocError, Global};
use std::collections::BTreeMap;

pub(crate) type Files = BTreeMap<String, Vec<u8>>;

const FILES: [(&str, &[u8]); 3] = [
    ("abc.txt", b"abc"),
    ("key", &[0x0b; 20]),
    ("material", &[0x0b; 22]),
];

/// The files that the calls find.
pub(crate) fn files(alloc: Global) -> Result<Files, Lack> {
    match gathered(alloc) {
        Ok(files) => Ok(files),
        Err(AllocError) => Err(Lack::Files),
    }
}

fn gathered(alloc: Global) -> Result<Files, AllocError> {
    let mut files = BTreeMap::new(alloc);
    for (name, content) in FILES {
        files.insert(String::from_str(alloc, name)?, content.to_vec(alloc)?)?;
    }
    Ok(files)
}
