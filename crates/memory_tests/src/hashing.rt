// Digests, by each way to make them.

use crate::calls::Lack;
use source::{AnyHash, Bytes, Sink, digest_of, pieces, pump, write_all};
use sumlist::Kind;
use words::{Absorb, Tag};

/// A way from bytes to their digest.
#[derive(Clone, Copy, Debug, Drop)]
pub(crate) enum Way {
    Pump,
    DigestOf,
    Pieces,
}

/// Writes the bytes of the longest digests of "abc" by each hash.
pub(crate) fn write_tags<W: Sink>(way: Way, out: &mut W) -> Result<u8, Lack> {
    for name in Kind::names() {
        let Some(tag) = digest_by(way, name) else {
            return Err(Lack::Other);
        };
        write_all(out, tag.bytes())?;
    }
    Ok(0)
}

fn digest_by(way: Way, name: &str) -> Option<Tag> {
    let hasher = AnyHash::new(Kind::named(name)?.longest()).ok()?;
    match way {
        Way::Pump => pumped(hasher),
        Way::DigestOf => continued(hasher),
        Way::Pieces => pieces(hasher, &[b"", b"ab", b"", b"c", b""]).ok(),
    }
}

// What the hasher has taken stands before what comes.
fn continued(mut hasher: AnyHash) -> Option<Tag> {
    hasher.update(b"a").ok()?;
    digest_of(hasher, &mut Bytes::new(b"bc", 1)).ok()
}

fn pumped(mut hasher: AnyHash) -> Option<Tag> {
    pump(&mut hasher, &mut Bytes::new(b"abc", 1)).ok()?;
    Some(hasher.finish())
}
