// The rule by which the line of a file is made.

ghost use Rattle.std.specs.Prelude.{◌≡◌, ◌≤◌, true};
ghost use Rattle.task.specs.inside.Possible.{mac_len};
ghost use Rattle.command.specs.inside.Keys.{takes_key};

use task::{Hashing, Tagging};

/// How the line of a file is made: from its digest, or from its tag under a key.
#[derive(Drop)]
pub(crate) enum Rule {
    Digest(Hashing),
    Tag(Keyed),
}

/// What is printed for a tag, and a key that its function takes.
#[derive(Drop)]
pub(crate) struct Keyed {
    pub(crate) tagging: Tagging,
    pub(crate) key: Vec<u8>,
    ghost takes: { takes_key tagging.mac key.items ≡ true },
}

/// A rule for tags of at most 64 bytes, such as those of a list.
#[derive(Drop)]
pub(crate) struct ShortKeyed {
    pub(crate) keyed: Keyed,
    ghost few: { mac_len keyed.tagging.mac ≤ 64 },
}
