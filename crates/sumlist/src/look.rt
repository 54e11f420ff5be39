// What malformed lines look like.

ghost use Rattle.std.specs.Char.{is_ascii_hexdigit};
ghost use Rattle.std.specs.List.{list_all};
ghost use Rattle.std.specs.Prelude.{◌≡◌};
ghost use Rattle.sumlist.specs.Line.{IsMalformed};
ghost use Rattle.sumlist.specs.Report.{is_nameless as is_nameless_line, look_of as look_in, unkeyed};
ghost use Rattle.sumlist.specs.inside.Looks.{IsLook};

use crate::Kind;
use crate::line::{is_line, untagged_len};

/// What a malformed line looks like.
#[derive(Clone, Copy, Debug, PartialEq, Eq)]
pub enum Look {
    /// An entry of another list, with a digest of so many bytes.
    Digest(u8),
    /// A line after a byte order mark.
    Marked,
    /// A digest of 8 bytes or more without a name.
    Nameless,
    /// The first line of a text that PGP signed in clear.
    Signed,
}

impl Look {
    // What a malformed line of a list of digests looks like, if that can be told.
    pub(crate) fn of(line: &[u8], kind: Option<Kind>) -> Option<Look>
        requires { IsMalformed line.now kind }
        ensures { IsLook (unkeyed kind) line.now result }
    {
        if !is_line(line) {
            return None;
        }
        match look_of(line) {
            Some(look) => Some(look),
            None => Some(Look::Digest(untagged_len(line, kind)?)),
        }
    }
}

// What the bytes of a line look like.
fn look_of(line: &[u8]) -> Option<Look>
    ensures { result ≡ look_in line.now }
{
    if line.starts_with(b"MD5 (") {
        Some(Look::Digest(16))
    } else if line.starts_with(b"SHA1 (") {
        Some(Look::Digest(20))
    } else if line.starts_with(b"\xef\xbb\xbf") {
        Some(Look::Marked)
    } else if line.starts_with(b"-----BEGIN PGP SIGNED MESSAGE-----") {
        Some(Look::Signed)
    } else if is_nameless(line) {
        Some(Look::Nameless)
    } else {
        None
    }
}

// Whether a line is digits alone, and so many that it is no line of any other file.
fn is_nameless(line: &[u8]) -> bool
    ensures { result ≡ is_nameless_line line.now }
{
    let digits = line.trim_ascii_end();
    digits.len() >= 16 && are_digits(digits)
}

fn are_digits(text: &[u8]) -> bool
    ensures { result ≡ list_all is_ascii_hexdigit text.now }
{
    text.iter().all(|byte| byte.is_ascii_hexdigit())
}
