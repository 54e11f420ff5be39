// Standard input of a run beside which others may do other shares.

ghost use Rattle.std.specs.Io.{ReadsAtMost};
ghost use Rattle.std.specs.Io.KnownBytes.{ReadConsumes};
ghost use Rattle.std.specs.Prelude.{◌≡◌, IsErr, None, if◌then◌else◌};

use std::io;
use std::io::{ErrorKind, Read};

/// Standard input, or what fails each read.
#[derive(Drop)]
pub(crate) enum Input<R> {
    /// Standard input.
    Given(R),
    /// What cannot be read.
    Refused,
}

impl<R: Drop> Input<R> {
    /// Standard input, unless the other runs would miss what is read of it.
    pub(crate) fn of(stdin: R, is_lost: bool) -> Input<R>
        ensures { result ≡ (if is_lost then Input.Refused else Input.Given stdin) }
    {
        if is_lost {
            Input::Refused
        } else {
            Input::Given(stdin)
        }
    }
}

impl<R: Read> Read for Input<R> {
    fn read(&mut self, buf: &mut [u8]) -> io::Result<usize>
        ensures bound { ReadsAtMost result buf.new }
        ensures bytes { ReadConsumes None None result buf.new }
        ensures refused { self.old ≡ Input.Refused → IsErr result }
    {
        match self {
            Input::Given(stdin) => stdin.read(buf),
            Input::Refused => Err(ErrorKind::Other.into()),
        }
    }
}
