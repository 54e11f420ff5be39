// The beginning of a line, as far as it is kept.

ghost use Rattle.std.specs.Prelude.{◌≡◌, ◌≤◌, ◌↔◌, [], Some, None, IsTrue, vec_len, MatchOption, IfOk};
ghost use Rattle.sumlist.specs.Lines.{line_limit};
ghost use Rattle.sumlist.specs.inside.Held.{held_after};

use crate::fitting::LINE_LIMIT;
use std::alloc::{AllocError, Global};
use std::marker::Model;

// The beginning of a line, or the fact that it is longer than a line may be. Its memory never grows.
#[derive(Drop)]
pub(crate) struct LineBuffer {
    bytes: Vec<u8>,
    len: usize,
    is_overlong: bool,
    ghost size: { vec_len bytes ≡ line_limit },
    ghost within: { len ≤ line_limit },
}

impl Model for LineBuffer {
    ghost use Rattle.std.specs.Prelude.{Option, List, ℕ};
    ghost use Rattle.sumlist.specs.inside.BufferView.{seen};

    ghost Value = { Option (List ℕ) };

    ghost view = { seen };
}

impl LineBuffer {
    // Nothing yet, with room for the longest line.
    pub(crate) fn new(alloc: Global) -> Result<LineBuffer, AllocError>
        ensures { IfOk result (λ b. b ≡ Some []) }
    {
        let bytes = vec![in alloc; 0u8; LINE_LIMIT]?;
        Ok(LineBuffer {
            bytes,
            len: 0,
            is_overlong: false,
        })
    }

    // The bytes, unless there are more than a line may have.
    pub(crate) fn line(&self) -> Option<&[u8]>
        ensures { MatchOption result (self.now ≡ None) (λ line. self.now ≡ Some line.now) }
    {
        if self.is_overlong {
            None
        } else {
            Some(&self.bytes[..self.len])
        }
    }

    // Whether no byte has come since the last clear.
    pub(crate) fn is_empty(&self) -> bool
        ensures { IsTrue result ↔ (self.now ≡ Some []) }
    {
        !self.is_overlong && self.len == 0
    }

    // Back to nothing.
    pub(crate) fn clear(&mut self)
        ensures { self.new ≡ Some [] }
    {
        self.len = 0;
        self.is_overlong = false;
    }

    // Adds a piece of the line.
    pub(crate) fn append(&mut self, piece: &[u8])
        ensures { self.new ≡ held_after self.old piece.now }
    {
        if self.is_overlong {
            return;
        }
        if piece.len() > LINE_LIMIT - self.len {
            self.is_overlong = true;
            return;
        }
        self.bytes[self.len..self.len + piece.len()].copy_from_slice(piece);
        self.len += piece.len();
    }
}
