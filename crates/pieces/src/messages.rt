// Messages of different lengths in one buffer.

ghost use Rattle.std.specs.Prelude.{◌≡◌, ◌<◌, ◌≤◌, ◌+◌, ℕ, length, slice_index};

/// Messages that lie in one buffer, with the number of bytes of each from its start on.
#[derive(Clone, Copy)]
pub(crate) struct Messages<'a> {
    pub(crate) bytes: &'a [u8],
    pub(crate) starts: &'a [usize],
    pub(crate) lens: &'a [usize],
    ghost same: { length lens.now ≡ length starts.now },
    ghost fits: { (i : ℕ) → i < length starts.now
        → slice_index starts.now i + slice_index lens.now i ≤ length bytes.now },
}
