//! Where the reader of a text stands.
ghost use Rattle.std.specs.Prelude.{◌≡◌, ◌+◌, ◌-◌, ◌^◌, ◌<◌, ◌≤◌, length, drop};

/// A text, and what is left of it after `number` lines.
#[derive(Clone, Copy)]
pub(crate) struct Lines<'a> {
    pub(crate) text: &'a [u8],
    pub(crate) rest: &'a [u8],
    pub(crate) number: usize,
    ghost countable: { number + length rest.now < 2 ^ 32 },
    ghost within: { length rest.now ≤ length text.now },
    ghost placed: { rest.now ≡ drop (length text.now - length rest.now) text.now },
}
