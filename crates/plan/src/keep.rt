//! A keep-out of a plan with its label.
ghost use Rattle.std.specs.Prelude.{◌≡◌};
ghost use Rattle.plan.specs.Keeps.{spanned};

use dynamics::keep_out::KeepOut;

/// A part of a text, by place: `length` bytes from `start` on.
// No slice: a plan that borrowed its labels could not outlive its text.
#[derive(Clone, Copy, PartialEq, Eq, Debug)]
pub struct Span {
    pub start: usize,
    pub length: usize,
}

impl Span {
    /// The part of a text that this span is, as far as the text goes.
    pub fn part<'a>(self, text: &'a [u8]) -> &'a [u8]
        ensures { result.now ≡ spanned text.now self }
    {
        let start = self.start;
        if start >= text.len() {
            return &text[0..0];
        }
        let rest = &text[start..];
        let length = self.length;
        if length >= rest.len() {
            return rest;
        }
        &rest[0..length]
    }
}

/// A keep-out, and where in the plan's text its label stands.
#[derive(Clone, Copy)]
pub struct Keep {
    pub label: Span,
    pub keep_out: KeepOut,
}
