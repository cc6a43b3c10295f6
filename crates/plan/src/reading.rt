//! The lines of a text, one after the other.
ghost use Rattle.std.specs.Prelude.{◌≡◌, ◌+◌, Ok, Err, MatchResult};
ghost use Rattle.plan.specs.Readings.{cut_line};

use super::cuts::part;
use super::faults::LineFault;
use super::lines::Lines;

impl<'a> Lines<'a> {
    /// The next line, without its end, and what follows it.
    pub(crate) fn split(self) -> Result<(&'a [u8], Lines<'a>), LineFault>
        ensures { MatchResult result
            (λ p. (p.1.text ≡ self.entry.text) × (p.1.number ≡ self.entry.number + 1) × (cut_line self.entry.number self.entry.rest.now ≡ Ok (p.0.now, self.entry.number + 1, p.1.rest.now)))
            (λ e. cut_line self.entry.number self.entry.rest.now ≡ Err (self.entry.number + 1, e)) }
    {
        let line = part(self.rest, b'\n');
        let Some(rest) = self.rest.get(line.len() + 1..) else {
            return Err(LineFault::NoEnd);
        };
        let text = self.text;
        let number = self.number + 1;
        Ok((line, Lines { text, rest, number }))
    }
}
