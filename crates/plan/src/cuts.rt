//! A line cut into its fields.
ghost use Rattle.std.specs.Prelude.{◌≡◌, ◌<◌, ◌==◌, [], ◌∷◌, length, MatchResult};
ghost use Rattle.std.specs.List.{position, before_first};
ghost use Rattle.plan.specs.Cuts.{fields_of, fields_left};
ghost use Rattle.plan.specs.declared.faults.LineFault.TheVariants.{Count};

use super::entries::Entries;
use super::faults::LineFault;

/// Where the first `stop` stands.
fn find(text: &[u8], stop: u8) -> Option<usize>
    ensures { result ≡ position (λ b. b == stop) text.now }
{
    text.iter().position(|b| *b == stop)
}

/// The part of a text before the first `stop`, or all of it.
pub(crate) fn part(text: &[u8], stop: u8) -> &[u8]
    ensures { result.now ≡ before_first (λ b. b == stop) text.now }
{
    match find(text, stop) {
        Some(end) => &text[..end],
        None => text,
    }
}

/// The fields of a line that are left; absent past its end.
// Split by hand: the library's `split` says less of the pieces than the fields' definition needs.
#[derive(Drop)]
pub(crate) struct Fields<'a> {
    rest: Option<&'a [u8]>,
}

impl<'a> Fields<'a> {
    pub(crate) fn of(line: &'a [u8]) -> Fields<'a>
        ensures { fields_left result.rest ≡ fields_of line.now }
    {
        Fields { rest: Some(line) }
    }

    /// The next field.
    pub(crate) fn next(&mut self) -> Result<&'a [u8], LineFault>
        ensures { MatchResult result
            (λ s. fields_left self.old.rest ≡ s.now ∷ fields_left self.new.rest)
            (λ e. (e ≡ Count) × (fields_left self.old.rest ≡ []) × (self.new.rest ≡ self.old.rest)) }
    {
        let rest = self.rest.ok_or(LineFault::Count)?;
        let field = part(rest, b'\t');
        self.rest = rest.get(field.len() + 1..);
        Ok(field)
    }

    /// The next four fields.
    pub(crate) fn entries(&mut self) -> Result<Entries<'a>, LineFault>
        ensures { MatchResult result
            (λ s. fields_left self.old.rest ≡ s.a.now ∷ s.b.now ∷ s.c.now ∷ s.d.now ∷ fields_left self.new.rest)
            (λ e. (e ≡ Count) × (length (fields_left self.old.rest) < 4)) }
    {
        Ok(Entries {
            a: self.next()?,
            b: self.next()?,
            c: self.next()?,
            d: self.next()?,
        })
    }

    /// That no field is left.
    pub(crate) fn done(&self) -> Result<(), LineFault>
        ensures { MatchResult result
            (λ _. fields_left self.now.rest ≡ [])
            (λ e. (e ≡ Count) × (0 < length (fields_left self.now.rest))) }
    {
        match self.rest {
            Some(_) => Err(LineFault::Count),
            None => Ok(()),
        }
    }
}
