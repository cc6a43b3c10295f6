//! The report writer: lines in a buffer of the caller's.
ghost use Rattle.std.specs.Prelude.{◌≡◌, ℕ, ◌+◌, ◌^◌, ◌<◌, ◌≤◌, [], ◌∷◌, ◌++◌, length, take, drop, ℤ, Ok, Some, codes, decimal, nat_le, unsigned_abs};
ghost use Rattle.std.specs.Fmt.{signed_decimal};
ghost use Rattle.plan.specs.Numbers.{number_of};
ghost use Rattle.plan.specs.Grammar.{tabs};
ghost use Rattle.plan.specs.Report as spec;

use super::line::{Line, put_number, put_numbers};
use super::told::Told;
use std::error::Error;
use std::fmt;

/// A line does not fit into what is left of the buffer.
#[derive(Clone, Copy, PartialEq, Eq, Debug)]
pub struct Full;

impl Full {
    /// The number of this refusal.
    pub fn number(self) -> usize
        ensures { result ≡ spec.full_number }
    {
        14
    }
}

impl fmt::Display for Full {
    ghost output = { λ f. Some spec.full_text };

    fn fmt<W: fmt::Write>(&self, f: &mut fmt::Formatter<W>) -> fmt::Result {
        write!(f, "a line does not fit")
    }
}

impl Error for Full {}

/// The first `len` bytes of the buffer are the report so far.
// A lent buffer with a length beside it: the project fixes this form.
#[derive(Drop)]
pub struct Writer<'a> {
    pub buf: &'a mut [u8],
    pub len: usize,
}

/// Puts `line` into `buf` from `at` on.
fn paste(buf: &mut [u8], at: usize, line: &[u8])
    requires { at + length line.now ≤ length buf.old }
    ensures { buf.new ≡ take at buf.old ++ (line.now ++ drop (at + length line.now) buf.old) }
{
    buf[at..at + line.len()].copy_from_slice(line);
}

/// Whether three parts fit into a buffer of `size` bytes after the first `len`.
fn has_room(size: usize, len: usize, a: usize, b: usize, c: usize) -> bool
    ensures { result ≡ nat_le (len + (a + (b + c))) size }
{
    len <= size && a <= size - len && b <= size - len - a && c <= size - len - a - b
}

fn step_line(step: usize, bounds: [i64; 8]) -> Line
    ensures { result.bytes ≡ spec.step_line step bounds }
{
    let mut line = Line::new();
    line.push_str("step");
    put_number(&mut line, step);
    put_numbers(&mut line, bounds);
    line.push('\n');
    line
}

fn unbounded_line(step: usize) -> Line
    ensures { result.bytes ≡ spec.unbounded_line step }
{
    let mut line = Line::new();
    line.push_str("step");
    put_number(&mut line, step);
    line.push_str("\tunbounded\n");
    line
}

/// What follows the label of an open keep-out.
fn open_tail(step: usize) -> Line
    ensures { result.bytes ≡ tabs (codes "open" ∷ decimal step ∷ []) ++ (10 ∷ []) }
{
    let mut line = Line::new();
    line.push_str("\topen");
    put_number(&mut line, step);
    line.push('\n');
    line
}

fn refused_line(told: Told) -> Line
    ensures { result.bytes ≡ spec.refused_line told }
{
    let mut line = Line::new();
    line.push_str("refused");
    put_number(&mut line, told.number);
    put_number(&mut line, told.line);
    put_number(&mut line, told.field);
    put_number(&mut line, told.place);
    line.push('\n');
    line
}

impl<'a> Writer<'a> {
    /// A report that begins in this buffer.
    pub fn over(buf: &'a mut [u8]) -> Writer<'a>
        ensures { (result.len ≡ 0) × (result.buf.now ≡ buf.old) }
    {
        Writer { buf, len: 0 }
    }

    /// The report so far.
    pub fn text(&self) -> &[u8]
        ensures { result.now ≡ take self.now.len self.now.buf.now }
    {
        if self.len > self.buf.len() {
            return &self.buf[..self.buf.len()];
        }
        &self.buf[..self.len]
    }

    /// Puts bytes that fit after what stands.
    fn append(&mut self, more: &[u8])
        requires { self.old.len + length more.now ≤ length self.old.buf.now }
        ensures lent { self.new.buf.ghost_name ≡ self.old.buf.ghost_name }
        ensures added { spec.Added self.old.buf.now self.old.len more.now self.new.buf.now self.new.len }
    {
        let at = self.len;
        paste(self.buf, at, more);
        self.len += more.len();
    }

    /// Puts a line whole after what stands, or refuses and leaves all as it is.
    pub fn put(&mut self, line: &[u8]) -> Result<(), Full>
        ensures { spec.PutsLine line.now self.old self.new result }
    {
        if !has_room(self.buf.len(), self.len, line.len(), 0, 0) {
            return Err(Full);
        }
        self.append(line);
        Ok(())
    }

    /// The same for a line in three parts.
    fn put_parts(&mut self, head: &[u8], label: &[u8], tail: &[u8]) -> Result<(), Full>
        ensures { spec.PutsLine (head.now ++ (label.now ++ tail.now)) self.old self.new result }
    {
        if !has_room(
            self.buf.len(),
            self.len,
            head.len(),
            label.len(),
            tail.len(),
        ) {
            return Err(Full);
        }
        self.append(head);
        self.append(label);
        self.append(tail);
        Ok(())
    }

    /// The line of a step: the least and the greatest number of each part. A number that is written
    /// so is read back as itself.
    pub fn step(&mut self, step: usize, bounds: [i64; 8]) -> Result<(), Full>
        ensures put { spec.PutsLine (spec.step_line step bounds) self.old self.new result }
        ensures back { (field : ℕ) (z : ℤ) → unsigned_abs z < 10 ^ 16 → number_of field (signed_decimal z) ≡ Ok z }
    {
        let line = step_line(step, bounds);
        self.put(line.as_str().as_bytes())
    }

    /// The line of a step with a bound absent.
    pub fn unbounded(&mut self, step: usize) -> Result<(), Full>
        ensures { spec.PutsLine (spec.unbounded_line step) self.old self.new result }
    {
        let line = unbounded_line(step);
        self.put(line.as_str().as_bytes())
    }

    /// The line of a keep-out that no run enters.
    pub fn clear(&mut self, label: &[u8]) -> Result<(), Full>
        ensures { spec.PutsLine (spec.clear_line label.now) self.old self.new result }
    {
        self.put_parts(b"keep\t", label, b"\tclear\n")
    }

    /// The line of a keep-out that is open from a step on.
    pub fn open(&mut self, label: &[u8], step: usize) -> Result<(), Full>
        ensures { spec.PutsLine (spec.open_line label.now step) self.old self.new result }
    {
        let tail = open_tail(step);
        self.put_parts(b"keep\t", label, tail.as_str().as_bytes())
    }

    /// The line of a refusal.
    pub fn refused(&mut self, told: Told) -> Result<(), Full>
        ensures { spec.PutsLine (spec.refused_line told) self.old self.new result }
    {
        let line = refused_line(told);
        self.put(line.as_str().as_bytes())
    }
}
