//! Single fields: numbers with their ranges, and labels.
ghost use Rattle.std.specs.Prelude.{◌≡◌, ◌<◌, ◌≤◌, pos};
ghost use Rattle.plan.specs.Fields.{ranged, index_of, all_plain, is_label, label_of};
ghost use Rattle.plan.specs.Shown.{borrowed};

use super::faults::FieldFault;
use super::number::read_number;

/// The number of a field, which is to lie between `least` and `most`.
pub(crate) fn ranged(text: &[u8], field: usize, least: i64, most: i64) -> Result<i64, FieldFault>
    ensures { result ≡ ranged field least most text.now }
{
    let n = read_number(text, field)?;
    if !(least..=most).contains(&n) {
        return Err(FieldFault::Range { field });
    }
    Ok(n)
}

/// The number in field 2, which is to be `next`.
pub(crate) fn index(text: &[u8], next: usize) -> Result<i64, FieldFault>
    requires { next ≤ 4 }
    ensures { result ≡ index_of next text.now }
{
    let next = next as i64;
    ranged(text, 2, next, next)
}

/// Whether every byte is a letter or a digit.
fn all_plain(text: &[u8]) -> bool
    ensures { result ≡ all_plain text.now }
{
    text.iter().all(|b| b.is_ascii_alphanumeric())
}

/// Whether a text is a label: 1 to 12 letters or digits.
fn is_label(text: &[u8]) -> bool
    ensures { result ≡ is_label text.now }
{
    !text.is_empty() && text.len() <= 12 && all_plain(text)
}

/// The label in field 2.
pub(crate) fn label<'a>(text: &'a [u8]) -> Result<&'a [u8], FieldFault>
    ensures { borrowed result ≡ label_of text.now }
{
    if is_label(text) {
        Ok(text)
    } else {
        Err(FieldFault::Label { field: 2 })
    }
}
