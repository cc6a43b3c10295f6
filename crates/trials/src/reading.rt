//! The stored plan texts against the reader.
ghost use Rattle.std.specs.Prelude.{◌≡◌, IfOk, string_bytes};
ghost use Rattle.plan.specs.Plans.{plan_of};
ghost use Rattle.trials.specs.Texts.{told_of, expected_of, text_of};
ghost use Rattle.trials.specs.Counts.{total};

use super::marks::Marks;
use super::texts::{CASES, TextCase};
use plan::reader::read_plan;
use plan::told::Told;
use std::alloc::{AllocError, Global};

/// The text of a case.
fn spelled(heap: Global, case: &TextCase) -> Result<String, AllocError>
    ensures { IfOk result (λ t. string_bytes t ≡ text_of case.now) }
{
    let mut text = String::new(heap);
    text.push_str(case.rows)?;
    text.push_str(case.gusts)?;
    text.push_str(case.starts)?;
    for _ in 0..case.times {
        text.push_str(case.keep)?;
    }
    text.push_str(case.tail)?;
    Ok(text)
}

/// What a text's refusal tells, if it is refused.
fn told(text: &[u8]) -> Option<Told>
    ensures { result ≡ told_of (plan_of text.now) }
{
    read_plan(text).err().map(|refusal| refusal.told())
}

/// What is to be told of a case.
fn expected(case: &TextCase) -> Option<Told>
    ensures { result ≡ expected_of case.now }
{
    let [number, line, field, place] = case.told?;
    Some(Told {
        number,
        line,
        field,
        place,
    })
}

/// Each stored text against what the reader says of it.
pub fn check_texts(heap: Global) -> Result<Marks, AllocError>
    ensures { IfOk result (λ m. total m ≡ 51) }
{
    let mut marks = Marks::default();
    for case in CASES.iter() {
        let text = spelled(heap, case)?;
        marks.mark(Some(told(text.as_bytes()) == expected(case)));
    }
    Ok(marks)
}
