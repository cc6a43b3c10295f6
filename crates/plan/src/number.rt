//! Whole numbers as a plan writes them: `0`, or an optional `-`, a digit 1 to 9 and up to 15 more.
ghost use Rattle.std.specs.Prelude.{◌≡◌, ◌^◌, ◌<◌, ◌≤◌, length, drop, IfOk};
ghost use Rattle.plan.specs.Numbers.{number_of, lead};

use super::faults::NumberFault;

/// The number of digits that stand from `start` on in their field.
fn magnitude(digits: &[u8], start: usize, field: usize) -> Result<u64, NumberFault>
    requires { start ≤ 1 }
    ensures value { result ≡ lead field start digits.now }
    ensures small { IfOk result (λ v. v < 10 ^ 16) }
{
    let [first @ b'1'..=b'9', rest @ ..] = digits else {
        return Err(NumberFault {
            field,
            offset: start,
        });
    };
    let mut value = (*first - b'0') as u64;
    for (i, b) in rest.iter().enumerate() {
        if i >= 15 || !b.is_ascii_digit() {
            let offset = start + 1 + i;
            return Err(NumberFault { field, offset });
        }
        value = value * 10 + (*b - b'0') as u64;
    }
    Ok(value)
}

/// The number that a field writes.
// The field goes along: `From` sees only the inner fault.
pub fn read_number(text: &[u8], field: usize) -> Result<i64, NumberFault>
    ensures { result ≡ number_of field text.now }
{
    match text {
        [] => Err(NumberFault { field, offset: 0 }),
        [b'0'] => Ok(0),
        [b'0', ..] => Err(NumberFault { field, offset: 1 }),
        [b'-', digits @ ..] => Ok(-(magnitude(digits, 1, field)? as i64)),
        _ => Ok(magnitude(text, 0, field)? as i64),
    }
}
