//! A report line while it is made up.
ghost use Rattle.std.specs.Prelude.{◌≡◌, ◌+◌, ◌≤◌, [], ◌∷◌, ◌++◌, map};
ghost use Rattle.std.specs.Fmt.{signed_decimal};
ghost use Rattle.arrayvec.specs.ArrayString.{array_string_len};
ghost use Rattle.plan.specs.Grammar.{tabs};

use arrayvec::ArrayString;
use itoa::{Buffer, Integer};

/// The text so far. It has room for each line but for its label.
pub(crate) type Line = ArrayString<256>;

/// Puts a tab and a number.
pub(crate) fn put_number<I: Integer>(line: &mut Line, n: I)
    requires { array_string_len line.old + 1 + I.MAX_STR_LEN ≤ 256 }
    ensures text { line.new.bytes ≡ line.old.bytes ++ tabs (I.text n ∷ []) }
    ensures len { array_string_len line.new ≤ array_string_len line.old + 1 + I.MAX_STR_LEN }
{
    line.push('\t');
    line.push_str(Buffer::new().format(n));
}

/// Puts a tab and a number for each.
pub(crate) fn put_numbers(line: &mut Line, numbers: [i64; 8])
    requires { array_string_len line.old + 168 ≤ 256 }
    ensures text { line.new.bytes ≡ line.old.bytes ++ tabs (map signed_decimal numbers) }
    ensures len { array_string_len line.new ≤ array_string_len line.old + 168 }
{
    for n in &numbers {
        put_number(line, *n);
    }
}
