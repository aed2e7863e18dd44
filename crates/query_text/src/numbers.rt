// Numbers as fields spell them.
ghost use Rattle.std.specs.Prelude.{◌≡◌, ◌<◌, ◌≤◌, ◌==◌, ◌⊎◌, ◌+◌, ◌-◌, ◌*◌, true, false, not, [], length, take, option_map, MatchOption, IfSome};
ghost use Rattle.std.specs.List.{prefix_len};
ghost use Rattle.std.specs.Char.{is_ascii_digit};
ghost use Rattle.query_text.specs.Lines.{fields, space};
ghost use Rattle.query_text.specs.Numbers.{number_of, field_before, numbers_of};

use crate::fields::leading_spaces;

// A number with one more digit behind it, None where the byte is no digit or the number is too
// great.
fn with_digit(value: u32, byte: u8) -> Option<u32>
    ensures { MatchOption result
        ((is_ascii_digit byte ≡ false) ⊎ (4294967295 < 10 * value + (byte - 48)))
        (λ more. (is_ascii_digit byte ≡ true) × (more ≡ 10 * value + (byte - 48))) }
{
    if !byte.is_ascii_digit() {
        return None;
    }
    value.checked_mul(10)?.checked_add(u32::from(byte - b'0'))
}

/// The number that a field spells: ASCII digits alone, with any leading zeros.
pub fn number(field: &[u8]) -> Option<u32>
    ensures { result ≡ number_of field.now }
{
    if field.is_empty() {
        return None;
    }
    let mut value: u32 = 0;
    for byte in field {
        value = with_digit(value, *byte)?;
    }
    Some(value)
}

// The number that the bytes of a text before its first space spell, and how many bytes they are.
fn leading_number(text: &[u8]) -> Option<(u32, usize)>
    ensures number { option_map (λ cut. cut.0) result
        ≡ number_of (take (prefix_len (λ b. not (b == space)) text.now) text.now) }
    ensures len { IfSome result (λ cut. cut.1 ≡ prefix_len (λ b. not (b == space)) text.now) }
    ensures some { IfSome result (λ cut. 0 < cut.1) }
    ensures within { IfSome result (λ cut. cut.1 ≤ length text.now) }
{
    let mut value: u32 = 0;
    let mut len: usize = 0;
    while len < text.len() && text[len] != b' ' {
        value = with_digit(value, text[len])?;
        len += 1;
    }
    if len == 0 {
        return None;
    }
    Some((value, len))
}

// The number that the first field of a text spells and the text behind it, None where there is no
// field or it is no number.
pub(crate) fn next_number(text: &[u8]) -> Option<(u32, &[u8])>
    ensures first { MatchOption result
        ((numbers_of (fields text.now) ≡ Some []) ⊎ (numbers_of (fields text.now) ≡ None))
        (λ cut. numbers_of (fields text.now)
        ≡ field_before (Some cut.0) (numbers_of (fields cut.1.now))) }
    ensures shorter { IfSome result (λ cut. length cut.1.now < length text.now) }
{
    let text = &text[leading_spaces(text)..];
    let (number, len) = leading_number(text)?;
    Some((number, &text[len..]))
}
