// The fields of a line: the longest runs of bytes other than space.
ghost use Rattle.std.specs.Prelude.{◌≡◌, ◌<◌, ◌≤◌, ◌==◌, not, [], ◌∷◌, length, MatchOption, IfSome};
ghost use Rattle.std.specs.List.{prefix_len};
ghost use Rattle.query_text.specs.Lines.{fields, space};

// How many spaces a text begins with.
pub(crate) fn leading_spaces(text: &[u8]) -> usize
    ensures count { result ≡ prefix_len (λ b. b == space) text.now }
    ensures within { result ≤ length text.now }
{
    text.iter().take_while(|byte| **byte == b' ').count()
}

// How many bytes other than space a text begins with.
fn leading_field(text: &[u8]) -> usize
    ensures count { result ≡ prefix_len (λ b. not (b == space)) text.now }
    ensures within { result ≤ length text.now }
{
    text.iter().take_while(|byte| **byte != b' ').count()
}

// The first field of a text and the text behind it, None where the text has no field.
pub(crate) fn next_field(text: &[u8]) -> Option<(&[u8], &[u8])>
    ensures first { MatchOption result (fields text.now ≡ [])
        (λ cut. fields text.now ≡ cut.0.now ∷ fields cut.1.now) }
    ensures shorter { IfSome result (λ cut. length cut.1.now < length text.now) }
{
    let text = &text[leading_spaces(text)..];
    if text.is_empty() {
        return None;
    }
    Some(text.split_at(leading_field(text)))
}
