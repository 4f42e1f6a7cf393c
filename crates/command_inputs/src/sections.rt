//! The sections of the input, split at lines that are exactly `%%`.

ghost use Rattle.std.specs.Prelude.{◌≡◌, ℕ, ◌+◌, ◌↔◌, ◌<◌, ◌≤◌, IsTrue, IfSome, IfNone, length, take, drop};
ghost use Rattle.command_inputs.specs.Sections.{separates, HasNoSeparator, IsFirstSeparator, IsPartedInThree, LacksSeparator};

/// The line that separates two sections.
pub(crate) const SEPARATOR: &[u8] = b"%%\n";

/// The first section and what follows its separator line, or nothing if no line is one.
///
/// A separator line is exactly two percent signs and a line feed. With a blank or a carriage return, or at the end of the input
/// without its line feed, it is a line like any other.
pub fn split_off_input_section(input: &[u8]) -> Option<(&[u8], &[u8])>
    ensures first { IfSome result (λ parts. (at : ℕ) × IsFirstSeparator input.now at
        × (parts.0.now ≡ take at input.now) × (parts.1.now ≡ drop (at + 3) input.now)) }
    ensures none { IfNone result (HasNoSeparator input.now) }
{
    let at = find_input_separator_line(input)?;
    Some((&input[..at], &input[at + SEPARATOR.len()..]))
}

/// The first section, the one after its separator line, and what follows the next separator line; or nothing if there are fewer
/// than two. After the second one a separator line is a line like any other.
pub fn split_into_three_input_sections(input: &[u8]) -> Option<(&[u8], &[u8], &[u8])>
    ensures parted { IfSome result
        (λ parts. IsPartedInThree input.now parts.0.now parts.1.now parts.2.now) }
    ensures none { IfNone result (LacksSeparator input.now) }
{
    let (text, behind) = split_off_input_section(input)?;
    let (middle, rest) = split_off_input_section(behind)?;
    Some((text, middle, rest))
}

/// The offset of the first separator line of which all bytes are there.
pub(crate) fn find_input_separator_line(input: &[u8]) -> Option<usize>
    ensures first { IfSome result (IsFirstSeparator input.now) }
    ensures room { IfSome result (λ at. at + 3 ≤ length input.now) }
    ensures none { IfNone result (HasNoSeparator input.now) }
{
    for at in 0..input.len() {
        if has_input_separator_line_at_offset(input, at) {
            return Some(at);
        }
    }
    None
}

fn has_input_separator_line_at_offset(input: &[u8], at: usize) -> bool
    requires { at < length input.now }
    ensures line { IsTrue result ↔ IsTrue (separates input.now at) }
    ensures room { IsTrue result → at + 3 ≤ length input.now }
{
    (at == 0 || input[at - 1] == b'\n') && input[at..].starts_with(SEPARATOR)
}
