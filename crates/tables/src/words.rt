//! The parts of a line.

ghost use Rattle.std.specs.Prelude.{◌≡◌, ◌==◌, [], ◌∷◌, MatchOption, position};
ghost use Rattle.tables.specs.Lines.{parts};

/// The first part of a text whose parts are separated by one such byte each, and what follows that byte. None follows the last
/// part.
pub fn split_table_line_at_first_byte(text: &[u8], byte: u8) -> (&[u8], Option<&[u8]>)
    ensures { MatchOption result.1 (parts byte text.now ≡ result.0.now ∷ [])
        (λ rest. parts byte text.now ≡ result.0.now ∷ parts byte rest.now) }
{
    match find_first_byte_of_table_line(text, byte) {
        Some(end) => (&text[..end], Some(&text[end + 1..])),
        None => (text, None),
    }
}

// Where the first such byte is.
fn find_first_byte_of_table_line(text: &[u8], byte: u8) -> Option<usize>
    ensures { result ≡ position (λ other. other == byte) text.now }
{
    text.iter().position(|other| *other == byte)
}
