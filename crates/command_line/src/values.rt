//! What single words spell: numbers of options, and values of parameters.

ghost use Rattle.std.specs.Prelude.{◌≡◌, ℕ, ℤ, IfSome, IfNone, option_map};
ghost use Rattle.command_line.specs.Values.{IsChosen, SpellsParameter, SpellsValue, is_true};

/// The value of an option, in digits alone and within 32 bits, or the usual one if the option is absent.
pub fn parse_option_number_or_default(given: Option<&str>, usual: u32) -> Option<u32>
    ensures some { IfSome result (IsChosen (option_map (λ t. t.now) given.entry) usual) }
    ensures none { IfNone result
        ((n : ℕ) → ¬ IsChosen (option_map (λ t. t.now) given.entry) usual n) }
{
    match given {
        Some(digits) if digits.starts_with('+') => None,
        Some(digits) => digits.parse().ok(),
        None => Some(usual),
    }
}

/// Whether a flag was given: its value is then the word `true`.
pub fn is_flag_option_text_true(given: Option<&str>) -> bool
    ensures { result ≡ is_true (option_map (λ t. t.now) given.entry) }
{
    match given {
        Some(text) => text == "true",
        None => false,
    }
}

/// The number that the text spells: an optional `-` and digits, within 32 bits.
fn parse_parameter_argument_value(text: &str) -> Option<i32>
    ensures some { IfSome result (SpellsValue text.now) }
    ensures none { IfNone result ((z : ℤ) → ¬ SpellsValue text.now z) }
{
    if text.starts_with('+') {
        None
    } else {
        text.parse().ok()
    }
}

/// The name and the value of a parameter: the name is all that comes before the first `=`.
pub fn parse_parameter_argument(word: &str) -> Option<(&str, i32)>
    ensures some { IfSome result (λ p. SpellsParameter word.now p.0.now p.1) }
    ensures none { IfNone result ((name : _) (z : ℤ) → ¬ SpellsParameter word.now name z) }
{
    let (name, text) = word.split_once('=')?;
    Some((name, parse_parameter_argument_value(text)?))
}
