//! Words, and the numbers that they spell.

ghost use Rattle.std.specs.Prelude.{◌≡◌, ◌==◌, ℕ, IfNone, IfOk, IfSome, map};
ghost use Rattle.std.specs.List.{slice_split};
ghost use Rattle.gossip_events.specs.Scripts.{SpellsNode, SpellsNumber, SpellsStage, words};

use std::alloc::{AllocError, Global};

/// The words of a line, separated by single blanks.
pub fn split_script_line_into_words<'a>(
    alloc: Global,
    line: &'a [u8],
) -> Result<Vec<&'a [u8]>, AllocError>
    ensures { IfOk result (λ found. map (λ w. w.now) found.items ≡ words line.now) }
{
    line.split(|byte| *byte == b' ').collect(alloc)
}

/// The parts of a word, separated by single colons.
pub fn split_script_tile_name_at_colons<'a>(
    alloc: Global,
    word: &'a [u8],
) -> Result<Vec<&'a [u8]>, AllocError>
    ensures { IfOk result
        (λ found. map (λ p. p.now) found.items ≡ slice_split (λ b. b == 58) word.now) }
{
    word.split(|byte| *byte == b':').collect(alloc)
}

/// The number that the word spells in digits alone, within 32 bits.
pub fn parse_script_number(word: &[u8]) -> Option<u32>
    ensures some { IfSome result (SpellsNumber word.now) }
    ensures none { IfNone result ((n : ℕ) → ¬ SpellsNumber word.now n) }
{
    match std::str::from_utf8(word) {
        Ok(text) if text.starts_with('+') => None,
        Ok(text) => text.parse().ok(),
        Err(_) => None,
    }
}

/// The node that the word names.
pub fn parse_script_node_number(word: &[u8]) -> Option<u8>
    ensures some { IfSome result (SpellsNode word.now) }
    ensures none { IfNone result ((n : ℕ) → ¬ SpellsNode word.now n) }
{
    u8::try_from(parse_script_number(word)?).ok()
}

/// The stage that the word names.
pub fn parse_script_stage_number(word: &[u8]) -> Option<u16>
    ensures some { IfSome result (SpellsStage word.now) }
    ensures none { IfNone result ((n : ℕ) → ¬ SpellsStage word.now n) }
{
    u16::try_from(parse_script_number(word)?).ok()
}
