//! The numbers that words spell.

ghost use Rattle.std.specs.Prelude.{◌≡◌, ◌≤◌, ℤ, IfErr, IfNone, IfOk, IfSome, IsTrue, List, length, map};
ghost use Rattle.domains.specs.Arithmetic.{clamped};
ghost use Rattle.tables.specs.Lines.{SpellIntegers, SpellsInteger, cut_to_32, parts};
ghost use Rattle.tables.specs.declared.fault.TableFault.TheVariants.{BadLine, Memory};

use crate::fault::TableFault;
use crate::table::MOST_ENTRIES;
use crate::words::split_table_line_at_first_byte;
use std::alloc::Global;

/// The number that the word spells in digits, with or without a `-` before them, within 64 bits.
pub fn parse_table_integer(word: &[u8]) -> Option<i64>
    ensures some { IfSome result (SpellsInteger word.now) }
    ensures none { IfNone result ((z : ℤ) → ¬ SpellsInteger word.now z) }
{
    match std::str::from_utf8(word) {
        Ok(text) if text.starts_with('+') => None,
        Ok(text) => text.parse().ok(),
        Err(_) => None,
    }
}

// The number clamped to the least and the greatest of 32 bits.
fn clamp_table_entry_to_int32(number: i64) -> i32
    ensures { result ≡ cut_to_32 number }
{
    number.max(i64::from(i32::MIN)).min(i64::from(i32::MAX)) as i32
}

/// The numbers that the words of a text spell, each clamped to 32 bits, where there are so many words.
pub fn parse_table_entries(alloc: Global, text: &[u8], count: usize) -> Result<Vec<i32>, TableFault>
    requires { count ≤ 4096 }
    ensures some { IfOk result (λ entries. (zs : List ℤ) × SpellIntegers (parts 32 text.now) zs × (length zs ≡ count)
        × (entries.items ≡ map cut_to_32 zs)) }
    ensures none { IfErr result (λ fault. fault ≡ BadLine
        → (zs : List ℤ) → length zs ≡ count → ¬ SpellIntegers (parts 32 text.now) zs) }
    ensures memory { IfErr result (λ fault. fault ≡ Memory
        → (zs : List ℤ) × SpellIntegers (parts 32 text.now) zs × (length zs ≡ count)) }
{
    let mut entries = [0; MOST_ENTRIES];
    if !fill_table_entries(&mut entries[..count], text) {
        return Err(TableFault::BadLine);
    }
    Ok(Vec::from_slice(alloc, &entries[..count])?)
}

// Whether there is a word for each entry, and each spells a number. Each entry is then its number, clamped to 32 bits.
fn fill_table_entries(entries: &mut [i32], text: &[u8]) -> bool
    ensures filled { IsTrue result → (zs : List ℤ) × SpellIntegers (parts 32 text.now) zs
        × (length zs ≡ length entries.old) × (entries.new ≡ map cut_to_32 zs) }
    ensures refused { ¬ (IsTrue result) → (zs : List ℤ) → length zs ≡ length entries.old
        → ¬ SpellIntegers (parts 32 text.now) zs }
{
    let mut rest = Some(text);
    for k in 0..entries.len() {
        let Some(words) = rest else {
            return false;
        };
        let (word, behind) = split_table_line_at_first_byte(words, b' ');
        let Some(number) = parse_table_integer(word) else {
            return false;
        };
        entries[k] = clamp_table_entry_to_int32(number);
        rest = behind;
    }
    rest.is_none()
}
