#![tactic(auto)]
//! Ranges of numbers of 32 bits.

ghost use Rattle.std.specs.Prelude.{◌≡◌, ◌↔◌, ◌≤ℤ◌, ℤ, IsTrue};
ghost use Rattle.domains.specs.Arithmetic.{wrapped};
ghost use Rattle.value_ranges.specs.Ranges.{InRange, IsNarrowRange, full_range, range_at};

/// The numbers from `lo` to `hi`, both included.
#[derive(Clone, Copy, Debug, PartialEq, Eq)]
pub struct ValueRange {
    /// The least number.
    pub lo: i32,
    /// The greatest number.
    pub hi: i32,
}

/// Whether both ends fit in 16 bits.
pub fn is_narrow_value_range(range: &ValueRange) -> bool
    ensures { IsTrue result ↔ IsNarrowRange range.now }
{
    -32768 <= range.lo && range.lo <= 32767 && -32768 <= range.hi && range.hi <= 32767
}

// All numbers of 32 bits.
pub(crate) fn full_value_range() -> ValueRange
    ensures { result ≡ full_range }
{
    ValueRange {
        lo: i32::MIN,
        hi: i32::MAX,
    }
}

// The range of the stage of this number.
pub(crate) fn value_range_at(ranges: &[ValueRange], stage: usize) -> ValueRange
    ensures { result ≡ range_at ranges.now stage }
{
    match ranges.get(stage) {
        Some(range) => *range,
        None => full_value_range(),
    }
}

// The numbers between two ends, wrapped at 32 bits: all numbers, if any of them may wrap.
pub(crate) fn wrap_value_range(lo: i64, hi: i64) -> ValueRange
    ensures { (v : ℤ) → lo ≤ℤ v → v ≤ℤ hi → InRange result (wrapped v) }
{
    if lo < -2147483648 || lo > 2147483647 || hi < -2147483648 || hi > 2147483647 {
        return full_value_range();
    }
    ValueRange {
        lo: lo as i32,
        hi: hi as i32,
    }
}

// The least range that holds both ranges.
pub(crate) fn join_value_ranges(first: ValueRange, second: ValueRange) -> ValueRange
    ensures first { (v : ℤ) → InRange first v → InRange result v }
    ensures second { (v : ℤ) → InRange second v → InRange result v }
{
    ValueRange {
        lo: first.lo.min(second.lo),
        hi: first.hi.max(second.hi),
    }
}
