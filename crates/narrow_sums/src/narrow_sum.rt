#![tactic(auto)]
//! Sums along a row of points that are gathered addend by addend, so that several addends are added in one pass.

ghost use Rattle.std.specs.Prelude.{◌≡◌, ◌≤◌, ◌<◌, ◌+ℤ◌, ◌*ℤ◌, ℕ, ℤ, pos, length, true, false};
ghost use Rattle.std.specs.Int.{w16, int_wrap};
ghost use Rattle.domains.specs.Arithmetic.{floor_div};
ghost use Rattle.operators.specs.Limits.{IsDivisor};
ghost use Rattle.narrow_kernels.specs.NarrowTaps.{tap_at, tap_sum, HaveTapLines};
ghost use Rattle.narrow_kernels.specs.NarrowDifferences.{narrow_difference_at, narrow_difference_sum, HaveDifferenceLines};
ghost use Rattle.row_loops.specs.Rows.{EachPlace, at};
ghost use Rattle.narrow_sums.specs.NarrowSums.{HasSpace, HasAddends, IsRest, GivesSum};

use narrow_kernels::{
    NarrowClampedDifference, NarrowTap, add_and_divide_narrow_tap_sums, add_narrow_difference_sums,
    add_narrow_tap_sums, wrap_factor_to_narrow_number, write_divided_narrow_tap_sums,
    write_narrow_difference_sums, write_narrow_tap_sums,
};

// How many addends of each kind are added in one pass.
const TAPS: usize = 9;

const DIFFERENCES: usize = 4;

/// A sum along a row of points: the numbers of the row, if it has been written, and the addends that are not in it yet.
#[derive(Clone, Copy, Debug)]
pub struct NarrowSum<'a> {
    pub(crate) is_written: bool,
    pub(crate) tap_count: usize,
    pub(crate) taps: [NarrowTap<'a>; TAPS],
    pub(crate) difference_count: usize,
    pub(crate) differences: [NarrowClampedDifference<'a>; DIFFERENCES],
}

// Adds taps to what a row has of a sum.
fn add_narrow_sum_taps_to_row(is_written: bool, taps: &[NarrowTap<'_>], out: &mut [i16])
    requires { HaveTapLines (length out.old) taps.now }
    ensures { EachPlace (length out.old) (λ k. (rest : ℤ) → IsRest is_written (at out.old k) rest
        → at out.new k ≡ int_wrap w16 (rest +ℤ tap_sum taps.now k)) }
{
    if is_written {
        add_narrow_tap_sums(out, taps);
    } else {
        write_narrow_tap_sums(out, taps);
    }
}

// Adds clamped differences to what a row has of a sum.
fn add_narrow_sum_differences_to_row(
    is_written: bool,
    differences: &[NarrowClampedDifference<'_>],
    out: &mut [i16],
)
    requires { HaveDifferenceLines (length out.old) differences.now }
    ensures { EachPlace (length out.old) (λ k. (rest : ℤ) → IsRest is_written (at out.old k) rest
        → at out.new k ≡ int_wrap w16 (rest +ℤ narrow_difference_sum differences.now k)) }
{
    if is_written {
        add_narrow_difference_sums(out, differences);
    } else {
        write_narrow_difference_sums(out, differences);
    }
}

// Adds taps and a number to what a row has of a sum, and divides it, rounded down.
fn divide_narrow_sum_of_row(
    is_written: bool,
    taps: &[NarrowTap<'_>],
    number: i16,
    divisor: u32,
    out: &mut [i16],
)
    requires few { length taps.now ≤ 9 }
    requires lines { HaveTapLines (length out.old) taps.now }
    requires divisor { IsDivisor divisor }
    ensures { EachPlace (length out.old) (λ k. (rest : ℤ) → IsRest is_written (at out.old k) rest
        → at out.new k
        ≡ floor_div (int_wrap w16 (rest +ℤ (tap_sum taps.now k +ℤ number))) (pos divisor)) }
{
    if is_written {
        add_and_divide_narrow_tap_sums(out, taps, number, divisor);
    } else {
        write_divided_narrow_tap_sums(out, taps, number, divisor);
    }
}

impl<'a> NarrowSum<'a> {
    /// A sum of nothing.
    pub fn of_no_narrow_addends() -> NarrowSum<'a>
        ensures written { result.is_written ≡ false }
        ensures taps { result.tap_count ≡ 0 }
        ensures differences { result.difference_count ≡ 0 }
        ensures space { HasSpace result }
    {
        NarrowSum {
            is_written: false,
            tap_count: 0,
            taps: [NarrowTap {
                line: &[],
                factor: 0,
            }; TAPS],
            difference_count: 0,
            differences: [NarrowClampedDifference {
                factor: 0,
                left: &[],
                right: &[],
                low: 0,
                high: 0,
            }; DIFFERENCES],
        }
    }

    /// A sum of what the row has if it has been written, else of nothing.
    pub fn from_narrow_row(is_written: bool) -> NarrowSum<'a>
        ensures written { result.is_written ≡ is_written }
        ensures taps { result.tap_count ≡ 0 }
        ensures differences { result.difference_count ≡ 0 }
        ensures space { HasSpace result }
    {
        let mut sum = NarrowSum::of_no_narrow_addends();
        sum.is_written = is_written;
        sum
    }

    // Adds the taps to the numbers of the row.
    fn add_narrow_sum_taps(&mut self, out: &mut [i16])
        requires addends { HasAddends (length out.old) self.old }
        ensures addends { HasAddends (length out.old) self.new }
        ensures written { self.new.is_written ≡ true }
        ensures taps { self.new.tap_count ≡ 0 }
        ensures differences { self.new.difference_count ≡ self.old.difference_count }
        ensures sum { (f : ℕ → ℤ) → GivesSum (length out.old) f self.old out.old
            → GivesSum (length out.old) f self.new out.new }
    {
        add_narrow_sum_taps_to_row(self.is_written, &self.taps[..self.tap_count], out);
        self.is_written = true;
        self.tap_count = 0;
    }

    // Adds the clamped differences to the numbers of the row.
    fn add_narrow_sum_differences(&mut self, out: &mut [i16])
        requires addends { HasAddends (length out.old) self.old }
        ensures addends { HasAddends (length out.old) self.new }
        ensures written { self.new.is_written ≡ true }
        ensures taps { self.new.tap_count ≡ self.old.tap_count }
        ensures differences { self.new.difference_count ≡ 0 }
        ensures sum { (f : ℕ → ℤ) → GivesSum (length out.old) f self.old out.old
            → GivesSum (length out.old) f self.new out.new }
    {
        add_narrow_sum_differences_to_row(
            self.is_written,
            &self.differences[..self.difference_count],
            out,
        );
        self.is_written = true;
        self.difference_count = 0;
    }

    // Adds the taps, if there is no space for one more.
    fn add_narrow_sum_taps_if_many(&mut self, out: &mut [i16])
        requires addends { HasAddends (length out.old) self.old }
        ensures addends { HasAddends (length out.old) self.new }
        ensures space { self.new.tap_count < 9 }
        ensures sum { (f : ℕ → ℤ) → GivesSum (length out.old) f self.old out.old
            → GivesSum (length out.old) f self.new out.new }
    {
        if self.tap_count == TAPS {
            self.add_narrow_sum_taps(out);
        }
    }

    // Adds the clamped differences, if there is no space for one more.
    fn add_narrow_sum_differences_if_many(&mut self, out: &mut [i16])
        requires addends { HasAddends (length out.old) self.old }
        ensures addends { HasAddends (length out.old) self.new }
        ensures space { self.new.difference_count < 4 }
        ensures sum { (f : ℕ → ℤ) → GivesSum (length out.old) f self.old out.old
            → GivesSum (length out.old) f self.new out.new }
    {
        if self.difference_count == DIFFERENCES {
            self.add_narrow_sum_differences(out);
        }
    }

    /// The sum and one more tap.
    #[inline(always)]
    pub fn push_narrow_sum_tap(&mut self, tap: NarrowTap<'a>, out: &mut [i16])
        requires addends { HasAddends (length out.old) self.old }
        requires tap { length tap.line.now ≡ length out.old }
        ensures addends { HasAddends (length out.old) self.new }
        ensures sum { (f : ℕ → ℤ) → GivesSum (length out.old) f self.old out.old
            → GivesSum (length out.old) (λ k. f k +ℤ tap_at tap.entry k) self.new out.new }
    {
        self.add_narrow_sum_taps_if_many(out);
        self.taps[self.tap_count] = tap;
        self.tap_count += 1;
    }

    /// The sum and one more clamped difference.
    #[inline(always)]
    pub fn push_narrow_sum_difference(
        &mut self,
        difference: NarrowClampedDifference<'a>,
        out: &mut [i16],
    )
        requires addends { HasAddends (length out.old) self.old }
        requires left { length difference.left.now ≡ length out.old }
        requires right { length difference.right.now ≡ length out.old }
        ensures addends { HasAddends (length out.old) self.new }
        ensures sum { (f : ℕ → ℤ) → GivesSum (length out.old) f self.old out.old
            → GivesSum (length out.old) (λ k. f k +ℤ narrow_difference_at difference.entry k) self.new
            out.new }
    {
        self.add_narrow_sum_differences_if_many(out);
        self.differences[self.difference_count] = difference;
        self.difference_count += 1;
    }

    /// The sum and the products of a factor and the numbers of a line.
    pub fn push_narrow_sum_product(&mut self, line: &'a [i16], factor: i32, out: &mut [i16])
        requires addends { HasAddends (length out.old) self.old }
        requires line { length line.now ≡ length out.old }
        ensures addends { HasAddends (length out.old) self.new }
        ensures sum { (f : ℕ → ℤ) → GivesSum (length out.old) f self.old out.old
            → GivesSum (length out.old) (λ k. f k +ℤ factor *ℤ at line.now k) self.new out.new }
    {
        if factor != 0 {
            let factor = wrap_factor_to_narrow_number(factor);
            self.push_narrow_sum_tap(NarrowTap { line, factor }, out);
        }
    }

    // Adds the clamped differences, if there are any.
    fn add_narrow_sum_differences_if_any(&mut self, out: &mut [i16])
        requires addends { HasAddends (length out.old) self.old }
        ensures addends { HasAddends (length out.old) self.new }
        ensures differences { self.new.difference_count ≡ 0 }
        ensures sum { (f : ℕ → ℤ) → GivesSum (length out.old) f self.old out.old
            → GivesSum (length out.old) f self.new out.new }
    {
        if self.difference_count > 0 {
            self.add_narrow_sum_differences(out);
        }
    }

    /// Writes the sum with a number, wrapped at 16 bits and divided, rounded down. A divisor of 1 writes the sum itself.
    pub fn divide_narrow_sum(&mut self, number: i16, divisor: u32, out: &mut [i16])
        requires addends { HasAddends (length out.old) self.old }
        requires divisor { IsDivisor divisor }
        ensures { (f : ℕ → ℤ) → GivesSum (length out.old) f self.old out.old
            → EachPlace (length out.old) (λ k. at out.new k
            ≡ floor_div (int_wrap w16 (f k +ℤ number)) (pos divisor)) }
    {
        self.add_narrow_sum_differences_if_any(out);
        let taps = &self.taps[..self.tap_count];
        divide_narrow_sum_of_row(self.is_written, taps, number, divisor, out);
    }
}
