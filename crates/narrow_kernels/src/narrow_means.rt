#![tactic(auto)]
//! Means of nine numbers: of three lines, at three adjacent places each.

ghost use Rattle.std.specs.Prelude.{◌≡◌, ◌+◌, ◌≤ℤ◌, ◌+ℤ◌, ◌*ℤ◌, pos, negsuc, length, FitsSigned};
ghost use Rattle.std.specs.Int.{w16, int_wrap};
ghost use Rattle.domains.specs.Arithmetic.{floor_div};
ghost use Rattle.narrow_kernels.specs.NarrowMeans.{column_sum, mean_of_nine, mean_of_column_parts, IsColumnSum, AreColumnParts, IsSmall, IsNinth, IsRest};
ghost use Rattle.row_loops.specs.Rows.{EachPlace, at};

use crate::narrow_terms::{add_wrapping_narrow_numbers, multiply_wrapping_narrow_numbers};

// How many means are written at a time. The sums below them then remain in the fastest memory.
const NARROW_MEAN_BLOCK: usize = 512;

// A number that is at most the ninth part, and hardly below it. (Vector code has one operation for it.)
#[inline]
#[tactic(auto, using(std::proofs::lemmas::Int::ints))]
fn estimate_narrow_ninth(number: i16) -> i16
    ensures most { (pos 9 *ℤ result) ≤ℤ number }
    ensures least { number ≤ℤ (pos 9 *ℤ result +ℤ pos 9) }
    ensures low { negsuc 3641 ≤ℤ result }
    ensures high { result ≤ℤ pos 3641 }
{
    ((i32::from(number) * 7282) >> 16) as i16
}

// The sum of three numbers that are so small that it fits.
#[inline]
#[tactic(auto, using(std::proofs::lemmas::Int::ints))]
fn add_three_small_narrow_numbers(a: i16, b: i16, c: i16) -> i16
    requires a { IsSmall a }
    requires b { IsSmall b }
    requires c { IsSmall c }
    ensures { result ≡ a +ℤ b +ℤ c }
{
    a + b + c
}

// The sum of what is estimated of three numbers.
#[inline]
fn estimate_narrow_ninth_of_three(a: i16, b: i16, c: i16) -> i16
    ensures most { (pos 9 *ℤ result) ≤ℤ (a +ℤ b +ℤ c) }
    ensures least { (a +ℤ b +ℤ c) ≤ℤ (pos 9 *ℤ result +ℤ pos 27) }
{
    add_three_small_narrow_numbers(
        estimate_narrow_ninth(a),
        estimate_narrow_ninth(b),
        estimate_narrow_ninth(c),
    )
}

// The sum of three numbers without nine times another one, wrapped at 16 bits.
#[inline]
#[tactic(auto, using(std::proofs::lemmas::Int::wraps))]
fn subtract_narrow_ninth_of_three(a: i16, b: i16, c: i16, ninth: i16) -> i16
    ensures { result ≡ int_wrap w16 (a +ℤ b +ℤ c +ℤ ninth *ℤ negsuc 8) }
{
    add_wrapping_narrow_numbers(
        add_wrapping_narrow_numbers(add_wrapping_narrow_numbers(a, b), c),
        multiply_wrapping_narrow_numbers(ninth, -9),
    )
}

// The sum of three numbers, in parts that fit in 16 bits. (What is wrapped in the second one is exact in the end.)
#[inline]
fn add_three_narrow_numbers(a: i16, b: i16, c: i16) -> (i16, i16)
    ensures { IsColumnSum (a +ℤ b +ℤ c) result.0 result.1 }
{
    let ninth = estimate_narrow_ninth_of_three(a, b, c);
    (ninth, subtract_narrow_ninth_of_three(a, b, c, ninth))
}

// Writes the sums of the numbers of three lines, place by place, in two parts.
fn write_narrow_column_sums(ninths: &mut [i16], rests: &mut [i16], a: &[i16], b: &[i16], c: &[i16])
    requires rests { length rests.old ≡ length ninths.old }
    requires a { length a.now ≡ length ninths.old }
    requires b { length b.now ≡ length ninths.old }
    requires c { length c.now ≡ length ninths.old }
    ensures { EachPlace (length ninths.old)
        (λ k. IsColumnSum (column_sum a.now b.now c.now k) (at ninths.new k) (at rests.new k)) }
{
    for k in 0..ninths.len() {
        let (ninth, rest) = add_three_narrow_numbers(a[k], b[k], c[k]);
        ninths[k] = ninth;
        rests[k] = rest;
    }
}

// The ninth part of a small number, rounded down.
#[inline]
#[tactic(auto, using(std::proofs::lemmas::Int::ints))]
fn divide_small_narrow_number_by_nine(small: i16) -> i16
    requires least { pos 0 ≤ℤ small }
    requires most { small ≤ℤ pos 81 }
    ensures most { (pos 9 *ℤ result) ≤ℤ small }
    ensures least { small ≤ℤ (pos 9 *ℤ result +ℤ pos 8) }
{
    ((i32::from(small) * 7282) >> 16) as i16
}

// The ninth part of the sum of three rests, rounded down.
#[inline]
#[tactic(auto, using(std::proofs::lemmas::Int::ints))]
fn divide_three_narrow_rests_by_nine(a: i16, b: i16, c: i16) -> i16
    requires a { IsRest a }
    requires b { IsRest b }
    requires c { IsRest c }
    ensures most { (pos 9 *ℤ result) ≤ℤ (a +ℤ b +ℤ c) }
    ensures least { (a +ℤ b +ℤ c) ≤ℤ (pos 9 *ℤ result +ℤ pos 8) }
{
    divide_small_narrow_number_by_nine(add_three_small_narrow_numbers(a, b, c))
}

// The sum of a number and of the ninths of three sums. (What comes first is small, so that each sum fits.)
#[inline]
#[tactic(auto, using(std::proofs::lemmas::Int::ints))]
fn add_three_narrow_ninths(number: i16, a: i16, b: i16, c: i16) -> i16
    requires least { pos 0 ≤ℤ number }
    requires most { number ≤ℤ pos 9 }
    requires a { IsNinth a }
    requires b { IsNinth b }
    requires c { IsNinth c }
    requires fits { FitsSigned w16 (number +ℤ (a +ℤ b +ℤ c)) }
    ensures { result ≡ number +ℤ (a +ℤ b +ℤ c) }
{
    number + a + b + c
}

// The mean of nine numbers, by the parts of the sums of three.
#[inline]
fn compute_narrow_mean_of_parts(a: (i16, i16), b: (i16, i16), c: (i16, i16)) -> i16
    requires a { AreColumnParts a.0 a.1 }
    requires b { AreColumnParts b.0 b.1 }
    requires c { AreColumnParts c.0 c.1 }
    ensures { result ≡ floor_div (pos 9 *ℤ (a.0 +ℤ b.0 +ℤ c.0) +ℤ (a.1 +ℤ b.1 +ℤ c.1)) (pos 9) }
{
    add_three_narrow_ninths(
        divide_three_narrow_rests_by_nine(a.1, b.1, c.1),
        a.0,
        b.0,
        c.0,
    )
}

// Writes the means of nine numbers, by the sums of three.
fn write_narrow_means_of_column_sums(out: &mut [i16], ninths: &[i16], rests: &[i16])
    requires ninths { length ninths.now ≡ length out.old + 2 }
    requires rests { length rests.now ≡ length out.old + 2 }
    requires parts { EachPlace (length ninths.now)
        (λ k. AreColumnParts (at ninths.now k) (at rests.now k)) }
    ensures { EachPlace (length out.old) (λ k. at out.new k
        ≡ mean_of_column_parts ninths.now rests.now k) }
{
    for k in 0..out.len() {
        let a = (ninths[k], rests[k]);
        let b = (ninths[k + 1], rests[k + 1]);
        let c = (ninths[k + 2], rests[k + 2]);
        out[k] = compute_narrow_mean_of_parts(a, b, c);
    }
}

// Writes means of nine numbers. The contents of `ninths` and `rests` have no meaning.
fn write_narrow_block_of_means(
    out: &mut [i16],
    a: &[i16],
    b: &[i16],
    c: &[i16],
    ninths: &mut [i16],
    rests: &mut [i16],
)
    requires a { length a.now ≡ length out.old + 2 }
    requires b { length b.now ≡ length out.old + 2 }
    requires c { length c.now ≡ length out.old + 2 }
    requires ninths { length ninths.old ≡ length out.old + 2 }
    requires rests { length rests.old ≡ length out.old + 2 }
    ensures { EachPlace (length out.old) (λ k. at out.new k ≡ mean_of_nine a.now b.now c.now k) }
{
    write_narrow_column_sums(ninths, rests, a, b, c);
    write_narrow_means_of_column_sums(out, ninths, rests);
}

/// Writes the means of nine numbers: of three lines, at a place and at the two that follow it.
pub fn write_narrow_means_of_nine(out: &mut [i16], a: &[i16], b: &[i16], c: &[i16])
    requires a { length a.now ≡ length out.old + 2 }
    requires b { length b.now ≡ length out.old + 2 }
    requires c { length c.now ≡ length out.old + 2 }
    ensures { EachPlace (length out.old) (λ k. at out.new k ≡ mean_of_nine a.now b.now c.now k) }
{
    let (mut ninths, mut rests) = ([0i16; 514], [0i16; 514]);
    for block in 0..out.len().div_ceil(NARROW_MEAN_BLOCK) {
        let first = NARROW_MEAN_BLOCK * block;
        let end = (first + NARROW_MEAN_BLOCK).min(out.len());
        let (a, b, c) = (&a[first..end + 2], &b[first..end + 2], &c[first..end + 2]);
        let (ninths, rests) = (
            &mut ninths[..end + 2 - first],
            &mut rests[..end + 2 - first],
        );
        write_narrow_block_of_means(&mut out[first..end], a, b, c, ninths, rests);
    }
}
