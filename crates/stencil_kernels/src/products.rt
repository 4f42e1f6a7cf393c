#![tactic(auto)]
//! Products of factors and numbers of lines.

ghost use Rattle.std.specs.Prelude.{◌≡◌, ◌<◌, ◌+ℤ◌, ◌*ℤ◌, ℤ, length};
ghost use Rattle.domains.specs.Arithmetic.{wrapped};
ghost use Rattle.row_loops.specs.Rows.{at};

use domains::arithmetic::{wrapping_add, wrapping_mul};

/// A sum plus one more product, wrapped at 32 bits.
#[inline]
pub fn add_tap_product(sum: i32, factor: i32, line: &[i32], k: usize) -> i32
    requires { k < length line.now }
    ensures { (s : ℤ) → sum ≡ wrapped s → result ≡ wrapped (s +ℤ factor *ℤ at line.now k) }
{
    wrapping_add(sum, wrapping_mul(factor, line[k]))
}

/// A sum plus a factor times two numbers of a line, wrapped at 32 bits.
#[inline]
pub fn add_tap_pair_product(sum: i32, factor: i32, line: &[i32], j: usize, k: usize) -> i32
    requires first { j < length line.now }
    requires second { k < length line.now }
    ensures { (s : ℤ) → sum ≡ wrapped s
        → result ≡ wrapped (s +ℤ factor *ℤ (at line.now j +ℤ at line.now k)) }
{
    wrapping_add(sum, wrapping_mul(factor, wrapping_add(line[j], line[k])))
}
