#![tactic(auto)]
//! Affine maps of what an operator gives, as maps of its operand.

ghost use Rattle.std.specs.Prelude.{◌≡◌, ◌<◌, ◌^◌, ◌+ℤ◌, ◌*ℤ◌, ℤ, pos, IfSome, FitsSigned};
ghost use Rattle.std.specs.Int.{w16};
ghost use Rattle.domains.specs.Arithmetic.{floor_div};
ghost use Rattle.narrow_kernels.specs.NarrowAffine.{affine_value, FitsAffine};

use crate::narrow_affine_map::NarrowAffineMap;

// A map of these numbers.
fn build_narrow_affine_map(factor: i16, addend: i16, bits: u32, offset: i16) -> NarrowAffineMap
    requires few { bits < 16 }
    ensures factor { result.factor ≡ factor }
    ensures addend { result.addend ≡ addend }
    ensures bits { result.bits ≡ bits }
    ensures offset { result.offset ≡ offset }
{
    NarrowAffineMap {
        factor,
        addend,
        bits,
        offset,
    }
}

// The sum of two numbers, if it fits.
fn add_narrow_offsets(a: i16, b: i16) -> Option<i16>
    ensures { IfSome result (λ sum. sum ≡ a +ℤ b) }
{
    a.checked_add(b)
}

impl NarrowAffineMap {
    /// The map that leaves each number as it is.
    pub fn identity_on_narrow_numbers() -> NarrowAffineMap
        ensures value { (x : ℤ) → affine_value result.factor result.addend result.bits result.offset x ≡ x }
        ensures fits { (x : ℤ) → FitsSigned w16 x
            → FitsAffine result.factor result.addend result.bits result.offset x }
    {
        build_narrow_affine_map(1, 0, 0, 0)
    }

    /// What this map makes of sums with a number, as a map of the other addend. None where that takes two additions.
    pub fn prepend_narrow_addition(self, number: i16) -> Option<NarrowAffineMap>
        ensures value { IfSome result (λ it. (x : ℤ)
            → affine_value it.factor it.addend it.bits it.offset x
            ≡ affine_value self.factor self.addend self.bits self.offset (x +ℤ number)) }
        ensures fits { IfSome result (λ it. (x : ℤ) → FitsSigned w16 x
            → FitsAffine self.factor self.addend self.bits self.offset (x +ℤ number)
            → FitsAffine it.factor it.addend it.bits it.offset x) }
    {
        if self.factor != 1 {
            return None;
        }
        if self.bits == 0 && self.addend == 0 {
            return Some(build_narrow_affine_map(1, 0, 0, add_narrow_offsets(self.offset, number)?));
        }
        Some(build_narrow_affine_map(
            1,
            add_narrow_offsets(self.addend, number)?,
            self.bits,
            self.offset,
        ))
    }

    /// What this map makes of products with a number, as a map of the other factor. None where that takes two products.
    pub fn prepend_narrow_multiplication(self, number: i16) -> Option<NarrowAffineMap>
        ensures value { IfSome result (λ it. (x : ℤ)
            → affine_value it.factor it.addend it.bits it.offset x
            ≡ affine_value self.factor self.addend self.bits self.offset (number *ℤ x)) }
        ensures fits { IfSome result (λ it. (x : ℤ)
            → FitsAffine self.factor self.addend self.bits self.offset (number *ℤ x)
            → FitsAffine it.factor it.addend it.bits it.offset x) }
    {
        if self.factor != 1 {
            return None;
        }
        Some(build_narrow_affine_map(number, self.addend, self.bits, self.offset))
    }

    /// What this map makes of quotients by a power of two, rounded down, as a map of the dividend. None where a product, a sum
    /// or a quotient comes before.
    pub fn prepend_narrow_right_shift(self, bits: u32) -> Option<NarrowAffineMap>
        ensures value { IfSome result (λ it. (x : ℤ)
            → affine_value it.factor it.addend it.bits it.offset x
            ≡ affine_value self.factor self.addend self.bits self.offset
            (floor_div x (pos (2 ^ bits)))) }
        ensures fits { IfSome result (λ it. (x : ℤ) → FitsSigned w16 x
            → FitsAffine self.factor self.addend self.bits self.offset
            (floor_div x (pos (2 ^ bits)))
            → FitsAffine it.factor it.addend it.bits it.offset x) }
    {
        if self.factor != 1 || self.addend != 0 || self.bits != 0 || bits > 15 {
            return None;
        }
        Some(build_narrow_affine_map(1, 0, bits, self.offset))
    }
}
