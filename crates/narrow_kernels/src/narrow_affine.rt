#![tactic(auto)]
//! How a map of a factor, an addend, a division by a power of two and an offset is applied to a number of 16 bits.

ghost use Rattle.std.specs.Prelude.{◌≡◌, ◌<◌, ◌^◌, pos};
ghost use Rattle.domains.specs.Arithmetic.{floor_div};
ghost use Rattle.narrow_kernels.specs.NarrowAffine.{affine_value, FitsAffine};

use crate::narrow_affine_map::NarrowAffineMap;
use crate::narrow_maps::NarrowNumberMap;

// A number divided by a power of two, rounded down.
#[inline]
fn shift_narrow_affine_sum(sum: i16, bits: u32) -> i16
    requires { bits < 16 }
    ensures { result ≡ floor_div sum (pos (2 ^ bits)) }
{
    sum >> bits
}

impl NarrowNumberMap for NarrowAffineMap {
    ghost value = { λ s a. affine_value s.factor s.addend s.bits s.offset a };

    ghost fits = { λ s a. FitsAffine s.factor s.addend s.bits s.offset a };

    #[inline]
    fn apply_to_narrow_number(&self, number: i16) -> i16 {
        let sum = self.factor * number + self.addend;
        shift_narrow_affine_sum(sum, self.bits) + self.offset
    }
}
