#![tactic(auto)]
//! Sources of numbers along a row.

ghost use Rattle.std.specs.Prelude.{◌≡◌, ◌<◌, ℕ, ℤ, pos, length, slice_index};
ghost use Rattle.row_loops.specs.Rows.{at};

/// Has a number at places of a row.
pub trait RowNumbers: Copy {
    /// Whether there is one.
    ghost has: { Self → ℕ → Type 0 };
    /// And the number.
    ghost number: { Self → ℕ → ℤ };

    /// The number at a place.
    fn read_number_at_place(&self, k: usize) -> i32
        requires { has self.now k }
        ensures { result ≡ number self.now k };
}

// One number is the same at each place.
impl RowNumbers for i32 {
    ghost has = { λ _ _. Unit {0} };

    ghost number = { λ n _. n };

    #[inline]
    fn read_number_at_place(&self, _k: usize) -> i32 {
        *self
    }
}

impl<'a> RowNumbers for &'a [i32] {
    ghost has = { λ line k. k < length line.now };

    ghost number = { λ line k. at line.now k };

    #[inline]
    fn read_number_at_place(&self, k: usize) -> i32 {
        self[k]
    }
}

// Samples of planes.
impl<'a> RowNumbers for &'a [u16] {
    ghost has = { λ samples k. k < length samples.now };

    ghost number = { λ samples k. pos (slice_index samples.now k) };

    #[inline]
    fn read_number_at_place(&self, k: usize) -> i32 {
        i32::from(self[k])
    }
}
