#![tactic(auto)]
//! Operations on one number.

ghost use Rattle.std.specs.Prelude.{◌≡◌, ℤ};

/// An operation on one number.
pub trait NumberMap: Copy {
    /// Its result.
    ghost value: { Self → ℤ → ℤ };

    /// Computes it.
    fn apply_to_number(&self, number: i32) -> i32
        ensures { result ≡ value self.now number };
}
