#![tactic(auto)]
//! Parts of numbers.

ghost use Rattle.std.specs.Prelude.{◌≡◌, ◌≤◌, ◌<◌, ◌+◌, length, IfSome, IfNone};
ghost use Rattle.tile_eval.specs.Rows.{EachPlace, at};

/// `len` numbers from a place on, if there are so many.
pub fn borrow_number_range(numbers: &[i32], start: usize, len: usize) -> Option<&[i32]>
    ensures count { IfSome result (λ part. length part.now ≡ len) }
    ensures numbers { IfSome result
        (λ part. EachPlace len (λ k. at part.now k ≡ at numbers.now (start + k))) }
    ensures inside { IfSome result (λ part. start + len ≤ length numbers.now) }
    ensures none { IfNone result (length numbers.now < start + len) }
{
    numbers.get(start..)?.get(..len)
}
