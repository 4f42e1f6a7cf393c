//! Lists without repeats.
//!
//! Words: without repeats.
#![tactic(auto)]

ghost use Rattle.std.specs.List.{Any, Contains};
ghost use Rattle.std.specs.List.Sorted.{IsStrictlySortedBy};
ghost use Rattle.std.specs.Ordering.{eq_by_cmp};
ghost use Rattle.std.specs.Prelude.{◌≡◌, true};

/// Puts the items in order and drops those that are equal to the one before them, without memory.
pub fn sort_without_repeats<T: Ord + Drop>(items: &mut Vec<T>)
    ensures sorted { IsStrictlySortedBy T.cmp items.new.items }
    ensures kept { (x : T) → Contains items.old.items x
        → Any (λ y. eq_by_cmp T.cmp x y ≡ true) items.new.items }
    ensures none_new { (x : T) → Contains items.new.items x → Contains items.old.items x }
{
    items.sort_unstable();
    items.dedup();
}
