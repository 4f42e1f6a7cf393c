//! Numbers in order, which copies share.

ghost use Rattle.std.specs.Cmp.Lexicographic.{slice_cmp, slice_partial_cmp, pointwise, lists_per, lists_equiv, lists_po};
ghost use Rattle.std.specs.Cmp.Lexicographic.{lists_total, lists_agrees, lists_ties};
ghost use Rattle.std.specs.Prelude.{◌≡◌, IfOk};

use std::alloc::AllocError;
use std::cmp::Ordering;
use std::marker::Model;
use std::sync::ArcSlice;

/// Numbers in order, which copies share. Contracts see the list of them.
#[derive(Debug, Drop)]
pub struct SharedSequence<T> {
    items: ArcSlice<T>,
}

impl<T> Model for SharedSequence<T> {
    ghost use Rattle.std.specs.Arc.{arc_slice_items};
    ghost use Rattle.std.specs.Coded.{coded_list};
    ghost use Rattle.std.specs.Prelude.{List};

    ghost Value = { List T };

    ghost coded = { coded_list T.code };

    ghost view = { λ numbers. arc_slice_items numbers.items };
}

impl<T: Drop> SharedSequence<T> {
    /// These numbers. Spare capacity of the `Vec` is kept.
    pub fn new(items: Vec<T>) -> Result<Self, AllocError>
        ensures { IfOk result (λ numbers. numbers ≡ items.items) }
    {
        let items = ArcSlice::from_vec(items)?;
        Ok(SharedSequence { items })
    }
}

impl<T> SharedSequence<T> {
    /// The numbers, in order.
    pub fn as_slice(&self) -> &[T]
        ensures { result.now ≡ self.now }
    {
        self.items.as_slice()
    }
}

/// A copy shares the numbers and allocates no memory. It fails only if there are too many copies to count.
impl<T: Drop> Clone for SharedSequence<T> {
    ghost is_clone = { λ it copy. copy ≡ it };

    fn clone(&self) -> Result<Self, AllocError> {
        let items = self.items.clone()?;
        Ok(SharedSequence { items })
    }
}

impl<T: PartialEq> PartialEq for SharedSequence<T> {
    ghost eq = { pointwise T.eq };

    ghost laws = { lists_per T.laws };

    fn eq(&self, other: &Self) -> bool {
        self.items == other.items
    }
}

impl<T: Eq> Eq for SharedSequence<T> {
    ghost laws = { lists_equiv T.Eq.laws };
}

impl<T: PartialOrd> PartialOrd for SharedSequence<T> {
    ghost partial_cmp = { slice_partial_cmp T.partial_cmp };

    ghost laws = { lists_po T.PartialOrd.laws };

    fn partial_cmp(&self, other: &Self) -> Option<Ordering> {
        self.items.partial_cmp(&other.items)
    }
}

impl<T: Ord> Ord for SharedSequence<T> {
    ghost cmp = { slice_cmp T.cmp };

    ghost total = { lists_total T.total };

    ghost matches_partial_cmp = { lists_agrees T.matches_partial_cmp };

    ghost matches_eq = { lists_ties T.cmp T.matches_eq };

    fn cmp(&self, other: &Self) -> Ordering {
        self.items.cmp(&other.items)
    }
}
