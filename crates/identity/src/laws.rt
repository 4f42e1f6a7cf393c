//! What the definitions amount to, proved once for the crates above. A law is a function whose clauses are the law.

ghost use Rattle.std.specs.Prelude.{◌≡◌, ◌↔◌};
ghost use Rattle.std.specs.Cmp.{IsTotalOrder};
ghost use Rattle.identity.specs.Keys.{key_cmp};

use crate::key::Key;
use std::cmp::Ordering;

/// Keys are in the order of their fields, which is total. Keys that compare as equal are equal.
pub fn compare_key_fields(a: &Key, b: &Key) -> Ordering
    ensures fields { result ≡ key_cmp a.now b.now }
    ensures total { IsTotalOrder key_cmp }
    ensures one { (result ≡ Ordering.Equal) ↔ (a.now ≡ b.now) }
{
    a.cmp(b)
}
