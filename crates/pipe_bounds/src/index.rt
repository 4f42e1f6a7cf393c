#![tactic(auto)]
//! Indices of the text, over integers.

ghost use Rattle.std.specs.Prelude.{◌≡◌};
ghost use Rattle.domains.specs.Index.{IsIndex};
ghost use Rattle.pipe_bounds.specs.InBounds.{scale_of};

use domains::Index;

/// The index in the text, without the name of its variable. `check` ensures that its factor and its divisor are from 1 to 16, and
/// that its addend is from -4096 to 4096.
pub fn to_domain_index(index: &pipe_tree::Index) -> Index
    requires { IsIndex (scale_of index.now) }
    ensures { result ≡ scale_of index.now }
{
    match Index::new(index.mul as i32, index.add, index.div as i32) {
        Some(index) => index,
        None => unreachable!(),
    }
}
