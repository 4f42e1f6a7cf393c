#![tactic(auto)]
//! What is made of the numbers of three lines of 16 bits, place by place.

ghost use Rattle.std.specs.Prelude.{◌≡◌, length};
ghost use Rattle.std.specs.Int.{int_min, int_max};
ghost use Rattle.row_loops.specs.Rows.{EachPlace, at};

use crate::narrow_pairs::{NarrowGreatest, NarrowLeast};
use crate::narrow_trees::{NarrowJoined, NarrowLine, write_narrow_tree};

/// Writes the least of the numbers of three lines.
pub fn write_narrow_least_of_three_lines(out: &mut [i16], a: &[i16], b: &[i16], c: &[i16])
    requires a { length a.now ≡ length out.old }
    requires b { length b.now ≡ length out.old }
    requires c { length c.now ≡ length out.old }
    ensures { EachPlace (length out.old)
        (λ k. at out.new k ≡ int_min (int_min (at a.now k) (at b.now k)) (at c.now k)) }
{
    let front = NarrowJoined(NarrowLeast, NarrowLine(a), NarrowLine(b));
    write_narrow_tree(out, NarrowJoined(NarrowLeast, front, NarrowLine(c)));
}

/// Writes the greatest of the numbers of three lines.
pub fn write_narrow_greatest_of_three_lines(out: &mut [i16], a: &[i16], b: &[i16], c: &[i16])
    requires a { length a.now ≡ length out.old }
    requires b { length b.now ≡ length out.old }
    requires c { length c.now ≡ length out.old }
    ensures { EachPlace (length out.old)
        (λ k. at out.new k ≡ int_max (int_max (at a.now k) (at b.now k)) (at c.now k)) }
{
    let front = NarrowJoined(NarrowGreatest, NarrowLine(a), NarrowLine(b));
    write_narrow_tree(out, NarrowJoined(NarrowGreatest, front, NarrowLine(c)));
}

/// Writes the medians of the numbers of three lines.
pub fn write_narrow_medians_of_three_lines(out: &mut [i16], a: &[i16], b: &[i16], c: &[i16])
    requires a { length a.now ≡ length out.old }
    requires b { length b.now ≡ length out.old }
    requires c { length c.now ≡ length out.old }
    ensures { EachPlace (length out.old) (λ k. at out.new k
        ≡ int_max (int_min (at a.now k) (at b.now k))
        (int_min (int_max (at a.now k) (at b.now k)) (at c.now k))) }
{
    let least = NarrowJoined(NarrowLeast, NarrowLine(a), NarrowLine(b));
    let greatest = NarrowJoined(NarrowGreatest, NarrowLine(a), NarrowLine(b));
    let most = NarrowJoined(NarrowLeast, greatest, NarrowLine(c));
    write_narrow_tree(out, NarrowJoined(NarrowGreatest, least, most));
}
