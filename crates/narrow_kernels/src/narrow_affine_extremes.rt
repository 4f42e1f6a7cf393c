#![tactic(auto)]
//! The lesser or greater ones of what affine maps make of the numbers of two or three lines, in one pass.

ghost use Rattle.std.specs.Prelude.{◌≡◌, ◌<◌, pos, length};
ghost use Rattle.narrow_kernels.specs.NarrowAffineExtremes.{affine_line_at, extreme_value, FitsAffineLine};
ghost use Rattle.row_loops.specs.Rows.{EachPlace, at};

use crate::narrow_affine_map::NarrowAffineMap;
use crate::narrow_maps::NarrowNumberMap;
use crate::narrow_pairs::{NarrowGreatest, NarrowLeast};
use crate::narrow_trees::{NarrowJoined, NarrowTree, write_narrow_tree};

/// The numbers of a line, and the map that is applied to each of them.
#[derive(Clone, Copy, Debug)]
pub struct NarrowAffineLine<'a> {
    pub line: &'a [i16],
    pub map: NarrowAffineMap,
}

/// Which one of two numbers is taken.
#[derive(Clone, Copy, Debug)]
pub enum NarrowExtreme {
    Least,
    Greatest,
}

impl<'a> NarrowTree for NarrowAffineLine<'a> {
    ghost has = { λ a _ k. (k < length a.line.now) × FitsAffineLine a k };

    ghost value = { λ a _ k. affine_line_at a k };

    #[inline]
    fn compute_narrow_tree_at_place(&self, _own: i16, k: usize) -> i16 {
        self.map.apply_to_narrow_number(self.line[k])
    }
}

/// The same without the addend, which is 0.
#[derive(Clone, Copy)]
struct NarrowAffineLineWithoutAddend<'a>(NarrowAffineLine<'a>);

impl<'a> NarrowTree for NarrowAffineLineWithoutAddend<'a> {
    ghost has = { λ a _ k. (k < length a.0.line.now) × (a.0.map.addend ≡ pos 0) × FitsAffineLine a.0 k };

    ghost value = { λ a _ k. affine_line_at a.0 k };

    #[inline]
    fn compute_narrow_tree_at_place(&self, _own: i16, k: usize) -> i16 {
        let NarrowAffineMap {
            factor,
            bits,
            offset,
            ..
        } = self.0.map;
        let map = NarrowAffineMap {
            factor,
            addend: 0,
            bits,
            offset,
        };
        map.apply_to_narrow_number(self.0.line[k])
    }
}

// Writes the lesser or the greater ones of the numbers of two trees.
fn write_narrow_extremes_of_two_trees<T: NarrowTree>(
    out: &mut [i16],
    a: T,
    join: NarrowExtreme,
    b: T,
)
    requires first { EachPlace (length out.old) (λ k. T.has a (at out.old k) k) }
    requires second { EachPlace (length out.old) (λ k. T.has b (at out.old k) k) }
    ensures { EachPlace (length out.old) (λ k. at out.new k
        ≡ extreme_value join (T.value a (at out.old k) k) (T.value b (at out.old k) k)) }
{
    match join {
        NarrowExtreme::Least => write_narrow_tree(out, NarrowJoined(NarrowLeast, a, b)),
        NarrowExtreme::Greatest => write_narrow_tree(out, NarrowJoined(NarrowGreatest, a, b)),
    }
}

/// Writes the lesser or the greater ones of what two maps make of the numbers of their lines, where each step fits in 16 bits.
/// (In line, the registers of its caller leave too few for the loop.)
#[inline(never)]
pub fn write_narrow_extremes_of_two_affine_maps(
    out: &mut [i16],
    a: NarrowAffineLine<'_>,
    join: NarrowExtreme,
    b: NarrowAffineLine<'_>,
)
    requires a { length a.line.now ≡ length out.old }
    requires b { length b.line.now ≡ length out.old }
    requires first { EachPlace (length out.old) (λ k. FitsAffineLine a k) }
    requires second { EachPlace (length out.old) (λ k. FitsAffineLine b k) }
    ensures { EachPlace (length out.old) (λ k. at out.new k
        ≡ extreme_value join (affine_line_at a.entry k) (affine_line_at b.entry k)) }
{
    if a.map.addend == 0 && b.map.addend == 0 {
        let (a, b) = (
            NarrowAffineLineWithoutAddend(a),
            NarrowAffineLineWithoutAddend(b),
        );
        write_narrow_extremes_of_two_trees(out, a, join, b);
    } else {
        write_narrow_extremes_of_two_trees(out, a, join, b);
    }
}

// Writes the lesser or the greater ones of the numbers of a third tree, and of those of two others.
fn write_narrow_extremes_of_three_trees<T: NarrowTree>(
    out: &mut [i16],
    a: T,
    join: NarrowExtreme,
    b: T,
    last_join: NarrowExtreme,
    c: T,
)
    requires first { EachPlace (length out.old) (λ k. T.has a (at out.old k) k) }
    requires second { EachPlace (length out.old) (λ k. T.has b (at out.old k) k) }
    requires third { EachPlace (length out.old) (λ k. T.has c (at out.old k) k) }
    ensures { EachPlace (length out.old) (λ k. at out.new k
        ≡ extreme_value last_join
        (extreme_value join (T.value a (at out.old k) k) (T.value b (at out.old k) k))
        (T.value c (at out.old k) k)) }
{
    let least = NarrowJoined(NarrowLeast, a, b);
    let greatest = NarrowJoined(NarrowGreatest, a, b);
    match (join, last_join) {
        (NarrowExtreme::Least, NarrowExtreme::Least) => {
            write_narrow_tree(out, NarrowJoined(NarrowLeast, least, c))
        }
        (NarrowExtreme::Least, NarrowExtreme::Greatest) => {
            write_narrow_tree(out, NarrowJoined(NarrowGreatest, least, c))
        }
        (NarrowExtreme::Greatest, NarrowExtreme::Least) => {
            write_narrow_tree(out, NarrowJoined(NarrowLeast, greatest, c))
        }
        (NarrowExtreme::Greatest, NarrowExtreme::Greatest) => {
            write_narrow_tree(out, NarrowJoined(NarrowGreatest, greatest, c))
        }
    }
}

/// Writes the lesser or the greater ones of what a map makes of the numbers of a third line, and of those of two such lines.
#[inline(never)]
pub fn write_narrow_extremes_of_three_affine_maps(
    out: &mut [i16],
    a: NarrowAffineLine<'_>,
    join: NarrowExtreme,
    b: NarrowAffineLine<'_>,
    last_join: NarrowExtreme,
    c: NarrowAffineLine<'_>,
)
    requires a { length a.line.now ≡ length out.old }
    requires b { length b.line.now ≡ length out.old }
    requires c { length c.line.now ≡ length out.old }
    requires first { EachPlace (length out.old) (λ k. FitsAffineLine a k) }
    requires second { EachPlace (length out.old) (λ k. FitsAffineLine b k) }
    requires third { EachPlace (length out.old) (λ k. FitsAffineLine c k) }
    ensures { EachPlace (length out.old) (λ k. at out.new k
        ≡ extreme_value last_join
        (extreme_value join (affine_line_at a.entry k) (affine_line_at b.entry k))
        (affine_line_at c.entry k)) }
{
    if a.map.addend == 0 && b.map.addend == 0 && c.map.addend == 0 {
        let (a, b) = (
            NarrowAffineLineWithoutAddend(a),
            NarrowAffineLineWithoutAddend(b),
        );
        let c = NarrowAffineLineWithoutAddend(c);
        write_narrow_extremes_of_three_trees(out, a, join, b, last_join, c);
    } else {
        write_narrow_extremes_of_three_trees(out, a, join, b, last_join, c);
    }
}
