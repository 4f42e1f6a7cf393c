#![tactic(auto)]
//! One of two operands at each place, as two others are related there.

ghost use Rattle.std.specs.Prelude.{◌≡◌, length, if◌then◌else◌};
ghost use Rattle.operators.specs.Values.{is_related};
ghost use Rattle.narrow_kernels.specs.NarrowOperands.{narrow_operand_at, ServesNarrow};
ghost use Rattle.row_loops.specs.Rows.{EachPlace, at};

use crate::narrow_operand::NarrowOperand;
use crate::narrow_operators::combine_narrow_operands;
use crate::narrow_pairs::NarrowPairMap;
use crate::narrow_trees::{NarrowJoined, NarrowLine, NarrowNumber, NarrowTree, write_narrow_tree};
use operators::Relation;
use row_loops::{AtMost, Equal, PairMap};

// One of two numbers. (Both are available when it is called, so that vector code is made.)
#[inline]
pub(crate) fn choose_narrow_number(holds: bool, one: i16, other: i16) -> i16
    ensures { result ≡ (if holds then one else other) }
{
    if holds { one } else { other }
}

/// One of two numbers: the left one where the numbers of two trees are related, else the right one.
#[derive(Clone, Copy)]
struct NarrowChoice<R: PairMap<Made = bool>, A: NarrowTree, B: NarrowTree>(R, A, B);

impl<R: PairMap<Made = bool>, A: NarrowTree, B: NarrowTree> NarrowPairMap
    for NarrowChoice<R, A, B> {
    ghost value = { λ s own k a b. if R.value s.0 (A.value s.1 own k) (B.value s.2 own k) then a else b };

    ghost fits = { λ s own k _ _. A.has s.1 own k × B.has s.2 own k };

    #[inline]
    fn apply_to_narrow_pair(&self, left: i16, right: i16, own: i16, k: usize) -> i16 {
        let one = self.1.compute_narrow_tree_at_place(own, k);
        let other = self.2.compute_narrow_tree_at_place(own, k);
        let holds = self.0.apply_to_pair(i32::from(one), i32::from(other));
        choose_narrow_number(holds, left, right)
    }
}

// Writes one of two operands at each place, as two others are related there. (The common ones of these are lines and numbers.)
fn select_narrow_operands<R: PairMap<Made = bool>>(
    out: &mut [i16],
    left: NarrowOperand,
    right: NarrowOperand,
    first: NarrowOperand,
    other: NarrowOperand,
    relate: R,
)
    requires left { ServesNarrow (length out.old) left }
    requires right { ServesNarrow (length out.old) right }
    requires first { ServesNarrow (length out.old) first }
    requires other { ServesNarrow (length out.old) other }
    ensures { EachPlace (length out.old) (λ k. at out.new k
        ≡ (if R.value relate (narrow_operand_at left.entry out.old k)
        (narrow_operand_at right.entry out.old k)
        then narrow_operand_at first.entry out.old k
        else narrow_operand_at other.entry out.old k)) }
{
    match (left, right) {
        (NarrowOperand::Line(left), NarrowOperand::Line(right)) => {
            let choice = NarrowChoice(relate, NarrowLine(left), NarrowLine(right));
            combine_narrow_operands(out, first, other, choice)
        }
        (NarrowOperand::Line(left), NarrowOperand::Number(right)) => {
            let choice = NarrowChoice(relate, NarrowLine(left), NarrowNumber(right));
            combine_narrow_operands(out, first, other, choice)
        }
        (NarrowOperand::Number(left), NarrowOperand::Line(right)) => {
            let choice = NarrowChoice(relate, NarrowNumber(left), NarrowLine(right));
            combine_narrow_operands(out, first, other, choice)
        }
        _ => {
            let choice = NarrowChoice(relate, left, right);
            write_narrow_tree(out, NarrowJoined(choice, first, other))
        }
    }
}

/// Writes one of two operands at each place: the first where two others are related there, else the other one.
#[inline(never)]
pub fn write_narrow_selection(
    out: &mut [i16],
    left: NarrowOperand,
    relation: Relation,
    right: NarrowOperand,
    first: NarrowOperand,
    other: NarrowOperand,
)
    requires left { ServesNarrow (length out.old) left }
    requires right { ServesNarrow (length out.old) right }
    requires first { ServesNarrow (length out.old) first }
    requires other { ServesNarrow (length out.old) other }
    ensures { EachPlace (length out.old) (λ k. at out.new k
        ≡ (if is_related relation (narrow_operand_at left.entry out.old k)
        (narrow_operand_at right.entry out.old k)
        then narrow_operand_at first.entry out.old k
        else narrow_operand_at other.entry out.old k)) }
{
    match relation {
        Relation::AtMost => select_narrow_operands(out, left, right, first, other, AtMost),
        Relation::AtLeast => select_narrow_operands(out, right, left, first, other, AtMost),
        Relation::Equals => select_narrow_operands(out, left, right, first, other, Equal),
    }
}
