#![tactic(auto)]
//! The pieces of a function. They are found in its formula alone, so that nothing has to be known of what it reads.

ghost use Rattle.std.specs.Prelude.{◌≡◌, ℤ, [], Some, IfSome, map};
ghost use Rattle.std.specs.Option.{option_map};
ghost use Rattle.job.specs.Formula.{Formula as FormulaView, binary};
ghost use Rattle.job.specs.Views.{case_view, formula_view};
ghost use Rattle.operators.specs.Values.{binary_value};
ghost use Rattle.narrow_kernels.specs.NarrowAffineExtremes.{extreme_value};
ghost use Rattle.narrow_pieces.specs.Pieces.{ArePiecesOf, AreFunctionPieces};
ghost use Rattle.narrow_pieces.specs.inside.Steps.{IsMapped, IsPieceOf};

use crate::piece::{NarrowPiece, NarrowPieces};
use crate::steps::{match_narrow_piece_step, prepend_narrow_piece_step};
use job::{Formula, Function};
use narrow_kernels::{NarrowAffineMap, NarrowExtreme};
use operators::BinaryOp;

// The most operators of a piece. (No map of 16 bits has more than a handful of steps.)
const MOST_OPERATORS: usize = 8;

/// A formula, and the map that is applied to its values.
#[derive(Clone, Copy)]
struct NarrowMappedPiece<'a> {
    map: NarrowAffineMap,
    formula: &'a Formula,
}

// The same values by a map that has the last operator of the formula in it, if it can be.
fn peel_narrow_piece_operator(of: NarrowMappedPiece<'_>) -> Option<NarrowMappedPiece<'_>>
    ensures { IfSome result (λ it. (whole : FormulaView)
        → IsMapped of.entry.map (formula_view of.entry.formula.now) whole
        → IsMapped it.map (formula_view it.formula.now) whole) }
{
    let (step, formula) = match_narrow_piece_step(of.formula)?;
    let map = prepend_narrow_piece_step(of.map, step)?;
    Some(NarrowMappedPiece { map, formula })
}

// The values of a formula by a map of as few operators as can be.
fn peel_narrow_piece(formula: &Formula) -> NarrowMappedPiece<'_>
    ensures { IsMapped result.map (formula_view result.formula.now) (formula_view formula.now) }
{
    let mut peeled = NarrowMappedPiece {
        map: NarrowAffineMap::identity_on_narrow_numbers(),
        formula,
    };
    for _ in 0..MOST_OPERATORS {
        let Some(next) = peel_narrow_piece_operator(peeled) else {
            break;
        };
        peeled = next;
    }
    peeled
}

// The piece that a formula is.
fn find_narrow_piece(formula: &Formula) -> Option<NarrowPiece<'_>>
    ensures { IfSome result (λ it. IsPieceOf it (formula_view formula.now)) }
{
    let peeled = peel_narrow_piece(formula);
    match peeled.formula {
        Formula::Read(stage, row, col) if col.mul() == 1 && col.div() == 1 => Some(NarrowPiece {
            stage: *stage,
            row,
            col,
            map: peeled.map,
        }),
        _ => None,
    }
}

// Whether a formula is more than a read. (Formulas of reads alone are left to the operators on lines.)
fn has_narrow_piece_operator(formula: &Formula) -> bool {
    !matches!(formula, Formula::Read(_, _, _))
}

// Which of two numbers an operator takes.
fn find_narrow_piece_extreme(op: BinaryOp) -> Option<NarrowExtreme>
    ensures { IfSome result (λ e. (a b : ℤ) → extreme_value e a b ≡ binary_value op a b) }
{
    match op {
        BinaryOp::Min => Some(NarrowExtreme::Least),
        BinaryOp::Max => Some(NarrowExtreme::Greatest),
        _ => None,
    }
}

// The pieces of an operator on two formulas.
fn find_two_narrow_pieces<'a>(
    front: &'a Formula,
    op: BinaryOp,
    last: &'a Formula,
) -> Option<NarrowPieces<'a>>
    ensures { IfSome result (λ it. ArePiecesOf it
        (binary op (formula_view front.now) (formula_view last.now))) }
{
    if !has_narrow_piece_operator(front) && !has_narrow_piece_operator(last) {
        return None;
    }
    let join = find_narrow_piece_extreme(op)?;
    let a = find_narrow_piece(front)?;
    let b = find_narrow_piece(last)?;
    Some(NarrowPieces::Two(a, join, b))
}

// The pieces of an operator on the results of another one, and a third formula.
fn find_three_narrow_pieces<'a>(
    first: &'a Formula,
    inner: BinaryOp,
    second: &'a Formula,
    op: BinaryOp,
    last: &'a Formula,
) -> Option<NarrowPieces<'a>>
    ensures { IfSome result (λ it. ArePiecesOf it
        (binary op (binary inner (formula_view first.now) (formula_view second.now))
        (formula_view last.now))) }
{
    if !has_narrow_piece_operator(first)
        && !has_narrow_piece_operator(second)
        && !has_narrow_piece_operator(last)
    {
        return None;
    }
    let join = find_narrow_piece_extreme(inner)?;
    let last_join = find_narrow_piece_extreme(op)?;
    let a = find_narrow_piece(first)?;
    let b = find_narrow_piece(second)?;
    let c = find_narrow_piece(last)?;
    Some(NarrowPieces::Three(a, join, b, last_join, c))
}

// The pieces of an operator, if its first operand is one on two formulas.
fn find_narrow_pieces_of_two_operators<'a>(
    front: &'a Formula,
    op: BinaryOp,
    last: &'a Formula,
) -> Option<NarrowPieces<'a>>
    ensures { IfSome result (λ it. ArePiecesOf it
        (binary op (formula_view front.now) (formula_view last.now))) }
{
    let Formula::Binary(inner, first, second) = front else {
        return None;
    };
    let pieces = find_three_narrow_pieces(first, *inner, second, op, last)?;
    Some(pieces)
}

// The pieces of a formula.
fn find_narrow_pieces_of_formula(formula: &Formula) -> Option<NarrowPieces<'_>>
    ensures { IfSome result (λ it. ArePiecesOf it (formula_view formula.now)) }
{
    let Formula::Binary(op, front, last) = formula else {
        return None;
    };
    match find_two_narrow_pieces(front, *op, last) {
        Some(two) => Some(two),
        None => {
            let three = find_narrow_pieces_of_two_operators(front, *op, last)?;
            Some(three)
        }
    }
}

// The formula of a function without cases.
#[tactic(auto, using(crate::proofs::PieceLaws::no_cases))]
fn find_formula_of_narrow_pieces(function: &Function) -> Option<&Formula>
    ensures cases { IfSome result (λ _. map case_view function.now.cases.items ≡ []) }
    ensures other { IfSome result (λ it. option_map formula_view function.now.otherwise
        ≡ Some (formula_view it.now)) }
{
    if !function.cases().is_empty() {
        return None;
    }
    match function.otherwise() {
        Some(formula) => Some(formula),
        None => None,
    }
}

/// The pieces of a function without cases that takes the lesser or the greater ones of two or three. None where all that it
/// takes are reads.
pub fn find_narrow_pieces(function: &Function) -> Option<NarrowPieces<'_>>
    ensures { IfSome result (λ it. AreFunctionPieces it (map case_view function.now.cases.items)
        (option_map formula_view function.now.otherwise)) }
{
    let formula = find_formula_of_narrow_pieces(function)?;
    let pieces = find_narrow_pieces_of_formula(formula)?;
    Some(pieces)
}
