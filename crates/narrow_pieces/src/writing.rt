#![tactic(auto)]
//! Rows of functions, written from their pieces.

ghost use Rattle.std.specs.Prelude.{◌≡◌, ◌+ℤ◌, pos, length, map};
ghost use Rattle.std.specs.Option.{option_map};
ghost use Rattle.job.specs.Pipeline.{function as function_body};
ghost use Rattle.job.specs.Reads.{BodyReads};
ghost use Rattle.job.specs.Views.{case_view, formula_view};
ghost use Rattle.narrow_kernels.specs.NarrowAffineExtremes.{affine_line_at, FitsAffineLine};
ghost use Rattle.row_loops.specs.Rows.{EachPlace, at};
ghost use Rattle.tile_eval.specs.Cases.{function_value};
ghost use Rattle.value_ranges.specs.Narrow.{IsNarrowFunction};
ghost use Rattle.narrow_pieces.specs.Pieces.{piece_value, pieces_value, EachPiece, AreFunctionPieces};
ghost use Rattle.narrow_pieces.specs.inside.Ready.{IsReadyPiece};

use crate::piece::{NarrowPiece, NarrowPieces};
use job::Function;
use narrow_kernels::{
    NarrowAffineLine, write_narrow_extremes_of_three_affine_maps,
    write_narrow_extremes_of_two_affine_maps,
};
use narrow_sums::NarrowSource;
use row_kernels::RowSpan;

// The samples that a piece takes along the points, with its map.
#[inline(always)]
fn borrow_narrow_piece<'a, S: NarrowSource>(
    source: &'a S,
    piece: &NarrowPiece<'_>,
    points: &RowSpan,
) -> NarrowAffineLine<'a>
    requires { IsReadyPiece (S.has source.now) (S.samples source.now) points.now.row points.now.col
        points.now.len piece.now }
    ensures count { length result.line.now ≡ points.now.len }
    ensures fits { EachPlace points.now.len (λ k. FitsAffineLine result k) }
    ensures value { EachPlace points.now.len (λ k. affine_line_at result k
        ≡ piece_value (S.samples source.now) piece.now points.now.row (points.now.col +ℤ pos k)) }
{
    let row = points.row_at_index(piece.row);
    let first = points.first_column_at_index(piece.col);
    let line = source.borrow_narrow_row(piece.stage, row, first, points.len);
    NarrowAffineLine {
        line,
        map: piece.map,
    }
}

// Writes what the pieces give along the points.
fn write_extremes_of_narrow_pieces<S: NarrowSource>(
    source: &S,
    pieces: &NarrowPieces<'_>,
    points: &RowSpan,
    out: &mut [i16],
)
    requires fits { length out.old ≡ points.now.len }
    requires ready { EachPiece (IsReadyPiece (S.has source.now) (S.samples source.now) points.now.row
        points.now.col points.now.len) pieces.now }
    ensures { EachPlace (length out.old) (λ k. at out.new k
        ≡ pieces_value (S.samples source.now) pieces.now points.now.row (points.now.col +ℤ pos k)) }
{
    match pieces {
        NarrowPieces::Two(a, join, b) => {
            let front = borrow_narrow_piece(source, a, points);
            let back = borrow_narrow_piece(source, b, points);
            write_narrow_extremes_of_two_affine_maps(out, front, *join, back);
        }
        NarrowPieces::Three(a, join, b, last_join, c) => {
            let first = borrow_narrow_piece(source, a, points);
            let second = borrow_narrow_piece(source, b, points);
            let third = borrow_narrow_piece(source, c, points);
            write_narrow_extremes_of_three_affine_maps(
                out, first, *join, second, *last_join, third,
            );
        }
    }
}

/// Writes the values of a function at a row of points from its pieces, where each number that is computed fits in 16 bits. The
/// function itself is what the contract speaks of, and is not read again.
pub fn write_narrow_pieces<S: NarrowSource>(
    source: &S,
    function: &Function,
    pieces: &NarrowPieces<'_>,
    points: &RowSpan,
    out: &mut [i16],
)
    requires fits { length out.old ≡ points.now.len }
    requires pieces { AreFunctionPieces pieces.now (map case_view function.now.cases.items)
        (option_map formula_view function.now.otherwise) }
    requires reads { EachPlace (length out.old) (λ k. BodyReads (S.has source.now)
        (function_body (map case_view function.now.cases.items)
        (option_map formula_view function.now.otherwise)) points.now.row (points.now.col +ℤ pos k)) }
    requires narrow { EachPlace (length out.old) (λ k. IsNarrowFunction (S.samples source.now)
        (map case_view function.now.cases.items) (option_map formula_view function.now.otherwise)
        points.now.row (points.now.col +ℤ pos k)) }
    ensures { EachPlace (length out.old) (λ k. at out.new k
        ≡ function_value (S.samples source.now) (map case_view function.now.cases.items)
        (option_map formula_view function.now.otherwise) points.now.row
        (points.now.col +ℤ pos k)) }
{
    write_extremes_of_narrow_pieces(source, pieces, points, out);
}
