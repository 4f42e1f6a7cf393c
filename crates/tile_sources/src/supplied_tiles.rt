#![tactic(auto)]
//! Rows and points of supplied tiles.

ghost use Rattle.std.specs.Prelude.{◌≡◌, ◌≤◌, ◌<◌, ◌+ℤ◌, ◌≤ℤ◌, pos, length, IfSome, IfNone};
ghost use Rattle.domains.specs.Area.{HoldsPoint, IsArea};
ghost use Rattle.domains.specs.Index.{index_at};
ghost use Rattle.domains.specs.Span.{Holds};
ghost use Rattle.tile_eval.specs.Rows.{EachPlace, at};
ghost use Rattle.tile_eval.specs.Raster.{place_of};
ghost use Rattle.tile_sources.specs.KnownTiles.{number_at, HasWholeTiles, IsGivenAt};
ghost use Rattle.tile_sources.specs.inside.Tiles.{IsTileAbout};

use crate::tile_source::TileSource;
use domains::{Grid, Index, Span};
use row_kernels::{BufferView, RowSpan, compute_coordinate_at_place};

/// The supplied tiles of one stage.
#[derive(Drop)]
pub struct SuppliedTiles<'a, K: TileSource> {
    pub known: &'a K,
    pub stage: usize,
    pub grid: Grid,
    ghost area: { IsArea grid.area },
    ghost whole: { HasWholeTiles (K.given known.now) stage grid },
}

// How many numbers of a span there are from this one on, but at most `most`.
#[tactic(auto, using(std::proofs::lemmas::Int::ints))]
fn count_supplied_tile_columns_from(span: &Span, first: i32, most: usize) -> usize
    requires held { Holds span.now first }
    requires some { 0 < most }
    ensures some { 0 < result }
    ensures most { result ≤ most }
    ensures within { (first +ℤ pos result) ≤ℤ (span.now.hi +ℤ pos 1) }
{
    most.min((span.hi() - first) as usize + 1)
}

// How many of some points, from the first on, an index takes into a span. An index never falls: between two columns that it
// takes into the span it takes all columns there, so the last is found by binary search.
fn count_first_points_in_supplied_tile(span: &Span, col: &Index, points: &RowSpan) -> usize
    requires held { Holds span.now (index_at col.now points.now.col) }
    requires some { 0 < points.now.len }
    ensures some { 0 < result }
    ensures most { result ≤ points.now.len }
    ensures within { EachPlace result
        (λ k. Holds span.now (index_at col.now (points.now.col +ℤ pos k))) }
{
    let mut held = 1;
    let mut end = points.len;
    while held < end {
        let middle = held + (end - held) / 2;
        if span.holds(col.at(points.column(middle))) {
            held = middle + 1;
        } else {
            end = middle;
        }
    }
    held
}

// `count` numbers of a block along a row, from a column on, if its columns go so far.
fn borrow_row_within_supplied_tile<'a>(
    block: &BufferView<'a>,
    row: i32,
    first: i32,
    count: usize,
) -> Option<&'a [i32]>
    requires { HoldsPoint block.now.area row first }
    ensures count { IfSome result (λ line. length line.now ≡ count) }
    ensures held { IfSome result
        (λ line. EachPlace count (λ k. HoldsPoint block.now.area row (first +ℤ pos k))) }
    ensures values { IfSome result (λ line. EachPlace count (λ k. at line.now k
        ≡ at block.now.values.now (place_of block.now.area row (first +ℤ pos k)))) }
{
    if count == 0 || count_supplied_tile_columns_from(block.columns(), first, count) < count {
        return None;
    }
    Some(block.slice_row(row, first, count))
}

impl<'a, K: TileSource> SuppliedTiles<'a, K> {
    // The tile in which a point lies, if it is supplied.
    fn view_tile_at(&self, row: i32, col: i32) -> Option<BufferView<'a>>
        ensures some { IfSome result
            (IsTileAbout (K.given self.now.known.now) self.now.stage self.now.grid row col) }
        ensures none { IfNone result
            (¬ (IsGivenAt (K.given self.now.known.now) self.now.stage self.now.grid row col)) }
    {
        let (i, j) = self.grid.tile_of(row, col)?;
        let area = self.grid.tile(i, j)?;
        let numbers = self.known.borrow_tile(self.stage, i, j)?;
        Some(BufferView::new(area, numbers))
    }

    /// The numbers along a row, from a column on, to the end of the tile of the first of them, but at most `most`.
    pub fn borrow_row_up_to_tile_end(&self, row: i32, first: i32, most: usize) -> &'a [i32]
        requires some { 0 < most }
        requires there { EachPlace most (λ k. IsGivenAt (K.given self.now.known.now) self.now.stage
            self.now.grid row (first +ℤ pos k)) }
        ensures some { 0 < length result.now }
        ensures most { length result.now ≤ most }
        ensures numbers { EachPlace (length result.now) (λ k. at result.now k
            ≡ number_at (K.given self.now.known.now) self.now.stage self.now.grid row
            (first +ℤ pos k)) }
    {
        match self.view_tile_at(row, first) {
            Some(block) => block.slice_row(
                row,
                first,
                count_supplied_tile_columns_from(block.columns(), first, most),
            ),
            None => unreachable!(),
        }
    }

    // Writes the numbers along a row to the end of the tile of its first point, and returns how many these are.
    fn read_row_up_to_tile_end(&self, row: i32, first: i32, out: &mut [i32]) -> usize
        requires some { 0 < length out.old }
        requires there { EachPlace (length out.old) (λ k. IsGivenAt (K.given self.now.known.now)
            self.now.stage self.now.grid row (first +ℤ pos k)) }
        ensures some { 0 < result }
        ensures most { result ≤ length out.old }
        ensures numbers { EachPlace result (λ k. at out.new k
            ≡ number_at (K.given self.now.known.now) self.now.stage self.now.grid row
            (first +ℤ pos k)) }
    {
        let line = self.borrow_row_up_to_tile_end(row, first, out.len());
        out[..line.len()].copy_from_slice(line);
        line.len()
    }

    /// Writes the numbers along a row, from a column on.
    pub fn read_row(&self, row: i32, first: i32, out: &mut [i32])
        requires { EachPlace (length out.old) (λ k. IsGivenAt (K.given self.now.known.now)
            self.now.stage self.now.grid row (first +ℤ pos k)) }
        ensures { EachPlace (length out.old) (λ k. at out.new k
            ≡ number_at (K.given self.now.known.now) self.now.stage self.now.grid row
            (first +ℤ pos k)) }
    {
        let mut done = 0;
        while done < out.len() {
            done += self.read_row_up_to_tile_end(
                row,
                compute_coordinate_at_place(first, done),
                &mut out[done..],
            );
        }
    }

    // Writes the numbers along a row, at the columns that an index takes, to the end of the tile of the first of them. Returns
    // how many these are.
    fn gather_row_up_to_tile_end(
        &self,
        row: i32,
        col: &Index,
        points: &RowSpan,
        out: &mut [i32],
    ) -> usize
        requires some { 0 < length out.old }
        requires fits { length out.old ≡ points.now.len }
        requires there { EachPlace (length out.old) (λ k. IsGivenAt (K.given self.now.known.now)
            self.now.stage self.now.grid row (index_at col.now (points.now.col +ℤ pos k))) }
        ensures some { 0 < result }
        ensures most { result ≤ length out.old }
        ensures numbers { EachPlace result (λ k. at out.new k
            ≡ number_at (K.given self.now.known.now) self.now.stage self.now.grid row
            (index_at col.now (points.now.col +ℤ pos k))) }
    {
        match self.view_tile_at(row, points.first_column_at_index(col)) {
            Some(block) => {
                let count = count_first_points_in_supplied_tile(block.columns(), col, points);
                block.gather_row(row, col, &points.first_points(count), &mut out[..count]);
                count
            }
            None => out.len(),
        }
    }

    /// Writes the numbers along a row, at the columns that an index takes at the columns of some points.
    pub fn gather_row(&self, row: i32, col: &Index, points: &RowSpan, out: &mut [i32])
        requires fits { length out.old ≡ points.now.len }
        requires there { EachPlace (length out.old) (λ k. IsGivenAt (K.given self.now.known.now)
            self.now.stage self.now.grid row (index_at col.now (points.now.col +ℤ pos k))) }
        ensures { EachPlace (length out.old) (λ k. at out.new k
            ≡ number_at (K.given self.now.known.now) self.now.stage self.now.grid row
            (index_at col.now (points.now.col +ℤ pos k))) }
    {
        let mut done = 0;
        while done < out.len() {
            done += self.gather_row_up_to_tile_end(
                row,
                col,
                &points.slice_points(done, out.len()),
                &mut out[done..],
            );
        }
    }

    /// The numbers along a row, from a column on, if one tile has them all.
    pub fn borrow_row(&self, row: i32, first: i32, count: usize) -> Option<&'a [i32]>
        requires { EachPlace count (λ k. IsGivenAt (K.given self.now.known.now) self.now.stage
            self.now.grid row (first +ℤ pos k)) }
        ensures { IfSome result (λ line. (length line.now ≡ count)
            × EachPlace count (λ k. at line.now k
            ≡ number_at (K.given self.now.known.now) self.now.stage self.now.grid row
            (first +ℤ pos k))) }
    {
        match self.view_tile_at(row, first) {
            Some(block) => borrow_row_within_supplied_tile(&block, row, first, count),
            None => None,
        }
    }

    /// The number of a point.
    pub fn read_number(&self, row: i32, col: i32) -> i32
        requires { IsGivenAt (K.given self.now.known.now) self.now.stage self.now.grid row col }
        ensures { result
            ≡ number_at (K.given self.now.known.now) self.now.stage self.now.grid row col }
    {
        match self.view_tile_at(row, col) {
            Some(block) => block.read_sample(row, col),
            None => 0,
        }
    }
}
