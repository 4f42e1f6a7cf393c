ghost use Rattle.std.specs.Prelude.{◌≡◌, ◌*◌, ◌≤◌, ◌<◌, ◌↔◌, ℕ, length, AllPairs, Contains, IfSome, IfNone, IfOk, OnOk, ◌++◌, ◌-◌, map};
ghost use Rattle.std.specs.List.{range_with_len};

use crate::area::Area;
use crate::parts;
use std::alloc::{AllocError, Global};
use std::marker::Model;

/// The greatest height and width of tiles.
pub const MOST_SIDE: u32 = 1024;

/// How many rows and columns a tile has: 1 to 1,024 of each.
#[derive(Clone, Copy, Debug, PartialEq, Eq)]
pub struct TileSides {
    height: u32,
    width: u32,
}

impl Model for TileSides {
    ghost use Rattle.domains.specs.Sides.{Sides, IsSides};

    ghost Value = { Sides };

    ghost view = { λ s. record { height = s.height; width = s.width } };

    ghost invariant = { λ s. IsSides (record { height = s.height; width = s.width }) };

    ghost inverse = { λ s. record { height = s.height; width = s.width } };
}

impl TileSides {
    ghost use Rattle.domains.specs.Sides.{Sides, IsSides};

    /// The sides of these lengths; none where one lies outside 1 to 1,024.
    pub fn new(height: u32, width: u32) -> Option<TileSides>
        ensures some { IfSome result (λ s. s ≡ record { height = height; width = width }) }
        ensures within { IfSome result IsSides }
        ensures none { IfNone result (¬ (IsSides (record { height = height; width = width }))) }
    {
        if (1..=MOST_SIDE).contains(&height) && (1..=MOST_SIDE).contains(&width) {
            Some(TileSides { height, width })
        } else {
            None
        }
    }

    /// How many rows a tile has.
    pub fn height(&self) -> u32
        ensures length { result ≡ self.now.height }
        ensures within { IsSides self.now }
    {
        self.height
    }

    /// How many columns a tile has.
    pub fn width(&self) -> u32
        ensures length { result ≡ self.now.width }
        ensures within { IsSides self.now }
    {
        self.width
    }
}

/// An area, partitioned into tiles from its first row and column on.
#[derive(Clone, Copy, Debug, PartialEq, Eq)]
pub struct Grid {
    pub area: Area,
    pub sides: TileSides,
}

impl Grid {
    ghost use Rattle.domains.specs.Span.{IsSpan};
    ghost use Rattle.domains.specs.Area.{HoldsPoint, IsArea};
    ghost use Rattle.domains.specs.Sides.{IsSides};
    ghost use Rattle.domains.specs.Tiles.{IsGrid, HasTile, IsTileOf, MeetsTile, IsBefore, tile_rows, tile_cols, tile_area};
    ghost use Rattle.domains.specs.Tiles.{tile_at, tiles_of, cover};

    /// The tiles of these sides that partition the area.
    pub fn new(area: Area, sides: TileSides) -> Grid
        ensures { result ≡ record { area = area; sides = sides } }
    {
        Grid { area, sides }
    }

    /// How many rows of tiles there are.
    pub fn tile_rows(&self) -> u32
        ensures number { result ≡ tile_rows self.now }
        ensures some { 0 < result }
        ensures most { result ≤ 2097153 }
        ensures within { IsSpan self.now.area.rows × IsSides self.now.sides }
    {
        parts::count_span_parts(&self.area.rows, self.sides.height())
    }

    /// How many columns of tiles there are.
    pub fn tile_cols(&self) -> u32
        ensures number { result ≡ tile_cols self.now }
        ensures some { 0 < result }
        ensures most { result ≤ 2097153 }
        ensures within { IsSpan self.now.area.cols × IsSides self.now.sides }
    {
        parts::count_span_parts(&self.area.cols, self.sides.width())
    }

    /// How many tiles there are.
    pub fn tiles(&self) -> u64
        ensures number { result ≡ tile_rows self.now * tile_cols self.now }
        ensures count { result ≡ length (tiles_of self.now) }
        ensures some { 0 < result }
        ensures within { IsGrid self.now }
    {
        u64::from(self.tile_rows()) * u64::from(self.tile_cols())
    }

    /// The area of the tile in row `i` and column `j` of the grid; none outside the grid.
    pub fn tile(&self, i: u32, j: u32) -> Option<Area>
        ensures some { IfSome result (λ a. HasTile self.now i j × (a ≡ tile_area self.now i j)) }
        ensures within { IfSome result IsArea }
        ensures none { IfNone result (¬ (HasTile self.now i j)) }
    {
        let rows = parts::compute_nth_span_part(&self.area.rows, self.sides.height(), i)?;
        let cols = parts::compute_nth_span_part(&self.area.cols, self.sides.width(), j)?;
        Some(Area { rows, cols })
    }

    /// The row and the column of the tile in which the point lies; none outside the area.
    pub fn tile_of(&self, row: i32, col: i32) -> Option<(u32, u32)>
        ensures at { IfSome result (λ t. t ≡ tile_at self.now row col) }
        ensures some { IfSome result (λ t. HoldsPoint self.now.area row col
            × IsTileOf self.now row col t) }
        ensures none { IfNone result (¬ (HoldsPoint self.now.area row col)) }
    {
        let i = parts::find_span_part_index(&self.area.rows, self.sides.height(), row)?;
        let j = parts::find_span_part_index(&self.area.cols, self.sides.width(), col)?;
        Some((i, j))
    }

    /// The tiles that have a point in common with `area`, row by row.
    ///
    /// # Errors
    ///
    /// Fails only where memory is refused.
    pub fn cover(&self, alloc: Global, area: &Area) -> Result<Vec<(u32, u32)>, AllocError>
        ensures list { IfOk result (λ tiles. tiles.items ≡ cover self.now area.now) }
        ensures exact { IfOk result (λ tiles. (i j : ℕ) → Contains tiles.items (i, j)
            ↔ MeetsTile self.now area.now i j) }
        ensures order { IfOk result (λ tiles. AllPairs IsBefore tiles.items) }
    {
        let rows = parts::find_range_of_meeting_span_parts(
            &self.area.rows,
            self.sides.height(),
            &area.rows,
        );
        let cols = parts::find_range_of_meeting_span_parts(
            &self.area.cols,
            self.sides.width(),
            &area.cols,
        );
        let mut tiles = Vec::new(alloc);
        for i in rows.0..rows.1 {
            push_tiles_of_grid_row(&mut tiles, i, cols)?;
        }
        Ok(tiles)
    }
}

// Adds the tiles of row `i` from column `cols.0` up to before column `cols.1`.
fn push_tiles_of_grid_row(
    tiles: &mut Vec<(u32, u32)>,
    i: u32,
    cols: (u32, u32),
) -> Result<(), AllocError>
    requires { cols.0 ≤ cols.1 }
    ensures { OnOk result (tiles.new.items
        ≡ tiles.old.items ++ map (λ j. (i, j)) (range_with_len cols.0 (cols.1 - cols.0))) }
{
    for j in cols.0..cols.1 {
        tiles.push((i, j))?;
    }
    Ok(())
}
