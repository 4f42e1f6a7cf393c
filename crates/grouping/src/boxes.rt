#![tactic(auto)]
//! The boxes of a function in the tiles of its group.

ghost use Rattle.std.specs.Prelude.{◌≡◌, None, true, slice_index_or};
ghost use Rattle.grouping.specs.inside.Crossed.{crossed, boxes_in, IsCrossed};

use domains::{Area, Span};

/// The boxes of an inlined function in the tiles of its group.
#[derive(Drop)]
pub(crate) enum GroupBoxes {
    /// The box in each tile, if there is one, row by row.
    Each(Vec<Option<Area>>),
    /// The rows of the boxes in each row of tiles, and the columns of those in each column of tiles.
    Crossed(SeparableBoxes),
}

/// The rows of each row of tiles and the columns of each column of tiles; the boxes are their product.
#[derive(Drop)]
pub(crate) struct SeparableBoxes {
    pub(crate) rows: Vec<Span>,
    pub(crate) cols: Vec<Span>,
}

impl GroupBoxes {
    /// The box in the tile of this number.
    pub(crate) fn get_tile_box(&self, place: usize) -> Option<Area>
        ensures { result ≡ slice_index_or (boxes_in self.now) place None }
    {
        match self {
            GroupBoxes::Each(boxes) => *boxes.get(place)?,
            GroupBoxes::Crossed(spans) => find_separable_box_by_tile_number(
                &spans.rows,
                &spans.cols,
                place,
            ),
        }
    }

    /// Whether they are kept as a product of this many rows and columns of tiles.
    pub(crate) fn has_separable_boxes_of_grid_size(&self, rows: usize, cols: usize) -> bool
        ensures { result ≡ true → IsCrossed rows cols self.now }
    {
        match self {
            GroupBoxes::Each(_) => false,
            GroupBoxes::Crossed(spans) => spans.rows.len() == rows && spans.cols.len() == cols,
        }
    }
}

// The area of this number in the product of these rows and these columns.
fn find_separable_box_by_tile_number(rows: &[Span], cols: &[Span], place: usize) -> Option<Area>
    ensures { result ≡ slice_index_or (crossed rows.now cols.now) place None }
{
    if cols.is_empty() {
        return None;
    }
    let across = *rows.get(place / cols.len())?;
    let down = *cols.get(place % cols.len())?;
    Some(Area {
        rows: across,
        cols: down,
    })
}
