//! What a tile reads: samples of planes, converted once where they are read often, and numbers of supplied tiles.
//!
//! Words: tile source, plane buffer, plane read, plane area, plane row, for tile, supplied tile, supplied row, number range.
#![tactic(auto)]

mod plane_buffer;
mod plane_buffers;
mod plane_reads;
mod ranges;
mod samples;
mod supplied_rows;
mod supplied_tiles;
mod tile_source;

pub use plane_buffers::ThreePlaneBuffers;
pub use plane_reads::{PlaneAreas, find_plane_areas_to_convert};
pub use ranges::borrow_number_range;
pub use samples::{
    borrow_plane_row_bytes_for_tile, gather_plane_row_for_tile, read_plane_row_for_tile,
    read_plane_sample_for_tile,
};
pub use supplied_rows::borrow_supplied_row_up_to_tile_end;
pub use supplied_tiles::SuppliedTiles;
pub use tile_source::TileSource;
