//! Pictures in the formats PGM and PPM of Netpbm.
//!
//! Words: netpbm, picture, raster, raw, plane, pixels, header, colour, plain raster, packed sample, sample bytes, pic fault,
//! read.
#![tactic(auto)]

mod colours;
mod fault;
mod header;
mod laws;
mod packed_plane;
mod packed_samples;
mod parts;
mod picture;
mod plain;
mod raster;
mod raw_bounds;
mod raw_header;
mod raw_planes;
mod raw_raster;
mod reading;
mod text;
mod writing;

pub use fault::PicFault;
pub use laws::{no_bytes_spell_two_pictures, raw_spelling_identifies_the_picture};
pub use packed_plane::PackedPlane;
pub use picture::{LONGEST_SIDE, Picture};
pub use plane_samples::{PlaneSamples, SpacedBytes, SpacedPairs};
pub use raw_header::{LONGEST_RAW_HEADER, encode_raw_header_into_buffer};
pub use reading::{read, read_picture_in_place};
pub use writing::{hash_raw_picture, raw, write_raw};
