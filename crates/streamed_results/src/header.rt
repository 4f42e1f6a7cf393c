#![tactic(auto)]
//! The header of a picture.

ghost use Rattle.std.specs.Prelude.{◌≡◌, ℕ, List, length, IfOk};
ghost use Rattle.domains.specs.Span.{len_of};
ghost use Rattle.netpbm.specs.Image.{image};
ghost use Rattle.netpbm.specs.Spelling.{header};

use domains::Area;
use netpbm::{LONGEST_RAW_HEADER, encode_raw_header_into_buffer};
use std::alloc::{AllocError, Global};

/// The bytes before the raster of a picture of so many planes on an area.
///
/// # Errors
///
/// Fails only where memory is refused.
pub(crate) fn make_result_header(
    alloc: Global,
    count: usize,
    area: &Area,
    max: u32,
) -> Result<Vec<u8>, AllocError>
    ensures { IfOk result (λ bytes. (planes : List (List ℕ)) → length planes ≡ count
        → bytes.items ≡ header (image (len_of area.now.rows) (len_of area.now.cols) max planes)) }
{
    let mut header = vec![in alloc; 0u8; LONGEST_RAW_HEADER]?;
    let (rows, cols) = (area.rows.len(), area.cols.len());
    let len = encode_raw_header_into_buffer(&mut header, count, rows, cols, max);
    header.truncate(len);
    Ok(header)
}
