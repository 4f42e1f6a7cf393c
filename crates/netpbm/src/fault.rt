//! Why bytes are no picture.

use fault_rows::{Fault, FaultRow, fault_place, fault_row};
use thiserror::Error;

/// The first fault of the bytes from the left, with its offset from the first byte.
#[derive(Clone, Copy, Debug, PartialEq, Eq, Error)]
pub enum PicFault {
    /// 1: the bytes do not begin with `P2`, `P3`, `P5` or `P6`: the first byte that differs.
    #[error("another format, at {0}")]
    OtherFormat(usize),
    /// 2: the bytes end before the one after the greatest sample: their number.
    #[error("the header is cut at {0}")]
    HeaderCut(usize),
    /// 3: a byte of the header or of a plain raster that cannot be there.
    #[error("bad number at {0}")]
    BadNumber(usize),
    /// 4: a width or a height that is not from 1 to 4096: its first digit.
    #[error("bad size at {0}")]
    BadSize(usize),
    /// 5: a greatest sample that is not from 1 to 65535: its first digit.
    #[error("bad greatest sample at {0}")]
    BadMax(usize),
    /// 6: a comment directly after the greatest sample: its `#`.
    #[error("a comment directly behind the greatest sample, at {0}")]
    CommentBehindDigit(usize),
    /// 7: the bytes end before the last sample is whole: their number.
    #[error("the raster is cut at {0}")]
    RasterCut(usize),
    /// 8: a sample above the greatest: its first byte.
    #[error("a sample is too big at {0}")]
    SampleTooBig(usize),
    /// 9: a byte after a raw raster, or one that is no white space after a plain one.
    #[error("bytes behind the raster, at {0}")]
    TrailingBytes(usize),
    /// 10: the bytes are a picture, and there is no memory for it.
    #[error("out of memory")]
    Memory,
}

impl Fault for PicFault {
    ghost use Rattle.netpbm.specs.FaultTable.{number_of, name_of};

    ghost number_of = { number_of };

    ghost name_of = { name_of };

    fn row(&self) -> FaultRow {
        fault_row!(self, PicFault {
            OtherFormat(_) = 1, HeaderCut(_) = 2, BadNumber(_) = 3, BadSize(_) = 4, BadMax(_) = 5,
            CommentBehindDigit(_) = 6, RasterCut(_) = 7, SampleTooBig(_) = 8, TrailingBytes(_) = 9, Memory = 10,
        })
    }
}

impl PicFault {
    ghost use Rattle.std.specs.Prelude.{◌≡◌};
    ghost use Rattle.netpbm.specs.FaultTable.{offset_of};

    /// The place of the fault, counted from the first byte. Memory has none.
    pub fn offset(self) -> Option<usize>
        ensures { result ≡ offset_of self }
    {
        fault_place!(self, PicFault {
            OtherFormat | HeaderCut | BadNumber | BadSize | BadMax | CommentBehindDigit | RasterCut | SampleTooBig
            | TrailingBytes
        } else Memory)
    }
}
