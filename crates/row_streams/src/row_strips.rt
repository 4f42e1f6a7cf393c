#![tactic(auto)]
//! How rows are cut into strips, which share what may be kept of them.

ghost use Rattle.std.specs.Prelude.{◌≡◌, ◌<◌, ◌≤◌, ◌*◌};
ghost use Rattle.std.specs.Int.{div_ceil};
ghost use Rattle.row_plans.specs.Rows.{most_numbers};
ghost use Rattle.row_streams.specs.Strips.{strip_end, strip_start};

use row_plans::MOST_NUMBERS;

/// Strips of some rows, of so many each but the last.
#[derive(Drop)]
pub(crate) struct RowStrips {
    // How many rows there are.
    height: usize,
    // How many rows a strip has.
    len: usize,
    ghost some: { 0 < len },
}

impl RowStrips {
    /// So many rows in strips of `len` rows each but the last.
    pub(crate) fn new(height: usize, len: usize) -> RowStrips
        requires { 0 < len }
        ensures height { result.height ≡ height }
        ensures len { result.len ≡ len }
    {
        RowStrips { height, len }
    }

    /// How many strips there are.
    pub(crate) fn count_row_strips(&self) -> usize
        ensures { result ≡ div_ceil self.now.height self.now.len }
    {
        self.height.div_ceil(self.len)
    }

    /// The most numbers that are kept for each strip: all together keep at most as many as one strip of all rows.
    pub(crate) fn find_row_strip_share(&self) -> u64
        ensures { div_ceil self.now.height self.now.len * result ≤ most_numbers }
    {
        MOST_NUMBERS / (self.count_row_strips() as u64).max(1)
    }

    /// The first row of the strip of this number.
    pub(crate) fn find_row_strip_start(&self, number: usize) -> usize
        ensures { result ≡ strip_start self.now.height self.now.len number }
    {
        number.saturating_mul(self.len).min(self.height)
    }

    /// The row behind the last one of the strip of this number.
    pub(crate) fn find_row_strip_end(&self, number: usize) -> usize
        ensures { result ≡ strip_end self.now.height self.now.len number }
    {
        self.find_row_strip_start(number)
            .saturating_add(self.len)
            .min(self.height)
    }
}
